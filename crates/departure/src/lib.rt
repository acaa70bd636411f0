//! A departure: what a switch tells of a packet that leaves it, and what a `D` line of its listing says.
#![tactic(auto)]

/// A packet that leaves: the nine fields of its `D` line, in their order, and its length.
#[derive(Clone, Copy, Default)]
pub struct Departure {
    /// The tick at which it leaves: its last byte has passed.
    pub tick: u64,
    /// The input that it came by.
    pub input: usize,
    /// The output that it leaves by.
    pub output: usize,
    /// Its number in its flow, from 0.
    pub serial: u64,
    /// The tick at which it arrived.
    pub arrival: u64,
    /// The tick at which it started across.
    pub crossing: u64,
    /// The tick at which it started out.
    pub sending: u64,
    /// The whole tick of its virtual finish.
    pub whole: u64,
    /// The numerator of its virtual finish, over the flow's weight.
    pub numerator: u64,
    /// Its length, which the line does not say.
    pub bytes: u32,
}

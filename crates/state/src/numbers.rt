//! What a question and a report answer.

/// The numbers of a flow at a tick.
#[derive(Clone, Copy)]
pub struct Numbers {
    /// Its share of a line, in parts of W.
    pub weight: u32,
    /// The packets that wait at the input: stored and not started across.
    pub waiting_in: usize,
    /// The packets that wait at the output: wholly crossed and not started out.
    pub waiting_out: usize,
    /// The bytes that its crosspoint holds: a packet counts whole from the start of its crossing until it has left.
    pub held: u64,
    /// The most that it has held.
    pub peak: u64,
    /// The bytes accepted since the seal.
    pub accepted: u64,
    /// The bytes of the packets that have started across.
    pub started: u64,
    /// The bytes of the packets that have left.
    pub departed: u64,
    /// The flow's fluid amount, in W-ths of a byte.
    pub fluid: u64,
}

/// What a report says of a flow at the end of a run.
#[derive(Clone, Copy)]
pub struct Report {
    /// The most bytes that its crosspoint held.
    pub peak: u64,
    /// The bytes accepted.
    pub accepted: u64,
    /// The bytes of the packets that have left.
    pub departed: u64,
}

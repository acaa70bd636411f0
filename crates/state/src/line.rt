//! What a running switch keeps of each line, and of each flow.
use timing::Stamp;

/// What a line is busy with, and until when. A line is kept as an `Option` of it, none while it is idle. One that is kept
/// past that tick is free too.
#[derive(Clone, Copy)]
pub struct Busy<T> {
    pub load: T,
    /// The tick at which the line falls free.
    pub until: u64,
}

/// What is kept of one flow beside its stored packets. The totals are in bytes since the seal, modulo 2^64.
#[derive(Clone, Copy, Default)]
pub struct Ledger {
    /// The virtual finish of the packet accepted last. It stays when the flow runs empty.
    pub last: Option<Stamp>,
    /// The bytes accepted.
    pub accepted: u64,
    /// The bytes of the packets that have started across.
    pub started: u64,
    /// The bytes of the packets that have left.
    pub departed: u64,
    /// The most bytes that the flow's crosspoint has held, read at each start across.
    pub peak: u64,
    /// How many of the stored packets have started across: they are the oldest.
    pub under_way: usize,
}

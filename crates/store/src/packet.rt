//! A packet as it is stored, and as it comes in.
ghost use Rattle.std.specs.Prelude.{◌≡◌};
ghost use Rattle.store.specs.Stored.{numbered, started_across};

use timing::Stamp;

/// A stored packet of a flow.
#[derive(Clone, Copy, Default)]
pub struct Packet {
    /// its number within the flow
    pub serial: u64,
    /// the tick of its arrival
    pub arrival: u64,
    pub bytes: u32,
    /// its virtual start and finish
    pub start: Stamp,
    pub finish: Stamp,
    /// the tick at which it starts to cross, at first none
    pub crossing: Option<u64>,
}

impl Packet {
    /// The packet once its crossing has started.
    pub fn started_across(self, tick: u64) -> Packet
        ensures { result ≡ started_across tick self }
    {
        Packet {
            crossing: Some(tick),
            ..self
        }
    }
}

/// A packet that has no serial yet.
#[derive(Clone, Copy)]
pub struct Incoming {
    pub arrival: u64,
    pub bytes: u32,
    pub start: Stamp,
    pub finish: Stamp,
}

impl Incoming {
    // The packet stored for it, under a serial.
    pub(crate) fn numbered(self, serial: u64) -> Packet
        ensures { result ≡ numbered serial self }
    {
        Packet {
            serial,
            arrival: self.arrival,
            bytes: self.bytes,
            start: self.start,
            finish: self.finish,
            crossing: None,
        }
    }
}

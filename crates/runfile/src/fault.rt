//! Why a run file is refused.
ghost use Rattle.std.specs.Prelude.{◌≡◌};
ghost use Rattle.runfile.specs.Numbers.{read_number, code};
ghost use Rattle.runfile.specs.Records.{fault_at};
ghost use Rattle.runfile.specs.declared.fault.Cause.{Cause as Made};
ghost use Rattle.runfile.specs.declared.fault.Cause.TheVariants as cause;

use plan::{ArriveFault, ShareFault, SizeFault};

/// A refusal of the reader.
#[derive(Clone, Copy, PartialEq, Eq, Debug)]
pub enum ReadFault {
    /// the file has more than 65,536 bytes
    TooLong = 14,
    /// no record has this kind
    UnknownKind = 15,
    /// the file ends inside a record, or before its end record
    CutShort = 16,
    /// the record may not stand here
    OutOfOrder = 17,
    /// an arrival's tick lies before the clock
    EarlyTick = 18,
    /// no store or no rule has this value
    UnknownChoice = 19,
    /// bytes follow the end record
    AfterEnd = 20,
}

impl ReadFault {
    /// The number of the refusal.
    pub fn number(self) -> u8
        ensures { result ≡ read_number self }
    {
        self as u8
    }
}

/// A refusal of the reader, or one of the plan or the switch beneath it.
#[derive(Clone, Copy, PartialEq, Eq, Debug)]
pub enum Cause {
    /// the reader refuses the file
    Read(ReadFault),
    /// the plan refuses the size of the head
    Size(SizeFault),
    /// the plan refuses the share
    Share(ShareFault),
    /// the switch refuses the arrival
    Arrive(ArriveFault),
}

impl From<ReadFault> for Cause {
    ghost from_gives = { λ f c. c ≡ cause.Read f };

    fn from(refusal: ReadFault) -> Cause {
        Cause::Read(refusal)
    }
}

impl From<SizeFault> for Cause {
    ghost from_gives = { λ f c. c ≡ cause.Size f };

    fn from(refusal: SizeFault) -> Cause {
        Cause::Size(refusal)
    }
}

impl From<ShareFault> for Cause {
    ghost from_gives = { λ f c. c ≡ cause.Share f };

    fn from(refusal: ShareFault) -> Cause {
        Cause::Share(refusal)
    }
}

impl From<ArriveFault> for Cause {
    ghost from_gives = { λ f c. c ≡ cause.Arrive f };

    fn from(refusal: ArriveFault) -> Cause {
        Cause::Arrive(refusal)
    }
}

impl Cause {
    /// The layer that refuses, reader 1, plan 2 or switch 3, and the number of the refusal: the two numbers of an `R` line.
    pub fn code(self) -> (u8, u8)
        ensures { result ≡ code self }
    {
        match self {
            Cause::Read(fault) => (1, fault.number()),
            Cause::Size(fault) => (2, fault.number()),
            Cause::Share(fault) => (2, fault.number()),
            Cause::Arrive(fault) => (3, fault.number()),
        }
    }
}

/// A refusal, and the place of the record or of the byte that it speaks of.
#[derive(Clone, Copy, PartialEq, Eq, Debug)]
pub struct Fault {
    pub place: usize,
    pub cause: Cause,
}

impl Fault {
    /// The refusal at this place.
    pub fn at<C: Into<Cause>>(place: usize, cause: C) -> Fault
        ensures { (made : Made) × C.converts cause made × (result ≡ fault_at place made) }
    {
        Fault {
            place,
            cause: cause.into(),
        }
    }
}

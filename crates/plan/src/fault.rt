//! What a plan, and a switch over it, refuse, and the number of each refusal.
ghost use Rattle.std.specs.Prelude.{◌≡◌, ◌-◌, ◌^◌};
ghost use Rattle.plan.specs.declared.fault.ShareFault.TheVariants as share;
ghost use Rattle.plan.specs.declared.fault.ArriveFault.TheVariants as arrive;
ghost use Rattle.plan.specs.declared.fault.TheConstants.{LAST_TICK};
ghost use Rattle.plan.specs.Numbers.{size_number, share_number, port_number, arrive_number, step_number};

/// A size that is not accepted.
#[derive(Clone, Copy, PartialEq, Eq, Debug)]
pub enum SizeFault {
    /// N is not 1 to 16
    Ports = 1,
    /// L is not 1 to 1,500
    Longest = 2,
    /// W is not 1 to 10,000
    Parts = 3,
}

impl SizeFault {
    /// The number of the refusal.
    pub fn number(self) -> u8
        ensures { result ≡ size_number self }
    {
        self as u8
    }
}

/// A share that is not booked.
#[derive(Clone, Copy, PartialEq, Eq, Debug)]
pub enum ShareFault {
    /// the input or the output is not below N
    Port = 4,
    /// the weight is above W
    Weight = 5,
    /// the input's weights would sum to more than W
    Row = 6,
    /// the output's weights would sum to more than W
    Column = 7,
}

impl ShareFault {
    /// The number of the refusal.
    pub fn number(self) -> u8
        ensures { result ≡ share_number self }
    {
        self as u8
    }
}

/// A question about a port that is not below N.
#[derive(Clone, Copy, PartialEq, Eq, Debug)]
pub enum PortFault {
    Port = 4, // as in ShareFault and ArriveFault
}

impl PortFault {
    /// The number of the refusal.
    pub fn number(self) -> u8
        ensures { result ≡ port_number self }
    {
        self as u8
    }
}

/// A packet that a switch over the plan does not accept.
#[derive(Clone, Copy, PartialEq, Eq, Debug)]
pub enum ArriveFault {
    /// the input or the output is not below N
    Port = 4,
    /// the length is not 1 to L
    Length = 8,
    /// the flow has weight 0
    Closed = 9,
    /// the store's sign of the flow is up
    Full = 10,
}

impl ArriveFault {
    /// The number of the refusal.
    pub fn number(self) -> u8
        ensures { result ≡ arrive_number self }
    {
        self as u8
    }
}

impl From<PortFault> for ShareFault {
    ghost from_gives = { λ _ f. f ≡ share.Port };

    fn from(fault: PortFault) -> ShareFault {
        match fault {
            PortFault::Port => ShareFault::Port,
        }
    }
}

impl From<PortFault> for ArriveFault {
    ghost from_gives = { λ _ f. f ≡ arrive.Port };

    fn from(fault: PortFault) -> ArriveFault {
        match fault {
            PortFault::Port => ArriveFault::Port,
        }
    }
}

/// The last tick of the clock, 2^40 − 1: no step is made at it.
pub const LAST_TICK: u64 = 0xff_ffff_ffff;

/// The clock goes up to that tick, and no other.
pub fn last_tick_stands()
    ensures { LAST_TICK ≡ 2 ^ 40 - 1 }
{}

/// A step that is not made.
#[derive(Clone, Copy, PartialEq, Eq, Debug)]
pub enum StepFault {
    /// the list for departures is shorter than N
    Short = 11,
    /// the clock stands at its last tick
    Last = 12,
}

impl StepFault {
    /// The number of the refusal.
    pub fn number(self) -> u8
        ensures { result ≡ step_number self }
    {
        self as u8
    }
}

//! Why the carrying of a file stops before its end.
ghost use Rattle.std.specs.Prelude.{◌≡◌};
ghost use Rattle.carry.specs.declared.stop.Stop.TheVariants as stop;

use runfile::Fault;
use std::alloc::AllocError;

/// The file is refused, or there is no memory for its listing.
#[derive(Clone, Copy)]
pub enum Stop {
    Refused(Fault),
    Memory(AllocError),
}

// By hand, not by thiserror: clauses read `from_gives`, and thiserror's From has no contract.
impl From<Fault> for Stop {
    ghost from_gives = { λ f s. s ≡ stop.Refused f };

    fn from(fault: Fault) -> Stop {
        Stop::Refused(fault)
    }
}

impl From<AllocError> for Stop {
    ghost from_gives = { λ e s. s ≡ stop.Memory e };

    fn from(error: AllocError) -> Stop {
        Stop::Memory(error)
    }
}

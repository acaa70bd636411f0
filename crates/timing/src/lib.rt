//! Exact virtual times of a fair-queueing switch, and the one chooser of first marks.
#![tactic(auto)]

ghost use Rattle.std.specs.Prelude.{◌≡◌, ◌<◌};

mod flow;
mod fluid;
mod marks;
mod stamps;

pub use flow::Stamper;
pub use fluid::fluid_amount;
pub use marks::{Mark, choose};
pub use stamps::{virtual_finish, virtual_length, virtual_start};

/// A virtual time of a flow: a whole tick and a numerator over the flow's weight, below it.
#[derive(Clone, Copy)]
pub struct Stamp {
    tick: u64,
    numerator: u32,
    weight: u32,
    ghost below: { numerator < weight },
}

// The time 0, of weight 1: what a place for a stamp holds before one is kept there.
impl Default for Stamp {
    ghost is_default = { λ s. (s.tick ≡ 0) × (s.numerator ≡ 0) × (s.weight ≡ 1) };

    fn default() -> Stamp {
        Stamp {
            tick: 0,
            numerator: 0,
            weight: 1,
        }
    }
}

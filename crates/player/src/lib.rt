//! Playing a run on a switch: ticks and arrivals, each as the replay of the run has it.
#![tactic(auto)]

mod named;
mod player;

pub use named::{NamedRule, NamedStore};
pub use player::Player;

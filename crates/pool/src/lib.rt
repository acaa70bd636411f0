//! A store of 512 packets for all flows.
#![tactic(auto)]

mod cells;
mod links;

pub use cells::Pool;

//! The plan of a switch: its size, and the share of bandwidth that is booked for each flow.
#![tactic(auto)]

mod fault;
mod size;
mod table;

pub use fault::{
    ArriveFault, LAST_TICK, PortFault, ShareFault, SizeFault, StepFault, last_tick_stands,
};
pub use size::Size;
pub use table::Plan;

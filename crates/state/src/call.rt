//! Calls of a running switch, and their answers.
use crate::numbers::Numbers;
use departure::Departure;
use plan::{ArriveFault, PortFault, StepFault};

/// A call of a running switch.
#[derive(Clone, Copy)]
pub enum Call {
    /// A packet comes to a flow.
    Arrive {
        input: usize,
        output: usize,
        bytes: u32,
    },
    /// One tick, with a list for so many departures.
    Step {
        room: usize,
    },
    /// A question about a flow.
    Ask {
        input: usize,
        output: usize,
    },
}

/// What a step lists: the first `count` of these departures.
// An array with its count: no memory is allocated for a listing, and an answer is Copy, as no vector is.
#[derive(Clone, Copy)]
pub struct Listed {
    pub departures: [Departure; 16],
    pub count: usize,
}

/// The answer of a call.
#[derive(Clone, Copy)]
pub enum Answer {
    Arrive(Result<(), ArriveFault>),
    Step(Result<Listed, StepFault>),
    Ask(Result<Numbers, PortFault>),
}

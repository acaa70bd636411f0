//! The switch, over any store and any tie rule.
//!
//! A draft books shares and is sealed. A running switch takes arrivals, steps and questions, passes quiet ticks, and is
//! settled at last; a settled one reports. Each call says what it answers and leaves, by the definitions of crate `state`,
//! and what it makes of a run of the law.
#![tactic(auto)]

mod arrive;
mod ask;
mod cross;
mod draft;
mod due;
mod finish;
mod flow;
mod lines;
mod port;
mod quiet;
mod ready;
mod running;
mod runs;
mod send;
mod settled;
mod stamping;
mod step;

pub use departure::Departure;
pub use draft::Draft;
pub use plan::StepFault;
pub use running::Running;
pub use runs::{Performed, perform};
pub use settled::Settled;
pub use state::{Answer, Call, Listed, Numbers, Report, ReportFault};

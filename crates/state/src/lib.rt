//! The state of a running switch as plain data, and what each call does to it.
//!
//! specs/ defines the state, the effect of each call on it, and when a state stands for a switch of the law; proofs/ shows
//! that each call's effect carries every run of the law on. The code that has these effects is crate `switch`; here are only
//! the types that both speak of.
#![tactic(auto)]

mod call;
mod fault;
mod line;
mod numbers;

pub use call::{Answer, Call, Listed};
pub use fault::ReportFault;
pub use line::{Busy, Ledger};
pub use numbers::{Numbers, Report};

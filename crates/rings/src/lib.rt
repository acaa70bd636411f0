//! A store of two packets a flow.
#![tactic(auto)]

mod table;

pub use table::Rings;

//! Tie rules: which of the positions that are tied at a port of a switch is picked.
#![tactic(auto)]

mod positions;
mod question;
mod rules;

pub use positions::{first_tied, longest_tied, lowest_tied};
pub use question::Question;
pub use rules::{Longest, Lowest, TieRule, Turn};

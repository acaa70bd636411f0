//! Where the packets of a switch wait: what a store means, and the numbering of packets over any store.
#![tactic(auto)]

mod meaning;
mod numbered;
mod packet;

pub use meaning::{MOST_STORED, Store, most_stored_stands};
pub use numbered::Numbered;
pub use packet::{Incoming, Packet};

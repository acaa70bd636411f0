//! Run files: bytes to records, and the refusals of their reader.
#![tactic(auto)]

mod body;
mod fault;
mod order;
mod record;

pub use body::{Arrival, Head, RuleKind, Share, StoreKind};
pub use fault::{Cause, Fault, ReadFault};
pub use order::{read_booking, read_head, read_traffic};
pub use record::{Kind, Record, Rest, open, read_record};

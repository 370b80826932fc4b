//! The way up through a rekey file.
#![tactic(auto)]

mod climb;
mod fault;
mod search;

pub use climb::WayUp;
pub use fault::{DatedFault, ReadFault};

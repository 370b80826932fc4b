//! The kinds of key wraps: their numbers, and the wrap of each.
#![tactic(auto)]

mod job;
mod kind;

pub use job::WrapJob;
pub use kind::{Kind, UnknownKind};

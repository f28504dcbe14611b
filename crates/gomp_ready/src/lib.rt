//! The tasks of a team that may be taken: a deque of each member, and a list for all.
//!
//! [`Ready`] knows nothing of who may start a task: a caller that takes one says which it may. OpenMP
//! API 5.2, section 12.9, leaves to the runtime which task it takes.
#![tactic(auto)]

mod deque;
mod marks;
pub mod ready;
mod stages;

pub use ready::Ready;

//! The groups of a team's tasks: which are open, and whether their tasks are complete.
//!
//! A `taskgroup` waits for the tasks that are created in it and for all that descend from them, a
//! `taskwait` for the children of a task. [`Groups`] counts both, so no call goes over the tasks. It
//! stands for a list of events, the newest first: each call says what it answers after such a list,
//! and what list the value then stands for. OpenMP API 5.2, sections 15.4 and 15.5.
#![tactic(auto)]

pub mod groups;
pub mod links;
pub mod rows;

pub use groups::Groups;
pub use links::{GroupLink, MAX_GROUPS};
pub use rows::{GroupRow, GroupSeat, SeatedTask};

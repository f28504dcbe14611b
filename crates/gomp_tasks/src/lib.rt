//! The explicit tasks of a team: what each is, the tree that they form, what has become of them, and
//! the tasks that each member has started and not ended.
//!
//! A task is created in the task that a member executes, its parent; it is started by some member,
//! and ended by the same one, unless a cancellation discards it before. Tasks are numbered from 1
//! in the order of their creation. [`Tasks`] stands for a list of events, the newest first: each
//! call says what it answers after such a list, and what list the value then stands for. OpenMP API
//! 5.2, chapter 12.
#![tactic(auto)]

pub mod rows;
mod stack;
pub mod tasks;

pub use rows::{Newest, TaskRow, TaskState};
pub use tasks::{Ended, MAX_TASKS, Tasks};

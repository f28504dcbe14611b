//! The scheduler of a team: its tasks, its groups, its barriers, what its tasks wait for, and what is
//! cancelled, joined.
//!
//! [`Scheduler`] stands for a list of all events of its team, the newest first: each call that changes
//! it says which event it puts in front, and each question is answered after such a list. It keeps no
//! history, and refuses nothing: who asks knows that the rule of tasks allows the step. OpenMP API
//! 5.2, chapter 12 and sections 15.3 to 15.5 and 16.1.
#![tactic(auto)]

mod barriers;
mod cancels;
mod groups;
pub mod scheduler;
mod startable;
pub mod tasks;

pub use gomp_tasks::{Ended, Newest};
pub use scheduler::Scheduler;

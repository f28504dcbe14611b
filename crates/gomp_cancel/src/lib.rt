//! What of a team is cancelled: the region, and which groups of tasks.
//!
//! A cancellation of the region reaches each task of the team, one of a group each task that the
//! group's end waits for. [`Cancellation`] keeps a flag for the region and a mark for each group,
//! and walks the groups around a task. It stands for a list of events, the newest first: each
//! call says what it answers after such a list, and what list the value then stands for. OpenMP
//! API 5.2, sections 16.1 and 16.2.
#![tactic(auto)]

pub mod cancellation;

pub use cancellation::Cancellation;

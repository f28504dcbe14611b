//! The stored events of a team, the oldest first, and where each task was created among them.
//!
//! [`History`] appends events and reads them. The description of a task stands in the event of its
//! creation alone: [`History::desc`] lends it, in one step.
#![tactic(auto)]

pub mod history;

pub use history::History;

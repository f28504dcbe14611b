//! The board of a team: its tasks, groups, barriers and the words of its singles together, and the
//! events that it stores.
//!
//! [`Board`] stands for a list of all events of its team, the newest first, and for the list of its
//! own history among them: [`Board::step`] says what it answers after such a list, and for what list
//! it stands then. It asks for no order of its calls: an operation that the member may not make is
//! refused by name, so the history keeps the rules of tasks and of barriers whoever makes the calls.
//! OpenMP API 5.2, chapter 12 and sections 5.7.2 and 15.3 to 15.5.
#![tactic(auto)]

mod answer;
mod arrivals;
pub mod board;
mod cancels;
mod groups;
pub mod op;
pub mod payloads;
mod queries;
mod refusals;
mod room;
mod tasks;
mod waits;
mod words;

pub use board::Board;
pub use op::{Op, TeamCancel};
pub use queries::items_refusal;

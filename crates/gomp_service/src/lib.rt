//! What the services of `ompteam` share: the size of a team and the status of its replies, how a text is read whole,
//! how bytes are written, how a service ends, and what is noted beside the output.
#![tactic(auto)]

pub mod answer;
pub mod notes;
pub mod read;
pub mod write;

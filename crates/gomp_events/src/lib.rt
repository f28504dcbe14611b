//! The events of a team, what a record of them means, and the laws that follow from that meaning
//! alone.
//!
//! [`Event`] is one thing that happened; a record is a list of them, the newest first. The definitions
//! are in `specs/`: work-shares, barriers, tasks with their groups and dependences, cancellation.
//! `proofs/Laws.antt` names what is proved of them.
#![tactic(auto)]

pub mod event;
pub mod room;
pub mod seen;

pub use event::{Arrival, Event, Tag};
pub use room::{ARRIVAL_ROOM, CANCEL_ROOM, GROUP_ROOM, PAYLOAD_ROOM, TASK_ROOM};
pub use seen::Seen;

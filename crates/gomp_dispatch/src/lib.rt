//! The parts of a team: its work-shares and its board, which answer one call of one member
//! together.
//!
//! [`call_shape`] says why the call is refused by its member's place among the shares, and by the
//! comparison with other members, or what share it starts; [`task_refusal`] says why tasks, groups
//! or want of room refuse it; they change nothing. [`call_admitted`](answer::call_admitted) answers a call that
//! no test refuses, by the crate that serves its construct. [`leaving_refusal`] says why a member
//! that leaves something cancelled does not make the call, and [`Leaving`] what it leaves. Each
//! part stands for all events of the team, so the parts are never interleaved. Who the member is,
//! whether its team is broken and what it waits for is the team's (gomp_core).
#![tactic(auto)]

pub mod answer;
mod arrivals;
pub mod leaving;
pub mod lets;
pub mod refusals;
mod room;
mod shares;
mod tasks;

pub use leaving::{Leaving, Manner, leaving_refusal};
pub use refusals::{call_shape, place_of, unless_refused};
pub use shares::cut_reply;
pub use tasks::task_refusal;

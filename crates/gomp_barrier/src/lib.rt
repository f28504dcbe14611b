//! The barriers of a team: who has arrived where, with which tag, how many open tasks are bound to
//! each, and who may go on.
//!
//! A `barrier` construct, the end of a work-share and the end of the region are arrivals; a member's
//! barriers are numbered from 0 as it passes them. [`Barriers`] stands for a list of events, the
//! newest first: each call says what it answers after such a list, and what list the value then
//! stands for. OpenMP API 5.2, section 15.3.
#![tactic(auto)]

pub mod barriers;
mod bound;
mod front;

pub use barriers::{AtBarrier, Barriers};

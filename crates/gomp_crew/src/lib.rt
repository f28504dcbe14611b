//! Threads that start once and are then handed jobs, one each, as often as there are jobs.
//!
//! A [`Crew`] gives a team its threads (OpenMP API 5.2, section 10.1). [`Crew::grow`] starts them
//! before there is a job, so that no job is lost if no thread can be had. [`Crew::run_all`] takes a job
//! for each member of the team, runs the first one on the calling thread and every other one on a
//! thread of its own, and answers their outcomes in the order of the jobs. It takes no memory.
//! [`Crew::stop`] ends the threads.
#![tactic(auto)]

pub mod crew;
mod line;
mod turn;
pub mod work;
mod worker;

pub use crew::Crew;
pub use work::{Host, Work};

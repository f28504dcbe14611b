//! What a tool gets of a team's calls: records of the events of the OMPT interface (OpenMP API 5.2,
//! chapter 19), and what takes them.
//!
//! [`records`] says which records a call gives, from the call and its reply alone. A [`Tool`] takes
//! them one by one: a [`Trace`] keeps them in order, [`Counts`] counts them.
#![tactic(auto)]

pub mod counts;
pub mod record;
pub mod table;
pub mod tool;
pub mod trace;

pub use counts::Counts;
pub use record::{Endpoint, POINTS, Point, Record};
pub use table::{MAX_RECORDS, records};
pub use tool::{Tool, give_records};
pub use trace::Trace;

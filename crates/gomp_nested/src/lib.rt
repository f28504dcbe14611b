//! Nested parallel regions: a member of a team forks one, whose members run on threads of its own (OpenMP API
//! 5.2, sections 10.1 and 10.1.1).
//!
//! [`nested_region`] forks one, on the threads that its team may have ([`TeamThreads`]). What all teams of a
//! runtime share, the book of critical names and locks and the numbers of their regions, is [`Common`]; those of
//! one outermost region share its threads too ([`Shared`]).
#![tactic(auto)]

pub mod common;
pub mod ledgers;
pub mod nested;
mod pool;
pub mod shared;
pub mod threads;

pub use common::{BOOK_PARTS, ClosedBook, Common, FIRST_NESTED, OpenBook};
pub use ledgers::Blanks;
pub use nested::{nested_region, unbegun};
pub use pool::{TEAM_BOOK_PARTS, TEAM_PARTS};
pub use shared::Shared;
pub use threads::{TeamThreads, Threads};

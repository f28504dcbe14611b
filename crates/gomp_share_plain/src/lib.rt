//! The body of the work-shares for one thread that steps all members: [`PlainShares`].
//!
//! What its calls answer is the contract of [`gomp_shares::Shares`]. OpenMP API 5.2, chapter 11.
#![tactic(auto)]

mod open_share;
pub mod plain;
mod seat;

pub use plain::PlainShares;

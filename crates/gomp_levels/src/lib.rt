//! The levels of parallel regions: an outermost region, within which three levels of others are served, each round
//! the next (OpenMP API 5.2, sections 10.1 and 10.1.1).
//!
//! [`outermost`] forks one. Each of its members has round it what forks a region of the next level ([`Around`]);
//! those of the last have [`LastLevel`], which refuses one.
#![tactic(auto)]

pub mod levels;
pub mod nesting;

pub use levels::{Around, LastLevel, NestGround, OneLevel, ThreeLevels, TwoLevels};
pub use nesting::{OutermostCrew, OutermostGround, outermost};

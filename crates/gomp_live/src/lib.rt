//! A talk with teams: a line in, its answer out at once.
//!
//! [`talk::Talk`] answers a line by the lines before it: `team N` begins a new team, `MEMBER CALL` is a step of the team that
//! stands. [`serve::serve_live`] reads the lines, and writes each answer before it reads on.
#![tactic(auto)]

pub mod serve;
pub mod talk;

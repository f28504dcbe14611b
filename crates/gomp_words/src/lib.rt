//! A call of a team's member as words, whole numbers of 64 bits, and its reply as numbers: so that a
//! program in C can ask a team by one function.
//!
//! The README has the table of both.
#![tactic(auto)]

mod arguments;
mod call;
mod items;
pub mod numbers;
pub mod step;

pub use numbers::{Numbers, numbers_of};
pub use step::{StepRead, read_step};

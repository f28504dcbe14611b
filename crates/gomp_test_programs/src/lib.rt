//! What the crates of tests of parallel regions on threads share: programs that make planned calls, and the regions that run them. It
//! compares nothing: an assertion is for tests alone.
#![tactic(auto)]

pub mod planned;
pub mod regions;

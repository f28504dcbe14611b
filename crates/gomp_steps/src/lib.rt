//! From a text of steps to the text of its replies.
//!
//! [`serve::serve_steps`] reads a text of steps of an OpenMP team, runs it and writes the reply to each.
#![tactic(auto)]

mod answer;
pub mod serve;

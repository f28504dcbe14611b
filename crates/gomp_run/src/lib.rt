//! A script's region, run on threads.
//!
//! [`answer::run_text`] forks the region of a script, whose members run its programs, and says how many
//! there were, what they added up to and how many iterations they took; [`serve::serve_run`] reads the
//! text and writes that. OpenMP API 5.2, section 10.1.
#![tactic(auto)]

pub mod answer;
pub mod program;
pub mod serve;

pub use program::RegionProgram;

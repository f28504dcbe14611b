//! The internal control variables of a data environment: what they begin with, what the words of
//! the environment make of them, and how large a team they give.
//!
//! OpenMP API 5.2, chapters 2 and 21, and section 10.1.1. `Variables.antt` says what the variables
//! are, `Teams.antt` what size they give a team and what its members get, `EnvValues.antt` and
//! `EnvWords.antt` what the words of the environment mean; the examples of `proofs/` compute them.
#![tactic(auto)]

mod env;
mod icv;
mod num_threads;
mod teams;
mod values;

pub use env::read_env;
pub use icv::Icv;
pub use num_threads::NumThreads;
pub use teams::{child_icv, team_size};

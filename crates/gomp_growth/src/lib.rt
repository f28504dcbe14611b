//! How the memory of lists grows: by a part of what they hold, so that what they hold is seldom moved.
#![tactic(auto)]

pub mod growth;

pub use growth::{SIXTEENTH, growth_of, reserve_one};

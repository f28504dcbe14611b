//! The words of one slot of the ring: its gate, whose fields change in single steps, and the four words that tell the shape
//! of its share.
//!
//! A team has eight slots, and share `i` is in slot `i % 8`. The functions are pure: they say what a word tells and what the next
//! one is, not how threads change it. OpenMP API 5.2, chapter 11.
#![tactic(auto)]

pub mod gate;
pub mod shape;

pub use gate::{
    Gate, Phase, all_passed, cancelled, claimed, decode, holds_share, is_bare, is_bare_single,
    is_free_for, left, opened, opening, passed, retired,
};
pub use shape::{packed_shape, shape_word};

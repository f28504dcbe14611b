//! The lines, words and numbers of a text, which is its bytes.
//!
//! `Words.antt` says what the lines and the words of a text are, `Numbers.antt` what number a word
//! writes, and `Blanks.antt` what is left without the blanks around it.
#![tactic(auto)]

mod blanks;
mod numbers;
mod words;

pub use blanks::{is_word_in_any_case, without_blanks};
pub use numbers::{signed, unsigned};
pub use words::{cut_at, is_ascii, is_word, next_word};

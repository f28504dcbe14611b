//! What a text is, and how many lines it has: nothing of it is run, and no team is made.
//!
//! [`answer::check_text`] says it of a text of steps or of a script, or tells its first bad line;
//! [`serve::serve_check`] reads the text and writes that.
#![tactic(auto)]

pub mod answer;
pub mod serve;

//! What `ompteam` does with its words: it has a text of steps served, lines one by one, a text checked, or a script run.
//!
//! [`run_process`] does everything, from the words of the command line to the number with which the process ends:
//! [`serve::serve`] has the words read and the input served, and what is noted beside the output is written. The program only
//! hands the process's words, input, output and standard error on. gomp_command reads the words, gomp_steps serves a text and
//! writes the notes, gomp_live serves line by line, gomp_check says what a text is, gomp_run runs a script.
#![tactic(auto)]

mod process;
pub mod serve;
mod status;

pub use process::run_process;

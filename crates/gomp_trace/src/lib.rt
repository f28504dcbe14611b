//! From a text of steps to a trace of its run, in the Chrome Trace Event format (JSON): a lane for each
//! member, which chrome://tracing and Perfetto show.
//!
//! [`serve::serve_trace`] reads a text of steps of an OpenMP team, runs it and writes its trace.
#![tactic(auto)]

mod answer;
pub mod event;
mod json;
mod lane;
mod meant;
mod name;
mod run;
pub mod serve;
mod tracing;

pub use event::TraceEvent;

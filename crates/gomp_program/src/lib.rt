//! The program of a region script: which call each member of its team makes next.
//!
//! [`ScriptProgram`] is the program of one member. It is handed the reply to its last act and answers the next one.
//! Nothing here is recursive by the depth of blocks or tasks: what a member is in stands in a list of frames.
#![tactic(auto)]

pub mod acts;
pub mod frame;
mod leaving;
pub mod program;
pub mod progress;
mod replies;
mod sections;
mod statements;
mod waiting;

pub use acts::ScriptAct;
pub use program::ScriptProgram;

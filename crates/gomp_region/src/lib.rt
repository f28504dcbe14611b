//! Region scripts: the text of a parallel region, which every member of its team runs.
//!
//! [`parse_script`] reads exactly the texts that `ScriptText.antt` defines, and tells of any other
//! the first bad line and its first fault; [`print_bad_script`] prints that, byte for byte.
#![tactic(auto)]

mod ends;
mod line;
mod nesting;
mod parse;
mod print;
mod script;
mod statement;

pub use nesting::{MAX_BLOCKS, OpenBlock};
pub use parse::parse_script;
pub use print::print_bad_script;
pub use script::{AskedSize, BadScript, Script, ScriptError, ScriptLine, ScriptWhy};
pub use statement::{Addend, BlockConstruct, EndWord, Nesting, Statement, TaskClauses};

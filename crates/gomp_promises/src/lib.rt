//! Promises that no other crate builds on, each asked once more of its contract or law alone: a promise that said less would not do.
//!
//! The program calls nothing here. A contract whose clauses all have a caller that needs them needs no page here.
#![tactic(auto)]

pub mod boards;
pub mod budgets;
pub mod constructs;
pub mod depends;
pub mod locks;
pub mod loops;
pub mod payloads;
pub mod pieces;
pub mod process;
pub mod ready;
pub mod regions;
pub mod script_texts;
pub mod scripts;
pub mod shares;
pub mod tasks;
pub mod texts;
pub mod tools;
pub mod variables;
pub mod waits;

//! The tasks that name one address in their `depend` clauses, in the order of creation.
//!
//! A task waits for the earlier open children of its parent, at each address that it names. So the
//! open children of one parent that name one address stand in a line. Of two of them the later one
//! waits for the other, unless all their items there are `in`, or all are `inoutset`. [`Line`] knows
//! which of its tasks are free there. It stands for a list of tasks, the newest first: each call says
//! what it answers for such a line, and for what line the value then stands. OpenMP API 5.2, section
//! 15.9.5.
#![tactic(auto)]

pub mod classes;
pub mod lines;

pub use classes::{Class, class_at};
pub use lines::{Line, Waiting};

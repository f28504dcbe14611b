//! For which open tasks the tasks of a team wait, by their `depend` clauses.
//!
//! A task waits for the children of its parent that were created before it, if one of its items
//! depends on one of theirs. [`Depends`] keeps a line for each parent and address (gomp_lines), and of
//! each open task with items at how many addresses it waits; it hands out, once, each task that an
//! event has freed. It stands for a list of events, the newest first: each call says what it answers
//! after such a list, and what list the value then stands for. OpenMP API 5.2, section 15.9.5.
#![tactic(auto)]

pub mod depends;
pub mod free_list;
pub mod free_tasks;
pub mod keys;
pub mod row_calls;
pub mod rows;
pub mod table;

pub use depends::Depends;
pub use free_list::FreeList;
pub use keys::LineKey;
pub use rows::{Row, RowTable};
pub use table::LineTable;

//! What is kept of the open tasks that have items.

ghost use Rattle.gomp_depend.specs.Rows.{Tied};

use crate::free_list::FreeList;
use gomp_types::Task;
use std::collections::BTreeMap;

/// An open task that has items in its `depend` clause.
#[derive(Clone, Copy, Debug)]
pub struct Row {
    /// The task in which it was created.
    pub parent: Task,
    /// How many items its clause has.
    pub named: usize,
    /// At how many addresses it waits.
    pub held_count: usize,
}

/// The open tasks that have items, by their numbers, and which of them were freed. A row without items
/// says nothing.
#[derive(Drop)]
pub struct RowTable {
    /// The rows.
    pub(crate) rows: BTreeMap<u32, Row>,
    /// The tasks of rows that were freed and are not handed out yet, and how many wait at an address.
    pub(crate) list: FreeList,
    ghost tied: { Tied rows list },
}

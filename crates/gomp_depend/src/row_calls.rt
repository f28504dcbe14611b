//! The calls on the rows of tasks.

ghost use Rattle.std.specs.Prelude.{◌≡◌, ◌≢◌, ◌<◌, ◌+◌, ◌-◌, ◌&&◌, ◌||◌, ◌==◌, not, ℕ, None, IsSome, is_some, IfSome, OnOk, true, false, if◌then◌else◌};
ghost use Rattle.std.specs.Ordering.{nat_cmp};
ghost use Rattle.std.specs.BTreeMap as tree;
ghost use Rattle.gomp_depend.specs.Rows.{names_items, no_row, or_no_row, row_in, is_waiting_row};
ghost use Rattle.gomp_depend.specs.Tables.{depend_row, has_entry, HasRow, is_row_freed, listed_row_count, LowersRows};

use crate::free_list::FreeList;
use crate::rows::{Row, RowTable};
use gomp_types::Task;
use std::alloc::{AllocError, Global};
use std::collections::BTreeMap;

impl RowTable {
    /// No rows. It takes no memory.
    pub fn new(alloc: Global) -> RowTable
        ensures rows { (t : ℕ) → depend_row t result ≡ no_row }
        ensures freed { (t : ℕ) → is_row_freed t result ≡ false }
        ensures listed { listed_row_count result ≡ 0 }
    {
        RowTable {
            rows: BTreeMap::new(alloc),
            list: FreeList::new(alloc),
        }
    }

    /// Whether the task waits at no address.
    pub fn is_free(&self, task: u32) -> bool
        ensures { result ≡ ((depend_row task self.now).held_count == 0) }
    {
        match self.rows.get(&task) {
            Some(row) => row.held_count == 0,
            None => true,
        }
    }

    /// How many tasks wait at an address, or were freed and are not handed out yet.
    pub fn waiting(&self) -> usize
        ensures { result ≡ listed_row_count self.now }
    {
        self.list.count
    }

    /// Hands out one of the tasks that were freed. Its row stays.
    pub fn next_freed(&mut self) -> Option<u32>
        ensures rows { (t : ℕ) → depend_row t self.new ≡ depend_row t self.old }
        ensures task { IfSome result (λ t. is_row_freed t self.old ≡ true) }
        ensures rest { IfSome result (λ t. (u : ℕ) →
            is_row_freed u self.new ≡ (is_row_freed u self.old && not (t == u))) }
        ensures listed { IfSome result (λ t.
            listed_row_count self.new + 1 ≡ listed_row_count self.old) }
        ensures none { result ≡ None → (t : ℕ) → is_row_freed t self.old ≡ false }
        ensures same { result ≡ None → self.new ≡ self.old }
    {
        self.list.next_freed()
    }

    /// Makes room for the row of the task. It fails, and nothing changes, if the memory is refused.
    pub fn reserve(&mut self, task: u32) -> Result<(), AllocError>
        ensures rows { (t : ℕ) → depend_row t self.new ≡ depend_row t self.old }
        ensures freed { (t : ℕ) → is_row_freed t self.new ≡ is_row_freed t self.old }
        ensures listed { listed_row_count self.new ≡ listed_row_count self.old }
        ensures room { OnOk result (HasRow task self.new) }
    {
        self.list.reserve()?;
        if self.rows.get(&task).is_some() {
            return Ok(());
        }
        let row = Row {
            parent: Task::Implicit(0),
            named: 0,
            held_count: 0,
        };
        self.rows.insert(task, row)?;
        Ok(())
    }

    /// Puts the row of the task into its place. The task is freed if it waits at no address.
    pub fn put(&mut self, task: u32, row: Row)
        requires room { HasRow task self.old }
        requires new { names_items (depend_row task self.old) ≡ false }
        requires items { names_items row ≡ true }
        ensures row { depend_row task self.new ≡ row }
        ensures others { (t : ℕ) → t ≢ task → depend_row t self.new ≡ depend_row t self.old }
        ensures freed { (t : ℕ) → is_row_freed t self.new
            ≡ (is_row_freed t self.old || (row.held_count == 0 && task == t)) }
        ensures listed { listed_row_count self.new ≡ listed_row_count self.old + 1 }
    {
        let is_free = row.held_count == 0;
        put_row(&mut self.rows, task, row);
        self.list.add();
        if is_free {
            self.list.free(task);
        }
    }

    /// The task waits at one address less. It is freed if it waits at none by that.
    pub fn lower(&mut self, task: u32)
        requires held { 0 < (depend_row task self.old).held_count }
        requires items { names_items (depend_row task self.old) ≡ true }
        ensures row { depend_row task self.new ≡ record (depend_row task self.old)
            { held_count = (depend_row task self.old).held_count - 1 } }
        ensures others { (t : ℕ) → t ≢ task → depend_row t self.new ≡ depend_row t self.old }
        ensures lowers { LowersRows self.old self.new }
    {
        if lower_row(&mut self.rows, task) {
            self.list.free(task);
        }
    }

    /// Takes out the row of the task, if it has one. The task is none of those that were freed.
    pub fn remove(&mut self, task: u32) -> Option<Row>
        requires held { is_row_freed task self.old ≡ false }
        ensures row { or_no_row result ≡ depend_row task self.old }
        ensures gone { depend_row task self.new ≡ no_row }
        ensures dropped { has_entry task self.new ≡ false }
        ensures others { (t : ℕ) → t ≢ task → depend_row t self.new ≡ depend_row t self.old }
        ensures freed { (t : ℕ) → is_row_freed t self.new ≡ is_row_freed t self.old }
        ensures listed { listed_row_count self.new
            + (if is_waiting_row (depend_row task self.old) then 1 else 0)
            ≡ listed_row_count self.old }
    {
        let row = self.rows.remove(&task)?;
        if row.is_waiting() {
            self.list.take_out();
        }
        Some(row)
    }
}

impl Row {
    /// Whether the row is of a task that waits at an address.
    fn is_waiting(&self) -> bool
        ensures { result ≡ is_waiting_row self.now }
    {
        self.named > 0 && self.held_count > 0
    }
}

/// Puts a row into the place that there is for it.
fn put_row(rows: &mut BTreeMap<u32, Row>, task: u32, row: Row)
    requires room { IsSome (tree.get nat_cmp rows.old task) }
    ensures row { row_in task rows.new ≡ row }
    ensures others { (t : ℕ) → t ≢ task → row_in t rows.new ≡ row_in t rows.old }
{
    if let Some(place) = rows.get_mut(&task) {
        *place = row;
    }
}

/// The task waits at one address less. Answers whether it waits at none.
fn lower_row(rows: &mut BTreeMap<u32, Row>, task: u32) -> bool
    requires held { 0 < (row_in task rows.old).held_count }
    ensures free { result ≡ ((row_in task rows.new).held_count == 0) }
    ensures row { row_in task rows.new ≡ record (row_in task rows.old)
        { held_count = (row_in task rows.old).held_count - 1 } }
    ensures others { (t : ℕ) → t ≢ task → row_in t rows.new ≡ row_in t rows.old }
    ensures entries { (t : ℕ) → is_some (tree.get nat_cmp rows.new t)
        ≡ is_some (tree.get nat_cmp rows.old t) }
{
    match rows.get_mut(&task) {
        Some(row) => {
            row.held_count -= 1;
            row.held_count == 0
        }
        None => true,
    }
}

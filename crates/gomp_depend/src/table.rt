//! The lines of a team's tasks.

ghost use Rattle.std.specs.Prelude.{◌≡◌, ◌<◌, ◌≤◌, ◌==◌, ◌&&◌, ◌||◌, not, ℕ, List, [], true, false, Option, Some, None, OnOk, IfSome, IsSome, is_some, length};
ghost use Rattle.gomp_types.specs.declared.task.Task.{Task};
ghost use Rattle.gomp_lines.specs.declared.classes.Class.{Class};
ghost use Rattle.gomp_lines.specs.Lines.{Entry, without, is_in};
ghost use Rattle.gomp_lines.specs.Queues.{is_held_back, is_unblocked, LineQueues, StandsFor, FirstWaits, is_task};
ghost use Rattle.gomp_depend.specs.Tables.{entry_at, line_at, is_key, HasRoomAt, Joins, StillStands};

use crate::keys::LineKey;
use gomp_lines::{Class, Line};
use gomp_types::Task;
use std::alloc::{AllocError, Global};
use std::collections::BTreeMap;

/// The lines of a team's tasks, for each parent and address. An entry for an address without tasks
/// says nothing. Only `reserve` takes memory.
#[derive(Drop)]
pub struct LineTable {
    pub(crate) lines: BTreeMap<LineKey, Line>,
}

impl LineTable {
    /// No lines. It takes no memory.
    pub fn new(alloc: Global) -> LineTable
        ensures { (p : Task) (a : ℕ) (n : ℕ) → StandsFor (line_at p a result) n [] }
    {
        LineTable {
            lines: BTreeMap::new(alloc),
        }
    }

    /// Whether there is a line of the children of the task at the address.
    pub fn has_line(&self, parent: Task, addr: u64) -> bool
        ensures { result ≡ is_some (entry_at parent addr self.now) }
    {
        self.lines.contains_key(&LineKey::of(parent, addr))
    }

    /// Whether a child of the task with this class at the address that is created now is free there.
    pub fn is_ready(&self, parent: Task, addr: u64, class: Class) -> bool
        ensures { result ≡ is_unblocked class (line_at parent addr self.now) }
    {
        match self.lines.get(&LineKey::of(parent, addr)) {
            Some(line) => line.is_ready(class),
            None => true,
        }
    }

    /// Makes room for one more child of the task with this class at the address. It fails, and no line
    /// changes, if the memory is refused.
    pub fn reserve(
        &mut self,
        alloc: Global,
        parent: Task,
        addr: u64,
        class: Class,
    ) -> Result<(), AllocError>
        ensures stands { StillStands (line_at parent addr self.old) (line_at parent addr self.new) }
        ensures stood { StillStands (line_at parent addr self.new) (line_at parent addr self.old) }
        ensures room { OnOk result (HasRoomAt parent addr class self.new) }
        ensures others { (p : Task) (a : ℕ) → is_key parent addr p a ≡ false →
            entry_at p a self.new ≡ entry_at p a self.old }
    {
        let key = LineKey::of(parent, addr);
        if let Some(line) = self.lines.get_mut(&key) {
            return line.reserve(class);
        }
        self.lines.insert(key, Line::new(alloc))?;
        Ok(())
    }

    /// The next task, a child of this one, joins the line with this class. Answers whether it is free
    /// there. There has to be room for it (`reserve`).
    pub fn join(&mut self, parent: Task, addr: u64, task: u32, class: Class) -> bool
        requires room { HasRoomAt parent addr class self.old }
        requires newer { (n : ℕ) × (line : List Entry) ×
            StandsFor (line_at parent addr self.old) n line × (n ≤ task) }
        ensures others { (p : Task) (a : ℕ) → is_key parent addr p a ≡ false →
            entry_at p a self.new ≡ entry_at p a self.old }
        ensures held { (t : ℕ) → is_held_back t (line_at parent addr self.new).waiting
            ≡ (is_held_back t (line_at parent addr self.old).waiting || (not result && task == t)) }
        ensures stands { Joins task class (line_at parent addr self.old)
            (line_at parent addr self.new) }
    {
        match self.lines.get_mut(&LineKey::of(parent, addr)) {
            Some(line) => line.join(task, class),
            None => unreachable!(),
        }
    }

    /// The task, which is in the line, leaves it: it is complete. Then `free_next` says which tasks are
    /// free there by that.
    pub fn leave(&mut self, parent: Task, addr: u64, task: u32)
        requires member { (n : ℕ) × (line : List Entry) ×
            LineQueues (line_at parent addr self.old) n line × (is_in task line ≡ true) }
        ensures others { (p : Task) (a : ℕ) → is_key parent addr p a ≡ false →
            entry_at p a self.new ≡ entry_at p a self.old }
        ensures held { (t : ℕ) → is_held_back t (line_at parent addr self.new).waiting
            ≡ (is_held_back t (line_at parent addr self.old).waiting && not (task == t)) }
        ensures queues { (n : ℕ) (line : List Entry) →
            LineQueues (line_at parent addr self.old) n line → is_in task line ≡ true →
            LineQueues (line_at parent addr self.new) n (without task line) }
    {
        if let Some(line) = self.lines.get_mut(&LineKey::of(parent, addr)) {
            line.leave(task);
        }
    }

    /// One of the tasks that waited there and are free by now, the oldest first.
    pub fn free_next(&mut self, parent: Task, addr: u64) -> Option<u32>
        requires known { (n : ℕ) × (line : List Entry) ×
            LineQueues (line_at parent addr self.old) n line }
        ensures others { (p : Task) (a : ℕ) → is_key parent addr p a ≡ false →
            entry_at p a self.new ≡ entry_at p a self.old }
        ensures freed { IfSome result (λ t.
            is_held_back t (line_at parent addr self.old).waiting ≡ true) }
        ensures fewer { IsSome result → length (line_at parent addr self.new).waiting
            < length (line_at parent addr self.old).waiting }
        ensures held { (t : ℕ) → is_held_back t (line_at parent addr self.new).waiting
            ≡ (is_held_back t (line_at parent addr self.old).waiting && not (is_task t result)) }
        ensures queues { (n : ℕ) (line : List Entry) →
            LineQueues (line_at parent addr self.old) n line →
            LineQueues (line_at parent addr self.new) n line }
        ensures stands { result ≡ None → FirstWaits (line_at parent addr self.new) }
    {
        match self.lines.get_mut(&LineKey::of(parent, addr)) {
            Some(line) => line.free_next(),
            None => None,
        }
    }

    /// Drops the line if it has no task.
    pub fn drop_empty(&mut self, parent: Task, addr: u64)
        requires known { (n : ℕ) × (line : List Entry) ×
            StandsFor (line_at parent addr self.old) n line }
        ensures others { (p : Task) (a : ℕ) → is_key parent addr p a ≡ false →
            entry_at p a self.new ≡ entry_at p a self.old }
        ensures stands { StillStands (line_at parent addr self.old) (line_at parent addr self.new) }
        ensures dropped { (n : ℕ) → StandsFor (line_at parent addr self.old) n [] →
            entry_at parent addr self.new ≡ None }
    {
        let key = LineKey::of(parent, addr);
        let Some(line) = self.lines.get(&key) else {
            return;
        };
        if line.is_empty() {
            let _ = self.lines.remove(&key);
        }
    }
}

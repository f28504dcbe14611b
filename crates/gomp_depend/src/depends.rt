//! The tasks of a team.

ghost use Rattle.std.specs.Prelude.{◌≡◌, ◌<◌, ◌≤◌, ◌+◌, ◌∷◌, ◌&&◌, ◌==◌, ℕ, List, [], true, false, Option, Some, None, length, IsOk, OnOk, IfSome, not, if◌then◌else◌};
ghost use Rattle.std.specs.List.{list_all};
ghost use Rattle.std.proofs.Common.{suc};
ghost use Rattle.gomp_types.specs.declared.task.Task.{Task};
ghost use Rattle.gomp_types.specs.declared.task.TaskDesc.{TaskDesc};
ghost use Rattle.gomp_types.specs.declared.depend.Dep.{Dep};
ghost use Rattle.gomp_events.specs.declared.event.Event.{Event};
ghost use Rattle.gomp_events.specs.declared.event.Event.TheVariants.{Create, Done, Discard};
ghost use Rattle.gomp_events.specs.Tasks.{same_task, tasks_created, all_complete};
ghost use Rattle.gomp_events.specs.Depends.{task_items, child_waits, is_free};
ghost use Rattle.gomp_lines.specs.declared.classes.Class.{Class};
ghost use Rattle.gomp_lines.specs.Classes.{class_at};
ghost use Rattle.gomp_lines.specs.Lines.{Entry};
ghost use Rattle.gomp_lines.specs.Queues.{LineQueues, StandsFor};
ghost use Rattle.gomp_depend.specs.Tables.{entry_at, line_at, is_key, HasRoomAt, LowersRows};
ghost use Rattle.gomp_depend.specs.Books.{names, addresses_where, holds, BooksAreLeft, BooksAreLeftAt, DropsLine, DropsLines, JoinsLine, JoinsLines, MayFreeTask, MayLeaveLines, MayLeaveOne, StillAgree};
ghost use Rattle.gomp_depend.specs.Stands.{Stands, IsOpen, HasDependRoom, ready_at, has_items, is_freed, NoneIsFreed, IsFreedBy, NothingIsKept, waiting_count};

use crate::rows::{Row, RowTable};
use crate::table::LineTable;
use gomp_lines::class_at;
use gomp_types::{Dep, Task};
use std::alloc::{AllocError, Global};

/// For which open tasks each task of one team waits. Only `reserve` takes memory.
#[derive(Drop)]
pub struct Depends {
    pub(crate) alloc: Global,
    pub(crate) lines: LineTable,
    pub(crate) rows: RowTable,
}

impl Depends {
    /// The tables of a new team: no task was created. They take no memory.
    pub fn new(alloc: Global) -> Depends
        ensures stands { Stands result [] }
        ensures freed { NoneIsFreed result }
        ensures waiting { waiting_count result ≡ 0 }
    {
        Depends {
            alloc,
            lines: LineTable::new(alloc),
            rows: RowTable::new(alloc),
        }
    }

    /// Whether all children of the task that a new child with these items would wait for are
    /// complete: what a `taskwait` with these items waits for.
    pub fn are_named_done(&self, parent: Task, items: &[Dep]) -> bool
        ensures { (h : List Event) → Stands self.now h →
            result ≡ all_complete (λ t. child_waits parent items.now t h) h }
    {
        all_ready(&self.lines, parent, items)
    }

    /// Whether all tasks that the task with this number, from 1, which is open, waits for are
    /// complete.
    pub fn is_free(&self, task: u32) -> bool
        ensures { (h : List Event) → Stands self.now h → IsOpen task h → result ≡ is_free task h }
    {
        self.rows.is_free(task)
    }

    /// How many tasks wait for an open task, or were freed and not handed out since.
    pub fn waiting(&self) -> usize
        ensures { result ≡ waiting_count self.now }
    {
        self.rows.waiting()
    }

    /// Hands out, once, a task that the last creation, end or discard has freed: it has items, and waits
    /// for no open task any more.
    pub fn next_freed(&mut self) -> Option<u32>
        ensures task { IfSome result (λ t. is_freed t self.old ≡ true) }
        ensures rest { IfSome result (λ t. (u : ℕ) →
            is_freed u self.new ≡ (is_freed u self.old && not (t == u))) }
        ensures waiting { IfSome result (λ t.
            waiting_count self.new + 1 ≡ waiting_count self.old) }
        ensures none { result ≡ None → NoneIsFreed self.old }
        ensures same { result ≡ None → self.new ≡ self.old }
        ensures stands { (h : List Event) → Stands self.old h → Stands self.new h }
        ensures stood { (h : List Event) → Stands self.new h → Stands self.old h }
    {
        self.rows.next_freed()
    }

    /// Makes room for the next task, if it is created in this one with these items. It fails if the
    /// memory is refused. It changes nothing of what the tables say.
    pub fn reserve(&mut self, task: u32, parent: Task, items: &[Dep]) -> Result<(), AllocError>
        ensures room { OnOk result (HasDependRoom task parent items.now self.new) }
        ensures stands { (h : List Event) → Stands self.old h → Stands self.new h }
        ensures stood { (h : List Event) → Stands self.new h → Stands self.old h }
        ensures freed { (t : ℕ) → is_freed t self.new ≡ is_freed t self.old }
        ensures waiting { waiting_count self.new ≡ waiting_count self.old }
        ensures empty { items.now ≡ [] → IsOk result }
    {
        if items.is_empty() {
            return Ok(());
        }
        reserve_all(&mut self.lines, self.alloc, parent, items, items)?;
        self.rows.reserve(task)
    }

    /// The next task is created in this one, with these items. There has to be room for it
    /// (`reserve`). The items are not kept.
    pub fn create(&mut self, task: u32, parent: Task, items: &[Dep])
        requires room { HasDependRoom task parent items.now self.old }
        requires next { (h : List Event) × Stands self.old h × (task ≡ suc (tasks_created h)) }
        requires freed { NoneIsFreed self.old }
        ensures freed { (h : List Event) (m : ℕ) (desc : TaskDesc) → Stands self.old h →
            task ≡ suc (tasks_created h) → desc.deps ≡ items.now →
            IsFreedBy (Create task m parent desc) h self.new }
        ensures waiting { waiting_count self.new
            ≡ waiting_count self.old + (if has_items items.now then 1 else 0) }
        ensures stands { (h : List Event) (m : ℕ) (desc : TaskDesc) → Stands self.old h →
            task ≡ suc (tasks_created h) → desc.deps ≡ items.now →
            Stands self.new (Create task m parent desc ∷ h) }
    {
        if items.is_empty() {
            return;
        }
        let held_count = join_all(&mut self.lines, parent, task, items, items);
        self.rows.put(
            task,
            Row {
                parent,
                named: items.len(),
                held_count,
            },
        );
    }

    /// The task with this number, from 1, which is open and has these items, is complete from now on.
    pub fn complete(&mut self, task: u32, items: &[Dep])
        requires open { (h : List Event) × Stands self.old h × IsOpen task h
            × (items.now ≡ task_items task h) }
        requires freed { NoneIsFreed self.old }
        ensures freed { (h : List Event) (m : ℕ) → Stands self.old h → IsOpen task h →
            items.now ≡ task_items task h → IsFreedBy (Done task m) h self.new }
        ensures waiting { waiting_count self.new ≤ waiting_count self.old }
        ensures stands { (h : List Event) (m : ℕ) → Stands self.old h → IsOpen task h →
            items.now ≡ task_items task h → Stands self.new (Done task m ∷ h) }
        ensures gone { (h : List Event) (m : ℕ) → Stands self.old h → IsOpen task h →
            items.now ≡ task_items task h →
            NothingIsKept task items.now (Done task m ∷ h) self.new }
    {
        if items.is_empty() {
            return;
        }
        let Some(row) = self.rows.remove(task) else {
            unreachable!()
        };
        leave_all(&mut self.lines, &mut self.rows, row.parent, task, items);
    }

    /// The task with this number, from 1, which is open and has these items, is discarded by a
    /// cancellation: it is complete from now on, so that no other waits for it (OpenMP API 5.2, section
    /// 16.1).
    pub fn discard(&mut self, task: u32, items: &[Dep])
        requires open { (h : List Event) × Stands self.old h × IsOpen task h
            × (items.now ≡ task_items task h) }
        requires freed { NoneIsFreed self.old }
        ensures freed { (h : List Event) (m : ℕ) → Stands self.old h → IsOpen task h →
            items.now ≡ task_items task h → IsFreedBy (Discard task m) h self.new }
        ensures waiting { waiting_count self.new ≤ waiting_count self.old }
        ensures stands { (h : List Event) (m : ℕ) → Stands self.old h → IsOpen task h →
            items.now ≡ task_items task h → Stands self.new (Discard task m ∷ h) }
        ensures gone { (h : List Event) (m : ℕ) → Stands self.old h → IsOpen task h →
            items.now ≡ task_items task h →
            NothingIsKept task items.now (Discard task m ∷ h) self.new }
    {
        self.complete(task, items);
    }
}

/// Whether one of these items names the address.
fn names(addr: u64, items: &[Dep]) -> bool
    ensures { result ≡ names addr items.now }
{
    items.iter().any(|item| addr == item.addr)
}

/// Whether a child of the task with these items that is created now is free at the address.
fn may_join(lines: &LineTable, parent: Task, addr: u64, items: &[Dep]) -> bool
    ensures { result ≡ ready_at (class_at addr items.now) (line_at parent addr lines.now) }
{
    // without a line for the address no task is there: what the items say of it need not be known
    if !lines.has_line(parent, addr) {
        return true;
    }
    match class_at(addr, items) {
        Some(class) => lines.is_ready(parent, addr, class),
        None => true,
    }
}

/// Whether it is at each address that they name.
fn all_ready(lines: &LineTable, parent: Task, items: &[Dep]) -> bool
    ensures { result ≡ list_all (λ (item : Dep).
        ready_at (class_at item.addr items.now) (line_at parent item.addr lines.now)) items.now }
{
    items
        .iter()
        .all(|item| may_join(lines, parent, item.addr, items))
}

/// Makes room in the lines of the addresses that the rest of these items names.
fn reserve_all(
    lines: &mut LineTable,
    alloc: Global,
    parent: Task,
    rest: &[Dep],
    items: &[Dep],
) -> Result<(), AllocError>
    ensures room { OnOk result ((a : ℕ) (class : Class) → names a rest.now ≡ true →
        class_at a items.now ≡ Some class → HasRoomAt parent a class lines.new) }
    ensures stands { (p : Task) (a : ℕ) (n : ℕ) (line : List Entry) →
        StandsFor (line_at p a lines.old) n line → StandsFor (line_at p a lines.new) n line }
    ensures stood { (p : Task) (a : ℕ) (n : ℕ) (line : List Entry) →
        StandsFor (line_at p a lines.new) n line → StandsFor (line_at p a lines.old) n line }
{
    let [first, later @ ..] = rest else {
        return Ok(());
    };
    reserve_all(lines, alloc, parent, later, items)?;
    match class_at(first.addr, items) {
        Some(class) => lines.reserve(alloc, parent, first.addr, class),
        None => Ok(()),
    }
}

/// The next task, a child of this one with these items, joins the lines of the addresses that the
/// rest of them names. Answers at how many it waits.
fn join_all(lines: &mut LineTable, parent: Task, task: u32, rest: &[Dep], items: &[Dep]) -> usize
    requires room { (a : ℕ) (class : Class) → names a rest.now ≡ true →
        class_at a items.now ≡ Some class → HasRoomAt parent a class lines.old }
    requires newer { (n : ℕ) × (all : ℕ → List Entry) × ((a : ℕ) →
        StandsFor (line_at parent a lines.old) n (all a)) × (n ≤ task) }
    ensures count { result ≡ addresses_where (holds lines.new task parent) rest.now }
    ensures small { result ≤ length rest.now }
    ensures others { (p : Task) (a : ℕ) → (same_task parent p && names a rest.now) ≡ false →
        entry_at p a lines.new ≡ entry_at p a lines.old }
    ensures held { (t : ℕ) (p : Task) (a : ℕ) → (task == t) ≡ false →
        holds lines.new t p a ≡ holds lines.old t p a }
    ensures joined { JoinsLines task parent items.now rest.now lines.old lines.new }
{
    let [first, later @ ..] = rest else {
        return 0;
    };
    let count = join_all(lines, parent, task, later, items);
    if names(first.addr, later) {
        return count;
    }
    count + join_one(lines, parent, task, first.addr, items)
}

/// The next task, a child of this one with these items, joins the line of the address. Answers 1 if it
/// waits there.
fn join_one(lines: &mut LineTable, parent: Task, task: u32, addr: u64, items: &[Dep]) -> usize
    requires room { (class : Class) → class_at addr items.now ≡ Some class →
        HasRoomAt parent addr class lines.old }
    requires newer { (n : ℕ) × (line : List Entry) ×
        StandsFor (line_at parent addr lines.old) n line × (n ≤ task) }
    ensures count { result ≡ (if holds lines.new task parent addr then 1 else 0) }
    ensures others { (p : Task) (a : ℕ) → is_key parent addr p a ≡ false →
        entry_at p a lines.new ≡ entry_at p a lines.old }
    ensures held { (t : ℕ) (p : Task) (a : ℕ) → (task == t) ≡ false →
        holds lines.new t p a ≡ holds lines.old t p a }
    ensures joined { JoinsLine task parent addr items.now lines.old lines.new }
{
    // The class was asked for when room was made, before anything changed.
    match class_at(addr, items) {
        Some(class) if !lines.join(parent, addr, task, class) => 1,
        _ => 0,
    }
}

/// The task, a child of this one whose row is taken out, leaves the lines of the addresses that these
/// items name.
fn leave_all(lines: &mut LineTable, rows: &mut RowTable, parent: Task, task: u32, items: &[Dep])
    requires leaves { MayLeaveLines task parent items.now lines.old rows.old }
    ensures books { BooksAreLeft (record { task = task; parent = parent }) items.now lines.old
        rows.old lines.new rows.new }
    ensures lowers { LowersRows rows.old rows.new }
    ensures dropped { DropsLines task parent items.now lines.old rows.old lines.new }
{
    let [first, later @ ..] = items else {
        return;
    };
    leave_all(lines, rows, parent, task, later);
    if names(first.addr, later) {
        return;
    }
    leave_one(lines, rows, parent, task, first.addr);
}

/// The task, a child of this one whose row is taken out, leaves the line of this address.
fn leave_one(lines: &mut LineTable, rows: &mut RowTable, parent: Task, task: u32, addr: u64)
    requires leaves { MayLeaveOne task parent addr lines.old rows.old }
    ensures books { BooksAreLeftAt (record { task = task; parent = parent }) addr lines.old rows.old
        lines.new rows.new }
    ensures lowers { LowersRows rows.old rows.new }
    ensures others { (p : Task) (a : ℕ) → is_key parent addr p a ≡ false →
        entry_at p a lines.new ≡ entry_at p a lines.old }
    ensures dropped { DropsLine task parent addr lines.old rows.old lines.new }
{
    lines.leave(parent, addr, task);
    free_all(lines, rows, parent, addr);
    lines.drop_empty(parent, addr);
}

/// The tasks that may go at the address are free there from now on.
fn free_all(lines: &mut LineTable, rows: &mut RowTable, parent: Task, addr: u64)
    requires known { MayFreeTask parent addr lines.old rows.old }
    ensures others { (p : Task) (a : ℕ) → is_key parent addr p a ≡ false →
        entry_at p a lines.new ≡ entry_at p a lines.old }
    ensures stands { (n : ℕ) (line : List Entry) →
        LineQueues (line_at parent addr lines.old) n line →
        StandsFor (line_at parent addr lines.new) n line }
    ensures agree { StillAgree parent addr lines.old rows.old lines.new rows.new }
    ensures lowers { LowersRows rows.old rows.new }
{
    while let Some(task) = lines.free_next(parent, addr) {
        rows.lower(task);
    }
}

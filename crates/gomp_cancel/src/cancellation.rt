//! What of a team is cancelled.

ghost use Rattle.std.specs.Prelude.{◌≡◌, ◌<◌, ◌≤◌, ◌+◌, ◌∷◌, ℕ, List, [], length, OnOk, OnErr, IsOk};
ghost use Rattle.gomp_types.specs.declared.cancel.Scope.TheVariants.{Region, OneGroup};
ghost use Rattle.gomp_types.specs.declared.task.Task.TheVariants.{Explicit};
ghost use Rattle.gomp_events.specs.declared.event.Event.{Event};
ghost use Rattle.gomp_events.specs.declared.event.Event.TheVariants.{Cancel, Group};
ghost use Rattle.gomp_events.specs.Cancels.{is_cancelled, is_covered, would_be_covered};
ghost use Rattle.gomp_groups.specs.Stands.{Stands, IsSeated};
ghost use Rattle.gomp_growth.specs.Growth.{growth_of, room_made};
ghost use Rattle.gomp_cancel.specs.Cancellations.{CancelStands, task_cancelled};

use gomp_groups::Groups;
use gomp_growth::reserve_one;
use gomp_types::Task;
use std::alloc::{AllocError, Global};
use std::marker::Model;

/// What of a team is cancelled. Groups are numbered from 0 in the order in which they are opened.
/// Only `reserve` takes memory (OpenMP API 5.2, section 16.1).
#[derive(Debug, Drop)]
pub struct Cancellation {
    region: bool,
    marks: Vec<bool>,
}

impl Model for Cancellation {
    ghost use Rattle.std.specs.Prelude.{◌-◌, vec_len, vec_capacity};
    ghost use Rattle.gomp_cancel.specs.Cancellations.{CancelView};

    ghost Value = { CancelView };

    ghost view = { λ c. record {
      region = c.region;
      marks = c.marks.items;
      room = vec_capacity c.marks - vec_len c.marks;
    } };
}

impl Cancellation {
    /// Nothing of a new team is cancelled, and no group is opened. It takes no memory.
    pub fn new(alloc: Global) -> Cancellation
        ensures stands { CancelStands result [] }
    {
        Cancellation {
            region: false,
            marks: Vec::new(alloc),
        }
    }

    /// Makes room for the mark of one more group. The room grows in steps. It fails, and nothing
    /// changes, if the memory is refused.
    pub fn reserve(&mut self) -> Result<(), AllocError>
        ensures room { OnOk result (0 < self.new.room) }
        ensures memory { OnOk result
            (self.new.room ≡ room_made 1 (growth_of 16 (length self.old.marks)) self.old.room) }
        ensures kept { OnOk result (self.new ≡ record self.old { room = self.new.room }) }
        ensures grows { self.old.room ≤ self.new.room }
        ensures there { 0 < self.old.room → IsOk result }
        ensures err { OnErr result (self.new ≡ self.old) }
    {
        reserve_one(&mut self.marks)
    }

    /// A member opens the next group, which is not cancelled.
    pub fn open(&mut self)
        requires room { 0 < self.old.room }
        ensures room { self.new.room + 1 ≡ self.old.room }
        ensures stands { (h : List Event) (q m : ℕ) → CancelStands self.old h →
            CancelStands self.new (Group q m ∷ h) }
    {
        self.marks.push_reserved(false);
    }

    /// A member cancels the region.
    pub fn cancel_region(&mut self)
        ensures room { self.new.room ≡ self.old.room }
        ensures stands { (h : List Event) (m : ℕ) → CancelStands self.old h →
            CancelStands self.new (Cancel m Region ∷ h) }
    {
        self.region = true;
    }

    /// A member cancels the group with this number, from 0, which was opened.
    pub fn cancel_group(&mut self, group: u64)
        requires opened { group < length self.old.marks }
        ensures room { self.new.room ≡ self.old.room }
        ensures stands { (h : List Event) (m : ℕ) → CancelStands self.old h →
            CancelStands self.new (Cancel m (OneGroup group) ∷ h) }
    {
        self.marks[group as usize] = true;
    }

    /// Whether the region is cancelled. A cancellation point that names it answers so (OpenMP API
    /// 5.2, section 16.2).
    #[inline(always)]
    pub fn is_cancelled(&self) -> bool
        ensures value { (h : List Event) → CancelStands self.now h → result ≡ is_cancelled h }
    {
        self.region
    }

    /// Whether a cancellation reaches the task, which is one of the team: that of the region, or
    /// of a group whose end waits for it. A cancellation point that names a taskgroup answers so
    /// in this task (OpenMP API 5.2, section 16.2). It takes a step for each group around the
    /// task.
    pub fn is_task_cancelled(&self, groups: &Groups, task: Task) -> bool
        requires seated { IsSeated groups.now task }
        requires marks { length self.now.marks ≡ length groups.now.groups }
        ensures value { (h : List Event) → CancelStands self.now h → Stands groups.now h →
            result ≡ task_cancelled task h }
    {
        self.region || groups.is_marked_around(task, &self.marks)
    }

    /// Whether a cancellation reaches the explicit task with this number, from 1, which is open or
    /// has an open child: it is discarded unless a member has started it (OpenMP API 5.2, section
    /// 16.1). It takes a step for each group around the task.
    pub fn is_covered(&self, groups: &Groups, task: u32) -> bool
        requires seated { IsSeated groups.now (Explicit task) }
        requires marks { length self.now.marks ≡ length groups.now.groups }
        ensures value { (h : List Event) → CancelStands self.now h → Stands groups.now h →
            result ≡ is_covered task h }
    {
        self.is_task_cancelled(groups, Task::Explicit(task))
    }

    /// Whether a cancellation would reach a task that is created in this one now: then it is not
    /// created (OpenMP API 5.2, section 16.1). It takes a step for each group around it.
    pub fn would_be_covered(&self, groups: &Groups, parent: Task) -> bool
        requires seated { IsSeated groups.now parent }
        requires marks { length self.now.marks ≡ length groups.now.groups }
        ensures value { (h : List Event) → CancelStands self.now h → Stands groups.now h →
            result ≡ would_be_covered parent h }
    {
        self.region || groups.is_marked_within(parent, &self.marks)
    }
}

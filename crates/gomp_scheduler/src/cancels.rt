//! Cancellations, and the tasks that they discard. OpenMP API 5.2, sections 16.1 and 16.2.

ghost use Rattle.std.specs.Prelude.{◌≡◌, ◌<◌, ◌≤◌, ◌∷◌, ◌&&◌, false, ℕ, List, length};
ghost use Rattle.gomp_events.specs.declared.event.Event.{Event};
ghost use Rattle.gomp_events.specs.declared.event.Event.TheVariants.{Cancel, Discard};
ghost use Rattle.gomp_events.specs.Tasks.{executed_task};
ghost use Rattle.gomp_events.specs.Depends.{task_items};
ghost use Rattle.gomp_events.specs.Cancels.{is_cancelled, is_covered};
ghost use Rattle.gomp_events.specs.CancelCalls.{creates_covered};
ghost use Rattle.gomp_events.specs.Goals.{is_unstarted};
ghost use Rattle.gomp_events.specs.TaskRules.{MayDiscard};
ghost use Rattle.gomp_tasks.specs.Stands.{count_of};
ghost use Rattle.gomp_barrier.specs.Stands.{Stands as BarriersStand, barrier_members};
ghost use Rattle.gomp_cancel.specs.Cancellations.{CancelStands, task_cancelled};
ghost use Rattle.gomp_scheduler.specs.ReadyTasks.{AreUnstarted};
ghost use Rattle.gomp_scheduler.specs.Schedulers.{Stands, AreSealed, SchedulerHasMembers, IsOfTeam, scheduler_members};

use crate::scheduler::Scheduler;
use crate::tasks::put_freed;
use gomp_barrier::Barriers;
use gomp_cancel::Cancellation;
use gomp_types::{Dep, Scope};

impl Scheduler {
    /// Some member cancels this: the region, or a group that was opened. The tasks that it reaches and
    /// that nobody has started are still to be discarded. It answers how many of the oldest tasks need no
    /// look for that: nothing is kept of them, or they were created before the group was opened.
    pub fn cancel(&mut self, scope: Scope) -> u32
        requires scope { IsOfTeam scope (length self.old.cancelled.marks) }
        ensures few { result ≤ count_of self.new.tasks }
        ensures before { (h : List Event) (m : ℕ) → Stands self.old h → AreSealed h → (t : ℕ) →
            t ≤ result →
            (is_unstarted t (Cancel m scope ∷ h) && is_covered t (Cancel m scope ∷ h)) ≡ false }
        ensures count { count_of self.new.tasks ≡ count_of self.old.tasks }
        ensures members { SchedulerHasMembers (scheduler_members self.old) self.new }
        ensures stands { (h : List Event) (m : ℕ) → Stands self.old h →
            Stands self.new (Cancel m scope ∷ h) }
    {
        let beyond = self.count_beyond(scope);
        mark_cancelled(&mut self.cancelled, &mut self.barriers, scope);
        beyond
    }

    /// The member, numbered from 0, discards the task with this number, from 1, which nobody has started
    /// and which a cancellation reaches; the items of the task are lent. It costs what `finish` costs
    /// for them.
    pub fn discard(&mut self, member: u16, task: u32, items: &[Dep])
        requires member { member < scheduler_members self.old }
        requires may { (h : List Event) × (m : ℕ) × Stands self.old h ×
            MayDiscard (scheduler_members self.old) task m h × (items.now ≡ task_items task h) }
        ensures count { count_of self.new.tasks ≡ count_of self.old.tasks }
        ensures members { SchedulerHasMembers (scheduler_members self.old) self.new }
        ensures stands { (h : List Event) (m : ℕ) → Stands self.old h →
            MayDiscard (scheduler_members self.old) task m h → items.now ≡ task_items task h →
            Stands self.new (Discard task m ∷ h) }
    {
        let odd = self.tasks.is_odd(task);
        self.tasks.discard(task);
        self.groups.discard(task);
        self.barriers.discard(odd);
        // as in `create` and `finish`: without items the two calls would change nothing
        if !items.is_empty() {
            self.depends.discard(task, items);
            put_freed(&mut self.depends, &self.tasks, &mut self.ready, member);
        }
    }

    /// Takes the tasks that were discarded out of the ready ones. It costs a step for each of these.
    pub fn forget_discarded(&mut self)
        ensures count { count_of self.new.tasks ≡ count_of self.old.tasks }
        ensures members { SchedulerHasMembers (scheduler_members self.old) self.new }
        ensures gone { (h : List Event) → Stands self.old h → AreUnstarted self.new.ready.ids h }
        ensures stands { (h : List Event) → Stands self.old h → Stands self.new h }
    {
        let tasks = &self.tasks;
        self.ready.retain(|task| tasks.is_unstarted(task));
    }

    /// Whether the task with this number is to be discarded: nobody has started it, and a cancellation
    /// reaches it. It costs a step for each group around the task.
    pub fn is_discarded(&self, task: u32) -> bool
        ensures value { (h : List Event) → Stands self.now h →
            result ≡ (is_unstarted task h && is_covered task h) }
    {
        if !self.tasks.is_unstarted(task) {
            return false;
        }
        self.cancelled.is_covered(&self.groups, task)
    }

    /// Whether the region is cancelled.
    pub fn is_cancelled(&self) -> bool
        ensures value { (h : List Event) → Stands self.now h → result ≡ is_cancelled h }
    {
        self.cancelled.is_cancelled()
    }

    /// Whether a cancellation reaches the task that the member, numbered from 0, executes: that of the
    /// region, or of a group whose end waits for it. It costs a step for each of those groups.
    pub fn is_task_cancelled(&self, member: u16) -> bool
        requires member { member < scheduler_members self.now }
        ensures value { (h : List Event) → Stands self.now h →
            result ≡ task_cancelled (executed_task member h) h }
    {
        let task = self.tasks.current(member);
        self.cancelled.is_task_cancelled(&self.groups, task)
    }

    /// Whether a cancellation would reach a task that the member creates now. It costs a step for each
    /// group around that.
    pub fn drops_creation(&self, member: u16) -> bool
        requires member { member < scheduler_members self.now }
        ensures value { (h : List Event) → Stands self.now h → result ≡ creates_covered member h }
    {
        let task = self.tasks.current(member);
        self.cancelled.would_be_covered(&self.groups, task)
    }

    /// So many tasks, the oldest, a cancellation of this does not reach, or nobody is to discard them.
    fn count_beyond(&self, scope: Scope) -> u32
        requires scope { IsOfTeam scope (length self.now.cancelled.marks) }
        ensures few { result ≤ count_of self.now.tasks }
        ensures before { (h : List Event) (m : ℕ) → Stands self.now h → AreSealed h → (t : ℕ) →
            t ≤ result →
            (is_unstarted t (Cancel m scope ∷ h) && is_covered t (Cancel m scope ∷ h)) ≡ false }
    {
        let oldest = self.tasks.oldest();
        match scope {
            Scope::Region => oldest,
            Scope::OneGroup(group) => oldest.max(self.groups.opened_after(group)),
            Scope::OneShare(_) => unreachable!(),
        }
    }
}

/// Some member cancels this.
fn mark_cancelled(cancelled: &mut Cancellation, barriers: &mut Barriers, scope: Scope)
    requires scope { IsOfTeam scope (length cancelled.old.marks) }
    ensures cancelled { (h : List Event) (m : ℕ) → CancelStands cancelled.old h →
        CancelStands cancelled.new (Cancel m scope ∷ h) }
    ensures barriers { (h : List Event) (m : ℕ) → BarriersStand barriers.old h →
        BarriersStand barriers.new (Cancel m scope ∷ h) }
    ensures members { barrier_members barriers.new ≡ barrier_members barriers.old }
{
    // `count_beyond` looks at the scope too, to find where the discarding begins.
    match scope {
        Scope::Region => {
            cancelled.cancel_region();
            barriers.cancel();
        }
        Scope::OneGroup(group) => cancelled.cancel_group(group),
        Scope::OneShare(_) => unreachable!(),
    }
}

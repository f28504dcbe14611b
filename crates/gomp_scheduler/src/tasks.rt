//! Tasks: their creation and their end, and what is asked of them. OpenMP API 5.2, chapter 12 and
//! section 15.5.

ghost use Rattle.std.specs.Prelude.{◌≡◌, ◌<◌, ◌≤◌, ◌+◌, ◌∷◌, ℕ, List, true, false, not, ◌&&◌, ◌||◌, nat_le, if◌then◌else◌};
ghost use Rattle.std.proofs.Common.{suc};
ghost use Rattle.gomp_events.specs.declared.event.Event.{Event};
ghost use Rattle.gomp_events.specs.declared.event.Event.TheVariants.{Create, Done};
ghost use Rattle.gomp_types.specs.declared.task.Task.TheVariants.{Explicit};
ghost use Rattle.gomp_types.specs.declared.limits.TheConstants.{MAX_TASK_DEPTH};
ghost use Rattle.gomp_events.specs.Tasks.{contains, tasks_created, executed_task, in_task, depth_of, epoch, epoch_of_child, is_odd, newest_child, is_undeferred, becomes_undeferred};
ghost use Rattle.gomp_events.specs.Goals.{taskwait_met};
ghost use Rattle.gomp_tasks.specs.declared.tasks.TheConstants.{MAX_TASKS};
ghost use Rattle.gomp_tasks.specs.Stands.{IsKept, IsTask, Stands as TasksStand, count_of};
ghost use Rattle.gomp_depend.specs.Stands.{Stands as DependsStand, has_items, is_freed, NoneIsFreed, waiting_count};
ghost use Rattle.gomp_ready.specs.Ready.{AreOnce};
ghost use Rattle.gomp_scheduler.specs.Calls.{executed_items};
ghost use Rattle.gomp_scheduler.specs.ReadyTasks.{listed_with};
ghost use Rattle.gomp_scheduler.specs.Schedulers.{Stands, SchedulerHasMembers, HasTaskRoom, scheduler_members};
ghost use Rattle.gomp_scheduler.specs.Startable.{CreatesNext};

use crate::scheduler::Scheduler;
use gomp_depend::Depends;
use gomp_ready::Ready;
use gomp_tasks::{Ended, Newest, Tasks};
use gomp_types::{Dep, MAX_TASK_DEPTH, Task, TaskDesc};

impl Scheduler {
    /// The member, numbered from 0, creates the next task in the one that it executes, by this
    /// description. There has to be memory for it (`reserve_task`), and the rule of tasks has to let
    /// the member create it. The answer is its number. It costs a look-up for each item.
    pub fn create(&mut self, member: u16, desc: &TaskDesc) -> u32
        requires member { member < scheduler_members self.old }
        requires room { HasTaskRoom member desc.now.deps self.old }
        requires few { count_of self.old.tasks < MAX_TASKS }
        requires may { (h : List Event) × Stands self.old h × CreatesNext member self.old h }
        ensures number { (h : List Event) → Stands self.old h → result ≡ suc (tasks_created h) }
        ensures members { SchedulerHasMembers (scheduler_members self.old) self.new }
        ensures stands { (h : List Event) → Stands self.old h → CreatesNext member self.old h →
            Stands self.new (Create result member (executed_task member h) desc.now ∷ h) }
    {
        let parent = self.tasks.current(member);
        let odd = self.child_is_odd(member, parent);
        let undeferred = self.becomes_undeferred(desc, parent);
        let items = desc.deps.as_slice();
        let listed = is_listed(undeferred, items);
        let task = self.tasks.create(member, odd, desc);
        self.groups.create(parent);
        self.barriers.bind(odd);
        put_if(&mut self.ready, member, listed, task);
        // without items the two calls would change nothing, and cost more than the test
        if !items.is_empty() {
            self.depends.create(task, parent, items);
            put_freed(&mut self.depends, &self.tasks, &mut self.ready, member);
        }
        task
    }

    /// The member, numbered from 0, ends the explicit task that it executes; the items of its task are
    /// lent. It costs a look-up for each of them, and one for each address at which a task waits for
    /// it alone.
    pub fn finish(&mut self, member: u16, items: &[Dep]) -> Ended
        requires member { member < scheduler_members self.old }
        requires inside { (h : List Event) × Stands self.old h × (in_task member h ≡ true) ×
            (items.now ≡ executed_items member h) }
        ensures members { SchedulerHasMembers (scheduler_members self.old) self.new }
        ensures stands { (h : List Event) → Stands self.old h → in_task member h ≡ true →
            items.now ≡ executed_items member h → Stands self.new (Done result.task member ∷ h) }
        ensures task { (h : List Event) → Stands self.old h → in_task member h ≡ true →
            items.now ≡ executed_items member h → executed_task member h ≡ Explicit result.task }
        ensures odd { (h : List Event) → Stands self.old h → in_task member h ≡ true →
            items.now ≡ executed_items member h → result.odd ≡ is_odd (epoch result.task h) }
        ensures undeferred { (h : List Event) → Stands self.old h → in_task member h ≡ true →
            items.now ≡ executed_items member h →
            result.undeferred ≡ is_undeferred result.task h }
    {
        let Some(ended) = self.tasks.finish(member) else {
            unreachable!()
        };
        self.groups.complete(ended.task);
        self.barriers.release(ended.odd);
        // without items the two calls would change nothing, and cost more than the test
        if !items.is_empty() {
            self.depends.complete(ended.task, items);
            put_freed(&mut self.depends, &self.tasks, &mut self.ready, member);
        }
        ended
    }

    /// How many explicit tasks were created.
    pub fn count(&self) -> u32
        ensures rows { result ≡ count_of self.now.tasks }
        ensures value { (h : List Event) → Stands self.now h → result ≡ tasks_created h }
    {
        self.tasks.count()
    }

    /// Whether at least so many were created.
    pub fn has_created(&self, limit: u32) -> bool
        ensures value { (h : List Event) → Stands self.now h →
            result ≡ nat_le limit (tasks_created h) }
    {
        let count = self.tasks.count();
        limit <= count
    }

    /// The task that the member, numbered from 0, executes: the explicit one that it has started last
    /// and not ended, or its implicit one.
    #[inline(always)]
    pub fn current(&self, member: u16) -> Task
        requires member { member < scheduler_members self.now }
        ensures value { (h : List Event) → Stands self.now h → result ≡ executed_task member h }
    {
        self.tasks.current(member)
    }

    /// Whether that is an explicit one.
    #[inline(always)]
    pub fn in_task(&self, member: u16) -> bool
        requires member { member < scheduler_members self.now }
        ensures value { (h : List Event) → Stands self.now h → result ≡ in_task member h }
    {
        match self.tasks.current(member) {
            Task::Implicit(_) => false,
            Task::Explicit(_) => true,
        }
    }

    /// Whether that task lies as deep as a task may (own: 64 levels).
    pub fn is_deepest(&self, member: u16) -> bool
        requires member { member < scheduler_members self.now }
        ensures value { (h : List Event) → Stands self.now h →
            result ≡ nat_le MAX_TASK_DEPTH (depth_of (executed_task member h) h) }
    {
        let depth = self.tasks.depth(self.tasks.current(member));
        MAX_TASK_DEPTH <= depth
    }

    /// The newest task in the one that the member executes: its number is 0, and it is not undeferred, if
    /// there is none (section 12.5).
    pub fn newest(&self, member: u16) -> Newest
        requires member { member < scheduler_members self.now }
        ensures task { (h : List Event) → Stands self.now h →
            result.task ≡ newest_child (executed_task member h) h }
        ensures undeferred { (h : List Event) → Stands self.now h →
            result.undeferred ≡ is_undeferred (newest_child (executed_task member h) h) h }
    {
        self.tasks.newest(self.tasks.current(member))
    }

    /// Whether the children of the task that the member executes are complete, with items those that
    /// a child with these items waits for (section 15.5). It costs a look-up for each item.
    pub fn children_done(&self, member: u16, items: &[Dep]) -> bool
        requires member { member < scheduler_members self.now }
        ensures value { (h : List Event) → Stands self.now h →
            result ≡ taskwait_met (executed_task member h) items.now h }
    {
        let task = self.tasks.current(member);
        if items.is_empty() {
            self.groups.children_done(task)
        } else {
            self.depends.are_named_done(task, items)
        }
    }

    /// Whether a task that is created in this one now by this description is undeferred: its `if` clause
    /// is false, or this one is final (OpenMP API 5.2, section 12.5).
    fn becomes_undeferred(&self, desc: &TaskDesc, parent: Task) -> bool
        requires parent { IsTask parent self.now.tasks }
        ensures value { (h : List Event) → Stands self.now h →
            result ≡ becomes_undeferred desc.now parent h }
    {
        // gomp_tasks decides it for the row too, which is not there yet.
        desc.undeferred || self.tasks.is_final(parent)
    }

    /// Whether a task that the member creates now in this one, which it executes, is bound to a barrier
    /// whose number is odd.
    fn child_is_odd(&self, member: u16, parent: Task) -> bool
        requires member { member < scheduler_members self.now }
        requires parent { IsTask parent self.now.tasks }
        ensures value { (h : List Event) → Stands self.now h → parent ≡ executed_task member h →
            result ≡ is_odd (epoch_of_child parent h) }
    {
        match parent {
            Task::Implicit(_) => self.barriers.is_odd(member),
            Task::Explicit(task) => self.tasks.is_odd(task),
        }
    }
}

/// Whether a task that is created is ready whatever happens: it is deferred and has no items.
fn is_listed(undeferred: bool, items: &[Dep]) -> bool
    ensures { result ≡ (not undeferred && not (has_items items.now)) }
{
    // gomp_depend asks too whether there are items, and keeps nothing without.
    !undeferred && items.is_empty()
}

/// Puts the task among the ready ones, for the member, if it is to stand there.
fn put_if(ready: &mut Ready, member: u16, listed: bool, task: u32)
    requires member { member < ready.old.members }
    requires room { 0 < ready.old.room }
    ensures members { ready.new.members ≡ ready.old.members }
    ensures ids { ready.new.ids ≡ listed_with listed task ready.old.ids }
    ensures room { ready.old.room ≤ ready.new.room + (if listed then 1 else 0) }
    ensures passed { ready.new.passed ≡ ready.old.passed }
{
    if listed {
        ready.put(member, task);
    }
}

/// Puts the deferred ones of the tasks that an event has freed among the ready ones, for the member.
pub(crate) fn put_freed(depends: &mut Depends, tasks: &Tasks, ready: &mut Ready, member: u16)
    requires member { member < ready.old.members }
    requires room { waiting_count depends.old ≤ ready.old.room }
    requires kept { (t : ℕ) → is_freed t depends.old ≡ true → IsKept t tasks.now }
    ensures members { ready.new.members ≡ ready.old.members }
    ensures freed { NoneIsFreed depends.new }
    ensures room { waiting_count depends.new ≤ ready.new.room }
    ensures stands { (h : List Event) → DependsStand depends.old h → DependsStand depends.new h }
    ensures ids { (h : List Event) → TasksStand tasks.now h → (t : ℕ) →
        contains t ready.new.ids ≡ (contains t ready.old.ids
        || (is_freed t depends.old && not (is_undeferred t h))) }
    ensures once { AreOnce ready.old.ids → ((t : ℕ) → is_freed t depends.old ≡ true →
        contains t ready.old.ids ≡ false) → AreOnce ready.new.ids }
    ensures passed { ready.new.passed ≡ ready.old.passed }
{
    while let Some(task) = depends.next_freed() {
        // Of the task that is created just now this is known; of the others it is not.
        if !tasks.is_undeferred(task) {
            ready.put(member, task);
        }
    }
}

//! Which task a member starts at a wait. OpenMP API 5.2, sections 12.5, 12.9 and 15.5.

ghost use Rattle.std.specs.Prelude.{◌≡◌, ◌<◌, ◌∷◌, ℕ, List, IfSome, true, None, Some};
ghost use Rattle.gomp_events.specs.declared.event.Event.{Event};
ghost use Rattle.gomp_events.specs.declared.event.Event.TheVariants.{Start};
ghost use Rattle.gomp_events.specs.Events.{at_barrier as waits_at_barrier};
ghost use Rattle.gomp_events.specs.Tasks.{executed_task, newest_child, is_undeferred};
ghost use Rattle.gomp_events.specs.Goals.{may_start};
ghost use Rattle.gomp_tasks.specs.Stands.{IsKept, Stands as TasksStand, task_members};
ghost use Rattle.gomp_tasks.specs.Calls.{may_run};
ghost use Rattle.gomp_scheduler.specs.Passed.{IsWaitLevel};
ghost use Rattle.gomp_scheduler.specs.Schedulers.{Stands, AreSealed, SchedulerHasMembers, scheduler_members};
ghost use Rattle.gomp_scheduler.specs.Startable.{IsFound, MayStartNone, MayStartOwn};

use crate::scheduler::Scheduler;
use gomp_tasks::Tasks;
use gomp_types::Task;

impl Scheduler {
    /// The member, numbered from 0, starts a task at a wait, if there is one that it may start: of the
    /// ready ones that it put itself the newest that it may start, else one of the others. The answer
    /// is its number, from 1. It looks at no task that waits for another. Each in the member's deque it
    /// looks at once; inside a task so too each that came to the list for all since that was started. A
    /// look costs a step for each task that lies between.
    #[inline(never)]
    pub fn start_next(&mut self, member: u16) -> Option<u32>
        requires member { member < scheduler_members self.old }
        requires sealed { (h : List Event) × Stands self.old h × AreSealed h }
        ensures found { IfSome result (IsFound member self.old) }
        ensures none { result ≡ None → MayStartNone member self.old }
        ensures kept { result ≡ None → self.new ≡ self.old }
        ensures there { IfSome result (λ t. IsKept t self.new.tasks) }
        ensures members { SchedulerHasMembers (scheduler_members self.old) self.new }
        ensures stands { IfSome result (λ t. (h : List Event) → Stands self.old h → AreSealed h →
            Stands self.new (Start t member ∷ h)) }
    {
        let waits = self.barriers.at_barrier(member);
        let level = wait_level(&self.tasks, member, waits);
        let tasks = &self.tasks;
        let may = |task|
            requires { member < task_members tasks.now }
            ensures { (h : List Event) → TasksStand tasks.entry.now h →
                waits ≡ waits_at_barrier member h → result ≡ may_run member task h }
        { tasks.may_run(member, waits, task) };
        let found = self.ready.take(member, level, may)?;
        let started = self.tasks.started(member);
        self.tasks.start(member, found);
        self.ready.enter(member, started + 1);
        Some(found)
    }

    /// Whether the member may start this task, the newest in the one that it executes, which is
    /// undeferred.
    pub fn may_start_own(&self, member: u16, task: u32) -> bool
        requires member { member < scheduler_members self.now }
        requires newest { (h : List Event) → Stands self.now h →
            task ≡ newest_child (executed_task member h) h }
        requires undeferred { (h : List Event) → Stands self.now h →
            is_undeferred task h ≡ true }
        ensures value { (h : List Event) → Stands self.now h → AreSealed h →
            result ≡ may_start member task h }
        ensures may { (h : List Event) → Stands self.now h → AreSealed h → result ≡ true →
            MayStartOwn member task self.now h }
    {
        let waits = self.barriers.at_barrier(member);
        self.tasks.may_run(member, waits, task) && self.depends.is_free(task)
    }

    /// The member, numbered from 0, starts its own task, which is undeferred.
    pub fn start_own(&mut self, member: u16, task: u32)
        requires may { (h : List Event) × Stands self.old h ×
            MayStartOwn member task self.old h }
        ensures there { IsKept task self.new.tasks }
        ensures members { SchedulerHasMembers (scheduler_members self.old) self.new }
        ensures stands { (h : List Event) → Stands self.old h → MayStartOwn member task self.old h →
            Stands self.new (Start task member ∷ h) }
    {
        let depth = self.tasks.started(member);
        self.tasks.start(member, task);
        self.ready.enter(member, depth + 1);
    }
}

/// The level at which the member looks for a task at a wait, which is at a barrier or elsewhere: how
/// many tasks it has started and not ended. None, if it may run other tasks than those under the one
/// that it executes, or not all of these.
fn wait_level(tasks: &Tasks, member: u16, at_barrier: bool) -> Option<u8>
    requires member { member < task_members tasks.now }
    ensures level { (h : List Event) → TasksStand tasks.now h →
        at_barrier ≡ waits_at_barrier member h → (l : ℕ) → result ≡ Some l →
        IsWaitLevel member l h }
{
    let level = tasks.started(member);
    match tasks.current(member) {
        Task::Implicit(_) if at_barrier => None,
        Task::Implicit(_) => Some(level),
        Task::Explicit(_) if at_barrier => Some(level),
        Task::Explicit(task) if tasks.is_under(Task::Implicit(member), task) => Some(level),
        Task::Explicit(_) => None,
    }
}

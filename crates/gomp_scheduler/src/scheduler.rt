//! The scheduler: what it keeps, and the memory for what comes next.

ghost use Rattle.std.specs.Prelude.{◌≡◌, ◌<◌, ◌≤◌, ℕ, List, [], IfOk, OnOk};
ghost use Rattle.gomp_events.specs.declared.event.Event.{Event};
ghost use Rattle.gomp_types.specs.Limits.{IsTeamSize};
ghost use Rattle.gomp_depend.specs.Stands.{Stands as DependsStand, HasDependRoom, is_freed, waiting_count};
ghost use Rattle.gomp_scheduler.specs.Schedulers.{Stands, SchedulerHasMembers, HasTaskRoom, HasGroupRoom, HasGrown, scheduler_members};

use gomp_barrier::Barriers;
use gomp_cancel::Cancellation;
use gomp_depend::Depends;
use gomp_groups::Groups;
use gomp_ready::Ready;
use gomp_tasks::Tasks;
use gomp_types::{Dep, Task};
use std::alloc::{AllocError, Global};
use std::marker::Model;

/// The scheduler of one team of 1 to 64 members, numbered from 0.
///
/// Only `new`, `reserve_task` and `reserve_group` take memory.
#[derive(Drop)]
pub struct Scheduler {
    /// The explicit tasks, and which of them each member has started and not ended.
    pub(crate) tasks: Tasks,
    /// The groups of tasks, and how many children of each task are open.
    pub(crate) groups: Groups,
    /// Who has arrived at which barrier, and how many open tasks are bound to it.
    pub(crate) barriers: Barriers,
    /// For which open tasks each task with items waits.
    pub(crate) depends: Depends,
    /// What is cancelled: the region, and which groups.
    pub(crate) cancelled: Cancellation,
    /// The tasks that nobody has started, that are deferred and wait for no open task, and perhaps some
    /// that were discarded. It has room for those that wait. What a member has passed over in it at a
    /// level it may not start there: nobody may, or it is not under the member's task of that level.
    pub(crate) ready: Ready,
}

impl Model for Scheduler {
    ghost use Rattle.std.specs.Coded.{codes};
    ghost use Rattle.gomp_depend.specs.contracts.depends.Depends.{the_row as depends_row};
    ghost use Rattle.gomp_scheduler.specs.Passed.{shown};
    ghost use Rattle.gomp_scheduler.specs.Schedulers.{SchedulerView, IsScheduler};

    ghost Value = { SchedulerView };

    ghost coded = { Prim.hlevel (codes, depends_row.coded) };

    ghost view = { λ s. record { tasks = s.tasks; groups = s.groups; barriers = s.barriers; depends = s.depends; cancelled = s.cancelled; ready = shown s.ready } };

    ghost invariant = { λ s. IsScheduler (record { tasks = s.tasks; groups = s.groups; barriers = s.barriers; depends = s.depends; cancelled = s.cancelled; ready = shown s.ready }) s.ready };
}

impl Scheduler {
    /// The scheduler of a new team of `count` members, 1 to 64: no task was created and no group
    /// opened, nobody has arrived at a barrier, and nothing is cancelled. It fails if its memory is
    /// refused.
    pub fn new(alloc: Global, count: u16) -> Result<Scheduler, AllocError>
        requires size { IsTeamSize count }
        ensures members { IfOk result (λ scheduler. SchedulerHasMembers count scheduler) }
        ensures stands { IfOk result (λ scheduler. Stands scheduler []) }
    {
        Ok(Scheduler {
            tasks: Tasks::new(alloc, count)?,
            groups: Groups::new(alloc, count)?,
            barriers: Barriers::new(alloc, count)?,
            depends: Depends::new(alloc),
            cancelled: Cancellation::new(alloc),
            ready: Ready::new(alloc, count)?,
        })
    }

    /// Makes memory for one more task, if the member, numbered from 0, creates it with these items in
    /// the task that it executes. It fails if the memory is refused. Whether it does or not, nothing
    /// that a list of events says has changed. Each part grows in steps, so that it is seldom moved.
    /// It costs a look-up for each item.
    pub fn reserve_task(&mut self, member: u16, items: &[Dep]) -> Result<(), AllocError>
        requires member { member < scheduler_members self.old }
        ensures room { OnOk result (HasTaskRoom member items.now self.new) }
        ensures same { HasGrown self.old self.new }
    {
        let task = self.tasks.count().saturating_add(1);
        let parent = self.tasks.current(member);
        make_task_room(
            &mut self.tasks,
            &mut self.groups,
            &mut self.depends,
            &mut self.ready,
            task,
            parent,
            items,
        )
    }

    /// Makes memory for one more group, as `reserve_task` does for one more task.
    pub fn reserve_group(&mut self) -> Result<(), AllocError>
        ensures room { OnOk result (HasGroupRoom self.new) }
        ensures same { HasGrown self.old self.new }
    {
        make_group_room(&mut self.groups, &mut self.cancelled)
    }
}

/// Makes memory for one more task, with these items in this parent.
fn make_task_room(
    tasks: &mut Tasks,
    groups: &mut Groups,
    depends: &mut Depends,
    ready: &mut Ready,
    task: u32,
    parent: Task,
    items: &[Dep],
) -> Result<(), AllocError>
    ensures tasks { tasks.new ≡ record tasks.old { room = tasks.new.room } }
    ensures task_room { OnOk result (0 < tasks.new.room) }
    ensures groups { groups.new ≡ record groups.old { task_room = groups.new.task_room } }
    ensures group_room { OnOk result (0 < groups.new.task_room) }
    ensures stands { (h : List Event) → DependsStand depends.old h → DependsStand depends.new h }
    ensures stood { (h : List Event) → DependsStand depends.new h → DependsStand depends.old h }
    ensures depend_room { OnOk result (HasDependRoom task parent items.now depends.new) }
    ensures freed { (t : ℕ) → is_freed t depends.new ≡ is_freed t depends.old }
    ensures waiting { waiting_count depends.new ≡ waiting_count depends.old }
    ensures ready { ready.new ≡ record ready.old { room = ready.new.room } }
    ensures ready_grows { ready.old.room ≤ ready.new.room }
    ensures ready_room { OnOk result (waiting_count depends.old < ready.new.room) }
{
    tasks.reserve()?;
    groups.reserve_task()?;
    depends.reserve(task, parent, items)?;
    ready.reserve(depends.waiting() + 1)
}

/// Makes memory for one more group.
fn make_group_room(groups: &mut Groups, cancelled: &mut Cancellation) -> Result<(), AllocError>
    ensures groups { groups.new ≡ record groups.old { group_room = groups.new.group_room } }
    ensures group_room { OnOk result (0 < groups.new.group_room) }
    ensures cancelled { cancelled.new ≡ record cancelled.old { room = cancelled.new.room } }
    ensures mark_room { OnOk result (0 < cancelled.new.room) }
{
    groups.reserve_group()?;
    cancelled.reserve()
}

//! Cancel and cancellation point constructs of the region and of groups, and the tasks that a
//! cancellation discards. OpenMP API 5.2, sections 16.1 and 16.2.

ghost use Rattle.std.specs.Prelude.{◌≡◌, ◌<◌, ◌≤◌, ◌+◌, ◌++◌, ◌∷◌, ℕ, List, [], Some, None, length, reverse};
ghost use Rattle.gomp_events.specs.declared.event.Event.{Event};
ghost use Rattle.gomp_events.specs.declared.event.Event.TheVariants.{Discard};
ghost use Rattle.gomp_events.specs.Tasks.{tasks_created};
ghost use Rattle.gomp_events.specs.Cancels.{scope_of, names_cancelled};
ghost use Rattle.gomp_events.specs.CancelCalls.{cancel_tests, cancels, discards_to};
ghost use Rattle.gomp_types.specs.Least.{least};
ghost use Rattle.gomp_events.specs.TaskRules.{MayDiscard};
ghost use Rattle.gomp_tasks.specs.Stands.{count_of};
ghost use Rattle.gomp_scheduler.specs.Schedulers.{IsOfTeam, SchedulerHasMembers, scheduler_members};
ghost use Rattle.gomp_board.specs.Ops.{named_kind};
ghost use Rattle.gomp_board.specs.Owed.{owed};
ghost use Rattle.gomp_board.specs.Discards.{DiscardsStand, NoneToDiscard, DiscardsTask, DiscardsAll};
ghost use Rattle.gomp_board.specs.Boards.{HasSpare, IsOpAdmitted, Performs, Stands, members_of};
ghost use Rattle.gomp_board.specs.declared.op.Op.TheVariants.{Cancel, Point};

use crate::answer::{Answer, Kind, NO_MEMORY, Outcome};
use crate::board::Board;
use crate::op::TeamCancel;
use crate::refusals::both;
use gomp_events::{CANCEL_ROOM, Event};
use gomp_history::History;
use gomp_scheduler::Scheduler;
use gomp_types::Scope;

impl Board {
    /// The member comes to a cancel construct with this clause. Only one that cancels asks for
    /// memory.
    pub(crate) fn cancel_admitted(
        &mut self,
        member: u16,
        named: TeamCancel,
        clause: bool,
        allowed: bool,
    ) -> Answer
        requires member { member < members_of self.old }
        requires admitted { IsOpAdmitted (Cancel named clause allowed) member self.old }
        ensures performs { Performs (Cancel named clause allowed) member self.old self.new result }
    {
        let _ = &self.room; // opens the board
        if !both(allowed, clause) {
            let cancelled = self.names_cancelled(member, named);
            // What is not allowed is not seen either; so that is asked of both the clause and the answer.
            return Answer(Outcome {
                kind: Kind::Cancelling,
                flag: both(allowed, cancelled),
                task: 0,
                code: 0,
                arg: 0,
            });
        }
        let scope = self.scope_named(member, named);
        let Ok(()) = self.make_room(CANCEL_ROOM) else {
            return Answer(NO_MEMORY);
        };
        self.cancel_scope(member, scope);
        Answer(Outcome {
            kind: Kind::Cancelling,
            flag: true,
            task: 0,
            code: 0,
            arg: 0,
        })
    }

    /// The member comes to a cancellation point.
    pub(crate) fn point_admitted(&mut self, member: u16, named: TeamCancel, allowed: bool) -> Answer
        requires member { member < members_of self.old }
        requires admitted { IsOpAdmitted (Point named allowed) member self.old }
        ensures performs { Performs (Point named allowed) member self.old self.new result }
    {
        let cancelled = self.names_cancelled(member, named);
        Answer(Outcome {
            kind: Kind::Cancelling,
            flag: both(allowed, cancelled),
            task: 0,
            code: 0,
            arg: 0,
        })
    }

    /// Whether what a construct of the member names is cancelled.
    fn names_cancelled(&self, member: u16, named: TeamCancel) -> bool
        requires member { member < members_of self.now }
        ensures value { (h : List Event) → Stands self.now h →
            result ≡ names_cancelled (named_kind named) member h }
    {
        match named {
            TeamCancel::Parallel => self.scheduler.is_cancelled(),
            TeamCancel::Taskgroup => self.scheduler.is_task_cancelled(member),
        }
    }

    /// What a construct of the member names, which may name it there.
    fn scope_named(&self, member: u16, named: TeamCancel) -> Scope
        requires member { member < members_of self.now }
        requires may { (h : List Event) → Stands self.now h →
            least (cancel_tests (named_kind named) member h) ≡ None }
        ensures value { (h : List Event) → Stands self.now h →
            scope_of (named_kind named) member h ≡ Some result }
        ensures of_team { IsOfTeam result (length self.now.scheduler.cancelled.marks) }
    {
        match named {
            TeamCancel::Parallel => Scope::Region,
            TeamCancel::Taskgroup => {
                // The tests have seen that there is one; they hand no group on.
                let Some(group) = self.scheduler.innermost_group(member) else {
                    unreachable!()
                };
                Scope::OneGroup(group)
            }
        }
    }

    /// The member cancels this, and the tasks that it reaches and that nobody has started are
    /// discarded.
    fn cancel_scope(&mut self, member: u16, scope: Scope)
        requires member { member < members_of self.old }
        requires scope { IsOfTeam scope (length self.old.scheduler.cancelled.marks) }
        requires spare { HasSpare 1 self.old }
        ensures stands { (h : List Event) → Stands self.old h →
            Stands self.new (cancels member (Some scope) h ++ h) }
        ensures limits { self.new.limits ≡ self.old.limits }
        ensures room { self.new.room ≡ self.old.room }
        ensures kept { self.new.kept ≡ self.old.kept }
    {
        let before = self.scheduler.cancel(scope);
        self.history.push(Event::Cancel { member, scope });
        discard_covered(member, before, &mut self.history, &mut self.scheduler);
    }
}

/// Discards, in the order of their numbers, the tasks that nobody has started and that a
/// cancellation reaches; the first `before` tasks are none of them. It takes a step for each later
/// task, and one for each group around it.
fn discard_covered(member: u16, before: u32, history: &mut History, scheduler: &mut Scheduler)
    requires member { member < scheduler_members scheduler.old }
    requires members { SchedulerHasMembers (scheduler_members scheduler.old) scheduler.old }
    requires few { before ≤ count_of scheduler.old.tasks }
    requires own { DiscardsStand scheduler.old history.old.events (reverse history.old.events) }
    requires none { NoneToDiscard before (reverse history.old.events) }
    requires room { (n : ℕ) × (length history.old.events
        + owed n (reverse history.old.events) ≤ history.old.capacity) }
    ensures stands { DiscardsAll before member scheduler.old scheduler.new
        history.old.events history.new.events }
    ensures owes { (n : ℕ) → length history.new.events + owed n (reverse history.new.events)
        ≤ length history.old.events + owed n (reverse history.old.events) }
    ensures memory { history.new.capacity ≡ history.old.capacity }
    ensures history { reverse history.new.events ≡ discards_to (tasks_created
        (reverse history.old.events)) member (reverse history.old.events)
        ++ reverse history.old.events }
    ensures members { SchedulerHasMembers (scheduler_members scheduler.old) scheduler.new }
{
    let count = scheduler.count();
    for place in before..count {
        let task = place + 1;
        if scheduler.is_discarded(task) {
            discard_task(member, task, history, scheduler);
        }
    }
    scheduler.forget_discarded();
}

/// Discards a task that nobody has started and that a cancellation reaches.
fn discard_task(member: u16, task: u32, history: &mut History, scheduler: &mut Scheduler)
    requires member { member < scheduler_members scheduler.old }
    requires may { MayDiscard (scheduler_members scheduler.old) task member
        (reverse history.old.events) }
    requires own { DiscardsStand scheduler.old history.old.events (reverse history.old.events) }
    requires space { length history.old.events < history.old.capacity }
    ensures stands { DiscardsTask task member scheduler.old scheduler.new
        history.old.events history.new.events }
    ensures history { history.new.events ≡ history.old.events ++ Discard task member ∷ [] }
    ensures memory { history.new.capacity ≡ history.old.capacity }
    ensures count { count_of scheduler.new.tasks ≡ count_of scheduler.old.tasks }
    ensures members { SchedulerHasMembers (scheduler_members scheduler.old) scheduler.new }
{
    scheduler.discard(member, task, history.desc(task).deps.as_slice());
    history.push(Event::Discard { task, member });
}

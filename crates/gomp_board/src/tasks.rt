//! Tasks: their creation and their end. OpenMP API 5.2, section 12.5.

ghost use Rattle.std.specs.Prelude.{◌≡◌, ◌<◌, ◌≤◌, ◌+◌, ◌++◌, List, true, false, reverse, OnOk, IsErr};
ghost use Rattle.gomp_events.specs.declared.event.Event.{Event};
ghost use Rattle.gomp_types.specs.declared.reply.Reply.TheVariants.{Wait};
ghost use Rattle.gomp_events.specs.CancelCalls.{creates_covered};
ghost use Rattle.gomp_events.specs.Tasks.{is_created, of_explicit};
ghost use Rattle.gomp_events.specs.TaskCalls.{creates, CreatesTask, starts_task};
ghost use Rattle.gomp_events.specs.declared.room.TheConstants.{TASK_ROOM};
ghost use Rattle.gomp_scheduler.specs.Calls.{items_of_task};
ghost use Rattle.gomp_scheduler.specs.Schedulers.{HasGrown, HasTaskRoom, scheduler_members};
ghost use Rattle.gomp_board.specs.Boards.{IsOpAdmitted, IsOpAdmittedOnce, IsSame, Performs, Stands, members_of};
ghost use Rattle.gomp_board.specs.Stored.{stored};
ghost use Rattle.gomp_board.specs.declared.op.Op.TheVariants.{Create, AwaitOwn, EndTask};

use crate::answer::{Answer, DROPPED, Kind, NO_MEMORY, Outcome};
use crate::board::Board;
use gomp_events::{Event, TASK_ROOM};
use gomp_history::History;
use gomp_scheduler::{Ended, Newest, Scheduler};
use gomp_types::{Dep, Reply, Task, TaskDesc};
use std::alloc::{AllocError, Global};

impl Board {
    /// The member, numbered from 0, creates a task in the one that it executes, and starts it if it is
    /// undeferred and may be started; if it may not yet, the member executes another, or waits. A task
    /// that a cancellation would reach is not created (`Dropped`). The same as
    /// [`step_admitted`](Board::step_admitted) of `Create`, by a description that the caller keeps: no test is
    /// made here (OpenMP API 5.2, sections 12.5 and 16.1).
    pub fn create_admitted(&mut self, member: u16, desc: &TaskDesc) -> Reply
        requires member { member < members_of self.old }
        requires admitted { IsOpAdmittedOnce (Create desc.now) member self.old }
        ensures performs { Performs (Create desc.now) member self.old self.new result }
    {
        self.create_answer(member, desc).into_reply()
    }

    /// The same, in an answer.
    pub(crate) fn create_answer(&mut self, member: u16, desc: &TaskDesc) -> Answer
        requires member { member < members_of self.old }
        requires admitted { IsOpAdmittedOnce (Create desc.now) member self.old }
        ensures performs { Performs (Create desc.now) member self.old self.new result }
    {
        // Who tested the creation asked this too, since a dropped task needs no room; a test hands on
        // a refusal alone.
        if self.drops_creation(member) {
            return Answer(DROPPED);
        }
        let Ok(()) = self.add_task(member, desc) else {
            return Answer(NO_MEMORY);
        };
        self.answer_creator(member)
    }

    /// The member goes on with the creation of the newest task in the one that it executes.
    pub(crate) fn await_own(&mut self, member: u16) -> Answer
        requires member { member < members_of self.old }
        requires admitted { IsOpAdmitted AwaitOwn member self.old }
        ensures performs { Performs AwaitOwn member self.old self.new result }
    {
        if self.drops_creation(member) {
            return Answer(DROPPED);
        }
        self.answer_creator(member)
    }

    /// The next task, in the one that the member executes. It fails, and nothing changes, if memory is
    /// refused.
    fn add_task(&mut self, member: u16, desc: &TaskDesc) -> Result<(), AllocError>
        requires member { member < members_of self.old }
        requires admitted { IsOpAdmitted (Create desc.now) member self.old }
        requires uncovered { (h : List Event) → Stands self.old h →
            creates_covered member h ≡ false }
        ensures stands { (h : List Event) → Stands self.old h →
            OnOk result (Stands self.new (creates member desc.now h ++ h)) }
        ensures limits { self.new.limits ≡ self.old.limits }
        ensures members { members_of self.new ≡ members_of self.old }
        ensures room { OnOk result (self.new.room ≡ self.old.room + TASK_ROOM) }
        ensures kept { self.new.kept ≡ self.old.kept }
        ensures lacks { IsErr result → IsSame self.old self.new }
    {
        let parent = self.current(member);
        let room = self.room + TASK_ROOM;
        let stored = desc.copied(self.alloc)?;
        reserve_task(
            &mut self.history,
            room,
            &mut self.scheduler,
            member,
            desc.deps.as_slice(),
        )?;
        let task = self.scheduler.create(member, desc);
        self.history.push_task(task, member, parent, stored);
        self.room = room;
        Ok(())
    }

    /// Answers the creator of the newest task in the one that the member executes: with its number
    /// unless it is undeferred; else the member starts it if it may, and if not it executes another, or
    /// waits. If the member has created none there, the number is 0.
    #[inline(always)]
    fn answer_creator(&mut self, member: u16) -> Answer
        requires member { member < members_of self.old }
        ensures known { Stands self.old (reverse self.old.history) }
        ensures answer { (h : List Event) → Stands self.old h → CreatesTask member h result }
        ensures stands { (h : List Event) → Stands self.old h →
            Stands self.new (starts_task member result ++ h) }
        ensures limits { self.new.limits ≡ self.old.limits }
        ensures members { members_of self.new ≡ members_of self.old }
        ensures room { self.new.room ≡ self.old.room }
        ensures kept { self.new.kept ≡ self.old.kept }
        ensures waits { result ≡ Wait → self.new ≡ self.old }
    {
        let Newest { task, undeferred } = self.scheduler.newest(member);
        if !undeferred {
            return Answer(Outcome {
                kind: Kind::Created,
                flag: false,
                task,
                code: 0,
                arg: 0,
            });
        }
        if self.scheduler.may_start_own(member, task) {
            self.start_own(member, task)
        } else {
            self.run_or_wait(member)
        }
    }

    /// The member ends the task that it executes.
    pub(crate) fn end_task_admitted(&mut self, member: u16, leaving: bool) -> Answer
        requires member { member < members_of self.old }
        requires admitted { IsOpAdmitted (EndTask leaving) member self.old }
        ensures performs { Performs (EndTask leaving) member self.old self.new result }
    {
        let items = items_of(&self.history, self.scheduler.current(member));
        let Ended {
            task,
            undeferred,
            ..
        } = self.scheduler.finish(member, items);
        self.history.push(Event::Done { task, member });
        Answer(Outcome {
            kind: Kind::TaskDone,
            flag: !undeferred,
            task,
            code: 0,
            arg: 0,
        })
    }
}

/// The items of the task, which is explicit: they stand in the event of its creation.
fn items_of(history: &History, task: Task) -> &[Dep]
    requires created { of_explicit (λ t. is_created t (reverse history.now.events)) task ≡ true }
    ensures value { (h : List Event) → stored h ≡ reverse history.now.events →
        result.now ≡ items_of_task task h }
{
    match task {
        Task::Implicit(_) => unreachable!(),
        Task::Explicit(number) => history.desc(number).deps.as_slice(),
    }
}

/// Makes memory for one more task, if the member creates it with these items in the one that it
/// executes, for its place in the history, and for so many events in all.
fn reserve_task(
    history: &mut History,
    room: u32,
    scheduler: &mut Scheduler,
    member: u16,
    items: &[Dep],
) -> Result<(), AllocError>
    requires member { member < scheduler_members scheduler.old }
    ensures history { history.new.events ≡ history.old.events }
    ensures grows { history.old.capacity ≤ history.new.capacity }
    ensures space { OnOk result (room ≤ history.new.capacity) }
    ensures place { OnOk result (0 < history.new.task_room) }
    ensures scheduler { HasGrown scheduler.old scheduler.new }
    ensures task_room { OnOk result (HasTaskRoom member items.now scheduler.new) }
{
    scheduler.reserve_task(member, items)?;
    history.reserve_task()?;
    history.reserve(room)
}

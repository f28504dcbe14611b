//! Waits at which a member executes tasks. OpenMP API 5.2, sections 12.9 and 15.5.

ghost use Rattle.std.specs.Prelude.{◌≡◌, ◌≢◌, ◌<◌, ◌∷◌, ◌++◌, List, [], length, reverse, true};
ghost use Rattle.gomp_events.specs.declared.event.Event.{Event};
ghost use Rattle.gomp_events.specs.declared.event.Event.TheVariants.{Start};
ghost use Rattle.gomp_types.specs.declared.reply.Reply.TheVariants.{Wait};
ghost use Rattle.gomp_events.specs.Tasks.{is_created};
ghost use Rattle.gomp_events.specs.TaskCalls.{starts_task};
ghost use Rattle.gomp_scheduler.specs.Startable.{MayStartOwn};
ghost use Rattle.gomp_board.specs.Boards.{IsOpAdmittedOnce, Performs, RunsOrWaits, RunsTask, Stands, members_of};
ghost use Rattle.gomp_board.specs.Stored.{stored};
ghost use Rattle.gomp_board.specs.declared.op.Op.TheVariants.{Taskwait, AwaitChildren};

use crate::answer::{Answer, Kind, Outcome, PASSED, WAIT};
use crate::board::Board;
use gomp_events::Event;
use gomp_history::History;
use gomp_types::{Dep, Reply};

impl Board {
    /// The member, numbered from 0, waits on for the children of the task that it executes, with items
    /// for those of them that a child with these items waits for, or begins this wait. The same as
    /// [`step_admitted`](Board::step_admitted) of `AwaitChildren` or of `Taskwait`, by items that the caller
    /// keeps: no test is made here (OpenMP API 5.2, section 15.5).
    pub fn await_children_admitted(&mut self, member: u16, items: &[Dep]) -> Reply
        requires member { member < members_of self.old }
        requires admitted { IsOpAdmittedOnce (AwaitChildren items.now) member self.old }
        ensures performs { Performs (AwaitChildren items.now) member self.old self.new result }
        ensures taskwait { IsOpAdmittedOnce (Taskwait items.now) member self.old →
            Performs (Taskwait items.now) member self.old self.new result }
    {
        self.await_children_answer(member, items).into_reply()
    }

    /// The same, in an answer.
    pub(crate) fn await_children_answer(&mut self, member: u16, items: &[Dep]) -> Answer
        requires member { member < members_of self.old }
        requires admitted { IsOpAdmittedOnce (AwaitChildren items.now) member self.old }
        ensures performs { Performs (AwaitChildren items.now) member self.old self.new result }
        ensures taskwait { IsOpAdmittedOnce (Taskwait items.now) member self.old →
            Performs (Taskwait items.now) member self.old self.new result }
    {
        if self.scheduler.children_done(member, items) {
            Answer(PASSED)
        } else {
            self.run_or_wait(member)
        }
    }

    /// At a wait whose goal is not met: the member starts a task that it may start, if there is one.
    #[inline(always)]
    pub(crate) fn run_or_wait(&mut self, member: u16) -> Answer
        requires member { member < members_of self.old }
        ensures answer { (h : List Event) → Stands self.old h → RunsOrWaits member h result }
        ensures stands { (h : List Event) → Stands self.old h →
            Stands self.new (starts_task member result ++ h) }
        ensures limits { self.new.limits ≡ self.old.limits }
        ensures members { members_of self.new ≡ members_of self.old }
        ensures room { self.new.room ≡ self.old.room }
        ensures kept { self.new.kept ≡ self.old.kept }
        ensures waits { result ≡ Wait → self.new ≡ self.old }
    {
        match self.scheduler.start_next(member) {
            Some(task) => note_start(&mut self.history, member, task, false),
            None => Answer(WAIT),
        }
    }

    /// The member starts its own task, which is undeferred.
    pub(crate) fn start_own(&mut self, member: u16, task: u32) -> Answer
        requires member { member < members_of self.old }
        requires may { (h : List Event) → Stands self.old h →
            MayStartOwn member task self.old.scheduler h }
        ensures answer { (h : List Event) → Stands self.old h → RunsTask task true h result }
        ensures stands { (h : List Event) → Stands self.old h →
            Stands self.new (starts_task member result ++ h) }
        ensures limits { self.new.limits ≡ self.old.limits }
        ensures members { members_of self.new ≡ members_of self.old }
        ensures room { self.new.room ≡ self.old.room }
        ensures kept { self.new.kept ≡ self.old.kept }
        ensures runs { result ≢ Wait }
    {
        self.scheduler.start_own(member, task);
        note_start(&mut self.history, member, task, true)
    }
}

/// Stores that the member has started this task, its own or not. Answers what it is to execute.
#[inline(always)]
fn note_start(history: &mut History, member: u16, task: u32, own: bool) -> Answer
    requires created { is_created task (reverse history.old.events) ≡ true }
    requires space { length history.old.events < history.old.capacity }
    ensures history { history.new.events ≡ history.old.events ++ Start task member ∷ [] }
    ensures memory { history.new.capacity ≡ history.old.capacity }
    ensures answer { (h : List Event) → stored h ≡ reverse history.old.events →
        RunsTask task own h result }
    ensures starts { starts_task member result ≡ Start task member ∷ [] }
{
    let desc = history.desc(task);
    let code = desc.code;
    let arg = desc.arg;
    history.push(Event::Start { task, member });
    Answer(Outcome {
        kind: Kind::Run,
        flag: own,
        task,
        code,
        arg,
    })
}

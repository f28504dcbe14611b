//! The board: what it keeps, and how an operation is answered.

ghost use Rattle.std.specs.Prelude.{◌≡◌, ◌<◌, List, [], IfOk, replicate, reverse};
ghost use Rattle.gomp_events.specs.declared.event.Event.{Event};
ghost use Rattle.gomp_events.specs.Laws.{Always};
ghost use Rattle.gomp_events.specs.Arrivals.{ArrivalRule};
ghost use Rattle.gomp_types.specs.Limits.{capped_limits, IsTeamSize};
ghost use Rattle.gomp_events.specs.Tasks.{executed_task};
ghost use Rattle.gomp_events.specs.TaskCalls.{first_room};
ghost use Rattle.gomp_events.specs.TaskRules.{TaskRule};
ghost use Rattle.gomp_board.specs.Boards.{Stands, IsOpAdmittedOnce, Performs, members_of};
ghost use Rattle.gomp_board.specs.KeptLaws.{KeepsLaws};

use crate::answer::Answer;
use crate::op::Op;
use crate::payloads::Payloads;
use gomp_events::{ARRIVAL_ROOM, Event};
use gomp_history::History;
use gomp_scheduler::Scheduler;
use gomp_types::{Clash, Limits, Reply, Task};
use std::alloc::{AllocError, Global};
use std::marker::Model;

/// The board of one team of 1 to 64 members, numbered from 0.
///
/// Only `new`, and operations that ask for room for events (`Create`, `OpenGroup`, `Arrive` at a
/// barrier, `Reserve`, `Put` and `Got` of a member that keeps none, `Cancel`), take memory. The items of a
/// task are copied once, at its creation; a task without items takes no memory for them.
#[derive(Drop)]
pub struct Board {
    /// Where memory comes from.
    pub(crate) alloc: Global,
    /// The team's limits, none above the standard one.
    pub(crate) limits: Limits,
    /// The stored events, with memory for as many as room was asked for.
    pub(crate) history: History,
    /// For so many events room was asked, and not given back.
    pub(crate) room: u32,
    /// Of that so much each member keeps for the share that it is in.
    pub(crate) kept: Vec<u32>,
    /// By whom and where the team was broken, if it was.
    pub(crate) clash: Option<Clash>,
    /// Tasks, groups, barriers, and what is cancelled of them.
    pub(crate) scheduler: Scheduler,
    /// The words of singles that were put last.
    pub(crate) payloads: Payloads,
}

impl Model for Board {
    ghost use Rattle.std.specs.Coded.{codes};
    ghost use Rattle.gomp_scheduler.specs.contracts.scheduler.Scheduler.{the_row as scheduler_row};
    ghost use Rattle.gomp_board.specs.Boards.{BoardView, IsBoard};

    ghost Value = { BoardView };

    ghost coded = { Prim.hlevel (codes, scheduler_row.coded) };

    ghost view = { λ b. record { limits = b.limits; history = b.history.events; room = b.room; kept = b.kept.items; clash = b.clash; scheduler = b.scheduler; payloads = b.payloads } };

    ghost invariant = { λ b. IsBoard b.history.capacity (record { limits = b.limits; history = b.history.events; room = b.room; kept = b.kept.items; clash = b.clash; scheduler = b.scheduler; payloads = b.payloads }) };
}

impl Board {
    /// The board of a new team of `count` members, 1 to 64, with these limits, each lowered to the
    /// standard one if it is larger. It fails if its memory is refused.
    pub fn new(alloc: Global, count: u16, limits: Limits) -> Result<Board, AllocError>
        requires size { IsTeamSize count }
        ensures members { IfOk result (λ board. members_of board ≡ count) }
        ensures limits { IfOk result (λ board. board.limits ≡ capped_limits limits) }
        ensures room { IfOk result (λ board. board.room ≡ first_room count) }
        ensures kept { IfOk result (λ board. board.kept ≡ replicate count 0) }
        ensures stands { IfOk result (λ board. Stands board []) }
    {
        let room = ARRIVAL_ROOM * count as u32 + 1;
        Ok(Board {
            alloc,
            limits: limits.capped_limits(),
            history: History::with_room(alloc, room)?,
            room,
            kept: vec![in alloc; 0; count as usize]?,
            clash: None,
            payloads: Payloads::new(alloc)?,
            scheduler: Scheduler::new(alloc, count)?,
        })
    }

    /// Answers an operation of the member, numbered from 0. A refusal has the least number of those
    /// whose tests hold ([`first_refusal`](Board::first_refusal)); if none holds, an operation that asks
    /// for room may find no memory (`NoMemory`). A refusal changes nothing, save that `Mismatch` breaks
    /// the team (OpenMP API 5.2, chapter 12, sections 15.3 to 15.5).
    pub fn step(&mut self, member: u16, op: &Op) -> Reply
        requires member { member < members_of self.old }
        ensures performs { Performs op.now member self.old self.new result }
    {
        match self.first_refusal(member, op) {
            None => self.answer(member, op).into_reply(),
            Some(refusal) => self.refuse(member, op, refusal),
        }
    }

    /// Answers an operation of the member, numbered from 0, that was tested and is not refused: no
    /// test is made here. It is enough that none refuses it on one list of events for which the board
    /// stands. `NoMemory`, if it asks for room and its memory is refused, is the one refusal that is
    /// left; then nothing changes.
    // Where the caller knows which operation it is, the compiler cuts the rest away.
    #[inline(always)]
    pub fn step_admitted(&mut self, member: u16, op: &Op) -> Reply
        requires member { member < members_of self.old }
        requires admitted { IsOpAdmittedOnce op.now member self.old }
        ensures performs { Performs op.now member self.old self.new result }
    {
        self.answer(member, op).into_reply()
    }

    /// The same, in an answer.
    #[inline(always)]
    fn answer(&mut self, member: u16, op: &Op) -> Answer
        requires member { member < members_of self.old }
        requires admitted { IsOpAdmittedOnce op.now member self.old }
        ensures performs { Performs op.now member self.old self.new result }
    {
        let _ = &self.kept; // opens self
        match op {
            Op::Create(desc) => self.create_answer(member, desc),
            Op::AwaitOwn => self.await_own(member),
            Op::EndTask(leaving) => self.end_task_admitted(member, *leaving),
            Op::Taskwait(items) => self.await_children_answer(member, items.as_slice()),
            Op::AwaitChildren(items) => self.await_children_answer(member, items.as_slice()),
            Op::OpenGroup => self.open_group(member),
            Op::EndGroup => self.end_group_admitted(member),
            Op::AwaitGroup => self.end_group_admitted(member),
            Op::Arrive { tag, leaving } => self.arrive_admitted(member, *tag, *leaving),
            Op::AwaitBarrier => self.await_barrier(member),
            Op::Reserve(more) => self.reserve_admitted(member, *more),
            Op::Put { share, words } => self.put_words(member, *share, words),
            Op::Got { share, words } => self.give_words(member, *share, words),
            Op::Cancel {
                named,
                clause,
                allowed,
            } => self.cancel_admitted(member, *named, *clause, *allowed),
            Op::Point { named, allowed } => self.point_admitted(member, *named, *allowed),
            Op::Break { place, back } => self.stop(member, *place, *back),
        }
    }

    /// The task that the member, numbered from 0, executes.
    #[inline(always)]
    pub fn current(&self, member: u16) -> Task
        requires member { member < members_of self.now }
        ensures known { Stands self.now (reverse self.now.history) }
        ensures value { (h : List Event) → Stands self.now h → result ≡ executed_task member h }
    {
        self.scheduler.current(member)
    }

    /// The stored events, the oldest first. They keep the rules of tasks and of barriers, and so the
    /// laws of both, whoever made the calls.
    pub fn history(&self) -> &[Event]
        ensures value { result.now ≡ self.now.history }
        ensures known { Stands self.now (reverse result.now) }
        ensures tasks { Always (TaskRule (members_of self.now)) (reverse result.now) }
        ensures arrivals { Always (ArrivalRule (members_of self.now)) (reverse result.now) }
        ensures laws { KeepsLaws (members_of self.now) (reverse result.now) }
    {
        self.history.events()
    }

    /// The stored events, the oldest first, of a board that is dropped. They keep the laws that those
    /// of [`history`](Board::history) keep.
    pub fn into_history(self) -> Vec<Event>
        ensures value { result.items ≡ self.history }
        ensures laws { KeepsLaws (members_of self) (reverse result.items) }
    {
        self.history.into_events()
    }
}

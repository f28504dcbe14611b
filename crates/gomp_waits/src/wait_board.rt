//! The board with open waits: what it keeps, and how an operation is answered.

ghost use Rattle.std.specs.Prelude.{◌≡◌, ◌<◌, false, List, [], IfOk, option_copied, replicate, reverse};
ghost use Rattle.gomp_events.specs.declared.event.Event.{Event};
ghost use Rattle.gomp_events.specs.Laws.{Always};
ghost use Rattle.gomp_events.specs.Arrivals.{ArrivalRule};
ghost use Rattle.gomp_events.specs.Cancels.{is_cancelled};
ghost use Rattle.gomp_events.specs.Events.{clash_of};
ghost use Rattle.gomp_types.specs.Limits.{capped_limits, IsTeamSize};
ghost use Rattle.gomp_events.specs.Tasks.{executed_task};
ghost use Rattle.gomp_events.specs.TaskCalls.{first_room};
ghost use Rattle.gomp_events.specs.TaskRules.{TaskRule};
ghost use Rattle.gomp_board.specs.Boards.{Stands, members_of};
ghost use Rattle.gomp_board.specs.KeptLaws.{KeepsLaws};
ghost use Rattle.gomp_board.specs.KeptPayload.{HasPayload, kept_payload};
ghost use Rattle.gomp_waits.specs.Words.{come_late, are_these, payload_refusal};
ghost use Rattle.gomp_waits.specs.Waits.{is_waiting, open_wait_refusal, waiting_after, asked_refusal, room_terms, PerformsOrWaits};

use crate::waits::{lesser_refusal, wait_refusal, waits_on};
use gomp_board::{Board, Op};
use gomp_events::Event;
use gomp_types::{Clash, Limits, Payload, Refusal, Reply, Task};
use std::alloc::{AllocError, Global};
use std::marker::Model;

/// The board of one team of 1 to 64 members, numbered from 0, and for each member whether its wait is
/// open: it was answered `Wait`, or ended a task that it started at a wait, and was answered nothing
/// since but refusals.
///
/// It takes memory for this when it is made, and none later but the board's own.
#[derive(Drop)]
pub struct WaitBoard {
    board: Board,
    waiting: Vec<bool>,
}

impl Model for WaitBoard {
    ghost use Rattle.std.specs.Coded.{codes};
    ghost use Rattle.gomp_board.specs.contracts.board.Board.{the_row as board_row};
    ghost use Rattle.gomp_waits.specs.Waits.{WaitBoardView, IsWaitBoard};

    ghost Value = { WaitBoardView };

    ghost coded = { Prim.hlevel (codes, board_row.coded) };

    ghost view = { λ w. record { board = w.board; waiting = w.waiting.items } };

    ghost invariant = { λ w. IsWaitBoard (record { board = w.board; waiting = w.waiting.items }) };
}

impl WaitBoard {
    /// The board of a new team of `count` members, 1 to 64, of whom none waits, with these limits, each
    /// lowered to the standard one if it is larger. It fails if its memory is refused.
    pub fn new(alloc: Global, count: u16, limits: Limits) -> Result<WaitBoard, AllocError>
        requires size { IsTeamSize count }
        ensures members { IfOk result (λ made. members_of made.board ≡ count) }
        ensures limits { IfOk result (λ made. made.board.limits ≡ capped_limits limits) }
        ensures room { IfOk result (λ made. made.board.room ≡ first_room count) }
        ensures kept { IfOk result (λ made. made.board.kept ≡ replicate count 0) }
        ensures stands { IfOk result (λ made. Stands made.board []) }
        ensures waiting { IfOk result (λ made. made.waiting ≡ replicate count false) }
    {
        Ok(WaitBoard {
            board: Board::new(alloc, count, limits)?,
            waiting: vec![in alloc; false; count as usize]?,
        })
    }

    /// How many members the team has, 1 to 64.
    pub fn members(&self) -> u16
        ensures value { result ≡ members_of self.now.board }
        ensures size { IsTeamSize result }
    {
        self.waiting.len() as u16
    }

    /// The team's limits.
    pub fn limits(&self) -> Limits
        ensures { result ≡ self.now.board.limits }
    {
        self.board.limits()
    }

    /// Whether the wait of the member, numbered from 0, is open.
    pub fn is_waiting(&self, member: u16) -> bool
        requires member { member < members_of self.now.board }
        ensures value { result ≡ is_waiting member self.now }
    {
        self.waiting[member as usize]
    }

    /// Why the operation of the member, numbered from 0, is refused, want of memory aside: of the
    /// board's tests that hold ([`Board::first_refusal`](gomp_board::Board::first_refusal)), and those
    /// of its wait, the one whose refusal has the least number. An open wait refuses, as `Waiting`, all
    /// but the operations that go on with a wait (`AwaitOwn`, `AwaitChildren`, `AwaitGroup`,
    /// `AwaitBarrier`) and a stop; without one these four are refused as `NotInside` (own).
    pub fn first_refusal(&self, member: u16, op: &Op) -> Option<Refusal>
        requires member { member < members_of self.now.board }
        ensures value { (h : List Event) → Stands self.now.board h → result ≡ asked_refusal
            (room_terms member self.now.board) member (is_waiting member self.now) op.now h }
    {
        let found = self.board.first_refusal(member, op);
        match wait_refusal(self.is_waiting(member), op) {
            None => found,
            Some(refusal) => Some(lesser_refusal(refusal, found)),
        }
    }

    /// Answers an operation of the member, numbered from 0. A refusal has the least number of those
    /// whose tests hold ([`first_refusal`](WaitBoard::first_refusal)); if none holds, an operation that
    /// asks for room may find no memory (`NoMemory`). A refusal changes nothing, save that `Mismatch`
    /// breaks the team. `Wait` opens the member's wait, the end of a task that was started at a wait
    /// opens that again, and any other reply closes it (OpenMP API 5.2, chapter 12, sections 15.3 to
    /// 15.5).
    pub fn step(&mut self, member: u16, op: &Op) -> Reply
        requires member { member < members_of self.old.board }
        ensures performs { PerformsOrWaits op.now member self.old self.new result }
    {
        match wait_refusal(self.is_waiting(member), op) {
            None => self.perform(member, op),
            Some(refusal) => self.refuse(member, op, refusal),
        }
    }

    /// The task that the member, numbered from 0, executes.
    pub fn current(&self, member: u16) -> Task
        requires member { member < members_of self.now.board }
        ensures known { Stands self.now.board (reverse self.now.board.history) }
        ensures value { (h : List Event) → Stands self.now.board h →
            result ≡ executed_task member h }
    {
        self.board.current(member)
    }

    /// The stored events, the oldest first. They keep the rules of tasks and of barriers, whoever
    /// made the calls.
    pub fn history(&self) -> &[Event]
        ensures value { result.now ≡ self.now.board.history }
        ensures known { Stands self.now.board (reverse result.now) }
        ensures tasks { Always (TaskRule (members_of self.now.board)) (reverse result.now) }
        ensures arrivals { Always (ArrivalRule (members_of self.now.board)) (reverse result.now) }
        ensures laws { KeepsLaws (members_of self.now.board) (reverse result.now) }
    {
        self.board.history()
    }

    /// The stored events, the oldest first, of a board that is dropped. They keep the laws of tasks and
    /// of barriers, whoever made the calls.
    pub fn into_history(self) -> Vec<Event>
        ensures value { result.items ≡ self.board.history }
        ensures laws { KeepsLaws (members_of self.board) (reverse result.items) }
    {
        self.board.into_history()
    }

    /// By whom and where the team was broken first, if it was.
    pub fn clash(&self) -> Option<Clash>
        ensures value { (h : List Event) → Stands self.now.board h → result ≡ clash_of h }
    {
        self.board.clash()
    }

    /// Whether the region is cancelled (section 16.1).
    pub fn is_cancelled(&self) -> bool
        ensures value { (h : List Event) → Stands self.now.board h → result ≡ is_cancelled h }
    {
        self.board.is_cancelled()
    }

    /// The words that were put in this share, numbered from 0. None if none were, or if words were put
    /// later in another share whose number leaves the same rest by OPEN_SHARES (section 5.7.2).
    pub fn payload(&self, share: u64) -> Option<&Payload>
        ensures known { Stands self.now.board (reverse self.now.board.history) }
        ensures value { HasPayload self.now.board share (option_copied result) }
    {
        self.board.payload(share)
    }

    /// Why the words of an operation are refused, whoever asks it: as `NotInside` (E22), if it puts words
    /// in a share in which some were put, or whose place those of a later share have, and if it notes
    /// that a member is given words that do not lie in the share. Other operations have none (own).
    ///
    /// [`step`](WaitBoard::step) trusts its caller in this: who answers several callers asks here first.
    pub fn payload_refusal(&self, op: &Op) -> Option<Refusal>
        ensures value { (h : List Event) → Stands self.now.board h →
            result ≡ payload_refusal op.now h }
    {
        match op {
            Op::Put { share, .. } if self.come_late(*share) => Some(Refusal::NotInside),
            Op::Got { share, words } if !self.are_kept(*share, words) => Some(Refusal::NotInside),
            _ => None,
        }
    }

    /// Whether words for this share come late.
    fn come_late(&self, share: u64) -> bool
        ensures value { (h : List Event) → Stands self.now.board h → result ≡ come_late share h }
    {
        match self.board.newest_put(share) {
            Some(newest) => share <= newest,
            None => false,
        }
    }

    /// Whether these words lie in the share.
    fn are_kept(&self, share: u64, words: &Payload) -> bool
        ensures value { (h : List Event) → Stands self.now.board h →
            result ≡ are_these words.now (kept_payload share h) }
    {
        match self.payload(share) {
            Some(kept) => kept == words,
            None => false,
        }
    }

    /// Answers an operation that the member's wait does not refuse.
    fn perform(&mut self, member: u16, op: &Op) -> Reply
        requires member { member < members_of self.old.board }
        requires open { open_wait_refusal (is_waiting member self.old) op.now ≡ None }
        ensures performs { PerformsOrWaits op.now member self.old self.new result }
    {
        let reply = self.board.step(member, op);
        self.note(member, &reply);
        reply
    }

    /// Refuses an operation for the member's wait, or for a test of the board whose refusal has a
    /// lesser number.
    fn refuse(&self, member: u16, op: &Op, refusal: Refusal) -> Reply
        requires member { member < members_of self.now.board }
        requires refused { open_wait_refusal (is_waiting member self.now) op.now ≡ Some refusal }
        ensures performs { PerformsOrWaits op.now member self.now self.now result }
    {
        let found = self.board.first_refusal(member, op);
        Reply::Refused(lesser_refusal(refusal, found))
    }

    /// Takes note of the reply to the member.
    fn note(&mut self, member: u16, reply: &Reply)
        requires member { member < members_of self.old.board }
        ensures { self.new ≡ record self.old {
          waiting = waiting_after member reply.now self.old;
        } }
    {
        let place = member as usize;
        self.waiting[place] = waits_on(reply, self.waiting[place]);
    }
}

//! A board that refuses what a member asks while any wait of it is open.

ghost use Rattle.std.specs.Prelude.{◌≡◌, ◌<◌, false, List, [], IfOk, option_copied, replicate, reverse};
ghost use Rattle.gomp_events.specs.declared.event.Event.{Event};
ghost use Rattle.gomp_events.specs.Laws.{Always};
ghost use Rattle.gomp_events.specs.Arrivals.{ArrivalRule};
ghost use Rattle.gomp_types.specs.Limits.{capped_limits, IsTeamSize};
ghost use Rattle.gomp_events.specs.Tasks.{executed_task};
ghost use Rattle.gomp_events.specs.TaskCalls.{first_room};
ghost use Rattle.gomp_events.specs.TaskRules.{TaskRule};
ghost use Rattle.gomp_board.specs.Boards.{Stands, members_of};
ghost use Rattle.gomp_board.specs.KeptLaws.{KeepsLaws};
ghost use Rattle.gomp_board.specs.KeptPayload.{HasPayload};
ghost use Rattle.gomp_waits.specs.Waits.{is_waiting, asked_refusal, room_terms, PerformsOrWaits};
ghost use Rattle.gomp_waits.specs.Words.{payload_refusal};

use gomp_board::Op;
use gomp_events::Event;
use gomp_types::{Limits, Payload, Refusal, Reply, Task};
use gomp_waits::WaitBoard;
use std::alloc::{AllocError, Global};

/// A board on which no wait is open.
pub fn new(alloc: Global, count: u16, limits: Limits) -> Result<WaitBoard, AllocError>
    requires size { IsTeamSize count }
    ensures members { IfOk result (λ made. members_of made.board ≡ count) }
    ensures limits { IfOk result (λ made. made.board.limits ≡ capped_limits limits) }
    ensures room { IfOk result (λ made. made.board.room ≡ first_room count) }
    ensures kept { IfOk result (λ made. made.board.kept ≡ replicate count 0) }
    ensures stands { IfOk result (λ made. Stands made.board []) }
    ensures waiting { IfOk result (λ made. made.waiting ≡ replicate count false) }
{
    WaitBoard::new(alloc, count, limits)
}

/// How many members it has.
pub fn members(this: &WaitBoard) -> u16
    ensures value { result ≡ members_of this.now.board }
    ensures size { IsTeamSize result }
{
    this.members()
}

/// Whether a wait of the member is open.
pub fn is_waiting(this: &WaitBoard, member: u16) -> bool
    requires member { member < members_of this.now.board }
    ensures value { result ≡ is_waiting member this.now }
{
    this.is_waiting(member)
}

/// What an operation would be refused with.
pub fn first_refusal(this: &WaitBoard, member: u16, op: &Op) -> Option<Refusal>
    requires member { member < members_of this.now.board }
    ensures value { (h : List Event) → Stands this.now.board h → result ≡ asked_refusal
        (room_terms member this.now.board) member (is_waiting member this.now) op.now h }
{
    this.first_refusal(member, op)
}

/// Performs an operation, or refuses it.
pub fn step(this: &mut WaitBoard, member: u16, op: &Op) -> Reply
    requires member { member < members_of this.old.board }
    ensures performs { PerformsOrWaits op.now member this.old this.new result }
{
    this.step(member, op)
}

/// The task that the member executes.
pub fn current(this: &WaitBoard, member: u16) -> Task
    requires member { member < members_of this.now.board }
    ensures known { Stands this.now.board (reverse this.now.board.history) }
    ensures value { (h : List Event) → Stands this.now.board h →
        result ≡ executed_task member h }
{
    this.current(member)
}

/// What is stored of what happened.
pub fn history(this: &WaitBoard) -> &[Event]
    ensures value { result.now ≡ this.now.board.history }
    ensures known { Stands this.now.board (reverse result.now) }
    ensures tasks { Always (TaskRule (members_of this.now.board)) (reverse result.now) }
    ensures arrivals { Always (ArrivalRule (members_of this.now.board)) (reverse result.now) }
    ensures laws { KeepsLaws (members_of this.now.board) (reverse result.now) }
{
    this.history()
}

/// The same of a board that is dropped.
pub fn into_history(this: WaitBoard) -> Vec<Event>
    ensures value { result.items ≡ this.board.history }
    ensures laws { KeepsLaws (members_of this.board) (reverse result.items) }
{
    this.into_history()
}

/// The words of a share.
pub fn payload(this: &WaitBoard, share: u64) -> Option<&Payload>
    ensures known { Stands this.now.board (reverse this.now.board.history) }
    ensures value { HasPayload this.now.board share (option_copied result) }
{
    this.payload(share)
}

/// Why the words of an operation are refused.
pub fn payload_refusal(this: &WaitBoard, op: &Op) -> Option<Refusal>
    ensures value { (h : List Event) → Stands this.now.board h →
        result ≡ payload_refusal op.now h }
{
    this.payload_refusal(op)
}

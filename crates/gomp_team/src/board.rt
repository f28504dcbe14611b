//! The calls that the board answers alone: on tasks and groups, the constructs that cancel the region
//! or a group, and the stop.
//!
//! OpenMP API 5.2, chapter 12 and sections 15.4, 15.5, 16.1 and 16.2.

ghost use Rattle.std.specs.Prelude.{◌≡◌, ◌≢◌, false, true, List, Some};
ghost use Rattle.gomp_types.specs.declared.call.Call.TheVariants.{Taskwait};
ghost use Rattle.gomp_types.specs.declared.depend.Dep.{Dep};
ghost use Rattle.gomp_types.specs.declared.task.TaskDesc.{TaskDesc};
ghost use Rattle.gomp_board.specs.declared.op.Op.TheVariants.{Create};
ghost use Rattle.gomp_types.specs.declared.call.Server.TheVariants.{Board};
ghost use Rattle.gomp_types.specs.declared.refusal.Refusal.TheVariants.{Mismatch};
ghost use Rattle.gomp_types.specs.Servers.{served_by};
ghost use Rattle.gomp_team_board.specs.Parts.{part_after};
ghost use Rattle.gomp_team_board.specs.Locked.{IsAnsweredUnless};
ghost use Rattle.gomp_ring.specs.RingSeats.{IsOnRing};
ghost use Rattle.gomp_team.specs.Answers.{FindsItself, TeamAnswers};
ghost use Rattle.gomp_team.specs.Moves.{events_part, holds_part, releases_part};
ghost use Rattle.gomp_team.specs.Seats.{AsksSeat, seat_ask};
ghost use Rattle.gomp_team.specs.Members.{AsksNoItems, BringsItems, AwaitsItems, AwaitsThese};

use crate::ops::plain_op;
use crate::parts::MemberParts;
use crate::team::SharedTeam;
use gomp_board::Op;
use gomp_member::MemberState;
use gomp_team_book::HoldLedger;
use gomp_types::{Call, Deps, Refusal, Reply, TaskDesc};
use std::sync::Wait;
use std::sync::ledger::Ledger;

impl<L: Ledger, H: HoldLedger, F: Ledger> SharedTeam<L, H, F> {
    /// One try of a call that the board answers, and that brings no items.
    pub(crate) fn answer_by_board<R: Wait>(
        &self,
        rt: &R,
        state: &MemberState,
        parts: &mut MemberParts<L, H, F>,
        call: &Call,
        repeated: bool,
    ) -> Reply
        requires served { served_by call.now ≡ Board }
        requires items { AsksNoItems repeated call.now }
        requires ring { IsOnRing self.now.ring parts.old.seat }
        ensures board { parts.new.board ≡ events_part repeated call.now result parts.old.board }
        ensures held { parts.new.held ≡ holds_part repeated call.now result parts.old.held }
        ensures freed { parts.new.freed ≡ releases_part repeated call.now result parts.old.freed }
        ensures seat { parts.new.seat ≡ parts.old.seat }
        ensures answers { TeamAnswers self.now.team.icv.cancellation repeated state.now.own call.now
            parts.old.seat result }
    {
        let found = self.itself_refusal(rt, state, &mut parts.seat, call, repeated);
        // The call's kind is asked again, after `served_by`: for the operation that it makes of the call's words.
        match plain_op(self.manner(state, repeated), call) {
            Some(op) => self.ask(rt, parts, &op, found),
            None => unreachable!(),
        }
    }

    /// One try of an operation on the board, which the caller refuses as `found`, unless a refusal of the
    /// board's comes first.
    pub(crate) fn ask<R: Wait>(
        &self,
        rt: &R,
        parts: &mut MemberParts<L, H, F>,
        op: &Op,
        found: Option<Refusal>,
    ) -> Reply
        requires own { found ≢ Some Mismatch }
        ensures answer { IsAnsweredUnless found op.now parts.old.seat.member result }
        ensures board { parts.new.board ≡ part_after op.now result parts.old.board }
        ensures held { parts.new.held ≡ parts.old.held }
        ensures freed { parts.new.freed ≡ parts.old.freed }
        ensures seat { parts.new.seat ≡ parts.old.seat }
    {
        let member = parts.seat.member();
        self.board
            .try_unless(rt, &mut parts.board, member, op, found)
    }

    /// One try of a call that brings items: the creation of a task, or a taskwait. The operation on the
    /// board takes them, and gives them back.
    pub(crate) fn ask_with_items<R: Wait>(
        &self,
        rt: &R,
        state: &MemberState,
        parts: &mut MemberParts<L, H, F>,
        call: Call,
        found: Option<Refusal>,
    ) -> (Reply, Call)
        requires items { BringsItems call }
        requires own { found ≢ Some Mismatch }
        requires finds { FindsItself false state.now.own call parts.old.seat found }
        ensures call { result.1 ≡ call }
        ensures board { parts.new.board ≡ events_part false call result.0 parts.old.board }
        ensures held { parts.new.held ≡ parts.old.held }
        ensures freed { parts.new.freed ≡ parts.old.freed }
        ensures seat { parts.new.seat ≡ parts.old.seat }
        ensures asks { AsksSeat false (seat_ask self.now.team.icv.cancellation false call)
            parts.old.seat result.0 parts.new.seat }
        ensures answers { TeamAnswers self.now.team.icv.cancellation false state.now.own call
            parts.old.seat result.0 }
    {
        match call {
            Call::TaskCreate(desc) => {
                let op = Op::Create(desc);
                let reply = self.ask(rt, parts, &op, found);
                (reply, Call::TaskCreate(created_by(op)))
            }
            Call::Taskwait(items) => {
                let op = Op::Taskwait(items);
                let reply = self.ask(rt, parts, &op, found);
                (reply, Call::Taskwait(awaited_by(op)))
            }
            _ => unreachable!(),
        }
    }

    /// One try to go on with a taskwait, likewise.
    pub(crate) fn await_children<R: Wait>(
        &self,
        rt: &R,
        state: &MemberState,
        parts: &mut MemberParts<L, H, F>,
        call: Call,
    ) -> (Reply, Call)
        requires waits { (items : List Dep) × (call ≡ Taskwait items) }
        ensures call { result.1 ≡ call }
        ensures board { parts.new.board ≡ events_part true call result.0 parts.old.board }
        ensures held { parts.new.held ≡ parts.old.held }
        ensures freed { parts.new.freed ≡ parts.old.freed }
        ensures seat { parts.new.seat ≡ parts.old.seat }
        ensures asks { AsksSeat true (seat_ask self.now.team.icv.cancellation true call)
            parts.old.seat result.0 parts.new.seat }
        ensures answers { TeamAnswers self.now.team.icv.cancellation true state.now.own call
            parts.old.seat result.0 }
    {
        match call {
            Call::Taskwait(items) => {
                let op = Op::AwaitChildren(items);
                let reply = self.ask(rt, parts, &op, None);
                (reply, Call::Taskwait(awaited_by(op)))
            }
            _ => unreachable!(),
        }
    }
}

/// The description of the task that the operation creates.
fn created_by(op: Op) -> TaskDesc
    requires creates { (desc : TaskDesc) × (op ≡ Create desc) }
    ensures { op ≡ Create result }
{
    match op {
        Op::Create(desc) => desc,
        _ => unreachable!(),
    }
}

/// The items of the taskwait that the operation makes, or goes on with.
fn awaited_by(op: Op) -> Deps
    requires waits { AwaitsItems op }
    ensures { AwaitsThese result op }
{
    match op {
        Op::Taskwait(items) => items,
        Op::AwaitChildren(items) => items,
        _ => unreachable!(),
    }
}

//! Calls that wait: until they are answered.
//!
//! A member that waits for its board sleeps until another's reply wakes it. One that waits for a share, a
//! turn, a name or a lock looks again after a while, ever later: who frees these notifies nobody.

ghost use Rattle.std.specs.Prelude.{◌≡◌, ◌≢◌, ◌||◌, true, false, IfSome, List, Some};
ghost use Rattle.gomp_types.specs.declared.call.Call.{Call};
ghost use Rattle.gomp_types.specs.declared.call.Call.TheVariants.{Resume, Taskwait};
ghost use Rattle.gomp_types.specs.declared.depend.Dep.{Dep};
ghost use Rattle.gomp_types.specs.declared.reply.Reply.TheVariants.{Wait as Waits};
ghost use Rattle.gomp_types.specs.Resumes.{is_resume};
ghost use Rattle.gomp_ompt.specs.Table.{records_of};
ghost use Rattle.gomp_ompt.specs.Tools.{AfterEach};
ghost use Rattle.gomp_board.specs.declared.op.Op.TheVariants.{AwaitChildren};
ghost use Rattle.gomp_member.specs.Own.{own_meant, own_after};
ghost use Rattle.gomp_member.specs.Rooms.{StartsTask};
ghost use Rattle.gomp_ring.specs.RingSeats.{IsOnRing};
ghost use Rattle.gomp_seat_calls.specs.Stays.{StaysSeat};
ghost use Rattle.gomp_team.specs.Answers.{TeamAnswers};
ghost use Rattle.gomp_team.specs.Moves.{events_part, holds_part, releases_part};
ghost use Rattle.gomp_team.specs.Seats.{AsksSeat, seat_ask};
ghost use Rattle.gomp_team.specs.Members.{Called, CalledWhole, IsMoved, HasSameParts, AsksNoItems};
ghost use Rattle.gomp_team.specs.Waits.{awaited_op, GoesOnByOp};

use crate::member::{Member, awaits_items};
use crate::parts::MemberParts;
use crate::team::SharedTeam;
use crossbeam_utils::Backoff;
use gomp_board::Op;
use gomp_member::MemberState;
use gomp_ompt::{Tool, give_records};
use gomp_team_book::HoldLedger;
use gomp_types::{Call, Deps, Refusal, Reply};
use std::sync::Wait;
use std::sync::ledger::Ledger;

impl<L: Ledger, H: HoldLedger, F: Ledger, T: Tool> Member<L, H, F, T> {
    /// Makes a call, and goes on with it until it is answered another reply than to wait. That it is is not
    /// promised. In a broken team it is refused, as `Broken`, at its next try.
    pub fn call<R: Wait>(&mut self, rt: &R, call: Call) -> Reply
        ensures { CalledWhole T.on_gives call result self.old self.new }
    {
        let seen = self.team.board.notifications();
        match self.try_call(rt, call) {
            Reply::Wait => {
                self.look_out(seen);
                self.resume(rt)
            }
            reply => reply,
        }
    }

    /// Looks for a notification after the first `seen`, for a while, if the call that waits waits for the board: until one came,
    /// it would be answered to wait again.
    fn look_out(&self, seen: u64) {
        if self.state.open_call().is_some_and(waits_for_board) {
            let _ = self.team.board.has_moved(seen);
        }
    }

    /// Goes on with the call that waits, until it is answered. Refused with `NotInside` if none waits.
    ///
    /// The member takes note of the last reply alone, and its tool gets the records of that.
    pub fn resume<R: Wait>(&mut self, rt: &R) -> Reply
        ensures over { result ≢ Waits }
        ensures called { Called T.on_gives Resume result self.old self.new }
    {
        let reply = self.ask_whole(rt);
        self.take_last(&reply);
        reply
    }

    /// Takes note of the reply that ends the wait, of which the tool gets the records.
    fn take_last(&mut self, reply: &Reply)
        requires room { StartsTask reply.now → self.old.room ≡ true }
        ensures own { self.new.own ≡ own_after reply.now Resume self.old.own }
        ensures tool { AfterEach T.on_gives self.old.tool
            (records_of (own_meant self.old.own Resume) false reply.now) self.new.tool }
        ensures parts { HasSameParts self.old self.new }
    {
        match self.state.open_call() {
            Some(call) => give_records(&mut self.tool, call, false, reply),
            None => give_records(&mut self.tool, &Call::Resume, false, reply),
        }
        self.team.note_cut(reply);
        self.state.note(reply, Call::Resume);
    }

    /// Asks the call that waits until it is answered.
    fn ask_whole<R: Wait>(&mut self, rt: &R) -> Reply
        ensures over { result ≢ Waits }
        ensures room { StartsTask result → self.new.room ≡ true }
        ensures moves { IsMoved self.old.room true (own_meant self.old.own Resume)
            result self.old self.new }
    {
        if self.state.make_room().is_err() {
            return Reply::Refused(Refusal::NoMemory);
        }
        if awaits_items(&self.state) {
            return self.await_items(rt);
        }
        self.wait_open(rt)
    }

    /// Asks the call that waits until it is answered, which brings no items.
    #[tactic(auto, using(crate::proofs::Again::nothing_answered_again))]
    fn wait_open<R: Wait>(&mut self, rt: &R) -> Reply
        requires items { (call : Call) →
            self.old.own.waits.open_call ≡ Some call → AsksNoItems true call }
        ensures over { result ≢ Waits }
        ensures room { self.new.room ≡ self.old.room }
        ensures moves { IsMoved true true (own_meant self.old.own Resume) result self.old self.new }
    {
        match self.state.open_call() {
            Some(call) => self
                .team
                .answer_whole(rt, &self.state, &mut self.parts, call),
            None => self
                .team
                .look_again(rt, &self.state, &mut self.parts, &Call::Resume, false),
        }
    }

    /// Waits for the children that the member's taskwait waits for. Its items are lent to the operation.
    fn await_items<R: Wait>(&mut self, rt: &R) -> Reply
        requires waits { (items : List Dep) ×
            (self.old.own.waits.open_call ≡ Some (Taskwait items)) }
        ensures over { result ≢ Waits }
        ensures room { self.new.room ≡ self.old.room }
        ensures moves { IsMoved true true (own_meant self.old.own Resume) result self.old self.new }
    {
        let Some(Call::Taskwait(items)) = self.state.take_open() else {
            unreachable!()
        };
        let op = Op::AwaitChildren(items);
        let member = self.parts.seat.member();
        let part = &mut self.parts.board;
        let reply = self.team.board.await_op(rt, part, member, &op);
        self.state.put_open(Call::Taskwait(items_of(op)));
        reply
    }
}

impl<L: Ledger, H: HoldLedger, F: Ledger> SharedTeam<L, H, F> {
    /// The call that waits, which brings no items, until it is answered: asleep if it waits for the board.
    fn answer_whole<R: Wait>(
        &self,
        rt: &R,
        state: &MemberState,
        parts: &mut MemberParts<L, H, F>,
        call: &Call,
    ) -> Reply
        requires items { AsksNoItems true call.now }
        requires ring { IsOnRing self.now.ring parts.old.seat }
        ensures over { result ≢ Waits }
        ensures board { parts.new.board ≡ events_part true call.now result parts.old.board }
        ensures held { parts.new.held ≡ holds_part true call.now result parts.old.held }
        ensures freed { parts.new.freed ≡ releases_part true call.now result parts.old.freed }
        ensures seat { AsksSeat true (seat_ask self.now.team.icv.cancellation true call.now)
            parts.old.seat result parts.new.seat }
        ensures stays { StaysSeat parts.old.seat parts.new.seat }
        ensures answers { TeamAnswers self.now.team.icv.cancellation true state.now.own call.now
            parts.old.seat result }
    {
        match awaited_op(call) {
            Some(op) => {
                let member = parts.seat.member();
                self.board.await_op(rt, &mut parts.board, member, &op)
            }
            None => self.look_again(rt, state, parts, call, true),
        }
    }

    /// Tries a call that waits, or a resume that has nothing to repeat, until it is answered.
    #[tactic(auto, using(crate::proofs::Again::waits_move_no_events, crate::proofs::Again::waits_move_no_holds, crate::proofs::Again::waits_move_no_releases))]
    fn look_again<R: Wait>(
        &self,
        rt: &R,
        state: &MemberState,
        parts: &mut MemberParts<L, H, F>,
        call: &Call,
        repeated: bool,
    ) -> Reply
        requires items { AsksNoItems repeated call.now }
        requires again { (repeated || is_resume call.now) ≡ true }
        requires ring { IsOnRing self.now.ring parts.old.seat }
        ensures over { result ≢ Waits }
        ensures board { parts.new.board ≡ events_part repeated call.now result parts.old.board }
        ensures held { parts.new.held ≡ holds_part repeated call.now result parts.old.held }
        ensures freed { parts.new.freed ≡ releases_part repeated call.now result parts.old.freed }
        ensures seat { AsksSeat true (seat_ask self.now.team.icv.cancellation repeated call.now)
            parts.old.seat result parts.new.seat }
        ensures stays { StaysSeat parts.old.seat parts.new.seat }
        ensures answers { TeamAnswers self.now.team.icv.cancellation repeated state.now.own call.now
            parts.old.seat result }
    {
        let backoff = Backoff::new();
        for _ in rt.forever() {
            match self.answer(rt, state, parts, call, repeated) {
                Reply::Wait => backoff.snooze(),
                reply => return reply,
            }
        }
        unreachable!()
    }
}

/// The operation on the board by which a member goes on with a call that brings no items, if it waits for
/// the board.
fn awaited_op(call: &Call) -> Option<Op>
    requires items { AsksNoItems true call.now }
    ensures op { result ≡ awaited_op call.now }
    ensures goes_on { IfSome result (λ op. GoesOnByOp op call.now) }
{
    match call {
        Call::TaskCreate(_) => Some(Op::AwaitOwn),
        Call::GroupEnd => Some(Op::AwaitGroup),
        Call::Barrier | Call::RegionEnd => Some(Op::AwaitBarrier),
        Call::LoopEnd | Call::LoopEndCancel => Some(Op::AwaitBarrier),
        Call::SectionsEnd | Call::SectionsEndCancel => Some(Op::AwaitBarrier),
        _ => None,
    }
}

/// Whether a call that waits waits for the board.
fn waits_for_board(call: &Call) -> bool {
    matches!(
        call,
        Call::Barrier
            | Call::RegionEnd
            | Call::LoopEnd
            | Call::LoopEndCancel
            | Call::SectionsEnd
            | Call::SectionsEndCancel
            | Call::TaskCreate(_)
            | Call::Taskwait(_)
            | Call::GroupEnd
    )
}

/// The items that the operation waits by.
fn items_of(op: Op) -> Deps
    requires waits { (items : List Dep) × (op ≡ AwaitChildren items) }
    ensures { op ≡ AwaitChildren result }
{
    match op {
        Op::AwaitChildren(items) => items,
        _ => unreachable!(),
    }
}

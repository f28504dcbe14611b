//! A member of a team, as its thread owns it.

ghost use Rattle.std.specs.Prelude.{IfOk, IfErr, ◌≡◌, true, false, List, Some};
ghost use Rattle.gomp_types.specs.declared.call.Call.TheVariants.{Resume, TaskCreate, Taskwait};
ghost use Rattle.gomp_types.specs.declared.depend.Dep.{Dep};
ghost use Rattle.gomp_types.specs.Resumes.{is_resume};
ghost use Rattle.gomp_ompt.specs.Table.{records_of};
ghost use Rattle.gomp_ompt.specs.Tools.{AfterEach};
ghost use Rattle.gomp_member.specs.Own.{new_member, own_meant, own_after};
ghost use Rattle.gomp_member.specs.Rooms.{StartsTask};
ghost use Rattle.gomp_ring.specs.RingSeats.{IsOnRing};
ghost use Rattle.gomp_types.specs.declared.call.Call.{Call};
ghost use Rattle.gomp_team.specs.Members.{AsksNoItems, Called, IsMoved, HasSameParts};

use crate::parts::MemberParts;
use crate::team::SharedTeam;
use gomp_icv::Icv;
use gomp_member::MemberState;
use gomp_ompt::{Tool, give_records};
use gomp_team_book::HoldLedger;
use gomp_types::{Call, Deps, Refusal, Reply, TaskDesc};
use std::alloc::Global;
use std::marker::Model;
use std::sync::ledger::Ledger;
use std::sync::{Arc, Wait};

/// A member of a team: what its thread calls. It has its parts of the ledgers, its seat on the ring of the work-shares, and its tool,
/// which gets the records of each call.
#[derive(Drop)]
pub struct Member<L: Ledger, H: HoldLedger, F: Ledger, T: Tool> {
    /// What it shares with the other members.
    pub(crate) team: Arc<SharedTeam<L, H, F>, Global>,
    /// What it knows of itself.
    pub(crate) state: MemberState,
    /// Its parts of the ledgers, and its seat.
    pub(crate) parts: MemberParts<L, H, F>,
    /// What takes its records.
    pub(crate) tool: T,
}

impl<L: Ledger, H: HoldLedger, F: Ledger, T: Tool> Model for Member<L, H, F, T> {
    ghost use Rattle.std.specs.Prelude.{◌≡◌};
    ghost use Rattle.gomp_ring.specs.RingSeats.{IsOnRing};
    ghost use Rattle.gomp_team.specs.Members.{MemberView};

    ghost Value = { MemberView T };

    ghost view = { λ m. record {
      icv = m.team.value.team.icv;
      own = m.state.own;
      room = m.state.room;
      events = m.parts.board;
      held = m.parts.held;
      freed = m.parts.freed;
      ring = m.team.value.ring;
      seat = m.parts.seat;
      tool = m.tool;
    } };

    ghost invariant = { λ m. IsOnRing m.team.value.ring m.parts.seat × (m.state.own.number ≡ m.parts.seat.member) };
}

impl<L: Ledger, H: HoldLedger, F: Ledger, T: Tool> Member<L, H, F, T> {
    /// The member of the team whose seat is among these parts, of which nothing was asked, with this tool. Its number, from 0, is that
    /// of the seat. If its memory is refused, the parts and the tool come back.
    pub fn new(
        alloc: Global,
        team: Arc<SharedTeam<L, H, F>, Global>,
        parts: MemberParts<L, H, F>,
        tool: T,
    ) -> Result<Member<L, H, F, T>, (MemberParts<L, H, F>, T)>
        requires ring { IsOnRing team.value.ring parts.seat }
        ensures own { IfOk result (λ made.
            made.own ≡ new_member team.value.team.number parts.seat.member) }
        ensures icv { IfOk result (λ made. made.icv ≡ team.value.team.icv) }
        ensures events { IfOk result (λ made. made.events ≡ parts.board) }
        ensures held { IfOk result (λ made. made.held ≡ parts.held) }
        ensures freed { IfOk result (λ made. made.freed ≡ parts.freed) }
        ensures ring { IfOk result (λ made. made.ring ≡ team.value.ring) }
        ensures seat { IfOk result (λ made. made.seat ≡ parts.seat) }
        ensures tool { IfOk result (λ made. made.tool ≡ tool) }
        ensures back { IfErr result (λ back. (back.0 ≡ parts) × (back.1 ≡ tool)) }
    {
        match MemberState::new(alloc, team.number, parts.seat.member()) {
            Ok(state) => Ok(Member {
                team,
                state,
                parts,
                tool,
            }),
            Err(_) => Err((parts, tool)),
        }
    }

    /// Lets the member go: its parts of the ledgers and its seat, and its tool.
    pub fn into_parts(self) -> (MemberParts<L, H, F>, T)
        ensures events { result.0.board ≡ self.events }
        ensures held { result.0.held ≡ self.held }
        ensures freed { result.0.freed ≡ self.freed }
        ensures seat { result.0.seat ≡ self.seat }
        ensures tool { result.1 ≡ self.tool }
    {
        let Member { parts, tool, .. } = self;
        (parts, tool)
    }

    /// The member with this tool in place of its own, and that one. So its tool can be lent while it forks
    /// a nested region.
    pub fn swap_tool<U: Tool>(self, tool: U) -> (Member<L, H, F, U>, T)
        ensures own { result.0.own ≡ self.own }
        ensures room { result.0.room ≡ self.room }
        ensures icv { result.0.icv ≡ self.icv }
        ensures events { result.0.events ≡ self.events }
        ensures held { result.0.held ≡ self.held }
        ensures freed { result.0.freed ≡ self.freed }
        ensures ring { result.0.ring ≡ self.ring }
        ensures seat { result.0.seat ≡ self.seat }
        ensures tool { result.0.tool ≡ tool }
        ensures lent { result.1 ≡ self.tool }
    {
        let Member {
            team,
            state,
            parts,
            tool: lent,
        } = self;
        let member = Member {
            team,
            state,
            parts,
            tool,
        };
        (member, lent)
    }
}

impl<L: Ledger, H: HoldLedger, F: Ledger, T: Tool> Member<L, H, F, T> {
    /// The control variables of its region.
    pub fn icv(&self) -> &Icv
        ensures { result.now ≡ self.now.icv }
    {
        &self.team.icv
    }

    /// One try of a call of the member: if it would wait, the answer is `Wait`, and
    /// [`try_resume`](Member::try_resume) asks again. A loop whose schedule is left to the control
    /// variables counts as dynamic: [`try_loop_start`](Member::try_loop_start) gives it theirs.
    ///
    /// Of the refusals whose tests hold the one with the least number answers (docs/FORMATS.md). The
    /// member's parts move by what the call and its reply give, and its tool gets their records.
    #[tactic(auto, using(crate::proofs::Meant::call_means_itself))]
    pub fn try_call<R: Wait>(&mut self, rt: &R, call: Call) -> Reply
        ensures called { Called T.on_gives call result self.old self.new }
    {
        if call.is_resume() {
            return self.try_resume(rt);
        }
        let (reply, call) = self.ask(rt, call);
        self.take_reply(&reply, call);
        reply
    }

    /// One try to go on with the call that waits. Refused with `NotInside` if none does.
    pub fn try_resume<R: Wait>(&mut self, rt: &R) -> Reply
        ensures called { Called T.on_gives Resume result self.old self.new }
    {
        let reply = self.ask_again(rt);
        match self.state.open_call() {
            Some(call) => give_records(&mut self.tool, call, false, &reply),
            None => give_records(&mut self.tool, &Call::Resume, false, &reply),
        }
        self.team.note_cut(&reply);
        self.state.note(&reply, Call::Resume);
        reply
    }

    /// Takes note of the reply to a call that is no resume, of which the tool gets the records.
    #[tactic(auto, using(crate::proofs::Meant::call_means_itself))]
    #[inline(always)]
    pub(crate) fn take_reply(&mut self, reply: &Reply, call: Call)
        requires first { is_resume call ≡ false }
        requires room { StartsTask reply.now → self.old.room ≡ true }
        ensures own { self.new.own ≡ own_after reply.now call self.old.own }
        ensures tool { AfterEach T.on_gives self.old.tool
            (records_of (own_meant self.old.own call) true reply.now) self.new.tool }
        ensures parts { HasSameParts self.old self.new }
    {
        give_records(&mut self.tool, &call, true, reply);
        self.team.note_cut(reply);
        self.state.note(reply, call);
    }

    /// Asks a call that is no resume, and hands it back.
    fn ask<R: Wait>(&mut self, rt: &R, call: Call) -> (Reply, Call)
        requires first { is_resume call ≡ false }
        ensures call { result.1 ≡ call }
        ensures room { StartsTask result.0 → self.new.room ≡ true }
        ensures moves { IsMoved self.old.room false call result.0 self.old self.new }
    {
        if self.state.make_room().is_err() {
            return (Reply::Refused(Refusal::NoMemory), call);
        }
        match call {
            Call::TaskCreate(desc) => self.ask_creation(rt, desc),
            Call::Taskwait(items) => self.ask_taskwait(rt, items),
            call => {
                let reply = self
                    .team
                    .answer(rt, &self.state, &mut self.parts, &call, false);
                (reply, call)
            }
        }
    }

    /// Asks the creation of a task.
    fn ask_creation<R: Wait>(&mut self, rt: &R, desc: TaskDesc) -> (Reply, Call)
        ensures call { result.1 ≡ TaskCreate desc }
        ensures room { self.new.room ≡ self.old.room }
        ensures moves { IsMoved true false (TaskCreate desc) result.0 self.old self.new }
    {
        let call = Call::TaskCreate(desc);
        let seat = &mut self.parts.seat;
        let found = self
            .team
            .itself_refusal(rt, &self.state, seat, &call, false);
        self.team
            .ask_with_items(rt, &self.state, &mut self.parts, call, found)
    }

    /// Asks a taskwait.
    fn ask_taskwait<R: Wait>(&mut self, rt: &R, items: Deps) -> (Reply, Call)
        ensures call { result.1 ≡ Taskwait items }
        ensures room { self.new.room ≡ self.old.room }
        ensures moves { IsMoved true false (Taskwait items) result.0 self.old self.new }
    {
        let call = Call::Taskwait(items);
        let seat = &mut self.parts.seat;
        let found = self
            .team
            .itself_refusal(rt, &self.state, seat, &call, false);
        self.team
            .ask_with_items(rt, &self.state, &mut self.parts, call, found)
    }

    /// Asks the call that waits once more.
    fn ask_again<R: Wait>(&mut self, rt: &R) -> Reply
        ensures room { StartsTask result → self.new.room ≡ true }
        ensures moves { IsMoved self.old.room true (own_meant self.old.own Resume)
            result self.old self.new }
    {
        if self.state.make_room().is_err() {
            return Reply::Refused(Refusal::NoMemory);
        }
        if awaits_items(&self.state) {
            return self.await_children(rt);
        }
        self.ask_open(rt)
    }

    /// Asks the call that waits once more, which brings no items.
    #[tactic(auto, using(crate::proofs::SeatMoves::seat_asked_nothing_again, crate::proofs::Again::nothing_answered_again))]
    fn ask_open<R: Wait>(&mut self, rt: &R) -> Reply
        requires items { (call : Call) →
            self.old.own.waits.open_call ≡ Some call → AsksNoItems true call }
        ensures room { self.new.room ≡ self.old.room }
        ensures moves { IsMoved true true (own_meant self.old.own Resume) result self.old self.new }
    {
        match self.state.open_call() {
            Some(call) => self
                .team
                .answer(rt, &self.state, &mut self.parts, call, true),
            None => self
                .team
                .answer(rt, &self.state, &mut self.parts, &Call::Resume, false),
        }
    }

    /// Asks once more for the children that the member's taskwait waits for. Its items are lent to the
    /// operation.
    fn await_children<R: Wait>(&mut self, rt: &R) -> Reply
        requires waits { (items : List Dep) ×
            (self.old.own.waits.open_call ≡ Some (Taskwait items)) }
        ensures room { self.new.room ≡ self.old.room }
        ensures moves { IsMoved true true (own_meant self.old.own Resume) result self.old self.new }
    {
        let Some(call) = self.state.take_open() else {
            unreachable!()
        };
        let (reply, call) = self
            .team
            .await_children(rt, &self.state, &mut self.parts, call);
        self.state.put_open(call);
        reply
    }
}

/// Whether the call that waits is a taskwait, which brings items.
pub(crate) fn awaits_items(state: &MemberState) -> bool
    ensures waits { result ≡ true →
        (items : List Dep) × (state.now.own.waits.open_call ≡ Some (Taskwait items)) }
    ensures none { result ≡ false → (call : Call) →
        state.now.own.waits.open_call ≡ Some call → AsksNoItems true call }
{
    matches!(state.open_call(), Some(Call::Taskwait(_)))
}

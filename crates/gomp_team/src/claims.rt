//! The calls on the share that a member is in which take no lock, wait for nobody and take no memory: its seat alone is asked.
//!
//! They ask neither the board nor the book. So in a team that broke they may still be answered, until the member's next call that
//! takes a lock, and whoever holds a critical name is not refused for that. OpenMP API 5.2, sections 11.3, 11.5, 16.1 and 16.2; libgomp's
//! `GOMP_loop_dynamic_next`, `GOMP_sections_next` and their like.

ghost use Rattle.std.specs.Prelude.{◌≡◌, ◌≢◌, ◌<◌, false, true, Some};
ghost use Rattle.gomp_types.specs.declared.call.Call.TheVariants as calls;
ghost use Rattle.gomp_types.specs.declared.call.Server.TheVariants.{Shares as OfShares};
ghost use Rattle.gomp_types.specs.Servers.{served_by};
ghost use Rattle.gomp_types.specs.declared.reply.Reply.TheVariants.{Cancelled, Wait as Waits};
ghost use Rattle.gomp_events.specs.Ordered.{is_ordered};
ghost use Rattle.gomp_member.specs.Own.{names_share};
ghost use Rattle.gomp_team.specs.Answers.{AnswersOwnInside, TeamAnswers};
ghost use Rattle.gomp_member.specs.Rooms.{StartsTask};
ghost use Rattle.gomp_team_shares.specs.declared.inside.InsideCall.{InsideCall};
ghost use Rattle.gomp_ring.specs.RingSeats.{IsOnRing};
ghost use Rattle.gomp_seat_calls.specs.Stays.{StaysSeat};
ghost use Rattle.gomp_team.specs.Seats.{MovesBy, IsInsideReply, inside_of, seat_ask, waits_for_turns};
ghost use Rattle.gomp_team.specs.Seats.SeatAsk.{Inside};
ghost use Rattle.gomp_ompt.specs.Table.{records_of};
ghost use Rattle.gomp_ompt.specs.Tools.{AfterEach};
ghost use Rattle.gomp_seat_calls.specs.Chunks.{NoneIsZero, reply_of_chunk};
ghost use Rattle.gomp_team.specs.Members.{AsksItsShare, Called, HasSameParts, may_claim_alone};

use crate::member::Member;
use crate::ops::inside_call;
use crate::shares::answer_inside;
use crate::team::SharedTeam;
use gomp_member::MemberState;
use gomp_ompt::{Tool, give_records};
use gomp_ring::RingSeat;
use gomp_seat_calls::{Chunk, claim_chunk, may_claim_chunk};
use gomp_team_book::HoldLedger;
use gomp_team_calls::lesser;
use gomp_team_shares::InsideCall;
use gomp_types::{Call, CancelKind, Reply};
use std::sync::ledger::Ledger;

impl<L: Ledger, H: HoldLedger, F: Ledger, T: Tool> Member<L, H, F, T> {
    /// The next chunk of the member's loop, as [`try_call`](Member::try_call) with `LoopNext`. One addition to an atomic word, or one
    /// load if the loop is static.
    ///
    /// `Wait` only if the loop is ordered: some iteration before the member's has not been handed on.
    pub fn claim_next(&mut self) -> Reply
        ensures called { Called T.on_gives calls.LoopNext result self.old self.new }
        ensures turns { result ≡ Waits → is_ordered self.old.seat.seen.current ≡ true }
        ensures uncut { result ≢ Cancelled }
    {
        if self.may_claim_chunk() {
            return self.claim_chunk().into_reply();
        }
        // It tests all again, to find what refuses the member, or whether its loop is ordered.
        self.ask_next_chunk()
    }

    /// Whether the member may claim by [`claim_chunk`](Member::claim_chunk): it is in a loop that is not ordered, was not answered that
    /// nothing is left, and nothing that it keeps refuses it a call on its share. It stays so from chunk to chunk.
    #[inline(always)]
    pub fn may_claim_chunk(&self) -> bool
        ensures { result ≡ may_claim_alone self.now }
    {
        self.state.is_free() && may_claim_chunk(&self.parts.seat)
    }

    /// As [`claim_next`](Member::claim_next), of a member that may claim so: it makes no test, and its answer lies in two registers.
    /// `Chunk::NONE` if nothing is left for the member.
    #[inline(always)]
    pub fn claim_chunk(&mut self) -> Chunk
        requires alone { may_claim_alone self.old ≡ true }
        ensures called { Called T.on_gives calls.LoopNext
            (reply_of_chunk result.first result.count) self.old self.new }
        ensures zero { NoneIsZero result.first result.count }
        ensures again { 0 < result.count → may_claim_alone self.new ≡ true }
    {
        let seat = &mut self.parts.seat;
        let chunk = claim_chunk(&self.team.ring, seat);
        self.tell_records(&Call::LoopNext, &chunk.into_reply());
        chunk
    }

    /// The same of a member that something of its own may refuse it, or whose loop is ordered. Its own frame has the room that a reply
    /// wants.
    #[inline(never)]
    fn ask_next_chunk(&mut self) -> Reply
        ensures called { Called T.on_gives calls.LoopNext result self.old self.new }
        ensures turns { result ≡ Waits → is_ordered self.old.seat.seen.current ≡ true }
        ensures uncut { result ≢ Cancelled }
    {
        self.ask_seat(Call::LoopNext)
    }

    /// The member's tool gets the records of the reply to a call, and nothing else moves.
    #[inline(always)]
    pub(crate) fn tell_records(&mut self, call: &Call, reply: &Reply)
        ensures own { self.new.own ≡ self.old.own }
        ensures tool { AfterEach T.on_gives self.old.tool
            (records_of call.now true reply.now) self.new.tool }
        ensures parts { HasSameParts self.old self.new }
    {
        give_records(&mut self.tool, call, true, reply);
    }

    /// The next section, as [`try_call`](Member::try_call) with `SectionsNext`.
    pub fn sections_next(&mut self) -> Reply
        ensures called { Called T.on_gives calls.SectionsNext result self.old self.new }
        ensures answered { result ≢ Waits }
        ensures uncut { result ≢ Cancelled }
    {
        self.ask_seat(Call::SectionsNext)
    }

    /// The end of the member's loop, which has no barrier.
    pub fn loop_end_nowait(&mut self) -> Reply
        ensures called { Called T.on_gives calls.LoopEndNowait result self.old self.new }
        ensures answered { result ≢ Waits }
        ensures uncut { result ≢ Cancelled }
    {
        self.ask_seat(Call::LoopEndNowait)
    }

    /// The end of the member's sections, which have no barrier.
    pub fn sections_end_nowait(&mut self) -> Reply
        ensures called { Called T.on_gives calls.SectionsEndNowait result self.old self.new }
        ensures answered { result ≢ Waits }
        ensures uncut { result ≢ Cancelled }
    {
        self.ask_seat(Call::SectionsEndNowait)
    }

    /// A `cancel` construct with a true clause that names the member's loop or sections.
    pub fn cancel_share(&mut self, kind: CancelKind) -> Reply
        requires share { names_share (Some kind) ≡ true }
        ensures called { Called T.on_gives (calls.Cancel kind true) result self.old self.new }
        ensures answered { result ≢ Waits }
        ensures uncut { result ≢ Cancelled }
    {
        self.ask_seat(Call::Cancel { kind, clause: true })
    }

    /// A cancellation point that names the member's loop or sections.
    pub fn point_share(&mut self, kind: CancelKind) -> Reply
        requires share { names_share (Some kind) ≡ true }
        ensures called { Called T.on_gives (calls.Point kind) result self.old self.new }
        ensures answered { result ≢ Waits }
        ensures uncut { result ≢ Cancelled }
    {
        self.ask_seat(Call::Point(kind))
    }

    /// Asks the member's seat a call on its share, and takes note of the reply, of which the tool gets the records.
    #[inline(always)]
    fn ask_seat(&mut self, call: Call) -> Reply
        requires asks { AsksItsShare call }
        ensures called { Called T.on_gives call result self.old self.new }
        ensures turns { (inside : InsideCall) →
            inside_of self.old.icv.cancellation call ≡ Some inside →
            result ≡ Waits → waits_for_turns inside self.old.seat.seen ≡ true }
        ensures uncut { result ≢ Cancelled }
    {
        let seat = &mut self.parts.seat;
        let reply = self.team.answer_by_seat(&self.state, seat, &call);
        self.take_reply(&reply, call);
        reply
    }
}

impl<L: Ledger, H: HoldLedger, F: Ledger> SharedTeam<L, H, F> {
    /// A call on the share that the member is in, by its seat: refused by what the member knows of itself, or by its seat, by the
    /// lesser number.
    #[inline(always)]
    fn answer_by_seat(&self, state: &MemberState, seat: &mut RingSeat, call: &Call) -> Reply
        requires asks { AsksItsShare call.now }
        requires ring { IsOnRing self.now.ring seat.old }
        ensures seat { MovesBy (seat_ask self.now.team.icv.cancellation false call.now)
            seat.old result seat.new }
        ensures stays { StaysSeat seat.old seat.new }
        ensures starts { StartsTask result → ⊥ }
        ensures answer { (inside : InsideCall) →
            inside_of self.now.team.icv.cancellation call.now ≡ Some inside →
            IsInsideReply inside false seat.old.seen result }
        ensures answers { TeamAnswers self.now.team.icv.cancellation false state.now.own call.now
            seat.old result }
        ensures uncut { result ≢ Cancelled }
    {
        match inside_call(call, self.icv.cancellation()) {
            Some(inside) if state.is_free() => {
                answer_inside(&self.ring, seat, &inside, false, None)
            }
            // What the member keeps is tested again, to find which test refuses the call, if one does.
            Some(inside) => self.answer_unless(state, seat, call, &inside),
            None => unreachable!(),
        }
    }

    /// The same of a member that what it knows of itself may refuse the call. Its own frame has the room that refusals want.
    #[inline(never)]
    fn answer_unless(
        &self,
        state: &MemberState,
        seat: &mut RingSeat,
        call: &Call,
        inside: &InsideCall,
    ) -> Reply
        requires served { served_by call.now ≡ OfShares }
        requires ring { IsOnRing self.now.ring seat.old }
        ensures seat { MovesBy (Inside inside.now) seat.old result seat.new }
        ensures answer { IsInsideReply inside.now false seat.old.seen result }
        ensures inside { AnswersOwnInside state.now.own call.now inside.now seat.old result }
        ensures stays { StaysSeat seat.old seat.new }
    {
        let own = self.member_refusal(state, seat, call);
        let found = lesser(own, state.task_refusal(call));
        answer_inside(&self.ring, seat, inside, false, found)
    }
}

//! The calls on work-shares: by the member's own seat on the ring, with no lock, and with the board, under its lock: starts, next
//! pieces, ends, arrivals, and the words of a `single`.
//!
//! OpenMP API 5.2, chapter 11, sections 5.7.2, 10.1, 15.3 and 15.10.2.

ghost use Rattle.std.specs.Prelude.{◌≡◌, ◌≢◌, ◌&&◌, true, false, [], IfSome, IsSome, Option, Some, None};
ghost use Rattle.gomp_types.specs.declared.call.Server.TheVariants.{Shares as OfShares, Team as Together};
ghost use Rattle.gomp_types.specs.Servers.{served_by};
ghost use Rattle.gomp_types.specs.declared.refusal.Refusal.TheVariants.{Mismatch};
ghost use Rattle.gomp_team_board.specs.Parts.{part_after};
ghost use Rattle.gomp_events.specs.declared.event.Arrival.TheVariants.{ShareEnd as AtShareEnd};
ghost use Rattle.gomp_board.specs.declared.op.Op.TheVariants.{Put};
ghost use Rattle.gomp_events.specs.Events.{share_number};
ghost use Rattle.gomp_events.specs.Tags.{tag_with};
ghost use Rattle.gomp_dispatch.specs.Serves.{arrival_op};
ghost use Rattle.gomp_team_calls.specs.Starts.{start_part, start_room};
ghost use Rattle.gomp_ring.specs.RingSeats.{IsOnRing};
ghost use Rattle.gomp_seat_calls.specs.Stays.{StaysSeat};
ghost use Rattle.gomp_seat_calls.specs.Starts.{awaits_payload};
ghost use Rattle.gomp_team_board.specs.Locked.{IsAnsweredUnless};
ghost use Rattle.gomp_shares.specs.Singles.{put_tests};
ghost use Rattle.gomp_types.specs.Least.{least, lesser};
ghost use Rattle.gomp_types.specs.declared.refusal.Refusal.{Refusal};
ghost use Rattle.gomp_team.specs.Answers.{AnswersInside, ArrivalAnswers, EndAnswers, IsNoneOrBroken, IsRefusal, StartsOnBoard, TeamAnswers};
ghost use Rattle.gomp_team.specs.Moves.{events_part, holds_part, releases_part};
ghost use Rattle.gomp_team.specs.Seats.{MovesBy, IsInsideReply, is_given, seat_ask, ask_of_end};
ghost use Rattle.gomp_team.specs.Seats.SeatAsk.{Starts, Inside, Puts};

use crate::ops::{inside_call, share_end, share_start};
use crate::parts::MemberParts;
use crate::team::SharedTeam;
use gomp_board::Op;
use gomp_events::Arrival;
use gomp_member::MemberState;
use gomp_ring::{Ring, RingSeat};
use gomp_seat_calls::{awaits_payload, single_alone, start_loop_alone, start_sections_alone};
use gomp_seat_team::{arrive, call_inside, end_share, go_on_waiting, put_words, start_share};
use gomp_team_board::LockedBoard;
use gomp_team_book::HoldLedger;
use gomp_team_calls::{BoardReply, ShareEnd, lesser};
use gomp_team_shares::{InsideCall, ShareStart};
use gomp_types::{Call, EndKind, Payload, Refusal, Reply};
use std::sync::Wait;
use std::sync::ledger::Ledger;

impl<L: Ledger, H: HoldLedger, F: Ledger> SharedTeam<L, H, F> {
    /// One try of a call that the shares answer, once the board keeps its room.
    pub(crate) fn answer_by_shares<R: Wait>(
        &self,
        rt: &R,
        state: &MemberState,
        parts: &mut MemberParts<L, H, F>,
        call: &Call,
        repeated: bool,
    ) -> Reply
        requires served { served_by call.now ≡ OfShares }
        requires ring { IsOnRing self.now.ring parts.old.seat }
        ensures board { parts.new.board ≡ events_part repeated call.now result parts.old.board }
        ensures held { parts.new.held ≡ holds_part repeated call.now result parts.old.held }
        ensures freed { parts.new.freed ≡ releases_part repeated call.now result parts.old.freed }
        ensures seat { MovesBy (seat_ask self.now.team.icv.cancellation repeated call.now)
            parts.old.seat result parts.new.seat }
        ensures stays { StaysSeat parts.old.seat parts.new.seat }
        ensures answers { TeamAnswers self.now.team.icv.cancellation repeated state.now.own call.now
            parts.old.seat result }
    {
        let own = self.itself_refusal(rt, state, &mut parts.seat, call, repeated);
        let found = lesser(own, state.task_refusal(call));
        match share_start(call) {
            Some(start) => {
                let seat = &mut parts.seat;
                let refused = found.is_some();
                if let Some(reply) = self.start_by_seat(seat, &start, repeated, refused) {
                    return reply;
                }
                self.start(rt, parts, &start, repeated, found)
            }
            None => match inside_call(call, self.icv.cancellation()) {
                Some(inside) => self.call_inside(rt, &mut parts.seat, &inside, found),
                None => unreachable!(),
            },
        }
    }

    /// One try of a call that brings board and shares together.
    pub(crate) fn answer_together<R: Wait>(
        &self,
        rt: &R,
        state: &MemberState,
        parts: &mut MemberParts<L, H, F>,
        call: &Call,
        repeated: bool,
    ) -> Reply
        requires served { served_by call.now ≡ Together }
        requires ring { IsOnRing self.now.ring parts.old.seat }
        ensures stays { StaysSeat parts.old.seat parts.new.seat }
        ensures board { parts.new.board ≡ events_part repeated call.now result parts.old.board }
        ensures held { parts.new.held ≡ holds_part repeated call.now result parts.old.held }
        ensures freed { parts.new.freed ≡ releases_part repeated call.now result parts.old.freed }
        ensures seat { MovesBy (seat_ask self.now.team.icv.cancellation repeated call.now)
            parts.old.seat result parts.new.seat }
        ensures answers { TeamAnswers self.now.team.icv.cancellation repeated state.now.own call.now
            parts.old.seat result }
    {
        let found = self.itself_refusal(rt, state, &mut parts.seat, call, repeated);
        match call {
            Call::SingleCopyStart => {
                self.start(rt, parts, &ShareStart::SingleCopy, repeated, found)
            }
            Call::SingleCopyEnd(words) => self.put(rt, parts, words, found),
            Call::Resume => match lesser(found, self.any_call_refusal(rt)) {
                Some(refusal) => Reply::Refused(refusal),
                None => Reply::Refused(Refusal::NotInside),
            },
            Call::Barrier => self.arrive(rt, state, parts, Arrival::Barrier, repeated, found),
            Call::RegionEnd => self.arrive(rt, state, parts, Arrival::RegionEnd, repeated, found),
            Call::LoopEnd | Call::LoopEndCancel | Call::SectionsEnd | Call::SectionsEndCancel =>
                match share_end(call) {
                    Some(end) => self.end(rt, state, parts, end, repeated, found),
                    None => unreachable!(),
                },
            _ => unreachable!(),
        }
    }

    /// The start of a construct for which the board keeps no room, by the seat, with no lock. None, and nothing changes, if the caller
    /// has found a refusal (`refused`), if the team may be cut short, or if the seat would refuse it or have the member wait: then the
    /// board is asked too.
    fn start_by_seat(
        &self,
        seat: &mut RingSeat,
        start: &ShareStart,
        repeated: bool,
        refused: bool,
    ) -> Option<Reply>
        requires ring { IsOnRing self.now.ring seat.old }
        ensures seat { IfSome result (λ reply.
            MovesBy (Starts repeated start.now) seat.old reply seat.new) }
        ensures parts { IfSome result (λ reply. is_given reply ≡ true) }
        ensures free { IfSome result (λ reply. refused ≡ false) }
        ensures made { IfSome result (λ reply. repeated ≡ false) }
        ensures room { IfSome result (λ reply. start_room start.now ≡ 0) }
        ensures none { result ≡ None → seat.new ≡ seat.old }
        ensures stays { StaysSeat seat.old seat.new }
    {
        if repeated || refused || self.may_be_cut() {
            return None;
        }
        match start {
            ShareStart::Loop(desc) if matches!(desc.end_kind, EndKind::Nowait) =>
                match start_loop_alone(&self.ring, seat, desc, &self.limits) {
                    Some(chunk) => Some(chunk.into_reply()),
                    None => None,
                },
            ShareStart::Sections { count, end_kind } if matches!(end_kind, EndKind::Nowait) =>
                match start_sections_alone(&self.ring, seat, *count, *end_kind, &self.limits) {
                    Some(number) => Some(Reply::Section(number)),
                    None => None,
                },
            ShareStart::Single => match single_alone(&self.ring, seat, &self.limits) {
                Some(executes) => Some(Reply::Executor(executes)),
                None => None,
            },
            _ => None,
        }
    }

    /// The start of a construct, under the board's lock.
    fn start<R: Wait>(
        &self,
        rt: &R,
        parts: &mut MemberParts<L, H, F>,
        start: &ShareStart,
        repeated: bool,
        found: Option<Refusal>,
    ) -> Reply
        requires own { found ≢ Some Mismatch }
        requires ring { IsOnRing self.now.ring parts.old.seat }
        ensures board { parts.new.board ≡ start_part result parts.old.board }
        ensures held { parts.new.held ≡ parts.old.held }
        ensures freed { parts.new.freed ≡ parts.old.freed }
        ensures seat { MovesBy (Starts repeated start.now) parts.old.seat result parts.new.seat }
        ensures stays { StaysSeat parts.old.seat parts.new.seat }
        ensures refuses { IsSome found → IsRefusal result }
        ensures starts { StartsOnBoard start.now repeated found parts.old.seat result }
    {
        let mut board = self.board.lock(rt);
        let asked = self.start_or_go_on(&mut board, parts, start, repeated, found);
        drop(board);
        self.tell(asked)
    }

    /// The same under the lock. A member that waits in a `single` for its words goes on with these.
    fn start_or_go_on(
        &self,
        board: &mut LockedBoard<L>,
        parts: &mut MemberParts<L, H, F>,
        start: &ShareStart,
        repeated: bool,
        found: Option<Refusal>,
    ) -> BoardReply
        requires own { found ≢ Some Mismatch }
        requires ring { IsOnRing self.now.ring parts.old.seat }
        ensures board { parts.new.board ≡ start_part result.reply parts.old.board }
        ensures held { parts.new.held ≡ parts.old.held }
        ensures freed { parts.new.freed ≡ parts.old.freed }
        ensures seat { MovesBy (Starts repeated start.now)
            parts.old.seat result.reply parts.new.seat }
        ensures stays { StaysSeat parts.old.seat parts.new.seat }
        ensures refuses { IsSome found → IsRefusal result.reply }
        ensures starts { StartsOnBoard start.now repeated found parts.old.seat result.reply }
    {
        let _ = board.history(); // the board stands for it
        let ring = &self.ring;
        let seat = &mut parts.seat;
        let part = &mut parts.board;
        if waits_for_words(seat, repeated) {
            return go_on_waiting(board, ring, seat, part, found);
        }
        let limits = &self.limits;
        start_share(board, ring, seat, part, start, repeated, limits, found)
    }

    /// A call on the share that the member is in. Whether the team is broken, and its region cancelled, is asked first, and the board
    /// let go; the seat answers with no lock.
    fn call_inside<R: Wait>(
        &self,
        rt: &R,
        seat: &mut RingSeat,
        call: &InsideCall,
        found: Option<Refusal>,
    ) -> Reply
        requires ring { IsOnRing self.now.ring seat.old }
        ensures seat { MovesBy (Inside call.now) seat.old result seat.new }
        ensures stays { StaysSeat seat.old seat.new }
        ensures inside { (team : Option Refusal) × IsNoneOrBroken team ×
            AnswersInside (lesser found team) call.now seat.old result }
    {
        let (refusal, cancelled) = self.board_says(rt);
        answer_inside(&self.ring, seat, call, cancelled, lesser(found, refusal))
    }

    /// The end of a share with a barrier, under the board's lock, or the wait at that barrier (`repeated`).
    fn end<R: Wait>(
        &self,
        rt: &R,
        state: &MemberState,
        parts: &mut MemberParts<L, H, F>,
        end: ShareEnd,
        repeated: bool,
        found: Option<Refusal>,
    ) -> Reply
        requires own { found ≢ Some Mismatch }
        requires ring { IsOnRing self.now.ring parts.old.seat }
        ensures board { parts.new.board ≡ part_after
            (arrival_op repeated false (tag_with AtShareEnd 0)) result parts.old.board }
        ensures held { parts.new.held ≡ parts.old.held }
        ensures freed { parts.new.freed ≡ parts.old.freed }
        ensures seat { MovesBy (ask_of_end repeated end) parts.old.seat result parts.new.seat }
        ensures stays { StaysSeat parts.old.seat parts.new.seat }
        ensures answer { EndAnswers repeated end found state.now.own.leaving.region
            parts.old.seat result }
    {
        if repeated {
            return self.ask(rt, parts, &Op::AwaitBarrier, found);
        }
        let mut board = self.board.lock(rt);
        let leaving = state.leaving().region;
        let seat = &mut parts.seat;
        let part = &mut parts.board;
        let asked = end_share(&mut board, &self.ring, seat, part, end, leaving, found);
        drop(board);
        self.tell(asked)
    }

    /// An arrival at a barrier or at the region's end, under the board's lock, or the wait there (`repeated`). The seat is only
    /// looked at.
    fn arrive<R: Wait>(
        &self,
        rt: &R,
        state: &MemberState,
        parts: &mut MemberParts<L, H, F>,
        kind: Arrival,
        repeated: bool,
        found: Option<Refusal>,
    ) -> Reply
        requires own { found ≢ Some Mismatch }
        ensures board { parts.new.board ≡ part_after
            (arrival_op repeated false (tag_with kind 0)) result parts.old.board }
        ensures held { parts.new.held ≡ parts.old.held }
        ensures freed { parts.new.freed ≡ parts.old.freed }
        ensures seat { parts.new.seat ≡ parts.old.seat }
        ensures answer { ArrivalAnswers repeated kind found state.now.own.leaving.region
            parts.old.seat result }
    {
        if repeated {
            return self.ask(rt, parts, &Op::AwaitBarrier, found);
        }
        let mut board = self.board.lock(rt);
        let leaving = state.leaving().region;
        let part = &mut parts.board;
        let asked = arrive(&mut board, &parts.seat, part, kind, leaving, found);
        drop(board);
        self.tell(asked)
    }

    /// The words of a `single`, under the board's lock.
    fn put<R: Wait>(
        &self,
        rt: &R,
        parts: &mut MemberParts<L, H, F>,
        words: &Payload,
        found: Option<Refusal>,
    ) -> Reply
        requires own { found ≢ Some Mismatch }
        requires ring { IsOnRing self.now.ring parts.old.seat }
        ensures board { parts.new.board ≡ part_after (Put 0 []) result parts.old.board }
        ensures held { parts.new.held ≡ parts.old.held }
        ensures freed { parts.new.freed ≡ parts.old.freed }
        ensures seat { MovesBy Puts parts.old.seat result parts.new.seat }
        ensures stays { StaysSeat parts.old.seat parts.new.seat }
        ensures answer { IsAnsweredUnless (lesser found (least (put_tests parts.old.seat.seen)))
            (Put (share_number parts.old.seat.seen.current) words.now)
            parts.old.seat.member result }
    {
        let mut board = self.board.lock(rt);
        let seat = &mut parts.seat;
        let asked = put_words(&mut board, &self.ring, seat, &mut parts.board, words, found);
        drop(board);
        self.tell(asked)
    }

    /// Wakes the members that sleep, if what was asked lets one of them go on, and gives the reply.
    fn tell(&self, asked: BoardReply) -> Reply
        ensures { result ≡ asked.reply }
    {
        let BoardReply { op, reply } = asked;
        self.board.notify(&op, &reply);
        reply
    }
}

/// Whether a member that goes on with a start waits in its share for the words of a `single`.
fn waits_for_words(seat: &RingSeat, repeated: bool) -> bool
    ensures value { result ≡ (repeated && awaits_payload seat.now.seen) }
    ensures waits { result ≡ true → awaits_payload seat.now.seen ≡ true }
{
    repeated && awaits_payload(seat)
}

/// A call on the share that the member is in, which its caller refuses as `found`, or does not.
#[inline(always)]
pub(crate) fn answer_inside(
    ring: &Ring,
    seat: &mut RingSeat,
    call: &InsideCall,
    cancelled: bool,
    found: Option<Refusal>,
) -> Reply
    requires ring { IsOnRing ring.now seat.old }
    ensures seat { MovesBy (Inside call.now) seat.old result seat.new }
    ensures answer { IsInsideReply call.now cancelled seat.old.seen result }
    ensures inside { AnswersInside found call.now seat.old result }
    ensures stays { StaysSeat seat.old seat.new }
{
    call_inside(ring, seat, call, cancelled, found)
}

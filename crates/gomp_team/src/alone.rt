//! The calls on the work-shares that a member's seat answers in a word or two, with no lock and no memory, or not at all.
//!
//! A [`Reply`] has room for the words of a single, 80 bytes, which are cleared and moved each time that one is made. A call here makes
//! none. It does what [`try_call`](Member::try_call) does, and answers what the reply would say; or it does nothing, since the member
//! would have to wait or may be refused, and the member makes the whole call. The three starts do nothing in a critical name either, nor
//! once some member was answered that the team is broken or stopped, or that something is cancelled; the others ask the seat alone, like
//! those of `claims.rt`, so they test neither `Broken` nor `HoldsCritical`. OpenMP API 5.2, sections 11.1, 11.3, 11.5 and 15.10.2;
//! libgomp's `GOMP_loop_dynamic_start`, `GOMP_sections_start`, `GOMP_single_start`, `GOMP_ordered_start` and their like.

ghost use Rattle.std.specs.Prelude.{◌≡◌, ◌<◌, true, false, IfSome, None, is_some};
ghost use Rattle.gomp_types.specs.declared.call.Call.TheVariants as calls;
ghost use Rattle.gomp_types.specs.declared.loop_desc.EndKind.TheVariants.{Nowait};
ghost use Rattle.gomp_types.specs.declared.reply.Reply.TheVariants.{Executor, Finished, Section, Wait as Waits};
ghost use Rattle.gomp_types.specs.Pieces.{resolved_loop};
ghost use Rattle.gomp_shares.specs.declared.admission.Construct.TheVariants.{Loop, Sections};
ghost use Rattle.gomp_member.specs.Own.{is_free};
ghost use Rattle.gomp_seat_calls.specs.Chunks.{NoneIsZero, reply_of_chunk};
ghost use Rattle.gomp_seat_calls.specs.Next.{AnswersNext};
ghost use Rattle.gomp_seat_calls.specs.Parts.{AnswersPart};
ghost use Rattle.gomp_team.specs.Members.{Called, may_begin_by_turn, may_claim_section_alone, may_end_alone, may_end_part_alone, may_start_alone, may_take_by_turn};

use crate::member::Member;
use gomp_ompt::Tool;
use gomp_seat_calls::{
    Chunk, begin_part_alone, claim_ordered_chunk, claim_section, end_alone, end_part_alone,
    may_claim_section, single_alone, start_loop_alone, start_sections_alone,
};
use gomp_shares::Construct;
use gomp_team_book::HoldLedger;
use gomp_types::{Call, EndKind, LoopDesc, Reply};
use std::sync::ledger::Ledger;

impl<L: Ledger, H: HoldLedger, F: Ledger, T: Tool> Member<L, H, F, T> {
    /// Starts a loop that has no barrier at its end (`nowait`), as [`try_loop_start`](Member::try_loop_start) does: its first chunk,
    /// [`Chunk::NONE`] if nothing is left for the member. `None`, and nothing changes, if the loop has a barrier, if the member is in a
    /// critical name, is to be refused or to wait, or if some member was answered that the team is broken or stopped, or that something is
    /// cancelled.
    #[inline(always)]
    pub fn loop_start_alone(&mut self, desc: LoopDesc) -> Option<Chunk>
        ensures called { IfSome result (λ chunk. Called T.on_gives
            (calls.LoopStart (resolved_loop self.old.icv.sched self.old.icv.chunk desc))
            (reply_of_chunk chunk.first chunk.count) self.old self.new) }
        ensures zero { IfSome result (λ chunk. NoneIsZero chunk.first chunk.count) }
        ensures free { is_some result ≡ true → may_start_alone self.old ≡ true }
        ensures nowait { is_some result ≡ true → desc.end_kind ≡ Nowait }
        ensures none { result ≡ None → self.new ≡ self.old }
    {
        if !matches!(desc.end_kind, EndKind::Nowait) || !self.may_start_alone() {
            return None;
        }
        let desc = self.scheduled(desc);
        let seat = &mut self.parts.seat;
        match start_loop_alone(&self.team.ring, seat, &desc, &self.team.limits) {
            Some(chunk) => {
                self.tell_records(&Call::LoopStart(desc), &chunk.into_reply());
                Some(chunk)
            }
            None => None,
        }
    }

    /// Starts a construct of `count` sections that has no barrier at its end (`nowait`), likewise: the first section's number, from 1;
    /// 0 if none is left.
    #[inline(always)]
    pub fn sections_start_alone(&mut self, count: u32, end_kind: EndKind) -> Option<u64>
        ensures called { IfSome result (λ number. Called T.on_gives
            (calls.SectionsStart count end_kind) (Section number) self.old self.new) }
        ensures free { is_some result ≡ true → may_start_alone self.old ≡ true }
        ensures nowait { is_some result ≡ true → end_kind ≡ Nowait }
        ensures none { result ≡ None → self.new ≡ self.old }
    {
        if !matches!(end_kind, EndKind::Nowait) || !self.may_start_alone() {
            return None;
        }
        let seat = &mut self.parts.seat;
        match start_sections_alone(&self.team.ring, seat, count, end_kind, &self.team.limits) {
            Some(number) => {
                self.tell_records(
                    &Call::SectionsStart { count, end_kind },
                    &Reply::Section(number),
                );
                Some(number)
            }
            None => None,
        }
    }

    /// Goes through a `single` without words for the others, likewise: whether the member executes its body.
    #[inline(always)]
    pub fn single_start_alone(&mut self) -> Option<bool>
        ensures called { IfSome result (λ executes. Called T.on_gives
            calls.SingleStart (Executor executes) self.old self.new) }
        ensures free { is_some result ≡ true → may_start_alone self.old ≡ true }
        ensures none { result ≡ None → self.new ≡ self.old }
    {
        if !self.may_start_alone() {
            return None;
        }
        let seat = &mut self.parts.seat;
        match single_alone(&self.team.ring, seat, &self.team.limits) {
            Some(executes) => {
                self.tell_records(&Call::SingleStart, &Reply::Executor(executes));
                Some(executes)
            }
            None => None,
        }
    }

    /// Whether nothing that the member keeps refuses it a start, it is in no critical name, and the team is not cut short.
    #[inline(always)]
    fn may_start_alone(&self) -> bool
        ensures free { result ≡ true → is_free self.now.own ≡ true }
        ensures admitted { result ≡ true → may_start_alone self.now ≡ true }
    {
        self.state.is_free() && !self.state.is_in_names() && !self.team.may_be_cut()
    }

    /// Whether the member may take its next section by [`claim_section`](Member::claim_section): it is in sections, was not answered
    /// that none is left, and nothing that it keeps refuses it a call on its share. It stays so from section to section.
    #[inline(always)]
    pub fn may_claim_section(&self) -> bool
        ensures { result ≡ may_claim_section_alone self.now }
    {
        self.state.is_free() && may_claim_section(&self.parts.seat)
    }

    /// As [`sections_next`](Member::sections_next), of a member that may claim so: the section's number, from 1; 0 if none is left.
    #[inline(always)]
    pub fn claim_section(&mut self) -> u64
        requires alone { may_claim_section_alone self.old ≡ true }
        ensures called { Called T.on_gives calls.SectionsNext (Section result) self.old self.new }
        ensures again { 0 < result → may_claim_section_alone self.new ≡ true }
    {
        let seat = &mut self.parts.seat;
        let number = claim_section(&self.team.ring, seat);
        self.tell_records(&Call::SectionsNext, &Reply::Section(number));
        number
    }

    /// As [`loop_end_nowait`](Member::loop_end_nowait), of a member that was answered that nothing is left of its loop, in no ordered
    /// part, and that nothing that it keeps refuses. Else the answer is false, and nothing changes.
    #[inline(always)]
    pub fn loop_end_alone(&mut self) -> bool
        ensures may { result ≡ may_end_alone Loop self.old }
        ensures called { result ≡ true → Called T.on_gives
            calls.LoopEndNowait Finished self.old self.new }
        ensures none { result ≡ false → self.new ≡ self.old }
    {
        if !self.state.is_free() {
            return false;
        }
        if !end_alone(&self.team.ring, &mut self.parts.seat, Construct::Loop) {
            return false;
        }
        self.tell_records(&Call::LoopEndNowait, &Reply::Finished);
        true
    }

    /// As [`sections_end_nowait`](Member::sections_end_nowait), likewise.
    #[inline(always)]
    pub fn sections_end_alone(&mut self) -> bool
        ensures may { result ≡ may_end_alone Sections self.old }
        ensures called { result ≡ true → Called T.on_gives
            calls.SectionsEndNowait Finished self.old self.new }
        ensures none { result ≡ false → self.new ≡ self.old }
    {
        if !self.state.is_free() {
            return false;
        }
        if !end_alone(&self.team.ring, &mut self.parts.seat, Construct::Sections) {
            return false;
        }
        self.tell_records(&Call::SectionsEndNowait, &Reply::Finished);
        true
    }

    /// Begins the ordered part of the iteration with this value. If some piece before the member's was not handed on, or what the member
    /// keeps or its seat refuses it the part, the answer is false, and nothing changes.
    #[inline(always)]
    pub fn ordered_start_alone(&mut self, value: i64) -> bool
        ensures called { result ≡ true → Called T.on_gives
            (calls.OrderedStart value) Finished self.old self.new }
        ensures none { result ≡ false → self.new ≡ self.old }
        ensures admitted { result ≡ true → may_begin_by_turn value self.old ≡ true }
        ensures waits { result ≡ false → may_begin_by_turn value self.old ≡ true →
            AnswersPart value self.old.seat Waits self.new.seat }
    {
        if !self.state.is_free() {
            return false;
        }
        if !begin_part_alone(&self.team.ring, &mut self.parts.seat, value) {
            return false;
        }
        self.tell_records(&Call::OrderedStart(value), &Reply::Finished);
        true
    }

    /// Ends the member's ordered part. If it is in none, or what it keeps refuses that, the answer is false, and nothing changes.
    #[inline(always)]
    pub fn ordered_end_alone(&mut self) -> bool
        ensures may { result ≡ may_end_part_alone self.old }
        ensures called { result ≡ true → Called T.on_gives
            calls.OrderedEnd Finished self.old self.new }
        ensures none { result ≡ false → self.new ≡ self.old }
    {
        if !self.state.is_free() {
            return false;
        }
        if !end_part_alone(&self.team.ring, &mut self.parts.seat) {
            return false;
        }
        self.tell_records(&Call::OrderedEnd, &Reply::Finished);
        true
    }

    /// Hands the member's piece of its ordered loop on, and takes the next chunk: [`Chunk::NONE`] if nothing is left for it. `None`, and
    /// nothing changes, if some piece before its own was not handed on, if what it keeps or its seat refuses it the call, or if its loop
    /// is not ordered.
    #[inline(always)]
    pub fn ordered_next_alone(&mut self) -> Option<Chunk>
        ensures called { IfSome result (λ chunk. Called T.on_gives
            calls.LoopNext (reply_of_chunk chunk.first chunk.count) self.old self.new) }
        ensures zero { IfSome result (λ chunk. NoneIsZero chunk.first chunk.count) }
        ensures none { result ≡ None → self.new ≡ self.old }
        ensures admitted { is_some result ≡ true → may_take_by_turn self.old ≡ true }
        ensures waits { result ≡ None → may_take_by_turn self.old ≡ true →
            AnswersNext Loop self.old.seat Waits self.new.seat }
    {
        if !self.state.is_free() {
            return None;
        }
        match claim_ordered_chunk(&self.team.ring, &mut self.parts.seat) {
            Some(chunk) => {
                self.tell_records(&Call::LoopNext, &chunk.into_reply());
                Some(chunk)
            }
            None => None,
        }
    }
}

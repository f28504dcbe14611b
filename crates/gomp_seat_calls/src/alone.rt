//! Calls that the member's seat answers in a word or two, with no reply made, or not at all.
//!
//! Each does one of these: it makes the call, and tells what the reply would tell; or it does nothing, since the seat would refuse the
//! call or have the member wait, or the whole call has more to look at (a share that is cancelled, a loop that is not ordered). Then the
//! member makes the whole call. OpenMP API 5.2, sections 11.3, 11.5 and 15.10.2; libgomp's
//! `GOMP_loop_dynamic_start`, `GOMP_sections_start`, `GOMP_sections_next`, `GOMP_ordered_start` and their like.

ghost use Rattle.std.specs.Prelude.{◌≡◌, ◌<◌, true, false, IfSome, None, is_some};
ghost use Rattle.gomp_types.specs.Pieces.{shape_of};
ghost use Rattle.gomp_types.specs.Sections.{sections_shape};
ghost use Rattle.gomp_types.specs.Singles.{single_shape};
ghost use Rattle.gomp_types.specs.declared.reply.Reply.TheVariants.{Executor, Finished, Section, Wait};
ghost use Rattle.gomp_shares.specs.Calls.{CanClaim, CanOpen, IsIn};
ghost use Rattle.gomp_shares.specs.declared.admission.Construct.TheVariants.{Loop as OfLoop, Sections as OfSections};
ghost use Rattle.gomp_team_shares.specs.declared.start.ShareStart.TheVariants.{Loop, Sections, Single};
ghost use Rattle.gomp_ring.specs.RingSeats.{IsOnRing};
ghost use Rattle.gomp_seat_calls.specs.Alone.{StaysOutside, IsNotStarted, admits_part, ends_alone, admits_by_turn, sections_alone, admits_start};
ghost use Rattle.gomp_seat_calls.specs.Chunks.{NoneIsZero, reply_of_chunk};
ghost use Rattle.gomp_seat_calls.specs.Ends.{EndsAtOnce};
ghost use Rattle.gomp_seat_calls.specs.Next.{AnswersNext, TakesPiece};
ghost use Rattle.gomp_seat_calls.specs.Parts.{AnswersPart, AnswersPartEnd};
ghost use Rattle.gomp_seat_calls.specs.Starts.{EntersAnd, PassesOwnSingle, StartsBySeat};
ghost use Rattle.gomp_seat_calls.specs.Stays.{StaysSeat};

use crate::chunk::{Chunk, chunk_of};
use crate::ends::leave_share;
use crate::next::{is_sections, section_number, some_piece};
use crate::starts::start_shape;
use gomp_ordered::admission::ordered_start_iteration;
use gomp_ring::{Entry, Passage, Ring, RingSeat};
use gomp_shares::Construct;
use gomp_team_shares::ShareStart;
use gomp_types::{EndKind, Limits, LoopDesc, Shape};

/// Starts a loop, as `start_admitted` does of one that `start_shape` lets the member start: its first chunk, [`Chunk::NONE`] if nothing
/// is left for the member. `None`, and nothing changes, if the member may not start it, or would have to wait, or the team's share of
/// this number is another construct.
#[inline(always)]
pub fn start_loop_alone(
    ring: &Ring,
    seat: &mut RingSeat,
    desc: &LoopDesc,
    limits: &Limits,
) -> Option<Chunk>
    requires ring { IsOnRing ring.now seat.old }
    ensures starts { IfSome result (λ chunk. StartsBySeat (Loop desc.now) seat.old
        (reply_of_chunk chunk.first chunk.count) seat.new) }
    ensures zero { IfSome result (λ chunk. NoneIsZero chunk.first chunk.count) }
    ensures inside { IfSome result (λ chunk. IsIn (shape_of desc.now) seat.new.seen) }
    ensures none { result ≡ None → seat.new ≡ seat.old }
    ensures admitted { is_some result ≡ true →
        admits_start (Loop desc.now) limits.now seat.old.seen ≡ true }
    ensures why { result ≡ None → admits_start (Loop desc.now) limits.now seat.old.seen ≡ true →
        IsNotStarted (Loop desc.now) seat.old seat.new }
    ensures stays { StaysSeat seat.old seat.new }
{
    let start = ShareStart::Loop(*desc);
    let Ok(shape) = start_shape(seat, &start, limits) else {
        return None;
    };
    enter_loop_alone(ring, seat, &shape)
}

/// Enters a loop of this shape, and takes its first chunk.
#[inline(always)]
fn enter_loop_alone(ring: &Ring, seat: &mut RingSeat, shape: &Shape) -> Option<Chunk>
    requires ring { IsOnRing ring.now seat.old }
    requires place { CanOpen seat.old.members seat.old.member shape.now seat.old.seen }
    ensures enters { IfSome result (λ chunk. EntersAnd (TakesPiece OfLoop) shape.now seat.old
        (reply_of_chunk chunk.first chunk.count) seat.new) }
    ensures zero { IfSome result (λ chunk. NoneIsZero chunk.first chunk.count) }
    ensures inside { IfSome result (λ chunk. IsIn shape.now seat.new.seen) }
    ensures none { result ≡ None → seat.new ≡ seat.old }
    ensures why { result ≡ None → StaysOutside OfLoop shape.now seat.old seat.new }
    ensures stays { StaysSeat seat.old seat.new }
{
    match seat.try_open(ring, shape) {
        Entry::Entered => Some(take_chunk_alone(ring, seat, shape)),
        Entry::NotYet(_) => None,
        Entry::Differs => None,
    }
}

/// Takes the next chunk of the loop of this shape that the member is in.
#[inline(always)]
fn take_chunk_alone(ring: &Ring, seat: &mut RingSeat, shape: &Shape) -> Chunk
    requires ring { IsOnRing ring.now seat.old }
    requires place { CanClaim seat.old.members seat.old.member seat.old.seen }
    requires inside { IsIn shape.now seat.old.seen }
    ensures takes { TakesPiece OfLoop seat.old (reply_of_chunk result.first result.count) seat.new }
    ensures zero { NoneIsZero result.first result.count }
    ensures inside { IsIn shape.now seat.new.seen }
    ensures stays { StaysSeat seat.old seat.new }
{
    let _ = seat.current(); // for what stands of the seat
    chunk_of(shape, seat.claim(ring))
}

/// Starts sections, likewise: the first section's number, from 1; 0 if none is left.
#[inline(always)]
pub fn start_sections_alone(
    ring: &Ring,
    seat: &mut RingSeat,
    count: u32,
    end_kind: EndKind,
    limits: &Limits,
) -> Option<u64>
    requires ring { IsOnRing ring.now seat.old }
    ensures starts { IfSome result (λ number. StartsBySeat (Sections count end_kind) seat.old
        (Section number) seat.new) }
    ensures inside { IfSome result (λ number. IsIn (sections_shape count end_kind) seat.new.seen) }
    ensures none { result ≡ None → seat.new ≡ seat.old }
    ensures admitted { is_some result ≡ true →
        admits_start (Sections count end_kind) limits.now seat.old.seen ≡ true }
    ensures why { result ≡ None →
        admits_start (Sections count end_kind) limits.now seat.old.seen ≡ true →
        IsNotStarted (Sections count end_kind) seat.old seat.new }
    ensures stays { StaysSeat seat.old seat.new }
{
    let start = ShareStart::Sections { count, end_kind };
    let Ok(shape) = start_shape(seat, &start, limits) else {
        return None;
    };
    enter_sections_alone(ring, seat, &shape)
}

/// Enters sections of this shape, and takes the first one.
#[inline(always)]
fn enter_sections_alone(ring: &Ring, seat: &mut RingSeat, shape: &Shape) -> Option<u64>
    requires ring { IsOnRing ring.now seat.old }
    requires place { CanOpen seat.old.members seat.old.member shape.now seat.old.seen }
    ensures enters { IfSome result (λ number. EntersAnd (TakesPiece OfSections) shape.now seat.old
        (Section number) seat.new) }
    ensures inside { IfSome result (λ number. IsIn shape.now seat.new.seen) }
    ensures none { result ≡ None → seat.new ≡ seat.old }
    ensures why { result ≡ None → StaysOutside OfSections shape.now seat.old seat.new }
    ensures stays { StaysSeat seat.old seat.new }
{
    match seat.try_open(ring, shape) {
        Entry::Entered => {
            let _ = seat.current(); // for what stands of the seat
            Some(take_section_alone(ring, seat))
        }
        Entry::NotYet(_) => None,
        Entry::Differs => None,
    }
}

/// Takes the next section of the construct that the member is in.
#[inline(always)]
fn take_section_alone(ring: &Ring, seat: &mut RingSeat) -> u64
    requires ring { IsOnRing ring.now seat.old }
    requires place { CanClaim seat.old.members seat.old.member seat.old.seen }
    ensures takes { TakesPiece OfSections seat.old (Section result) seat.new }
    ensures stays { StaysSeat seat.old seat.new }
{
    section_number(some_piece(seat.claim(ring)))
}

/// Goes through a `single` without words for the others: whether the member executes its body. It has left the share then. `None`, and
/// nothing changes, if the member may not start one, or would have to wait, or the team's share of this number is another construct.
#[inline(always)]
pub fn single_alone(ring: &Ring, seat: &mut RingSeat, limits: &Limits) -> Option<bool>
    requires ring { IsOnRing ring.now seat.old }
    ensures starts { IfSome result (λ executes. StartsBySeat Single seat.old
        (Executor executes) seat.new) }
    ensures outside { IfSome result (λ executes. seat.new.seen.current ≡ None) }
    ensures none { result ≡ None → seat.new ≡ seat.old }
    ensures admitted { is_some result ≡ true →
        admits_start Single limits.now seat.old.seen ≡ true }
    ensures why { result ≡ None → admits_start Single limits.now seat.old.seen ≡ true →
        IsNotStarted Single seat.old seat.new }
    ensures stays { StaysSeat seat.old seat.new }
{
    let Ok(_shape) = start_shape(seat, &ShareStart::Single, limits) else {
        return None;
    };
    pass_alone(ring, seat)
}

/// The same of a member that may go through one.
#[inline(always)]
fn pass_alone(ring: &Ring, seat: &mut RingSeat) -> Option<bool>
    requires ring { IsOnRing ring.now seat.old }
    requires place { CanOpen seat.old.members seat.old.member (single_shape false) seat.old.seen }
    ensures passes { IfSome result (λ executes. PassesOwnSingle seat.old
        (Executor executes) seat.new) }
    ensures outside { IfSome result (λ executes. seat.new.seen.current ≡ None) }
    ensures none { result ≡ None → seat.new ≡ seat.old }
    ensures why { result ≡ None → IsNotStarted Single seat.old seat.new }
    ensures stays { StaysSeat seat.old seat.new }
{
    match seat.single(ring) {
        Passage::Passed(executes) => Some(executes),
        Passage::NotYet(_) => None,
        Passage::Differs => None,
    }
}

/// Whether the member may take its next section with no other test: it is in sections, and was not answered that none is left.
#[inline(always)]
pub fn may_claim_section(seat: &RingSeat) -> bool
    ensures { result ≡ sections_alone seat.now.seen }
{
    match seat.current() {
        Some((_, shape)) => is_sections(shape.kind) && seat.may_claim(),
        None => false,
    }
}

/// Takes the next section, as [`sections_next`](crate::sections_next) does: its number, from 1, or 0 if none is left for the member;
/// then it may end the construct, and not ask again.
///
/// The member may claim so ([`may_claim_section`]). It still may if it was given a section.
#[inline(always)]
pub fn claim_section(ring: &Ring, seat: &mut RingSeat) -> u64
    requires ring { IsOnRing ring.now seat.old }
    requires alone { sections_alone seat.old.seen ≡ true }
    ensures answers { AnswersNext OfSections seat.old (Section result) seat.new }
    ensures again { 0 < result → sections_alone seat.new.seen ≡ true }
    ensures stays { StaysSeat seat.old seat.new }
{
    let _ = (seat.current(), seat.may_claim()); // for what stands of the seat, and of its place
    take_section_alone(ring, seat)
}

/// Ends the member's loop or sections, as `loop_end_nowait` and `sections_end_nowait` do, if it has no barrier at its end, and the
/// member was answered that nothing is left and is in no ordered part: whether that is so. Else nothing changes.
#[inline(always)]
pub fn end_alone(ring: &Ring, seat: &mut RingSeat, construct: Construct) -> bool
    requires ring { IsOnRing ring.now seat.old }
    ensures may { result ≡ ends_alone construct seat.old.seen }
    ensures ends { result ≡ true → EndsAtOnce construct seat.old Finished seat.new }
    ensures none { result ≡ false → seat.new ≡ seat.old }
    ensures stays { StaysSeat seat.old seat.new }
{
    if !may_end_alone(seat, construct) {
        return false;
    }
    let _ = seat.current(); // for what stands of the seat
    leave_share(ring, seat);
    true
}

/// Whether the member may end its construct by [`end_alone`].
#[inline(always)]
fn may_end_alone(seat: &RingSeat, construct: Construct) -> bool
    ensures { result ≡ ends_alone construct seat.now.seen }
{
    let Some((_, shape)) = seat.current() else {
        return false;
    };
    let is_one = match construct {
        Construct::Loop => shape.kind.is_loop(),
        Construct::Sections => is_sections(shape.kind),
    };
    is_one && matches!(shape.end_kind, EndKind::Nowait) && seat.is_drained()
}

/// Begins the ordered part of the iteration with this value, as [`ordered_start`](crate::ordered_start) does. If the member may not begin
/// it, or some piece before its own was not handed on, the answer is false, and nothing changes.
pub fn begin_part_alone(ring: &Ring, seat: &mut RingSeat, value: i64) -> bool
    requires ring { IsOnRing ring.now seat.old }
    ensures begun { result ≡ true → AnswersPart value seat.old Finished seat.new }
    ensures none { result ≡ false → seat.new ≡ seat.old }
    ensures admitted { result ≡ true → admits_part value seat.old.seen ≡ true }
    ensures waits { result ≡ false → admits_part value seat.old.seen ≡ true →
        AnswersPart value seat.old Wait seat.new }
    ensures stays { StaysSeat seat.old seat.new }
{
    let Ok(iteration) = ordered_start_iteration(&seat.seen(), value) else {
        return false;
    };
    seat.try_turn(ring, iteration)
}

/// Ends the member's ordered part, as [`ordered_end`](crate::ordered_end) does. If it is in none, the answer is false, and nothing changes.
pub fn end_part_alone(ring: &Ring, seat: &mut RingSeat) -> bool
    requires ring { IsOnRing ring.now seat.old }
    ensures may { result ≡ seat.old.seen.in_part }
    ensures ended { result ≡ true → AnswersPartEnd seat.old Finished seat.new }
    ensures none { result ≡ false → seat.new ≡ seat.old }
    ensures stays { StaysSeat seat.old seat.new }
{
    if !seat.is_in_part() {
        return false;
    }
    seat.end_part(ring);
    true
}

/// The next chunk of the member's ordered loop, as [`loop_next`](crate::loop_next) gives it: the piece that it has is handed on first.
/// `None`, and nothing changes, if its loop is not ordered, if the member may not ask, or if some piece before its own was not handed
/// on.
#[inline(always)]
pub fn claim_ordered_chunk(ring: &Ring, seat: &mut RingSeat) -> Option<Chunk>
    requires ring { IsOnRing ring.now seat.old }
    ensures answers { IfSome result (λ chunk. AnswersNext OfLoop seat.old
        (reply_of_chunk chunk.first chunk.count) seat.new) }
    ensures zero { IfSome result (λ chunk. NoneIsZero chunk.first chunk.count) }
    ensures none { result ≡ None → seat.new ≡ seat.old }
    ensures admitted { is_some result ≡ true → admits_by_turn seat.old.seen ≡ true }
    ensures waits { result ≡ None → admits_by_turn seat.old.seen ≡ true →
        AnswersNext OfLoop seat.old Wait seat.new }
    ensures stays { StaysSeat seat.old seat.new }
{
    let Some((_, shape)) = seat.current() else {
        return None;
    };
    if !shape.kind.is_loop() || !shape.ordered || !seat.may_claim() {
        return None;
    }
    if !seat.hand_on(ring) {
        return None;
    }
    Some(take_chunk_alone(ring, seat, &shape))
}

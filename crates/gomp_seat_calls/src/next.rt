//! The next chunk of a loop, and the next section.
//!
//! OpenMP API 5.2, sections 11.3, 11.5 and 15.10.2; libgomp's `GOMP_loop_dynamic_next` and its like, and `GOMP_sections_next`.

ghost use Rattle.std.specs.Prelude.{◌≡◌, ◌<◌, false, IfSome, None, Some};
ghost use Rattle.gomp_types.specs.declared.refusal.Refusal.{Refusal};
ghost use Rattle.gomp_types.specs.declared.reply.Reply.TheVariants.{Refused};
ghost use Rattle.gomp_types.specs.Least.{least};
ghost use Rattle.gomp_types.specs.Shapes.{is_sections};
ghost use Rattle.gomp_events.specs.Ordered.{is_ordered};
ghost use Rattle.gomp_shares.specs.Admission.{next_tests_of};
ghost use Rattle.gomp_shares.specs.Calls.{CanClaim, IsIn};
ghost use Rattle.gomp_shares.specs.declared.admission.Construct.TheVariants.{Loop, Sections};
ghost use Rattle.gomp_sections.specs.Answers.{section_of};
ghost use Rattle.gomp_ring.specs.RingSeats.{IsOnRing, piece_in};
ghost use Rattle.gomp_seat_calls.specs.Stays.{StaysSeat};
ghost use Rattle.gomp_seat_calls.specs.Next.{AnswersNext, TakesPiece};
ghost use Rattle.gomp_seat_calls.specs.Starts.{IsStarted};

use gomp_loops::admission::piece_reply;
use gomp_ring::{Piece, Ring, RingSeat};
use gomp_shares::Construct;
use gomp_shares::admission::next_refusal;
use gomp_types::{Reply, Shape, ShareKind};

/// Answers the next chunk of the member's loop, which is not ordered: `NoChunk` if none is left for it; then it may end the loop,
/// and not ask again. One addition to the loop's gate, or one load if the loop is static.
///
/// Refused with `OutsideShare` if the member is in no loop, though it may be in sections, with `InOrdered` or with `Drained`.
pub fn claim_next(ring: &Ring, seat: &mut RingSeat) -> Reply
    requires ring { IsOnRing ring.now seat.old }
    requires plain { is_ordered seat.old.seen.current ≡ false }
    ensures answers { AnswersNext Loop seat.old result seat.new }
    ensures stays { StaysSeat seat.old seat.new }
{
    let Some((_, plain)) = seat.current() else {
        return refuse_next(seat, Construct::Loop);
    };
    // `may_claim` looks again whether the member is in a share: at one byte, and it is asked of members in none too.
    if !plain.kind.is_loop() || !seat.may_claim() {
        return refuse_next(seat, Construct::Loop);
    }
    take_chunk(ring, seat, &plain)
}

/// Answers the next chunk of the member's loop, as [`claim_next`] does. Of an ordered loop the member's piece is handed on first.
///
/// `Wait` if the loop is ordered and some piece before the member's was not handed on; then nothing is handed on or taken, and the
/// caller asks again.
#[inline(always)]
pub fn loop_next(ring: &Ring, seat: &mut RingSeat) -> Reply
    requires ring { IsOnRing ring.now seat.old }
    ensures answers { AnswersNext Loop seat.old result seat.new }
    ensures stays { StaysSeat seat.old seat.new }
{
    let Some((_, shape)) = seat.current() else {
        return refuse_next(seat, Construct::Loop);
    };
    if !shape.kind.is_loop() || !seat.may_claim() {
        return refuse_next(seat, Construct::Loop);
    }
    if shape.ordered && !seat.hand_on(ring) {
        return Reply::Wait;
    }
    take_chunk(ring, seat, &shape)
}

/// Answers the next section of the member's construct, numbered from 1, or 0 if none is left: then it may end the construct, and
/// not ask again. One addition to the gate of the construct.
///
/// Refused with `OutsideShare` or `Drained`.
#[inline(always)]
pub fn sections_next(ring: &Ring, seat: &mut RingSeat) -> Reply
    requires ring { IsOnRing ring.now seat.old }
    ensures answers { AnswersNext Sections seat.old result seat.new }
    ensures stays { StaysSeat seat.old seat.new }
{
    let Some((_, shape)) = seat.current() else {
        return refuse_next(seat, Construct::Sections);
    };
    if !is_sections(shape.kind) {
        return refuse_next(seat, Construct::Sections);
    }
    if !seat.may_claim() {
        return refuse_next(seat, Construct::Sections);
    }
    take_section(ring, seat)
}

/// The refusal of a member that may not ask for the next piece of such a construct.
#[inline(never)]
fn refuse_next(seat: &RingSeat, construct: Construct) -> Reply
    requires refused { least (next_tests_of construct seat.now.seen) ≡ None → ⊥ }
    ensures least { (refusal : Refusal) →
        least (next_tests_of construct seat.now.seen) ≡ Some refusal →
        result ≡ Refused refusal }
{
    match next_refusal(&seat.seen(), construct) {
        Some(refusal) => Reply::Refused(refusal),
        None => unreachable!(),
    }
}

/// Takes the next chunk of the loop of this shape that the member is in.
#[inline(always)]
pub(crate) fn take_chunk(ring: &Ring, seat: &mut RingSeat, shape: &Shape) -> Reply
    requires ring { IsOnRing ring.now seat.old }
    requires place { CanClaim seat.old.members seat.old.member seat.old.seen }
    requires inside { IsIn shape.now seat.old.seen }
    ensures takes { TakesPiece Loop seat.old result seat.new }
    ensures started { IsStarted result }
    ensures stays { StaysSeat seat.old seat.new }
{
    let _ = seat.current(); // for what stands of the seat
    piece_reply(shape, some_piece(seat.claim(ring)))
}

/// Takes the next section of the construct that the member is in.
#[inline(always)]
pub(crate) fn take_section(ring: &Ring, seat: &mut RingSeat) -> Reply
    requires ring { IsOnRing ring.now seat.old }
    requires place { CanClaim seat.old.members seat.old.member seat.old.seen }
    ensures takes { TakesPiece Sections seat.old result seat.new }
    ensures started { IsStarted result }
    ensures stays { StaysSeat seat.old seat.new }
{
    Reply::Section(section_number(some_piece(seat.claim(ring))))
}

/// Whether a share of this kind is a sections construct.
#[inline(always)]
pub(crate) fn is_sections(kind: ShareKind) -> bool
    ensures { result ≡ is_sections kind }
{
    matches!(kind, ShareKind::Sections)
}

/// The piece that these two numbers are.
#[inline(always)]
pub(crate) fn some_piece(piece: Piece) -> Option<(u64, u64)>
    ensures { result ≡ piece_in piece.first piece.end }
{
    if piece.first < piece.end {
        Some((piece.first, piece.end))
    } else {
        None
    }
}

/// The number of the section that a member was given, 0 if it was given none.
#[inline(always)]
pub(crate) fn section_number(piece: Option<(u64, u64)>) -> u64
    requires few { IfSome piece (λ p. p.0 < p.1) }
    ensures { result ≡ section_of piece }
{
    match piece {
        Some((first, _)) => first + 1,
        None => 0,
    }
}

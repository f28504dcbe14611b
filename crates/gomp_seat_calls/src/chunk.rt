//! The next chunk of a loop as two numbers, which a call answers in registers.
//!
//! A [`Reply`] has room for the words of a single, 80 bytes, which are cleared and moved each time that one is made. A member that
//! only claims, chunk after chunk, is answered by a [`Chunk`]. OpenMP API 5.2, section 11.5.

ghost use Rattle.std.specs.Prelude.{◌≡◌, ◌<◌, ◌≤◌, true};
ghost use Rattle.std.specs.Option.{ForSome};
ghost use Rattle.gomp_types.specs.Values.{IsShape};
ghost use Rattle.gomp_loops.specs.Answers.{reply_of_piece};
ghost use Rattle.gomp_shares.specs.declared.admission.Construct.TheVariants.{Loop};
ghost use Rattle.gomp_ring.specs.RingSeats.{IsOnRing, piece_in};
ghost use Rattle.gomp_seat_calls.specs.Chunks.{NoneIsZero, claims_alone, reply_of_chunk};
ghost use Rattle.gomp_seat_calls.specs.Next.{AnswersNext};
ghost use Rattle.gomp_seat_calls.specs.Stays.{StaysSeat};

use gomp_ring::{Piece, Ring, RingSeat};
use gomp_types::{Reply, Shape};

/// Iterations of a loop that a member was given.
#[derive(Clone, Copy, Debug, PartialEq, Eq)]
#[repr(C)]
pub struct Chunk {
    /// The value of the first one; 0 if there are none.
    pub first: i64,
    /// How many they are; 0 if none is left for the member.
    pub count: u64,
}

impl Chunk {
    /// No iteration.
    pub const NONE: Chunk = Chunk { first: 0, count: 0 };

    /// The reply that says the same: `Chunk`, or `NoChunk` if none is left.
    pub fn into_reply(self) -> Reply
        ensures { result ≡ reply_of_chunk self.first self.count }
    {
        let Chunk { first, count } = self;
        if count > 0 {
            Reply::Chunk { first, count }
        } else {
            Reply::NoChunk
        }
    }
}

/// Whether the member may claim its next chunk with no other test: it is in a loop that is not ordered, was not answered that nothing
/// is left, and is in no ordered part.
#[inline(always)]
pub fn may_claim_chunk(seat: &RingSeat) -> bool
    ensures { result ≡ claims_alone seat.now.seen }
{
    match seat.current() {
        Some((_, shape)) => shape.kind.is_loop() && !shape.ordered && seat.may_claim(),
        None => false,
    }
}

/// Takes the next chunk of the member's loop, as [`claim_next`](crate::claim_next) does: one addition to the loop's gate, or one load
/// if the loop is static. [`Chunk::NONE`] if none is left for the member: then it may end the loop, and not ask again.
///
/// The member may claim so ([`may_claim_chunk`]). It still may if it was given a chunk.
#[inline(always)]
pub fn claim_chunk(ring: &Ring, seat: &mut RingSeat) -> Chunk
    requires ring { IsOnRing ring.now seat.old }
    requires alone { claims_alone seat.old.seen ≡ true }
    ensures answers { AnswersNext Loop seat.old
        (reply_of_chunk result.first result.count) seat.new }
    ensures zero { NoneIsZero result.first result.count }
    ensures again { 0 < result.count → claims_alone seat.new.seen ≡ true }
    ensures stays { StaysSeat seat.old seat.new }
{
    let _ = seat.may_claim(); // for what stands of its place
    let Some((_, shape)) = seat.current() else {
        unreachable!()
    };
    chunk_of(&shape, seat.claim(ring))
}

/// The iterations that a piece of a loop of this shape has.
#[inline(always)]
pub(crate) fn chunk_of(shape: &Shape, piece: Piece) -> Chunk
    requires shape { IsShape shape.now }
    requires within { ForSome (piece_in piece.first piece.end)
        (λ p. (p.0 < p.1) × (p.1 ≤ shape.now.trips)) }
    ensures reply { reply_of_chunk result.first result.count
        ≡ reply_of_piece shape.now (piece_in piece.first piece.end) }
    ensures zero { NoneIsZero result.first result.count }
    ensures some { 0 < result.count → piece.first < piece.end }
{
    let Piece { first, end } = piece;
    if first < end {
        Chunk {
            first: shape.value_at(first),
            count: end - first,
        }
    } else {
        Chunk::NONE
    }
}

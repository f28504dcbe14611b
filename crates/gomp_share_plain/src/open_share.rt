//! A share that may be open.

ghost use Rattle.std.specs.Prelude.{◌≡◌, ◌==◌, ◌&&◌, is_some};

use crate::seat::PlainSeat;
use gomp_chunks::Cursor;
use gomp_types::Shape;

/// A share that some member may still be in.
#[derive(Clone, Copy, Debug)]
pub struct OpenShare {
    /// What all members that enter it have to bring: its construct's shape.
    pub shape: Shape,
    /// How many of its pieces were taken; the count stays at the largest number.
    pub taken: u64,
    /// How many of its pieces were handed on; so it is the number of the piece whose ordered parts
    /// are next.
    pub turn: u64,
    /// Whether it was cancelled.
    pub cancelled: bool,
    /// Its pieces, with the place of the last one of a guided loop that was taken.
    pub cursor: Cursor,
}

/// Whether the ordered parts of the member's piece are next in its share.
pub fn is_next(seat: &PlainSeat, share: &OpenShare) -> bool
    ensures { result ≡ (is_some seat.now.seen.piece && seat.now.number == share.now.turn) }
{
    seat.seen.piece.is_some() && seat.number == share.turn
}

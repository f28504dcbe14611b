//! The calls of one member's seat, each with the tests that it asks for: a test may make any call at any time.

ghost use Rattle.std.specs.Prelude.{◌≡◌};
ghost use Rattle.gomp_shares.specs.Calls.{is_done};
ghost use Rattle.gomp_ring_tests.specs.Members.{MayAct};
ghost use Rattle.gomp_seats.specs.NewSeats.{IsSameMember};

use crate::constructs::Construct;
use gomp_events::Seen;
use gomp_ring::{Entry, Passage, Piece, Ring, RingSeat};

/// The most shares that a member enters.
const MOST_SHARES: u64 = 1 << 48;

/// The member opens its next share. None if it may not, and then nothing changes.
pub(crate) fn open_next(ring: &Ring, seat: &mut RingSeat, construct: &Construct) -> Option<Entry>
    requires seat { MayAct ring.now seat.old }
    ensures same { IsSameMember seat.old seat.new }
{
    let seen = seat.seen();
    if seen.current.is_some() || seen.entered >= MOST_SHARES {
        return None;
    }
    Some(seat.try_open(ring, &construct.shape))
}

/// The member goes through its next share, a `single` without words. None if it may not, and then nothing changes. Members of even
/// numbers do so by the call that tests that itself.
pub(crate) fn pass_next(ring: &Ring, seat: &mut RingSeat) -> Option<Passage>
    requires seat { MayAct ring.now seat.old }
    ensures same { IsSameMember seat.old seat.new }
{
    if seat.member() % 2 == 0 {
        return seat.single_next(ring);
    }
    let seen = seat.seen();
    if seen.current.is_some() || seen.entered >= MOST_SHARES {
        return None;
    }
    Some(seat.single(ring))
}

/// The number of the seat that is split from this one; none if there is none.
pub(crate) fn split_next(ring: &Ring, seat: &mut RingSeat) -> Option<u16>
    requires seat { MayAct ring.now seat.old }
    ensures may { MayAct ring.now seat.new }
{
    match seat.split(ring) {
        Some(other) => Some(other.member()),
        None => None,
    }
}

/// The member claims its next piece, if it may.
pub(crate) fn claim_next(ring: &Ring, seat: &mut RingSeat) -> Piece
    requires seat { MayAct ring.now seat.old }
    ensures same { IsSameMember seat.old seat.new }
{
    seat.claim_next(ring)
}

/// Whether nothing is left for a member that sees this of its place.
fn is_done(seen: &Seen) -> bool
    ensures { result ≡ is_done seen.now }
{
    let Some((_, shape)) = seen.current else {
        return seen.drained;
    };
    seen.drained || shape.kind.is_single() && seen.piece.is_some()
}

/// The member leaves its share. False if it may not, and then nothing changes.
pub(crate) fn leave(ring: &Ring, seat: &mut RingSeat) -> bool
    requires seat { MayAct ring.now seat.old }
    ensures same { IsSameMember seat.old seat.new }
{
    let seen = seat.seen();
    if seen.current.is_none() || seen.in_part || !is_done(&seen) {
        return false;
    }
    seat.leave(ring);
    true
}

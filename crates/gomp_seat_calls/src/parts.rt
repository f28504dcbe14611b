//! The ordered parts of the member's loop.
//!
//! OpenMP API 5.2, section 15.10.2; libgomp's `GOMP_ordered_start` and `GOMP_ordered_end`.

ghost use Rattle.std.specs.Prelude.{◌≡◌};
ghost use Rattle.gomp_types.specs.Least.{least};
ghost use Rattle.gomp_shares.specs.OrderedParts.{part_end_tests};
ghost use Rattle.gomp_ring.specs.RingSeats.{IsLawfulSeat, IsOnRing};
ghost use Rattle.gomp_seat_calls.specs.Stays.{StaysSeat};
ghost use Rattle.gomp_seat_calls.specs.Parts.{AnswersPart, AnswersPartEnd};

use gomp_ordered::admission::ordered_start_iteration;
use gomp_ring::{Ring, RingSeat};
use gomp_types::{Refusal, Reply};

/// Begins the ordered part of the iteration with this value. One load of the turn.
///
/// `Wait` if some piece before the member's was not handed on; then nothing is begun, and the caller asks again. Refused with
/// `OutsideShare` if the member is in no loop, `InOrdered` if it is in an ordered part, `NotOrdered` if its loop has no `ordered`
/// clause, and `OrderedBackwards` if no iteration of its last piece has this value, or its part is not after the last one.
pub fn ordered_start(ring: &Ring, seat: &mut RingSeat, value: i64) -> Reply
    requires ring { IsOnRing ring.now seat.old }
    ensures answers { AnswersPart value seat.old result seat.new }
    ensures stays { StaysSeat seat.old seat.new }
{
    match ordered_start_iteration(&seat.seen(), value) {
        Err(refusal) => Reply::Refused(refusal),
        Ok(iteration) => {
            if seat.try_turn(ring, iteration) {
                Reply::Finished
            } else {
                Reply::Wait
            }
        }
    }
}

/// Ends the member's ordered part.
///
/// Refused with `NotInside` if it is in none.
pub fn ordered_end(ring: &Ring, seat: &mut RingSeat) -> Reply
    requires ring { IsOnRing ring.now seat.old }
    ensures answers { AnswersPartEnd seat.old result seat.new }
    ensures stays { StaysSeat seat.old seat.new }
{
    if let Some(refusal) = ordered_end_refusal(seat) {
        return Reply::Refused(refusal);
    }
    seat.end_part(ring);
    Reply::Finished
}

/// Why the member may not end an ordered part: `NotInside`.
pub(crate) fn ordered_end_refusal(seat: &RingSeat) -> Option<Refusal>
    ensures least { result ≡ least (part_end_tests seat.now.seen) }
    ensures stands { IsLawfulSeat seat.now }
{
    if seat.is_in_part() {
        return None;
    }
    Some(Refusal::NotInside)
}

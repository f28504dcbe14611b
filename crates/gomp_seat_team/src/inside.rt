//! The calls on the share that a member is in, which neither start one nor arrive at a barrier. They take no lock.
//!
//! OpenMP API 5.2, sections 11.3, 11.5, 15.10.2 and 16.1; libgomp's `GOMP_loop_dynamic_next`, `GOMP_sections_next`, `GOMP_ordered_start` and
//! their like.

ghost use Rattle.std.specs.Prelude.{◌≡◌, Some, None};
ghost use Rattle.gomp_types.specs.declared.refusal.Refusal.{Refusal};
ghost use Rattle.gomp_ring.specs.RingSeats.{IsOnRing};
ghost use Rattle.gomp_seat_calls.specs.Stays.{StaysSeat};
ghost use Rattle.gomp_seat_team.specs.Inside.{RefusesInsideBySeat, ServesInsideBySeat};

use gomp_dispatch::cut_reply;
use gomp_ring::{Ring, RingSeat};
use gomp_seat_calls::call_inside_refusal;
use gomp_team_calls::lesser;
use gomp_team_shares::InsideCall;
use gomp_types::{Refusal, Reply};

/// Answers a call of the member on the share that it is in. `cancelled` says that the region is cancelled: then a call that would wait
/// is answered `Cancelled`.
///
/// Refused as `found`, or as `gomp_seat_calls::call_inside` is, by the lesser number; then nothing changes.
#[inline(always)]
pub fn call_inside(
    ring: &Ring,
    seat: &mut RingSeat,
    call: &InsideCall,
    cancelled: bool,
    found: Option<Refusal>,
) -> Reply
    requires ring { IsOnRing ring.now seat.old }
    ensures refused { (refusal : Refusal) → found ≡ Some refusal →
        RefusesInsideBySeat call.now refusal seat.old result seat.new }
    ensures serves { found ≡ None →
        ServesInsideBySeat call.now cancelled seat.old result seat.new }
    ensures stays { StaysSeat seat.old seat.new }
{
    if found.is_none() && !cancelled {
        return gomp_seat_calls::call_inside(ring, seat, call);
    }
    if found.is_none() {
        return cut_reply(gomp_seat_calls::call_inside(ring, seat, call), cancelled);
    }
    match lesser(found, call_inside_refusal(ring, seat, call)) {
        Some(refusal) => Reply::Refused(refusal),
        None => unreachable!(),
    }
}

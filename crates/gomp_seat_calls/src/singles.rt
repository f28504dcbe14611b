//! The `single` construct, without words for the other members and with them (the `copyprivate` clause).
//!
//! OpenMP API 5.2, sections 11.1 and 5.7.2; libgomp's `GOMP_single_start`, `GOMP_single_copy_start` and `GOMP_single_copy_end`.

ghost use Rattle.std.specs.Prelude.{◌≡◌, true, false, None};
ghost use Rattle.gomp_types.specs.Singles.{single_shape};
ghost use Rattle.gomp_shares.specs.Calls.{CanClaim, CanLeave, CanOpen};
ghost use Rattle.gomp_shares.specs.Singles.{put_tests};
ghost use Rattle.gomp_types.specs.Least.{least};
ghost use Rattle.gomp_ring.specs.RingSeats.{IsOnRing};
ghost use Rattle.gomp_seat_calls.specs.Stays.{StaysSeat};
ghost use Rattle.gomp_seat_calls.specs.Starts.{ExecutesOrWaits, IsStarted, PassesOwnSingle, awaits_payload};

use crate::next::some_piece;
use gomp_ring::{Passage, Ring, RingSeat};
use gomp_types::{Refusal, Reply, ShareKind};

/// Goes through a `single` without words, which the member's own tests let it start: it executes the body if nobody else does, and
/// has left the share then. One exchange of the gate, or a load and one addition.
///
/// `Wait` if some member has not left the share eight before; `Mismatch` if the team's share of this number is another construct.
pub(crate) fn single_start_admitted(ring: &Ring, seat: &mut RingSeat) -> Reply
    requires ring { IsOnRing ring.now seat.old }
    requires place { CanOpen seat.old.members seat.old.member (single_shape false) seat.old.seen }
    ensures passes { PassesOwnSingle seat.old result seat.new }
    ensures started { IsStarted result }
    ensures stays { StaysSeat seat.old seat.new }
{
    match seat.single(ring) {
        Passage::Passed(executes) => Reply::Executor(executes),
        Passage::NotYet(_) => Reply::Wait,
        Passage::Differs => Reply::Refused(Refusal::Mismatch),
    }
}

/// Asks for the one piece of a `single` with words that the member has just entered: it executes the body if it gets the piece;
/// else it waits in the share for the words ([`awaits_payload`]).
pub(crate) fn execute_or_wait(ring: &Ring, seat: &mut RingSeat) -> Reply
    requires ring { IsOnRing ring.now seat.old }
    requires place { CanClaim seat.old.members seat.old.member seat.old.seen }
    ensures executes { ExecutesOrWaits seat.old result seat.new }
    ensures started { IsStarted result }
    ensures stays { StaysSeat seat.old seat.new }
{
    match some_piece(seat.claim(ring)) {
        Some(_) => Reply::Executor(true),
        None => Reply::Wait,
    }
}

/// Whether the member is in a `single` with words that another member executes: it waits there for these. Once they are put it
/// leaves the share by [`leave_share`](crate::leave_share).
pub fn awaits_payload(seat: &RingSeat) -> bool
    ensures value { result ≡ awaits_payload seat.now.seen }
    ensures place { result ≡ true → CanLeave seat.now.members seat.now.member seat.now.seen }
{
    let Some((_, shape)) = seat.current() else {
        return false;
    };
    matches!(shape.kind, ShareKind::SingleCopy) && seat.is_drained()
}

/// Why the member may not put the words of a `single`: `NotInside` if it does not execute one whose words are still to be put. It
/// leaves the share by [`leave_share`](crate::leave_share) once the words are kept.
pub fn single_copy_end_refusal(seat: &RingSeat) -> Option<Refusal>
    ensures first { result ≡ least (put_tests seat.now.seen) }
    ensures place { result ≡ None → CanLeave seat.now.members seat.now.member seat.now.seen }
{
    gomp_sections::admission::single_copy_end_refusal(&seat.seen())
}

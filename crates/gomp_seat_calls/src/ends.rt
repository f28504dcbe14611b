//! The ends of loops and sections: without a barrier, and what a member does of one with a barrier.
//!
//! OpenMP API 5.2, sections 11.3, 11.5 and 16.1; libgomp's `GOMP_loop_end_nowait` and `GOMP_sections_end_nowait`.

ghost use Rattle.std.specs.Prelude.{◌≡◌, ◌||◌, true, IfNone};
ghost use Rattle.gomp_shares.specs.Calls.{CanLeave};
ghost use Rattle.gomp_shares.specs.declared.admission.Construct.TheVariants.{Loop, Sections};
ghost use Rattle.gomp_ring.specs.RingSeats.{IsOnRing};
ghost use Rattle.gomp_seat_calls.specs.Stays.{LeavesShare, StaysSeat};
ghost use Rattle.gomp_seat_calls.specs.Ends.{EndsAtOnce, FindsEnd, has_seen_end};

use gomp_events::Seen;
use gomp_ring::{Ring, RingSeat};
use gomp_shares::Construct;
use gomp_shares::admission::end_construct_refusal;
use gomp_types::{EndKind, Refusal, Reply};

/// Leaves the member's loop, which has no barrier at its end.
///
/// Refused with `OutsideShare` if the member is in no loop, though it may be in sections, with `InOrdered`, `EndDiffers` or
/// `NotDrained`.
pub fn loop_end_nowait(ring: &Ring, seat: &mut RingSeat) -> Reply
    requires ring { IsOnRing ring.now seat.old }
    ensures ends { EndsAtOnce Loop seat.old result seat.new }
    ensures stays { StaysSeat seat.old seat.new }
{
    end_nowait(ring, seat, Construct::Loop)
}

/// Leaves the member's sections, which have no barrier at their end.
///
/// Refused with `OutsideShare`, `EndDiffers` or `NotDrained`.
pub fn sections_end_nowait(ring: &Ring, seat: &mut RingSeat) -> Reply
    requires ring { IsOnRing ring.now seat.old }
    ensures ends { EndsAtOnce Sections seat.old result seat.new }
    ensures stays { StaysSeat seat.old seat.new }
{
    end_nowait(ring, seat, Construct::Sections)
}

/// Leaves the member's loop or sections, which has no barrier at its end.
pub(crate) fn end_nowait(ring: &Ring, seat: &mut RingSeat, construct: Construct) -> Reply
    requires ring { IsOnRing ring.now seat.old }
    ensures ends { EndsAtOnce construct seat.old result seat.new }
    ensures stays { StaysSeat seat.old seat.new }
{
    match end_refusal(ring, seat, construct, EndKind::Nowait) {
        Some(refusal) => Reply::Refused(refusal),
        None => {
            leave_share(ring, seat);
            Reply::Finished
        }
    }
}

/// Why the member may not end its loop or sections by the call for this end kind: `OutsideShare`, `InOrdered`, `EndDiffers`, or
/// `NotDrained` if it was not answered that nothing is left, and the construct is not cancelled.
///
/// A member that may end it only since it is cancelled has seen that then. It has not left its share: [`leave_share`] does that.
pub fn end_refusal(
    ring: &Ring,
    seat: &mut RingSeat,
    construct: Construct,
    end_kind: EndKind,
) -> Option<Refusal>
    requires ring { IsOnRing ring.now seat.old }
    ensures finds { FindsEnd construct end_kind seat.old result seat.new }
    ensures ended { IfNone result (has_seen_end seat.new.seen ≡ true) }
    ensures place { IfNone result (CanLeave seat.new.members seat.new.member seat.new.seen) }
    ensures stays { StaysSeat seat.old seat.new }
{
    let seen = seat.seen();
    if let Some(refusal) = end_construct_refusal(&seen, construct, end_kind) {
        return Some(refusal);
    }
    if has_seen_end(&seen) || seat.see(ring) {
        return None;
    }
    Some(Refusal::NotDrained)
}

/// Leaves the member's share, as [`end_refusal`] lets it. One addition to the share's gate.
pub fn leave_share(ring: &Ring, seat: &mut RingSeat)
    requires ring { IsOnRing ring.now seat.old }
    requires place { CanLeave seat.old.members seat.old.member seat.old.seen }
    ensures leaves { LeavesShare seat.old seat.new }
    ensures stays { StaysSeat seat.old seat.new }
{
    seat.leave(ring);
}

/// Whether a member that sees this of its place was answered that nothing is left of its share, or has seen that the share is
/// cancelled.
pub(crate) fn has_seen_end(seen: &Seen) -> bool
    ensures { result ≡ has_seen_end seen.now }
{
    seen.drained || seen.leaving
}

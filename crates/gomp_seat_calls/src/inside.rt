//! The calls on the share that the member is in, as values (`InsideCall` of gomp_team_shares): which call it is is known at run time.
//!
//! OpenMP API 5.2, sections 11.3, 11.5, 15.10.2, 16.1 and 16.2.

ghost use Rattle.gomp_shares.specs.Admission.{all_end_tests};
ghost use Rattle.gomp_team_shares.specs.Inside.{inside_tests};
ghost use Rattle.gomp_ring.specs.RingSeats.{IsOnRing};
ghost use Rattle.gomp_seat_calls.specs.Stays.{FindsRefusal, StaysSeat};
ghost use Rattle.gomp_seat_calls.specs.Inside.{AnswersInsideBySeat};

use crate::cancels::{cancel_share, cancel_share_refusal, point_share};
use crate::ends::{end_nowait, has_seen_end};
use crate::next::{loop_next, sections_next};
use crate::parts::{ordered_end, ordered_end_refusal, ordered_start};
use gomp_ordered::admission::ordered_start_refusal;
use gomp_ring::{Ring, RingSeat};
use gomp_shares::Construct;
use gomp_shares::admission::{end_construct_refusal, next_refusal};
use gomp_team_shares::InsideCall;
use gomp_types::{EndKind, Refusal, Reply};

/// Answers a call on the share that the member is in.
#[inline(always)]
pub fn call_inside(ring: &Ring, seat: &mut RingSeat, call: &InsideCall) -> Reply
    requires ring { IsOnRing ring.now seat.old }
    ensures answers { AnswersInsideBySeat call.now seat.old result seat.new }
    ensures stays { StaysSeat seat.old seat.new }
{
    match call {
        InsideCall::Next(Construct::Loop) => loop_next(ring, seat),
        InsideCall::Next(Construct::Sections) => sections_next(ring, seat),
        InsideCall::EndNowait(construct) => end_nowait(ring, seat, *construct),
        InsideCall::BeginPart(value) => ordered_start(ring, seat, *value),
        InsideCall::EndPart => ordered_end(ring, seat),
        InsideCall::Cancel {
            construct,
            clause: true,
            allowed,
        } => cancel_share(ring, seat, *construct, *allowed),
        InsideCall::Cancel {
            construct,
            clause: false,
            allowed,
        } => point_share(ring, seat, *construct, *allowed),
    }
}

/// Why [`call_inside`] would refuse the call at this moment; nothing changes.
///
/// A caller compares it with refusals of its own. All but `NotDrained` are the member's own, which no other member changes;
/// `NotDrained` may be over at the next moment, since the share is cancelled then.
pub fn call_inside_refusal(ring: &Ring, seat: &mut RingSeat, call: &InsideCall) -> Option<Refusal>
    requires ring { IsOnRing ring.now seat.old }
    ensures finds { FindsRefusal (inside_tests call.now) seat.old result seat.new }
{
    match call {
        InsideCall::Next(construct) => next_refusal(&seat.seen(), *construct),
        InsideCall::EndNowait(construct) => {
            ask_end_refusal(ring, seat, *construct, EndKind::Nowait)
        }
        InsideCall::BeginPart(value) => ordered_start_refusal(&seat.seen(), *value),
        InsideCall::EndPart => ordered_end_refusal(seat),
        InsideCall::Cancel { construct, .. } => cancel_share_refusal(seat, *construct),
    }
}

/// Why the member may not end its loop or sections by the call for this end kind at this moment, as
/// [`end_refusal`](crate::end_refusal) says; but nothing changes: the member does not see that its share is cancelled.
pub fn ask_end_refusal(
    ring: &Ring,
    seat: &mut RingSeat,
    construct: Construct,
    end_kind: EndKind,
) -> Option<Refusal>
    requires ring { IsOnRing ring.now seat.old }
    ensures finds { FindsRefusal (all_end_tests construct end_kind) seat.old result seat.new }
{
    let seen = seat.seen();
    if let Some(refusal) = end_construct_refusal(&seen, construct, end_kind) {
        return Some(refusal);
    }
    if has_seen_end(&seen) {
        return None;
    }
    if seat.cancelled(ring) {
        return None;
    }
    Some(Refusal::NotDrained)
}

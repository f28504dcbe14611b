//! The cancel and cancellation point constructs that name the member's loop or sections.
//!
//! OpenMP API 5.2, sections 16.1 and 16.2; libgomp's `GOMP_cancel` and `GOMP_cancellation_point`.

ghost use Rattle.std.specs.Prelude.{◌≡◌, true, false, None};
ghost use Rattle.gomp_types.specs.Least.{least};
ghost use Rattle.gomp_shares.specs.Cancels.{cancel_place_tests};
ghost use Rattle.gomp_team_shares.specs.Inside.{construct_kind};
ghost use Rattle.gomp_shares.specs.Calls.{CanCancel, CanSee};
ghost use Rattle.gomp_ring.specs.RingSeats.{IsLawfulSeat, IsOnRing};
ghost use Rattle.gomp_seat_calls.specs.Stays.{StaysSeat};
ghost use Rattle.gomp_seat_calls.specs.Cancels.{AnswersCancel};

use gomp_ring::{Ring, RingSeat};
use gomp_shares::Construct;
use gomp_types::{CancelKind, Refusal, Reply};

/// A `cancel` construct with a true clause that names the member's loop or sections: the construct is cancelled, and the member has
/// seen that. Answers `Cancelling(true)`, or `Cancelling(false)` if the control variable `cancel-var` does not allow cancellation
/// (`allowed`); then nothing is cancelled. One bit of the share's gate is set, and one load.
///
/// Refused with `OutsideShare` if the member is in no such construct, or with `NotCancellable`.
pub fn cancel_share(ring: &Ring, seat: &mut RingSeat, construct: Construct, allowed: bool) -> Reply
    requires ring { IsOnRing ring.now seat.old }
    ensures answers { AnswersCancel construct allowed true seat.old result seat.new }
    ensures stays { StaysSeat seat.old seat.new }
{
    if let Some(refusal) = cancel_share_refusal(seat, construct) {
        return Reply::Refused(refusal);
    }
    if !allowed {
        return Reply::Cancelling(false);
    }
    seat.cancel(ring);
    Reply::Cancelling(seat.see(ring))
}

/// A cancellation point that names the member's loop or sections, or a `cancel` construct with a false clause: whether the construct
/// is cancelled; if it is, the member has seen that. `Cancelling(false)` if `cancel-var` does not allow cancellation. One load.
///
/// Refused as [`cancel_share`] is.
pub fn point_share(ring: &Ring, seat: &mut RingSeat, construct: Construct, allowed: bool) -> Reply
    requires ring { IsOnRing ring.now seat.old }
    ensures answers { AnswersCancel construct allowed false seat.old result seat.new }
    ensures stays { StaysSeat seat.old seat.new }
{
    if let Some(refusal) = cancel_share_refusal(seat, construct) {
        return Reply::Refused(refusal);
    }
    Reply::Cancelling(allowed && seat.see(ring))
}

/// Why the member may not cancel such a construct, nor ask whether it is cancelled: `OutsideShare` or `NotCancellable`.
pub(crate) fn cancel_share_refusal(seat: &RingSeat, construct: Construct) -> Option<Refusal>
    ensures least { result ≡
        least (cancel_place_tests (construct_kind construct) seat.now.seen) }
    ensures cancels { result ≡ None →
        CanCancel seat.now.members seat.now.member seat.now.seen }
    ensures sees { result ≡ None → CanSee seat.now.members seat.now.member seat.now.seen }
    ensures stands { IsLawfulSeat seat.now }
{
    gomp_shares::admission::cancel_share_refusal(&seat.seen(), construct_kind(construct))
}

/// What a construct that cancels such a share names.
fn construct_kind(construct: Construct) -> CancelKind
    ensures { result ≡ construct_kind construct }
{
    match construct {
        Construct::Loop => CancelKind::Loop,
        Construct::Sections => CancelKind::Sections,
    }
}

//! The cancel and cancellation point constructs that name a loop or a sections construct, over any
//! body of the shares.
//!
//! OpenMP API 5.2, sections 16.1 and 16.2.

ghost use Rattle.std.specs.Prelude.{◌≡◌, List, false};
ghost use Rattle.gomp_events.specs.declared.event.Event.{Event};
ghost use Rattle.gomp_events.specs.Cancels.{own_cancelled};
ghost use Rattle.gomp_shares.specs.Calls.{CanSee, EachStands, seen_if};
ghost use Rattle.gomp_shares.specs.Cancels.{AnswersCancel, CanName, share_cancelled_by};
ghost use Rattle.gomp_shares.specs.Serves.{Serves};

use crate::Shares;
use gomp_types::{CancelKind, Reply};

/// The member sees that the loop or sections construct that it is in is cancelled, if it is: whether
/// it is. If not, nothing changes.
pub fn see_if_cancelled<S: Shares>(shares: &mut S, member: u16) -> bool
    requires place { CanSee (S.members shares.old) member (S.seen shares.old member) }
    ensures members { S.members shares.new ≡ S.members shares.old }
    ensures known { (h : List Event) × S.stands shares.old h }
    ensures answer { EachStands (S.stands shares.old) (λ h. result ≡ own_cancelled member h) }
    ensures stands { EachStands (S.stands shares.old) (λ h.
        S.stands shares.new (seen_if result member h)) }
    ensures kept { result ≡ false → shares.new ≡ shares.old }
{
    if !shares.cancelled(member) {
        return false;
    }
    shares.see(member);
    true
}

/// A `cancel` construct that names the member's loop or sections, with the value of its clause; a
/// cancellation point is one whose clause is false. Its member's own tests let it
/// ([`cancel_share_refusal`](crate::admission::cancel_share_refusal)).
///
/// Answers `Cancelling`: whether the construct is cancelled, now or before; then the member has seen
/// that. If the control variable does not allow cancellation (`allowed`), nothing is cancelled, and
/// the answer is false.
pub fn cancel_share<S: Shares>(
    shares: &mut S,
    member: u16,
    kind: CancelKind,
    allowed: bool,
    clause: bool,
) -> Reply
    requires place { CanName (S.members shares.old) member kind (S.seen shares.old member) }
    ensures members { S.members shares.new ≡ S.members shares.old }
    ensures serves { Serves S.stands shares.old shares.new result
        (AnswersCancel allowed kind clause member) (share_cancelled_by kind clause member) }
{
    // Shows some events.
    let _place = shares.look(member);
    if !allowed {
        return Reply::Cancelling(false);
    }
    if clause {
        shares.cancel(member);
    }
    Reply::Cancelling(see_if_cancelled(shares, member))
}

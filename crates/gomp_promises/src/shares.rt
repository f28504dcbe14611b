//! One call on the shares of a team, of those that a list makes, and whether a member sees that its share is cancelled.

ghost use Rattle.std.specs.Prelude.{◌≡◌, ◌<◌, List, false};
ghost use Rattle.gomp_events.specs.declared.event.Event.{Event};
ghost use Rattle.gomp_events.specs.Cancels.{own_cancelled};
ghost use Rattle.gomp_shares.specs.Calls.{CanSee, EachStands, seen_if};
ghost use Rattle.gomp_shares.specs.declared.calls.ShareAnswer.TheVariants.{NotMade};
ghost use Rattle.gomp_shares.specs.Runs.{IsAnswer, events_answered};

use gomp_shares::{ShareAnswer, ShareStep, Shares};

/// Makes one call, if it may be made.
pub fn make_call<S: Shares>(shares: &mut S, count: u16, step: &ShareStep) -> ShareAnswer
    requires team { S.members shares.old ≡ count }
    ensures members { S.members shares.new ≡ count }
    ensures known { step.now.member < count → (h : List Event) × S.stands shares.old h }
    ensures kept { result ≡ NotMade → shares.new ≡ shares.old }
    ensures answer { EachStands (S.stands shares.old) (IsAnswer count step.now result) }
    ensures stands { EachStands (S.stands shares.old) (λ h.
        S.stands shares.new (events_answered count step.now result h)) }
{
    gomp_shares::make_call(shares, count, step)
}

/// Sees that the member's share is cancelled, if it is.
pub fn see_if_cancelled<S: Shares>(shares: &mut S, member: u16) -> bool
    requires place { CanSee (S.members shares.old) member (S.seen shares.old member) }
    ensures members { S.members shares.new ≡ S.members shares.old }
    ensures known { (h : List Event) × S.stands shares.old h }
    ensures answer { EachStands (S.stands shares.old) (λ h. result ≡ own_cancelled member h) }
    ensures stands { EachStands (S.stands shares.old) (λ h.
        S.stands shares.new (seen_if result member h)) }
    ensures kept { result ≡ false → shares.new ≡ shares.old }
{
    gomp_shares::cancels::see_if_cancelled(shares, member)
}

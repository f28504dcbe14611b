//! The ends of constructs: how a member leaves the share that it is in, over any body of the shares.
//!
//! OpenMP API 5.2, sections 11.3, 11.5 and 16.1.

ghost use Rattle.std.specs.Prelude.{◌≡◌, ◌<◌, ◌||◌, ◌++◌, List, true};
ghost use Rattle.gomp_events.specs.declared.event.Event.{Event};
ghost use Rattle.gomp_types.specs.Least.{least};
ghost use Rattle.gomp_shares.specs.Calls.{CanEnd, EachStands};
ghost use Rattle.gomp_shares.specs.Admission.{all_end_tests};
ghost use Rattle.gomp_shares.specs.Serves.{Ends, IsDone, Serves};
ghost use Rattle.gomp_shares.specs.Starts.{drained_tests, is_drained, leaves, left_at_once};

use crate::Shares;
use crate::admission::{Construct, end_construct_refusal};
use gomp_events::Seen;
use gomp_types::{EndKind, Refusal, Reply};

/// Whether a member that sees this of its place was told that nothing is left of its share, or has
/// seen that the share is cancelled.
fn has_seen_end(seen: &Seen) -> bool
    ensures { result ≡ (seen.now.drained || seen.now.leaving) }
{
    seen.drained || seen.leaving
}

/// Why a member that sees this of its place may not end its loop or sections, though its own tests
/// let it: `NotDrained` if it was not told that nothing is left, and the construct is not
/// cancelled. Nothing changes.
pub fn drained_refusal<S: Shares>(shares: &mut S, member: u16, seen: &Seen) -> Option<Refusal>
    requires member { member < S.members shares.old }
    requires seen { seen.now ≡ S.seen shares.old member }
    ensures answer { EachStands (S.stands shares.old) (λ h.
        result ≡ least (drained_tests member h)) }
    ensures kept { shares.new ≡ shares.old }
{
    if has_seen_end(seen) || shares.cancelled(member) {
        return None;
    }
    Some(Refusal::NotDrained)
}

/// Leaves the member's construct by the end call for this end kind.
///
/// Refused with `OutsideShare` if the member is in no such construct, with `InOrdered` if it is in
/// an ordered part, with `EndDiffers` if the construct has the other end kind, or with `NotDrained`
/// if the member was not told that nothing is left, and the construct is not cancelled.
pub fn end_construct<S: Shares>(
    shares: &mut S,
    member: u16,
    construct: Construct,
    end_kind: EndKind,
) -> Result<(), Refusal>
    requires member { member < S.members shares.old }
    ensures members { S.members shares.new ≡ S.members shares.old }
    ensures ends { Ends S.stands shares.old shares.new result
        (all_end_tests construct end_kind) member }
{
    let seen = shares.look(member);
    if let Some(refusal) = end_construct_refusal(&seen, construct, end_kind) {
        return Err(refusal);
    }
    if let Some(refusal) = drained_refusal(shares, member, &seen) {
        return Err(refusal);
    }
    end_construct_admitted(shares, member);
    Ok(())
}

/// Leaves the loop or sections of a member that may leave it, as its tests show ([`end_construct_refusal`] and
/// [`drained_refusal`]). A member that leaves it only since it is cancelled sees that first.
pub fn end_construct_admitted<S: Shares>(shares: &mut S, member: u16)
    requires place { CanEnd (S.members shares.old) member (S.seen shares.old member) }
    requires drained { EachStands (S.stands shares.old) (λ h. is_drained member h ≡ true) }
    ensures members { S.members shares.new ≡ S.members shares.old }
    ensures known { (h : List Event) × S.stands shares.old h }
    ensures stands { EachStands (S.stands shares.old) (λ h.
        S.stands shares.new (leaves member h ++ h)) }
{
    if !has_seen_end(&shares.look(member)) {
        shares.see(member);
    }
    shares.leave(member);
}

/// Leaves the member's loop or sections as [`end_construct_admitted`] does, and answers `Finished`: the end
/// of a construct without a barrier.
pub fn leave_at_once<S: Shares>(shares: &mut S, member: u16) -> Reply
    requires place { CanEnd (S.members shares.old) member (S.seen shares.old member) }
    requires drained { EachStands (S.stands shares.old) (λ h. is_drained member h ≡ true) }
    ensures members { S.members shares.new ≡ S.members shares.old }
    ensures serves { Serves S.stands shares.old shares.new result IsDone (left_at_once member) }
{
    end_construct_admitted(shares, member);
    Reply::Finished
}

//! A list of calls on the work-shares of a team, whatever body they have: what it keeps is the
//! contract of one function.

ghost use Rattle.std.specs.Prelude.{◌≡◌, ◌<◌, List, [], length, IfOk, Some, vec_len};
ghost use Rattle.gomp_events.specs.declared.event.Event.{Event};
ghost use Rattle.gomp_types.specs.Deals.{schedule};
ghost use Rattle.gomp_types.specs.Limits.{IsTeamSize};
ghost use Rattle.gomp_shares.specs.Laws.{OrderedLaws, ShareLaws};
ghost use Rattle.gomp_events.specs.Ordered.{is_ordered, is_in_rest};
ghost use Rattle.gomp_events.specs.Cancels.{may_be_cancelled};
ghost use Rattle.gomp_shares.specs.Calls.{EachStands, in_construct, is_done, is_free_construct};
ghost use Rattle.gomp_shares.specs.declared.calls.ShareAnswer.TheVariants.{NotMade};
ghost use Rattle.gomp_shares.specs.Runs.{may_make, IsAnswer, events_answered, AreAnswers, events_of_run};

use crate::admission::is_in_rest;
use crate::cancels::see_if_cancelled;
use crate::{Opening, Shares};
use gomp_events::Seen;
use gomp_types::{EndKind, LoopDesc, MAX_SECTIONS, ShareKind, sections_shape, single_shape};
use std::alloc::{AllocError, Global};

/// One call of a member on its shares.
#[derive(Clone, Copy, Debug, PartialEq, Eq)]
pub enum ShareCall {
    /// Enters the next share, for this loop.
    Open(LoopDesc),
    /// Enters the next share, for this sections construct.
    OpenSections { count: u32, end_kind: EndKind },
    /// Enters the next share, for a `single` construct, with words for the others or without.
    OpenSingle { copies: bool },
    /// Takes a piece: of a loop some iterations, of a sections construct a section, and of a
    /// `single` the whole.
    Claim,
    /// Leaves the share.
    Leave,
    /// Begins the ordered part of this iteration.
    Begin(u64),
    /// Ends the ordered part.
    EndPart,
    /// Hands the piece of an ordered loop on.
    HandOn,
    /// Cancels the share, which its end kind allows.
    Cancel,
    /// Sees that the loop or sections construct is cancelled, if it is.
    See,
}

/// A call with the member that makes it.
#[derive(Clone, Copy, Debug, PartialEq, Eq)]
pub struct ShareStep {
    /// The member's number, from 0.
    pub member: u16,
    /// What it asks.
    pub call: ShareCall,
}

/// The answer to one call.
#[derive(Clone, Copy, Debug, PartialEq, Eq)]
pub enum ShareAnswer {
    /// To the calls that enter.
    Opened(Opening),
    /// To `Claim`: the first iteration and the one after the last, or none. Sections count as
    /// iterations, from 0, and a `single` as one.
    Claimed(Option<(u64, u64)>),
    /// To `Leave`.
    Left,
    /// To `Begin` and `HandOn`: whether every piece before the member's was handed on, and its own
    /// was not, and so it did.
    Turned(bool),
    /// To `EndPart`.
    Ended,
    /// To `Cancel`.
    Cancelled,
    /// To `See`: whether the construct is cancelled, and so the member saw that.
    Saw(bool),
    /// The call was not made, since its premise does not hold.
    NotMade,
}

/// Makes one call on the shares of a team of `count` members if it may be made, which `look`
/// tells.
pub fn make_call<S: Shares>(shares: &mut S, count: u16, step: &ShareStep) -> ShareAnswer
    requires team { S.members shares.old ≡ count }
    ensures members { S.members shares.new ≡ count }
    ensures known { step.now.member < count → (h : List Event) × S.stands shares.old h }
    ensures kept { result ≡ NotMade → shares.new ≡ shares.old }
    ensures answer { EachStands (S.stands shares.old) (IsAnswer count step.now result) }
    ensures stands { EachStands (S.stands shares.old) (λ h.
        S.stands shares.new (events_answered count step.now result h)) }
{
    let member = step.member;
    if member >= count {
        return ShareAnswer::NotMade;
    }
    if !may_make(&shares.look(member), &step.call) {
        return ShareAnswer::NotMade;
    }
    match step.call {
        ShareCall::Open(desc) => {
            let Ok(shape) = desc.shape() else {
                return ShareAnswer::NotMade;
            };
            ShareAnswer::Opened(shares.try_open(member, &shape))
        }
        ShareCall::OpenSections { count, end_kind } => {
            let Ok(shape) = sections_shape(count, end_kind) else {
                return ShareAnswer::NotMade;
            };
            ShareAnswer::Opened(shares.try_open(member, &shape))
        }
        ShareCall::OpenSingle { copies } => {
            ShareAnswer::Opened(shares.try_open(member, &single_shape(copies)))
        }
        ShareCall::Claim => ShareAnswer::Claimed(shares.claim(member)),
        ShareCall::Leave => {
            shares.leave(member);
            ShareAnswer::Left
        }
        ShareCall::Begin(iteration) => ShareAnswer::Turned(shares.try_turn(member, iteration)),
        ShareCall::EndPart => {
            shares.end_part(member);
            ShareAnswer::Ended
        }
        ShareCall::HandOn => ShareAnswer::Turned(shares.hand_on(member)),
        ShareCall::Cancel => {
            shares.cancel(member);
            ShareAnswer::Cancelled
        }
        ShareCall::See => ShareAnswer::Saw(see_if_cancelled(shares, member)),
    }
}

/// How many shares a member can enter (own).
const MOST_SHARES: u64 = 1 << 48;

/// Whether a member that sees this of its place may make the call.
#[tactic(auto, using(crate::proofs::CallRuns::outcome_is_ok))]
fn may_make(seen: &Seen, call: &ShareCall) -> bool
    ensures { result ≡ may_make seen.now call.now }
{
    let enters = seen.current.is_none() && seen.entered < MOST_SHARES;
    match call {
        ShareCall::Open(desc) => {
            let is_loop = desc.shape().is_ok();
            enters && is_loop
        }
        ShareCall::OpenSections { count, .. } => enters && *count <= MAX_SECTIONS,
        ShareCall::OpenSingle { .. } => enters,
        ShareCall::Claim => seen.current.is_some() && !seen.drained && !seen.in_part,
        ShareCall::Leave => seen.current.is_some() && is_free(seen) && !seen.in_part,
        ShareCall::Begin(iteration) => {
            is_ordered(seen) && !seen.in_part && is_in_rest(seen, *iteration)
        }
        ShareCall::EndPart => seen.in_part,
        ShareCall::HandOn => is_ordered(seen) && !seen.in_part,
        ShareCall::Cancel => may_be_cancelled(seen),
        ShareCall::See => is_in_construct(seen),
    }
}

/// Whether a member that sees this of its place is in a share that may be cancelled.
fn may_be_cancelled(seen: &Seen) -> bool
    ensures { result ≡ may_be_cancelled seen.now.current }
{
    let Some((_, shape)) = seen.current else {
        return false;
    };
    matches!(shape.end_kind, EndKind::Cancellable)
}

/// Whether it is in a loop or in sections.
fn is_in_construct(seen: &Seen) -> bool
    ensures { result ≡ in_construct seen.now.current }
{
    let Some((_, shape)) = seen.current else {
        return false;
    };
    shape.kind.is_loop() || matches!(shape.kind, ShareKind::Sections)
}

/// Whether it may leave its share, if it is in no ordered part of it.
fn is_free(seen: &Seen) -> bool
    ensures { result ≡ is_free_construct seen.now }
{
    is_done(seen) || seen.leaving
}

/// Whether a member that sees this of its place is in an ordered loop.
fn is_ordered(seen: &Seen) -> bool
    ensures { result ≡ is_ordered seen.now.current }
{
    let Some((_, shape)) = seen.current else {
        return false;
    };
    shape.ordered
}

/// Whether nothing is left for a member that sees this of its place.
fn is_done(seen: &Seen) -> bool
    ensures { result ≡ is_done seen.now }
{
    let Some((_, shape)) = seen.current else {
        return seen.drained;
    };
    seen.drained || shape.kind.is_single() && seen.piece.is_some()
}

/// Makes these calls, in order, on the shares of a new team of `count` members, 1 to 64, and gives
/// an answer for each. Calls of members that the team does not have are not made.
///
/// Whatever the body `S` and whatever the calls: no iteration, section or `single` is taken twice,
/// a share that every member left, and that nobody cancelled, had each of its own taken, ordered
/// parts of a loop run in the order of its iterations, all members go through the same shares, and
/// no more than eight are open. Only a share whose end kind allows it is cancelled, by a member that
/// is in it.
pub fn make_calls<S: Shares>(
    alloc: Global,
    count: u16,
    steps: &[ShareStep],
) -> Result<(S, Vec<ShareAnswer>), AllocError>
    requires team { IsTeamSize count }
    ensures members { IfOk result (λ made. S.members made.0 ≡ count) }
    ensures each { IfOk result (λ made. vec_len made.1 ≡ length steps.now) }
    ensures answers { IfOk result (λ made. AreAnswers count steps.now made.1.items []) }
    ensures stands { IfOk result (λ made.
        S.stands made.0 (events_of_run count steps.now made.1.items [])) }
    ensures laws { IfOk result (λ made.
        ShareLaws (schedule count) count (events_of_run count steps.now made.1.items [])) }
    ensures ordered { IfOk result (λ made.
        OrderedLaws count (events_of_run count steps.now made.1.items [])) }
{
    let mut answers = Vec::with_capacity(alloc, steps.len())?;
    let mut shares = S::make(alloc, count)?;
    for step in steps {
        answers.push_reserved(make_call(&mut shares, count, step));
    }
    Ok((shares, answers))
}

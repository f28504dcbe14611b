//! The calls of libgomp's `single`, without words for the other members and with them, over any body
//! of the shares.
//!
//! OpenMP API 5.2, sections 11.1 and 5.7.2 (the `copyprivate` clause).

ghost use Rattle.std.specs.Prelude.{◌≡◌, ◌<◌, ◌↔◌, [], Some, true, false, option_copied};
ghost use Rattle.gomp_types.specs.declared.reply.Reply.TheVariants.{Refused};
ghost use Rattle.gomp_types.specs.declared.refusal.Refusal.{Refusal};
ghost use Rattle.gomp_types.specs.Least.{least};
ghost use Rattle.gomp_types.specs.Singles.{single_shape};
ghost use Rattle.gomp_shares.specs.Calls.{CanOpen, EachStands};
ghost use Rattle.gomp_shares.specs.Serves.{LeavesConstruct, Serves};
ghost use Rattle.gomp_shares.specs.Starts.{AnswersBegin, compared_share, share_tests};
ghost use Rattle.gomp_shares.specs.Singles.{AnswersSingle, ByWords, DealsCopy, DealsSingle, single_started, AnswersCopy, copy_started, put_tests};

use crate::admission::single_copy_end_refusal;
use gomp_shares::admission::outside_refusal;
use gomp_shares::{Opening, Shares};
use gomp_types::{Limits, Payload, Refusal, Reply, single_shape};

/// The member goes through a `single`: it enters its next share, executes it if nobody else does,
/// and has left it. The body has no end call, and a barrier at its end is a call of its own.
///
/// `Wait` if some member has not left the share eight before, and nothing is entered. Refused with
/// `InsideShare`, `TooManyShares`, or with `Mismatch` if the team's share of this number is
/// another construct.
pub fn single_start<S: Shares>(shares: &mut S, member: u16, limits: &Limits) -> Reply
    requires member { member < S.members shares.old }
    ensures members { S.members shares.new ≡ S.members shares.old }
    ensures serves { Serves S.stands shares.old shares.new result
        (AnswersSingle limits.now (S.members shares.old) member) (single_started member) }
{
    match outside_refusal(&shares.look(member), limits) {
        Some(refusal) => Reply::Refused(refusal),
        None => single_start_admitted(shares, member),
    }
}

/// The member goes through a `single`, which its own tests let it start
/// (`gomp_shares::admission::outside_refusal`).
///
/// `Wait` and `Mismatch` as [`single_start`] has them.
pub fn single_start_admitted<S: Shares>(shares: &mut S, member: u16) -> Reply
    requires place { CanOpen (S.members shares.old) member
        (single_shape false) (S.seen shares.old member) }
    ensures members { S.members shares.new ≡ S.members shares.old }
    ensures serves { Serves S.stands shares.old shares.new result
        (AnswersBegin (single_shape false) DealsSingle (S.members shares.old) member)
        (single_started member) }
{
    match shares.try_open(member, &single_shape(false)) {
        // Compared before, too: since then another member may have opened the share.
        Opening::Differs => Reply::Refused(Refusal::Mismatch),
        Opening::NotYet => Reply::Wait,
        Opening::Entered => {
            let executes = shares.claim(member).is_some();
            shares.leave(member);
            Reply::Executor(executes)
        }
    }
}

/// The member comes to a `single` with words for the others: it executes it if nobody else does,
/// and is in it until [`single_copy_end`]; else it is given the words that the executor put, and has
/// then left it.
///
/// `put` is what the executor of the member's next share put, None while nobody has; whether the call
/// is refused does not depend on it. `Wait` if some member has not left the share eight before, or
/// another member executes and has put no words; nothing is entered then. Refused with
/// `InsideShare`, `TooManyShares`, or with `Mismatch` if the team's share of this number is another
/// construct.
pub fn single_copy_start<S: Shares>(
    shares: &mut S,
    member: u16,
    limits: &Limits,
    put: Option<&Payload>,
) -> Reply
    requires member { member < S.members shares.old }
    ensures members { S.members shares.new ≡ S.members shares.old }
    ensures refused { (refusal : Refusal) → EachStands (S.stands shares.old) (λ h.
        result ≡ Refused refusal ↔
        least (share_tests [] (single_shape true) limits.now member h) ≡ Some refusal) }
    ensures serves { Serves S.stands shares.old shares.new result (ByWords (option_copied put.entry)
        member (AnswersCopy limits.now (S.members shares.old) member))
        (copy_started member) }
{
    match outside_refusal(&shares.look(member), limits) {
        Some(refusal) => Reply::Refused(refusal),
        None => single_copy_start_admitted(shares, member, put),
    }
}

/// The member comes to a `single` with words for the others, which its own tests let it start
/// (`gomp_shares::admission::outside_refusal`).
///
/// `put`, `Wait` and `Mismatch` as [`single_copy_start`] has them.
pub fn single_copy_start_admitted<S: Shares>(
    shares: &mut S,
    member: u16,
    put: Option<&Payload>,
) -> Reply
    requires place { CanOpen (S.members shares.old) member
        (single_shape true) (S.seen shares.old member) }
    ensures members { S.members shares.new ≡ S.members shares.old }
    ensures refused { (refusal : Refusal) → EachStands (S.stands shares.old) (λ h.
        result ≡ Refused refusal ↔
        least (compared_share (single_shape true) member h) ≡ Some refusal) }
    ensures serves { Serves S.stands shares.old shares.new result (ByWords (option_copied put.entry)
        member (AnswersBegin (single_shape true) DealsCopy (S.members shares.old) member))
        (copy_started member) }
{
    let shape = single_shape(true);
    // Compared before, too: since then another member may have opened the share.
    if shares.next_differs(member, &shape) {
        return Reply::Refused(Refusal::Mismatch);
    }
    if put.is_none() && shares.next_is_taken(member) {
        return Reply::Wait;
    }
    match shares.try_open(member, &shape) {
        // The shapes were compared above.
        Opening::Differs => unreachable!(),
        Opening::NotYet => Reply::Wait,
        Opening::Entered => {
            if shares.claim(member).is_some() {
                return Reply::Executor(true);
            }
            shares.leave(member);
            match put {
                Some(words) => Reply::Copied(words.copied()),
                // Nobody took the piece, so this member did.
                None => unreachable!(),
            }
        }
    }
}

/// The executor of a `single` leaves it; the caller keeps the words that it puts.
///
/// Refused with `NotInside` if the member does not execute a `single` with words.
pub fn single_copy_end<S: Shares>(shares: &mut S, member: u16) -> Result<(), Refusal>
    requires member { member < S.members shares.old }
    ensures members { S.members shares.new ≡ S.members shares.old }
    ensures leaves { LeavesConstruct S.stands shares.old shares.new result put_tests member }
{
    let seen = shares.look(member);
    if let Some(refusal) = single_copy_end_refusal(&seen) {
        return Err(refusal);
    }
    shares.leave(member);
    Ok(())
}

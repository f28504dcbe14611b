//! The calls of libgomp's loops, over any body of the shares.

ghost use Rattle.std.specs.Prelude.{◌≡◌, ◌<◌, None};
ghost use Rattle.gomp_types.specs.declared.loop_desc.EndKind.TheVariants.{Wait as WaitEnd, Nowait, Cancellable};
ghost use Rattle.gomp_types.specs.Least.{least};
ghost use Rattle.gomp_shares.specs.declared.admission.Construct.TheVariants.{Loop as AnyLoop};
ghost use Rattle.gomp_shares.specs.Admission.{all_end_tests};
ghost use Rattle.gomp_shares.specs.Calls.{CanOpen};
ghost use Rattle.gomp_shares.specs.Serves.{Ends, Serves};
ghost use Rattle.gomp_shares.specs.Starts.{AnswersBegin, left_at_once};
ghost use Rattle.gomp_shares.specs.Loops.{AnswersLoopStart, DealsOut, AnswersTake, loop_begun, loop_started, AnswersLoopNext, loop_next_taken, AnswersLoopEnd, next_tests};

use crate::admission::{loop_start_shape, piece_reply};
use gomp_shares::admission::next_refusal;
use gomp_shares::ends::end_construct;
use gomp_shares::{Construct, Opening, Shares};
use gomp_types::{EndKind, Limits, LoopDesc, Refusal, Reply, Shape};

/// Enters the member's next share for this loop, and answers the first chunk for it: of the pieces
/// that are its to take, the least one that nobody took. `NoChunk` if there is none; the member is
/// in the share all the same, and may end it.
///
/// The loop's schedule is the one that counts: one that is still left to the control variables
/// counts as dynamic.
///
/// `Wait` if some member has not left the share eight before, and nothing is entered: the caller
/// asks again. Refused with `InsideShare`, `ZeroStep`, `BadChunk`, `LoopTooLong`,
/// `TooManyShares`, or with `Mismatch` if the team's share of this number is of another shape.
pub fn loop_start<S: Shares>(shares: &mut S, member: u16, limits: &Limits, desc: &LoopDesc) -> Reply
    requires member { member < S.members shares.old }
    ensures members { S.members shares.new ≡ S.members shares.old }
    ensures serves { Serves S.stands shares.old shares.new result
        (AnswersLoopStart desc.now limits.now (S.members shares.old) member)
        (loop_started desc.now member) }
{
    match loop_start_shape(&shares.look(member), limits, desc) {
        Ok(shape) => loop_start_admitted(shares, member, &shape),
        Err(refusal) => Reply::Refused(refusal),
    }
}

/// Enters the member's next share for a loop of this shape, which its own tests let it start
/// ([`loop_start_shape`]), and answers the first chunk for it.
///
/// `Wait` and `Mismatch` as [`loop_start`] has them.
pub fn loop_start_admitted<S: Shares>(shares: &mut S, member: u16, shape: &Shape) -> Reply
    requires place { CanOpen (S.members shares.old) member shape.now (S.seen shares.old member) }
    ensures members { S.members shares.new ≡ S.members shares.old }
    ensures serves { Serves S.stands shares.old shares.new result
        (AnswersBegin shape.now DealsOut (S.members shares.old) member)
        (loop_begun shape.now member) }
{
    match shares.try_open(member, shape) {
        // Compared before, too: since then another member may have opened the share.
        Opening::Differs => Reply::Refused(Refusal::Mismatch),
        Opening::NotYet => Reply::Wait,
        Opening::Entered => piece_reply(shape, shares.claim(member)),
    }
}

/// Answers the next chunk of the member's loop, `NoChunk` if none is left for it: then it may end
/// the loop, and not ask again. Of an ordered loop the member's piece is handed on first.
///
/// `Wait` if the loop is ordered and some piece before the member's was not handed on, and nothing
/// is handed on or taken: the caller asks again. Refused with `OutsideShare` if
/// the member is in no loop, though it may be in sections, with `InOrdered` if it is in an ordered
/// part, or with `Drained`.
pub fn loop_next<S: Shares>(shares: &mut S, member: u16) -> Reply
    requires member { member < S.members shares.old }
    ensures members { S.members shares.new ≡ S.members shares.old }
    ensures serves { Serves S.stands shares.old shares.new result
        (AnswersLoopNext (S.members shares.old) member)
        (loop_next_taken (S.members shares.old) member) }
{
    match next_refusal(&shares.look(member), Construct::Loop) {
        Some(refusal) => Reply::Refused(refusal),
        None => loop_next_admitted(shares, member),
    }
}

/// Answers the next chunk of the member's loop, which its own tests let it ask for
/// (`gomp_shares::admission::next_refusal`).
///
/// `Wait` as [`loop_next`] has it.
#[inline(always)]
pub fn loop_next_admitted<S: Shares>(shares: &mut S, member: u16) -> Reply
    requires member { member < S.members shares.old }
    requires place { least (next_tests (S.seen shares.old member)) ≡ None }
    ensures members { S.members shares.new ≡ S.members shares.old }
    ensures serves { Serves S.stands shares.old shares.new result
        (AnswersTake (S.members shares.old) member)
        (loop_next_taken (S.members shares.old) member) }
{
    // Its tests have seen the share, and hand nothing on: a member in none is refused there.
    let Some((_, shape)) = shares.look(member).current else {
        unreachable!()
    };
    if shape.ordered && !shares.hand_on(member) {
        return Reply::Wait;
    }
    piece_reply(&shape, shares.claim(member))
}

/// Leaves the member's loop, at the end of which a barrier stands. The member has still to arrive
/// there, so the answer is not a reply yet.
///
/// A caller that compares the arrival with those of other members does so before, since a `Mismatch`
/// leaves the member in its loop.
///
/// Refused with `OutsideShare` if the member is in no loop, though it may be in sections, with
/// `InOrdered`, `EndDiffers` or `NotDrained`.
pub fn loop_end<S: Shares>(shares: &mut S, member: u16) -> Result<(), Refusal>
    requires member { member < S.members shares.old }
    ensures members { S.members shares.new ≡ S.members shares.old }
    ensures ends { Ends S.stands shares.old shares.new result
        (all_end_tests AnyLoop WaitEnd) member }
{
    end_construct(shares, member, Construct::Loop, EndKind::Wait)
}

/// Leaves the member's loop, which may be cancelled, and at the end of which a barrier stands, as
/// [`loop_end`] does (OpenMP API 5.2, section 16.1; libgomp's `GOMP_loop_end_cancel`).
///
/// Refused as [`loop_end`] is, but that `NotDrained` does not come if the loop is cancelled: then the
/// member sees that.
pub fn loop_end_cancel<S: Shares>(shares: &mut S, member: u16) -> Result<(), Refusal>
    requires member { member < S.members shares.old }
    ensures members { S.members shares.new ≡ S.members shares.old }
    ensures ends { Ends S.stands shares.old shares.new result
        (all_end_tests AnyLoop Cancellable) member }
{
    end_construct(shares, member, Construct::Loop, EndKind::Cancellable)
}

/// Leaves the member's loop, which has no barrier at its end.
///
/// Refused with `OutsideShare` if the member is in no loop, though it may be in sections, with
/// `InOrdered`, `EndDiffers` or `NotDrained`.
pub fn loop_end_nowait<S: Shares>(shares: &mut S, member: u16) -> Reply
    requires member { member < S.members shares.old }
    ensures members { S.members shares.new ≡ S.members shares.old }
    ensures serves { Serves S.stands shares.old shares.new result
        (AnswersLoopEnd Nowait member) (left_at_once member) }
{
    match end_construct(shares, member, Construct::Loop, EndKind::Nowait) {
        Ok(()) => Reply::Finished,
        Err(refusal) => Reply::Refused(refusal),
    }
}

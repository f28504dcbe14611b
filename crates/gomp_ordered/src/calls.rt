//! The calls of libgomp's ordered parts, over any body of the shares.

ghost use Rattle.std.specs.Prelude.{◌≡◌, ◌<◌, None};
ghost use Rattle.gomp_types.specs.Least.{least};
ghost use Rattle.gomp_shares.specs.Serves.{IsDone, Serves};
ghost use Rattle.gomp_shares.specs.OrderedParts.{AnswersPart, BeginsOwnPart, part_started, part_tests, AnswersPartEnd, part_end_tests, part_ended_at_once};

use crate::admission::ordered_start_refusal;
use gomp_shares::Shares;
use gomp_types::{Refusal, Reply};

/// Begins the ordered part of the iteration with this value.
///
/// `Wait` if some piece before the member's was not handed on, and nothing is begun: the caller
/// asks again. Refused with `OutsideShare` if the member is in no loop, `InOrdered` if it is in an
/// ordered part, `NotOrdered` if its loop has no `ordered` clause, and `OrderedBackwards` if no
/// iteration of its last piece has this value, or its part is not after the last one.
pub fn ordered_start<S: Shares>(shares: &mut S, member: u16, value: i64) -> Reply
    requires member { member < S.members shares.old }
    ensures members { S.members shares.new ≡ S.members shares.old }
    ensures serves { Serves S.stands shares.old shares.new result
        (AnswersPart (S.members shares.old) value member) (part_started value member) }
{
    match ordered_start_refusal(&shares.look(member), value) {
        Some(refusal) => Reply::Refused(refusal),
        None => ordered_start_admitted(shares, member, value),
    }
}

/// Begins the ordered part of the iteration with this value, which the member's own tests let it
/// begin ([`ordered_start_refusal`]).
///
/// `Wait` as [`ordered_start`] has it.
pub fn ordered_start_admitted<S: Shares>(shares: &mut S, member: u16, value: i64) -> Reply
    requires member { member < S.members shares.old }
    requires place { least (part_tests value (S.seen shares.old member)) ≡ None }
    ensures members { S.members shares.new ≡ S.members shares.old }
    ensures serves { Serves S.stands shares.old shares.new result
        (BeginsOwnPart (S.members shares.old) member) (part_started value member) }
{
    let Some((_, shape)) = shares.look(member).current else {
        unreachable!()
    };
    let Some(iteration) = shape.iteration_of(value) else {
        unreachable!()
    };
    if shares.try_turn(member, iteration) {
        Reply::Finished
    } else {
        Reply::Wait
    }
}

/// Ends the member's ordered part.
///
/// Refused with `NotInside` if it is in none.
pub fn ordered_end<S: Shares>(shares: &mut S, member: u16) -> Reply
    requires member { member < S.members shares.old }
    ensures members { S.members shares.new ≡ S.members shares.old }
    ensures serves { Serves S.stands shares.old shares.new result
        (AnswersPartEnd member) (part_ended_at_once member) }
{
    if !shares.look(member).in_part {
        return Reply::Refused(Refusal::NotInside);
    }
    ordered_end_admitted(shares, member)
}

/// Ends the ordered part that the member is in, as its own test shows.
pub fn ordered_end_admitted<S: Shares>(shares: &mut S, member: u16) -> Reply
    requires member { member < S.members shares.old }
    requires place { least (part_end_tests (S.seen shares.old member)) ≡ None }
    ensures members { S.members shares.new ≡ S.members shares.old }
    ensures serves { Serves S.stands shares.old shares.new result
        IsDone (part_ended_at_once member) }
{
    shares.end_part(member);
    Reply::Finished
}

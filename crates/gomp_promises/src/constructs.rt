//! The calls on the shares that make their own tests: a team tests before it asks.

ghost use Rattle.std.specs.Prelude.{◌≡◌, ◌<◌, ◌↔◌, [], Some, true, option_copied};
ghost use Rattle.gomp_types.specs.declared.loop_desc.EndKind.TheVariants.{Wait as WaitEnd, Nowait, Cancellable};
ghost use Rattle.gomp_types.specs.Least.{least};
ghost use Rattle.gomp_shares.specs.declared.admission.Construct.TheVariants.{Loop as AnyLoop, Sections as AnySections};
ghost use Rattle.gomp_shares.specs.Admission.{all_end_tests};
ghost use Rattle.gomp_shares.specs.Calls.{EachStands};
ghost use Rattle.gomp_shares.specs.Serves.{Ends, Serves, LeavesConstruct};
ghost use Rattle.gomp_shares.specs.Starts.{left_at_once, share_tests};
ghost use Rattle.gomp_shares.specs.Loops.{AnswersLoopStart, loop_started, AnswersLoopNext, loop_next_taken, AnswersLoopEnd};
ghost use Rattle.gomp_shares.specs.Sections.{AnswersSectionsStart, sections_started, AnswersSectionsNext, section_next_taken, AnswersSectionsEnd};
ghost use Rattle.gomp_types.specs.declared.reply.Reply.TheVariants.{Refused};
ghost use Rattle.gomp_types.specs.declared.refusal.Refusal.{Refusal};
ghost use Rattle.gomp_types.specs.Singles.{single_shape};
ghost use Rattle.gomp_shares.specs.Singles.{AnswersSingle, ByWords, single_started, AnswersCopy, copy_started, put_tests};
ghost use Rattle.gomp_shares.specs.OrderedParts.{AnswersPart, part_started, AnswersPartEnd, part_ended_at_once};

use gomp_shares::Shares;
use gomp_types::{EndKind, Limits, LoopDesc, Payload, Refusal, Reply};

/// A member comes to a loop.
pub fn loop_start<S: Shares>(shares: &mut S, member: u16, limits: &Limits, desc: &LoopDesc) -> Reply
    requires member { member < S.members shares.old }
    ensures members { S.members shares.new ≡ S.members shares.old }
    ensures serves { Serves S.stands shares.old shares.new result
        (AnswersLoopStart desc.now limits.now (S.members shares.old) member)
        (loop_started desc.now member) }
{
    gomp_loops::loop_start(shares, member, limits, desc)
}

/// It asks for its next chunk.
pub fn loop_next<S: Shares>(shares: &mut S, member: u16) -> Reply
    requires member { member < S.members shares.old }
    ensures members { S.members shares.new ≡ S.members shares.old }
    ensures serves { Serves S.stands shares.old shares.new result
        (AnswersLoopNext (S.members shares.old) member)
        (loop_next_taken (S.members shares.old) member) }
{
    gomp_loops::loop_next(shares, member)
}

/// It leaves a loop at whose end members wait.
pub fn loop_end<S: Shares>(shares: &mut S, member: u16) -> Result<(), Refusal>
    requires member { member < S.members shares.old }
    ensures members { S.members shares.new ≡ S.members shares.old }
    ensures ends { Ends S.stands shares.old shares.new result
        (all_end_tests AnyLoop WaitEnd) member }
{
    gomp_loops::loop_end(shares, member)
}

/// It leaves a loop that may be cancelled.
pub fn loop_end_cancel<S: Shares>(shares: &mut S, member: u16) -> Result<(), Refusal>
    requires member { member < S.members shares.old }
    ensures members { S.members shares.new ≡ S.members shares.old }
    ensures ends { Ends S.stands shares.old shares.new result
        (all_end_tests AnyLoop Cancellable) member }
{
    gomp_loops::loop_end_cancel(shares, member)
}

/// It leaves a loop at whose end nobody waits.
pub fn loop_end_nowait<S: Shares>(shares: &mut S, member: u16) -> Reply
    requires member { member < S.members shares.old }
    ensures members { S.members shares.new ≡ S.members shares.old }
    ensures serves { Serves S.stands shares.old shares.new result
        (AnswersLoopEnd Nowait member) (left_at_once member) }
{
    gomp_loops::loop_end_nowait(shares, member)
}

/// A member comes to sections.
pub fn sections_start<S: Shares>(
    shares: &mut S,
    member: u16,
    limits: &Limits,
    count: u32,
    end_kind: EndKind,
) -> Reply
    requires member { member < S.members shares.old }
    ensures members { S.members shares.new ≡ S.members shares.old }
    ensures serves { Serves S.stands shares.old shares.new result
        (AnswersSectionsStart count end_kind limits.now (S.members shares.old) member)
        (sections_started count end_kind member) }
{
    gomp_sections::sections_start(shares, member, limits, count, end_kind)
}

/// It asks for its next section.
pub fn sections_next<S: Shares>(shares: &mut S, member: u16) -> Reply
    requires member { member < S.members shares.old }
    ensures members { S.members shares.new ≡ S.members shares.old }
    ensures serves { Serves S.stands shares.old shares.new result
        (AnswersSectionsNext (S.members shares.old) member) (section_next_taken member) }
{
    gomp_sections::sections_next(shares, member)
}

/// It leaves sections at whose end members wait.
pub fn sections_end<S: Shares>(shares: &mut S, member: u16) -> Result<(), Refusal>
    requires member { member < S.members shares.old }
    ensures members { S.members shares.new ≡ S.members shares.old }
    ensures ends { Ends S.stands shares.old shares.new result
        (all_end_tests AnySections WaitEnd) member }
{
    gomp_sections::sections_end(shares, member)
}

/// It leaves sections that may be cancelled.
pub fn sections_end_cancel<S: Shares>(shares: &mut S, member: u16) -> Result<(), Refusal>
    requires member { member < S.members shares.old }
    ensures members { S.members shares.new ≡ S.members shares.old }
    ensures ends { Ends S.stands shares.old shares.new result
        (all_end_tests AnySections Cancellable) member }
{
    gomp_sections::sections_end_cancel(shares, member)
}

/// It leaves sections at whose end nobody waits.
pub fn sections_end_nowait<S: Shares>(shares: &mut S, member: u16) -> Reply
    requires member { member < S.members shares.old }
    ensures members { S.members shares.new ≡ S.members shares.old }
    ensures serves { Serves S.stands shares.old shares.new result
        (AnswersSectionsEnd Nowait member) (left_at_once member) }
{
    gomp_sections::sections_end_nowait(shares, member)
}

/// A member comes to a `single`.
pub fn single_start<S: Shares>(shares: &mut S, member: u16, limits: &Limits) -> Reply
    requires member { member < S.members shares.old }
    ensures members { S.members shares.new ≡ S.members shares.old }
    ensures serves { Serves S.stands shares.old shares.new result
        (AnswersSingle limits.now (S.members shares.old) member) (single_started member) }
{
    gomp_sections::single_start(shares, member, limits)
}

/// It comes to one with words for the others.
pub fn single_copy_start<S: Shares>(
    shares: &mut S,
    member: u16,
    limits: &Limits,
    put: Option<&Payload>,
) -> Reply
    requires member { member < S.members shares.old }
    ensures members { S.members shares.new ≡ S.members shares.old }
    ensures refused { (refusal : Refusal) → EachStands (S.stands shares.old) (λ h.
        result ≡ Refused refusal ↔
        least (share_tests [] (single_shape true) limits.now member h) ≡ Some refusal) }
    ensures serves { Serves S.stands shares.old shares.new result (ByWords (option_copied put.entry)
        member (AnswersCopy limits.now (S.members shares.old) member))
        (copy_started member) }
{
    gomp_sections::single_copy_start(shares, member, limits, put)
}

/// Its executor leaves it.
pub fn single_copy_end<S: Shares>(shares: &mut S, member: u16) -> Result<(), Refusal>
    requires member { member < S.members shares.old }
    ensures members { S.members shares.new ≡ S.members shares.old }
    ensures leaves { LeavesConstruct S.stands shares.old shares.new result put_tests member }
{
    gomp_sections::single_copy_end(shares, member)
}

/// A member comes to an ordered part.
pub fn ordered_start<S: Shares>(shares: &mut S, member: u16, value: i64) -> Reply
    requires member { member < S.members shares.old }
    ensures members { S.members shares.new ≡ S.members shares.old }
    ensures serves { Serves S.stands shares.old shares.new result
        (AnswersPart (S.members shares.old) value member) (part_started value member) }
{
    gomp_ordered::ordered_start(shares, member, value)
}

/// It ends the part.
pub fn ordered_end<S: Shares>(shares: &mut S, member: u16) -> Reply
    requires member { member < S.members shares.old }
    ensures members { S.members shares.new ≡ S.members shares.old }
    ensures serves { Serves S.stands shares.old shares.new result
        (AnswersPartEnd member) (part_ended_at_once member) }
{
    gomp_ordered::ordered_end(shares, member)
}

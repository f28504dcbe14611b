//! The calls of libgomp's sections, over any body of the shares.
//!
//! OpenMP API 5.2, section 11.3.

ghost use Rattle.std.specs.Prelude.{◌≡◌, ◌<◌, List, None};
ghost use Rattle.std.specs.Option.{ForSome};
ghost use Rattle.gomp_events.specs.declared.event.Event.{Event};
ghost use Rattle.gomp_types.specs.declared.loop_desc.EndKind.TheVariants.{Wait as WaitEnd, Nowait, Cancellable};
ghost use Rattle.gomp_types.specs.Least.{least};
ghost use Rattle.gomp_types.specs.declared.shape.ShareKind.TheVariants.{Sections};
ghost use Rattle.gomp_shares.specs.declared.admission.Construct.TheVariants.{Sections as AnySections};
ghost use Rattle.gomp_shares.specs.Admission.{all_end_tests};
ghost use Rattle.gomp_shares.specs.Calls.{CanOpen};
ghost use Rattle.gomp_shares.specs.Serves.{Ends, Serves};
ghost use Rattle.gomp_shares.specs.Starts.{AnswersBegin, left_at_once};
ghost use Rattle.gomp_shares.specs.Sections.{AnswersSectionsStart, DealsSections, TakesSection, sections_begun, sections_started, AnswersSectionsNext, section_next_taken, section_next_tests, AnswersSectionsEnd};
ghost use Rattle.gomp_sections.specs.Answers.{section_of};

use crate::admission::sections_start_shape;
use gomp_shares::admission::next_refusal;
use gomp_shares::ends::end_construct;
use gomp_shares::{Construct, Opening, Shares};
use gomp_types::{EndKind, Limits, Refusal, Reply, Shape};

/// Enters the member's next share for a construct of `count` sections, 0 to 65,536, and answers the
/// first section that nobody took, numbered from 1, or 0 if none is left; the member is in the
/// construct all the same, and may end it.
///
/// `Wait` if some member has not left the share eight before, and nothing is entered: the caller
/// asks again. Refused with `InsideShare`, `BadSections`, `TooManyShares`, or with
/// `Mismatch` if the team's share of this number is of another shape.
pub fn sections_start<S: Shares>(
    shares: &mut S,
    member: u16,
    limits: &Limits,
    count: u32,
    end_kind: EndKind,
) -> Reply
    requires member { member < S.members shares.old }
    ensures members { S.members shares.new ≡ S.members shares.old }
    ensures serves { Serves S.stands shares.old shares.new result
        (AnswersSectionsStart count end_kind limits.now (S.members shares.old) member)
        (sections_started count end_kind member) }
{
    match sections_start_shape(&shares.look(member), limits, count, end_kind) {
        Ok(shape) => sections_start_admitted(shares, member, &shape),
        Err(refusal) => Reply::Refused(refusal),
    }
}

/// Enters the member's next share for sections of this shape, which its own tests let it start
/// ([`sections_start_shape`]), and answers the first section for it.
///
/// `Wait` and `Mismatch` as [`sections_start`] has them.
pub fn sections_start_admitted<S: Shares>(shares: &mut S, member: u16, shape: &Shape) -> Reply
    requires sections { shape.now.kind ≡ Sections }
    requires place { CanOpen (S.members shares.old) member shape.now (S.seen shares.old member) }
    ensures members { S.members shares.new ≡ S.members shares.old }
    ensures serves { Serves S.stands shares.old shares.new result
        (AnswersBegin shape.now DealsSections (S.members shares.old) member)
        (sections_begun shape.now member) }
{
    match shares.try_open(member, shape) {
        // Compared before, too: since then another member may have opened the share.
        Opening::Differs => Reply::Refused(Refusal::Mismatch),
        Opening::NotYet => Reply::Wait,
        Opening::Entered => Reply::Section(section_number(shares.claim(member))),
    }
}

/// Answers the next section of the member's construct, numbered from 1, or 0 if none is left: then
/// it may end the construct, and not ask again.
///
/// Refused with `OutsideShare` or `Drained`.
pub fn sections_next<S: Shares>(shares: &mut S, member: u16) -> Reply
    requires member { member < S.members shares.old }
    ensures members { S.members shares.new ≡ S.members shares.old }
    ensures serves { Serves S.stands shares.old shares.new result
        (AnswersSectionsNext (S.members shares.old) member) (section_next_taken member) }
{
    match next_refusal(&shares.look(member), Construct::Sections) {
        Some(refusal) => Reply::Refused(refusal),
        None => sections_next_admitted(shares, member),
    }
}

/// Answers the next section of the member's construct, which its own tests let it ask for
/// (`gomp_shares::admission::next_refusal`).
pub fn sections_next_admitted<S: Shares>(shares: &mut S, member: u16) -> Reply
    requires member { member < S.members shares.old }
    requires known { (h : List Event) × S.stands shares.old h }
    requires place { least (section_next_tests (S.seen shares.old member)) ≡ None }
    ensures members { S.members shares.new ≡ S.members shares.old }
    ensures serves { Serves S.stands shares.old shares.new result
        (TakesSection (S.members shares.old) member) (section_next_taken member) }
{
    Reply::Section(section_number(shares.claim(member)))
}

/// Leaves the member's sections, at the end of which a barrier stands. The member has still to
/// arrive there, so the answer is not a reply yet.
///
/// Refused with `OutsideShare`, `EndDiffers` or `NotDrained`.
pub fn sections_end<S: Shares>(shares: &mut S, member: u16) -> Result<(), Refusal>
    requires member { member < S.members shares.old }
    ensures members { S.members shares.new ≡ S.members shares.old }
    ensures ends { Ends S.stands shares.old shares.new result
        (all_end_tests AnySections WaitEnd) member }
{
    end_construct(shares, member, Construct::Sections, EndKind::Wait)
}

/// Leaves the member's sections, which may be cancelled, and at the end of which a barrier stands, as
/// [`sections_end`] does (OpenMP API 5.2, section 16.1; libgomp's `GOMP_sections_end_cancel`).
///
/// Refused as [`sections_end`] is, but that `NotDrained` does not come if the construct is cancelled:
/// then the member sees that.
pub fn sections_end_cancel<S: Shares>(shares: &mut S, member: u16) -> Result<(), Refusal>
    requires member { member < S.members shares.old }
    ensures members { S.members shares.new ≡ S.members shares.old }
    ensures ends { Ends S.stands shares.old shares.new result
        (all_end_tests AnySections Cancellable) member }
{
    end_construct(shares, member, Construct::Sections, EndKind::Cancellable)
}

/// Leaves the member's sections, which have no barrier at their end.
///
/// Refused with `OutsideShare`, `EndDiffers` or `NotDrained`.
pub fn sections_end_nowait<S: Shares>(shares: &mut S, member: u16) -> Reply
    requires member { member < S.members shares.old }
    ensures members { S.members shares.new ≡ S.members shares.old }
    ensures serves { Serves S.stands shares.old shares.new result
        (AnswersSectionsEnd Nowait member) (left_at_once member) }
{
    match end_construct(shares, member, Construct::Sections, EndKind::Nowait) {
        Ok(()) => Reply::Finished,
        Err(refusal) => Reply::Refused(refusal),
    }
}

/// The number of the section that a member was given, 0 if it was given none.
fn section_number(piece: Option<(u64, u64)>) -> u64
    requires some { ForSome piece (λ p. p.0 < p.1) }
    ensures answer { result ≡ section_of piece }
{
    match piece {
        Some((low, _)) => low + 1,
        None => 0,
    }
}

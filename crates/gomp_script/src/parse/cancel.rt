//! The steps of cancellation: `MEMBER cancel CANCEL 0|1` and `MEMBER point CANCEL`.

ghost use Rattle.std.specs.Prelude.{◌≡◌};
ghost use Rattle.gomp_text.specs.Words.{words_of};
ghost use Rattle.gomp_script.specs.StepText.{cancel_kind_of, clause_of, cancel_step, point_step};

use crate::parse::Why;
use crate::parse::words::{finish, member_of, take_word};
use gomp_text::is_word;
use gomp_types::{Call, CancelKind, Step};

/// What a construct of cancellation names by this word.
pub fn cancel_kind_of(word: &[u8]) -> Option<CancelKind>
    ensures { result ≡ cancel_kind_of word.now }
{
    if is_word(word, b"parallel") {
        return Some(CancelKind::Parallel);
    }
    if is_word(word, b"loop") {
        return Some(CancelKind::Loop);
    }
    if is_word(word, b"sections") {
        return Some(CancelKind::Sections);
    }
    if is_word(word, b"taskgroup") {
        return Some(CancelKind::Taskgroup);
    }
    None
}

/// The value of the `if` clause that this word writes: `0` is false, `1` is true.
fn clause_of(word: &[u8]) -> Option<bool>
    ensures { result ≡ clause_of word.now }
{
    if is_word(word, b"0") {
        return Some(false);
    }
    if is_word(word, b"1") {
        return Some(true);
    }
    None
}

/// The step of this member by which it cancels, by the rest of its line.
#[tactic(auto, unfolding(crate::specs::StepText::cancel_step))]
pub(crate) fn cancel_step(member: &[u8], rest: &[u8]) -> Result<Step, Why>
    ensures { result ≡ cancel_step member.now (words_of rest.now) }
{
    let (kind, rest) = take_word(rest)?;
    let kind = cancel_kind_of(kind).ok_or(Why::UnknownWord)?;
    let (clause, rest) = take_word(rest)?;
    let clause = clause_of(clause).ok_or(Why::UnknownWord)?;
    let member = member_of(member)?;
    finish(rest)?;
    Ok(Step {
        member,
        call: Call::Cancel { kind, clause },
    })
}

/// The step of this member at a cancellation point, by the rest of its line.
#[tactic(auto, unfolding(crate::specs::StepText::point_step))]
pub(crate) fn point_step(member: &[u8], rest: &[u8]) -> Result<Step, Why>
    ensures { result ≡ point_step member.now (words_of rest.now) }
{
    let (kind, rest) = take_word(rest)?;
    let kind = cancel_kind_of(kind).ok_or(Why::UnknownWord)?;
    let member = member_of(member)?;
    finish(rest)?;
    Ok(Step {
        member,
        call: Call::Point(kind),
    })
}

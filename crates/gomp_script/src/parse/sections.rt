//! The step that begins a sections construct: `MEMBER sections COUNT ENDKIND`.

ghost use Rattle.std.specs.Prelude.{◌≡◌};
ghost use Rattle.gomp_text.specs.Words.{words_of};
ghost use Rattle.gomp_script.specs.StepText.{sections_step};

use crate::parse::Why;
use crate::parse::words::{count_of, end_of, finish, member_of, take_word};
use gomp_types::{Call, Step};

/// The step of this member that begins sections, by the rest of its line.
#[tactic(auto, unfolding(crate::specs::StepText::sections_step))]
pub(crate) fn sections_step(member: &[u8], rest: &[u8]) -> Result<Step, Why>
    ensures { result ≡ sections_step member.now (words_of rest.now) }
{
    let (count, rest) = take_word(rest)?;
    let (ending, rest) = take_word(rest)?;
    let end_kind = end_of(ending).ok_or(Why::UnknownWord)?;
    let member = member_of(member)?;
    let count = count_of(count)?;
    finish(rest)?;
    Ok(Step {
        member,
        call: Call::SectionsStart { count, end_kind },
    })
}

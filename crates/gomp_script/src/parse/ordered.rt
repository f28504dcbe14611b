//! Ordered loops: the word `ordered` at the end of a loop's line, and the step that begins an
//! ordered part, `MEMBER ordered VALUE`.

ghost use Rattle.std.specs.Prelude.{◌≡◌};
ghost use Rattle.gomp_text.specs.Words.{words_of};
ghost use Rattle.gomp_script.specs.StepText.{ordered_of, ordered_step};

use crate::parse::Why;
use crate::parse::words::{finish, member_of, number_of, take_word};
use gomp_text::{is_word, next_word};
use gomp_types::{Call, Step};

/// Whether a loop is ordered, by the rest of its line.
pub fn ordered_of(rest: &[u8]) -> Result<bool, Why>
    ensures { result ≡ ordered_of (words_of rest.now) }
{
    let Some((word, rest)) = next_word(rest) else {
        return Ok(false);
    };
    if !is_word(word, b"ordered") {
        return Err(Why::ExtraWord);
    }
    finish(rest)?;
    Ok(true)
}

/// The step of this member that begins an ordered part, by the rest of its line.
#[tactic(auto, unfolding(crate::specs::StepText::ordered_step))]
pub(crate) fn ordered_step(member: &[u8], rest: &[u8]) -> Result<Step, Why>
    ensures { result ≡ ordered_step member.now (words_of rest.now) }
{
    let (value, rest) = take_word(rest)?;
    let member = member_of(member)?;
    let value = number_of(value)?;
    finish(rest)?;
    Ok(Step {
        member,
        call: Call::OrderedStart(value),
    })
}

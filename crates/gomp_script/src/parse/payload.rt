//! The step that puts the words of a `single` construct: `MEMBER single_copy_end [W]..`.

ghost use Rattle.std.specs.Prelude.{◌≡◌};
ghost use Rattle.gomp_text.specs.Words.{words_of};
ghost use Rattle.gomp_types.specs.declared.payload.TheConstants.{MAX_WORDS};
ghost use Rattle.gomp_script.specs.StepText.{payload_of, copy_end_step};

use crate::parse::Why;
use crate::parse::words::{finish, member_of, unsigned_of};
use gomp_text::next_word;
use gomp_types::{Call, MAX_WORDS, Payload, Step};

/// The payload of all words of the rest of a line. What follows the most that it may have is a word
/// too many.
fn payload_of(words: &[u8]) -> Result<Payload, Why>
    ensures { result ≡ payload_of MAX_WORDS (words_of words.now) }
{
    let mut payload = Payload::new();
    let mut rest = words;
    for _i in 0..MAX_WORDS {
        let Some((word, after)) = next_word(rest) else {
            return Ok(payload);
        };
        payload.push(unsigned_of(word)?);
        rest = after;
    }
    finish(rest)?;
    Ok(payload)
}

/// The step of this member that puts the words of a `single` construct, by the rest of its line.
#[tactic(auto, unfolding(crate::specs::StepText::copy_end_step))]
pub(crate) fn copy_end_step(member: &[u8], rest: &[u8]) -> Result<Step, Why>
    ensures { result ≡ copy_end_step member.now (words_of rest.now) }
{
    let member = member_of(member)?;
    let payload = payload_of(rest)?;
    Ok(Step {
        member,
        call: Call::SingleCopyEnd(payload),
    })
}

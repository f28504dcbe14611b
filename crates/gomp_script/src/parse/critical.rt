//! The steps of `critical` constructs: `MEMBER critical [NAME]` and `MEMBER critical_end [NAME]`.

ghost use Rattle.std.specs.Prelude.{◌≡◌};
ghost use Rattle.gomp_text.specs.Words.{words_of};
ghost use Rattle.gomp_script.specs.StepText.{critical_name_of, critical_step, critical_end_step};

use crate::parse::Why;
use crate::parse::words::{finish, member_of};
use gomp_text::next_word;
use gomp_types::{Call, CriticalName, Step};

/// The name of the construct, by the rest of its line: one word of any length, or none. Whether a
/// name may be as long is not asked here.
pub fn critical_name_of(rest: &[u8]) -> Result<CriticalName, Why>
    ensures { result ≡ critical_name_of (words_of rest.now) }
{
    let Some((word, rest)) = next_word(rest) else {
        return Ok(CriticalName::new(b""));
    };
    finish(rest)?;
    Ok(CriticalName::new(word))
}

/// The step of this member that begins such a construct, by the rest of its line.
#[tactic(auto, unfolding(crate::specs::StepText::critical_step))]
pub(crate) fn critical_step(member: &[u8], rest: &[u8]) -> Result<Step, Why>
    ensures { result ≡ critical_step member.now (words_of rest.now) }
{
    let member = member_of(member)?;
    let name = critical_name_of(rest)?;
    Ok(Step {
        member,
        call: Call::CriticalStart(name),
    })
}

/// The step of this member that ends one, by the rest of its line.
#[tactic(auto, unfolding(crate::specs::StepText::critical_end_step))]
pub(crate) fn critical_end_step(member: &[u8], rest: &[u8]) -> Result<Step, Why>
    ensures { result ≡ critical_end_step member.now (words_of rest.now) }
{
    let member = member_of(member)?;
    let name = critical_name_of(rest)?;
    Ok(Step {
        member,
        call: Call::CriticalEnd(name),
    })
}

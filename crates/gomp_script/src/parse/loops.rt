//! The step that begins a loop: `MEMBER loop KIND CHUNK START END INCR ENDKIND [ordered]`.

ghost use Rattle.std.specs.Prelude.{◌≡◌};
ghost use Rattle.gomp_text.specs.Words.{words_of};
ghost use Rattle.gomp_script.specs.StepText.{sched_of, loop_step};

use crate::parse::Why;
use crate::parse::ordered::ordered_of;
use crate::parse::words::{end_of, member_of, number_of, take_word};
use gomp_text::is_word;
use gomp_types::{Call, LoopDesc, Sched, Step};

/// The schedule that this word names.
pub fn sched_of(word: &[u8]) -> Option<Sched>
    ensures { result ≡ sched_of word.now }
{
    if is_word(word, b"static") {
        return Some(Sched::Static);
    }
    if is_word(word, b"dynamic") {
        return Some(Sched::Dynamic);
    }
    if is_word(word, b"guided") {
        return Some(Sched::Guided);
    }
    if is_word(word, b"runtime") {
        return Some(Sched::Runtime);
    }
    None
}

/// The step of this member that begins a loop, by the rest of its line.
#[tactic(auto, unfolding(crate::specs::StepText::loop_step))]
pub(crate) fn loop_step(member: &[u8], rest: &[u8]) -> Result<Step, Why>
    ensures { result ≡ loop_step member.now (words_of rest.now) }
{
    let (kind, rest) = take_word(rest)?;
    let sched = sched_of(kind).ok_or(Why::UnknownWord)?;
    let (chunk, rest) = take_word(rest)?;
    let (start, rest) = take_word(rest)?;
    let (end, rest) = take_word(rest)?;
    let (incr, rest) = take_word(rest)?;
    let (ending, rest) = take_word(rest)?;
    let end_kind = end_of(ending).ok_or(Why::UnknownWord)?;
    let member = member_of(member)?;
    let chunk = number_of(chunk)?;
    let start = number_of(start)?;
    let end = number_of(end)?;
    let incr = number_of(incr)?;
    let ordered = ordered_of(rest)?;
    Ok(Step {
        member,
        call: Call::LoopStart(LoopDesc {
            start,
            end,
            incr,
            sched,
            chunk,
            ordered,
            end_kind,
        }),
    })
}

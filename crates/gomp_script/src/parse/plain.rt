//! The steps whose call is one word: `MEMBER CALL`.

ghost use Rattle.std.specs.Prelude.{◌≡◌};
ghost use Rattle.gomp_text.specs.Words.{words_of};
ghost use Rattle.gomp_script.specs.StepText.{share_call_of, call_of, plain_step};

use crate::parse::Why;
use crate::parse::task::task_call_of;
use crate::parse::words::{finish, member_of};
use gomp_text::is_word;
use gomp_types::{Call, Step};

/// The call of a work-share that this word is alone.
fn share_call_of(word: &[u8]) -> Option<Call>
    ensures { result ≡ share_call_of word.now }
{
    if is_word(word, b"next") {
        return Some(Call::LoopNext);
    }
    if is_word(word, b"end") {
        return Some(Call::LoopEnd);
    }
    if is_word(word, b"end_nowait") {
        return Some(Call::LoopEndNowait);
    }
    if is_word(word, b"end_cancel") {
        return Some(Call::LoopEndCancel);
    }
    if is_word(word, b"section_next") {
        return Some(Call::SectionsNext);
    }
    if is_word(word, b"sections_end") {
        return Some(Call::SectionsEnd);
    }
    if is_word(word, b"sections_end_nowait") {
        return Some(Call::SectionsEndNowait);
    }
    if is_word(word, b"sections_end_cancel") {
        return Some(Call::SectionsEndCancel);
    }
    if is_word(word, b"single") {
        return Some(Call::SingleStart);
    }
    if is_word(word, b"single_copy") {
        return Some(Call::SingleCopyStart);
    }
    None
}

/// The call that this word is alone.
fn call_of(word: &[u8]) -> Option<Call>
    ensures { result ≡ call_of word.now }
{
    if is_word(word, b"ordered_end") {
        return Some(Call::OrderedEnd);
    }
    if is_word(word, b"barrier") {
        return Some(Call::Barrier);
    }
    if is_word(word, b"region_end") {
        return Some(Call::RegionEnd);
    }
    if is_word(word, b"lock_init") {
        return Some(Call::LockInit);
    }
    if is_word(word, b"nest_init") {
        return Some(Call::NestInit);
    }
    if is_word(word, b"resume") {
        return Some(Call::Resume);
    }
    if is_word(word, b"stop") {
        return Some(Call::Stop);
    }
    task_call_of(word).or_else(|| share_call_of(word))
}

/// The step of this member whose call is one word, behind which the line ends.
#[tactic(auto, unfolding(crate::specs::StepText::plain_step))]
pub(crate) fn plain_step(member: &[u8], call: &[u8], rest: &[u8]) -> Result<Step, Why>
    ensures { result ≡ plain_step member.now call.now (words_of rest.now) }
{
    let call = call_of(call).ok_or(Why::UnknownWord)?;
    let member = member_of(member)?;
    finish(rest)?;
    Ok(Step { member, call })
}

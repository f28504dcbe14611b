//! The words of a line: taking them one by one, and those that several kinds of step share.

ghost use Rattle.std.specs.Prelude.{◌≡◌};
ghost use Rattle.gomp_text.specs.Words.{words_of};
ghost use Rattle.gomp_script.specs.StepText.{TakesWord, no_more_words, end_of, member_named, count_of, number_of, unsigned_of};

use crate::parse::Why;
use gomp_text::{is_word, next_word, signed, unsigned};
use gomp_types::EndKind;

/// The next word of a line, and what follows it.
pub fn take_word(line: &[u8]) -> Result<(&[u8], &[u8]), Why>
    ensures { TakesWord line.now result }
{
    next_word(line).ok_or(Why::MissingWord)
}

/// That the line ends here.
pub fn finish(line: &[u8]) -> Result<(), Why>
    ensures { result ≡ no_more_words (words_of line.now) }
{
    match next_word(line) {
        Some(_) => Err(Why::ExtraWord),
        None => Ok(()),
    }
}

/// The end of a construct that this word names.
pub fn end_of(word: &[u8]) -> Option<EndKind>
    ensures { result ≡ end_of word.now }
{
    if is_word(word, b"wait") {
        return Some(EndKind::Wait);
    }
    if is_word(word, b"nowait") {
        return Some(EndKind::Nowait);
    }
    if is_word(word, b"cancellable") {
        return Some(EndKind::Cancellable);
    }
    None
}

/// The number of a member that this word writes.
pub fn member_of(word: &[u8]) -> Result<u16, Why>
    ensures { result ≡ member_named word.now }
{
    match unsigned(word, u16::MAX as u64) {
        Some(number) => Ok(number as u16),
        None => Err(Why::BadNumber),
    }
}

/// The count of members or of sections, or the number of a lock, that this word writes.
pub fn count_of(word: &[u8]) -> Result<u32, Why>
    ensures { result ≡ count_of word.now }
{
    match unsigned(word, u32::MAX as u64) {
        Some(number) => Ok(number as u32),
        None => Err(Why::BadNumber),
    }
}

/// The unsigned number of 64 bits that this word writes: a word of a payload, the code of a task, its
/// argument, or the address of an item.
pub(crate) fn unsigned_of(word: &[u8]) -> Result<u64, Why>
    ensures { result ≡ unsigned_of word.now }
{
    unsigned(word, u64::MAX).ok_or(Why::BadNumber)
}

/// The number of a loop that this word writes: a chunk, a bound, an increment or a value.
pub fn number_of(word: &[u8]) -> Result<i64, Why>
    ensures { result ≡ number_of word.now }
{
    signed(word).ok_or(Why::BadNumber)
}

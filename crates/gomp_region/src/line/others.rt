//! The other lines: those of one word, and the statements without a block.

ghost use Rattle.std.specs.Prelude.{◌≡◌};
ghost use Rattle.gomp_text.specs.Words.{words_of};
ghost use Rattle.gomp_region.specs.ScriptText.{add_line, addend_of, cancel_line, end_word, plain_line, point_line, statement_alone};

use crate::statement::{Addend, BlockConstruct, EndWord, Statement};
use gomp_script::{Why, cancel_kind_of, finish, number_of, take_word};
use gomp_text::is_word;

/// `cancel CANCEL`, by what follows the first word.
#[tactic(auto, unfolding(crate::specs::ScriptText::cancel_line))]
pub(crate) fn cancel_line(rest: &[u8]) -> Result<Statement, Why>
    ensures { result ≡ cancel_line (words_of rest.now) }
{
    let (kind, rest) = take_word(rest)?;
    let kind = cancel_kind_of(kind).ok_or(Why::UnknownWord)?;
    finish(rest)?;
    Ok(Statement::Cancel(kind))
}

/// `point CANCEL`, by what follows the first word.
#[tactic(auto, unfolding(crate::specs::ScriptText::point_line))]
pub(crate) fn point_line(rest: &[u8]) -> Result<Statement, Why>
    ensures { result ≡ point_line (words_of rest.now) }
{
    let (kind, rest) = take_word(rest)?;
    let kind = cancel_kind_of(kind).ok_or(Why::UnknownWord)?;
    finish(rest)?;
    Ok(Statement::Point(kind))
}

/// What this word adds: `it` or a number.
fn addend_of(word: &[u8]) -> Result<Addend, Why>
    ensures { result ≡ addend_of word.now }
{
    if is_word(word, b"it") {
        return Ok(Addend::Iteration);
    }
    let number = number_of(word)?;
    Ok(Addend::Number(number))
}

/// `add K` or `add it`, by what follows the first word.
#[tactic(auto, unfolding(crate::specs::ScriptText::add_line))]
pub(crate) fn add_line(rest: &[u8]) -> Result<Statement, Why>
    ensures { result ≡ add_line (words_of rest.now) }
{
    let (added, rest) = take_word(rest)?;
    let addend = addend_of(added)?;
    finish(rest)?;
    Ok(Statement::Add(addend))
}

/// The end word that this word is.
fn end_word(word: &[u8]) -> Option<EndWord>
    ensures { result ≡ end_word word.now }
{
    if is_word(word, b"endfor") {
        return Some(EndWord::EndFor);
    }
    if is_word(word, b"endsections") {
        return Some(EndWord::EndSections);
    }
    if is_word(word, b"endsection") {
        return Some(EndWord::EndSection);
    }
    if is_word(word, b"endsingle") {
        return Some(EndWord::EndSingle);
    }
    if is_word(word, b"endcopy") {
        return Some(EndWord::EndCopy);
    }
    if is_word(word, b"endordered") {
        return Some(EndWord::EndOrdered);
    }
    if is_word(word, b"endcritical") {
        return Some(EndWord::EndCritical);
    }
    if is_word(word, b"endtask") {
        return Some(EndWord::EndTask);
    }
    if is_word(word, b"endgroup") {
        return Some(EndWord::EndGroup);
    }
    if is_word(word, b"endparallel") {
        return Some(EndWord::EndParallel);
    }
    if is_word(word, b"endonly") {
        return Some(EndWord::EndOnly);
    }
    None
}

/// The statement that this word is alone.
fn statement_alone(word: &[u8]) -> Option<Statement>
    ensures { result ≡ statement_alone word.now }
{
    if is_word(word, b"section") {
        return Some(Statement::Begin(BlockConstruct::Section));
    }
    if is_word(word, b"single") {
        return Some(Statement::Begin(BlockConstruct::Single));
    }
    if is_word(word, b"ordered") {
        return Some(Statement::Begin(BlockConstruct::Ordered));
    }
    if is_word(word, b"group") {
        return Some(Statement::Begin(BlockConstruct::Group));
    }
    if is_word(word, b"taskwait") {
        return Some(Statement::Taskwait);
    }
    if is_word(word, b"barrier") {
        return Some(Statement::Barrier);
    }
    end_word(word).map(Statement::End)
}

/// A line of one word, behind which the line ends.
#[tactic(auto, unfolding(crate::specs::ScriptText::plain_line))]
pub(crate) fn plain_line(word: &[u8], rest: &[u8]) -> Result<Statement, Why>
    ensures { result ≡ plain_line word.now (words_of rest.now) }
{
    let statement = statement_alone(word).ok_or(Why::UnknownWord)?;
    finish(rest)?;
    Ok(statement)
}

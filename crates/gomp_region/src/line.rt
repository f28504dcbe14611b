//! From a line to its statement.

ghost use Rattle.std.specs.Prelude.{◌≡◌, ◌∷◌, IsErrOf};
ghost use Rattle.gomp_text.specs.Words.{words_of};
ghost use Rattle.gomp_script.specs.declared.parse.LineError.TheVariants.{NoMemory};
ghost use Rattle.gomp_script.specs.StepText.{Reads, read_line};
ghost use Rattle.gomp_region.specs.ScriptText.{HasItems, LineHasItems, line_nesting, other_line, statement_of};

mod blocks;
mod others;

use crate::statement::{EndWord, Nesting, Statement};
pub(crate) use blocks::size_of;
use blocks::{
    copy_line, critical_line, for_line, only_line, parallel_line, sections_line, task_line,
};
use gomp_script::{LineError, Why, first_word};
use gomp_text::is_word;
use others::{add_line, cancel_line, plain_line, point_line};
use std::alloc::Global;

/// The statement of a line, if it has one. The error is the first fault of its words; or want of
/// memory, but only for a good line with an item of a `depend` clause.
pub(crate) fn read_statement(alloc: Global, line: &[u8]) -> Result<Option<Statement>, LineError>
    ensures statement { Reads result (read_line statement_of line.now) }
    ensures memory { IsErrOf result NoMemory → LineHasItems (read_line statement_of line.now) }
{
    let Some((word, rest)) = first_word(line)? else {
        return Ok(None);
    };
    let statement = statement_words(alloc, word, rest)?;
    Ok(Some(statement))
}

/// What the statement of a line, if it has one, does to the blocks around it, whatever memory does.
pub(crate) fn line_nesting(alloc: Global, line: &[u8]) -> Result<Option<Nesting>, Why>
    ensures { result ≡ line_nesting (read_line statement_of line.now) }
{
    match read_statement(alloc, line) {
        Ok(Some(statement)) => Ok(Some(statement.nesting())),
        Ok(None) => Ok(None),
        // Only a task takes memory.
        Err(LineError::NoMemory) => Ok(Some(Nesting::Begins(EndWord::EndTask))),
        Err(LineError::Fault(why)) => Err(why),
    }
}

/// A statement, by its first word and what follows it.
fn statement_words(alloc: Global, word: &[u8], rest: &[u8]) -> Result<Statement, LineError>
    ensures statement { Reads result (statement_of (word.now ∷ words_of rest.now)) }
    ensures memory { IsErrOf result NoMemory →
        HasItems (statement_of (word.now ∷ words_of rest.now)) }
{
    if is_word(word, b"task") {
        return task_line(alloc, rest);
    }
    Ok(other_line(word, rest)?)
}

/// The same of a statement that takes no memory.
fn other_line(word: &[u8], rest: &[u8]) -> Result<Statement, Why>
    ensures { result ≡ other_line word.now (words_of rest.now) }
{
    if is_word(word, b"for") {
        return for_line(rest);
    }
    if is_word(word, b"sections") {
        return sections_line(rest);
    }
    if is_word(word, b"copy") {
        return copy_line(rest);
    }
    if is_word(word, b"critical") {
        return critical_line(rest);
    }
    if is_word(word, b"parallel") {
        return parallel_line(rest);
    }
    if is_word(word, b"only") {
        return only_line(rest);
    }
    if is_word(word, b"cancel") {
        return cancel_line(rest);
    }
    if is_word(word, b"point") {
        return point_line(rest);
    }
    if is_word(word, b"add") {
        return add_line(rest);
    }
    plain_line(word, rest)
}

//! The lines that begin a block and have words behind the first.

ghost use Rattle.std.specs.Prelude.{◌≡◌, IsErrOf};
ghost use Rattle.gomp_text.specs.Words.{words_of};
ghost use Rattle.gomp_script.specs.declared.parse.LineError.TheVariants.{NoMemory};
ghost use Rattle.gomp_script.specs.StepText.{Reads};
ghost use Rattle.gomp_region.specs.ScriptText.{HasItems, copy_line, critical_line, for_line, only_line, parallel_line, sections_line, size_of, task_line};

use crate::statement::{BlockConstruct, Statement, TaskClauses};
use gomp_script::{
    LineError, Why, behind_items, count_of, critical_name_of, end_of, finish, items_of, member_of,
    number_of, ordered_of, sched_of, take_option, take_word, test_items,
};
use gomp_types::LoopDesc;
use std::alloc::Global;

/// `for KIND CHUNK START END INCR ENDKIND [ordered]`, by what follows the first word.
#[tactic(auto, unfolding(crate::specs::ScriptText::for_line))]
pub(crate) fn for_line(rest: &[u8]) -> Result<Statement, Why>
    ensures { result ≡ for_line (words_of rest.now) }
{
    let (kind, rest) = take_word(rest)?;
    let sched = sched_of(kind).ok_or(Why::UnknownWord)?;
    let (chunk, rest) = take_word(rest)?;
    let (start, rest) = take_word(rest)?;
    let (end, rest) = take_word(rest)?;
    let (incr, rest) = take_word(rest)?;
    let (ending, rest) = take_word(rest)?;
    let end_kind = end_of(ending).ok_or(Why::UnknownWord)?;
    let chunk = number_of(chunk)?;
    let start = number_of(start)?;
    let end = number_of(end)?;
    let incr = number_of(incr)?;
    let ordered = ordered_of(rest)?;
    Ok(Statement::Begin(BlockConstruct::Loop(LoopDesc {
        start,
        end,
        incr,
        sched,
        chunk,
        ordered,
        end_kind,
    })))
}

/// `sections ENDKIND`, by what follows the first word.
#[tactic(auto, unfolding(crate::specs::ScriptText::sections_line))]
pub(crate) fn sections_line(rest: &[u8]) -> Result<Statement, Why>
    ensures { result ≡ sections_line (words_of rest.now) }
{
    let (ending, rest) = take_word(rest)?;
    let end_kind = end_of(ending).ok_or(Why::UnknownWord)?;
    finish(rest)?;
    Ok(Statement::Begin(BlockConstruct::Sections(end_kind)))
}

/// `copy K`, by what follows the first word.
#[tactic(auto, unfolding(crate::specs::ScriptText::copy_line))]
pub(crate) fn copy_line(rest: &[u8]) -> Result<Statement, Why>
    ensures { result ≡ copy_line (words_of rest.now) }
{
    let (sent, rest) = take_word(rest)?;
    let number = number_of(sent)?;
    finish(rest)?;
    Ok(Statement::Begin(BlockConstruct::Copy(number)))
}

/// `critical [NAME]`, by what follows the first word. Whether a name may be as long is not asked here.
#[tactic(auto, unfolding(crate::specs::ScriptText::critical_line))]
pub(crate) fn critical_line(rest: &[u8]) -> Result<Statement, Why>
    ensures { result ≡ critical_line (words_of rest.now) }
{
    let name = critical_name_of(rest)?;
    Ok(Statement::Begin(BlockConstruct::Critical(name)))
}

/// `task [if0] [final] [DEP ADDR]..`, by what follows the first word. Every fault of the line comes
/// before want of memory.
#[tactic(auto, unfolding(crate::specs::ScriptText::task_line))]
pub(crate) fn task_line(alloc: Global, rest: &[u8]) -> Result<Statement, LineError>
    ensures statement { Reads result (task_line (words_of rest.now)) }
    ensures memory { IsErrOf result NoMemory → HasItems (task_line (words_of rest.now)) }
{
    let (undeferred, rest) = take_option(rest, b"if0");
    let (final_task, rest) = take_option(rest, b"final");
    let behind = behind_items(rest)?;
    test_items(rest)?;
    finish(behind)?;
    let deps = items_of(alloc, rest)?;
    Ok(Statement::Begin(BlockConstruct::Task(TaskClauses {
        undeferred,
        final_task,
        deps,
    })))
}

/// The size of a team that this word writes, from 1.
pub(crate) fn size_of(word: &[u8]) -> Result<u32, Why>
    ensures { result ≡ size_of word.now }
{
    let count = count_of(word)?;
    if count == 0 {
        return Err(Why::BadNumber);
    }
    Ok(count)
}

/// `parallel N`, by what follows the first word.
#[tactic(auto, unfolding(crate::specs::ScriptText::parallel_line))]
pub(crate) fn parallel_line(rest: &[u8]) -> Result<Statement, Why>
    ensures { result ≡ parallel_line (words_of rest.now) }
{
    let (count, rest) = take_word(rest)?;
    let size = size_of(count)?;
    finish(rest)?;
    Ok(Statement::Begin(BlockConstruct::Parallel(size)))
}

/// `only M`, by what follows the first word. Whether the team has such a member is not asked here.
#[tactic(auto, unfolding(crate::specs::ScriptText::only_line))]
pub(crate) fn only_line(rest: &[u8]) -> Result<Statement, Why>
    ensures { result ≡ only_line (words_of rest.now) }
{
    let (number, rest) = take_word(rest)?;
    let member = member_of(number)?;
    finish(rest)?;
    Ok(Statement::Begin(BlockConstruct::Only(member)))
}

//! The steps on tasks: `MEMBER task CODE ARG [if0] [final] [DEP ADDR]..`,
//! `MEMBER taskwait [DEP ADDR]..`, and the calls on tasks and groups that are one word.

ghost use Rattle.std.specs.Prelude.{◌≡◌, IsErrOf};
ghost use Rattle.gomp_text.specs.Words.{words_of};
ghost use Rattle.gomp_script.specs.declared.parse.LineError.TheVariants.{NoMemory};
ghost use Rattle.gomp_script.specs.StepText.{HasItems, Reads, TakesOption, task_call_of, task_step, taskwait_step};

use crate::parse::LineError;
use crate::parse::items::{behind_items, items_of, test_items};
use crate::parse::words::{finish, member_of, take_word, unsigned_of};
use gomp_text::{is_word, next_word};
use gomp_types::{Call, Step, TaskDesc};
use std::alloc::Global;

/// The call on tasks or groups that this word is alone.
pub(crate) fn task_call_of(word: &[u8]) -> Option<Call>
    ensures { result ≡ task_call_of word.now }
{
    if is_word(word, b"task_end") {
        return Some(Call::TaskEnd);
    }
    if is_word(word, b"group") {
        return Some(Call::GroupStart);
    }
    if is_word(word, b"group_end") {
        return Some(Call::GroupEnd);
    }
    None
}

/// Whether a line begins with the word of this option, and what follows it then; else the line.
pub fn take_option<'a>(line: &'a [u8], name: &[u8]) -> (bool, &'a [u8])
    ensures { TakesOption name.now line.now result }
{
    let Some((word, rest)) = next_word(line) else {
        return (false, line);
    };
    if is_word(word, name) {
        return (true, rest);
    }
    (false, line)
}

/// The step of this member that creates a task, by the rest of its line. Every fault of the line
/// comes before want of memory.
#[tactic(auto, unfolding(crate::specs::StepText::task_step))]
pub(crate) fn task_step(alloc: Global, member: &[u8], rest: &[u8]) -> Result<Step, LineError>
    ensures step { Reads result (task_step member.now (words_of rest.now)) }
    ensures memory { IsErrOf result NoMemory →
        HasItems (task_step member.now (words_of rest.now)) }
{
    let (code, rest) = take_word(rest)?;
    let (arg, rest) = take_word(rest)?;
    let (undeferred, rest) = take_option(rest, b"if0");
    let (final_task, rest) = take_option(rest, b"final");
    // The items are gone through three times, since faults have an order: a word that may not stand there
    // before a bad number, a bad number before a word behind them, and memory last.
    let behind = behind_items(rest)?;
    let member = member_of(member)?;
    let code = unsigned_of(code)?;
    let arg = unsigned_of(arg)?;
    test_items(rest)?;
    finish(behind)?;
    let deps = items_of(alloc, rest)?;
    Ok(Step {
        member,
        call: Call::TaskCreate(TaskDesc {
            code,
            arg,
            undeferred,
            final_task,
            deps,
        }),
    })
}

/// The step of this member that waits for tasks, by the rest of its line. Every fault of the line
/// comes before want of memory.
#[tactic(auto, unfolding(crate::specs::StepText::taskwait_step))]
pub(crate) fn taskwait_step(alloc: Global, member: &[u8], rest: &[u8]) -> Result<Step, LineError>
    ensures step { Reads result (taskwait_step member.now (words_of rest.now)) }
    ensures memory { IsErrOf result NoMemory →
        HasItems (taskwait_step member.now (words_of rest.now)) }
{
    // The items are gone through three times, since faults have an order: a word that may not stand there
    // before a bad number, a bad number before a word behind them, and memory last.
    let behind = behind_items(rest)?;
    let member = member_of(member)?;
    test_items(rest)?;
    finish(behind)?;
    let items = items_of(alloc, rest)?;
    Ok(Step {
        member,
        call: Call::Taskwait(items),
    })
}

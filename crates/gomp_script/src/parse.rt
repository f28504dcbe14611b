//! From a text of steps to the size of the team and the steps.

ghost use Rattle.std.specs.Prelude.{◌≡◌, ◌≤◌, ◌∷◌, option_copied, vec_len, vec_capacity, OnOk, OnErr, IfSome, IsSome, IsErrOf};
ghost use Rattle.gomp_text.specs.Words.{words_of};
ghost use Rattle.gomp_script.specs.declared.parse.LineError.TheVariants.{NoMemory};
ghost use Rattle.gomp_script.specs.declared.parse.ParseError.TheVariants.{Memory};
ghost use Rattle.gomp_script.specs.StepText.{IsFirstOfLine, call_step, other_step, step_of, team_of, read_line, steps_left, steps_of, steps_kept, begins_comment, fault_in, Gives, HasItems, HasStep, IsNext, IsTeamLine, LineHasItems, Reads, TeamHasStep, refused_by};

mod cancel;
mod critical;
mod items;
mod locks;
mod loops;
mod ordered;
mod payload;
mod plain;
mod sections;
mod task;
mod words;

pub use cancel::cancel_kind_of;
use cancel::{cancel_step, point_step};
pub use critical::critical_name_of;
use critical::{critical_end_step, critical_step};
use gomp_text::{cut_at, is_ascii, is_word, next_word};
use gomp_types::Step;
pub use items::{behind_items, items_of, test_items};
use locks::{lock_call_of, lock_step};
use loops::loop_step;
pub use loops::sched_of;
pub use ordered::ordered_of;
use ordered::ordered_step;
use payload::copy_end_step;
use plain::plain_step;
use sections::sections_step;
use std::alloc::{AllocError, AllocFailed, Global};
pub use task::take_option;
use task::{task_step, taskwait_step};
pub use words::{count_of, end_of, finish, member_of, number_of, take_word};

/// Why a line is bad. A line is tested for these in this order.
#[derive(Clone, Copy, Debug, PartialEq, Eq)]
pub enum Why {
    /// A byte above 127.
    NotAscii,
    /// The first word of the first line that counts is not `team`, or no line counts.
    FirstLine,
    /// A word that should be one of a list, and is not.
    UnknownWord,
    /// The line ends too early.
    MissingWord,
    /// No number stands in a number's place, or one that is out of range.
    BadNumber,
    /// The line goes on.
    ExtraWord,
}

/// The first line of a text that is bad.
#[derive(Clone, Copy, Debug, PartialEq, Eq)]
pub struct BadLine {
    /// Its number, from 1; skipped lines count.
    pub line: u64,
    /// The first of its faults.
    pub why: Why,
}

/// Why a line was not read.
#[derive(Clone, Copy, Debug, PartialEq, Eq)]
pub enum LineError {
    /// Memory was refused, for the items of a `depend` clause.
    NoMemory,
    /// The line is bad: the first of its faults, which comes before want of memory.
    Fault(Why),
}

impl From<Why> for LineError {
    ghost use Rattle.gomp_script.specs.declared.parse.LineError.TheVariants.{Fault};

    ghost from_gives = { λ why e. e ≡ Fault why };

    fn from(why: Why) -> LineError {
        LineError::Fault(why)
    }
}

impl From<AllocError> for LineError {
    ghost use Rattle.gomp_script.specs.declared.parse.LineError.TheVariants.{NoMemory};

    ghost from_gives = { λ _ e. e ≡ NoMemory };

    fn from(_: AllocError) -> LineError {
        LineError::NoMemory
    }
}

/// Why a text was not read.
#[derive(Clone, Copy, Debug, PartialEq, Eq)]
pub enum ParseError {
    /// Memory was refused.
    Memory,
    /// This line is bad, and none before it.
    Bad(BadLine),
}

impl From<AllocError> for ParseError {
    ghost use Rattle.gomp_script.specs.declared.parse.ParseError.TheVariants.{Memory};

    ghost from_gives = { λ _ e. e ≡ Memory };

    fn from(_: AllocError) -> ParseError {
        ParseError::Memory
    }
}

impl<T: Drop> From<AllocFailed<T>> for ParseError {
    ghost from_gives = { λ _ e. e ≡ Memory };

    fn from(_: AllocFailed<T>) -> ParseError {
        ParseError::Memory
    }
}

/// The line of a text that says how many members its team has, and what follows that line.
#[derive(Clone, Copy)]
pub struct TeamLine<'t> {
    /// The number that stands there, 0 to 2^32 - 1: whether a team may have so many members is not asked here.
    pub count: u32,
    /// The lines behind it. None if it is the last.
    pub lines: Option<&'t [u8]>,
    /// The number of the first of them, from 1.
    pub first: u64,
}

/// The line that says how many members the team of a text has, before which are only lines that say nothing. The error is the
/// first bad line, if that line is bad or there is none.
pub fn parse_team(text: &[u8]) -> Result<TeamLine<'_>, BadLine>
    ensures { IsTeamLine text.now result }
{
    let mut rest = Some(text);
    let mut number: u64 = 1;
    while let Some(lines) = rest {
        let (line, after) = cut_at(lines, b'\n');
        let team = match read_team(line) {
            Ok(team) => team,
            Err(why) => return Err(BadLine { line: number, why }),
        };
        rest = after;
        number = number.saturating_add(1);
        if let Some(count) = team {
            return Ok(TeamLine {
                count,
                lines: rest,
                first: number,
            });
        }
    }
    Err(BadLine {
        line: 1,
        why: Why::FirstLine,
    })
}

/// The size of the team that a text asks for, and its steps. The size is the number that stands
/// there, 0 to 2^32 - 1: whether a team may have it is not asked here.
///
/// The error is the first bad line, with the first of its faults, whatever memory does; or want of
/// memory, but only for a text that has a step and no bad line.
pub fn parse_steps(alloc: Global, text: &[u8]) -> Result<(u32, Vec<Step>), ParseError>
    ensures steps { Gives (λ found. (found.0, found.1.items)) result (steps_of text.now) }
    ensures memory { IsErrOf result Memory → TeamHasStep (steps_of text.now) }
{
    let team = match parse_team(text) {
        Ok(team) => team,
        Err(bad) => return Err(ParseError::Bad(bad)),
    };
    match parse_lines(alloc, team.lines, team.first) {
        Ok(steps) => Ok((team.count, steps)),
        Err(error) => Err(error),
    }
}

/// The steps of these lines, of which the first has this number.
///
/// If memory is refused, the lines that are left are read without keeping their steps: a bad one
/// comes before want of memory.
fn parse_lines(alloc: Global, lines: Option<&[u8]>, first: u64) -> Result<Vec<Step>, ParseError>
    ensures steps { Gives (λ steps. steps.items) result
        (steps_left first (option_copied lines.entry)) }
    ensures memory { IsErrOf result Memory →
        HasStep (steps_left first (option_copied lines.entry)) }
{
    let mut steps = Vec::new(alloc);
    let mut rest = lines;
    let mut number = first;
    while let Some(lines) = rest {
        let (line, after) = cut_at(lines, b'\n');
        let step = match read_step(alloc, line) {
            Ok(step) => step,
            Err(LineError::Fault(why)) => {
                return Err(ParseError::Bad(BadLine { line: number, why }));
            }
            Err(LineError::NoMemory) => {
                return Err(first_fault(alloc, after, number.saturating_add(1)));
            }
        };
        rest = after;
        number = number.saturating_add(1);
        if keep(&mut steps, step).is_err() {
            return Err(first_fault(alloc, rest, number));
        }
    }
    Ok(steps)
}

/// The first bad line of these, of which the first has this number; want of memory if none is bad.
/// A line whose items find no memory is not bad.
pub fn first_fault(alloc: Global, lines: Option<&[u8]>, first: u64) -> ParseError
    ensures { result ≡ refused_by (steps_left first (option_copied lines.entry)) }
{
    let mut rest = lines;
    let mut number = first;
    while let Some(lines) = rest {
        let (line, after) = cut_at(lines, b'\n');
        if let Some(why) = fault_of(alloc, line) {
            return ParseError::Bad(BadLine { line: number, why });
        }
        rest = after;
        number = number.saturating_add(1);
    }
    ParseError::Memory
}

/// The first fault of a line, if it has one, whatever memory does.
fn fault_of(alloc: Global, line: &[u8]) -> Option<Why>
    ensures { result ≡ fault_in (read_line step_of line.now) }
{
    match read_step(alloc, line) {
        Err(LineError::Fault(why)) => Some(why),
        Err(LineError::NoMemory) => None,
        Ok(_) => None,
    }
}

/// Keeps the step of a line, if it has one. Only a step takes memory, and only if the list is full.
fn keep(steps: &mut Vec<Step>, step: Option<Step>) -> Result<(), AllocError>
    ensures kept { OnOk result (steps.new.items ≡ steps_kept steps.old.items step) }
    ensures step { OnErr result (IsSome step) }
    ensures full { OnErr result (vec_capacity steps.old ≤ vec_len steps.old) }
{
    match step {
        Some(step) => Ok(steps.push(step)?),
        None => Ok(()),
    }
}

/// What a line says of the team, if it says anything.
fn read_team(line: &[u8]) -> Result<Option<u32>, Why>
    ensures { result ≡ read_line team_of line.now }
{
    let Some((word, rest)) = first_word(line)? else {
        return Ok(None);
    };
    let count = team_words(word, rest)?;
    Ok(Some(count))
}

/// The step of a line, if it has one. The error is the first of its faults; or want of memory, but only for a line that has items
/// of a `depend` clause and no fault.
pub fn read_step(alloc: Global, line: &[u8]) -> Result<Option<Step>, LineError>
    ensures step { Reads result (read_line step_of line.now) }
    ensures memory { IsErrOf result NoMemory → LineHasItems (read_line step_of line.now) }
{
    let Some((word, rest)) = first_word(line)? else {
        return Ok(None);
    };
    let step = step_words(alloc, word, rest)?;
    Ok(Some(step))
}

/// The member that asks for its next chunk, if the line is that step. A loop makes it again and again, so who answers line by line
/// looks for it first: it takes no [`Step`], which has room for the words of a single.
pub fn next_member(line: &[u8]) -> Option<u16>
    ensures { IfSome result (λ member. IsNext member line.now) }
{
    // Any other line is read once more, whole: so the end of it is looked at first. A number before it is one word, the first.
    let Some(member) = line.strip_suffix(b" next") else {
        return None;
    };
    match member_of(member) {
        Ok(member) => Some(member),
        Err(_) => None,
    }
}

/// The first word of a line, and the rest of the line after it. None if the line has no word, or
/// is a comment.
pub fn first_word(line: &[u8]) -> Result<Option<(&[u8], &[u8])>, Why>
    ensures { IsFirstOfLine line.now result }
{
    if !is_ascii(line) {
        return Err(Why::NotAscii);
    }
    let Some((word, rest)) = next_word(line) else {
        return Ok(None);
    };
    if begins_comment(word) {
        return Ok(None);
    }
    Ok(Some((word, rest)))
}

/// Whether a line that begins with this word is a comment.
fn begins_comment(word: &[u8]) -> bool
    ensures { result ≡ begins_comment word.now }
{
    matches!(word, [b'#', ..])
}

/// `team N`, by its first word and what follows it.
#[tactic(auto, unfolding(crate::specs::StepText::team_of))]
pub(crate) fn team_words(first: &[u8], rest: &[u8]) -> Result<u32, Why>
    ensures { result ≡ team_of (first.now ∷ words_of rest.now) }
{
    if !is_word(first, b"team") {
        return Err(Why::FirstLine);
    }
    let (count, rest) = take_word(rest)?;
    let count = count_of(count)?;
    finish(rest)?;
    Ok(count)
}

/// `MEMBER CALL`, by its first word and what follows it.
pub(crate) fn step_words(alloc: Global, member: &[u8], rest: &[u8]) -> Result<Step, LineError>
    ensures step { Reads result (step_of (member.now ∷ words_of rest.now)) }
    ensures memory { IsErrOf result NoMemory →
        HasItems (step_of (member.now ∷ words_of rest.now)) }
{
    let (call, rest) = take_word(rest)?;
    call_step(alloc, member, call, rest)
}

/// The same, by the word of the call and what follows it.
fn call_step(alloc: Global, member: &[u8], call: &[u8], rest: &[u8]) -> Result<Step, LineError>
    ensures step { Reads result (call_step member.now call.now (words_of rest.now)) }
    ensures memory { IsErrOf result NoMemory →
        HasItems (call_step member.now call.now (words_of rest.now)) }
{
    if is_word(call, b"task") {
        return task_step(alloc, member, rest);
    }
    if is_word(call, b"taskwait") {
        return taskwait_step(alloc, member, rest);
    }
    Ok(other_step(member, call, rest)?)
}

/// The same of a call that has no items.
fn other_step(member: &[u8], call: &[u8], rest: &[u8]) -> Result<Step, Why>
    ensures { result ≡ other_step member.now call.now (words_of rest.now) }
{
    if is_word(call, b"loop") {
        return loop_step(member, rest);
    }
    if is_word(call, b"sections") {
        return sections_step(member, rest);
    }
    if is_word(call, b"single_copy_end") {
        return copy_end_step(member, rest);
    }
    if is_word(call, b"ordered") {
        return ordered_step(member, rest);
    }
    if is_word(call, b"critical") {
        return critical_step(member, rest);
    }
    if is_word(call, b"critical_end") {
        return critical_end_step(member, rest);
    }
    if is_word(call, b"cancel") {
        return cancel_step(member, rest);
    }
    if is_word(call, b"point") {
        return point_step(member, rest);
    }
    match lock_call_of(call) {
        Some(lock_call) => lock_step(lock_call, member, rest),
        None => plain_step(member, call, rest),
    }
}

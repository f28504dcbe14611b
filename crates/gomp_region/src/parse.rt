//! From a text to a script.

ghost use Rattle.std.specs.Prelude.{◌≡◌, ◌++◌, ◌∷◌, [], false, option_copied, IfOk, IsErrOf, OnOk};
ghost use Rattle.gomp_text.specs.Words.{words_of};
ghost use Rattle.gomp_script.specs.StepText.{read_line};
ghost use Rattle.gomp_region.specs.declared.parse.Stop.TheVariants.{OutOfMemory};
ghost use Rattle.gomp_region.specs.declared.script.ScriptError.TheVariants.{Bad, Memory};
ghost use Rattle.gomp_region.specs.BlockEnds.{HaveEnds};
ghost use Rattle.gomp_region.specs.BlockGrammar.{WellNested};
ghost use Rattle.gomp_region.specs.ScriptText.{Gives, HasLine, HasStatement, IsRefused, Nests, Passes, line_nested, line_said, refused_by, region_of, script_of, statement_of, statements_left, team_size_of, with_team};

use crate::ends::ends_of;
use crate::line::{line_nesting, read_statement, size_of};
use crate::nesting::OpenBlocks;
use crate::script::{AskedSize, BadScript, Script, ScriptError, ScriptLine, ScriptWhy};
use gomp_script::{LineError, Why, finish, first_word};
use gomp_text::{cut_at, is_word, next_word};
use std::alloc::{AllocFailed, Global};

/// Why a line is not kept.
#[derive(Clone, Copy)]
enum Stop {
    /// Memory was refused.
    OutOfMemory,
    /// The line is bad.
    BadHere(ScriptWhy),
}

impl From<LineError> for Stop {
    ghost use Rattle.gomp_region.specs.ScriptText.{stop_of};

    ghost from_gives = { λ error stop. stop ≡ stop_of error };

    fn from(error: LineError) -> Stop {
        match error {
            LineError::NoMemory => Stop::OutOfMemory,
            LineError::Fault(why) => Stop::BadHere(ScriptWhy::Words(why)),
        }
    }
}

impl<T: Drop> From<AllocFailed<T>> for Stop {
    ghost use Rattle.gomp_region.specs.declared.parse.Stop.TheVariants.{OutOfMemory};

    ghost from_gives = { λ _ stop. stop ≡ OutOfMemory };

    fn from(_: AllocFailed<T>) -> Stop {
        Stop::OutOfMemory
    }
}

impl From<ScriptWhy> for Stop {
    ghost use Rattle.gomp_region.specs.declared.parse.Stop.TheVariants.{BadHere};

    ghost from_gives = { λ why stop. stop ≡ BadHere why };

    fn from(why: ScriptWhy) -> Stop {
        Stop::BadHere(why)
    }
}

/// The script of a text: the size of its team, its statements, and where their blocks end.
///
/// The error is the first bad line, with the first of its faults, whatever memory does; or want of
/// memory, but only for a text that has a statement and no bad line.
pub fn parse_script(alloc: Global, text: &[u8]) -> Result<Script, ScriptError>
    ensures script { Gives (λ script. (script.team, script.lines.items, script.ends.items))
        result (script_of text.now) }
    ensures nest { IfOk result (λ script. WellNested 0 false script.lines.items) }
    ensures ends { IfOk result (λ script. HaveEnds script.lines.items script.ends.items) }
    ensures memory { IsErrOf result Memory → HasStatement (script_of text.now) }
{
    let mut rest = Some(text);
    let mut number: u64 = 1;
    while let Some(lines) = rest {
        let (line, after) = cut_at(lines, b'\n');
        let region = match read_region(line) {
            Ok(region) => region,
            Err(why) => return Err(bad_line(number, ScriptWhy::Words(why))),
        };
        rest = after;
        number = number.saturating_add(1);
        if let Some(team) = region {
            return read_script(alloc, team, rest, number);
        }
    }
    Err(bad_line(1, ScriptWhy::Words(Why::FirstLine)))
}

/// That this line is bad, for this fault.
fn bad_line(line: u64, why: ScriptWhy) -> ScriptError
    ensures { result ≡ Bad (record { line = line; why = why }) }
{
    ScriptError::Bad(BadScript { line, why })
}

/// The script of a team of this size and of these lines, of which the first has this number.
fn read_script(
    alloc: Global,
    team: AskedSize,
    lines: Option<&[u8]>,
    first: u64,
) -> Result<Script, ScriptError>
    ensures script { Gives (λ script. (script.team, script.lines.items, script.ends.items))
        result (with_team team (statements_left first [] (option_copied lines.entry))) }
    ensures nest { IfOk result (λ script. WellNested 0 false script.lines.items) }
    ensures ends { IfOk result (λ script. HaveEnds script.lines.items script.ends.items) }
    ensures memory { IsErrOf result Memory →
        HasStatement (with_team team (statements_left first [] (option_copied lines.entry))) }
{
    let lines = read_lines(alloc, lines, first)?;
    match ends_of(alloc, &lines) {
        Ok(ends) => Ok(Script { team, lines, ends }),
        Err(_) => Err(ScriptError::Memory),
    }
}

/// The statements of these lines, of which the first has this number.
///
/// If memory is refused, the lines that are left are read without keeping their statements: a bad one
/// comes before want of memory.
fn read_lines(
    alloc: Global,
    lines: Option<&[u8]>,
    first: u64,
) -> Result<Vec<ScriptLine>, ScriptError>
    ensures lines { Gives (λ kept. kept.items) result
        (statements_left first [] (option_copied lines.entry)) }
    ensures nest { IfOk result (λ kept. WellNested 0 false kept.items) }
    ensures memory { IsErrOf result Memory →
        HasLine (statements_left first [] (option_copied lines.entry)) }
{
    let mut kept = Vec::new(alloc);
    let mut around = OpenBlocks::new();
    let mut rest = lines;
    let mut number = first;
    while let Some(lines) = rest {
        let (line, after) = cut_at(lines, b'\n');
        match keep_line(alloc, line, number, &mut around, &mut kept) {
            Ok(()) => {}
            Err(Stop::BadHere(why)) => return Err(bad_line(number, why)),
            Err(Stop::OutOfMemory) => return Err(first_fault(alloc, rest, number, around)),
        }
        rest = after;
        number = number.saturating_add(1);
    }
    match around.finish() {
        Ok(()) => Ok(kept),
        Err(bad) => Err(ScriptError::Bad(bad)),
    }
}

/// Keeps the statement of a line of this number, if it has one, and goes past it. If memory is
/// refused the open blocks stay as they are.
fn keep_line(
    alloc: Global,
    line: &[u8],
    number: u64,
    around: &mut OpenBlocks,
    kept: &mut Vec<ScriptLine>,
) -> Result<(), Stop>
    ensures blocks { Passes result
        (line_nested number (read_line statement_of line.now) around.old) around.new }
    ensures kept { OnOk result (kept.new.items ≡
        kept.old.items ++ line_said number (read_line statement_of line.now)) }
    ensures memory { IsErrOf result OutOfMemory →
        IsRefused (read_line statement_of line.now) around.old around.new }
{
    let Some(statement) = read_statement(alloc, line)? else {
        return Ok(());
    };
    let nesting = statement.nesting();
    kept.push(ScriptLine { number, statement })?;
    around.pass(number, nesting)?;
    Ok(())
}

/// The first bad line of these, of which the first has this number, inside these blocks; want of
/// memory if none is bad.
fn first_fault(
    alloc: Global,
    lines: Option<&[u8]>,
    first: u64,
    mut around: OpenBlocks,
) -> ScriptError
    ensures { result ≡ refused_by
        (statements_left first around (option_copied lines.entry)) }
{
    let mut rest = lines;
    let mut number = first;
    while let Some(lines) = rest {
        let (line, after) = cut_at(lines, b'\n');
        if let Err(why) = pass_line(alloc, line, number, &mut around) {
            return bad_line(number, why);
        }
        rest = after;
        number = number.saturating_add(1);
    }
    match around.finish() {
        Ok(()) => ScriptError::Memory,
        Err(bad) => ScriptError::Bad(bad),
    }
}

/// Goes past a line of this number without keeping its statement, whatever memory does.
fn pass_line(
    alloc: Global,
    line: &[u8],
    number: u64,
    around: &mut OpenBlocks,
) -> Result<(), ScriptWhy>
    ensures { Nests result
        (line_nested number (read_line statement_of line.now) around.old) around.new }
{
    match line_nesting(alloc, line) {
        Ok(Some(nesting)) => around.pass(number, nesting),
        Ok(None) => Ok(()),
        Err(why) => Err(ScriptWhy::Words(why)),
    }
}

/// What a line says of the team, if it says anything.
fn read_region(line: &[u8]) -> Result<Option<AskedSize>, Why>
    ensures { result ≡ read_line region_of line.now }
{
    let Some((word, rest)) = first_word(line)? else {
        return Ok(None);
    };
    let team = region_words(word, rest)?;
    Ok(Some(team))
}

/// `region` or `region N`, by its first word and what follows it.
#[tactic(auto, unfolding(crate::specs::ScriptText::region_of))]
fn region_words(first: &[u8], rest: &[u8]) -> Result<AskedSize, Why>
    ensures { result ≡ region_of (first.now ∷ words_of rest.now) }
{
    if !is_word(first, b"region") {
        return Err(Why::FirstLine);
    }
    team_size_of(rest)
}

/// The size of the team, by what follows the first word.
fn team_size_of(rest: &[u8]) -> Result<AskedSize, Why>
    ensures { result ≡ team_size_of (words_of rest.now) }
{
    let Some((word, rest)) = next_word(rest) else {
        return Ok(AskedSize::Unstated);
    };
    let size = size_of(word)?;
    finish(rest)?;
    Ok(AskedSize::Stated(size))
}

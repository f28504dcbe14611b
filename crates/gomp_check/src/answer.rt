//! From a text to the line that says what it is, and the exit status.

ghost use Rattle.std.specs.Prelude.{◌≡◌, IfOk, string_bytes};
ghost use Rattle.gomp_script.specs.StepText.{steps_of};
ghost use Rattle.gomp_region.specs.ScriptText.{script_of};
ghost use Rattle.gomp_check.specs.Checked.{IsAnswer, checked, counted, is_script, later_lines, line_kind, script_checked, steps_checked};

use gomp_region::{ScriptError, parse_script, print_bad_script};
use gomp_script::{ParseError, Why, first_word, parse_steps, print_bad_line};
use gomp_service::answer::Answer;
use gomp_text::{cut_at, is_word};
use std::alloc::{AllocError, Global};

/// Whether a text is one of steps or a script, and how many lines behind its first are not skipped; or
/// its first bad line. The status is 0, or 1 if a line is bad. The error is want of memory.
pub fn check_text(alloc: Global, text: &[u8]) -> Result<Answer, AllocError>
    ensures { IfOk result (IsAnswer (checked text.now)) }
{
    if is_script(text) {
        check_script(alloc, text)
    } else {
        check_steps(alloc, text)
    }
}

/// The same of a text that is read as a script.
fn check_script(alloc: Global, text: &[u8]) -> Result<Answer, AllocError>
    ensures { IfOk result (IsAnswer (script_checked (later_lines text.now) (script_of text.now))) }
{
    match parse_script(alloc, text) {
        Ok(script) => counted(alloc, "script", script.lines.len()),
        Err(ScriptError::Bad(bad)) => Ok(refused(print_bad_script(alloc, &bad)?)),
        Err(ScriptError::Memory) => Err(AllocError),
    }
}

/// The same of a text that is read as one of steps.
fn check_steps(alloc: Global, text: &[u8]) -> Result<Answer, AllocError>
    ensures { IfOk result (IsAnswer (steps_checked (later_lines text.now) (steps_of text.now))) }
{
    match parse_steps(alloc, text) {
        Ok((_, steps)) => counted(alloc, "steps", steps.len()),
        Err(ParseError::Bad(bad)) => Ok(refused(print_bad_line(alloc, &bad)?)),
        Err(ParseError::Memory) => Err(AllocError),
    }
}

/// What is written for a text of this kind without a bad line, that has so many lines behind its first.
fn counted(alloc: Global, kind: &str, lines: usize) -> Result<Answer, AllocError>
    ensures { IfOk result (IsAnswer (counted kind.now lines)) }
{
    let text = format!(in alloc; "{kind} {lines}\n")?;
    Ok(Answer { text, code: 0 })
}

/// What is written for a text that is refused by this line.
fn refused(text: String) -> Answer
    ensures { IsAnswer (string_bytes text, 1) result }
{
    Answer { text, code: 1 }
}

/// Whether the first word of the first line that counts is `region`. It is not if a byte before is not
/// ASCII: then either kind of text is bad at that line.
fn is_script(text: &[u8]) -> bool
    ensures { result ≡ is_script text.now }
{
    let mut rest = Some(text);
    while let Some(lines) = rest {
        let (line, after) = cut_at(lines, b'\n');
        match line_kind(line) {
            Ok(Some(region)) => return region,
            Ok(None) => rest = after,
            Err(_) => return false,
        }
    }
    false
}

/// Whether the first word of a line is `region`, if it has one and is no comment.
fn line_kind(line: &[u8]) -> Result<Option<bool>, Why>
    ensures { result ≡ line_kind line.now }
{
    let Some((word, _)) = first_word(line)? else {
        return Ok(None);
    };
    Ok(Some(is_word(word, b"region")))
}

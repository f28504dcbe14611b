//! From a line of a talk to the team that it begins, or the step that it makes.

ghost use Rattle.std.specs.Prelude.{◌≡◌, ◌∷◌, IsErrOf};
ghost use Rattle.gomp_text.specs.Words.{words_of};
ghost use Rattle.gomp_script.specs.declared.parse.LineError.TheVariants.{NoMemory};
ghost use Rattle.gomp_script.specs.LiveText.{AskedHasItems, LiveHasItems, live_of, read_live_line};
ghost use Rattle.gomp_script.specs.StepText.{Reads};

use crate::parse::{LineError, Why, first_word, step_words, team_words};
use gomp_text::is_word;
use gomp_types::Step;
use std::alloc::Global;

/// What a line asks for.
#[derive(Debug, Drop, PartialEq, Eq)]
pub enum LiveLine {
    /// `team N`: a new team of this size, 0 to 2^32 - 1; whether a team may have it is not asked here.
    NewTeam(u32),
    /// `MEMBER CALL`: a step of the team that stands.
    NextStep(Step),
}

/// What a line asks for, if it asks for anything, where a team stands or none does. Before the first
/// team a line that is not `team N` is bad, as the first line of a text is.
///
/// The error is the first fault of the line, whatever memory does; or want of memory, but only for a
/// good line with an item of a `depend` clause.
pub fn parse_live_line(
    alloc: Global,
    line: &[u8],
    has_team: bool,
) -> Result<Option<LiveLine>, LineError>
    ensures asked { Reads result (read_live_line has_team line.now) }
    ensures memory { IsErrOf result NoMemory → LiveHasItems (read_live_line has_team line.now) }
{
    let Some((word, rest)) = first_word(line)? else {
        return Ok(None);
    };
    let asked = live_words(alloc, word, rest, has_team)?;
    Ok(Some(asked))
}

/// The same of a line's first word and what follows it.
fn live_words(
    alloc: Global,
    word: &[u8],
    rest: &[u8],
    has_team: bool,
) -> Result<LiveLine, LineError>
    ensures asked { Reads result (live_of has_team (word.now ∷ words_of rest.now)) }
    ensures memory { IsErrOf result NoMemory →
        AskedHasItems (live_of has_team (word.now ∷ words_of rest.now)) }
{
    if is_word(word, b"team") {
        let count = team_words(word, rest)?;
        return Ok(LiveLine::NewTeam(count));
    }
    if !has_team {
        return Err(LineError::Fault(Why::FirstLine));
    }
    let step = step_words(alloc, word, rest)?;
    Ok(LiveLine::NextStep(step))
}

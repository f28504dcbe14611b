//! Texts of steps as they are read, and replies as they are printed.

ghost use Rattle.std.specs.Prelude.{◌≡◌, IsErrOf, ◌≢◌, [], string_bytes, IfOk, IfErr, flat_map};
ghost use Rattle.gomp_script.specs.declared.parse.LineError.TheVariants.{NoMemory};
ghost use Rattle.gomp_script.specs.declared.parse.ParseError.TheVariants.{Memory};
ghost use Rattle.gomp_script.specs.StepText.{steps_of, Gives, Reads, TeamHasStep};
ghost use Rattle.gomp_script.specs.LiveText.{LiveHasItems, read_live_line};
ghost use Rattle.gomp_script.specs.Printing.{reply_line};

use gomp_script::{LineError, LiveLine, ParseError};
use gomp_types::{Reply, Step};
use std::alloc::{AllocError, Global};

/// Reads a text of steps.
pub fn parse_steps(alloc: Global, text: &[u8]) -> Result<(u32, Vec<Step>), ParseError>
    ensures steps { Gives (λ found. (found.0, found.1.items)) result (steps_of text.now) }
    ensures memory { IsErrOf result Memory → TeamHasStep (steps_of text.now) }
{
    gomp_script::parse_steps(alloc, text)
}

/// Reads a line of a talk.
pub fn parse_live_line(
    alloc: Global,
    line: &[u8],
    has_team: bool,
) -> Result<Option<LiveLine>, LineError>
    ensures asked { Reads result (read_live_line has_team line.now) }
    ensures memory { IsErrOf result NoMemory → LiveHasItems (read_live_line has_team line.now) }
{
    gomp_script::parse_live_line(alloc, line, has_team)
}

/// Prints replies.
pub fn print_replies(alloc: Global, replies: &[Reply]) -> Result<String, AllocError>
    ensures lines { IfOk result (λ text. string_bytes text ≡ flat_map reply_line replies.now) }
    ensures memory { IfErr result (λ _. replies.now ≢ []) }
{
    gomp_script::print_replies(alloc, replies)
}

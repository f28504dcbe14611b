//! How the program ends: the notes and the status of each end.

ghost use Rattle.std.specs.Prelude.{◌≡◌, ◌≤◌, Some};
ghost use Rattle.std.specs.IoError.{error_kind};
ghost use Rattle.clap.specs.Words.{kind_of};
ghost use Rattle.gomp_serve.specs.Ends.{HasNoWords, IsFault, IsShown, IsStatus, ReportsError};
ghost use Rattle.gomp_service.specs.declared.notes.Notes.TheVariants.{NoMemory, OutputFault};

use clap::Error;
use clap::error::ErrorKind;
use gomp_service::notes::{Notes, Status};
use gomp_service::read::Ending;
use gomp_service::write::write_whole;
use gomp_types::Refusal;
use std::alloc::Global;
use std::io::{self, Write};

/// The end if the input was served, and these words were ignored before.
pub(crate) fn status_of_ending(ending: Ending, ignored: Vec<Refusal>) -> Status
    ensures { IsStatus ending ignored.items result }
{
    match ending {
        Ending::Answered(code) if ignored.is_empty() => Status {
            code,
            notes: Notes::Nothing,
        },
        Ending::Answered(code) => Status {
            code,
            notes: Notes::Ignored(ignored),
        },
        Ending::NoMemory => no_memory(),
        Ending::InputFault | Ending::TooLong => Status {
            code: 1,
            notes: Notes::InputFault,
        },
        Ending::OutputFault => output_fault(),
    }
}

/// The end if this word has no `=`.
pub(crate) fn no_equals(alloc: Global, word: &str) -> Status
    ensures { IsFault (Some word.now) result.notes result.code }
{
    match format!(in alloc; "error: the word '{word}' is not NAME=VALUE\n") {
        Ok(text) => Status {
            code: 1,
            notes: Notes::Command(text),
        },
        Err(_) => no_memory(),
    }
}

/// The end if the words are no command: it writes help and the version, and notes a fault.
pub(crate) fn report_error<W: Write>(alloc: Global, error: &Error, writer: &mut W) -> Status
    ensures { ReportsError (kind_of error.now)
        (W.contents writer.old) (W.contents writer.new) result }
{
    if let ErrorKind::OutOfMemory = error.kind() {
        return no_memory();
    }
    let Ok(text) = error.to_string(alloc) else {
        return no_memory();
    };
    if error.use_stderr() {
        return Status {
            code: 1,
            notes: Notes::Command(text),
        };
    }
    show(writer, text.as_bytes())
}

/// Writes help, or the version: the end is a good one if the output took all of it.
fn show<W: Write>(writer: &mut W, bytes: &[u8]) -> Status
    ensures { IsShown (W.contents writer.old) (W.contents writer.new) bytes.now
        result.notes result.code }
{
    if !write_whole(writer, bytes) {
        return output_fault();
    }
    Status {
        code: 0,
        notes: Notes::Nothing,
    }
}

/// The end if the words of the command line cannot be had.
pub(crate) fn status_without_words(alloc: Global, error: &io::Error) -> Status
    ensures notes { HasNoWords (error_kind error.now) result.notes result.code }
    ensures number { result.code ≤ 3 }
{
    if let io::ErrorKind::OutOfMemory = error.kind() {
        return no_memory();
    }
    match String::from_str(alloc, "error: a word of the command line is not UTF-8\n") {
        Ok(text) => Status {
            code: 1,
            notes: Notes::Command(text),
        },
        Err(_) => no_memory(),
    }
}

/// The end if memory was refused outside of the steps.
pub(crate) fn no_memory() -> Status
    ensures { result ≡ record { code = 3; notes = NoMemory } }
{
    Status {
        code: 3,
        notes: Notes::NoMemory,
    }
}

/// The end if the output could not be written whole.
fn output_fault() -> Status
    ensures { result ≡ record { code = 1; notes = OutputFault } }
{
    Status {
        code: 1,
        notes: Notes::OutputFault,
    }
}

//! What is noted beside the output, how it is written, and the number with which the program ends.

ghost use Rattle.std.specs.Prelude.{◌≡◌, IfOk, OnOk};
ghost use Rattle.gomp_service.specs.Notes.{AddsLines, AddsNotes, IsNoted};

use gomp_types::Refusal;
use std::io::{self, Write};

/// What is noted beside the output, on standard error.
#[derive(Drop)]
pub enum Notes {
    Nothing,
    /// Memory was refused outside of the steps.
    NoMemory,
    /// The command line is refused, for this reason.
    Command(String),
    /// These words of the environment were ignored, at least one, each with `BadEnv` (E41).
    Ignored(Vec<Refusal>),
    /// The text could not be read, or is too long.
    InputFault,
    /// The output could not be written whole.
    OutputFault,
}

/// How the program ends.
#[derive(Drop)]
pub struct Status {
    /// 0 if the text was answered; 1 if a line of it is bad, the command line is refused, or
    /// input or output failed; 2 if there is no such team; 3 for want of memory.
    pub code: u8,
    /// What is noted beside the output.
    pub notes: Notes,
}

/// Writes what is noted at this end, and gives the number with which the program ends. The error is that
/// the notes could not be written.
pub fn finish<W: Write>(status: &Status, errors: &mut W) -> io::Result<u8>
    ensures code { IfOk result (λ code. code ≡ status.now.code) }
    ensures noted { OnOk result
        (IsNoted status.now (W.contents errors.old) (W.contents errors.new)) }
{
    write_notes(&status.notes, errors)?;
    Ok(status.code)
}

/// Writes the lines of these notes, and nothing else.
pub fn write_notes<W: Write>(notes: &Notes, writer: &mut W) -> io::Result<()>
    ensures { OnOk result (AddsNotes notes.now (W.contents writer.old) (W.contents writer.new)) }
{
    match notes {
        Notes::Nothing => writer.write_all(b""),
        Notes::NoMemory => writer.write_all(b"no memory\n"),
        Notes::Command(text) => writer.write_all(text.as_bytes()),
        Notes::Ignored(words) => write_ignored(words, writer),
        Notes::InputFault => writer.write_all(b"input fault\n"),
        Notes::OutputFault => writer.write_all(b"output fault\n"),
    }
}

/// Writes a line for each of these words of the environment, which were ignored.
fn write_ignored<W: Write>(words: &[Refusal], writer: &mut W) -> io::Result<()>
    ensures { OnOk result (AddsLines words.now (W.contents writer.old) (W.contents writer.new)) }
{
    for word in words {
        if let Refusal::BadEnv(name) = word {
            writeln!(writer, "ignored {name}")?;
        }
    }
    Ok(())
}

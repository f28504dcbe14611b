//! `ompteam check`: reads a text, and writes what it is.

ghost use Rattle.gomp_check.specs.Serving.{Checks};

use crate::answer::check_text;
use gomp_service::read::{Ending, MAX_TEXT, read_text};
use gomp_service::write::write_whole;
use std::alloc::Global;
use std::io::{Read, Write};

/// Reads a text of at most 2^24 bytes, whole, and writes the line that says what it is, or its first bad
/// line, and nothing else. No team is made.
pub fn serve_check<R: Read + Drop, W: Write>(alloc: Global, reader: R, writer: &mut W) -> Ending
    ensures { Checks
        (R.remaining reader) (W.contents writer.old) (W.contents writer.new) result }
{
    let text = match read_text(alloc, reader, MAX_TEXT) {
        Ok(text) => text,
        Err(ending) => return ending,
    };
    let Ok(answer) = check_text(alloc, text.as_slice()) else {
        return Ending::NoMemory;
    };
    if !write_whole(writer, answer.text.as_bytes()) {
        return Ending::OutputFault;
    }
    Ending::Answered(answer.code)
}

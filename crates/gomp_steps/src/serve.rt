//! `ompteam steps`: reads a text of steps, runs it, and writes each reply on a line.

ghost use Rattle.gomp_steps.specs.Serving.{Serves};

use crate::answer::answer_steps;
use gomp_icv::Icv;
use gomp_service::read::{Ending, MAX_TEXT, read_text};
use gomp_service::write::write_whole;
use gomp_shares::Shares;
use std::alloc::Global;
use std::io::{Read, Write};

/// Reads a text of steps, and writes the answer of a team by these control variables to it and nothing
/// else.
pub fn serve_steps<S: Shares + Drop, R: Read + Drop, W: Write>(
    alloc: Global,
    icv: Icv,
    reader: R,
    writer: &mut W,
) -> Ending
    ensures { Serves icv
        (R.remaining reader) (W.contents writer.old) (W.contents writer.new) result }
{
    let text = match read_text(alloc, reader, MAX_TEXT) {
        Ok(text) => text,
        Err(ending) => return ending,
    };
    let Ok(answer) = answer_steps::<S>(alloc, icv, text.as_slice()) else {
        return Ending::NoMemory;
    };
    if !write_whole(writer, answer.text.as_bytes()) {
        return Ending::OutputFault;
    }
    Ending::Answered(answer.code)
}

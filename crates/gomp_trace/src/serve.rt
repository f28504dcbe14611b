//! `ompteam trace`: reads a text of steps, runs it, and writes the trace of the run.

ghost use Rattle.gomp_trace.specs.Serving.{Traces};

use crate::answer::trace_answer;
use gomp_icv::Icv;
use gomp_service::read::{Ending, MAX_TEXT, read_text};
use gomp_service::write::write_whole;
use gomp_shares::Shares;
use std::alloc::Global;
use std::io::{Read, Write};

/// Reads a text of steps, and writes the trace of its run on a team by these control variables and
/// nothing else.
pub fn serve_trace<S: Shares + Drop, R: Read + Drop, W: Write>(
    alloc: Global,
    icv: Icv,
    reader: R,
    writer: &mut W,
) -> Ending
    ensures { Traces icv
        (R.remaining reader) (W.contents writer.old) (W.contents writer.new) result }
{
    let text = match read_text(alloc, reader, MAX_TEXT) {
        Ok(text) => text,
        Err(ending) => return ending,
    };
    let Ok(answer) = trace_answer::<S>(alloc, icv, text.as_slice()) else {
        return Ending::NoMemory;
    };
    if !write_whole(writer, answer.text.as_bytes()) {
        return Ending::OutputFault;
    }
    Ending::Answered(answer.code)
}

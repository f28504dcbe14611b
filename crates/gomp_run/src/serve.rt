//! `ompteam run`: reads the text of a script, runs its region, and writes what that comes to.

ghost use Rattle.gomp_run.specs.Serving.{ServesRun};

use crate::answer::run_text;
use gomp_crew::Host;
use gomp_icv::Icv;
use gomp_service::read::{Ending, MAX_TEXT, read_text};
use gomp_service::write::write_whole;
use std::alloc::{AllocError, Global};
use std::io::{Read, Write};

/// Reads the text of a script, at most 2^24 bytes, whole, runs its region by these control variables on
/// threads, and writes what that comes to, and nothing else. It returns if each member's program ends.
pub fn serve_run<H: Host, R: Read + Drop, W: Write>(
    rt: &H,
    alloc: Global,
    icv: Icv,
    reader: R,
    writer: &mut W,
) -> Ending
    ensures { ServesRun icv
        (R.remaining reader) (W.contents writer.old) (W.contents writer.new) result }
{
    match read_text(alloc, reader, MAX_TEXT) {
        Ok(text) => match run_text(rt, alloc, icv, text.as_slice()) {
            Ok(answer) if write_whole(writer, answer.text.as_bytes()) => Ending::Answered(
                answer.code,
            ),
            Ok(_) => Ending::OutputFault,
            Err(AllocError) => Ending::NoMemory,
        },
        Err(ending) => ending,
    }
}

//! `ompteam live`: reads line after line, and writes each answer before it reads the next.

ghost use Rattle.std.specs.Prelude.{[]};
ghost use Rattle.gomp_service.specs.Writing.{IsWritten};
ghost use Rattle.gomp_live.specs.Serving.{ServesLive};
ghost use Rattle.gomp_live.specs.Stands.{TalkStands};

use crate::talk::Talk;
use gomp_icv::Icv;
use gomp_service::read::{Ending, read_fault};
use gomp_service::write::write_whole;
use gomp_shares::Shares;
use gomp_text::cut_at;
use std::alloc::Global;
use std::io::{BufRead, Write};

/// Reads lines to the end of the input, and writes to each the answer of a talk by these control
/// variables before it reads the next, and nothing else.
///
/// It ends with `Answered(0)` at the end of the input. The other ends of [`Ending`] are those of a
/// fault; `TooLong` means that 2^64 - 1 lines were answered.
pub fn serve_live<S: Shares + Drop, R: BufRead + Drop, W: Write>(
    alloc: Global,
    icv: Icv,
    mut reader: R,
    writer: &mut W,
) -> Ending
    ensures { ServesLive icv
        (R.remaining reader) (W.contents writer.old) (W.contents writer.new) result }
{
    let mut talk: Talk<S> = Talk::new(icv);
    answer_lines(alloc, &mut talk, &mut reader, writer)
}

/// The same by a talk of which no line was said yet.
fn answer_lines<S: Shares + Drop, R: BufRead, W: Write>(
    alloc: Global,
    talk: &mut Talk<S>,
    reader: &mut R,
    writer: &mut W,
) -> Ending
    requires begins { TalkStands S.stands S.members talk.old [] [] }
    ensures { ServesLive talk.old.icv (R.remaining reader.old)
        (W.contents writer.old) (W.contents writer.new) result }
{
    let mut text = Vec::new(alloc);
    for _ in 0..u64::MAX {
        text.clear();
        match reader.read_until(b'\n', &mut text) {
            Ok(0) => return Ending::Answered(0),
            Ok(_) => (),
            Err(error) => return read_fault(&error),
        }
        let (line, _) = cut_at(text.as_slice(), b'\n');
        let Ok(answer) = talk.answer(alloc, line) else {
            return Ending::NoMemory;
        };
        if !write_answer(writer, answer.as_str()) {
            return Ending::OutputFault;
        }
    }
    Ending::TooLong
}

/// Writes an answer, so that whoever reads it has it now, and says whether it could. If not, a prefix of
/// it was written.
fn write_answer<W: Write>(writer: &mut W, answer: &str) -> bool
    ensures { IsWritten (W.contents writer.old) (W.contents writer.new) answer.now result }
{
    if !write_whole(writer, answer.as_bytes()) {
        return false;
    }
    writer.flush().is_ok()
}

//! The words of the command line, and what is served by them.

use crate::answer::answer_text;
use gomp_command::command::{Service, read_words, request_of};
use gomp_command::settings::read_settings;
use gomp_icv::Icv;
use gomp_service::notes::{Notes, Status};
use gomp_service::read::{Ending, MAX_TEXT, read_text};
use gomp_service::write::write_whole;
use gomp_types::Refusal;
use std::alloc::Global;
use std::env::Args;
use std::io::{self, Read, Write};
use std::sync::Wait;

/// The control variables by the settings behind `steps`, and the settings that are ignored. None if these words ask for anything else,
/// or are refused.
pub(crate) fn asked_of(alloc: Global, words: io::Result<Args>) -> Option<(Icv, Vec<Refusal>)> {
    let words: Vec<String> = words.ok()?.collect(alloc).ok()?;
    let matches = read_words(alloc, words.as_slice()).ok()?;
    let asked = request_of(&matches);
    match asked.service {
        Service::Steps => read_settings(alloc, asked.settings).ok(),
        _ => None,
    }
}

/// Reads a text of steps, writes the answer of members to it, and says how the program ends.
pub(crate) fn serve_by_members<R: Wait, I: Read + Drop, W: Write>(
    rt: &R,
    alloc: Global,
    icv: Icv,
    ignored: Vec<Refusal>,
    reader: I,
    writer: &mut W,
) -> Status {
    let text = match read_text(alloc, reader, MAX_TEXT) {
        Ok(text) => text,
        Err(Ending::NoMemory) => return no_memory(),
        Err(_) => return fault(Notes::InputFault),
    };
    let Ok(answer) = answer_text(rt, alloc, icv, text.as_slice()) else {
        return no_memory();
    };
    if !write_whole(writer, answer.text.as_bytes()) {
        return fault(Notes::OutputFault);
    }
    let notes = if ignored.is_empty() {
        Notes::Nothing
    } else {
        Notes::Ignored(ignored)
    };
    Status {
        code: answer.code,
        notes,
    }
}

/// The end if a stream failed.
fn fault(notes: Notes) -> Status {
    Status { code: 1, notes }
}

/// The end if memory was refused outside of the steps.
fn no_memory() -> Status {
    Status {
        code: 3,
        notes: Notes::NoMemory,
    }
}

//! How a text is read whole, and how a service ends.

ghost use Rattle.std.specs.Prelude.{◌≡◌, IfOk, IfErr};
ghost use Rattle.std.specs.IoError.{error_kind};
ghost use Rattle.gomp_service.specs.Reading.{Whole, IsUnread, unread_as};

use std::alloc::Global;
use std::io::{self, ErrorKind, Read};

/// The longest text that is read, in bytes (own).
pub const MAX_TEXT: u32 = 1 << 24;

/// How a text, or a talk, was served.
#[derive(Clone, Copy)]
pub enum Ending {
    /// The answer was written, and it ends with this status.
    Answered(u8),
    /// Memory was refused; nothing is written.
    NoMemory,
    /// The text could not be read; nothing is written.
    InputFault,
    /// The text is longer than [`MAX_TEXT`]; nothing is written.
    TooLong,
    /// The output could not be written whole; a prefix of it was.
    OutputFault,
}

/// All that the reader gives, if that is at most `limit` bytes; or how the program ends.
pub fn read_text<R: Read + Drop>(alloc: Global, reader: R, limit: u32) -> Result<Vec<u8>, Ending>
    ensures whole { IfOk result (λ text. Whole limit (R.remaining reader) text.items) }
    ensures unread { IfErr result (IsUnread limit (R.remaining reader)) }
{
    let mut bounded = reader.take(limit as u64 + 1);
    let mut text = Vec::new(alloc);
    if let Err(error) = bounded.read_to_end(&mut text) {
        return Err(read_fault(&error));
    }
    if text.len() > limit as usize {
        return Err(Ending::TooLong);
    }
    Ok(text)
}

/// The end after a read that failed.
pub fn read_fault(error: &io::Error) -> Ending
    ensures { result ≡ unread_as (error_kind error.now) }
{
    match error.kind() {
        ErrorKind::OutOfMemory => Ending::NoMemory,
        _ => Ending::InputFault,
    }
}

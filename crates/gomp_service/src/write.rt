//! Writing bytes whole, or a prefix of them.

ghost use Rattle.gomp_service.specs.Writing.{IsWritten};

use std::io::{ErrorKind, Write};

/// Writes these bytes, and says whether all of them were written. If not, a prefix of them was: the
/// writer failed, or took no more. A write that was interrupted is tried again.
pub fn write_whole<W: Write>(writer: &mut W, bytes: &[u8]) -> bool
    ensures { IsWritten (W.contents writer.old) (W.contents writer.new) bytes.now result }
{
    let mut written = 0;
    for _ in 0..u64::MAX {
        if written == bytes.len() {
            return true;
        }
        match writer.write(&bytes[written..]) {
            Ok(0) => return false,
            Ok(count) => written += count,
            Err(error) => {
                if error.kind() != ErrorKind::Interrupted {
                    return false;
                }
            }
        }
    }
    false
}

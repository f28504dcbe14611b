//! The arguments of calls that take no memory.

ghost use Rattle.std.specs.Prelude.{◌≡◌, ◌<◌};
ghost use Rattle.gomp_words.specs.Kinds.{sched_of, end_of, cancel_of, dep_kind_of, flag_of};
ghost use Rattle.gomp_words.specs.Calls.{name_of, payload_of, lock_of};

use arrayvec::ArrayVec;
use gomp_types::critical_name::KEPT_BYTES;
use gomp_types::{CancelKind, CriticalName, DepKind, EndKind, MAX_WORDS, Payload, Sched};

/// The schedule of this number.
pub fn read_sched(number: u64) -> Option<Sched>
    ensures { result ≡ sched_of number }
{
    match number {
        0 => Some(Sched::Runtime),
        1 => Some(Sched::Static),
        2 => Some(Sched::Dynamic),
        3 => Some(Sched::Guided),
        _ => None,
    }
}

/// What stands at a construct's end, by its number.
pub fn read_end_kind(number: u64) -> Option<EndKind>
    ensures { result ≡ end_of number }
{
    match number {
        0 => Some(EndKind::Wait),
        1 => Some(EndKind::Nowait),
        2 => Some(EndKind::Cancellable),
        _ => None,
    }
}

/// What a cancellation names, by libgomp's number.
pub fn read_cancel_kind(number: u64) -> Option<CancelKind>
    ensures { result ≡ cancel_of number }
{
    match number {
        1 => Some(CancelKind::Parallel),
        2 => Some(CancelKind::Loop),
        4 => Some(CancelKind::Sections),
        8 => Some(CancelKind::Taskgroup),
        _ => None,
    }
}

/// The kind of an item of a `depend` clause, by its number.
pub fn read_dep_kind(number: u64) -> Option<DepKind>
    ensures { result ≡ dep_kind_of number }
{
    match number {
        0 => Some(DepKind::DepIn),
        1 => Some(DepKind::DepOut),
        2 => Some(DepKind::DepInout),
        3 => Some(DepKind::DepInoutset),
        4 => Some(DepKind::DepMutex),
        _ => None,
    }
}

/// Whether something is so: 0 or 1.
pub fn read_flag(number: u64) -> Option<bool>
    ensures { result ≡ flag_of number }
{
    match number {
        0 => Some(false),
        1 => Some(true),
        _ => None,
    }
}

/// The number of a lock, below 2^32, which is all that the words say.
pub fn read_lock(words: &[u64]) -> Option<u32>
    ensures { result ≡ lock_of words.now }
{
    match words {
        [lock] => u32::try_from(*lock).ok(),
        _ => None,
    }
}

/// The payload of these words, at most eight.
pub fn read_payload(words: &[u64]) -> Option<Payload>
    ensures { result ≡ payload_of words.now }
{
    if words.len() > MAX_WORDS {
        return None;
    }
    let mut payload = Payload::new();
    for word in words {
        let _ = payload.push(*word);
    }
    Some(payload)
}

/// The critical name of these bytes, at most 33, a word each.
pub fn read_name(words: &[u64]) -> Option<CriticalName>
    ensures { result ≡ name_of words.now }
{
    if words.len() > KEPT_BYTES {
        return None;
    }
    let mut bytes: ArrayVec<u8, KEPT_BYTES> = ArrayVec::new();
    for word in words {
        match u8::try_from(*word) {
            Ok(byte) => bytes.push(byte),
            Err(_) => return None,
        }
    }
    Some(CriticalName::new(bytes.as_slice()))
}

//! The values of the environment's words: numbers, switches and schedules.
//!
//! OpenMP API 5.2, chapter 21. The case of letters is ignored, and so are spaces and tabs around
//! each part of a value.

ghost use Rattle.std.specs.Prelude.{◌≡◌, ◌≤◌, IfSome};
ghost use Rattle.gomp_text.specs.Words.{cut_at};
ghost use Rattle.gomp_icv.specs.Variables.{IsChunk, IsSchedule};
ghost use Rattle.gomp_icv.specs.EnvValues.{number_of, is_named, switch_of, is_modifier, schedule_chosen, kind_and_chunk, schedule_of};

use gomp_text::{cut_at, is_word_in_any_case, unsigned, without_blanks};
use gomp_types::{MAX_CHUNK, Sched};

/// The largest number that a value may be, save a chunk (own).
pub const MAX_NUMBER: u64 = 2_147_483_647;

/// The decimal number that a part of a value is, from `least` to `most`; no sign stands before it.
/// None if the part is no such number.
pub fn number_of(part: &[u8], least: u64, most: u64) -> Option<u64>
    ensures value { result ≡ number_of least most part.now }
    ensures range { IfSome result (λ number. (least ≤ number) × (number ≤ most)) }
{
    match unsigned(without_blanks(part), most) {
        Some(number) if number >= least => Some(number),
        _ => None,
    }
}

/// Whether a part of a value is this word.
fn is_named(part: &[u8], name: &[u8]) -> bool
    ensures { result ≡ is_named part.now name.now }
{
    is_word_in_any_case(without_blanks(part), name)
}

/// `true` or `false`. None if the value is neither.
pub fn switch_of(value: &[u8]) -> Option<bool>
    ensures { result ≡ switch_of value.now }
{
    if is_named(value, b"true") {
        return Some(true);
    }
    if is_named(value, b"false") {
        return Some(false);
    }
    None
}

/// `[monotonic:|nonmonotonic:]kind[,chunk]`, as the schedule and the chunk, which is 0 if there is
/// none (OpenMP API 5.2, section 21.2.1). The modifiers change nothing (own). None if the value
/// is no schedule.
pub fn schedule_of(value: &[u8]) -> Option<(Sched, i64)>
    ensures value { result ≡ schedule_of value.now }
    ensures range { IfSome result (λ found. IsSchedule found.0 found.1) }
{
    let (front, rest) = cut_at(value, b':');
    match rest {
        Some(rest) if is_modifier(front) => kind_and_chunk(rest),
        Some(_) => None,
        None => kind_and_chunk(front),
    }
}

/// Whether a part of a value is a modifier of a schedule.
fn is_modifier(part: &[u8]) -> bool
    ensures { result ≡ is_modifier part.now }
{
    is_named(part, b"monotonic") || is_named(part, b"nonmonotonic")
}

/// `kind[,chunk]`, where a chunk is 1 to 2^39 iterations.
fn kind_and_chunk(text: &[u8]) -> Option<(Sched, i64)>
    ensures value { result ≡ kind_and_chunk (cut_at 44 text.now) }
    ensures range { IfSome result (λ found. IsSchedule found.0 found.1) }
{
    let (kind, chunk) = cut_at(text, b',');
    match chunk {
        Some(chunk) => match number_of(chunk, 1, MAX_CHUNK as u64) {
            Some(number) => schedule_chosen(kind, number as i64),
            None => None,
        },
        None => schedule_chosen(kind, 0),
    }
}

/// The schedule of this kind with this chunk. `auto` leaves the choice to the runtime, which takes
/// a static schedule without a chunk, whatever chunk is given (own).
fn schedule_chosen(kind: &[u8], chunk: i64) -> Option<(Sched, i64)>
    ensures value { result ≡ schedule_chosen kind.now chunk }
    ensures range { IsChunk chunk → IfSome result (λ found. IsSchedule found.0 found.1) }
{
    if is_named(kind, b"static") {
        return Some((Sched::Static, chunk));
    }
    if is_named(kind, b"dynamic") {
        return Some((Sched::Dynamic, chunk));
    }
    if is_named(kind, b"guided") {
        return Some((Sched::Guided, chunk));
    }
    if is_named(kind, b"auto") {
        return Some((Sched::Static, 0));
    }
    None
}

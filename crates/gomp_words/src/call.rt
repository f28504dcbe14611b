//! The call that words say.

ghost use Rattle.std.specs.Prelude.{◌≡◌, ◌∷◌, IfOk, IfSome, IsErr, IsSomeAnd};
ghost use Rattle.gomp_types.specs.Copies.{CopyTakesMemory};
ghost use Rattle.gomp_words.specs.Calls.{call_of, alone, loop_call, sections_call, ordered_call, task_call, taskwait_call, cancel_call, point_call, IsSayable};

use crate::arguments::{
    read_cancel_kind, read_end_kind, read_flag, read_lock, read_name, read_payload, read_sched,
};
use crate::items::read_items;
use gomp_types::{Call, LoopDesc, TaskDesc};
use std::alloc::{AllocError, Global};

/// The call of this number with these arguments; none if there is no such call. The error is want of
/// memory for its items.
pub fn read_call(alloc: Global, number: u64, arguments: &[u64]) -> Result<Option<Call>, AllocError>
    ensures call { IfOk result (λ call. call ≡ call_of (number ∷ arguments.now)) }
    ensures sayable { IfOk result (λ found. IfSome found IsSayable) }
    ensures memory { IsErr result → IsSomeAnd (call_of (number ∷ arguments.now)) CopyTakesMemory }
{
    match number {
        1 => Ok(loop_start(arguments)),
        2 => Ok(without(Call::LoopNext, arguments)),
        3 => Ok(without(Call::LoopEnd, arguments)),
        4 => Ok(without(Call::LoopEndNowait, arguments)),
        5 => Ok(without(Call::LoopEndCancel, arguments)),
        6 => Ok(sections_start(arguments)),
        7 => Ok(without(Call::SectionsNext, arguments)),
        8 => Ok(without(Call::SectionsEnd, arguments)),
        9 => Ok(without(Call::SectionsEndNowait, arguments)),
        10 => Ok(without(Call::SectionsEndCancel, arguments)),
        11 => Ok(without(Call::SingleStart, arguments)),
        12 => Ok(without(Call::SingleCopyStart, arguments)),
        13 => Ok(read_payload(arguments).map(Call::SingleCopyEnd)),
        14 => Ok(ordered_start(arguments)),
        15 => Ok(without(Call::OrderedEnd, arguments)),
        16 => Ok(without(Call::Barrier, arguments)),
        17 => Ok(without(Call::RegionEnd, arguments)),
        18 => Ok(read_name(arguments).map(Call::CriticalStart)),
        19 => Ok(read_name(arguments).map(Call::CriticalEnd)),
        20 => Ok(without(Call::LockInit, arguments)),
        21 => Ok(without(Call::NestInit, arguments)),
        22 => Ok(read_lock(arguments).map(Call::LockDestroy)),
        23 => Ok(read_lock(arguments).map(Call::Set)),
        24 => Ok(read_lock(arguments).map(Call::Test)),
        25 => Ok(read_lock(arguments).map(Call::Unset)),
        26 => Ok(read_lock(arguments).map(Call::SetNest)),
        27 => Ok(read_lock(arguments).map(Call::TestNest)),
        28 => Ok(read_lock(arguments).map(Call::UnsetNest)),
        29 => task_create(alloc, arguments),
        30 => Ok(without(Call::TaskEnd, arguments)),
        31 => taskwait(alloc, arguments),
        32 => Ok(without(Call::GroupStart, arguments)),
        33 => Ok(without(Call::GroupEnd, arguments)),
        34 => Ok(cancel(arguments)),
        35 => Ok(point(arguments)),
        36 => Ok(without(Call::Resume, arguments)),
        37 => Ok(without(Call::Stop, arguments)),
        _ => Ok(None),
    }
}

/// The call, if it is given no arguments.
fn without(call: Call, arguments: &[u64]) -> Option<Call>
    ensures { result ≡ alone call arguments.now }
{
    if arguments.is_empty() {
        Some(call)
    } else {
        None
    }
}

/// The start of a loop with these seven arguments.
fn loop_start(arguments: &[u64]) -> Option<Call>
    ensures call { result ≡ loop_call arguments.now }
    ensures sayable { IfSome result IsSayable }
{
    let [start, end, incr, chunk, sched, ordered, end_kind] = arguments else {
        return None;
    };
    Some(Call::LoopStart(LoopDesc {
        start: start.cast_signed(),
        end: end.cast_signed(),
        incr: incr.cast_signed(),
        sched: read_sched(*sched)?,
        chunk: chunk.cast_signed(),
        ordered: read_flag(*ordered)?,
        end_kind: read_end_kind(*end_kind)?,
    }))
}

/// The start of sections: how many, and what stands at their end.
fn sections_start(arguments: &[u64]) -> Option<Call>
    ensures call { result ≡ sections_call arguments.now }
    ensures sayable { IfSome result IsSayable }
{
    let [count, end_kind] = arguments else {
        return None;
    };
    match u32::try_from(*count) {
        Ok(count) => Some(Call::SectionsStart {
            count,
            end_kind: read_end_kind(*end_kind)?,
        }),
        Err(_) => None,
    }
}

/// The start of the ordered part of the iteration with this value.
fn ordered_start(arguments: &[u64]) -> Option<Call>
    ensures call { result ≡ ordered_call arguments.now }
    ensures sayable { IfSome result IsSayable }
{
    match arguments {
        [value] => Some(Call::OrderedStart(value.cast_signed())),
        _ => None,
    }
}

/// The creation of a task: its code, its argument, whether it is undeferred and whether it is final,
/// then its items.
fn task_create(alloc: Global, arguments: &[u64]) -> Result<Option<Call>, AllocError>
    ensures call { IfOk result (λ call. call ≡ task_call arguments.now) }
    ensures sayable { IfOk result (λ found. IfSome found IsSayable) }
    ensures memory { IsErr result → IsSomeAnd (task_call arguments.now) CopyTakesMemory }
{
    let [code, arg, undeferred, final_task, items @ ..] = arguments else {
        return Ok(None);
    };
    let (Some(undeferred), Some(final_task)) = (read_flag(*undeferred), read_flag(*final_task))
    else {
        return Ok(None);
    };
    match read_items(alloc, items)? {
        Some(deps) => Ok(Some(Call::TaskCreate(TaskDesc {
            code: *code,
            arg: *arg,
            undeferred,
            final_task,
            deps,
        }))),
        None => Ok(None),
    }
}

/// The wait for tasks with these items.
fn taskwait(alloc: Global, arguments: &[u64]) -> Result<Option<Call>, AllocError>
    ensures call { IfOk result (λ call. call ≡ taskwait_call arguments.now) }
    ensures sayable { IfOk result (λ found. IfSome found IsSayable) }
    ensures memory { IsErr result → IsSomeAnd (taskwait_call arguments.now) CopyTakesMemory }
{
    match read_items(alloc, arguments)? {
        Some(items) => Ok(Some(Call::Taskwait(items))),
        None => Ok(None),
    }
}

/// A cancellation: what it names, and its `if` clause.
fn cancel(arguments: &[u64]) -> Option<Call>
    ensures call { result ≡ cancel_call arguments.now }
    ensures sayable { IfSome result IsSayable }
{
    match arguments {
        [kind, clause] => Some(Call::Cancel {
            kind: read_cancel_kind(*kind)?,
            clause: read_flag(*clause)?,
        }),
        _ => None,
    }
}

/// A cancellation point: what it names.
fn point(arguments: &[u64]) -> Option<Call>
    ensures call { result ≡ point_call arguments.now }
    ensures sayable { IfSome result IsSayable }
{
    match arguments {
        [kind] => Some(Call::Point(read_cancel_kind(*kind)?)),
        _ => None,
    }
}

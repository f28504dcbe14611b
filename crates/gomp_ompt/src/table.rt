//! Which records a call gives, as a table: of each call its entries in order, each with its condition.
//!
//! OpenMP API 5.2, chapter 19 (OMPT), section 19.5.2.

ghost use Rattle.std.specs.Prelude.{◌≡◌, ◌<◌, ◌≤◌, ◌+◌, ◌++◌, ◌∷◌, [], true, None};
ghost use Rattle.std.specs.Option.{option_to_list, option_map};
ghost use Rattle.gomp_types.specs.declared.call.Call.TheVariants.{SingleStart, SingleCopyStart, RegionEnd, GroupEnd};
ghost use Rattle.arrayvec.specs.ArrayVec.{array_vec_len};
ghost use Rattle.gomp_ompt.specs.Table.{piece_record, is_finished, is_passed, run_record, done_record, created_task, is_silent, lock_count, start_entries, wait_entries, share_end_entries, acquire_entries, nest_unset_record, nest_set_entries, task_entries, cancel_entries, entries_of, present_records, records_of};
ghost use Rattle.gomp_ompt.specs.declared.table.TheConstants.{MAX_RECORDS};

use crate::record::{Point, Record};
use arrayvec::ArrayVec;
use gomp_types::{Call, CancelKind, Reply, TaskDesc};

/// The most entries of a call.
pub const MAX_RECORDS: usize = 4;

/// The entries of a call: each is a record if its condition holds.
type Entries = [Option<Record>; MAX_RECORDS];

/// The records of a call, in their order. `first` is false at a resume, and `call` is then the call
/// that is resumed. It takes no memory.
///
/// OpenMP API 5.2, section 19.5.2.
pub fn records(call: &Call, first: bool, reply: &Reply) -> ArrayVec<Record, MAX_RECORDS>
    ensures { result.items ≡ records_of call.now first reply.now }
{
    if is_silent(reply) {
        return ArrayVec::new();
    }
    present(entries(call, first, reply))
}

/// The entries of a call whose reply is not silent.
fn entries(call: &Call, first: bool, reply: &Reply) -> Entries
    ensures { present_records result ≡ present_records (entries_of call.now first reply.now) }
{
    match call {
        Call::LoopStart(_) | Call::SectionsStart { .. } => start_entries(reply),
        Call::LoopNext | Call::SectionsNext => only(piece_record(reply)),
        Call::LoopEndNowait | Call::SectionsEndNowait => only(Some(Record::end(Point::Work, 0, 0))),
        Call::LoopEnd | Call::LoopEndCancel | Call::SectionsEnd | Call::SectionsEndCancel => {
            share_end_entries(first, reply)
        }
        Call::SingleStart => single_entries(reply),
        Call::SingleCopyStart => single_copy_entries(reply),
        Call::SingleCopyEnd(_) => only(Some(Record::end(Point::Work, 1, 1))),
        Call::Barrier => wait_entries(1, first, reply),
        Call::RegionEnd => region_end_entries(first, reply),
        Call::TaskCreate(desc) => task_entries(desc, reply),
        Call::TaskEnd => only(done_record(reply)),
        Call::Taskwait(_) => wait_entries(3, first, reply),
        Call::GroupStart => only(Some(Record::begin(Point::SyncRegion, 4, 0))),
        Call::GroupEnd => group_end_entries(reply),
        Call::CriticalStart(_) => acquire_entries(1, 0, first, is_finished(reply)),
        Call::Set(_) => acquire_entries(2, 0, first, is_finished(reply)),
        Call::OrderedStart(_) => acquire_entries(3, 0, first, is_finished(reply)),
        Call::CriticalEnd(_) => only(Some(Record::single(Point::MutexReleased, 1, 0))),
        Call::Unset(_) => only(Some(Record::single(Point::MutexReleased, 2, 0))),
        Call::OrderedEnd => only(Some(Record::single(Point::MutexReleased, 3, 0))),
        Call::Test(_) => acquire_entries(2, 0, first, matches!(reply, Reply::Got(true))),
        Call::SetNest(lock) | Call::TestNest(lock) => nest_set_entries(*lock, first, reply),
        Call::UnsetNest(lock) => only(nest_unset_record(*lock, reply)),
        Call::Cancel { kind, .. } | Call::Point(kind) => only(cancel_record(*kind, reply)),
        Call::LockInit | Call::NestInit | Call::LockDestroy(_) | Call::Resume | Call::Stop => {
            only(None)
        }
    }
}

/// The one entry.
fn only(entry: Option<Record>) -> Entries
    ensures { present_records result ≡ option_to_list entry }
{
    [entry, None, None, None]
}

/// The entries whose condition holds.
fn present(entries: Entries) -> ArrayVec<Record, MAX_RECORDS>
    ensures { result.items ≡ present_records entries }
{
    let mut records = ArrayVec::new();
    let [one, two, three, four] = entries;
    push_present(&mut records, one);
    push_present(&mut records, two);
    push_present(&mut records, three);
    push_present(&mut records, four);
    records
}

/// Appends the entry, if its condition holds.
fn push_present(records: &mut ArrayVec<Record, MAX_RECORDS>, entry: Option<Record>)
    requires { array_vec_len records.old < MAX_RECORDS }
    ensures items { records.new.items ≡ records.old.items ++ option_to_list entry }
    ensures few { array_vec_len records.new ≤ array_vec_len records.old + 1 }
{
    if let Some(record) = entry {
        records.push(record);
    }
}

/// Whether the reply gives no record, whatever the call is.
fn is_silent(reply: &Reply) -> bool
    ensures { result ≡ is_silent reply.now }
{
    matches!(reply, Reply::Refused(_) | Reply::Stopped | Reply::Dropped)
}

/// The start of a loop or of sections: the member enters the share, maybe with a piece.
fn start_entries(reply: &Reply) -> Entries
    ensures { present_records result ≡ present_records (start_entries reply.now) }
{
    let enters = matches!(
        reply,
        Reply::Chunk { .. } | Reply::NoChunk | Reply::Section(_)
    );
    let begin = enters.then_some(Record::begin(Point::Work, 0, 0));
    [begin, piece_record(reply), None, None]
}

/// The piece that the member got, if it got one.
fn piece_record(reply: &Reply) -> Option<Record>
    ensures { result ≡ piece_record reply.now }
{
    match reply {
        Reply::Chunk { first, count } => {
            let bits = first.cast_unsigned();
            Some(Record::single(Point::Dispatch, bits, *count))
        }
        Reply::Section(number) => {
            (*number > 0).then_some(Record::single(Point::Dispatch, *number, 1))
        }
        _ => None,
    }
}

/// The end of a share that has a barrier.
fn share_end_entries(first: bool, reply: &Reply) -> Entries
    ensures { present_records result ≡ present_records (share_end_entries first reply.now) }
{
    let end = first.then_some(Record::end(Point::Work, 0, 0));
    let [begin_wait, run, end_wait, _] = wait_entries(2, first, reply);
    [end, begin_wait, run, end_wait]
}

/// A single without words: the whole of it, at once.
fn single_entries(reply: &Reply) -> Entries
    ensures { present_records result ≡ present_records (entries_of SingleStart true reply.now) }
{
    let Reply::Executor(executes) = reply else {
        return only(None);
    };
    let number = u64::from(*executes);
    let begin = Record::begin(Point::Work, 1, number);
    let end = Record::end(Point::Work, 1, number);
    [Some(begin), Some(end), None, None]
}

/// The start of a single with words: of the executor its begin, of another member the whole.
fn single_copy_entries(reply: &Reply) -> Entries
    ensures { present_records result ≡ present_records (entries_of SingleCopyStart true reply.now) }
{
    match reply {
        Reply::Executor(_) => only(Some(Record::begin(Point::Work, 1, 1))),
        Reply::Copied(_) => {
            let begin = Record::begin(Point::Work, 1, 0);
            let end = Record::end(Point::Work, 1, 0);
            [Some(begin), Some(end), None, None]
        }
        _ => only(None),
    }
}

/// A wait: it begins, the member is given a task, it ends. `place` is the number of what is waited
/// at.
fn wait_entries(place: u64, first: bool, reply: &Reply) -> Entries
    ensures { result ≡ wait_entries place first reply.now ++ None ∷ [] }
{
    let begin = first.then_some(Record::begin(Point::SyncRegion, place, 0));
    let ends = matches!(reply, Reply::Passed | Reply::Cancelled);
    let end = ends.then_some(Record::end(Point::SyncRegion, place, 0));
    [begin, run_record(reply), end, None]
}

/// The end of the region, after which the member's implicit task has ended.
fn region_end_entries(first: bool, reply: &Reply) -> Entries
    ensures { present_records result ≡ present_records (entries_of RegionEnd first reply.now) }
{
    let [begin, run, end, _] = wait_entries(5, first, reply);
    let left = is_passed(reply).then_some(Record::end(Point::ImplicitTask, 0, 0));
    [begin, run, end, left]
}

/// The end of a group of tasks.
fn group_end_entries(reply: &Reply) -> Entries
    ensures { present_records result ≡ present_records (entries_of GroupEnd true reply.now) }
{
    let end = is_passed(reply).then_some(Record::end(Point::SyncRegion, 4, 0));
    [run_record(reply), end, None, None]
}

/// The task that the member begins, if it is given one.
fn run_record(reply: &Reply) -> Option<Record>
    ensures { result ≡ run_record reply.now }
{
    match reply {
        Reply::Run { task, .. } => { Some(Record::begin(Point::TaskSchedule, u64::from(*task), 0)) }
        _ => None,
    }
}

/// The task that the member has ended.
fn done_record(reply: &Reply) -> Option<Record>
    ensures { result ≡ done_record reply.now }
{
    match reply {
        Reply::TaskDone { task, .. } => {
            Some(Record::end(Point::TaskSchedule, u64::from(*task), 0))
        }
        _ => None,
    }
}

/// A task that is created, with its items if it has any, and the task that the member begins.
fn task_entries(desc: &TaskDesc, reply: &Reply) -> Entries
    ensures { present_records result ≡ present_records (task_entries desc.now reply.now) }
{
    let Some(task) = created_task(reply) else {
        return only(run_record(reply));
    };
    let items = desc.deps.as_slice().len() as u64;
    let create = Record::single(Point::TaskCreate, task, desc.code);
    let dependences = (items > 0).then_some(Record::single(Point::Dependences, task, items));
    [Some(create), dependences, run_record(reply), None]
}

/// The task that the call has created.
fn created_task(reply: &Reply) -> Option<u64>
    ensures { result ≡ created_task reply.now }
{
    match reply {
        Reply::Created(task)
        | Reply::Run {
            task,
            own: true,
            ..
        } => Some(u64::from(*task)),
        _ => None,
    }
}

/// The member asks for what one task holds at a time, and has it (`has`). `kind` is the number of
/// what it is, `number` its own.
fn acquire_entries(kind: u64, number: u64, first: bool, has: bool) -> Entries
    ensures { present_records result ≡ present_records (acquire_entries kind number first has) }
{
    let acquire = first.then_some(Record::single(Point::MutexAcquire, kind, number));
    let acquired = has.then_some(Record::single(Point::MutexAcquired, kind, number));
    [acquire, acquired, None, None]
}

/// The member asks for a nestable lock, and has it, or sets it once more.
fn nest_set_entries(lock: u32, first: bool, reply: &Reply) -> Entries
    ensures { present_records result ≡ present_records (nest_set_entries lock first reply.now) }
{
    let lock = u64::from(lock);
    let acquire = first.then_some(Record::single(Point::MutexAcquire, 4, lock));
    let set = match reply {
        Reply::Count(0) => None,
        Reply::Count(1) => Some(Record::single(Point::MutexAcquired, 4, lock)),
        Reply::Count(count) => Some(Record::begin(Point::NestLock, lock, u64::from(*count))),
        _ => None,
    };
    [acquire, set, None, None]
}

/// A nestable lock is free again, or set still.
fn nest_unset_record(lock: u32, reply: &Reply) -> Option<Record>
    ensures { result ≡ option_map (nest_unset_record lock) (lock_count reply.now) }
{
    let lock = u64::from(lock);
    match reply {
        Reply::Count(0) => Some(Record::single(Point::MutexReleased, 4, lock)),
        Reply::Count(count) => Some(Record::end(Point::NestLock, lock, u64::from(*count))),
        _ => None,
    }
}

/// What a construct names is cancelled.
fn cancel_record(kind: CancelKind, reply: &Reply) -> Option<Record>
    ensures { option_to_list result ≡ present_records (cancel_entries kind reply.now) }
{
    let number = match kind {
        CancelKind::Parallel => 1,
        CancelKind::Loop => 2,
        CancelKind::Sections => 4,
        CancelKind::Taskgroup => 8,
    };
    let cancelled = matches!(reply, Reply::Cancelling(true));
    cancelled.then_some(Record::single(Point::Cancel, number, 0))
}

/// Whether the call is done, with nothing to wait for.
fn is_finished(reply: &Reply) -> bool
    ensures { result ≡ is_finished reply.now }
{
    matches!(reply, Reply::Finished)
}

/// Whether the barrier is passed.
fn is_passed(reply: &Reply) -> bool
    ensures { result ≡ is_passed reply.now }
{
    matches!(reply, Reply::Passed)
}

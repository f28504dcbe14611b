//! What a member asks and what it is answered, as constants: a test of straight calls is a list of them.

use crate::checks::{AMPLE, same};
use crate::regions::{add_mark, add_slowly, await_mark};
use crate::tasks::CODE;
use crate::walkers::{AloneAsk, SeatAsk, TeamRing, TestMember};
use crate::ways::Spot;
use gomp_team_book::HoldLedger;
use gomp_test_data::items_of;
use gomp_types::{
    Call, Clash, CriticalName, DepKind, Deps, EndKind, LoopDesc, Refusal, Reply, TaskDesc,
};
use std::alloc::Global;
use std::process::Abort;
use std::sync::Wait;
use std::sync::ledger::Ledger;

/// The mark that says that the member that breaks the team is ready.
const READY: usize = 0;

/// A call of a member. Locks have the number 0, tasks the argument 9.
#[derive(Clone, Copy)]
pub(crate) enum Ask {
    Barrier,
    RegionEnd,
    Stop,
    Resume,
    /// It enters the critical construct of this name.
    Enter(&'static [u8]),
    /// It leaves it.
    Leave(&'static [u8]),
    MakeLock,
    Set,
    Unset,
    MakeNest,
    SetNest,
    UnsetNest,
    Single,
    SingleCopy,
    /// So many sections.
    Sections(u32, EndKind),
    SectionsEnd,
    LoopNext,
    OrderedStart(i64),
    GroupStart,
    GroupEnd,
    /// A task; if it is not deferred (`undeferred`) the member executes it itself. It has one item of this kind, if any.
    Create {
        undeferred: bool,
        item: Option<DepKind>,
    },
    EndTask,
    /// It waits for its children that a child with an item of this kind waits for.
    Taskwait(DepKind),
    /// By [`Member::loop_start`](gomp_team::Member::loop_start).
    OwnLoop(LoopDesc),
    /// A call that its seat answers alone.
    Own(SeatAsk),
    /// A call that does all or nothing.
    Alone(AloneAsk),
    /// By `resume`.
    OwnResume,
    /// By `try_resume`.
    OwnTryResume,
}

/// A reply.
#[derive(Clone, Copy)]
pub(crate) enum Answer {
    Chunk(i64, u64),
    NoChunk,
    Section(u64),
    Executor(bool),
    Finished,
    Passed,
    Wait,
    /// Nothing was done, by a call that does all or nothing.
    Nothing,
    /// This task was created.
    Created(u32),
    /// It executes this task, which it created itself (`own`) or another did.
    Run { task: u32, own: bool },
    /// It has executed this task; `waiting` if the wait at which it was started is open again.
    Done { task: u32, waiting: bool },
    /// Lock 0 was made.
    Lock,
    Count(u32),
    Stopped,
    /// The team is broken so.
    Broken(Clash),
    Mismatch,
    OutsideShare,
    InsideTask,
    Drained,
    NotCancellable,
    HoldsCritical,
    Ended,
}

/// A step of a member.
#[derive(Clone, Copy)]
pub(crate) enum Line {
    /// It asks this, and is answered so, at once or when it has waited.
    Call(Ask, Answer, &'static str),
    /// It tries this, and would wait.
    Waits(Ask, &'static str),
    /// It reads mark 0 and writes one more, in two steps.
    AddsSlowly,
    /// It says that it is ready.
    IsReady,
    /// It waits until another is.
    AwaitsReady,
}

/// One item of a `depend` clause, of this kind, if any.
fn items(rt: &impl Abort, alloc: Global, item: Option<DepKind>) -> Deps {
    match item {
        Some(kind) => items_of(alloc, kind, 1).expect(rt, AMPLE),
        None => Deps::new(alloc),
    }
}

/// The task of a member that creates a single one.
fn single_task(rt: &impl Abort, alloc: Global, undeferred: bool, item: Option<DepKind>) -> Call {
    Call::TaskCreate(TaskDesc {
        code: CODE,
        arg: 9,
        undeferred,
        final_task: false,
        deps: items(rt, alloc, item),
    })
}

/// The call of this name. For those that a member makes by functions of their own it is a resume.
fn call_of(rt: &impl Abort, alloc: Global, ask: Ask) -> Call {
    match ask {
        Ask::Barrier => Call::Barrier,
        Ask::RegionEnd => Call::RegionEnd,
        Ask::Stop => Call::Stop,
        Ask::Single => Call::SingleStart,
        Ask::SingleCopy => Call::SingleCopyStart,
        Ask::Sections(count, end_kind) => Call::SectionsStart { count, end_kind },
        Ask::SectionsEnd => Call::SectionsEnd,
        Ask::LoopNext => Call::LoopNext,
        Ask::OrderedStart(value) => Call::OrderedStart(value),
        Ask::GroupStart => Call::GroupStart,
        Ask::GroupEnd => Call::GroupEnd,
        Ask::Create { undeferred, item } => single_task(rt, alloc, undeferred, item),
        Ask::EndTask => Call::TaskEnd,
        Ask::Taskwait(kind) => Call::Taskwait(items(rt, alloc, Some(kind))),
        _ => match hold_call(ask) {
            Some(call) => call,
            None => Call::Resume,
        },
    }
}

/// The call of this name on a critical name or a lock. None if it is no such call.
fn hold_call(ask: Ask) -> Option<Call> {
    match ask {
        Ask::Enter(name) => Some(Call::CriticalStart(CriticalName::new(name))),
        Ask::Leave(name) => Some(Call::CriticalEnd(CriticalName::new(name))),
        Ask::MakeLock => Some(Call::LockInit),
        Ask::Set => Some(Call::Set(0)),
        Ask::Unset => Some(Call::Unset(0)),
        Ask::MakeNest => Some(Call::NestInit),
        Ask::SetNest => Some(Call::SetNest(0)),
        Ask::UnsetNest => Some(Call::UnsetNest(0)),
        _ => None,
    }
}

/// The reply of this name.
fn reply_of(answer: Answer) -> Reply {
    match answer {
        Answer::Chunk(first, count) => Reply::Chunk { first, count },
        Answer::NoChunk => Reply::NoChunk,
        Answer::Section(number) => Reply::Section(number),
        Answer::Executor(executes) => Reply::Executor(executes),
        Answer::Finished => Reply::Finished,
        Answer::Passed => Reply::Passed,
        Answer::Wait | Answer::Nothing => Reply::Wait,
        Answer::Created(task) => Reply::Created(task),
        Answer::Run { task, own } => Reply::Run {
            task,
            code: CODE,
            arg: 9,
            own,
        },
        Answer::Done { task, waiting } => Reply::TaskDone { task, waiting },
        Answer::Lock => Reply::Lock(0),
        Answer::Count(count) => Reply::Count(count),
        Answer::Stopped => Reply::Stopped,
        Answer::Broken(clash) => Reply::Refused(Refusal::Broken(clash)),
        Answer::Mismatch => Reply::Refused(Refusal::Mismatch),
        Answer::OutsideShare => Reply::Refused(Refusal::OutsideShare),
        Answer::InsideTask => Reply::Refused(Refusal::InsideTask),
        Answer::Drained => Reply::Refused(Refusal::Drained),
        Answer::NotCancellable => Reply::Refused(Refusal::NotCancellable),
        Answer::HoldsCritical => Reply::Refused(Refusal::HoldsCritical),
        Answer::Ended => Reply::Refused(Refusal::Ended),
    }
}

/// That a reply is this one, to the member of this number.
fn compare(rt: &impl Abort, reply: &Reply, answer: Answer, name: &str, number: usize) {
    same(rt, reply, &reply_of(answer), name, number as u64);
}

/// What a member is answered that asks this.
fn hear<L: Ledger, H: HoldLedger, F: Ledger, S: TeamRing, R: Wait + Abort>(
    rt: &R,
    alloc: Global,
    member: &mut TestMember<L, H, F, S>,
    ask: Ask,
) -> Reply {
    match ask {
        Ask::OwnLoop(desc) => member.loop_start(rt, desc),
        Ask::Own(ask) => member.ask_seat(ask),
        Ask::Alone(ask) => member.ask_all_or_nothing(ask),
        Ask::OwnResume => member.resume(rt),
        Ask::OwnTryResume => member.try_resume(rt),
        _ => member.call(rt, call_of(rt, alloc, ask)),
    }
}

/// A member does this.
fn walk_line<L: Ledger, H: HoldLedger, F: Ledger, S: TeamRing, R: Wait + Abort>(
    rt: &R,
    alloc: Global,
    member: &mut TestMember<L, H, F, S>,
    spot: Spot<'_>,
    line: Line,
) {
    match line {
        Line::Call(ask, answer, name) => {
            let reply = hear(rt, alloc, member, ask);
            compare(rt, &reply, answer, name, spot.number);
        }
        Line::Waits(ask, name) => {
            let reply = member.try_call(rt, call_of(rt, alloc, ask));
            compare(rt, &reply, Answer::Wait, name, spot.number);
        }
        Line::AddsSlowly => add_slowly(spot.marks, 0),
        Line::IsReady => add_mark(spot.marks, READY, 1),
        Line::AwaitsReady => await_mark(rt, spot.marks, READY),
    }
}

/// A member does this, line by line.
pub(crate) fn walk_lines<L: Ledger, H: HoldLedger, F: Ledger, S: TeamRing, R: Wait + Abort>(
    rt: &R,
    alloc: Global,
    member: &mut TestMember<L, H, F, S>,
    spot: Spot<'_>,
    lines: &[Line],
) {
    for line in lines {
        walk_line(rt, alloc, member, spot, *line);
    }
}

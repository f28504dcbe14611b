//! For what a member may wait, and what the member that breaks the team does before.

use crate::lines::{Answer, Ask, Line};
use gomp_test_data::LOOP;
use gomp_types::{DepKind, EndKind, LoopDesc};

/// The mark that counts those that wait.
pub(crate) const WAITING: usize = 1;

/// For what a member waits.
#[derive(Clone, Copy, Debug, PartialEq, Eq)]
pub(crate) enum Waiter {
    /// For the others at a barrier.
    Barrier,
    /// For the others at the region's end.
    RegionEnd,
    /// For the others at the barrier that ends a sections construct.
    ShareEnd,
    /// For room: it is eight work-shares ahead.
    Room,
    /// At a taskwait, for its child, which another member executes.
    Taskwait,
    /// The same at the end of a taskgroup.
    Group,
    /// The same at the creation of an undeferred task that depends on it.
    Undeferred,
    /// For the turn of its iteration of an ordered loop.
    Turn,
    /// To hand its piece of an ordered loop on.
    Piece,
    /// For a critical name.
    Name,
    /// For a simple lock.
    Lock,
    /// For a nestable lock.
    Nest,
    /// For the words of a single.
    Words,
}

/// An ordered loop of four iterations, in chunks of 1.
const ORDERED: LoopDesc = LoopDesc {
    end: 4,
    chunk: 1,
    ordered: true,
    end_kind: EndKind::Nowait,
    ..LOOP
};

/// The member goes through a single.
pub(crate) const A_SINGLE: Line = Line::Call(Ask::Single, Answer::Executor(true), "a single");

/// The member creates a task, which another starts.
const A_TASK: Line = Line::Call(
    Ask::Create {
        undeferred: false,
        item: Some(DepKind::DepOut),
    },
    Answer::Created(1),
    "a task",
);

/// The member takes the second iteration of an ordered loop, of which another has the first.
const SECOND: Line = Line::Call(Ask::OwnLoop(ORDERED), Answer::Chunk(1, 1), "a loop");

const LEADS_BARRIER: &[Line] = &[Line::IsReady];

const LEADS_TASKWAIT: &[Line] = &[
    Line::Call(
        Ask::Barrier,
        Answer::Run {
            task: 1,
            own: false,
        },
        "a barrier",
    ),
    Line::IsReady,
];

const LEADS_TURN: &[Line] = &[
    Line::Call(Ask::OwnLoop(ORDERED), Answer::Chunk(0, 1), "a loop"),
    Line::IsReady,
];

const LEADS_NAME: &[Line] = &[
    Line::Call(Ask::Enter(b"held"), Answer::Finished, "a name"),
    Line::IsReady,
];

const LEADS_LOCK: &[Line] = &[
    Line::Call(Ask::MakeLock, Answer::Lock, "a lock"),
    Line::Call(Ask::Set, Answer::Finished, "its set"),
    Line::IsReady,
];

const LEADS_NEST: &[Line] = &[
    Line::Call(Ask::MakeNest, Answer::Lock, "a lock"),
    Line::Call(Ask::SetNest, Answer::Count(1), "its set"),
    Line::IsReady,
];

const LEADS_WORDS: &[Line] = &[
    Line::Call(Ask::SingleCopy, Answer::Executor(true), "a single"),
    Line::IsReady,
];

const WAITS_BARRIER: &[Line] = &[Line::Waits(Ask::Barrier, "a wait")];

const WAITS_REGION_END: &[Line] = &[Line::Waits(Ask::RegionEnd, "a wait")];

/// There is no section.
const WAITS_SHARE_END: &[Line] = &[
    Line::Call(
        Ask::Sections(0, EndKind::Wait),
        Answer::Section(0),
        "a sections construct",
    ),
    Line::Waits(Ask::SectionsEnd, "a wait"),
];

/// Eight singles before the ninth.
const WAITS_ROOM: &[Line] = &[
    A_SINGLE,
    A_SINGLE,
    A_SINGLE,
    A_SINGLE,
    A_SINGLE,
    A_SINGLE,
    A_SINGLE,
    A_SINGLE,
    Line::Waits(Ask::Single, "a wait"),
];

const WAITS_TASKWAIT: &[Line] = &[
    A_TASK,
    Line::AwaitsReady,
    Line::Waits(Ask::Taskwait(DepKind::DepIn), "a wait"),
];

const WAITS_GROUP: &[Line] = &[
    Line::Call(Ask::GroupStart, Answer::Finished, "a group"),
    A_TASK,
    Line::AwaitsReady,
    Line::Waits(Ask::GroupEnd, "a wait"),
];

const WAITS_UNDEFERRED: &[Line] = &[
    A_TASK,
    Line::AwaitsReady,
    Line::Waits(
        Ask::Create {
            undeferred: true,
            item: Some(DepKind::DepIn),
        },
        "a wait",
    ),
];

/// To begin its ordered part.
const WAITS_TURN: &[Line] = &[
    Line::AwaitsReady,
    SECOND,
    Line::Waits(Ask::OrderedStart(1), "a wait"),
];

const WAITS_PIECE: &[Line] = &[
    Line::AwaitsReady,
    SECOND,
    Line::Waits(Ask::LoopNext, "a wait"),
];

const WAITS_NAME: &[Line] = &[
    Line::AwaitsReady,
    Line::Waits(Ask::Enter(b"held"), "a wait"),
];

const WAITS_LOCK: &[Line] = &[Line::AwaitsReady, Line::Waits(Ask::Set, "a wait")];

const WAITS_NEST: &[Line] = &[Line::AwaitsReady, Line::Waits(Ask::SetNest, "a wait")];

const WAITS_WORDS: &[Line] = &[Line::AwaitsReady, Line::Waits(Ask::SingleCopy, "a wait")];

impl Waiter {
    /// What the member that breaks the team does before the others may wait.
    pub(crate) fn lead(self) -> &'static [Line] {
        match self {
            Waiter::Barrier | Waiter::RegionEnd | Waiter::ShareEnd | Waiter::Room => LEADS_BARRIER,
            Waiter::Taskwait | Waiter::Group | Waiter::Undeferred => LEADS_TASKWAIT,
            Waiter::Turn | Waiter::Piece => LEADS_TURN,
            Waiter::Name => LEADS_NAME,
            Waiter::Lock => LEADS_LOCK,
            Waiter::Nest => LEADS_NEST,
            Waiter::Words => LEADS_WORDS,
        }
    }

    /// What a member does before it waits, and the call at which it waits.
    pub(crate) fn follow(self) -> &'static [Line] {
        match self {
            Waiter::Barrier => WAITS_BARRIER,
            Waiter::RegionEnd => WAITS_REGION_END,
            Waiter::ShareEnd => WAITS_SHARE_END,
            Waiter::Room => WAITS_ROOM,
            Waiter::Taskwait => WAITS_TASKWAIT,
            Waiter::Group => WAITS_GROUP,
            Waiter::Undeferred => WAITS_UNDEFERRED,
            Waiter::Turn => WAITS_TURN,
            Waiter::Piece => WAITS_PIECE,
            Waiter::Name => WAITS_NAME,
            Waiter::Lock => WAITS_LOCK,
            Waiter::Nest => WAITS_NEST,
            Waiter::Words => WAITS_WORDS,
        }
    }
}

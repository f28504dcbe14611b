//! What a member of a team asks.

ghost use Rattle.std.specs.Prelude.{◌≡◌};
ghost use Rattle.gomp_types.specs.Servers.{served_by};

use crate::cancel::CancelKind;
use crate::critical_name::CriticalName;
use crate::depend::Deps;
use crate::loop_desc::{EndKind, LoopDesc};
use crate::payload::Payload;
use crate::task::TaskDesc;
use std::mem::size_of;

/// One call of a member, in the form that does not wait: if it would, the answer is
/// [`Reply::Wait`](crate::Reply::Wait), and `Resume` asks again.
#[derive(Debug, Drop, PartialEq, Eq)]
pub enum Call {
    /// Begins a loop and asks for the first chunk (libgomp manual, the ABI of `for`).
    LoopStart(LoopDesc),
    /// Asks for the next chunk of the member's loop. In an ordered loop it first waits until every
    /// earlier piece is handed on, and then hands the member's own on.
    LoopNext,
    /// Ends the member's loop, and waits at its barrier.
    LoopEnd,
    /// Ends the member's loop, which has no barrier.
    LoopEndNowait,
    /// Ends the member's loop, which may be cancelled, and waits at its barrier.
    LoopEndCancel,
    /// Begins a sections construct, and asks for the first section (libgomp manual, the ABI of
    /// `sections`; OpenMP API 5.2, section 11.3).
    SectionsStart {
        /// How many sections it has, 0 to 65,536.
        count: u32,
        /// What stands at its end.
        end_kind: EndKind,
    },
    /// Asks for the next section of the member's construct; 0 is answered if none is left.
    SectionsNext,
    /// Ends the member's sections construct, and waits at its barrier.
    SectionsEnd,
    /// Ends the member's sections construct, which has no barrier.
    SectionsEndNowait,
    /// Ends the member's sections construct, which may be cancelled, and waits at its barrier.
    SectionsEndCancel,
    /// Goes through a `single` construct: one member of the team is told to execute it. Its body has
    /// no end call, and a barrier at its end is a call of its own (libgomp manual, the ABI of
    /// `single`; OpenMP API 5.2, section 11.1).
    SingleStart,
    /// Begins a `single` construct with a `copyprivate` clause: one member is told to execute it,
    /// the others wait for the words that it puts (OpenMP API 5.2, section 5.7.2).
    SingleCopyStart,
    /// The executor's end of such a construct: every other member is given these words.
    SingleCopyEnd(Payload),
    /// Begins the ordered part of the iteration with this value, in the member's ordered loop, once
    /// every earlier piece is handed on (libgomp manual, the ABI of `ordered`; OpenMP API 5.2,
    /// section 15.10.2).
    OrderedStart(i64),
    /// Ends the member's ordered part.
    OrderedEnd,
    /// Waits for all members (OpenMP API 5.2, section 15.3.1).
    Barrier,
    /// Ends the parallel region for this member (OpenMP API 5.2, section 10.1).
    RegionEnd,
    /// Enters the `critical` construct of this name, once no other member holds the name; the empty
    /// name is that of a `critical` without one (OpenMP API 5.2, section 15.2; libgomp manual, the
    /// ABI of `critical`).
    CriticalStart(CriticalName),
    /// Leaves the `critical` construct of this name, which the member's task holds.
    CriticalEnd(CriticalName),
    /// Makes a simple lock, which is not set, and asks for its number (OpenMP API 5.2, section
    /// 18.9.1).
    LockInit,
    /// Makes a nestable lock, which is not set, and asks for its number (OpenMP API 5.2, section
    /// 18.9.1).
    NestInit,
    /// Destroys the lock of this number, of either kind; the number is not used again (OpenMP API
    /// 5.2, section 18.9.3).
    LockDestroy(u32),
    /// Sets the simple lock of this number, once no task holds it (OpenMP API 5.2, section 18.9.4).
    Set(u32),
    /// Sets the simple lock of this number if no task holds it, and asks whether it did (OpenMP API
    /// 5.2, section 18.9.6).
    Test(u32),
    /// Unsets the simple lock of this number, which the member's task holds (OpenMP API 5.2, section
    /// 18.9.5).
    Unset(u32),
    /// Sets the nestable lock of this number once more, once no other task holds it, and asks how
    /// often the task has set it (OpenMP API 5.2, section 18.9.4).
    SetNest(u32),
    /// Sets the nestable lock of this number once more if no other task holds it, and asks how often
    /// the task has set it; 0 if another task holds it (OpenMP API 5.2, section 18.9.6).
    TestNest(u32),
    /// Unsets the nestable lock of this number, which the member's task holds, once, and asks how
    /// often it is set still (OpenMP API 5.2, section 18.9.5).
    UnsetNest(u32),
    /// Creates a task in the task that the member executes, to run this code with this argument, and
    /// asks for its number (OpenMP API 5.2, section 12.5; libgomp's `GOMP_task`).
    TaskCreate(TaskDesc),
    /// Ends the explicit task that the member executes (OpenMP API 5.2, section 12.5).
    TaskEnd,
    /// Waits for the children of the task that the member executes, with items for those of them that
    /// a child with these items waits for (OpenMP API 5.2, section 15.5; libgomp's `GOMP_taskwait`
    /// and `GOMP_taskwait_depend`).
    Taskwait(Deps),
    /// Opens a group of tasks in that task (OpenMP API 5.2, section 15.4; libgomp's
    /// `GOMP_taskgroup_start`).
    GroupStart,
    /// Ends the last open group of that task, once the tasks created in it, and all that descend from
    /// these, are complete (OpenMP API 5.2, section 15.4).
    GroupEnd,
    /// Cancels what the construct names, if its `if` clause is true, and asks whether that is
    /// cancelled (OpenMP API 5.2, section 16.1; libgomp's `GOMP_cancel`).
    Cancel {
        /// What it names.
        kind: CancelKind,
        /// Its `if` clause.
        clause: bool,
    },
    /// Asks whether what the construct names is cancelled (OpenMP API 5.2, section 16.2; libgomp's
    /// `GOMP_cancellation_point`).
    Point(CancelKind),
    /// Repeats the call whose answer was to wait.
    Resume,
    /// Stops the team, whatever its members are doing: it is broken from then on (own).
    Stop,
}

/// Which part of a team answers a call that no test refuses (own).
#[derive(Clone, Copy, Debug, PartialEq, Eq)]
pub enum Server {
    /// Its work-shares alone, once the board keeps the room that the call asks for.
    Shares,
    /// Its board alone: tasks, groups, the cancellation of the region and of groups, the stop.
    Board,
    /// Its book of critical names and locks.
    Book,
    /// Several together: a call that arrives at a barrier with the shares that its member entered, one
    /// that copies words, and a resume, which is answered as the call that it repeats.
    Team,
}

impl Call {
    /// Which part of a team answers the call.
    pub fn served_by(&self) -> Server
        ensures { result ≡ served_by self.now }
    {
        match self {
            Call::LoopStart(_)
            | Call::LoopNext
            | Call::LoopEndNowait
            | Call::SectionsStart { .. }
            | Call::SectionsNext
            | Call::SectionsEndNowait
            | Call::SingleStart
            | Call::OrderedStart(_)
            | Call::OrderedEnd => Server::Shares,
            Call::LoopEnd
            | Call::LoopEndCancel
            | Call::SectionsEnd
            | Call::SectionsEndCancel
            | Call::SingleCopyStart
            | Call::SingleCopyEnd(_)
            | Call::Barrier
            | Call::RegionEnd
            | Call::Resume => Server::Team,
            Call::CriticalStart(_)
            | Call::CriticalEnd(_)
            | Call::LockInit
            | Call::NestInit
            | Call::LockDestroy(_)
            | Call::Set(_)
            | Call::Test(_)
            | Call::Unset(_)
            | Call::SetNest(_)
            | Call::TestNest(_)
            | Call::UnsetNest(_) => Server::Book,
            Call::TaskCreate(_)
            | Call::TaskEnd
            | Call::Taskwait(_)
            | Call::GroupStart
            | Call::GroupEnd
            | Call::Stop => Server::Board,
            Call::Cancel { kind, .. } | Call::Point(kind) => kind.served_by(),
        }
    }
}

/// A call with the member that makes it.
#[derive(Debug, Drop, PartialEq, Eq)]
pub struct Step {
    /// The member's number, from 0.
    pub member: u16,
    /// What it asks.
    pub call: Call,
}

// A record has one for each step.
const _: () = prove!(size_of::<Call>() <= 80);

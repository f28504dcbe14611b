//! What a member is answered.

use crate::payload::Payload;
use crate::refusal::Refusal;
use std::mem::size_of;

/// The answer to one call.
#[derive(Debug, Drop, PartialEq, Eq)]
pub enum Reply {
    /// Iterations to do: the value of the first one, and how many there are, at least 1.
    Chunk {
        first: i64,
        count: u64,
    },
    /// No iterations are left for this member.
    NoChunk,
    /// The section to do, numbered from 1; 0 if none is left.
    Section(u64),
    /// Whether the member is the one that executes the `single` construct.
    Executor(bool),
    /// The words that the executor of the `single` construct put.
    Copied(Payload),
    /// Done, with nothing to wait for.
    Finished,
    /// The barrier is passed; at the region's end the member has left the region.
    Passed,
    /// The region is cancelled, and the member leaves it: it goes to the region's end.
    Cancelled,
    /// Not yet: the call stands, and `Resume` asks again.
    Wait,
    /// The number of the task that was created, from 1.
    Created(u32),
    /// No task was created, or the member's undeferred task was discarded: the region or a group is
    /// cancelled.
    Dropped,
    /// Whether what a `cancel` or `cancellation point` names is cancelled; if it is, the member leaves
    /// it.
    Cancelling(bool),
    /// The member executes this task from now on, of which this was asked when it was created, and
    /// ends it by `TaskEnd`; `own` if it is the undeferred task of this very call.
    Run {
        task: u32,
        code: u64,
        arg: u64,
        own: bool,
    },
    /// The member has ended this task; `waiting` if the wait at which it was started is open again.
    TaskDone {
        task: u32,
        waiting: bool,
    },
    /// The number of the lock that was made: how many were made before it.
    Lock(u32),
    /// Whether the simple lock was free, and is set now.
    Got(bool),
    /// How often the member's task has set the nestable lock now; 0 if it did not get it, or if the
    /// lock is free again.
    Count(u32),
    /// The team is stopped.
    Stopped,
    /// The call changed nothing, save that `Mismatch` broke the team.
    Refused(Refusal),
}

// A record has one for each step.
const _: () = prove!(size_of::<Reply>() <= 80);

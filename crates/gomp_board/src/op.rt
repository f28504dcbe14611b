//! What a team asks of its board.

use gomp_events::Tag;
use gomp_types::{Deps, Payload, Place, TaskDesc};

/// One call of a member, as far as it is the board's: the call itself, or the wait that a repeated
/// call goes on with.
#[derive(Debug, Drop, PartialEq, Eq)]
pub enum Op {
    /// Creates a task in the task that the member executes (OpenMP API 5.2, section 12.5).
    Create(TaskDesc),
    /// Goes on with the creation of the task that was created last in that one: the member starts it
    /// if it is undeferred and may be started, and else waits, or executes another.
    AwaitOwn,
    /// Ends that task; the flag says that the member leaves it, and so gives up its open groups
    /// (section 16.1).
    EndTask(bool),
    /// Waits for the children of that task, with items for those of them that a child with these
    /// items waits for (section 15.5). No more than 16 items are allowed.
    Taskwait(Deps),
    /// Goes on with that wait, whose items were counted when it began: any number is allowed here.
    AwaitChildren(Deps),
    /// Opens a group in that task (section 15.4).
    OpenGroup,
    /// Ends the last open group of that task, or waits for the group's tasks.
    EndGroup,
    /// Waits on for these, or ends the group once they are complete. With no group open it waits, or
    /// executes a task.
    AwaitGroup,
    /// Arrives with this tag at the member's next barrier (section 15.3); `leaving` says that the
    /// member leaves a cancelled region, and so gives up the groups of its task.
    Arrive {
        tag: Tag,
        leaving: bool,
    },
    /// Waits on at the barrier at which the member has arrived.
    AwaitBarrier,
    /// Keeps room for so many events that the member gives later in a share that it starts: its
    /// words, and those of its end (own).
    Reserve(u32),
    /// Puts the words of the executor of this share, a `single`, for the other members (section
    /// 5.7.2).
    Put {
        share: u64,
        words: Payload,
    },
    /// Notes that the member is given these words of this share (section 5.7.2).
    Got {
        share: u64,
        words: Payload,
    },
    /// A cancel construct with this clause (section 16.1); `allowed` says what the control
    /// variable `cancel-var` does.
    Cancel {
        named: TeamCancel,
        clause: bool,
        allowed: bool,
    },
    /// A cancellation point construct (section 16.2).
    Point {
        named: TeamCancel,
        allowed: bool,
    },
    /// Breaks the team there (own): the member stops it, or its construct differs. Then so much of the
    /// room that the member keeps goes back, but no more than it keeps: room for a share that it has
    /// not entered.
    Break {
        place: Place,
        back: u32,
    },
}

/// What a cancel construct may name of a team beside a work-share.
#[derive(Clone, Copy, Debug, PartialEq, Eq)]
pub enum TeamCancel {
    /// The parallel region.
    Parallel,
    /// The innermost taskgroup region whose end waits for the task that the member executes.
    Taskgroup,
}

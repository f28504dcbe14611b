//! What happens in a team: each step and its reply give some events.

ghost use Rattle.std.specs.Prelude.{◌≡◌};
ghost use Rattle.gomp_events.specs.Tags.{same_tag};

use gomp_types::{CancelKind, Deps, Key, Payload, Place, Scope, Shape, Task, TaskDesc};
use std::mem::size_of;

/// At what kind of barrier a member arrives (OpenMP API 5.2, sections 15.3.1 and 15.3.2).
#[derive(Clone, Copy, Debug, PartialEq, Eq)]
pub enum Arrival {
    /// A `barrier` construct.
    Barrier,
    /// The end of a work-share.
    ShareEnd,
    /// The end of the parallel region.
    RegionEnd,
}

/// What the arrivals of all members at one barrier have in common.
#[derive(Clone, Copy, Debug, PartialEq, Eq)]
pub struct Tag {
    /// At what kind of barrier.
    pub kind: Arrival,
    /// After how many started work-shares; so it tells the share that ends.
    pub shares: u64,
}

/// One thing that happened in a team. Shares and barriers are numbered from 0, for each member in
/// the order in which it came to them.
#[derive(Debug, Drop, PartialEq, Eq)]
pub enum Event {
    /// The member entered a share.
    Enter {
        share: u64,
        member: u16,
        shape: Shape,
    },
    /// The member was given the iterations from `low` on, `high` excluded.
    Take {
        share: u64,
        member: u16,
        low: u64,
        high: u64,
    },
    /// Nothing is left of the share for the member: it was told so, or another member has the piece
    /// of its single.
    Drained {
        share: u64,
        member: u16,
    },
    /// The member left the share.
    End {
        share: u64,
        member: u16,
    },
    /// The member handed on its last piece of an ordered loop: its ordered parts are done. `piece`
    /// is the number of that piece among the pieces of the loop, from 0.
    HandOn {
        share: u64,
        member: u16,
        piece: u64,
    },
    /// The member began the ordered part of an iteration.
    Part {
        share: u64,
        member: u16,
        iteration: u64,
    },
    /// The member ended its ordered part.
    PartEnd {
        share: u64,
        member: u16,
    },
    /// The executor of a `single` construct put these words for the other members.
    Put {
        share: u64,
        member: u16,
        payload: Payload,
    },
    /// The member was given the words that the executor put.
    Got {
        share: u64,
        member: u16,
        payload: Payload,
    },
    /// The member arrived at a barrier.
    Arrive {
        barrier: u64,
        member: u16,
        tag: Tag,
    },
    /// The member passed a barrier.
    Pass {
        barrier: u64,
        member: u16,
    },
    /// The member's task holds a critical name or a lock, of a nestable lock once more.
    Hold {
        key: Key,
        member: u16,
        task: Task,
    },
    /// The member's task frees a critical name or a lock, of a nestable lock once.
    Free {
        key: Key,
        member: u16,
        task: Task,
    },
    /// The member created a task in this one. Tasks are numbered from 1 in the order of their
    /// creation.
    Create {
        task: u32,
        member: u16,
        parent: Task,
        desc: TaskDesc,
    },
    /// The member started the task.
    Start {
        task: u32,
        member: u16,
    },
    /// The member ended the task.
    Done {
        task: u32,
        member: u16,
    },
    /// The member opened a group of tasks in its current task. Groups are numbered from 0 in the
    /// order in which they are opened.
    Group {
        group: u64,
        member: u16,
    },
    /// The member ended the group: its tasks are complete.
    GroupEnd {
        group: u64,
        member: u16,
    },
    /// The member's current task waited for its children, with items for those of them that a child
    /// with these items waits for: they are complete.
    Waited {
        member: u16,
        deps: Deps,
    },
    /// The member cancelled this.
    Cancel {
        member: u16,
        scope: Scope,
    },
    /// The task is discarded, which nobody had started: the member's cancellation reaches it.
    Discard {
        task: u32,
        member: u16,
    },
    /// The member saw that a region of this kind is cancelled, and leaves it.
    See {
        member: u16,
        kind: CancelKind,
    },
    /// The member broke the team: its construct differed from the team's there, or it stopped it.
    Break {
        member: u16,
        place: Place,
    },
}

impl Tag {
    /// Whether two members arrive at one barrier.
    pub fn is_same(&self, other: &Tag) -> bool
        ensures { result ≡ same_tag self.now other.now }
    {
        self == other
    }
}

// A record has one for each step.
const _: () = prove!(size_of::<Event>() <= 96);

//! Tasks, and who holds a name or a lock: a task of a member of a team.
//!
//! OpenMP API 5.2, sections 1.2.5 and 18.9 (a lock is owned by a task, not by a thread).

ghost use Rattle.std.specs.Prelude.{◌≡◌};
ghost use Rattle.gomp_types.specs.Owners.{same_owner, same_member};

use crate::depend::Deps;

/// A task that a member executes.
#[derive(Clone, Copy, Debug, PartialEq, Eq)]
pub enum Task {
    /// The implicit task of the member with this number: the region's body.
    Implicit(u16),
    /// The explicit task with this number, from 1.
    Explicit(u32),
}

/// An explicit task as the program asks for it: two numbers, which mean to the program what it does
/// and on what (own; libgomp has a function and its data).
#[derive(Debug, Drop, PartialEq, Eq)]
pub struct TaskDesc {
    /// What the task does.
    pub code: u64,
    /// On what it does it.
    pub arg: u64,
    /// Whether its creator waits until it is done (an `if` clause that is false; OpenMP API 5.2,
    /// section 12.5). A task that is created in a final one is undeferred whatever stands here.
    pub undeferred: bool,
    /// Whether it is final: the tasks created in it are undeferred, and final themselves (OpenMP API
    /// 5.2, section 12.3).
    pub final_task: bool,
    /// For which earlier tasks of the same parent it waits: the items of its `depend` clause.
    pub deps: Deps,
}

/// Who holds a critical name or a lock.
#[derive(Clone, Copy, Debug, PartialEq, Eq, PartialOrd, Ord)]
pub struct Owner {
    /// Its team's number among the teams that share names and locks, from 0.
    pub team: u32,
    /// The member's number, from 0.
    pub member: u16,
    /// The task: 0 for the member's implicit one, from 1 for an explicit one.
    pub task: u32,
}

impl Owner {
    /// Whether it is the same task of the same member.
    pub fn is_same(&self, other: &Owner) -> bool
        ensures { result ≡ same_owner self.now other.now }
    {
        self == other
    }

    /// Whether it is the same member, in this task or in another.
    pub fn is_same_member(&self, other: &Owner) -> bool
        ensures { result ≡ same_member self.now other.now }
    {
        self.team == other.team && self.member == other.member
    }
}

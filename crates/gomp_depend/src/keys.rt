//! The keys of lines.

ghost use Rattle.std.specs.Prelude.{◌≡◌};
ghost use Rattle.gomp_depend.specs.Keys.{key_of};

use gomp_types::Task;

/// The task in which others are created, and an address that they name.
#[derive(Clone, Copy, Debug, PartialEq, Eq, PartialOrd, Ord)]
pub struct LineKey {
    /// Whether the parent is an explicit task.
    pub is_explicit: bool,
    /// The number of the parent: of a member, from 0, or of a task, from 1.
    pub parent: u32,
    /// The address.
    pub addr: u64,
}

impl LineKey {
    /// The key of the line of the children of the task that name the address.
    pub fn of(parent: Task, addr: u64) -> LineKey
        ensures { result ≡ key_of parent addr }
    {
        match parent {
            Task::Implicit(member) => LineKey {
                is_explicit: false,
                parent: member as u32,
                addr,
            },
            Task::Explicit(task) => LineKey {
                is_explicit: true,
                parent: task,
                addr,
            },
        }
    }
}

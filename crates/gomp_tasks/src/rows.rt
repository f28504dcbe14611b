//! What is kept of an explicit task.

ghost use Rattle.std.specs.Prelude.{◌≡◌, ◌&&◌, not};
ghost use Rattle.gomp_tasks.specs.Rows.{is_started, is_over, is_needed, no_newest, newest_of, newest_kept, unstarted_row};

use gomp_types::{Task, TaskDesc};
use std::mem::size_of;

/// What has become of a task.
#[derive(Clone, Copy, Debug, PartialEq, Eq)]
pub enum TaskState {
    /// No member has started it.
    Unstarted,
    /// The member with this number has started it, and not ended it.
    Running(u16),
    /// It is complete: this member has ended it.
    Done(u16),
    /// It is complete, and nobody starts it: a cancellation has discarded it (OpenMP API 5.2,
    /// section 16.1).
    Discarded,
}

impl TaskState {
    /// Whether nobody has started the task, and it is not complete.
    pub(crate) fn is_unstarted(self) -> bool
        ensures { result ≡ (not (is_started self) && not (is_over self)) }
    {
        match self {
            TaskState::Unstarted => true,
            TaskState::Running(_) | TaskState::Done(_) | TaskState::Discarded => false,
        }
    }

    /// Whether the task is complete.
    pub(crate) fn is_over(self) -> bool
        ensures { result ≡ is_over self }
    {
        match self {
            TaskState::Unstarted | TaskState::Running(_) => false,
            TaskState::Done(_) | TaskState::Discarded => true,
        }
    }
}

/// The task that was created last in a task.
#[derive(Clone, Copy, Debug, PartialEq, Eq)]
pub struct Newest {
    /// Its number; 0 if none was created.
    pub task: u32,
    /// Whether it is undeferred; not if none was created.
    pub undeferred: bool,
}

impl Newest {
    /// None was created.
    pub(crate) fn none() -> Newest
        ensures { result ≡ no_newest }
    {
        Newest {
            task: 0,
            undeferred: false,
        }
    }
}

/// An explicit task.
#[derive(Clone, Copy, Debug, PartialEq, Eq)]
pub struct TaskRow {
    /// The task in which it was created.
    pub parent: Task,
    /// The number of the task that was created last in it; 0 if none was.
    pub newest: u32,
    /// How many of its children have a row.
    pub kept_children: u32,
    /// What has become of it.
    pub state: TaskState,
    /// The member below whose implicit task it lies.
    pub root: u16,
    /// How deep it lies in the tree of tasks, from 1.
    pub depth: u8,
    /// Whether the number of the barrier to which it is bound is odd.
    pub odd: bool,
    /// Whether its creator waits until it is done.
    pub undeferred: bool,
    /// Whether the tasks created in it are undeferred.
    pub final_task: bool,
    /// Whether the task that was created last in it is undeferred; not if none was.
    pub newest_undeferred: bool,
}

// A team keeps one for each task that is not complete, or above one that is not.
const _: () = prove!(size_of::<TaskRow>() <= 28);

impl TaskRow {
    /// Whether it is needed: its task is not complete, or a child of that has a row.
    pub(crate) fn is_needed(self) -> bool
        ensures { result ≡ is_needed self }
    {
        !self.state.is_over() || self.kept_children > 0
    }

    /// This task, which has the number, as the one that was created last in its parent.
    pub(crate) fn as_newest(&self, task: u32) -> Newest
        ensures { result ≡ newest_of task self.now }
    {
        Newest {
            task,
            undeferred: self.undeferred,
        }
    }

    /// The task that was created last in this one.
    pub(crate) fn newest(&self) -> Newest
        ensures { result ≡ newest_kept self.now }
    {
        Newest {
            task: self.newest,
            undeferred: self.newest_undeferred,
        }
    }

    /// A new task, which nobody has started, below the implicit task of the member `root`: created in a
    /// final task or not.
    pub(crate) fn unstarted(
        desc: &TaskDesc,
        parent: Task,
        root: u16,
        depth: u8,
        odd: bool,
        in_final: bool,
    ) -> TaskRow
        ensures { result ≡ unstarted_row desc.now parent root depth odd in_final }
    {
        TaskRow {
            parent,
            root,
            newest: 0,
            newest_undeferred: false,
            kept_children: 0,
            state: TaskState::Unstarted,
            depth,
            odd,
            undeferred: desc.undeferred || in_final,
            final_task: desc.final_task || in_final,
        }
    }
}

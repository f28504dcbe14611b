//! The tasks that a member has started and not ended.

ghost use Rattle.std.specs.Prelude.{◌≡◌, ◌<◌, ◌≤◌, ◌∷◌, [], length};
ghost use Rattle.gomp_events.specs.Tasks.{after_first};
ghost use Rattle.gomp_events.specs.Cancels.{first_in};
ghost use Rattle.gomp_types.specs.declared.limits.TheConstants.{MAX_TASK_DEPTH};

use arrayvec::ArrayVec;
use gomp_types::MAX_TASK_DEPTH;
use std::marker::Model;

/// The most tasks that a member has started and not ended: they lie one above another in the tree.
const MOST: usize = MAX_TASK_DEPTH as usize;

/// The tasks that a member has started and not ended. It takes no memory.
#[derive(Debug, Drop)]
pub struct Stack {
    tasks: ArrayVec<u32, MOST>,
}

impl Model for Stack {
    ghost use Rattle.std.specs.Prelude.{ℕ, List, length, reverse, ◌≤◌};
    ghost use Rattle.gomp_types.specs.declared.limits.TheConstants.{MAX_TASK_DEPTH};

    ghost Value = { List ℕ };

    ghost view = { λ stack. reverse stack.tasks.items };

    ghost invariant = { λ stack. length stack.tasks.items ≤ MAX_TASK_DEPTH };
}

impl Stack {
    /// No task.
    pub fn new() -> Stack
        ensures { result ≡ [] }
    {
        Stack {
            tasks: ArrayVec::new(),
        }
    }

    /// The innermost task, the one that was started last.
    #[inline(always)]
    pub fn innermost(&self) -> Option<u32>
        ensures { result ≡ first_in self.now }
    {
        self.tasks.last().copied()
    }

    /// How many tasks there are.
    pub fn count(&self) -> u8
        ensures value { result ≡ length self.now }
        ensures few { result ≤ MAX_TASK_DEPTH }
    {
        self.tasks.len() as u8
    }

    /// Puts a task in as the innermost one.
    pub fn push(&mut self, task: u32)
        requires { length self.old < MAX_TASK_DEPTH }
        ensures { self.new ≡ task ∷ self.old }
    {
        self.tasks.push(task);
    }

    /// Takes the innermost task out.
    pub fn pop(&mut self)
        ensures { self.new ≡ after_first self.old }
    {
        let _ = self.tasks.pop();
    }
}

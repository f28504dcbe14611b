//! The deque of one member.

ghost use Rattle.std.specs.Prelude.{◌≡◌, ◌<◌, ◌≤◌, ℕ, Bool, [], ◌∷◌, ◌++◌, None, length, nat_le, filter, IfOk};
ghost use Rattle.gomp_ready.specs.Ready.{AnswersBy};
ghost use Rattle.gomp_ready.specs.Ends.{with_at};

use std::alloc::{AllocError, Global};
use std::collections::VecDeque;
use std::marker::Model;

/// So many tasks at most stand in the deque of one member.
const DEQUE_SIZE: usize = 256;

/// An end of a deque.
#[derive(Clone, Copy)]
pub(crate) enum End {
    /// The back: the task that was put last.
    Newest,
    /// The front: the one that was put first of those that are there.
    Oldest,
}

/// Tasks that one member has put, by their numbers, the newest at the back: at most 256, and memory
/// for as many. Only `new` takes memory.
#[derive(Drop)]
pub(crate) struct MemberDeque {
    tasks: VecDeque<u32>,
}

impl Model for MemberDeque {
    ghost use Rattle.std.specs.Prelude.{List, ℕ, ◌≤◌};
    ghost use Rattle.std.specs.VecDeque.{deque_len, deque_capacity};

    ghost Value = { List ℕ };

    ghost view = { λ deque. deque.tasks.items };

    ghost invariant = { λ deque. (deque_len deque.tasks ≤ 256) × (256 ≤ deque_capacity deque.tasks) };
}

impl MemberDeque {
    /// No task. It fails if the memory is refused.
    pub(crate) fn new(alloc: Global) -> Result<MemberDeque, AllocError>
        ensures tasks { IfOk result (λ deque. deque ≡ []) }
    {
        let tasks = VecDeque::with_capacity(alloc, DEQUE_SIZE)?;
        Ok(MemberDeque { tasks })
    }

    /// How many tasks there are.
    pub(crate) fn len(&self) -> usize
        ensures { result ≡ length self.now }
    {
        self.tasks.len()
    }

    /// Whether one task more finds no place.
    pub(crate) fn is_full(&self) -> bool
        ensures { result ≡ nat_le 256 (length self.now) }
    {
        self.tasks.len() >= DEQUE_SIZE
    }

    /// Puts the task at the back.
    pub(crate) fn push(&mut self, task: u32)
        requires place { length self.old < 256 }
        ensures tasks { self.new ≡ self.old ++ task ∷ [] }
    {
        self.tasks.push_back_reserved(task);
    }

    /// Takes the task at this end, if there is one.
    pub(crate) fn pop(&mut self, end: End) -> Option<u32>
        ensures tasks { self.old ≡ with_at end result self.new }
        ensures none { result ≡ None → self.new ≡ [] }
    {
        match end {
            End::Newest => self.tasks.pop_back(),
            End::Oldest => self.tasks.pop_front(),
        }
    }

    /// Leaves of the tasks those alone that pass a test.
    pub(crate) fn retain<F: Fn(u32) -> bool>(&mut self, keep: &F)
        requires callable { F.IsAlwaysCallable keep.now }
        ensures tasks { (test : ℕ → Bool) → AnswersBy (F.post keep.now) test →
            self.new ≡ filter test self.old }
        ensures fewer { length self.new ≤ length self.old }
    {
        self.tasks.retain(|task| keep(*task));
    }
}

//! Which tasks were freed and are not handed out yet, and how many wait.

ghost use Rattle.std.specs.Prelude.{◌≡◌, ◌<◌, ◌+◌, ◌&&◌, ◌||◌, ◌==◌, not, ℕ, true, false, None, IfSome, OnOk};
ghost use Rattle.gomp_depend.specs.FreeTasks.{is_listed_free, listed_count, listed_waiting_count, HasPlace};

use crate::free_list::FreeList;
use std::alloc::{AllocError, Global};

impl FreeList {
    /// No tasks. It takes no memory.
    pub fn new(alloc: Global) -> FreeList
        ensures freed { (t : ℕ) → is_listed_free t result ≡ false }
        ensures count { listed_count result ≡ 0 }
        ensures waiting { listed_waiting_count result ≡ 0 }
    {
        FreeList {
            freed: Vec::new(alloc),
            count: 0,
        }
    }

    /// Hands out one of the tasks that were freed: it is not in the list from now on.
    pub fn next_freed(&mut self) -> Option<u32>
        ensures task { IfSome result (λ t. is_listed_free t self.old ≡ true) }
        ensures freed { IfSome result (λ t. (u : ℕ) →
            is_listed_free u self.new ≡ (is_listed_free u self.old && not (t == u))) }
        ensures count { IfSome result (λ t. listed_count self.new + 1 ≡ listed_count self.old) }
        ensures waiting { listed_waiting_count self.new ≡ listed_waiting_count self.old }
        ensures none { result ≡ None → (t : ℕ) → is_listed_free t self.old ≡ false }
        ensures same { result ≡ None → self.new ≡ self.old }
    {
        if self.freed.is_empty() {
            return None;
        }
        let task = self.freed.pop();
        self.take_out();
        task
    }

    /// Makes room for one more task. It fails, and nothing changes, if the memory is refused.
    pub fn reserve(&mut self) -> Result<(), AllocError>
        ensures freed { (t : ℕ) → is_listed_free t self.new ≡ is_listed_free t self.old }
        ensures count { listed_count self.new ≡ listed_count self.old }
        ensures waiting { listed_waiting_count self.new ≡ listed_waiting_count self.old }
        ensures room { OnOk result (HasPlace self.new) }
    {
        let more = self.count - self.freed.len() + 1;
        self.freed.reserve(more)
    }

    /// One more task waits.
    pub fn add(&mut self)
        requires room { HasPlace self.old }
        ensures freed { (t : ℕ) → is_listed_free t self.new ≡ is_listed_free t self.old }
        ensures count { listed_count self.new ≡ listed_count self.old + 1 }
        ensures waiting { listed_waiting_count self.new ≡ listed_waiting_count self.old + 1 }
    {
        self.count += 1;
    }

    /// From now on the task, which waits, is one that was freed.
    pub fn free(&mut self, task: u32)
        requires new { is_listed_free task self.old ≡ false }
        requires waits { 0 < listed_waiting_count self.old }
        ensures freed { (t : ℕ) → is_listed_free t self.new
            ≡ (is_listed_free t self.old || (task == t)) }
        ensures count { listed_count self.new ≡ listed_count self.old }
        ensures waiting { listed_waiting_count self.new + 1 ≡ listed_waiting_count self.old }
    {
        self.freed.push_reserved(task);
    }

    /// One task is not counted from now on. It is none of those that were freed.
    pub fn take_out(&mut self)
        requires waits { 0 < listed_waiting_count self.old }
        ensures freed { (t : ℕ) → is_listed_free t self.new ≡ is_listed_free t self.old }
        ensures count { listed_count self.new + 1 ≡ listed_count self.old }
        ensures waiting { listed_waiting_count self.new + 1 ≡ listed_waiting_count self.old }
    {
        self.count -= 1;
    }
}

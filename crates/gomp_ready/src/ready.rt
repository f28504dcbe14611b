//! The tasks that may be taken, in a deque of each member and a list for all.

ghost use Rattle.std.specs.Prelude.{◌≡◌, ◌≢◌, ◌<◌, ◌≤◌, ◌+◌, ◌⊎◌, ℕ, Bool, true, false, [], None, Some, length, filter, max, if◌then◌else◌, is_some, IfOk, IfSome, OnOk, OnErr, IsOk};
ghost use Rattle.gomp_types.specs.declared.limits.TheConstants.{MAX_TASK_DEPTH};
ghost use Rattle.gomp_events.specs.Tasks.{contains};
ghost use Rattle.gomp_growth.specs.Growth.{growth_of, room_made};
ghost use Rattle.gomp_ready.specs.Ready.{passed_at, with_task, AnswersBy};

use crate::deque::{End, MemberDeque};
use crate::marks::Marks;
use crate::stages::{put_newest, retain_each, take_from, take_further};
use gomp_growth::{SIXTEENTH, growth_of};
use std::alloc::{AllocError, Global};
use std::collections::VecDeque;
use std::marker::Model;

/// The tasks that may be taken, by their numbers. Only `new` and `reserve` take memory.
#[derive(Drop)]
pub struct Ready {
    /// What each member has put and nobody has passed over.
    deques: Vec<MemberDeque>,
    /// The others. It has memory for those in the deques too.
    list: VecDeque<u32>,
    /// How far each member has looked through the list in vain.
    marks: Marks,
    /// How many there are in deques and list.
    count: usize,
}

impl Model for Ready {
    ghost use Rattle.std.specs.Prelude.{ℕ, ◌≡◌, ◌≤◌, ◌-◌, ◌++◌, length};
    ghost use Rattle.std.specs.List.{concat};
    ghost use Rattle.std.specs.VecDeque.{deque_capacity};
    ghost use Rattle.gomp_ready.specs.Marks.{fronts, mark_at};
    ghost use Rattle.gomp_ready.specs.Ready.{ReadyView, in_order};

    ghost Value = { ReadyView };

    ghost view = { λ r. record { members = length r.deques.items; ids = in_order (r.list.items ++ concat r.deques.items); room = deque_capacity r.list - r.count; passed = fronts r.list.items r.marks } };

    ghost invariant = { λ r. (r.count ≡ length (r.list.items ++ concat r.deques.items)) × (r.count ≤ deque_capacity r.list) × (length r.marks ≡ length r.deques.items) × ((m l : ℕ) → mark_at m l r.marks ≤ length r.list.items) };
}

impl Ready {
    /// No task, and a deque for each of `count` members. It fails if their memory is refused.
    pub fn new(alloc: Global, count: u16) -> Result<Ready, AllocError>
        ensures members { IfOk result (λ ready. ready.members ≡ count) }
        ensures ids { IfOk result (λ ready. ready.ids ≡ []) }
        ensures room { IfOk result (λ ready. ready.room ≡ 0) }
        ensures passed { IfOk result (λ ready. (m l : ℕ) → passed_at m l ready ≡ []) }
    {
        let mut deques = Vec::with_capacity(alloc, count as usize)?;
        for _ in 0..count {
            deques.push_reserved(MemberDeque::new(alloc)?);
        }
        Ok(Ready {
            deques,
            // By its capacity of 0 there is no room: `new` does not say so.
            list: VecDeque::with_capacity(alloc, 0)?,
            marks: Marks::new(alloc, count)?,
            count: 0,
        })
    }

    /// Makes room for so many more tasks, if there is less. The room grows in steps, so that the list
    /// is seldom moved. It fails, and nothing changes, if the memory is refused.
    pub fn reserve(&mut self, more: usize) -> Result<(), AllocError>
        ensures members { self.new.members ≡ self.old.members }
        ensures ids { self.new.ids ≡ self.old.ids }
        ensures room { OnOk result (more ≤ self.new.room) }
        ensures memory { OnOk result
            (self.new.room ≡ room_made more (growth_of 16 (max (length self.old.ids) more))
            self.old.room) }
        ensures grows { self.old.room ≤ self.new.room }
        ensures passed { self.new.passed ≡ self.old.passed }
        ensures there { more ≤ self.old.room → IsOk result }
        ensures err { OnErr result (self.new ≡ self.old) }
    {
        if more <= self.list.capacity() - self.count {
            return Ok(());
        }
        let most = self.count.max(more);
        let step = growth_of(SIXTEENTH, most);
        let spare = self.count - self.list.len() + step;
        self.list.reserve_exact(more.saturating_add(spare))
    }

    /// Puts a task in, for the member, numbered from 0: into its deque, or into the list if that is
    /// full. There has to be room for it (`reserve`).
    pub fn put(&mut self, member: u16, task: u32)
        requires member { member < self.old.members }
        requires room { 0 < self.old.room }
        ensures members { self.new.members ≡ self.old.members }
        ensures ids { self.new.ids ≡ with_task task self.old.ids }
        ensures room { self.new.room + 1 ≡ self.old.room }
        ensures passed { self.new.passed ≡ self.old.passed }
    {
        put_newest(&mut self.deques[member as usize], &mut self.list, task);
        self.count += 1;
    }

    /// Takes out a task that the member, numbered from 0, may start, if there is one: the newest in its
    /// own deque, else the oldest in the list, else the oldest in the deque of another member, in the
    /// order of their numbers. A task in a deque that it may not start goes to the list. `level` is 0 in
    /// its implicit task and l in the l-th task that it has started and not ended: there it looks at none
    /// of the tasks that count as passed over. With no level it looks at all.
    pub fn take<F: Fn(u32) -> bool>(
        &mut self,
        member: u16,
        level: Option<u8>,
        may: F,
    ) -> Option<u32>
        requires member { member < self.old.members }
        requires callable { F.IsAlwaysCallable may }
        requires seen { (l t : ℕ) → level ≡ Some l →
            contains t (passed_at member l self.old) ≡ true → F.post may t false }
        ensures members { self.new.members ≡ self.old.members }
        ensures task { IfSome result (λ t. self.old.ids ≡ with_task t self.new.ids) }
        ensures may { IfSome result (λ t. F.post may t true) }
        ensures room { IfSome result (λ t. self.new.room ≡ self.old.room + 1) }
        ensures none { result ≡ None → (t : ℕ) → contains t self.old.ids ≡ true →
            F.post may t false }
        ensures same { result ≡ None → self.new ≡ record self.old { passed = self.new.passed } }
        ensures passed { (m l t : ℕ) → contains t (passed_at m l self.new) ≡ true →
            (contains t (passed_at m l self.old) ≡ true)
            ⊎ ((m ≡ member) × (level ≡ Some l) × F.post may t false) }
        ensures among { (m l t : ℕ) → contains t (passed_at m l self.new) ≡ true →
            contains t self.new.ids ≡ true }
        ensures fewer { (m l : ℕ) → length (passed_at m l self.old)
            ≤ length (passed_at m l self.new) + (if is_some result then 1 else 0) }
        ensures kept { result ≡ None → level ≡ None → self.new ≡ self.old }
        ensures looked { result ≡ None → (l t : ℕ) → level ≡ Some l → l ≤ MAX_TASK_DEPTH →
            contains t self.old.ids ≡ true → contains t (passed_at member l self.new) ≡ true }
    {
        if self.count == 0 {
            return None;
        }
        // What the member's own deque gives the list is not looked at twice.
        let listed = self.list.len();
        let own = take_from(
            &mut self.deques[member as usize],
            End::Newest,
            &mut self.list,
            &may,
        );
        if own.is_some() {
            self.count -= 1;
            return own;
        }
        let from = self.marks.at(member, level);
        let found = take_further(&mut self.deques, &mut self.list, from, listed, &may);
        self.marks.note(member, level, found.listed, found.passed);
        let task = found.task?;
        self.count -= 1;
        Some(task)
    }

    /// The member, numbered from 0, has started a task at this level, from 1, and passes over all tasks
    /// of the list there: none of them is under a task that nobody had started. Past 64, how deep a
    /// task may lie, it passes over none.
    pub fn enter(&mut self, member: u16, level: u8)
        requires member { member < self.old.members }
        ensures same { self.new ≡ record self.old { passed = self.new.passed } }
        ensures entered { (t : ℕ) → contains t (passed_at member level self.new) ≡ true →
            contains t self.old.ids ≡ true }
        ensures furthest { level ≤ MAX_TASK_DEPTH → (m l : ℕ) → length (passed_at m l self.old)
            ≤ length (passed_at member level self.new) }
        ensures past { MAX_TASK_DEPTH < level → passed_at member level self.new ≡ [] }
        ensures others { (m l : ℕ) → (m ≢ member) ⊎ (l ≢ level) →
            passed_at m l self.new ≡ passed_at m l self.old }
    {
        let mark = self.list.len();
        self.marks.set(member, level, mark);
    }

    /// Leaves of the tasks those alone that pass a test.
    pub fn retain<F: Fn(u32) -> bool>(&mut self, keep: F)
        requires callable { F.IsAlwaysCallable keep }
        ensures members { self.new.members ≡ self.old.members }
        ensures ids { (test : ℕ → Bool) → AnswersBy (F.post keep) test →
            self.new.ids ≡ filter test self.old.ids }
        ensures room { self.new.room + length self.new.ids
            ≡ self.old.room + length self.old.ids }
        ensures passed { (m l : ℕ) → passed_at m l self.new ≡ [] }
    {
        let kept = retain_each(&mut self.deques, &keep);
        self.list.retain(|task| keep(*task));
        self.count = self.list.len() + kept;
        self.marks.clear();
    }
}

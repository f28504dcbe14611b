//! What is done in all deques: where a member looks for a task, in its own deque, in the list, and in the
//! deques of the others, and which tasks are left.

ghost use Rattle.std.specs.Prelude.{◌≡◌, ◌≤◌, ◌<◌, ◌+◌, ◌⊎◌, ℕ, true, false, [], ◌++◌, ◌^◌, Bool, None, Some, length, take, slice_range, filter, IfSome};
ghost use Rattle.std.specs.List.{concat, remove, HoldsAt};
ghost use Rattle.std.specs.VecDeque.{deque_capacity};
ghost use Rattle.gomp_events.specs.Tasks.{contains};
ghost use Rattle.gomp_ready.specs.Marks.{lowered};
ghost use Rattle.gomp_ready.specs.Ready.{in_order, with_task, with_taken, AnswersBy, AreAmong, IsFirstBy};

use crate::deque::{End, MemberDeque};
use std::collections::VecDeque;

/// Puts the task into a deque at the back, or into the list if the deque is full.
pub(crate) fn put_newest(deque: &mut MemberDeque, list: &mut VecDeque<u32>, task: u32)
    requires room { length list.old.items < deque_capacity list.old }
    ensures tasks { in_order (list.new.items ++ deque.new)
        ≡ with_task task (in_order (list.old.items ++ deque.old)) }
    ensures behind { take (length list.old.items) list.new.items ≡ list.old.items }
    ensures capacity { deque_capacity list.new ≡ deque_capacity list.old }
{
    if deque.is_full() {
        list.push_back_reserved(task);
    } else {
        deque.push(task);
    }
}

/// Takes the first task that may be started out of a deque, from this end on. Those before it go to the
/// list.
pub(crate) fn take_from<F: Fn(u32) -> bool>(
    deque: &mut MemberDeque,
    end: End,
    list: &mut VecDeque<u32>,
    may: &F,
) -> Option<u32>
    requires callable { F.IsAlwaysCallable may.now }
    requires room { length list.old.items + length deque.old ≤ deque_capacity list.old }
    ensures tasks { in_order (list.old.items ++ deque.old)
        ≡ with_taken result (in_order (list.new.items ++ deque.new)) }
    ensures may { IfSome result (λ t. F.post may.now t true) }
    ensures none { result ≡ None → (t : ℕ) → contains t deque.old ≡ true → F.post may.now t false }
    ensures empty { result ≡ None → deque.new ≡ [] }
    ensures behind { take (length list.old.items) list.new.items ≡ list.old.items }
    ensures looked { (t : ℕ) → contains t list.new.items ≡ true →
        (contains t list.old.items ≡ true) ⊎ F.post may.now t false }
    ensures capacity { deque_capacity list.new ≡ deque_capacity list.old }
{
    while let Some(first) = deque.pop(end) {
        if may(first) {
            return Some(first);
        }
        list.push_back_reserved(first);
    }
    None
}

/// The place of the first task of the list that may be started, from one place on up to another. It is
/// counted from the first of these.
fn place_of<F: Fn(u32) -> bool>(
    list: &VecDeque<u32>,
    from: usize,
    to: usize,
    may: &F,
) -> Option<usize>
    requires callable { F.IsAlwaysCallable may.now }
    requires places { (from ≤ to) × (to ≤ length list.now.items) }
    ensures first { IsFirstBy (F.post may.now) (slice_range list.now.items from to) result }
{
    if from == to {
        return None;
    }
    // The first one apart: it is most often the one, and costs no loop.
    if may(list[from]) {
        return Some(0);
    }
    for place in from + 1..to {
        if may(list[place]) {
            return Some(place - from);
        }
    }
    None
}

/// Takes the oldest task that may be started out of the first deque that has one. Those before it go to
/// the list.
pub(crate) fn take_elsewhere<F: Fn(u32) -> bool>(
    deques: &mut Vec<MemberDeque>,
    list: &mut VecDeque<u32>,
    may: &F,
) -> Option<u32>
    requires callable { F.IsAlwaysCallable may.now }
    requires room { length list.old.items + length (concat deques.old.items)
        ≤ deque_capacity list.old }
    ensures members { length deques.new.items ≡ length deques.old.items }
    ensures tasks { in_order (list.old.items ++ concat deques.old.items)
        ≡ with_taken result (in_order (list.new.items ++ concat deques.new.items)) }
    ensures may { IfSome result (λ t. F.post may.now t true) }
    ensures none { result ≡ None → (t : ℕ) → contains t (concat deques.old.items) ≡ true →
        F.post may.now t false }
    ensures empty { result ≡ None → concat deques.new.items ≡ [] }
    ensures behind { take (length list.old.items) list.new.items ≡ list.old.items }
    ensures looked { (t : ℕ) → contains t list.new.items ≡ true →
        (contains t list.old.items ≡ true) ⊎ F.post may.now t false }
    ensures capacity { deque_capacity list.new ≡ deque_capacity list.old }
{
    for member in 0..deques.len() {
        let found = take_from(&mut deques[member], End::Oldest, list, may);
        if found.is_some() {
            return found;
        }
    }
    None
}

/// What a member has found.
#[derive(Drop)]
pub(crate) struct Found {
    /// The task that was taken out, if there was one that it may start.
    pub(crate) task: Option<u32>,
    /// Whether it was taken out of the list.
    pub(crate) listed: bool,
    /// So many tasks at the front of the list were looked at in vain.
    pub(crate) passed: usize,
}

/// Takes out a task that the member may start: out of the list, else out of the first deque that has
/// one. At so many tasks at the front of the list, `from`, it has looked in vain before, and at those
/// behind the first `listed` too.
pub(crate) fn take_further<F: Fn(u32) -> bool>(
    deques: &mut Vec<MemberDeque>,
    list: &mut VecDeque<u32>,
    from: usize,
    listed: usize,
    may: &F,
) -> Found
    requires callable { F.IsAlwaysCallable may.now }
    requires places { (from ≤ listed) × (listed ≤ length list.old.items) }
    requires seen { (t : ℕ) → contains t (take from list.old.items) ≡ true →
        F.post may.now t false }
    requires behind { (t : ℕ) → contains t list.old.items ≡ true →
        (contains t (take listed list.old.items) ≡ true) ⊎ F.post may.now t false }
    requires room { length list.old.items + length (concat deques.old.items)
        ≤ deque_capacity list.old }
    ensures members { length deques.new.items ≡ length deques.old.items }
    ensures tasks { in_order (list.old.items ++ concat deques.old.items)
        ≡ with_taken result.task (in_order (list.new.items ++ concat deques.new.items)) }
    ensures may { IfSome result.task (λ t. F.post may.now t true) }
    ensures none { result.task ≡ None → (t : ℕ) →
        contains t (list.old.items ++ concat deques.old.items) ≡ true → F.post may.now t false }
    ensures all { result.task ≡ None →
        (concat deques.new.items ≡ []) × (result.passed ≡ length list.new.items) }
    ensures kept { result.task ≡ None → (result.listed ≡ false)
        × (take (length list.old.items) list.new.items ≡ list.old.items) }
    ensures passed { (from ≤ result.passed) × (result.passed ≤ length list.new.items) }
    ensures looked { (t : ℕ) → contains t (take result.passed list.new.items) ≡ true →
        F.post may.now t false }
    ensures longer { (mark : ℕ) → mark ≤ length list.old.items →
        lowered result.listed mark ≤ length list.new.items }
    ensures fronts { (mark : ℕ) → mark ≤ length list.old.items →
        AreAmong (take (lowered result.listed mark) list.new.items) (take mark list.old.items) }
    ensures capacity { deque_capacity list.new ≡ deque_capacity list.old }
{
    if let Some(place) = place_of(list, from, listed, may) {
        return take_listed(list, from + place);
    }
    let task = take_elsewhere(deques, list, may);
    Found {
        task,
        listed: false,
        passed: list.len(),
    }
}

/// Takes out the task at this place of the list; the one at the front, which is the most frequent, in a
/// few instructions.
fn take_listed(list: &mut VecDeque<u32>, place: usize) -> Found
    requires place { place < length list.old.items }
    ensures task { HoldsAt (λ t. result.task ≡ Some t) list.old.items place }
    ensures listed { result.listed ≡ true }
    ensures passed { result.passed ≡ place }
    ensures items { list.new.items ≡ remove list.old.items place }
    ensures capacity { deque_capacity list.new ≡ deque_capacity list.old }
{
    let task = if place == 0 {
        list.pop_front()
    } else {
        list.remove(place)
    };
    Found {
        task,
        listed: true,
        passed: place,
    }
}

/// Leaves of the tasks in deques those alone that pass a test. Answers how many are left.
pub(crate) fn retain_each<F: Fn(u32) -> bool>(deques: &mut Vec<MemberDeque>, keep: &F) -> usize
    requires callable { F.IsAlwaysCallable keep.now }
    requires fits { length (concat deques.old.items) < 2 ^ 63 }
    ensures members { length deques.new.items ≡ length deques.old.items }
    ensures tasks { (test : ℕ → Bool) → AnswersBy (F.post keep.now) test →
        concat deques.new.items ≡ filter test (concat deques.old.items) }
    ensures count { result ≡ length (concat deques.new.items) }
    ensures fewer { result ≤ length (concat deques.old.items) }
{
    let mut count = 0;
    for member in 0..deques.len() {
        let deque = &mut deques[member];
        deque.retain(keep);
        count += deque.len();
    }
    count
}

//! The line of one parent and one address.

ghost use Rattle.std.specs.Prelude.{◌≡◌, ◌<◌, ◌≤◌, ◌+◌, ◌∷◌, ◌==◌, ◌&&◌, ◌||◌, not, ℕ, List, [], true, false, Option, Some, None, IsOk, OnOk, OnErr, IfSome, IsSome, IsTrue, ◌↔◌, length};
ghost use Rattle.gomp_lines.specs.declared.classes.Class.{Class};
ghost use Rattle.gomp_lines.specs.Lines.{Entry, without, is_in, waits_for_none};
ghost use Rattle.gomp_lines.specs.Queues.{LineView, is_held_back, is_unblocked, LineQueues, StandsFor, FirstWaits, SameTasks, Rise, first_may_go, from_first_open, is_task, queue_room};
ghost use Rattle.gomp_lines.specs.declared.lines.Waiting.{Waiting};
ghost use Rattle.std.specs.List.{HoldsAt};
ghost use Rattle.std.specs.VecDeque.{deque_len, deque_capacity};

use crate::classes::Class;
use std::alloc::{AllocError, Global};
use std::collections::VecDeque;
use std::marker::Model;

/// The room for tasks that wait grows by so many at least, besides the one that is asked for.
const LEAST_STEP: usize = 3;

/// A task that waited when it joined a line.
#[derive(Debug, Drop)]
pub struct Waiting {
    /// Its number, from 1.
    pub task: u32,
    /// Its class at the address.
    pub class: Class,
    /// Whether it is not complete: a cancellation may discard a task that waits.
    pub is_open: bool,
}

/// The open children of one parent that name one address. Only `reserve` takes memory.
#[derive(Debug, Drop)]
pub struct Line {
    class: Class,
    free_count: usize,
    waiting: VecDeque<Waiting>,
}

impl Model for Line {
    ghost use Rattle.std.specs.Prelude.{◌-◌};
    ghost use Rattle.std.specs.VecDeque.{deque_len, deque_capacity};
    ghost use Rattle.gomp_lines.specs.Queues.{LineView};

    ghost Value = { LineView };

    ghost view = { λ line. record { class = line.class; free_count = line.free_count; waiting = line.waiting.items; room = deque_capacity line.waiting - deque_len line.waiting } };
}

impl Line {
    /// A line without tasks. It takes no memory.
    pub fn new(alloc: Global) -> Line
        ensures { (n : ℕ) → StandsFor result n [] }
    {
        Line {
            class: Class::Alone,
            free_count: 0,
            waiting: VecDeque::new(alloc),
        }
    }

    /// Whether a task of this class that joins now is free here: whether it waits for none of the line.
    pub fn is_ready(&self, class: Class) -> bool
        ensures by_queue { result ≡ is_unblocked class self.now }
        ensures by_line { (n : ℕ) (line : List Entry) → StandsFor self.now n line →
            result ≡ waits_for_none class line }
    {
        self.waiting.is_empty() && (self.free_count == 0 || class.shares(self.class))
    }

    /// Whether the line has no task.
    pub fn is_empty(&self) -> bool
        ensures { (n : ℕ) (line : List Entry) → StandsFor self.now n line →
            (IsTrue result ↔ (line ≡ [])) }
    {
        self.free_count == 0
    }

    /// Makes room for one more task of this class, and for as many again as wait if there is none. It
    /// fails, and nothing changes, if the memory is
    /// refused.
    pub fn reserve(&mut self, class: Class) -> Result<(), AllocError>
        ensures room { OnOk result (is_unblocked class self.new ≡ false → 0 < self.new.room) }
        ensures memory { OnOk result (self.new.room
            ≡ queue_room (is_unblocked class self.old) (length self.old.waiting) self.old.room) }
        ensures tasks { SameTasks self.old self.new }
        ensures grows { self.old.room ≤ self.new.room }
        ensures there { 0 < self.old.room → IsOk result }
        ensures free { is_unblocked class self.old ≡ true → IsOk result × (self.new ≡ self.old) }
        ensures err { OnErr result (self.new ≡ self.old) }
    {
        if self.is_ready(class) || self.waiting.len() < self.waiting.capacity() {
            return Ok(());
        }
        let step = self.waiting.len().max(LEAST_STEP);
        self.waiting.reserve_exact(step + 1)
    }

    /// The task with this number, which is newer than all that have joined, joins the line with this
    /// class. Answers whether it is free here. If it is not, there has to be room for it (`reserve`).
    pub fn join(&mut self, task: u32, class: Class) -> bool
        requires room { is_unblocked class self.old ≡ false → 0 < self.old.room }
        requires newer { (n : ℕ) × (line : List Entry) × StandsFor self.old n line × (n ≤ task) }
        ensures ready { result ≡ is_unblocked class self.old }
        ensures held { (t : ℕ) → is_held_back t self.new.waiting
            ≡ (is_held_back t self.old.waiting || (not result && task == t)) }
        ensures stands { (n : ℕ) (line : List Entry) → StandsFor self.old n line → n ≤ task →
            StandsFor self.new (task + 1) (record { task = task; class = class } ∷ line) }
    {
        // `reserve` asked this too, for the room; between the two nothing has changed.
        if self.is_ready(class) {
            self.class = class;
            self.free_count += 1;
            return true;
        }
        self.waiting.push_back_reserved(Waiting {
            task,
            class,
            is_open: true,
        });
        false
    }

    /// The task, which is in the line, leaves it: it is complete. Then `free_next` says which tasks are
    /// free here by that.
    pub fn leave(&mut self, task: u32)
        requires member { (n : ℕ) × (line : List Entry) × LineQueues self.old n line
            × (is_in task line ≡ true) }
        ensures held { (t : ℕ) → is_held_back t self.new.waiting
            ≡ (is_held_back t self.old.waiting && not (task == t)) }
        ensures room { self.old.room ≤ self.new.room }
        ensures queues { (n : ℕ) (line : List Entry) →
            LineQueues self.old n line → is_in task line ≡ true →
            LineQueues self.new n (without task line) }
    {
        match place_of(&self.waiting, task) {
            Some(place) => self.waiting[place].is_open = false,
            None => self.free_count -= 1,
        }
    }

    /// One of the tasks that waited here and are free by now, the oldest first. If there is none, the
    /// value stands for its line again.
    pub fn free_next(&mut self) -> Option<u32>
        requires known { (n : ℕ) × (line : List Entry) × LineQueues self.old n line }
        ensures room { self.old.room ≤ self.new.room }
        ensures freed { IfSome result (λ t. is_held_back t self.old.waiting ≡ true) }
        ensures fewer { IsSome result → length self.new.waiting < length self.old.waiting }
        ensures held { (t : ℕ) → is_held_back t self.new.waiting
            ≡ (is_held_back t self.old.waiting && not (is_task t result)) }
        ensures queues { (n : ℕ) (line : List Entry) → LineQueues self.old n line →
            LineQueues self.new n line }
        ensures stands { result ≡ None → FirstWaits self.new }
    {
        skip_closed(&mut self.waiting);
        if !self.first_may_go() {
            return None;
        }
        let first = self.waiting.pop_front()?;
        self.class = first.class;
        self.free_count += 1;
        Some(first.task)
    }

    /// Whether the first waiting task waits for none of those that are free.
    fn first_may_go(&self) -> bool
        ensures { result ≡ first_may_go self.now }
    {
        match self.waiting.front() {
            Some(first) => self.free_count == 0 || first.class.shares(self.class),
            None => false,
        }
    }
}

/// The place of the task among these, which stand by rising numbers.
fn place_of(waiting: &VecDeque<Waiting>, task: u32) -> Option<usize>
    ensures within { IfSome result (λ place. place < length waiting.now.items) }
    ensures found { IfSome result (HoldsAt (λ (at : Waiting). at.task ≡ task) waiting.now.items) }
    ensures none { result ≡ None → (low : ℕ) (n : ℕ) → Rise low n waiting.now.items →
        is_held_back task waiting.now.items ≡ false }
{
    let place = waiting.partition_point(|at| at.task < task);
    match waiting.get(place) {
        Some(at) if at.task == task => Some(place),
        _ => None,
    }
}

/// Drops the tasks at the front that are complete.
fn skip_closed(waiting: &mut VecDeque<Waiting>)
    ensures items { waiting.new.items ≡ from_first_open waiting.old.items }
    ensures capacity { deque_capacity waiting.new ≡ deque_capacity waiting.old }
    ensures len { deque_len waiting.new ≤ deque_len waiting.old }
{
    while waiting.front().is_some_and(|first| !first.is_open) {
        let _ = waiting.pop_front();
    }
}

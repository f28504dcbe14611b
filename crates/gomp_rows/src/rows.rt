//! The rows, and how a number finds its row.

ghost use Rattle.std.specs.Prelude.{◌≡◌, ◌<◌, ◌≤◌, ◌∷◌, ◌++◌, ◌+◌, ◌^◌, ℕ, [], Some, None, length, drop, OnOk, OnErr, IsOk, option_copied};
ghost use Rattle.std.specs.Borrow.{sem};
ghost use Rattle.std.specs.Vec.{vec_len, vec_capacity};
ghost use Rattle.gomp_rows.specs.declared.rows.TheConstants.{MAX_ROWS};
ghost use Rattle.gomp_rows.specs.Rows.{row_no, HasRow, with_row};
ghost use Rattle.gomp_rows.specs.Table.{all_keys, key_at, without_key, StartsDead, IsFront};

use gomp_growth::growth_of;
use slab::Slab;
use std::alloc::{AllocError, Global};
use std::marker::Model;
use std::mem;

/// The largest number that a row may have.
pub const MAX_ROWS: u32 = 4_294_967_295;

/// The room grows by this part of the rows that there are: by an eighth.
const EIGHTH: usize = 8;

/// So many keys at least are taken out of the front at once: with fewer, a short table would move
/// its keys at nearly every removal.
const LEAST_DROP: u32 = 64;

/// Rows under the numbers from 1 on, in the order in which they were put in. Only `reserve` takes
/// memory.
///
/// The keys stand in a plain vector, so that a number finds its key by one subtraction and one
/// look. The keys at its front whose numbers have no row any more stay until they are at least 64
/// and at least half of all, and are then taken out in one go. So a removal moves at most one key
/// on average, and after each removal there are fewer than 64 of them, or fewer than of the numbers
/// from the oldest row on, whose keys all stand in the vector.
#[derive(Drop)]
pub struct Rows<T: Copy> {
    /// The rows, each under a key that the slab picks.
    slab: Slab<T>,
    /// For each number above `base`, in order, one more than the key of its row; 0 if it has none.
    keys: Vec<usize>,
    /// So many numbers, the lowest, have no row any more, and their keys are not stored.
    base: u32,
    /// So many of the keys, the first, are 0, and the one after them is not, if there is one: their
    /// numbers have no row any more, and they wait to be taken out together.
    dead: u32,
}

impl<T: Copy> Model for Rows<T> {
    ghost use Rattle.std.specs.Prelude.{◌-◌, min, map};
    ghost use Rattle.std.specs.Vec.{vec_len, vec_capacity};
    ghost use Rattle.slab.specs.Slab.{slab_len};
    ghost use Rattle.gomp_rows.specs.Rows.{RowsView};

    ghost Value = { RowsView T };

    ghost use Rattle.gomp_rows.specs.Table.{all_keys, kept, IsTable, IsFront};

    ghost view = { λ r. record {
      rows = map (kept r.slab) (all_keys r.base r.keys.items);
      room = min (r.slab.capacity - slab_len r.slab) (vec_capacity r.keys - vec_len r.keys);
    } };

    ghost invariant = { λ r. IsTable r.slab (all_keys r.base r.keys.items)
        × IsFront r.dead r.keys.items };
}

impl<T: Copy> Rows<T> {
    ghost use Rattle.gomp_rows.specs.Lends.{lends_row};

    /// No row. It takes no memory.
    pub fn new(alloc: Global) -> Rows<T>
        ensures rows { result.rows ≡ [] }
        ensures room { result.room ≡ 0 }
    {
        Rows {
            slab: Slab::new(alloc),
            keys: Vec::new(alloc),
            base: 0,
            dead: 0,
        }
    }

    /// How many rows were put in: the number that was given last, and 0 if none was.
    pub fn count(&self) -> u32
        ensures value { result ≡ length self.now.rows }
    {
        self.base + self.keys.len() as u32
    }

    /// So many numbers, the lowest ones, have no row any more.
    pub fn gone(&self) -> u32
        ensures few { result ≤ length self.now.rows }
        ensures none { (number : ℕ) → number ≤ result → row_no self.now.rows number ≡ None }
        ensures next { result < length self.now.rows → HasRow self.now.rows (result + 1) }
    {
        self.base + self.dead
    }

    /// The row under this number; none if it was taken out, or the number was not given.
    pub fn get(&self, number: u32) -> Option<&T>
        ensures value { option_copied result ≡ row_no self.now.rows number }
    {
        let key = key_of(&self.keys, self.base, number);
        if key == 0 {
            return None;
        }
        self.slab.get(key - 1)
    }

    /// The row under a number that has one.
    pub fn row(&self, number: u32) -> &T
        requires there { HasRow self.now.rows number }
        ensures value { row_no self.now.rows number ≡ Some result.now }
    {
        let key = stored_key(&self.keys, self.base, number);
        &self.slab[key - 1]
    }

    /// The row under a number that has one, for writing. The rows have what is written through it.
    pub fn row_mut(&mut self, number: u32) -> &mut T
        requires there { HasRow self.old.rows number }
        ensures* lends { sem 𝓛 (lends_row T.row self.entry number result) }
        ensures value { row_no self.old.rows number ≡ Some result.now }
    {
        let key = stored_key(&self.keys, self.base, number);
        &mut self.slab[key - 1]
    }

    /// Makes room for one more row. The room grows in steps, so that rows are seldom moved. It fails,
    /// and nothing changes, if there is none and its memory is refused.
    pub fn reserve(&mut self) -> Result<(), AllocError>
        ensures rows { self.new.rows ≡ self.old.rows }
        ensures room { OnOk result (0 < self.new.room) }
        ensures grows { self.old.room ≤ self.new.room }
        ensures there { 0 < self.old.room → IsOk result }
        ensures err { OnErr result (self.new ≡ self.old) }
    {
        if self.keys.len() == self.keys.capacity() {
            let step = growth_of(EIGHTH, self.keys.len());
            self.keys.reserve_exact(step + 1)?;
        }
        if self.slab.len() < self.slab.capacity() {
            return Ok(());
        }
        // The slab does not say that its room stays if memory is refused.
        let step = growth_of(EIGHTH, self.keys.len());
        match self.slab.reserve_exact(step + 1) {
            Err(refused) if self.slab.len() == self.slab.capacity() => Err(refused),
            _ => Ok(()),
        }
    }

    /// Puts a row in under the next number. There has to be room for it (`reserve`).
    pub fn push(&mut self, row: T)
        requires room { 0 < self.old.room }
        requires few { length self.old.rows < MAX_ROWS }
        ensures rows { self.new.rows ≡ self.old.rows ++ Some row ∷ [] }
        ensures room { self.new.room + 1 ≡ self.old.room }
    {
        let key = self.slab.insert_reserved(row);
        // The key is below it, so there is one more.
        let _ = self.slab.capacity();
        self.keys.push_reserved(key + 1);
    }

    /// Takes the row under the number out. Its memory serves the rows that come.
    pub fn remove(&mut self, number: u32)
        requires there { HasRow self.old.rows number }
        ensures rows { self.new.rows ≡ with_row self.old.rows number None }
        ensures room { self.old.room ≤ self.new.room }
    {
        let key = take_key(&mut self.keys, self.base, number);
        let _ = self.slab.remove(key - 1);
        let dead = past_dead(&self.keys, self.dead);
        let dropped = drop_front(&mut self.keys, dead);
        self.base += dropped;
        self.dead = dead - dropped;
    }
}

/// One more than the key of the number's row; 0 if it has none. `keys` are those of the numbers
/// above `base`.
fn key_of(keys: &Vec<usize>, base: u32, number: u32) -> usize
    ensures { result ≡ key_at (all_keys base keys.now.items) number }
{
    if number <= base {
        return 0;
    }
    match keys.get((number - base - 1) as usize) {
        Some(key) => *key,
        None => 0,
    }
}

/// One more than the key of a number's row, if it has one. `keys` are those of the numbers above
/// `base`.
fn stored_key(keys: &Vec<usize>, base: u32, number: u32) -> usize
    requires there { 0 < key_at (all_keys base keys.now.items) number }
    ensures { result ≡ key_at (all_keys base keys.now.items) number }
{
    keys[(number - base - 1) as usize]
}

/// Takes out the key of a number that has one, and answers one more than it. `keys` are those of
/// the numbers above `base`. The keys that were 0 stay so.
fn take_key(keys: &mut Vec<usize>, base: u32, number: u32) -> usize
    requires there { 0 < key_at (all_keys base keys.old.items) number }
    ensures key { result ≡ key_at (all_keys base keys.old.items) number }
    ensures rest { all_keys base keys.new.items
        ≡ without_key (all_keys base keys.old.items) number }
    ensures dead { (dead : ℕ) → StartsDead dead keys.old.items → StartsDead dead keys.new.items }
    ensures capacity { vec_capacity keys.new ≡ vec_capacity keys.old }
    ensures len { vec_len keys.new ≡ vec_len keys.old }
{
    let place = (number - base - 1) as usize;
    mem::replace(&mut keys[place], 0)
}

/// How many keys at the front are 0, of which `dead` are known.
fn past_dead(keys: &Vec<usize>, mut dead: u32) -> u32
    requires few { length keys.now.items ≤ MAX_ROWS }
    requires dead { StartsDead dead keys.now.items }
    ensures { IsFront result keys.now.items }
{
    while (dead as usize) < keys.len() && keys[dead as usize] == 0 {
        dead += 1;
    }
    dead
}

/// Takes the first `dead` keys out, if they are at least `LEAST_DROP` and at least half of all, so
/// that their memory serves the numbers that come. Answers how many it took.
fn drop_front(keys: &mut Vec<usize>, dead: u32) -> u32
    requires dead { dead ≤ length keys.old.items }
    ensures few { result ≤ dead }
    ensures items { keys.new.items ≡ drop result keys.old.items }
    ensures capacity { vec_capacity keys.new ≡ vec_capacity keys.old }
    ensures len { vec_len keys.new ≤ vec_len keys.old }
{
    let rest = keys.len() - dead as usize;
    if dead < LEAST_DROP || (dead as usize) < rest {
        return 0;
    }
    keys.copy_within(dead as usize.., 0);
    keys.truncate(rest);
    dead
}

//! The book of names and locks.

ghost use Rattle.std.specs.Prelude.{◌≡◌, ◌<◌, ◌≤◌, ◌↔◌, [], IsTrue, true, List, ℕ, map, length};
ghost use Rattle.std.specs.Option.{option_map};
ghost use Rattle.gomp_types.specs.declared.lock.TheConstants.{MAX_LOCKS};
ghost use Rattle.gomp_locks.specs.Book.{names_held, name_owner, owned_by, unset_lock};

use crate::critical::place_of;
use crate::lock::Lock;
use gomp_types::{CriticalName, Owner};
use std::alloc::Global;
use std::collections::BTreeMap;
use std::marker::Model;

/// Which critical names and locks are held, and by whom. A new one has none.
#[derive(Drop)]
pub struct LockBook {
    /// Each name that was ever started, with its owner while it is held.
    pub(crate) names: BTreeMap<CriticalName, Option<Owner>>,
    /// Who holds a name: an owner is there once for each name that it holds. It has room for as many
    /// as there are names.
    pub(crate) holders: Vec<Owner>,
    /// The locks by their numbers.
    pub(crate) locks: Vec<Option<Lock>>,
}

impl Model for LockBook {
    ghost use Rattle.std.specs.Prelude.{◌≤◌, length, vec_capacity};
    ghost use Rattle.std.specs.Ordering.{nat_cmp};
    ghost use Rattle.std.specs.Cmp.Lexicographic.{slice_cmp};
    ghost use Rattle.std.specs.List.Sorted.{IsStrictlySortedBy};
    ghost use Rattle.std.specs.Map.{keys_of};
    ghost use Rattle.gomp_types.specs.declared.lock.TheConstants.{MAX_LOCKS};
    ghost use Rattle.gomp_locks.specs.Book.{BookView};
    ghost use Rattle.gomp_locks.specs.Counts.{AreHolders, AreHeldOnce};

    ghost Value = { BookView };

    ghost view = { λ book. record { names = book.names.entries; locks = book.locks.items } };

    ghost invariant = { λ book. AreHolders book.holders.items book.names.entries (vec_capacity book.holders) × AreHeldOnce book.locks.items × (length book.locks.items ≤ MAX_LOCKS) × IsStrictlySortedBy (slice_cmp nat_cmp) (keys_of book.names.entries) };
}

impl LockBook {
    /// No name was started, and no lock made. It takes no memory.
    pub fn new(alloc: Global) -> LockBook
        ensures names { result.names ≡ [] }
        ensures locks { result.locks ≡ [] }
    {
        LockBook {
            names: BTreeMap::new(alloc),
            holders: Vec::new(alloc),
            locks: Vec::new(alloc),
        }
    }

    /// Whether this owner holds a critical name.
    pub fn holds_critical(&self, owner: Owner) -> bool
        ensures held { IsTrue result ↔ (0 < names_held owner self.now.names) }
        ensures name { IsTrue result ↔
            ((name : List ℕ) × (owned_by owner (name_owner name self.now) ≡ true)) }
    {
        place_of(&self.holders, owner).is_some()
    }

    /// The book with the same locks, but nobody holds any of them, and with no name.
    pub fn without_holds(self) -> LockBook
        ensures names { result.names ≡ [] }
        ensures locks { result.locks ≡ map (option_map unset_lock) self.locks }
        ensures bound { length result.locks ≤ MAX_LOCKS }
    {
        let LockBook {
            mut names,
            mut holders,
            mut locks,
        } = self;
        names.clear();
        holders.clear();
        unset_all(&mut locks);
        LockBook {
            names,
            holders,
            locks,
        }
    }
}

/// Nobody holds any of these locks from now on.
fn unset_all(locks: &mut [Option<Lock>])
    ensures { locks.new ≡ map (option_map unset_lock) locks.old }
{
    for place in locks.iter_mut() {
        if let Some(lock) = place {
            lock.held = None;
        }
    }
}

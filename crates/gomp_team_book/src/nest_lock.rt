//! Nestable locks under the lock. OpenMP API 5.2, sections 18.9.4 to 18.9.6.

ghost use Rattle.std.specs.Prelude.{◌≡◌};
ghost use Rattle.gomp_types.specs.Least.{Answers};
ghost use Rattle.gomp_types.specs.declared.lock.LockKind.TheVariants.{Nest};
ghost use Rattle.gomp_locks.specs.Book.{lock_at};
ghost use Rattle.gomp_locks.specs.BookCalls.{holds_gained, holds_lost, set_nest_lock, test_nest_lock, unset_nest_lock};
ghost use Rattle.gomp_locks.specs.Locks.{nest_tests, SetsNest, after_set_nest, TestsNest, after_test_nest, unset_tests, UnsetsNest, after_unset_nest};
ghost use Rattle.gomp_team_book.specs.Others.{LeavesOthers};
ghost use Rattle.gomp_team_book.specs.Parts.{counted_more};

use crate::locked_book::{HoldLedger, LockedBook};
use crate::part::BookPart;
use crate::replies::{one_if_counted, one_if_set};
use gomp_types::{Owner, Reply};
use std::sync::ledger::Ledger;

impl<H: HoldLedger, F: Ledger> LockedBook<H, F> {
    /// Sets a nestable lock that no other task holds once more, and answers how often this task has set
    /// it now; if another task holds it, the answer is to wait. The part moves by the hold if the lock
    /// is set.
    ///
    /// Refused as [`LockBook::set_nest`](gomp_locks::LockBook::set_nest) is.
    pub fn set_nest(&mut self, part: &mut BookPart<H>, owner: Owner, number: u32) -> Reply
        ensures answer { Answers (nest_tests owner (lock_at Nest number self.old))
            (SetsNest owner (lock_at Nest number self.old)) result }
        ensures book { self.new ≡ after_set_nest owner number result self.old }
        ensures others { LeavesOthers owner self.old self.new }
        ensures moved { part.new ≡
            counted_more (holds_gained (set_nest_lock number) result) part.old }
    {
        let LockedBook { book, held, .. } = self;
        let reply = book.set_nest(owner, number);
        part.count(held, one_if_counted(&reply));
        reply
    }

    /// Sets a nestable lock once more if no other task holds it, and answers how often this task has set
    /// it now; 0 if another task holds it. The part moves by the hold if the lock is set.
    ///
    /// Refused as [`LockBook::test_nest`](gomp_locks::LockBook::test_nest) is.
    pub fn test_nest(&mut self, part: &mut BookPart<H>, owner: Owner, number: u32) -> Reply
        ensures answer { Answers (nest_tests owner (lock_at Nest number self.old))
            (TestsNest owner (lock_at Nest number self.old)) result }
        ensures book { self.new ≡ after_test_nest owner number result self.old }
        ensures others { LeavesOthers owner self.old self.new }
        ensures moved { part.new ≡
            counted_more (holds_gained (test_nest_lock number) result) part.old }
    {
        let LockedBook { book, held, .. } = self;
        let reply = book.test_nest(owner, number);
        part.count(held, one_if_set(&reply));
        reply
    }

    /// Unsets a nestable lock that this task holds once, and answers how often it is set still. The part
    /// moves by the hold that ends.
    ///
    /// Refused as [`LockBook::unset_nest`](gomp_locks::LockBook::unset_nest) is.
    pub fn unset_nest(&mut self, part: &mut BookPart<F>, owner: Owner, number: u32) -> Reply
        ensures answer { Answers (unset_tests owner (lock_at Nest number self.old))
            (UnsetsNest owner (lock_at Nest number self.old)) result }
        ensures book { self.new ≡ after_unset_nest owner number result self.old }
        ensures others { LeavesOthers owner self.old self.new }
        ensures moved { part.new ≡
            counted_more (holds_lost (unset_nest_lock number) result) part.old }
    {
        let LockedBook { book, freed, .. } = self;
        let reply = book.unset_nest(owner, number);
        part.count(freed, one_if_counted(&reply));
        reply
    }
}

//! Simple locks under the lock. OpenMP API 5.2, sections 18.9.4 to 18.9.6.

ghost use Rattle.std.specs.Prelude.{◌≡◌};
ghost use Rattle.gomp_types.specs.Least.{Answers};
ghost use Rattle.gomp_types.specs.declared.lock.LockKind.TheVariants.{Simple};
ghost use Rattle.gomp_types.specs.declared.reply.Reply.TheVariants.{Finished};
ghost use Rattle.gomp_locks.specs.Book.{lock_at};
ghost use Rattle.gomp_locks.specs.BookCalls.{holds_gained, holds_lost, set_lock, test_lock, unset_lock};
ghost use Rattle.gomp_locks.specs.Locks.{set_tests, SetsLock, after_set, test_tests, TestsLock, after_test, unset_tests, after_unset};
ghost use Rattle.gomp_team_book.specs.Others.{LeavesOthers};
ghost use Rattle.gomp_team_book.specs.Parts.{counted_more};

use crate::locked_book::{HoldLedger, LockedBook};
use crate::part::BookPart;
use crate::replies::{one_if_finished, one_if_got};
use gomp_types::{Owner, Reply};
use std::sync::ledger::Ledger;

impl<H: HoldLedger, F: Ledger> LockedBook<H, F> {
    /// Sets a simple lock that nobody holds; if another task holds it, the answer is to wait. The part
    /// moves by the hold if the lock is set.
    ///
    /// Refused as [`LockBook::set`](gomp_locks::LockBook::set) is.
    pub fn set(&mut self, part: &mut BookPart<H>, owner: Owner, number: u32) -> Reply
        ensures answer { Answers (set_tests owner (lock_at Simple number self.old))
            (SetsLock (lock_at Simple number self.old)) result }
        ensures book { self.new ≡ after_set owner number result self.old }
        ensures others { LeavesOthers owner self.old self.new }
        ensures moved { part.new ≡ counted_more (holds_gained (set_lock number) result) part.old }
    {
        let LockedBook { book, held, .. } = self;
        let reply = book.set(owner, number);
        part.count(held, one_if_finished(&reply));
        reply
    }

    /// Sets a simple lock if nobody holds it, and tells whether it did. The part moves by the hold if
    /// the lock is set.
    ///
    /// Refused as [`LockBook::test`](gomp_locks::LockBook::test) is.
    pub fn test(&mut self, part: &mut BookPart<H>, owner: Owner, number: u32) -> Reply
        ensures answer { Answers (test_tests (lock_at Simple number self.old))
            (TestsLock (lock_at Simple number self.old)) result }
        ensures book { self.new ≡ after_test owner number result self.old }
        ensures others { LeavesOthers owner self.old self.new }
        ensures moved { part.new ≡ counted_more (holds_gained (test_lock number) result) part.old }
    {
        let LockedBook { book, held, .. } = self;
        let reply = book.test(owner, number);
        part.count(held, one_if_got(&reply));
        reply
    }

    /// Unsets a simple lock that this task holds. The part moves by the hold that ends.
    ///
    /// Refused as [`LockBook::unset`](gomp_locks::LockBook::unset) is.
    pub fn unset(&mut self, part: &mut BookPart<F>, owner: Owner, number: u32) -> Reply
        ensures answer { Answers (unset_tests owner (lock_at Simple number self.old))
            (λ reply. reply ≡ Finished) result }
        ensures book { self.new ≡ after_unset number result self.old }
        ensures others { LeavesOthers owner self.old self.new }
        ensures moved { part.new ≡ counted_more (holds_lost (unset_lock number) result) part.old }
    {
        let LockedBook { book, freed, .. } = self;
        let reply = book.unset(owner, number);
        part.count(freed, one_if_finished(&reply));
        reply
    }
}

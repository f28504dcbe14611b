//! Making locks under the lock, and destroying them. OpenMP API 5.2, sections 18.9.1 and 18.9.3.

ghost use Rattle.std.specs.Prelude.{◌≡◌, length};
ghost use Rattle.gomp_types.specs.declared.task.Owner.{Owner};
ghost use Rattle.gomp_types.specs.Least.{Answers};
ghost use Rattle.gomp_types.specs.declared.lock.LockKind.TheVariants.{Simple, Nest};
ghost use Rattle.gomp_types.specs.declared.reply.Reply.TheVariants.{Finished};
ghost use Rattle.gomp_locks.specs.Book.{AnswersOrLacks, any_lock_at};
ghost use Rattle.gomp_locks.specs.Locks.{init_tests, MakesLock, after_init, destroy_tests, after_destroy};
ghost use Rattle.gomp_team_book.specs.Others.{LeavesOthers};

use crate::locked_book::{HoldLedger, LockedBook};
use gomp_types::Reply;
use std::sync::ledger::Ledger;

impl<H: HoldLedger, F: Ledger> LockedBook<H, F> {
    /// Makes a simple lock, which is not set, and answers its number. Nothing is held or freed.
    ///
    /// Refused as [`LockBook::lock_init`](gomp_locks::LockBook::lock_init) is.
    pub fn lock_init(&mut self) -> Reply
        ensures answer { AnswersOrLacks (init_tests (length self.old.locks))
            (MakesLock (length self.old.locks)) result }
        ensures book { self.new ≡ after_init Simple result self.old }
        ensures others { (owner : Owner) → LeavesOthers owner self.old self.new }
    {
        self.book.lock_init()
    }

    /// Makes a nestable lock, which is not set, and answers its number. Nothing is held or freed.
    ///
    /// Refused as [`LockBook::nest_init`](gomp_locks::LockBook::nest_init) is.
    pub fn nest_init(&mut self) -> Reply
        ensures answer { AnswersOrLacks (init_tests (length self.old.locks))
            (MakesLock (length self.old.locks)) result }
        ensures book { self.new ≡ after_init Nest result self.old }
        ensures others { (owner : Owner) → LeavesOthers owner self.old self.new }
    {
        self.book.nest_init()
    }

    /// Destroys a lock of either kind, which nobody holds; its number is not used again. Nothing is held
    /// or freed.
    ///
    /// Refused as [`LockBook::lock_destroy`](gomp_locks::LockBook::lock_destroy) is.
    pub fn lock_destroy(&mut self, number: u32) -> Reply
        ensures answer { Answers (destroy_tests (any_lock_at number self.old))
            (λ reply. reply ≡ Finished) result }
        ensures book { self.new ≡ after_destroy number result self.old }
        ensures others { (owner : Owner) → LeavesOthers owner self.old self.new }
    {
        self.book.lock_destroy(number)
    }
}

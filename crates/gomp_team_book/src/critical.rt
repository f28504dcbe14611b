//! Critical names under the lock. OpenMP API 5.2, section 15.2.

ghost use Rattle.std.specs.Prelude.{◌≡◌, None};
ghost use Rattle.gomp_types.specs.Least.{Answers};
ghost use Rattle.gomp_types.specs.declared.reply.Reply.TheVariants.{Finished, Refused};
ghost use Rattle.gomp_types.specs.declared.refusal.Refusal.TheVariants.{NoMemory};
ghost use Rattle.gomp_locks.specs.Book.{AnswersOrLacks, name_at, name_owner};
ghost use Rattle.gomp_locks.specs.BookCalls.{holds_gained, holds_lost, start_critical, end_critical};
ghost use Rattle.gomp_locks.specs.CriticalNames.{critical_start_tests, EntersCritical, after_critical_start, critical_end_tests, after_critical_end};
ghost use Rattle.gomp_team_book.specs.Others.{LeavesOthers};
ghost use Rattle.gomp_team_book.specs.Parts.{counted_more};

use crate::locked_book::{HoldLedger, LockedBook};
use crate::part::BookPart;
use crate::replies::one_if_finished;
use gomp_types::{CriticalName, Owner, Reply};
use std::sync::ledger::Ledger;

impl<H: HoldLedger, F: Ledger> LockedBook<H, F> {
    /// Enters the `critical` construct of this name if nobody holds the name; if another member does,
    /// the answer is to wait. The part moves by the hold if the name is entered.
    ///
    /// Refused as [`LockBook::critical_start`](gomp_locks::LockBook::critical_start) is.
    pub fn critical_start(
        &mut self,
        part: &mut BookPart<H>,
        owner: Owner,
        name: &CriticalName,
    ) -> Reply
        ensures answer { AnswersOrLacks
            (critical_start_tests owner name.now (name_owner name.now self.old))
            (EntersCritical (name_owner name.now self.old)) result }
        ensures memory { result ≡ Refused NoMemory → name_at name.now self.old ≡ None }
        ensures book { self.new ≡ after_critical_start owner name.now result self.old }
        ensures others { LeavesOthers owner self.old self.new }
        ensures moved { part.new ≡
            counted_more (holds_gained (start_critical name.now) result) part.old }
    {
        let LockedBook { book, held, .. } = self;
        let reply = book.critical_start(owner, name);
        part.count(held, one_if_finished(&reply));
        reply
    }

    /// Leaves the `critical` construct of this name, which this task holds. The part moves by the hold
    /// that ends.
    ///
    /// Refused as [`LockBook::critical_end`](gomp_locks::LockBook::critical_end) is.
    pub fn critical_end(
        &mut self,
        part: &mut BookPart<F>,
        owner: Owner,
        name: &CriticalName,
    ) -> Reply
        ensures answer { Answers (critical_end_tests owner name.now (name_owner name.now self.old))
            (λ reply. reply ≡ Finished) result }
        ensures book { self.new ≡ after_critical_end name.now result self.old }
        ensures others { LeavesOthers owner self.old self.new }
        ensures moved { part.new ≡
            counted_more (holds_lost (end_critical name.now) result) part.old }
    {
        let LockedBook { book, freed, .. } = self;
        let reply = book.critical_end(owner, name);
        part.count(freed, one_if_finished(&reply));
        reply
    }
}

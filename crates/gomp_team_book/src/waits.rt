//! Calls that waited and go on. Who holds what decides again; that the owner may make the call was
//! tested when it was made.

ghost use Rattle.std.specs.Prelude.{◌≡◌, [], None};
ghost use Rattle.gomp_types.specs.Least.{Answers};
ghost use Rattle.gomp_types.specs.declared.lock.LockKind.TheVariants.{Simple, Nest};
ghost use Rattle.gomp_types.specs.declared.reply.Reply.TheVariants.{Refused};
ghost use Rattle.gomp_types.specs.declared.refusal.Refusal.TheVariants.{NoMemory};
ghost use Rattle.gomp_locks.specs.Book.{AnswersOrLacks, name_at, name_owner, lock_at};
ghost use Rattle.gomp_locks.specs.BookCalls.{holds_gained, await_critical, await_lock, await_nest_lock};
ghost use Rattle.gomp_locks.specs.CriticalNames.{EntersCritical, after_critical_start};
ghost use Rattle.gomp_locks.specs.Locks.{gone_tests, SetsLock, after_set, WaitsNest, after_set_nest};
ghost use Rattle.gomp_team_book.specs.Others.{LeavesOthers};
ghost use Rattle.gomp_team_book.specs.Parts.{counted_more};

use crate::locked_book::{HoldLedger, LockedBook};
use crate::part::BookPart;
use crate::replies::{one_if_counted, one_if_finished};
use gomp_locks::LockBook;
use gomp_types::{CriticalName, LockKind, Owner, Reply};
use std::sync::ledger::Ledger;

impl<H: HoldLedger, F: Ledger> LockedBook<H, F> {
    /// Goes on with a task that waits to enter the `critical` construct of this name: it enters if nobody
    /// holds the name, else it waits on. The part moves by the hold if the name is entered.
    ///
    /// The only refusal is `NoMemory` (E37), of a name that was never started.
    pub fn await_critical(
        &mut self,
        part: &mut BookPart<H>,
        owner: Owner,
        name: &CriticalName,
    ) -> Reply
        ensures answer { AnswersOrLacks [] (EntersCritical (name_owner name.now self.old)) result }
        ensures memory { result ≡ Refused NoMemory → name_at name.now self.old ≡ None }
        ensures book { self.new ≡ after_critical_start owner name.now result self.old }
        ensures others { LeavesOthers owner self.old self.new }
        ensures moved { part.new ≡
            counted_more (holds_gained (await_critical name.now) result) part.old }
    {
        let LockedBook { book, held, .. } = self;
        let reply = book.critical_start_admitted(owner, name);
        part.count(held, one_if_finished(&reply));
        reply
    }

    /// Goes on with a task that waits to set a simple lock: it sets the lock if nobody holds it, else it
    /// waits on. The part moves by the hold if the lock is set.
    ///
    /// Refused with `NoLock` (E32) if there is no simple lock of this number any more.
    pub fn await_lock(&mut self, part: &mut BookPart<H>, owner: Owner, number: u32) -> Reply
        ensures answer { Answers (gone_tests (lock_at Simple number self.old))
            (SetsLock (lock_at Simple number self.old)) result }
        ensures book { self.new ≡ after_set owner number result self.old }
        ensures others { LeavesOthers owner self.old self.new }
        ensures moved { part.new ≡
            counted_more (holds_gained (await_lock number) result) part.old }
    {
        let LockedBook { book, held, .. } = self;
        let reply = set_if_there(book, owner, number);
        part.count(held, one_if_finished(&reply));
        reply
    }

    /// Goes on with a task that waits to set a nestable lock: it sets the lock if no other task holds it,
    /// and the answer is how often; else it waits on. The part moves by the hold if the lock is set.
    ///
    /// Refused with `NoLock` (E32) if there is no nestable lock of this number any more.
    pub fn await_nest(&mut self, part: &mut BookPart<H>, owner: Owner, number: u32) -> Reply
        ensures answer { Answers (gone_tests (lock_at Nest number self.old))
            (WaitsNest owner (lock_at Nest number self.old)) result }
        ensures book { self.new ≡ after_set_nest owner number result self.old }
        ensures others { LeavesOthers owner self.old self.new }
        ensures moved { part.new ≡
            counted_more (holds_gained (await_nest_lock number) result) part.old }
    {
        let LockedBook { book, held, .. } = self;
        let reply = nest_if_there(book, owner, number);
        part.count(held, one_if_counted(&reply));
        reply
    }
}

/// Sets the simple lock of this number if nobody holds it, and tells if it is gone.
fn set_if_there(book: &mut LockBook, owner: Owner, number: u32) -> Reply
    ensures answer { Answers (gone_tests (lock_at Simple number book.old))
        (SetsLock (lock_at Simple number book.old)) result }
    ensures book { book.new ≡ after_set owner number result book.old }
{
    match book.gone_refusal(LockKind::Simple, number) {
        Some(refusal) => Reply::Refused(refusal),
        None => book.set_admitted(owner, number),
    }
}

/// Sets the nestable lock of this number if no other task holds it, and tells if it is gone.
fn nest_if_there(book: &mut LockBook, owner: Owner, number: u32) -> Reply
    ensures answer { Answers (gone_tests (lock_at Nest number book.old))
        (WaitsNest owner (lock_at Nest number book.old)) result }
    ensures book { book.new ≡ after_set_nest owner number result book.old }
{
    match book.gone_refusal(LockKind::Nest, number) {
        Some(refusal) => Reply::Refused(refusal),
        None => book.wait_nest(owner, number),
    }
}

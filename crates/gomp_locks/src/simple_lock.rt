//! Simple locks: set, tested and unset by tasks.
//!
//! OpenMP API 5.2, sections 18.9.4 to 18.9.6; libgomp's `omp_set_lock`, `omp_test_lock` and
//! `omp_unset_lock`.

ghost use Rattle.std.specs.Prelude.{◌≡◌, IsSome};
ghost use Rattle.gomp_types.specs.Least.{Answers, least};
ghost use Rattle.gomp_types.specs.declared.lock.LockKind.TheVariants.{Simple};
ghost use Rattle.gomp_types.specs.declared.reply.Reply.TheVariants.{Finished};
ghost use Rattle.gomp_locks.specs.Book.{lock_at};
ghost use Rattle.gomp_locks.specs.Locks.{set_tests, SetsLock, after_set, test_tests, TestsLock, after_test, unset_tests, after_unset};

use crate::book::LockBook;
use gomp_types::{Held, LockKind, Owner, Refusal, Reply};

impl LockBook {
    /// Sets a simple lock that nobody holds; if another task holds it, the answer is to wait.
    ///
    /// Refused with `AlreadyHeld` (E30) if this task holds it, and with `NoLock` (E32) if there is
    /// no simple lock of this number.
    pub fn set(&mut self, owner: Owner, number: u32) -> Reply
        ensures answer { Answers (set_tests owner (lock_at Simple number self.old))
            (SetsLock (lock_at Simple number self.old)) result }
        ensures book { self.new ≡ after_set owner number result self.old }
    {
        if let Some(refusal) = self.set_refusal(owner, number) {
            return Reply::Refused(refusal);
        }
        self.set_admitted(owner, number)
    }

    /// Sets a simple lock if nobody holds it, and tells whether it did.
    ///
    /// Refused with `NoLock` (E32) if there is no simple lock of this number.
    pub fn test(&mut self, owner: Owner, number: u32) -> Reply
        ensures answer { Answers (test_tests (lock_at Simple number self.old))
            (TestsLock (lock_at Simple number self.old)) result }
        ensures book { self.new ≡ after_test owner number result self.old }
    {
        if let Some(refusal) = self.test_refusal(number) {
            return Reply::Refused(refusal);
        }
        self.test_admitted(owner, number)
    }

    /// Unsets a simple lock that this task holds.
    ///
    /// Refused with `NotHolder` (E31) if this task does not hold it, and with `NoLock` (E32) if
    /// there is no simple lock of this number.
    pub fn unset(&mut self, owner: Owner, number: u32) -> Reply
        ensures answer { Answers (unset_tests owner (lock_at Simple number self.old))
            (λ reply. reply ≡ Finished) result }
        ensures book { self.new ≡ after_unset number result self.old }
    {
        if let Some(refusal) = self.unset_refusal(owner, LockKind::Simple, number) {
            return Reply::Refused(refusal);
        }
        self.unset_admitted(number)
    }

    /// With what [`set`](LockBook::set) is refused.
    pub fn set_refusal(&self, owner: Owner, number: u32) -> Option<Refusal>
        ensures { result ≡ least (set_tests owner (lock_at Simple number self.now)) }
    {
        match self.lock_at(LockKind::Simple, number) {
            None => Some(Refusal::NoLock),
            Some(Some(held)) if held.owner.is_same(&owner) => Some(Refusal::AlreadyHeld),
            Some(_) => None,
        }
    }

    /// With what [`test`](LockBook::test) is refused.
    pub fn test_refusal(&self, number: u32) -> Option<Refusal>
        ensures { result ≡ least (test_tests (lock_at Simple number self.now)) }
    {
        self.gone_refusal(LockKind::Simple, number)
    }

    /// With what [`unset`](LockBook::unset) is refused, and of a nestable lock
    /// [`unset_nest`](LockBook::unset_nest).
    pub fn unset_refusal(&self, owner: Owner, kind: LockKind, number: u32) -> Option<Refusal>
        ensures { result ≡ least (unset_tests owner (lock_at kind number self.now)) }
    {
        match self.lock_at(kind, number) {
            None => Some(Refusal::NoLock),
            Some(Some(held)) if held.owner.is_same(&owner) => None,
            Some(_) => Some(Refusal::NotHolder),
        }
    }

    /// What [`set`](LockBook::set) does once its tests are made: the simple lock, which has to be
    /// there, is set if nobody holds it; else the answer is to wait.
    pub fn set_admitted(&mut self, owner: Owner, number: u32) -> Reply
        requires there { IsSome (lock_at Simple number self.old) }
        ensures answer { SetsLock (lock_at Simple number self.old) result }
        ensures book { self.new ≡ after_set owner number result self.old }
    {
        match self.lock_at(LockKind::Simple, number) {
            None => unreachable!(),
            Some(Some(_)) => Reply::Wait,
            Some(None) => {
                self.hold_lock(LockKind::Simple, number, Some(Held { owner, count: 1 }));
                Reply::Finished
            }
        }
    }

    /// What [`test`](LockBook::test) does once its test is made: the simple lock, which has to be
    /// there, is set if nobody holds it, and the answer tells whether it was.
    pub fn test_admitted(&mut self, owner: Owner, number: u32) -> Reply
        requires there { IsSome (lock_at Simple number self.old) }
        ensures answer { TestsLock (lock_at Simple number self.old) result }
        ensures book { self.new ≡ after_test owner number result self.old }
    {
        match self.lock_at(LockKind::Simple, number) {
            None => unreachable!(),
            Some(Some(_)) => Reply::Got(false),
            Some(None) => {
                self.hold_lock(LockKind::Simple, number, Some(Held { owner, count: 1 }));
                Reply::Got(true)
            }
        }
    }

    /// What [`unset`](LockBook::unset) does once its tests are made: nobody holds the simple lock,
    /// which has to be there, from now on.
    pub fn unset_admitted(&mut self, number: u32) -> Reply
        requires there { IsSome (lock_at Simple number self.old) }
        ensures answer { result ≡ Finished }
        ensures book { self.new ≡ after_unset number result self.old }
    {
        self.hold_lock(LockKind::Simple, number, None);
        Reply::Finished
    }
}

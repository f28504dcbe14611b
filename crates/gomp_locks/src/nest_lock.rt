//! Nestable locks: a task that holds one may set it again, and unsets it as often.
//!
//! OpenMP API 5.2, sections 18.9.4 to 18.9.6; libgomp's `omp_set_nest_lock`, `omp_test_nest_lock`
//! and `omp_unset_nest_lock`.

ghost use Rattle.std.specs.Prelude.{◌≡◌, ◌<◌, true, IsSome};
ghost use Rattle.std.specs.Option.{option_flatten};
ghost use Rattle.gomp_types.specs.declared.lock.TheConstants.{MAX_COUNT};
ghost use Rattle.gomp_types.specs.Least.{Answers, least};
ghost use Rattle.gomp_types.specs.declared.lock.LockKind.TheVariants.{Nest};
ghost use Rattle.gomp_locks.specs.Book.{lock_at, held_by};
ghost use Rattle.gomp_locks.specs.Locks.{nest_tests, times_held, SetsNest, WaitsNest, after_set_nest, TestsNest, after_test_nest, unset_tests, UnsetsNest, after_unset_nest};

use crate::book::LockBook;
use gomp_types::{Held, LockKind, MAX_COUNT, Owner, Refusal, Reply};

impl LockBook {
    /// Sets a nestable lock that no other task holds once more, and answers how often this task has
    /// set it now; if another task holds it, the answer is to wait.
    ///
    /// Refused with `NoLock` (E32) if there is no nestable lock of this number, and with
    /// `CountTooLarge` (E33) if this task has set it 65,535 times.
    pub fn set_nest(&mut self, owner: Owner, number: u32) -> Reply
        ensures answer { Answers (nest_tests owner (lock_at Nest number self.old))
            (SetsNest owner (lock_at Nest number self.old)) result }
        ensures book { self.new ≡ after_set_nest owner number result self.old }
    {
        if let Some(refusal) = self.set_nest_refusal(owner, number) {
            return Reply::Refused(refusal);
        }
        self.set_nest_admitted(owner, number)
    }

    /// Sets a nestable lock once more if no other task holds it, and answers how often this task has
    /// set it now; 0 if another task holds it.
    ///
    /// Refused as [`set_nest`](LockBook::set_nest) is.
    pub fn test_nest(&mut self, owner: Owner, number: u32) -> Reply
        ensures answer { Answers (nest_tests owner (lock_at Nest number self.old))
            (TestsNest owner (lock_at Nest number self.old)) result }
        ensures book { self.new ≡ after_test_nest owner number result self.old }
    {
        if let Some(refusal) = self.set_nest_refusal(owner, number) {
            return Reply::Refused(refusal);
        }
        self.test_nest_admitted(owner, number)
    }

    /// Unsets a nestable lock that this task holds once, and answers how often it is set still.
    ///
    /// Refused with `NotHolder` (E31) if this task does not hold it, and with `NoLock` (E32) if
    /// there is no nestable lock of this number.
    pub fn unset_nest(&mut self, owner: Owner, number: u32) -> Reply
        ensures answer { Answers (unset_tests owner (lock_at Nest number self.old))
            (UnsetsNest owner (lock_at Nest number self.old)) result }
        ensures book { self.new ≡ after_unset_nest owner number result self.old }
    {
        if let Some(refusal) = self.unset_refusal(owner, LockKind::Nest, number) {
            return Reply::Refused(refusal);
        }
        self.unset_nest_admitted(owner, number)
    }

    /// With what [`set_nest`](LockBook::set_nest) and [`test_nest`](LockBook::test_nest) are refused.
    pub fn set_nest_refusal(&self, owner: Owner, number: u32) -> Option<Refusal>
        ensures { result ≡ least (nest_tests owner (lock_at Nest number self.now)) }
    {
        match self.lock_at(LockKind::Nest, number) {
            None => Some(Refusal::NoLock),
            Some(Some(held)) if held.count >= MAX_COUNT && held.owner.is_same(&owner) => {
                Some(Refusal::CountTooLarge)
            }
            Some(_) => None,
        }
    }

    /// What [`set_nest`](LockBook::set_nest) does once its tests are made: the nestable lock, which
    /// has to be there, is set once more if no other task holds it, and the answer is how often this
    /// task has set it now; else the answer is to wait. So this task has set it less than 65,535 times.
    pub fn set_nest_admitted(&mut self, owner: Owner, number: u32) -> Reply
        requires there { IsSome (lock_at Nest number self.old) }
        requires room { times_held owner (option_flatten (lock_at Nest number self.old)) <
            MAX_COUNT }
        ensures answer { SetsNest owner (lock_at Nest number self.old) result }
        ensures book { self.new ≡ after_set_nest owner number result self.old }
    {
        match self.lock_at(LockKind::Nest, number) {
            None => unreachable!(),
            Some(Some(held)) if !held.owner.is_same(&owner) => Reply::Wait,
            Some(Some(held)) => self.count_nest(owner, number, held.count + 1),
            Some(None) => self.count_nest(owner, number, 1),
        }
    }

    /// Goes on with a task that waits to set a nestable lock, which has to be there still (see
    /// [`gone_refusal`](LockBook::gone_refusal)): if nobody holds the lock, the task sets it, and the
    /// answer is 1; if another task holds it, the answer is to wait on. OpenMP API 5.2, section 18.9.4.
    ///
    /// A task that waits for a lock does not hold it. If it did, it would set it once more, up to
    /// 65,535 times, and then wait on: no count refuses it here.
    pub fn wait_nest(&mut self, owner: Owner, number: u32) -> Reply
        requires there { IsSome (lock_at Nest number self.old) }
        ensures answer { WaitsNest owner (lock_at Nest number self.old) result }
        ensures book { self.new ≡ after_set_nest owner number result self.old }
    {
        match self.set_nest_refusal(owner, number) {
            Some(_) => Reply::Wait,
            None => self.set_nest_admitted(owner, number),
        }
    }

    /// What [`test_nest`](LockBook::test_nest) does once its tests are made: as
    /// [`set_nest_admitted`](LockBook::set_nest_admitted), but the answer is 0 if another task holds the lock.
    pub fn test_nest_admitted(&mut self, owner: Owner, number: u32) -> Reply
        requires there { IsSome (lock_at Nest number self.old) }
        requires room { times_held owner (option_flatten (lock_at Nest number self.old)) <
            MAX_COUNT }
        ensures answer { TestsNest owner (lock_at Nest number self.old) result }
        ensures book { self.new ≡ after_test_nest owner number result self.old }
    {
        match self.set_nest_admitted(owner, number) {
            Reply::Wait => Reply::Count(0),
            reply => reply,
        }
    }

    /// What [`unset_nest`](LockBook::unset_nest) does once its tests are made: the nestable lock,
    /// which this task has to hold, is unset once, and the answer is how often it is set still.
    pub fn unset_nest_admitted(&mut self, owner: Owner, number: u32) -> Reply
        requires held { held_by owner (option_flatten (lock_at Nest number self.old)) ≡ true }
        ensures answer { UnsetsNest owner (lock_at Nest number self.old) result }
        ensures book { self.new ≡ after_unset_nest owner number result self.old }
    {
        match self.lock_at(LockKind::Nest, number) {
            Some(Some(held)) => self.count_nest(owner, number, held.count - 1),
            _ => unreachable!(),
        }
    }

    /// This task has set the nestable lock so often from now on; nobody holds it if that is 0.
    fn count_nest(&mut self, owner: Owner, number: u32, count: u32) -> Reply
        ensures answer { result ≡ Reply.Count count }
        ensures book { self.new ≡ after_set_nest owner number result self.old }
    {
        let held = if count == 0 {
            None
        } else {
            Some(Held { owner, count })
        };
        self.hold_lock(LockKind::Nest, number, held);
        Reply::Count(count)
    }
}

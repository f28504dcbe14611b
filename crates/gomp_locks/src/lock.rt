//! Making locks, and destroying them.
//!
//! OpenMP API 5.2, sections 18.9.1 and 18.9.3; libgomp's `omp_init_lock`, `omp_init_nest_lock`,
//! `omp_destroy_lock` and `omp_destroy_nest_lock`.

ghost use Rattle.std.specs.Prelude.{◌≡◌, ◌<◌, [], IfSome, slice_set, length};
ghost use Rattle.gomp_types.specs.declared.lock.TheConstants.{MAX_LOCKS};
ghost use Rattle.gomp_types.specs.Least.{Answers, least};
ghost use Rattle.gomp_types.specs.declared.lock.LockKind.TheVariants.{Simple, Nest};
ghost use Rattle.gomp_types.specs.declared.reply.Reply.TheVariants.{Finished};
ghost use Rattle.gomp_locks.specs.Book.{AnswersOrLacks, any_lock_at, lock_at, with_lock};
ghost use Rattle.gomp_locks.specs.Counts.{IsHeldOnce};
ghost use Rattle.gomp_locks.specs.Locks.{init_tests, MakesLock, after_init, destroy_tests, after_destroy, gone_tests};

use crate::book::LockBook;
use gomp_types::{Held, LockKind, MAX_LOCKS, Refusal, Reply};

/// A lock that was made.
#[derive(Clone, Copy, Debug, PartialEq, Eq)]
pub struct Lock {
    /// Its kind.
    pub kind: LockKind,
    /// By whom it is held and how often, if it is set.
    pub held: Option<Held>,
}

impl LockBook {
    /// Makes a simple lock, which is not set, and answers its number.
    ///
    /// Refused with `CountTooLarge` (E33) if 2^32 - 1 locks were made, and with `NoMemory` (E37) if
    /// its memory is refused.
    pub fn lock_init(&mut self) -> Reply
        ensures answer { AnswersOrLacks (init_tests (length self.old.locks))
            (MakesLock (length self.old.locks)) result }
        ensures book { self.new ≡ after_init Simple result self.old }
    {
        if let Some(refusal) = self.lock_init_refusal() {
            return Reply::Refused(refusal);
        }
        self.lock_init_admitted(LockKind::Simple)
    }

    /// Makes a nestable lock, which is not set, and answers its number; refused as
    /// [`lock_init`](LockBook::lock_init) is.
    pub fn nest_init(&mut self) -> Reply
        ensures answer { AnswersOrLacks (init_tests (length self.old.locks))
            (MakesLock (length self.old.locks)) result }
        ensures book { self.new ≡ after_init Nest result self.old }
    {
        if let Some(refusal) = self.lock_init_refusal() {
            return Reply::Refused(refusal);
        }
        self.lock_init_admitted(LockKind::Nest)
    }

    /// Destroys a lock of either kind; its number is not used again.
    ///
    /// Refused with `AlreadyHeld` (E30) if anybody holds it, and with `NoLock` (E32) if there is no
    /// lock of this number.
    pub fn lock_destroy(&mut self, number: u32) -> Reply
        ensures answer { Answers (destroy_tests (any_lock_at number self.old))
            (λ reply. reply ≡ Finished) result }
        ensures book { self.new ≡ after_destroy number result self.old }
    {
        if let Some(refusal) = self.lock_destroy_refusal(number) {
            return Reply::Refused(refusal);
        }
        self.lock_destroy_admitted(number)
    }

    /// With what [`lock_init`](LockBook::lock_init) and [`nest_init`](LockBook::nest_init) are
    /// refused, want of memory aside.
    pub fn lock_init_refusal(&self) -> Option<Refusal>
        ensures { result ≡ least (init_tests (length self.now.locks)) }
    {
        if self.locks.len() >= MAX_LOCKS as usize {
            return Some(Refusal::CountTooLarge);
        }
        None
    }

    /// With what [`lock_destroy`](LockBook::lock_destroy) is refused.
    pub fn lock_destroy_refusal(&self, number: u32) -> Option<Refusal>
        ensures { result ≡ least (destroy_tests (any_lock_at number self.now)) }
    {
        match self.any_lock_at(number) {
            None => Some(Refusal::NoLock),
            Some(Some(_)) => Some(Refusal::AlreadyHeld),
            Some(None) => None,
        }
    }

    /// With what a call that waits for the lock of this number and kind is refused: with `NoLock`
    /// (E32) if there is no such lock any more.
    pub fn gone_refusal(&self, kind: LockKind, number: u32) -> Option<Refusal>
        ensures { result ≡ least (gone_tests (lock_at kind number self.now)) }
    {
        match self.lock_at(kind, number) {
            None => Some(Refusal::NoLock),
            Some(_) => None,
        }
    }

    /// What [`lock_init`](LockBook::lock_init) and [`nest_init`](LockBook::nest_init) do once their
    /// test is made: a lock of this kind is made, which is not set, and the answer is its number. So
    /// fewer than 2^32 - 1 locks were made; the only refusal is `NoMemory` (E37).
    pub fn lock_init_admitted(&mut self, kind: LockKind) -> Reply
        requires room { length self.old.locks < MAX_LOCKS }
        ensures answer { AnswersOrLacks [] (MakesLock (length self.old.locks)) result }
        ensures book { self.new ≡ after_init kind result self.old }
    {
        let number = self.locks.len();
        match self.locks.push(Some(Lock { kind, held: None })) {
            Ok(()) => Reply::Lock(number as u32),
            Err(_) => Reply::Refused(Refusal::NoMemory),
        }
    }

    /// What [`lock_destroy`](LockBook::lock_destroy) does once its tests are made: the lock of this
    /// number is no more, and the number is not used again.
    pub fn lock_destroy_admitted(&mut self, number: u32) -> Reply
        ensures answer { result ≡ Finished }
        ensures book { self.new ≡ after_destroy number result self.old }
    {
        self.put_lock(number, None);
        Reply::Finished
    }

    /// How the lock of this number is held, whatever its kind; None if there is no such lock.
    pub fn any_lock_at(&self, number: u32) -> Option<Option<Held>>
        ensures { result ≡ any_lock_at number self.now }
    {
        match self.locks.get(number as usize) {
            Some(Some(lock)) => Some(lock.held),
            _ => None,
        }
    }

    /// How the lock of this number and kind is held; None if there is no such lock.
    pub fn lock_at(&self, kind: LockKind, number: u32) -> Option<Option<Held>>
        ensures lock { result ≡ lock_at kind number self.now }
        ensures once { IfSome result IsHeldOnce }
    {
        match self.locks.get(number as usize) {
            Some(Some(lock)) if lock.kind == kind => Some(lock.held),
            _ => None,
        }
    }

    /// The lock of this number and kind is held so from now on.
    pub(crate) fn hold_lock(&mut self, kind: LockKind, number: u32, held: Option<Held>)
        requires once { IsHeldOnce held }
        ensures { self.new ≡ with_lock kind number held self.old }
    {
        self.put_lock(number, Some(Lock { kind, held }));
    }

    /// There is this lock in the place of that number from now on, or none.
    fn put_lock(&mut self, number: u32, lock: Option<Lock>)
        requires once { IfSome lock (λ one. IsHeldOnce one.held) }
        ensures { self.new ≡
            record self.old { locks = slice_set self.old.locks number lock } }
    {
        if let Some(place) = self.locks.get_mut(number as usize) {
            *place = lock;
        }
    }
}

//! The calls of a lock book that make their own tests: which reply comes, want of memory, and the book after it.
//!
//! A team tests before it asks (`gomp_book_calls`), so it calls none of these.

ghost use Rattle.gomp_locks.specs.Book.{AnswersOrLacks, any_lock_at, lock_at, name_at, name_owner};
ghost use Rattle.gomp_locks.specs.CriticalNames.{EntersCritical, after_critical_end, after_critical_start, critical_end_tests, critical_start_tests};
ghost use Rattle.gomp_locks.specs.Locks.{MakesLock, SetsLock, SetsNest, TestsLock, TestsNest, UnsetsNest, WaitsNest, after_destroy, after_init, after_set, after_set_nest, after_test, after_test_nest, after_unset, after_unset_nest, destroy_tests, init_tests, nest_tests, set_tests, test_tests, unset_tests};
ghost use Rattle.gomp_types.specs.Least.{Answers};
ghost use Rattle.gomp_types.specs.declared.lock.LockKind.TheVariants.{Nest, Simple};
ghost use Rattle.gomp_types.specs.declared.refusal.Refusal.TheVariants.{NoMemory};
ghost use Rattle.gomp_types.specs.declared.reply.Reply.TheVariants.{Finished, Refused};
ghost use Rattle.gomp_types.specs.declared.task.Owner.{Owner};
ghost use Rattle.std.specs.Prelude.{IsSome, None, length, ◌≡◌};

use gomp_locks::LockBook;
use gomp_types::{CriticalName, Owner, Reply};

/// Starts a critical construct.
pub fn critical_start(book: &mut LockBook, owner: Owner, name: &CriticalName) -> Reply
    ensures answer { AnswersOrLacks
        (critical_start_tests owner name.now (name_owner name.now book.old))
        (EntersCritical (name_owner name.now book.old)) result }
    ensures memory { result ≡ Refused NoMemory → name_at name.now book.old ≡ None }
    ensures book { book.new ≡ after_critical_start owner name.now result book.old }
{
    book.critical_start(owner, name)
}

/// Ends it.
pub fn critical_end(book: &mut LockBook, owner: Owner, name: &CriticalName) -> Reply
    ensures answer { Answers (critical_end_tests owner name.now (name_owner name.now book.old))
        (λ reply. reply ≡ Finished) result }
    ensures book { book.new ≡ after_critical_end name.now result book.old }
{
    book.critical_end(owner, name)
}

/// Makes a simple lock.
pub fn lock_init(book: &mut LockBook) -> Reply
    ensures answer { AnswersOrLacks (init_tests (length book.old.locks))
        (MakesLock (length book.old.locks)) result }
    ensures book { book.new ≡ after_init Simple result book.old }
{
    book.lock_init()
}

/// Makes a nestable lock.
pub fn nest_init(book: &mut LockBook) -> Reply
    ensures answer { AnswersOrLacks (init_tests (length book.old.locks))
        (MakesLock (length book.old.locks)) result }
    ensures book { book.new ≡ after_init Nest result book.old }
{
    book.nest_init()
}

/// Destroys a lock.
pub fn lock_destroy(book: &mut LockBook, number: u32) -> Reply
    ensures answer { Answers (destroy_tests (any_lock_at number book.old))
        (λ reply. reply ≡ Finished) result }
    ensures book { book.new ≡ after_destroy number result book.old }
{
    book.lock_destroy(number)
}

/// Sets a simple lock.
pub fn set(book: &mut LockBook, owner: Owner, number: u32) -> Reply
    ensures answer { Answers (set_tests owner (lock_at Simple number book.old))
        (SetsLock (lock_at Simple number book.old)) result }
    ensures book { book.new ≡ after_set owner number result book.old }
{
    book.set(owner, number)
}

/// Sets it if it is free.
pub fn test(book: &mut LockBook, owner: Owner, number: u32) -> Reply
    ensures answer { Answers (test_tests (lock_at Simple number book.old))
        (TestsLock (lock_at Simple number book.old)) result }
    ensures book { book.new ≡ after_test owner number result book.old }
{
    book.test(owner, number)
}

/// Unsets it.
pub fn unset(book: &mut LockBook, owner: Owner, number: u32) -> Reply
    ensures answer { Answers (unset_tests owner (lock_at Simple number book.old))
        (λ reply. reply ≡ Finished) result }
    ensures book { book.new ≡ after_unset number result book.old }
{
    book.unset(owner, number)
}

/// Sets a nestable lock.
pub fn set_nest(book: &mut LockBook, owner: Owner, number: u32) -> Reply
    ensures answer { Answers (nest_tests owner (lock_at Nest number book.old))
        (SetsNest owner (lock_at Nest number book.old)) result }
    ensures book { book.new ≡ after_set_nest owner number result book.old }
{
    book.set_nest(owner, number)
}

/// Goes on with a task that waits to set it.
pub fn wait_nest(book: &mut LockBook, owner: Owner, number: u32) -> Reply
    requires there { IsSome (lock_at Nest number book.old) }
    ensures answer { WaitsNest owner (lock_at Nest number book.old) result }
    ensures book { book.new ≡ after_set_nest owner number result book.old }
{
    book.wait_nest(owner, number)
}

/// Sets it if no other owner holds it.
pub fn test_nest(book: &mut LockBook, owner: Owner, number: u32) -> Reply
    ensures answer { Answers (nest_tests owner (lock_at Nest number book.old))
        (TestsNest owner (lock_at Nest number book.old)) result }
    ensures book { book.new ≡ after_test_nest owner number result book.old }
{
    book.test_nest(owner, number)
}

/// Unsets it once.
pub fn unset_nest(book: &mut LockBook, owner: Owner, number: u32) -> Reply
    ensures answer { Answers (unset_tests owner (lock_at Nest number book.old))
        (UnsetsNest owner (lock_at Nest number book.old)) result }
    ensures book { book.new ≡ after_unset_nest owner number result book.old }
{
    book.unset_nest(owner, number)
}

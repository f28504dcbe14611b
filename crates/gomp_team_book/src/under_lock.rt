//! Each call of the book, made under its lock: the lock is taken, the call is made, the lock is let go.
//!
//! Of the book nothing is known before the lock is taken, nor after it is let go. So each function says
//! that its reply is one for the book that it met there, and by how much the part moved.

ghost use Rattle.std.specs.Prelude.{◌≡◌};
ghost use Rattle.gomp_types.specs.declared.task.Owner.{Owner};
ghost use Rattle.gomp_types.specs.declared.lock.LockKind.TheVariants.{Simple, Nest};
ghost use Rattle.gomp_locks.specs.BookCalls.{holds_gained, holds_lost, make_lock, destroy_lock, start_critical, end_critical, set_lock, test_lock, unset_lock, set_nest_lock, test_nest_lock, unset_nest_lock, await_critical, await_lock, await_nest_lock};
ghost use Rattle.gomp_team_book.specs.Others.{IsAnswered};
ghost use Rattle.gomp_team_book.specs.Parts.{counted_more};

use crate::locked_book::{HoldLedger, LockedBook};
use crate::part::BookPart;
use gomp_types::{CriticalName, Owner, Reply};
use std::sync::ledger::Ledger;
use std::sync::{Mutex, Wait};

/// [`LockedBook::critical_start`], under the lock.
pub fn try_critical_start<H: HoldLedger, F: Ledger, R: Wait>(
    rt: &R,
    book: &Mutex<LockedBook<H, F>>,
    part: &mut BookPart<H>,
    owner: Owner,
    name: &CriticalName,
) -> Reply
    ensures answer { IsAnswered owner (start_critical name.now) result }
    ensures moved { part.new ≡
        counted_more (holds_gained (start_critical name.now) result) part.old }
{
    book.lock(rt).critical_start(part, owner, name)
}

/// [`LockedBook::critical_end`], under the lock.
pub fn try_critical_end<H: HoldLedger, F: Ledger, R: Wait>(
    rt: &R,
    book: &Mutex<LockedBook<H, F>>,
    part: &mut BookPart<F>,
    owner: Owner,
    name: &CriticalName,
) -> Reply
    ensures answer { IsAnswered owner (end_critical name.now) result }
    ensures moved { part.new ≡ counted_more (holds_lost (end_critical name.now) result) part.old }
{
    book.lock(rt).critical_end(part, owner, name)
}

/// [`LockedBook::set`], under the lock.
pub fn try_set<H: HoldLedger, F: Ledger, R: Wait>(
    rt: &R,
    book: &Mutex<LockedBook<H, F>>,
    part: &mut BookPart<H>,
    owner: Owner,
    number: u32,
) -> Reply
    ensures answer { IsAnswered owner (set_lock number) result }
    ensures moved { part.new ≡ counted_more (holds_gained (set_lock number) result) part.old }
{
    book.lock(rt).set(part, owner, number)
}

/// [`LockedBook::test`], under the lock.
pub fn try_test<H: HoldLedger, F: Ledger, R: Wait>(
    rt: &R,
    book: &Mutex<LockedBook<H, F>>,
    part: &mut BookPart<H>,
    owner: Owner,
    number: u32,
) -> Reply
    ensures answer { IsAnswered owner (test_lock number) result }
    ensures moved { part.new ≡ counted_more (holds_gained (test_lock number) result) part.old }
{
    book.lock(rt).test(part, owner, number)
}

/// [`LockedBook::unset`], under the lock.
pub fn try_unset<H: HoldLedger, F: Ledger, R: Wait>(
    rt: &R,
    book: &Mutex<LockedBook<H, F>>,
    part: &mut BookPart<F>,
    owner: Owner,
    number: u32,
) -> Reply
    ensures answer { IsAnswered owner (unset_lock number) result }
    ensures moved { part.new ≡ counted_more (holds_lost (unset_lock number) result) part.old }
{
    book.lock(rt).unset(part, owner, number)
}

/// [`LockedBook::set_nest`], under the lock.
pub fn try_set_nest<H: HoldLedger, F: Ledger, R: Wait>(
    rt: &R,
    book: &Mutex<LockedBook<H, F>>,
    part: &mut BookPart<H>,
    owner: Owner,
    number: u32,
) -> Reply
    ensures answer { IsAnswered owner (set_nest_lock number) result }
    ensures moved { part.new ≡ counted_more (holds_gained (set_nest_lock number) result) part.old }
{
    book.lock(rt).set_nest(part, owner, number)
}

/// [`LockedBook::test_nest`], under the lock.
pub fn try_test_nest<H: HoldLedger, F: Ledger, R: Wait>(
    rt: &R,
    book: &Mutex<LockedBook<H, F>>,
    part: &mut BookPart<H>,
    owner: Owner,
    number: u32,
) -> Reply
    ensures answer { IsAnswered owner (test_nest_lock number) result }
    ensures moved { part.new ≡ counted_more (holds_gained (test_nest_lock number) result) part.old }
{
    book.lock(rt).test_nest(part, owner, number)
}

/// [`LockedBook::unset_nest`], under the lock.
pub fn try_unset_nest<H: HoldLedger, F: Ledger, R: Wait>(
    rt: &R,
    book: &Mutex<LockedBook<H, F>>,
    part: &mut BookPart<F>,
    owner: Owner,
    number: u32,
) -> Reply
    ensures answer { IsAnswered owner (unset_nest_lock number) result }
    ensures moved { part.new ≡ counted_more (holds_lost (unset_nest_lock number) result) part.old }
{
    book.lock(rt).unset_nest(part, owner, number)
}

/// [`LockedBook::await_critical`], under the lock.
pub fn try_await_critical<H: HoldLedger, F: Ledger, R: Wait>(
    rt: &R,
    book: &Mutex<LockedBook<H, F>>,
    part: &mut BookPart<H>,
    owner: Owner,
    name: &CriticalName,
) -> Reply
    ensures answer { IsAnswered owner (await_critical name.now) result }
    ensures moved { part.new ≡
        counted_more (holds_gained (await_critical name.now) result) part.old }
{
    book.lock(rt).await_critical(part, owner, name)
}

/// [`LockedBook::await_lock`], under the lock.
pub fn try_await_lock<H: HoldLedger, F: Ledger, R: Wait>(
    rt: &R,
    book: &Mutex<LockedBook<H, F>>,
    part: &mut BookPart<H>,
    owner: Owner,
    number: u32,
) -> Reply
    ensures answer { IsAnswered owner (await_lock number) result }
    ensures moved { part.new ≡ counted_more (holds_gained (await_lock number) result) part.old }
{
    book.lock(rt).await_lock(part, owner, number)
}

/// [`LockedBook::await_nest`], under the lock.
pub fn try_await_nest<H: HoldLedger, F: Ledger, R: Wait>(
    rt: &R,
    book: &Mutex<LockedBook<H, F>>,
    part: &mut BookPart<H>,
    owner: Owner,
    number: u32,
) -> Reply
    ensures answer { IsAnswered owner (await_nest_lock number) result }
    ensures moved { part.new ≡
        counted_more (holds_gained (await_nest_lock number) result) part.old }
{
    book.lock(rt).await_nest(part, owner, number)
}

/// [`LockedBook::lock_init`], under the lock.
pub fn try_lock_init<H: HoldLedger, F: Ledger, R: Wait>(
    rt: &R,
    book: &Mutex<LockedBook<H, F>>,
) -> Reply
    ensures answer { (owner : Owner) → IsAnswered owner (make_lock Simple) result }
{
    book.lock(rt).lock_init()
}

/// [`LockedBook::nest_init`], under the lock.
pub fn try_nest_init<H: HoldLedger, F: Ledger, R: Wait>(
    rt: &R,
    book: &Mutex<LockedBook<H, F>>,
) -> Reply
    ensures answer { (owner : Owner) → IsAnswered owner (make_lock Nest) result }
{
    book.lock(rt).nest_init()
}

/// [`LockedBook::lock_destroy`], under the lock.
pub fn try_lock_destroy<H: HoldLedger, F: Ledger, R: Wait>(
    rt: &R,
    book: &Mutex<LockedBook<H, F>>,
    number: u32,
) -> Reply
    ensures answer { (owner : Owner) → IsAnswered owner (destroy_lock number) result }
{
    book.lock(rt).lock_destroy(number)
}

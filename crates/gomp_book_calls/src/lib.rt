//! The calls of a team's members on critical names and locks, answered by a lock book.
//!
//! [`book_refusal`] says why a call is refused by what names and locks decide; [`book_admitted`] answers a
//! call on names and locks that no test refuses. A book stands for the past of a team
//! (`BookStands` in specs/Stands.antt), so each answer is the one that the call's row has there.
//! The task that the member executes asks. In a team of its own every owner has team 0.
//! OpenMP API 5.2, sections 15.2 and 18.9.
#![tactic(auto)]

ghost use Rattle.std.specs.Prelude.{◌≡◌, ◌≢◌, ℕ, true, false, Some};
ghost use Rattle.gomp_types.specs.declared.call.Server.TheVariants.{Book};
ghost use Rattle.gomp_events.specs.Laws.{Always};
ghost use Rattle.gomp_types.specs.Least.{least};
ghost use Rattle.gomp_types.specs.Servers.{served_by};
ghost use Rattle.gomp_events.specs.Tasks.{executed_task};
ghost use Rattle.gomp_locks.specs.Book.{any_lock_at};
ghost use Rattle.gomp_locks.specs.CriticalNames.{critical_tests};
ghost use Rattle.gomp_locks.specs.Holders.{asker, owner_of, holds_critical};
ghost use Rattle.gomp_locks.specs.HoldRules.{HoldRule};
ghost use Rattle.gomp_locks.specs.Locks.{gone_tests};
ghost use Rattle.gomp_model.specs.Past.{Past};
ghost use Rattle.gomp_model.specs.Row.{book_tests};
ghost use Rattle.gomp_model.specs.Admits.{BookAdmits};
ghost use Rattle.gomp_model.specs.Calls.{row_of};
ghost use Rattle.gomp_book_calls.specs.Stands.{BookStands, IsKnown, BookReply};

use gomp_locks::LockBook;
use gomp_types::{Call, LockKind, Owner, Refusal, Reply, Server, Task};

/// Why the call of this member, which executes this task, is refused by what names and locks decide:
/// `HoldsCritical` (E11), or a refusal of the call on names and locks itself (E29 to E33). Of a call
/// that is repeated (`repeated`) only whether its lock is still there is tested: `NoLock` (E32).
// A frame of its own: that of each step, all of which is zeroed first, stays small.
#[inline(never)]
pub fn book_refusal(
    book: &LockBook,
    member: u16,
    task: Task,
    call: &Call,
    repeated: bool,
) -> Option<Refusal>
    ensures { (p : Past) → BookStands book.now p → executed_task member p.events ≡ task →
        Always HoldRule p.events →
        result ≡ least (book_tests repeated (row_of call.now) member p) }
{
    if repeated {
        return gone_refusal(book, call);
    }
    let owner = owner_of(member, task);
    match call.served_by() {
        Server::Book => book_call_refusal(book, owner, call),
        Server::Shares | Server::Board | Server::Team => beside_refusal(book, owner, call),
    }
}

/// Why a call on names and locks, asked by this owner, is refused by these.
fn book_call_refusal(book: &LockBook, owner: Owner, call: &Call) -> Option<Refusal>
    requires asks { served_by call.now ≡ Book }
    ensures { (m : ℕ) (p : Past) → BookStands book.now p → asker m p.events ≡ owner →
        result ≡ least (book_tests false (row_of call.now) m p) }
{
    match call {
        Call::CriticalStart(name) => book.critical_start_refusal(owner, name),
        Call::CriticalEnd(name) => book.critical_end_refusal(owner, name),
        Call::LockInit | Call::NestInit => book.lock_init_refusal(),
        Call::LockDestroy(number) => book.lock_destroy_refusal(*number),
        Call::Set(number) => book.set_refusal(owner, *number),
        Call::Test(number) => book.test_refusal(*number),
        Call::Unset(number) => book.unset_refusal(owner, LockKind::Simple, *number),
        Call::SetNest(number) | Call::TestNest(number) => book.set_nest_refusal(owner, *number),
        Call::UnsetNest(number) => book.unset_refusal(owner, LockKind::Nest, *number),
        _ => unreachable!(),
    }
}

/// Why any other call is refused by names: its owner holds one, and meets a work-share or a barrier,
/// or ends its task.
fn beside_refusal(book: &LockBook, owner: Owner, call: &Call) -> Option<Refusal>
    requires aside { served_by call.now ≢ Book }
    ensures { (m : ℕ) (p : Past) → BookStands book.now p → asker m p.events ≡ owner →
        Always HoldRule p.events →
        result ≡ least (book_tests false (row_of call.now) m p) }
{
    match call {
        Call::TaskCreate(_) | Call::Taskwait(_) | Call::GroupStart | Call::GroupEnd => None,
        Call::Cancel { .. } | Call::Point(_) => None,
        Call::Stop | Call::Resume => None,
        _ => critical_refusal(book, owner),
    }
}

/// Whether the task that this member executes holds a critical name, and so meets no work-share and no
/// barrier: of the calls on these the one test that names and locks make.
#[inline(always)]
pub fn holds_name(book: &LockBook, member: u16, task: Task) -> bool
    ensures { (p : Past) → BookStands book.now p → executed_task member p.events ≡ task →
        Always HoldRule p.events → result ≡ holds_critical (asker member p.events) p.events }
{
    critical_refusal(book, owner_of(member, task)).is_some()
}

/// Answers a call on names and locks that no test refuses, by this member, numbered from 0, which
/// executes this task, or goes on with one that waits (`repeated`). Only the first start of a name and
/// the making of a lock take memory: if it is refused, the answer is `NoMemory` and nothing changes.
// A frame of its own: that of each step, all of which is zeroed first, stays small.
#[inline(never)]
pub fn book_admitted(
    book: &mut LockBook,
    member: u16,
    task: Task,
    call: &Call,
    repeated: bool,
) -> Reply
    requires asks { served_by call.now ≡ Book }
    requires admitted { (p : Past) × BookStands book.old p ×
        (executed_task member p.events ≡ task) × Always HoldRule p.events ×
        BookAdmits (row_of call.now) repeated member p }
    requires known { repeated ≡ true → IsKnown book.old (Some call.now) }
    ensures { BookReply (record { row = row_of call.now; repeated = repeated }) book.old book.new
        member task result }
{
    let owner = owner_of(member, task);
    match call {
        Call::CriticalStart(name) => book.critical_start_admitted(owner, name),
        Call::CriticalEnd(name) => book.critical_end_admitted(owner, name),
        Call::LockInit => book.lock_init_admitted(LockKind::Simple),
        Call::NestInit => book.lock_init_admitted(LockKind::Nest),
        Call::LockDestroy(number) => book.lock_destroy_admitted(*number),
        Call::Set(number) => book.set_admitted(owner, *number),
        Call::Test(number) => book.test_admitted(owner, *number),
        Call::Unset(number) => book.unset_admitted(*number),
        Call::SetNest(number) => book.set_nest_admitted(owner, *number),
        Call::TestNest(number) => book.test_nest_admitted(owner, *number),
        Call::UnsetNest(number) => book.unset_nest_admitted(owner, *number),
        _ => unreachable!(),
    }
}

/// Why a call that waits is refused: its lock is gone.
fn gone_refusal(book: &LockBook, call: &Call) -> Option<Refusal>
    ensures { (m : ℕ) (p : Past) → BookStands book.now p →
        result ≡ least ((row_of call.now).missing m p) }
{
    match call {
        Call::LockDestroy(number) => either_gone_refusal(book, *number),
        Call::Set(number) | Call::Test(number) | Call::Unset(number) => {
            book.gone_refusal(LockKind::Simple, *number)
        }
        Call::SetNest(number) | Call::TestNest(number) | Call::UnsetNest(number) => {
            book.gone_refusal(LockKind::Nest, *number)
        }
        _ => None,
    }
}

/// Why a call on a lock of either kind is refused if there is no lock of this number.
fn either_gone_refusal(book: &LockBook, number: u32) -> Option<Refusal>
    ensures { result ≡ least (gone_tests (any_lock_at number book.now)) }
{
    match book.any_lock_at(number) {
        None => Some(Refusal::NoLock),
        Some(_) => None,
    }
}

/// Why a task that holds a critical name may not meet a barrier or a work-share.
fn critical_refusal(book: &LockBook, owner: Owner) -> Option<Refusal>
    ensures { (p : Past) → BookStands book.now p → Always HoldRule p.events →
        result ≡ least (critical_tests (holds_critical owner p.events)) }
{
    if book.holds_critical(owner) {
        Some(Refusal::HoldsCritical)
    } else {
        None
    }
}

/// A task of a member as an owner, in a team of its own.
fn owner_of(member: u16, task: Task) -> Owner
    ensures { result ≡ owner_of member task }
{
    Owner {
        team: 0,
        member,
        task: match task {
            Task::Implicit(_) => 0,
            Task::Explicit(number) => number,
        },
    }
}

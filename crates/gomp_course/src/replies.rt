//! What the replies to a program's acts come to.

ghost use Rattle.std.specs.Prelude.{◌≡◌};
ghost use Rattle.gomp_course.specs.Exchanges.{end_tasks_after, is_last, passes_end, taken_after, tasks_started, tests_refusal};

use crate::asked::Asked;
use gomp_types::{Refusal, Reply};

/// How many tasks the member executes that it started at the region's end, once it has started one more.
fn tasks_started(asks: Asked, tasks: Option<u32>) -> Option<u32>
    ensures { result ≡ tasks_started asks tasks }
{
    match (asks, tasks) {
        (Asked::End, _) => Some(1),
        (_, Some(tasks)) => Some(tasks.saturating_add(1)),
        (_, None) => None,
    }
}

/// How many tasks the member executes that it started at the region's end, after a reply; none before it
/// waits there.
pub(crate) fn end_tasks_after(asks: Asked, reply: &Reply, tasks: Option<u32>) -> Option<u32>
    ensures { result ≡ end_tasks_after asks reply.now tasks }
{
    match (reply, tasks) {
        (Reply::Run { own: false, .. }, _) => tasks_started(asks, tasks),
        (Reply::TaskDone { waiting: true, .. }, Some(tasks)) => Some(tasks.saturating_sub(1)),
        _ => tasks,
    }
}

/// Whether the member has passed the region's end if it is answered that it passed.
fn passes_end(asks: Asked, tasks: Option<u32>) -> bool
    ensures { result ≡ passes_end asks tasks }
{
    match (asks, tasks) {
        (Asked::End, _) => true,
        (Asked::Again, Some(tasks)) => tasks == 0,
        _ => false,
    }
}

/// Whether a program is asked no more behind this reply of its own team.
pub(crate) fn is_last(asks: Asked, reply: &Reply, tasks: Option<u32>) -> bool
    ensures { result ≡ is_last asks reply.now tasks }
{
    match reply {
        Reply::Passed => passes_end(asks, tasks),
        Reply::Stopped => true,
        Reply::Refused(Refusal::Broken(_)) => true,
        _ => false,
    }
}

/// How many iterations were taken after a reply.
pub(crate) fn taken_after(reply: &Reply, taken: u128) -> u128
    ensures { result ≡ taken_after reply.now taken }
{
    match reply {
        Reply::Chunk { count, .. } => taken.saturating_add(*count as u128),
        _ => taken,
    }
}

/// Why a nested region is refused by the tests of each call, by the answer to a call that is refused in
/// any case, at last by `NoLock`.
pub(crate) fn tests_refusal(shown: Reply) -> Option<Refusal>
    ensures { result ≡ tests_refusal shown }
{
    match shown {
        Reply::Refused(Refusal::NoLock) => None,
        Reply::Refused(refusal) => Some(refusal),
        _ => None,
    }
}

//! What an open wait refuses, and which replies open and close one.

ghost use Rattle.std.specs.Prelude.{◌≡◌, Some};
ghost use Rattle.gomp_types.specs.Least.{lesser};
ghost use Rattle.gomp_waits.specs.Waits.{resumes_wait, stops_team, open_wait_refusal, waits_on};

use gomp_board::Op;
use gomp_types::{Place, Refusal, Reply};

/// Whether the operation goes on with an open wait.
fn resumes_wait(op: &Op) -> bool
    ensures { result ≡ resumes_wait op.now }
{
    matches!(
        op,
        Op::AwaitOwn | Op::AwaitChildren(_) | Op::AwaitGroup | Op::AwaitBarrier
    )
}

/// Whether the operation stops the team.
fn stops_team(op: &Op) -> bool
    ensures { result ≡ stops_team op.now }
{
    match op {
        Op::Break { place, .. } => matches!(place, Place::Stopped),
        _ => false,
    }
}

/// Why the wait alone refuses the operation of a member whose wait is open, or is not.
pub(crate) fn wait_refusal(waiting: bool, op: &Op) -> Option<Refusal>
    ensures { result ≡ open_wait_refusal waiting op.now }
{
    let resumes = resumes_wait(op);
    let stops = stops_team(op);
    if waiting && !resumes && !stops {
        return Some(Refusal::Waiting);
    }
    if !waiting && resumes {
        return Some(Refusal::NotInside);
    }
    None
}

/// Whether the member's wait is open after the reply, if it was so before, or was not.
pub(crate) fn waits_on(reply: &Reply, waiting: bool) -> bool
    ensures { result ≡ waits_on reply.now waiting }
{
    match reply {
        Reply::Refused(_) => waiting,
        Reply::Wait => true,
        Reply::TaskDone { waiting: again, .. } => *again,
        _ => false,
    }
}

/// Of two refusals, if there is another, the one with the lesser number.
pub fn lesser_refusal(one: Refusal, other: Option<Refusal>) -> Refusal
    ensures { Some result ≡ lesser (Some one) other }
{
    match other {
        None => one,
        Some(other) => {
            if one.number() <= other.number() {
                one
            } else {
                other
            }
        }
    }
}

//! What a member leaves since it has seen that it is cancelled, and what it may call then.
//!
//! OpenMP API 5.2, sections 16.1 and 16.2: a member that has seen a cancellation goes to the end of
//! what is cancelled.

ghost use Rattle.std.specs.Prelude.{ℕ, ◌≡◌, ◌<◌, ◌&&◌, ◌||◌, not, is_none, List};
ghost use Rattle.gomp_events.specs.declared.event.Event.{Event};
ghost use Rattle.gomp_types.specs.Least.{least};
ghost use Rattle.gomp_events.specs.Seen.{seen_of};
ghost use Rattle.gomp_shares.specs.Admission.{end_tests_of};
ghost use Rattle.gomp_model.specs.Past.{Past};
ghost use Rattle.gomp_model.specs.Row.{leaving_tests};
ghost use Rattle.gomp_model.specs.Calls.{row_of};
ghost use Rattle.gomp_dispatch.specs.Leaves.{LeavesAs, named_by, leaving_seen, leaving_after};

use gomp_events::Seen;
use gomp_shares::admission::end_construct_refusal;
use gomp_shares::{Construct, Shares};
use gomp_types::{Call, CancelKind, EndKind, Refusal, Reply};

/// What a member leaves since it has seen that it is cancelled. That it leaves a share it sees at
/// its place ([`Seen::leaving`]).
#[derive(Clone, Copy, Debug, PartialEq, Eq)]
pub struct Leaving {
    /// Whether it leaves the region: it goes to the region's end.
    pub region: bool,
    /// Whether it leaves the task that it executes: it goes to the task's end.
    pub task: bool,
}

/// How a member makes a call, beside the call itself.
#[derive(Clone, Copy, Debug, PartialEq, Eq)]
pub struct Manner {
    /// Whether it repeats the call, which waits.
    pub repeated: bool,
    /// What the member leaves.
    pub leaving: Leaving,
    /// Whether the control variable `cancel-var` lets something be cancelled (OpenMP API 5.2,
    /// section 2.1).
    pub allowed: bool,
}

impl Leaving {
    /// A member that leaves nothing.
    pub const NONE: Leaving = Leaving {
        region: false,
        task: false,
    };

    /// What the member leaves after this reply to the call that it made or repeated: the region if
    /// it was answered `Cancelled`, what its construct named if that is cancelled, and no task that
    /// it has just started, nor one to which it comes back.
    #[inline(always)]
    pub fn after(self, reply: &Reply, call: &Call) -> Leaving
        ensures { result ≡ leaving_after reply.now call.now self }
    {
        match reply {
            Reply::Run { .. } | Reply::TaskDone { .. } => Leaving {
                region: self.region,
                task: false,
            },
            Reply::Cancelled => self.with(Some(CancelKind::Parallel)),
            Reply::Cancelling(true) => self.with(named_by(call)),
            _ => self,
        }
    }

    /// What it leaves once it has seen that this is cancelled.
    fn with(self, seen: Option<CancelKind>) -> Leaving
        ensures { result ≡ leaving_seen seen self }
    {
        match seen {
            Some(CancelKind::Parallel) => Leaving {
                region: true,
                task: self.task,
            },
            Some(CancelKind::Taskgroup) => Leaving {
                region: self.region,
                task: true,
            },
            _ => self,
        }
    }
}

/// What a construct names, if the call is one.
fn named_by(call: &Call) -> Option<CancelKind>
    ensures { result ≡ named_by call.now }
{
    match call {
        Call::Cancel { kind, .. } => Some(*kind),
        Call::Point(kind) => Some(*kind),
        _ => None,
    }
}

/// Why the member, numbered from 0, does not make the call, or go on with it: `Leaving` if it
/// leaves something, and the call is not one by which it does. A call that is repeated (`repeated`)
/// was let through when it was made.
pub fn leaving_refusal<S: Shares>(
    shares: &S,
    member: u16,
    call: &Call,
    repeated: bool,
    leaving: Leaving,
) -> Option<Refusal>
    requires member { member < S.members shares.now }
    ensures least { (p : Past) → S.stands shares.now p.events → LeavesAs leaving member p.events →
        result ≡ least (leaving_tests repeated (row_of call.now) member p) }
{
    if repeated {
        return None;
    }
    // The tests of the call's place look again: they come behind this one, which refuses any call.
    let seen = shares.look(member);
    if !is_leaving(&seen, leaving) {
        return None;
    }
    if lets_leave(&seen, call, leaving) {
        return None;
    }
    Some(Refusal::Leaving)
}

/// Whether a member that sees this of its place leaves something.
#[inline(always)]
pub(crate) fn is_leaving(seen: &Seen, leaving: Leaving) -> bool
    ensures { result ≡ (leaving.region || seen.now.leaving || leaving.task) }
{
    leaving.region || seen.leaving || leaving.task
}

/// Whether it may make the call though it does: the call ends what it leaves, or gives up what it
/// holds.
fn lets_leave(seen: &Seen, call: &Call, leaving: Leaving) -> bool
    ensures lets { (m : ℕ) (h : List Event) → seen.now ≡ seen_of m h → LeavesAs leaving m h →
        result ≡ (row_of call.now).lets_leave m h }
{
    match call {
        Call::CriticalEnd(_) | Call::Unset(_) | Call::UnsetNest(_) | Call::Stop => true,
        Call::RegionEnd => leaving.region,
        Call::TaskEnd => leaving.task,
        Call::LoopEnd => ends_its_own(seen, leaving, Construct::Loop, EndKind::Wait),
        Call::LoopEndCancel => ends_its_own(seen, leaving, Construct::Loop, EndKind::Cancellable),
        Call::SectionsEnd => ends_its_own(seen, leaving, Construct::Sections, EndKind::Wait),
        Call::SectionsEndCancel => {
            ends_its_own(seen, leaving, Construct::Sections, EndKind::Cancellable)
        }
        _ => false,
    }
}

/// Whether it leaves its share, and that alone, and the tests of its place let it end that by the
/// call for this end kind.
fn ends_its_own(seen: &Seen, leaving: Leaving, construct: Construct, end_kind: EndKind) -> bool
    ensures { result ≡ (seen.now.leaving && not (leaving.region || leaving.task)
        && is_none (least (end_tests_of construct end_kind seen.now))) }
{
    let placed = end_construct_refusal(seen, construct, end_kind).is_none();
    leaves_alone(seen.leaving, leaving) && placed
}

/// Whether a member that leaves its share, or does not (`share`), leaves that alone.
fn leaves_alone(share: bool, leaving: Leaving) -> bool
    ensures { result ≡ (share && not (leaving.region || leaving.task)) }
{
    share && !(leaving.region || leaving.task)
}

//! Why a member's call is refused by what the member knows of itself.

ghost use Rattle.std.specs.Prelude.{ℕ, ◌≡◌, ◌≢◌, ◌&&◌, not, is_some, is_none, if◌then◌else◌, false, [], ◌∷◌, Some, None};
ghost use Rattle.gomp_types.specs.declared.call.Server.TheVariants.{Book, Shares};
ghost use Rattle.gomp_types.specs.declared.refusal.Refusal.TheVariants.{Leaving, NotInside, Mismatch};
ghost use Rattle.gomp_types.specs.Least.{least};
ghost use Rattle.gomp_types.specs.Servers.{served_by};
ghost use Rattle.gomp_model.specs.Past.{Past};
ghost use Rattle.gomp_model.specs.Row.{leaving_tests};
ghost use Rattle.gomp_model.specs.Calls.{row_of};
ghost use Rattle.gomp_locks.specs.CriticalNames.{critical_tests};
ghost use Rattle.gomp_locks.specs.Holders.{asker, holds_critical};
ghost use Rattle.gomp_member.specs.Own.{executes_implicit, is_free};
ghost use Rattle.gomp_member.specs.Refused.{leaves_by, leaves_share_alone, leaves_something, own_refusal, task_refusal, tests_names};
ghost use Rattle.gomp_member.specs.Tests.{KnowsPast, LetsEnd, own_tests};

use crate::state::MemberState;
use gomp_types::{Call, Refusal, Server, Task};

impl MemberState {
    /// Why the call is refused, whatever it is: `Ended` if the member has passed the region's end,
    /// `Waiting` if one of its calls waits and this is neither a resume nor a stop, `Leaving` if the member
    /// leaves something and this is no call by which it does, and `NotInside` if a resume has nothing
    /// to repeat. `placed` says whether the tests of its place let it end its share by this call, and counts
    /// only if the member leaves that (OpenMP API 5.2, section 16.1).
    #[inline(always)]
    pub fn own_refusal(&self, call: &Call, placed: bool) -> Option<Refusal>
        ensures is { result ≡ own_refusal placed self.now.own call.now }
        ensures least { (p : Past) → KnowsPast self.now.own p →
            LetsEnd placed self.now.own (row_of call.now) p →
            result ≡ least (own_tests self.now.own call.now p) }
        ensures own { result ≢ Some Mismatch }
    {
        if self.has_ended() {
            return Some(Refusal::Ended);
        }
        match call {
            Call::Resume => self.resume_refusal(),
            Call::Stop => None,
            _ if self.is_waiting() => Some(Refusal::Waiting),
            _ => self.leaving_refusal(call, placed),
        }
    }

    /// Why there is nothing to resume: `NotInside`.
    fn resume_refusal(&self) -> Option<Refusal>
        ensures { result ≡ least ((is_none self.now.own.waits.open_call, NotInside) ∷ []) }
    {
        if self.is_waiting() {
            return None;
        }
        Some(Refusal::NotInside)
    }

    /// Whether one of its calls waits.
    #[inline(always)]
    fn is_waiting(&self) -> bool
        ensures { result ≡ is_some self.now.own.waits.open_call }
    {
        self.open_call().is_some()
    }

    /// Why a member that may leave something does not make the call.
    #[inline(always)]
    fn leaving_refusal(&self, call: &Call, placed: bool) -> Option<Refusal>
        ensures is { result ≡ (if leaves_something self.now.own
            && not (leaves_by placed self.now.own call.now) then Some Leaving else None) }
        ensures least { (p : Past) → KnowsPast self.now.own p →
            LetsEnd placed self.now.own (row_of call.now) p →
            result ≡ least (leaving_tests false (row_of call.now) self.now.own.number p) }
        ensures own { result ≢ Some Mismatch }
    {
        if !self.is_leaving() || self.lets_leave(call, placed) {
            return None;
        }
        Some(Refusal::Leaving)
    }

    /// Why a task that the member executes does not make a call on the work-shares: `InsideTask`, if it is
    /// an explicit one (OpenMP API 5.2, section 17.1).
    #[inline(always)]
    pub fn task_refusal(&self, call: &Call) -> Option<Refusal>
        requires served { served_by call.now ≡ Shares }
        ensures is { result ≡ task_refusal self.now.own }
        ensures least { (p : Past) → KnowsPast self.now.own p →
            result ≡ least ((row_of call.now).by_task self.now.own.number p) }
        ensures own { result ≢ Some Mismatch }
    {
        match self.task() {
            Task::Explicit(_) => Some(Refusal::InsideTask),
            Task::Implicit(_) => None,
        }
    }

    /// Whether nothing that the member keeps refuses it a call on the work-shares: it has not passed the region's end, none of its
    /// calls waits, it executes its implicit task, and leaves nothing.
    #[inline(always)]
    pub fn is_free(&self) -> bool
        ensures { result ≡ is_free self.now.own }
    {
        !self.has_ended() && !self.is_waiting() && self.executes_implicit() && !self.is_leaving()
    }

    /// Whether it executes its implicit task.
    #[inline(always)]
    fn executes_implicit(&self) -> bool
        ensures { result ≡ executes_implicit self.now.own }
    {
        matches!(self.task(), Task::Implicit(_))
    }

    /// Whether it leaves something.
    #[inline(always)]
    fn is_leaving(&self) -> bool
        ensures { result ≡ leaves_something self.now.own }
    {
        self.leaving().region || self.leaves_share() || self.leaving().task
    }

    /// Whether it may make the call though it does: the call ends what it leaves, or gives up what it
    /// holds.
    fn lets_leave(&self, call: &Call, placed: bool) -> bool
        ensures is { result ≡ leaves_by placed self.now.own call.now }
        ensures lets { (p : Past) → KnowsPast self.now.own p →
            LetsEnd placed self.now.own (row_of call.now) p →
            result ≡ (row_of call.now).lets_leave self.now.own.number p.events }
    {
        match call {
            Call::CriticalEnd(_) | Call::Unset(_) | Call::UnsetNest(_) | Call::Stop => true,
            Call::RegionEnd => self.leaving().region,
            Call::TaskEnd => self.leaving().task,
            Call::LoopEnd | Call::LoopEndCancel | Call::SectionsEnd | Call::SectionsEndCancel =>
                self.leaves_share_alone() && placed,
            _ => false,
        }
    }

    /// Whether it leaves its share, and that alone.
    fn leaves_share_alone(&self) -> bool
        ensures { result ≡ leaves_share_alone self.now.own }
    {
        let leaving = self.leaving();
        self.leaves_share() && !(leaving.region || leaving.task)
    }
}

/// Whether a task that holds a critical name is refused the call for that, `HoldsCritical` (OpenMP API 5.2,
/// section 17.1). Of names and locks themselves the book has its own tests.
pub fn tests_critical(call: &Call) -> bool
    requires aside { served_by call.now ≢ Book }
    ensures is { result ≡ tests_names call.now }
    ensures tests { (m : ℕ) (p : Past) → least ((row_of call.now).by_team m p) ≡
        least (critical_tests (result && holds_critical (asker m p.events) p.events)) }
{
    match call {
        Call::TaskEnd => true,
        Call::Resume | Call::Cancel { .. } | Call::Point(_) => false,
        _ => matches!(call.served_by(), Server::Shares | Server::Team),
    }
}

//! What is promised of the thread of a member.

ghost use Rattle.gomp_types.specs.declared.reply.Reply.{Reply};
ghost use Rattle.gomp_course.specs.declared.forking.RegionAsked.{RegionAsked};
ghost use Rattle.gomp_course.specs.Forkers.{ForkerView, KeepsVariables};
ghost use Rattle.gomp_course.specs.Runs.{HasRun};
ghost use Rattle.gomp_fork.specs.Teams.{IsWithin};

use crate::inner::InnerParts;
use gomp_course::{Job, Outcome, Program, Site, drive};
use gomp_crew::Work;
use gomp_ompt::Tool;
use gomp_team_book::HoldLedger;
use std::alloc::Global;
use std::marker::PhantomData;
use std::sync::Wait;
use std::sync::ledger::Ledger;

/// What a thread of a region is handed.
pub type RegionJob<L, H, F, P, T> = Job<L, H, F, InnerParts<H, F>, P, T>;

/// What comes back of it.
pub type RegionOutcome<L, H, F, P, T> = Outcome<L, H, F, InnerParts<H, F>, P, T>;

/// What comes of the regions that members fork. `I` is what a member has for these.
pub trait Forking<I, P, T> {
    /// What comes of one: its clauses, what its member has before it, the reply, and what the member has
    /// behind it.
    ghost forks: { RegionAsked → ForkerView I P T → Reply → ForkerView I P T → Type 0 };
}

/// What comes of the regions that members fork who have this round them.
pub struct Round<C> {
    site: PhantomData<C>,
}

impl<I: Drop, P: Drop, T: Drop, C: Site<I, P, T>> Forking<I, P, T> for Round<C> {
    ghost forks = { C.forks };
}

/// What is promised of a job and its outcome: the member has run its program to the end, and the regions
/// that it forked went so.
pub struct Runs<K> {
    forking: PhantomData<K>,
}

impl<
    L: Ledger,
    H: HoldLedger,
    F: Ledger,
    P: Program,
    T: Tool,
    K: Forking<InnerParts<H, F>, P, T>,
> Work<Job<L, H, F, InnerParts<H, F>, P, T>, Outcome<L, H, F, InnerParts<H, F>, P, T>> for Runs<K> {
    ghost kept = { λ job outcome. HasRun P.Program T.Tool K.forks job.runner outcome.runner outcome.taken };
}

/// A member runs its program to the end.
pub(crate) fn run_job<L, H, F, P, T, C, K, R>(
    rt: &R,
    alloc: Global,
    site: &C,
    job: RegionJob<L, H, F, P, T>,
) -> RegionOutcome<L, H, F, P, T>
where
    L: Ledger,
    H: HoldLedger,
    F: Ledger,
    P: Program,
    T: Tool,
    C: Site<InnerParts<H, F>, P, T>,
    K: Forking<InnerParts<H, F>, P, T>,
    R: Wait,
    requires ready { C.ready site.now }
    requires icv { KeepsVariables C.forks }
    requires within { IsWithin C.forks K.forks }
    ensures { HasRun P.Program T.Tool K.forks job.runner result.runner result.taken }
{
    drive(rt, alloc, site, job)
}

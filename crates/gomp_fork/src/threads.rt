//! How the jobs of a region get onto the threads of a crew.
//!
//! What does a job is a value that serves it. So the closures that a crew is given speak of any job and outcome, and not of a member
//! with all that it has.

ghost use Rattle.std.specs.Prelude.{◌≡◌, ◌+◌, ◌≤◌, [], OnOk, max, vec_len, vec_capacity};
ghost use Rattle.std.specs.Arc.{arc_value};
ghost use Rattle.gomp_crew.specs.Outcomes.{EachKept};
ghost use Rattle.gomp_course.specs.Forkers.{KeepsVariables};
ghost use Rattle.gomp_fork.specs.Teams.{IsWithin};

use crate::inner::InnerParts;
use crate::runs::{Forking, RegionJob, RegionOutcome, Runs, run_job};
use gomp_course::{Program, Site};
use gomp_crew::{Crew, Host, Work};
use gomp_ompt::Tool;
use gomp_team_book::HoldLedger;
use std::alloc::{AllocError, Global};
use std::marker::PhantomData;
use std::sync::ledger::Ledger;
use std::sync::{Arc, Wait};

/// What does the jobs of a crew's threads.
pub(crate) trait Serve<J, O, W: Work<J, O>> {
    /// It can do them.
    ghost able: { Self → Type 0 };

    /// Does a job, and answers its outcome.
    fn serve(&self, job: J) -> O
        requires able { able self.now }
        ensures { W.kept job result };
}

/// What does the jobs of a region's members: each runs its program to the end.
#[derive(Drop)]
pub(crate) struct Server<C: Drop, K, R: Drop> {
    /// What the members have round them.
    pub(crate) site: Arc<C, Global>,
    /// Where their memory comes from.
    pub(crate) alloc: Global,
    /// The runtime that a thread has.
    pub(crate) host: R,
    /// What comes of the regions that they fork.
    pub(crate) forking: PhantomData<K>,
}

impl<L, H, F, P, T, C, K, R> Serve<RegionJob<L, H, F, P, T>, RegionOutcome<L, H, F, P, T>, Runs<K>>
    for Server<C, K, R>
where
    L: Ledger,
    H: HoldLedger,
    F: Ledger,
    P: Program,
    T: Tool,
    C: Site<InnerParts<H, F>, P, T>,
    K: Forking<InnerParts<H, F>, P, T>,
    R: Wait + Drop,
{
    ghost able = { λ server. C.ready (arc_value server.site) × KeepsVariables C.forks × IsWithin C.forks K.forks };

    fn serve(&self, job: RegionJob<L, H, F, P, T>) -> RegionOutcome<L, H, F, P, T> {
        run_job::<L, H, F, P, T, C, K, R>(&self.host, self.alloc, &*self.site, job)
    }
}

/// Sees that the crew has `size` threads, which do their jobs by this. It fails if there is no memory or no thread can be had; those
/// that could be started stay.
pub(crate) fn grow_for<J, O, W, S, R>(
    crew: &mut Crew<J, O, W>,
    host: R,
    alloc: Global,
    size: usize,
    server: &Arc<S, Global>,
) -> Result<(), AllocError>
where
    J: Drop + Send + 'static,
    O: Drop + Send + 'static,
    W: Work<J, O> + Send + Sync + 'static,
    S: Serve<J, O, W> + Send + Sync + Drop + 'static,
    R: Host,
    requires able { S.able (arc_value server.now) }
    ensures ok { OnOk result (crew.new ≡ max crew.old size) }
    ensures most { crew.new ≤ max crew.old size }
    ensures stay { crew.old ≤ crew.new }
{
    let theirs = Arc::try_clone(server)?;
    let Ok(work) = Arc::new(
        alloc,
        move |job: J| -> O
            requires able { S.able (arc_value theirs) }
            ensures { W.kept job result }
        { theirs.serve(job) },
    ) else {
        return Err(AllocError);
    };
    crew.grow(host, alloc, size, &work)
}

/// Does the first of the jobs on this thread, and each other one on one of the crew's; answers their outcomes, in their order.
pub(crate) fn run_by<J: Drop, O: Drop, W: Work<J, O>, S: Serve<J, O, W>, R: Wait>(
    rt: &R,
    crew: &mut Crew<J, O, W>,
    server: &S,
    jobs: Vec<J>,
    outcomes: Vec<O>,
) -> Vec<O>
    requires able { S.able server.now }
    requires enough { vec_len jobs ≤ crew.old + 1 }
    requires empty { outcomes.items ≡ [] }
    requires room { vec_len jobs ≤ vec_capacity outcomes }
    ensures kept { EachKept W.kept jobs.items result.items }
    ensures count { vec_len result ≡ vec_len jobs }
    ensures room { vec_capacity result ≡ vec_capacity outcomes }
    ensures size { crew.new ≡ crew.old }
{
    let work = |job: J| -> O
        requires able { S.able server.now }
        ensures { W.kept job result }
    { server.serve(job) };
    crew.run_all(rt, &work, jobs, outcomes)
}

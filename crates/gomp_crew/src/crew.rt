//! The workers of one caller, and the jobs that they are handed.

ghost use Rattle.std.specs.Prelude.{◌≡◌, ◌+◌, ◌≤◌, ◌<◌, [], OnOk, OnErr, max, vec_len, vec_capacity};
ghost use Rattle.std.specs.Arc.{arc_value};
ghost use Rattle.gomp_crew.specs.declared.line.Hand.TheVariants.{Free};
ghost use Rattle.gomp_crew.specs.Outcomes.{KeepsEach, EachKept};

use crate::work::{Host, Work};
use crate::worker::Worker;
use std::alloc::{AllocError, Global};
use std::marker::Model;
use std::sync::{Arc, Wait};
use std::thread::Threads;

/// A worker that has no job.
struct Resting<J: Drop, O: Drop, W: Work<J, O>> {
    worker: Worker<J, O, W>,
    ghost free: { worker ≡ Free },
}

/// Workers that have no job between two calls. A contract sees how many they are.
///
/// `J` is a job, `O` its outcome, and `W` says what is promised of the two. A crew cannot be dropped:
/// code that lets one go does not compile, and [`Crew::stop`] ends its threads.
pub struct Crew<J: Drop, O: Drop, W: Work<J, O>> {
    workers: Vec<Resting<J, O, W>>,
}

impl<J: Drop, O: Drop, W: Work<J, O>> Model for Crew<J, O, W> {
    ghost use Rattle.std.specs.Prelude.{ℕ, vec_len};

    ghost Value = { ℕ };

    ghost view = { λ crew. vec_len crew.workers };
}

impl<J, O, W> Crew<J, O, W>
where
    J: Drop + Send + 'static,
    O: Drop + Send + 'static,
    W: Work<J, O> + Send + Sync + 'static,
{
    /// Starts workers until there are `size`, any number; none if there are as many. They do each of
    /// their jobs by `work`. It fails if there is no memory or no thread can be had, and keeps those that
    /// it could start.
    pub fn grow<R: Host, F: Fn(J) -> O + Send + Sync + Drop + 'static>(
        &mut self,
        rt: R,
        alloc: Global,
        size: usize,
        work: &Arc<F>,
    ) -> Result<(), AllocError>
        requires callable { F.IsAlwaysCallable (arc_value work.now) }
        requires keeps { KeepsEach (F.post (arc_value work.now)) W.kept }
        ensures ok { OnOk result (self.new ≡ max self.old size) }
        ensures err { OnErr result (self.new < size) }
        ensures stay { self.old ≤ self.new }
    {
        while self.size() < size {
            self.start_one(rt, alloc, work)?;
        }
        Ok(())
    }

    /// Starts one more worker. It fails, and the workers stay as they are, if there is no memory or no
    /// thread can be had.
    fn start_one<R: Host, F: Fn(J) -> O + Send + Sync + Drop + 'static>(
        &mut self,
        rt: R,
        alloc: Global,
        work: &Arc<F>,
    ) -> Result<(), AllocError>
        requires callable { F.IsAlwaysCallable (arc_value work.now) }
        requires keeps { KeepsEach (F.post (arc_value work.now)) W.kept }
        ensures ok { OnOk result (self.new ≡ self.old + 1) }
        ensures err { OnErr result (self.new ≡ self.old) }
    {
        let Crew { workers } = self;
        workers.reserve(1)?;
        let worker = Worker::start(rt, alloc, work)?;
        workers.push_reserved(Resting { worker });
        Ok(())
    }
}

/// Hands the last job to the last worker and those before it to the others, does the first one here,
/// and fetches the outcomes, the last one last. It is as deep as there are jobs.
#[tactic(auto, using(crate::proofs::Outcomes::each_kept_longer, crate::proofs::Outcomes::one_outcome_each))]
fn run_each<J: Drop, O: Drop, W: Work<J, O>, F: Fn(J) -> O, R: Wait>(
    rt: &R,
    work: &F,
    workers: &mut Vec<Resting<J, O, W>>,
    mut jobs: Vec<J>,
    mut outcomes: Vec<O>,
) -> Vec<O>
    requires callable { F.IsAlwaysCallable work.now }
    requires keeps { KeepsEach (F.post work.now) W.kept }
    requires enough { vec_len jobs ≤ vec_len workers.old + 1 }
    requires empty { outcomes.items ≡ [] }
    requires room { vec_len jobs ≤ vec_capacity outcomes }
    ensures kept { EachKept W.kept jobs.items result.items }
    ensures count { vec_len result ≡ vec_len jobs }
    ensures room { vec_capacity result ≡ vec_capacity outcomes }
    ensures workers { vec_len workers.new ≡ vec_len workers.old }
    ensures places { vec_capacity workers.new ≡ vec_capacity workers.old }
{
    let Some(job) = jobs.pop() else {
        return outcomes;
    };
    if jobs.is_empty() {
        outcomes.push_reserved(work(job));
        return outcomes;
    }
    let Resting { worker } = workers.take_last();
    let worker = worker.ask(rt, job);
    let mut outcomes = run_each(rt, work, workers, jobs, outcomes);
    let (worker, outcome) = worker.finish(rt, work);
    workers.push_reserved(Resting { worker });
    outcomes.push_reserved(outcome);
    outcomes
}

impl<J: Drop, O: Drop, W: Work<J, O>> Crew<J, O, W> {
    /// A crew without workers. It takes no memory.
    pub fn new(alloc: Global) -> Crew<J, O, W>
        ensures none { result ≡ 0 }
    {
        Crew {
            workers: Vec::new(alloc),
        }
    }

    /// How many workers there are.
    pub fn size(&self) -> usize
        ensures size { result ≡ self.now }
    {
        self.workers.len()
    }

    /// Does the first of the `jobs` by `work` on the calling thread, and each other one on a worker of its
    /// own; answers the outcomes in the order of the jobs once all are done. `outcomes` is empty, and
    /// has room for them; so no memory is taken. There may be one job more than workers.
    pub fn run_all<F: Fn(J) -> O, R: Wait>(
        &mut self,
        rt: &R,
        work: &F,
        jobs: Vec<J>,
        outcomes: Vec<O>,
    ) -> Vec<O>
        requires callable { F.IsAlwaysCallable work.now }
        requires keeps { KeepsEach (F.post work.now) W.kept }
        requires enough { vec_len jobs ≤ self.old + 1 }
        requires empty { outcomes.items ≡ [] }
        requires room { vec_len jobs ≤ vec_capacity outcomes }
        ensures kept { EachKept W.kept jobs.items result.items }
        ensures count { vec_len result ≡ vec_len jobs }
        ensures room { vec_capacity result ≡ vec_capacity outcomes }
        ensures size { self.new ≡ self.old }
    {
        run_each(rt, work, &mut self.workers, jobs, outcomes)
    }

    /// Ends all threads, and waits until they have ended.
    pub fn stop<R: Threads>(self, rt: &R) {
        let Crew { mut workers } = self;
        while !workers.is_empty() {
            let Resting { worker } = workers.take_last();
            worker.stop(rt);
        }
        workers.destroy_empty();
    }
}

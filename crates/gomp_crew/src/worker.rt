//! A worker: a thread that takes one job after another from its caller.

ghost use Rattle.std.specs.Prelude.{◌≡◌, IfOk, ⊤};
ghost use Rattle.std.specs.Arc.{arc_value};
ghost use Rattle.crossbeam_queue.specs.Passes.{view, IsPassOf};
ghost use Rattle.gomp_crew.specs.declared.line.Hand.TheVariants.{Free, Asked, Idle};
ghost use Rattle.gomp_crew.specs.Hands.{OnAsked};
ghost use Rattle.gomp_crew.specs.Outcomes.{KeepsEach};

use crate::line;
use crate::line::{JobLine, LineEnd, TwoEnds};
use crate::turn::{Side, Turn};
use crate::work::{Host, Work};
use std::alloc::{AllocError, Global};
use std::marker::Model;
use std::snapshot::Snapshot;
use std::sync::{Arc, Wait};
use std::thread;
use std::thread::{Promise, PromisedHandle, Threads};

/// What a worker and its caller share.
#[derive(Drop)]
struct Place<J, O, W: Work<J, O>> {
    line: JobLine<J, O, W>,
    /// It keeps the words of the line and those of the turn in different lines of the cache.
    apart: [u64; 16],
    turn: Turn,
}

/// Takes what is on the line, if anything is, does the job, and puts the outcome on the line.
fn serve_once<J: Drop, O: Drop, W: Work<J, O>, F: Fn(J) -> O, R: Wait>(
    rt: &R,
    line: &JobLine<J, O, W>,
    end: LineEnd<J, O>,
    work: &F,
) -> LineEnd<J, O>
    requires callable { F.IsAlwaysCallable work.now }
    requires keeps { KeepsEach (F.post work.now) W.kept }
    requires line { IsPassOf line.now end }
    requires idle { view end ≡ Idle }
    ensures line { IsPassOf line.now result }
    ensures idle { view result ≡ Idle }
{
    match line::take(line, end) {
        (end, Some(Err(job))) => {
            let outcome = work(job);
            line::answer(rt, line, end, outcome)
        }
        (end, Some(Ok(outcome))) => line::answer(rt, line, end, outcome),
        (end, None) => end,
    }
}

/// The life of a worker's thread: job after job, until its caller ends it. It answers the worker's end
/// of the line.
fn serve<J: Drop, O: Drop, W: Work<J, O>, F: Fn(J) -> O, R: Wait>(
    rt: &R,
    place: &Place<J, O, W>,
    mut end: LineEnd<J, O>,
    work: &F,
) -> LineEnd<J, O>
    requires callable { F.IsAlwaysCallable work.now }
    requires keeps { KeepsEach (F.post work.now) W.kept }
    requires line { IsPassOf place.now.line end }
    requires idle { view end ≡ Idle }
    ensures line { IsPassOf place.now.line result }
    ensures idle { view result ≡ Idle }
{
    for _ in rt.forever() {
        if place.turn.wait_while(rt, Side::Caller) == Side::End {
            return end;
        }
        end = serve_once(rt, &place.line, end, work);
        place.turn.give_to(Side::Caller);
    }
    unreachable!()
}

/// What a worker's thread answers as it ends: the worker's end of the line, without a job.
#[derive(Drop)]
struct GivesEnd<J, O, W: Work<J, O>> {
    place: Snapshot<Arc<Place<J, O, W>, Global>>,
}

impl<J, O, W: Work<J, O>> Promise<LineEnd<J, O>> for GivesEnd<J, O, W> {
    ghost kept_by = { λ promise end. IsPassOf (arc_value promise.place.value).line end
        × (view end ≡ Idle) };
}

/// A worker, as its caller sees it. It cannot be dropped: [`Worker::stop`] ends its thread.
pub struct Worker<J: Drop, O: Drop, W: Work<J, O>> {
    place: Arc<Place<J, O, W>, Global>,
    /// The caller's end of the line.
    end: LineEnd<J, O>,
    thread: PromisedHandle<LineEnd<J, O>, GivesEnd<J, O, W>>,
    ghost line: { IsPassOf (arc_value place).line end },
    ghost thread_line: { arc_value thread.promise.place.value ≡ arc_value place },
}

impl<J: Drop, O: Drop, W: Work<J, O>> Model for Worker<J, O, W> {
    ghost use Rattle.crossbeam_queue.specs.Passes.{view as known};
    ghost use Rattle.gomp_crew.specs.declared.line.Hand.{Hand};

    ghost Value = { Hand J };

    ghost view = { λ worker. known worker.end };
}

impl<J, O, W> Worker<J, O, W>
where
    J: Drop + Send + 'static,
    O: Drop + Send + 'static,
    W: Work<J, O> + Send + Sync + 'static,
{
    /// Starts a worker, which does each of its jobs by `work`. It fails, and no thread runs, if there is
    /// no memory or no thread can be had.
    pub fn start<R: Host, F: Fn(J) -> O + Send + Sync + Drop + 'static>(
        rt: R,
        alloc: Global,
        work: &Arc<F>,
    ) -> Result<Worker<J, O, W>, AllocError>
        requires callable { F.IsAlwaysCallable (arc_value work.now) }
        requires keeps { KeepsEach (F.post (arc_value work.now)) W.kept }
        ensures free { IfOk result (λ worker. worker ≡ Free) }
    {
        let (line, mut end) = JobLine::<J, O, W>::ruled(alloc, 1)?;
        let theirs = line.another::<TwoEnds>(&mut end);
        let apart = [0; 16];
        let turn = Turn::new();
        let place = Arc::new(alloc, Place { line, apart, turn })?;
        let shared = Arc::try_clone(&place)?;
        let does = Arc::try_clone(work)?;
        let promise = GivesEnd {
            place: Snapshot::of(&place),
        };
        let thread = thread::spawn_with(
            &rt,
            promise,
            move || -> LineEnd<J, O>
                requires callable { F.IsAlwaysCallable (arc_value does) }
                requires keeps { KeepsEach (F.post (arc_value does)) W.kept }
                requires line { IsPassOf (arc_value shared).line theirs }
                requires idle { view theirs ≡ Idle }
                ensures line { IsPassOf (arc_value shared).line result }
                ensures idle { view result ≡ Idle }
            { serve(&rt, &shared, theirs, &*does) },
        )?;
        Ok(Worker { place, end, thread })
    }
}

impl<J: Drop, O: Drop, W: Work<J, O>> Worker<J, O, W> {
    /// Hands the worker a job, and wakes it.
    pub fn ask<R: Wait>(self, rt: &R, job: J) -> Worker<J, O, W>
        requires free { self ≡ Free }
        ensures asked { result ≡ Asked job }
    {
        let Worker { place, end, thread } = self;
        let end = line::hand_over(rt, &place.line, end, job);
        place.turn.give_to(Side::Worker);
        Worker { place, end, thread }
    }

    /// Waits for the worker, and fetches the outcome of its job. A job that is still on the line is done
    /// here by `work`.
    pub fn finish<F: Fn(J) -> O, R: Wait>(self, rt: &R, work: &F) -> (Worker<J, O, W>, O)
        requires callable { F.IsAlwaysCallable work.now }
        requires keeps { KeepsEach (F.post work.now) W.kept }
        requires asked { OnAsked self (λ job. ⊤) }
        ensures free { result.0 ≡ Free }
        ensures kept { OnAsked self (λ job. W.kept job result.1) }
    {
        let Worker { place, end, thread } = self;
        place.turn.wait_while(rt, Side::Worker);
        let (end, found) = line::fetch(rt, &place.line, end);
        let outcome = match found {
            Ok(outcome) => outcome,
            Err(job) => work(job),
        };
        (Worker { place, end, thread }, outcome)
    }

    /// Ends the worker's thread, waits until it has ended, and answers the two ends of the line: the
    /// caller's, and the worker's, which the thread alone can give back.
    pub fn stop<R: Threads>(self, rt: &R) -> (LineEnd<J, O>, LineEnd<J, O>)
        requires free { self ≡ Free }
        ensures same_line { result.1.table_id ≡ result.0.table_id }
        ensures free { view result.0 ≡ Free }
        ensures idle { view result.1 ≡ Idle }
    {
        let Worker { place, end, thread } = self;
        place.turn.give_to(Side::End);
        (end, thread.join(rt))
    }
}

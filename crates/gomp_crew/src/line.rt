//! The line between a caller and its worker: a queue for one job or one outcome, under a rule.
//!
//! Each end has a pass, by which it knows what it has done: no clause can say what is on the line, since
//! the other end may change it at any moment.

ghost use Rattle.std.specs.Prelude.{◌≡◌, MatchResult, MatchOption, ⊤};
ghost use Rattle.crossbeam_queue.specs.Passes.{view, IsPassOf};
ghost use Rattle.gomp_crew.specs.declared.line.Hand.TheVariants.{Free, Asked, Idle, Busy};
ghost use Rattle.gomp_crew.specs.Hands.{OnAsked, OnBusy, HasTaken};

use crate::work::Work;
use crossbeam_queue::protocol::{Outcome, Protocol, Split};
use crossbeam_queue::{Pass, RuledArrayQueue};
use std::marker::PhantomData;
use std::sync::Wait;
use std::thread;

/// What one end of a line knows. No value of it is made: it stands in proofs alone.
pub enum Hand<J> {
    /// The line has one end yet.
    Whole,
    /// The caller's: nothing is handed over.
    Free,
    /// The caller's: this job is handed over, and its outcome not fetched.
    Asked(J),
    /// The worker's: it has no job.
    Idle,
    /// The worker's: it has this job.
    Busy(J),
}

/// The rule of a line.
pub struct LineRule<W>(PhantomData<W>);

impl<J, O, W: Work<J, O>> Protocol<Result<O, J>, Hand<J>> for LineRule<W> {
    ghost use Rattle.gomp_crew.specs.declared.line.Hand.TheVariants.{Whole};
    ghost use Rattle.gomp_crew.specs.Hands.{KeepsLine};

    ghost holds = { KeepsLine W.kept };

    ghost first = { Whole };
}

/// How a line gets its two ends.
pub struct TwoEnds;

impl<J> Split<Hand<J>> for TwoEnds {
    ghost left = { λ v. Free };

    ghost right = { λ v. Idle };
}

/// The caller's step by which it hands over a job.
struct Asking;

impl<J, O> Outcome<Result<O, J>, Hand<J>> for Asking {
    ghost use Rattle.gomp_crew.specs.Hands.{HasAsked};

    ghost then = { λ before item after. HasAsked item after };
}

/// The worker's step by which it takes the job.
struct Taking<W>(PhantomData<W>);

impl<J, O, W: Work<J, O>> Outcome<Result<O, J>, Hand<J>> for Taking<W> {
    ghost then = { λ before item after. HasTaken W.kept item after };
}

/// The worker's step by which it puts the outcome on the line.
struct Answering;

impl<J, O> Outcome<Result<O, J>, Hand<J>> for Answering {
    ghost then = { λ before item after. after ≡ Idle };
}

/// The caller's step by which it fetches the outcome.
struct Fetching<W>(PhantomData<W>);

impl<J, O, W: Work<J, O>> Outcome<Result<O, J>, Hand<J>> for Fetching<W> {
    ghost use Rattle.gomp_crew.specs.Hands.{HasGot};

    ghost then = { HasGot W.kept };
}

/// The queue: an outcome is `Ok`, a job `Err`.
pub type JobLine<J, O, W> = RuledArrayQueue<Result<O, J>, Hand<J>, LineRule<W>>;

/// The pass of one end.
pub type LineEnd<J, O> = Pass<Result<O, J>, Hand<J>>;

/// Hands over a job: the caller's end.
pub fn hand_over<J: Drop, O: Drop, W: Work<J, O>, R: Wait>(
    rt: &R,
    line: &JobLine<J, O, W>,
    mut end: LineEnd<J, O>,
    mut job: J,
) -> LineEnd<J, O>
    requires line { IsPassOf line.now end }
    requires free { view end ≡ Free }
    ensures line { IsPassOf line.now result }
    ensures asked { view result ≡ Asked job }
{
    for _ in rt.forever() {
        match line.try_push_as::<Asking>(&mut end, Err(job)) {
            Ok(()) => return end,
            Err(Err(back)) => job = back,
            Err(Ok(_)) => unreachable!(),
        }
        thread::yield_now();
    }
    unreachable!()
}

/// Fetches what is on the line: an outcome that is promised of the job handed over, or that very job,
/// if the worker has not taken it. The caller's end.
pub fn fetch<J: Drop, O: Drop, W: Work<J, O>, R: Wait>(
    rt: &R,
    line: &JobLine<J, O, W>,
    mut end: LineEnd<J, O>,
) -> (LineEnd<J, O>, Result<O, J>)
    requires line { IsPassOf line.now end }
    requires asked { OnAsked (view end) (λ job. ⊤) }
    ensures line { IsPassOf line.now result.0 }
    ensures free { view result.0 ≡ Free }
    ensures found { MatchResult result.1
        (λ outcome. OnAsked (view end) (λ job. W.kept job outcome))
        (λ job. view end ≡ Asked job) }
{
    for _ in rt.forever() {
        if let Some(found) = line.try_pop_as::<Fetching<W>>(&mut end) {
            return (end, found);
        }
        thread::yield_now();
    }
    unreachable!()
}

/// Takes what is on the line, if anything is: a job, or the worker's own outcome that was not fetched.
/// The worker's end.
pub fn take<J: Drop, O: Drop, W: Work<J, O>>(
    line: &JobLine<J, O, W>,
    mut end: LineEnd<J, O>,
) -> (LineEnd<J, O>, Option<Result<O, J>>)
    requires line { IsPassOf line.now end }
    requires idle { view end ≡ Idle }
    ensures line { IsPassOf line.now result.0 }
    ensures found { MatchOption result.1
        (view result.0 ≡ Idle)
        (λ item. HasTaken W.kept item (view result.0)) }
{
    let found = line.try_pop_as::<Taking<W>>(&mut end);
    (end, found)
}

/// Puts the outcome of its job on the line: the worker's end.
pub fn answer<J: Drop, O: Drop, W: Work<J, O>, R: Wait>(
    rt: &R,
    line: &JobLine<J, O, W>,
    mut end: LineEnd<J, O>,
    mut outcome: O,
) -> LineEnd<J, O>
    requires line { IsPassOf line.now end }
    requires kept { OnBusy (view end) (λ job. W.kept job outcome) }
    ensures line { IsPassOf line.now result }
    ensures idle { view result ≡ Idle }
{
    for _ in rt.forever() {
        match line.try_push_as::<Answering>(&mut end, Ok(outcome)) {
            Ok(()) => return end,
            Err(Ok(back)) => outcome = back,
            Err(Err(_)) => unreachable!(),
        }
        thread::yield_now();
    }
    unreachable!()
}

//! Nested teams that break, and one that is not made: who forks it is told why, and goes on.

use crate::checks::{AMPLE, report_of, same, same_replies};
use gomp_crew::Host;
use gomp_events::Event;
use gomp_ompt::Counts;
use gomp_runtime::{Report, Runtime};
use gomp_test_programs::planned::{Planned, PlannedAct, Within};
use gomp_test_programs::regions::{plan, programs, run, variables};
use gomp_types::{Call, Clash, Place, Refusal, Reply};
use std::alloc::Global;
use std::process::Abort;

/// So many programs, each of which finds no memory for the programs of a nested region if it is to (`lacks`), forks a nested region,
/// and then meets the others at a barrier.
fn forkers(rt: &impl Abort, alloc: Global, size: u64, within: Within, lacks: bool) -> Vec<Planned> {
    let mut progs = programs(alloc, size).expect(rt, AMPLE);
    for number in 0..size as usize {
        let barrier = PlannedAct::Call(Call::Barrier);
        plan(&mut progs, number, barrier).expect(rt, AMPLE);
        plan(&mut progs, number, PlannedAct::Nested).expect(rt, AMPLE);
        if lacks {
            let without = PlannedAct::NestedNoMemory;
            plan(&mut progs, number, without).expect(rt, AMPLE);
        }
    }
    for prog in &mut progs {
        prog.within = within;
    }
    progs
}

/// How many members pass the region's end, which is behind one barrier.
fn end_passes(history: &[Event]) -> u64 {
    let mut passes = 0u64;
    for event in history {
        if let Event::Pass { barrier: 1, .. } = event {
            passes = passes.saturating_add(1);
        }
    }
    passes
}

/// That a region of so many members has come to its end: each has arrived at two barriers and passed them.
fn has_ended(rt: &impl Abort, report: &Report<Planned, Counts>, size: u64) {
    same(rt, &(report.size as u64), &size, "size of", size);
    same(rt, &(report.progs.len() as u64), &size, "programs", size);
    same(rt, &(report.tools.len() as u64), &size, "tools", size);
    let events = report.history.len() as u64;
    same(rt, &events, &size.saturating_mul(4), "events of", size);
    let passes = end_passes(&report.history);
    same(rt, &passes, &size, "passes of the end of", size);
}

/// That a program was answered these, and took two back: those of members 0 and 1, which were answered `theirs`.
fn has_heard(
    rt: &impl Abort,
    alloc: Global,
    prog: &Planned,
    replies: &[Reply],
    theirs: (&[Reply], &[Reply]),
) {
    same_replies(rt, alloc, &prog.heard, replies, "reply to a forker");
    same(rt, &prog.theirs.len(), &2, "programs taken back", 0);
    let first = prog.theirs.first().expect(rt, "a program");
    same_replies(rt, alloc, first, theirs.0, "reply to member 0");
    let second = prog.theirs.get(1).expect(rt, "another program");
    same_replies(rt, alloc, second, theirs.1, "reply to member 1");
}

/// Forks a region of these programs, under these words of the environment. Each program is answered these, and those that it takes
/// back `theirs`.
fn fork<R: Host + Abort>(
    rt: &R,
    alloc: Global,
    words: &[(&str, &str)],
    progs: Vec<Planned>,
    replies: &[Reply],
    theirs: (&[Reply], &[Reply]),
) {
    let size = progs.len() as u64;
    let icv = variables(alloc, words).expect(rt, AMPLE);
    let mut runtime = Runtime::new(alloc, icv);
    let outcome = run(rt, alloc, &mut runtime, progs).expect(rt, AMPLE);
    let report = report_of(rt, outcome);
    has_ended(rt, &report, size);
    for prog in &report.progs {
        has_heard(rt, alloc, prog, replies, theirs);
    }
}

/// Forks a region of `size` members, each of which forks a nested one of two: each is told this refusal, passes the barrier
/// behind it and ends. Member 0 of the nested one hears no more than its first `Finished`, member 1 is answered `theirs`.
fn fork_broken<R: Host + Abort>(
    rt: &R,
    alloc: Global,
    (size, within): (u64, Within),
    told: Refusal,
    theirs: &[Reply],
) {
    let words = [("OMP_MAX_ACTIVE_LEVELS", "2"), ("OMP_NUM_THREADS", "2")];
    let progs = forkers(rt, alloc, size, within, false);
    let replies = [Reply::Finished, Reply::Refused(told), Reply::Passed];
    let first = [Reply::Finished];
    fork(rt, alloc, &words, progs, &replies, (&first, theirs));
}

/// Forks a region of `size` members, each of which finds no memory for the programs of a nested one, forks another of two, passes
/// the barrier behind it and ends. There are `limit` threads, as many as both levels need.
fn fork_without_memory<R: Host + Abort>(rt: &R, alloc: Global, (size, limit): (u64, &str)) {
    let words = [
        ("OMP_MAX_ACTIVE_LEVELS", "2"),
        ("OMP_NUM_THREADS", "2"),
        ("OMP_THREAD_LIMIT", limit),
    ];
    let progs = forkers(rt, alloc, size, Within::Meets, true);
    let told = Reply::Refused(Refusal::NoMemory);
    let replies = [Reply::Finished, told, Reply::Finished, Reply::Passed];
    let theirs = [Reply::Finished, Reply::Passed];
    fork(rt, alloc, &words, progs, &replies, (&theirs, &theirs));
}

/// A nested team of which member 1 stops is broken: who forked it is told so, by that cause.
#[test]
fn who_forks_a_team_that_stops_goes_on(rt: HostRuntime) {
    let clash = Clash {
        member: 1,
        place: Place::Stopped,
    };
    for size in &[1, 2] {
        let told = Refusal::Broken(clash);
        let theirs = [Reply::Finished];
        fork_broken(&rt, rt.alloc(), (*size, Within::Stops), told, &theirs);
    }
}

/// If that member was refused something before, who forked the team is told that refusal.
#[test]
fn who_forks_a_team_that_is_refused_goes_on(rt: HostRuntime) {
    for size in &[1, 2] {
        let theirs = [Reply::Finished, Reply::Refused(Refusal::OutsideShare)];
        let told = Refusal::OutsideShare;
        fork_broken(&rt, rt.alloc(), (*size, Within::Errs), told, &theirs);
    }
}

/// A nested team of which member 1 finds no memory is broken: who forked it is told so, by `NoMemory`.
#[test]
fn who_forks_a_team_that_lacks_memory_goes_on(rt: HostRuntime) {
    for size in &[1, 2] {
        let (told, theirs) = (Refusal::NoMemory, [Reply::Finished]);
        fork_broken(&rt, rt.alloc(), (*size, Within::NoMemory), told, &theirs);
    }
}

/// Who finds no memory for the programs of a nested team is told so, by `NoMemory`, and takes none back. The threads of that team are
/// there for the next one.
#[test]
fn who_cannot_make_programs_goes_on(rt: HostRuntime) {
    fork_without_memory(&rt, rt.alloc(), (1, "2"));
    fork_without_memory(&rt, rt.alloc(), (2, "4"));
}

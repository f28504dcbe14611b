//! Nested regions: how many levels of them are served, and how many members their teams have.

use crate::checks::{AMPLE, report_of, same};
use gomp_crew::Host;
use gomp_runtime::Runtime;
use gomp_test_programs::planned::{Planned, PlannedAct, Within};
use gomp_test_programs::regions::{plan, programs, run, variables};
use gomp_types::Call;
use std::alloc::Global;
use std::process::Abort;

/// The control variables of a test, by words of the environment.
type Words<'a> = &'a [(&'a str, &'a str)];

/// So many programs, each of which forks `regions` regions, and within each of these there are others, `levels` in all, one within
/// the other.
fn forkers(
    rt: &impl Abort,
    alloc: Global,
    (size, regions, levels): (u64, u64, u64),
) -> Vec<Planned> {
    let mut progs = programs(alloc, size).expect(rt, AMPLE);
    for number in 0..size as usize {
        for _ in 0..regions {
            plan(&mut progs, number, PlannedAct::Nested).expect(rt, AMPLE);
        }
    }
    for prog in &mut progs {
        prog.levels = levels.saturating_sub(1);
    }
    progs
}

/// That each program took back so many programs, was told so often that the levels are too many, and was asked so often.
fn have_joined(
    rt: &impl Abort,
    progs: &[Planned],
    (joined, too_deep): (u64, u64),
    asked: u64,
    levels: u64,
) {
    for prog in progs {
        same(rt, &prog.joined, &joined, "programs taken back", levels);
        same(rt, &prog.too_deep, &too_deep, "refusals", levels);
        same(rt, &prog.refused, &0, "other refusals", levels);
        same(rt, &prog.asked, &asked, "questions to program", prog.mark);
    }
}

/// Forks a region of `size` members, each of which forks `regions` ones in turn, and within each of these there are others,
/// `levels` in all, one within the other. Each takes back so many programs and is told so often that the levels are too many.
/// The members of a nested region meet at a barrier, so they run at the same time.
fn fork_nested<R: Host + Abort>(
    rt: &R,
    alloc: Global,
    words: Words<'_>,
    (size, regions, levels): (u64, u64, u64),
    counts: (u64, u64),
) {
    let progs = forkers(rt, alloc, (size, regions, levels));
    let icv = variables(alloc, words).expect(rt, AMPLE);
    let mut runtime = Runtime::new(alloc, icv);
    let outcome = run(rt, alloc, &mut runtime, progs).expect(rt, AMPLE);
    let report = report_of(rt, outcome);
    same(rt, &(report.progs.len() as u64), &size, "programs", levels);
    let asked = regions.saturating_add(1);
    have_joined(rt, &report.progs, counts, asked, levels);
}

/// Three levels of nested regions are served, and each program comes back to the one that made it. One active level is served by
/// the initial control variables: it is that of the region if this has two members, else that of the first nested ones, which
/// have four.
#[test]
fn three_levels_are_served(rt: HostRuntime) {
    for levels in 1..4 {
        let of_four = 4u64.saturating_mul(levels);
        fork_nested(&rt, rt.alloc(), &[], (1, 1, levels), (of_four, 0));
        fork_nested(&rt, rt.alloc(), &[], (2, 1, levels), (levels, 0));
    }
}

/// A fourth is refused by `TooManyLevels`, and the program that asked for it goes on.
#[test]
fn a_fourth_level_is_refused(rt: HostRuntime) {
    fork_nested(&rt, rt.alloc(), &[], (1, 1, 4), (12, 4));
    fork_nested(&rt, rt.alloc(), &[], (2, 1, 4), (3, 1));
}

/// Regions of two members lie within each other on four levels.
#[test]
fn teams_of_two_lie_within_teams_of_two(rt: HostRuntime) {
    let words = [("OMP_MAX_ACTIVE_LEVELS", "4"), ("OMP_NUM_THREADS", "2")];
    for (levels, joined) in &[(1, 2), (2, 6), (3, 14)] {
        fork_nested(&rt, rt.alloc(), &words, (2, 1, *levels), (*joined, 0));
    }
}

/// A nested team has as many members as there are threads, and they are there again for the next one.
#[test]
fn nested_teams_give_their_threads_back(rt: HostRuntime) {
    let words = [("OMP_THREAD_LIMIT", "3")];
    fork_nested(&rt, rt.alloc(), &words, (1, 20, 1), (60, 0));
}

/// A program that forks a nested region, within which the member does this. A new lock is made before, if one is asked for.
fn forker(rt: &impl Abort, alloc: Global, within: Within, new_lock: bool) -> Vec<Planned> {
    let mut progs = programs(alloc, 1).expect(rt, AMPLE);
    plan(&mut progs, 0, PlannedAct::Nested).expect(rt, AMPLE);
    if new_lock {
        let make = PlannedAct::Call(Call::LockInit);
        plan(&mut progs, 0, make).expect(rt, AMPLE);
    }
    for prog in &mut progs {
        prog.within = within;
    }
    progs
}

/// That such a program was refused so often.
fn is_refused<R: Host + Abort>(
    rt: &R,
    alloc: Global,
    runtime: &mut Runtime,
    progs: Vec<Planned>,
    refusals: u64,
) {
    let outcome = run(rt, alloc, runtime, progs).expect(rt, AMPLE);
    let report = report_of(rt, outcome);
    let prog = report.progs.first().expect(rt, "a program");
    same(rt, &prog.refused, &refusals, "refusals", refusals);
}

/// Nested regions of one runtime have numbers of their own, those of its next outermost region too: what a member of one holds,
/// a member of another cannot give up.
#[test]
fn nested_regions_are_other_owners(rt: HostRuntime) {
    let alloc = rt.alloc();
    let words = [("OMP_NUM_THREADS", "1")];
    let icv = variables(alloc, &words).expect(&rt, AMPLE);
    let mut runtime = Runtime::new(alloc, icv);
    let setter = forker(&rt, alloc, Within::Sets, true);
    is_refused(&rt, alloc, &mut runtime, setter, 0);
    let unsetter = forker(&rt, alloc, Within::Unsets, false);
    is_refused(&rt, alloc, &mut runtime, unsetter, 1);
}

//! What the tools of a region are told: their own begin and end, and those of the teams that their members fork.

use crate::checks::{AMPLE, same};
use crate::forks::planned;
use gomp_crew::Host;
use gomp_ompt::{Point, Record, Trace};
use gomp_runtime::{Report, Runtime};
use gomp_test_programs::planned::{Planned, PlannedAct};
use gomp_test_programs::regions::{programs, variables};
use std::alloc::Global;
use std::process::Abort;

/// So many traces without a record.
fn traces(rt: &impl Abort, alloc: Global, count: u64) -> Vec<Trace> {
    let mut traces = Vec::new(alloc);
    for _ in 0..count {
        traces.push(Trace::new(alloc)).expect(rt, AMPLE);
    }
    traces
}

/// The report of a region of these programs with traces, by a runtime of its own with these words of the environment.
fn trace<R: Host + Abort>(
    rt: &R,
    alloc: Global,
    words: &[(&str, &str)],
    progs: Vec<Planned>,
) -> Report<Planned, Trace> {
    let icv = variables(alloc, words).expect(rt, AMPLE);
    let mut runtime = Runtime::new(alloc, icv);
    let traces = traces(rt, alloc, progs.len() as u64);
    let outcome = runtime.parallel(rt, alloc, progs, traces);
    outcome.ok().expect(rt, "a report")
}

/// A moment of a team of this size.
fn team(point: Point, size: u64) -> Record {
    Record::single(point, size, 0)
}

/// A member of this number begins its part of a region of so many.
fn begins(number: u64, size: u64) -> Record {
    Record::begin(Point::ImplicitTask, number, size)
}

/// A member is at a barrier, 1 as an id, or at the region's end, 5.
fn waits(place: u64) -> [Record; 2] {
    [
        Record::begin(Point::SyncRegion, place, 0),
        Record::end(Point::SyncRegion, place, 0),
    ]
}

/// A member has ended its part of a region.
fn ends() -> Record {
    Record::end(Point::ImplicitTask, 0, 0)
}

/// That the tool of this number has these records, and no others.
fn has(rt: &impl Abort, report: &Report<Planned, Trace>, number: usize, records: &[Record]) {
    let found = match report.tools.get(number) {
        Some(trace) => trace.as_slice(),
        None => &[],
    };
    let case = number as u64;
    same(rt, &found.len(), &records.len(), "records of tool", case);
    for (one, other) in found.iter().zip(records) {
        same(rt, one, other, "a record of tool", case);
    }
}

/// The tool of member 0 is told of the team, before and after all else; that of each member that it begins, before its first
/// call.
#[test]
fn members_are_told_that_they_begin(rt: HostRuntime) {
    let alloc = rt.alloc();
    let progs = programs(alloc, 2).expect(&rt, AMPLE);
    let report = trace(&rt, alloc, &[], progs);
    let [arrives, passes] = waits(5);
    let first = [
        team(Point::ParallelBegin, 2),
        begins(0, 2),
        arrives,
        passes,
        ends(),
        team(Point::ParallelEnd, 2),
    ];
    has(&rt, &report, 0, &first);
    has(&rt, &report, 1, &[begins(1, 2), arrives, passes, ends()]);
}

/// What the tool of a member that forks a nested team of two is told.
fn records_of_forker() -> [Record; 20] {
    let ([arrives, passes], [meets, parts]) = (waits(5), waits(1));
    [
        team(Point::ParallelBegin, 1),
        begins(0, 1),
        team(Point::ParallelBegin, 2),
        begins(0, 2),
        meets,
        parts,
        arrives,
        passes,
        ends(),
        begins(1, 2),
        meets,
        parts,
        arrives,
        passes,
        ends(),
        team(Point::ParallelEnd, 2),
        arrives,
        passes,
        ends(),
        team(Point::ParallelEnd, 1),
    ]
}

/// That of a member that forks a nested team has the records of its members between the two of the team.
#[test]
fn a_nested_team_is_told_to_its_forker(rt: HostRuntime) {
    let alloc = rt.alloc();
    let progs = planned(&rt, alloc, 1, 0, PlannedAct::Nested);
    let report = trace(&rt, alloc, &[("OMP_NUM_THREADS", "2")], progs);
    has(&rt, &report, 0, &records_of_forker());
}

//! Tools, called as a library: a trace keeps each record where memory is ample, and a tool for each member of a team is
//! made and taken back.

use crate::checks::{AMPLE, same};
use gomp_ompt::{Counts, Point, Record, Tool, Trace};
use gomp_test_data::SIZES;
use std::alloc::Global;
use std::process::Abort;

/// The events, in the order of the standard.
const EVENTS: [Point; 14] = [
    Point::ParallelBegin,
    Point::ParallelEnd,
    Point::Work,
    Point::Dispatch,
    Point::TaskCreate,
    Point::Dependences,
    Point::TaskSchedule,
    Point::ImplicitTask,
    Point::SyncRegion,
    Point::MutexAcquire,
    Point::MutexAcquired,
    Point::MutexReleased,
    Point::NestLock,
    Point::Cancel,
];

/// The record of this number.
fn record_of(number: u64) -> Record {
    match number % 3 {
        0 => Record::begin(Point::Work, number, 7),
        1 => Record::single(Point::Cancel, 8, number),
        _ => Record::end(Point::TaskSchedule, number, number),
    }
}

/// Gives a tool so many records, from this number on.
fn give<T: Tool>(tool: &mut T, first: u64, count: usize) {
    for number in 0..count {
        tool.on(&record_of(first.wrapping_add(number as u64)));
    }
}

/// That a trace has the records of the numbers from 0 to before this one, in their order, and has lost none.
fn has_records(rt: &impl Abort, trace: &Trace, count: usize, name: &str) {
    let case = count as u64;
    let found = (trace.as_slice().len(), trace.lost());
    same(rt, found, (count, 0), name, case);
    for (number, record) in trace.as_slice().iter().enumerate() {
        same(rt, *record, record_of(number as u64), name, case);
    }
}

/// That a trace keeps so many records, and those of so many others, which it makes and takes back.
fn keeps(rt: &impl Abort, alloc: Global, members: u16, count: usize) {
    let mut trace = Trace::new(alloc);
    give(&mut trace, 0, count);
    has_records(rt, &trace, count, "a trace of");
    let mut others = trace.fork(alloc, members).expect(rt, AMPLE);
    let mut all = count;
    for other in others.as_mut_slice() {
        has_records(rt, other, 0, "a new trace of");
        give(other, all as u64, count);
        all = all.saturating_add(count);
    }
    trace.join(others);
    has_records(rt, &trace, all, "a trace with others of");
    drop(trace);
}

/// That so many tools count the same, and that one which takes them back counts the sum.
fn counts(rt: &impl Abort, alloc: Global, members: u16) {
    let mut counts = Counts::new();
    give(&mut counts, 0, 3);
    let mut others = counts.fork(alloc, members).expect(rt, AMPLE);
    for other in others.as_mut_slice() {
        same(rt, other.count(Point::Work), 0, "a new count of", 0);
        for (index, point) in EVENTS.iter().enumerate() {
            for _ in 0..index {
                other.on(&Record::single(*point, 0, 0));
            }
        }
    }
    counts.join(others);
    for (index, point) in EVENTS.iter().enumerate() {
        let before = matches!(point, Point::Work | Point::Cancel | Point::TaskSchedule);
        let expected = (members as usize).wrapping_mul(index) as u64;
        let expected = expected.wrapping_add(before as u64);
        same(
            rt,
            counts.count(*point),
            expected,
            "counts of",
            members as u64,
        );
    }
    drop(counts);
}

/// No record is lost, and none is counted twice, however many there are, and however many tools.
#[test]
fn tools_lose_nothing(rt: HostRuntime) {
    for count in SIZES {
        keeps(&rt, rt.alloc(), 0, *count);
        keeps(&rt, rt.alloc(), 2, *count);
    }
    for members in 0..=64 {
        for count in 0..4 {
            keeps(&rt, rt.alloc(), members, count);
        }
        counts(&rt, rt.alloc(), members);
    }
    for members in &[255, 256, 65_535] {
        keeps(&rt, rt.alloc(), *members, 1);
        counts(&rt, rt.alloc(), *members);
    }
}

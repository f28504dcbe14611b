//! How many members a region has, and who is asked how often.

use crate::checks::{AMPLE, same};
use crate::forks::own_report_of;
use gomp_crew::Host;
use gomp_test_programs::planned::Planned;
use gomp_test_programs::regions::{programs, variables};
use std::alloc::Global;
use std::process::Abort;

/// A word of the environment, so many programs, and how many members their team has.
type Case = (&'static str, &'static str, u64, u64);

const CASES: &[Case] = &[
    ("OMP_THREAD_LIMIT", "3", 6, 3),
    ("OMP_THREAD_LIMIT", "3", 2, 2),
    ("OMP_THREAD_LIMIT", "100", 70, 64),
    ("OMP_THREAD_LIMIT", "100", 64, 64),
    ("OMP_MAX_ACTIVE_LEVELS", "0", 4, 1),
];

/// That the programs are in their order, and each of the first so many was asked once, the others never.
fn were_asked(rt: &impl Abort, progs: &[Planned], size: u64, count: u64) {
    for (place, prog) in progs.iter().enumerate() {
        same(rt, &prog.mark, &(place as u64), "place of program", count);
        let asked = if prog.mark < size { 1 } else { 0 };
        same(rt, &prog.asked, &asked, "questions to program", prog.mark);
    }
}

/// That the team of this case has its size.
fn is_as_large<R: Host + Abort>(rt: &R, alloc: Global, (word, value, count, size): Case) {
    let icv = variables(alloc, &[(word, value)]).expect(rt, AMPLE);
    let progs = programs(alloc, count).expect(rt, AMPLE);
    let report = own_report_of(rt, alloc, icv, progs);
    same(rt, &(report.size as u64), &size, "size of", count);
    same(rt, &(report.progs.len() as u64), &count, "programs", count);
    same(rt, &(report.tools.len() as u64), &count, "tools", count);
    same(rt, &(report.taken.len() as u64), &size, "sums", count);
    were_asked(rt, &report.progs, size, count);
}

/// A team has as many members as programs, but not more than the limit of threads and 64: the others come back behind them, and are
/// never asked. Each that ran was asked once.
#[test]
fn teams_are_as_large_as_the_limit(rt: HostRuntime) {
    for case in CASES {
        is_as_large(&rt, rt.alloc(), *case);
    }
}

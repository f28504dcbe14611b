//! Regions that are forked with planned programs.

use crate::checks::AMPLE;
use gomp_crew::Host;
use gomp_icv::Icv;
use gomp_ompt::Counts;
use gomp_runtime::{Report, Runtime};
use gomp_test_programs::planned::{Planned, PlannedAct};
use gomp_test_programs::regions::{RegionResult, plan, programs, run};
use std::alloc::Global;
use std::process::Abort;

/// So many programs, of which that of this number plans this.
pub(crate) fn planned(
    rt: &impl Abort,
    alloc: Global,
    size: u64,
    number: u16,
    act: PlannedAct,
) -> Vec<Planned> {
    let mut progs = programs(alloc, size).expect(rt, AMPLE);
    plan(&mut progs, number as usize, act).expect(rt, AMPLE);
    progs
}

/// What comes of a region of these programs, by a runtime of its own.
pub(crate) fn outcome_of<R: Host + Abort>(
    rt: &R,
    alloc: Global,
    icv: Icv,
    progs: Vec<Planned>,
) -> RegionResult {
    let mut runtime = Runtime::new(alloc, icv);
    run(rt, alloc, &mut runtime, progs).expect(rt, AMPLE)
}

/// The report of a region of these programs.
pub(crate) fn report_of<R: Host + Abort>(
    rt: &R,
    alloc: Global,
    runtime: &mut Runtime,
    progs: Vec<Planned>,
) -> Report<Planned, Counts> {
    let outcome = run(rt, alloc, runtime, progs).expect(rt, AMPLE);
    outcome.ok().expect(rt, "a report")
}

/// The same by a runtime of its own.
pub(crate) fn own_report_of<R: Host + Abort>(
    rt: &R,
    alloc: Global,
    icv: Icv,
    progs: Vec<Planned>,
) -> Report<Planned, Counts> {
    outcome_of(rt, alloc, icv, progs)
        .ok()
        .expect(rt, "a report")
}

//! What a region names that gives no report.

use crate::checks::{AMPLE, same};
use crate::forks::{outcome_of, planned, report_of};
use gomp_crew::Host;
use gomp_icv::Icv;
use gomp_runtime::{RegionRefusal, Runtime};
use gomp_test_programs::planned::{Planned, PlannedAct};
use gomp_test_programs::regions::{RegionResult, fault_parts, plan, programs, tools};
use gomp_types::{Call, Clash, Place, Refusal};
use std::alloc::Global;
use std::process::Abort;

/// That a region has this fault, and that so many programs and tools come back in their order.
fn same_fault(
    rt: &impl Abort,
    outcome: RegionResult,
    (member, refusal): (u16, RegionRefusal),
    (progs, tools): (u64, u64),
) {
    let expected = Some(((member, refusal), (progs, tools)));
    same(rt, &fault_parts(outcome), &expected, "fault of", progs);
}

/// That so many programs with so many tools are refused.
fn refused<R: Host + Abort>(rt: &R, alloc: Global, progs: u64, count: u64) {
    let mut runtime = Runtime::new(alloc, Icv::initial());
    let (made, given) = (programs(alloc, progs), tools(alloc, count));
    let (made, given) = (made.expect(rt, AMPLE), given.expect(rt, AMPLE));
    let outcome = runtime.parallel(rt, alloc, made, given);
    let bad = RegionRefusal::Refused(Refusal::BadTeam);
    same_fault(rt, outcome, (0, bad), (progs, count));
}

/// An empty list, and two programs with one tool, are `BadTeam`, of member 0, and the lists come back.
#[test]
fn lists_that_do_not_fit_are_refused(rt: HostRuntime) {
    for (progs, count) in &[(0, 0), (0, 1), (1, 0), (2, 1), (1, 2)] {
        refused(&rt, rt.alloc(), *progs, *count);
    }
}

/// That a region of these programs breaks by this member, which is named with this refusal.
fn breaks<R: Host + Abort>(
    rt: &R,
    alloc: Global,
    progs: Vec<Planned>,
    member: u16,
    refusal: Refusal,
) {
    let size = progs.len() as u64;
    let outcome = outcome_of(rt, alloc, Icv::initial(), progs);
    let named = RegionRefusal::Refused(refusal);
    same_fault(rt, outcome, (member, named), (size, size));
}

/// A program that stops breaks its team: it is named, by `Broken`, since it got no refusal.
#[test]
fn who_stops_is_named(rt: HostRuntime) {
    for (size, member) in &[(1, 0), (3, 2), (4, 1)] {
        let stop = PlannedAct::Call(Call::Stop);
        let progs = planned(&rt, rt.alloc(), *size, *member, stop);
        let clash = Clash {
            member: *member,
            place: Place::Stopped,
        };
        breaks(&rt, rt.alloc(), progs, *member, Refusal::Broken(clash));
    }
}

/// It is named with the refusal that it got last: at the end of a loop that it is not in.
#[test]
fn who_stops_is_named_with_its_refusal(rt: HostRuntime) {
    let mut progs = planned(&rt, rt.alloc(), 2, 1, PlannedAct::Call(Call::Stop));
    let end = PlannedAct::Call(Call::LoopEnd);
    plan(&mut progs, 1, end).expect(&rt, AMPLE);
    breaks(&rt, rt.alloc(), progs, 1, Refusal::OutsideShare);
}

/// A program that finds no memory breaks its team: it is named by `NoMemory`.
#[test]
fn who_lacks_memory_is_named(rt: HostRuntime) {
    for (size, member) in &[(1, 0), (4, 3)] {
        let progs = planned(&rt, rt.alloc(), *size, *member, PlannedAct::NoMemory);
        breaks(&rt, rt.alloc(), progs, *member, Refusal::NoMemory);
    }
}

/// A program that makes a lock, sets it, and stops.
fn holder(rt: &impl Abort, alloc: Global) -> Vec<Planned> {
    let mut progs = planned(rt, alloc, 1, 0, PlannedAct::Call(Call::Stop));
    let set = PlannedAct::Call(Call::Set(0));
    plan(&mut progs, 0, set).expect(rt, AMPLE);
    let make = PlannedAct::Call(Call::LockInit);
    plan(&mut progs, 0, make).expect(rt, AMPLE);
    progs
}

/// A program that tries the lock, and unsets it.
fn trier(rt: &impl Abort, alloc: Global) -> Vec<Planned> {
    let mut progs = planned(rt, alloc, 1, 0, PlannedAct::Call(Call::Unset(0)));
    let test = PlannedAct::Call(Call::Test(0));
    plan(&mut progs, 0, test).expect(rt, AMPLE);
    progs
}

/// What a member of a broken team holds stays held, and locks keep their numbers: the next region of the runtime finds them so.
#[test]
fn names_and_locks_outlast_regions(rt: HostRuntime) {
    let alloc = rt.alloc();
    let mut runtime = Runtime::new(alloc, Icv::initial());
    let tools_of_one = tools(alloc, 1).expect(&rt, AMPLE);
    let stopped = runtime.parallel(&rt, alloc, holder(&rt, alloc), tools_of_one);
    same(&rt, &stopped.is_err(), &true, "a stop", 0);
    let report = report_of(&rt, alloc, &mut runtime, trier(&rt, alloc));
    for prog in &report.progs {
        let found = (prog.refused, prog.got);
        same(&rt, &found, &(1, 0), "refusals and locks that were free", 0);
    }
}

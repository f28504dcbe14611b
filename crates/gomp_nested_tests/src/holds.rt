//! What a member of an outermost region holds while it forks a nested one.

use crate::checks::{AMPLE, report_of, same, same_replies};
use gomp_runtime::Runtime;
use gomp_test_programs::planned::{Planned, PlannedAct, Within, critical_name};
use gomp_test_programs::regions::{plan_all, programs, run, variables};
use gomp_types::{Call, Refusal, Reply};
use std::alloc::{AllocError, Global};
use std::process::Abort;

/// One program: it holds lock 0 and a critical name while it forks a nested region, whose members try both, and set lock 1. Then it
/// takes lock 1, and gives up each of the three.
fn holder(alloc: Global) -> Result<Vec<Planned>, AllocError> {
    let plans = vec![in alloc;
        PlannedAct::Call(Call::LockInit),
        PlannedAct::Call(Call::LockInit),
        PlannedAct::Call(Call::Set(0)),
        PlannedAct::Call(Call::CriticalStart(critical_name())),
        PlannedAct::Nested,
        PlannedAct::Call(Call::Test(1)),
        PlannedAct::Call(Call::Unset(1)),
        PlannedAct::Call(Call::Unset(0)),
        PlannedAct::Call(Call::Unset(0)),
        PlannedAct::Call(Call::CriticalEnd(critical_name())),
        PlannedAct::Call(Call::CriticalEnd(critical_name())),
    ]?;
    let mut progs = programs(alloc, 1)?;
    plan_all(&mut progs, 0, plans)?;
    if let Some(prog) = progs.first_mut() {
        prog.within = Within::Tries;
    }
    Ok(progs)
}

/// What it is answered: lock 1 is free, and it owns lock 0 and the name until it gives them up.
fn replies_to_holder() -> [Reply; 12] {
    [
        Reply::Finished,
        Reply::Lock(0),
        Reply::Lock(1),
        Reply::Finished,
        Reply::Finished,
        Reply::Finished,
        Reply::Got(true),
        Reply::Finished,
        Reply::Finished,
        Reply::Refused(Refusal::NotHolder),
        Reply::Finished,
        Reply::Refused(Refusal::NotHolder),
    ]
}

/// What each member of the nested region is answered: lock 0 and the name are another's.
fn replies_within() -> [Reply; 6] {
    [
        Reply::Finished,
        Reply::Got(false),
        Reply::Refused(Refusal::NotHolder),
        Reply::Refused(Refusal::NotHolder),
        Reply::Finished,
        Reply::Finished,
    ]
}

/// That the program was answered these, and took two back, which were answered those.
fn has_heard(rt: &impl Abort, alloc: Global, prog: &Planned) {
    let replies = replies_to_holder();
    same_replies(rt, alloc, &prog.heard, &replies, "reply to holder");
    same(rt, &prog.theirs.len(), &2, "programs taken back", 0);
    let within = replies_within();
    for heard in &prog.theirs {
        same_replies(rt, alloc, heard, &within, "reply within");
    }
}

/// A member owns a lock and a critical name across a nested region that it forks: the members of that find both held, cannot give
/// them up, and leave free what they set and unset.
#[test]
fn holds_last_across_a_nested_region(rt: HostRuntime) {
    let alloc = rt.alloc();
    let icv = variables(alloc, &[("OMP_NUM_THREADS", "2")]).expect(&rt, AMPLE);
    let mut runtime = Runtime::new(alloc, icv);
    let progs = holder(alloc).expect(&rt, AMPLE);
    let outcome = run(&rt, alloc, &mut runtime, progs).expect(&rt, AMPLE);
    let report = report_of(&rt, outcome);
    same(&rt, &report.size, &1, "size", 0);
    let prog = report.progs.first().expect(&rt, "a program");
    has_heard(&rt, alloc, prog);
}

//! The regions of the tests: with which programs they are forked, and what comes of them.

use crate::planned::{Planned, PlannedAct};
use gomp_crew::Host;
use gomp_icv::{Icv, read_env};
use gomp_ompt::Counts;
use gomp_runtime::{CallGate, RegionFault, RegionRefusal, Report, Runtime};
use std::alloc::{AllocError, Global};
use std::sync::Arc;

/// What comes of the region of a test: its report, or why there is none.
pub type RegionResult = Result<Report<Planned, Counts>, RegionFault<Planned, Counts>>;

/// The control variables by these words of the environment, each a name with its value. The error is want of memory.
pub fn variables(alloc: Global, words: &[(&str, &str)]) -> Result<Icv, AllocError> {
    let (icv, _) = read_env(alloc, words)?;
    Ok(icv)
}

/// So many tools, which have counted nothing yet. The error is want of memory.
pub fn tools(alloc: Global, count: u64) -> Result<Vec<Counts>, AllocError> {
    let mut tools = Vec::new(alloc);
    for _ in 0..count {
        tools.push(Counts::new())?;
    }
    Ok(tools)
}

/// So many programs that plan nothing, marked from 0 in their order. The error is want of memory.
pub fn programs(alloc: Global, count: u64) -> Result<Vec<Planned>, AllocError> {
    let mut progs = Vec::new(alloc);
    for mark in 0..count {
        progs.push(Planned::new(alloc, mark))?;
    }
    Ok(progs)
}

/// Has the program of this number, from 0, plan this before all that it plans yet. If there is no such program, nothing changes.
/// The error is want of memory.
pub fn plan(progs: &mut Vec<Planned>, number: usize, act: PlannedAct) -> Result<(), AllocError> {
    if let Some(prog) = progs.get_mut(number) {
        prog.plans.push(act)?;
    }
    Ok(())
}

/// Has the program of this number, from 0, plan these, in their order, before all that it plans yet. If there is no such program,
/// nothing changes. The error is want of memory: then it may plan some of them, the last ones.
pub fn plan_all(
    progs: &mut Vec<Planned>,
    number: usize,
    acts: Vec<PlannedAct>,
) -> Result<(), AllocError> {
    for act in acts.into_iter().rev() {
        plan(progs, number, act)?;
    }
    Ok(())
}

/// Forks a region of `runtime` with these programs, and a tool for each. The error is want of memory for the tools, before there is a
/// region.
pub fn run<R: Host>(
    rt: &R,
    alloc: Global,
    runtime: &mut Runtime,
    progs: Vec<Planned>,
) -> Result<RegionResult, AllocError> {
    let tools = tools(alloc, progs.len() as u64)?;
    Ok(runtime.parallel(rt, alloc, progs, tools))
}

/// The same with a gate, which stands round each call of a member, and by a runtime of its own with the initial control variables.
pub fn run_with<G: CallGate + Send + Sync + 'static, R: Host>(
    rt: &R,
    alloc: Global,
    gate: Arc<G>,
    progs: Vec<Planned>,
) -> Result<RegionResult, AllocError> {
    let tools = tools(alloc, progs.len() as u64)?;
    let mut runtime = Runtime::new(alloc, Icv::initial());
    Ok(runtime.parallel_with(rt, alloc, gate, progs, tools))
}

/// Whether programs come in the order of their marks, from 0.
fn are_in_order(progs: &[Planned]) -> bool {
    for (place, prog) in progs.iter().enumerate() {
        if prog.mark != place as u64 {
            return false;
        }
    }
    true
}

/// What a region's fault names, its member and its refusal, and how many programs and tools it gives back. None of a report, and
/// of a fault whose programs do not come in the order of their marks, from 0.
pub fn fault_parts(outcome: RegionResult) -> Option<((u16, RegionRefusal), (u64, u64))> {
    let Err(fault) = outcome else {
        return None;
    };
    if !are_in_order(&fault.progs) {
        return None;
    }
    let RegionFault {
        member,
        refusal,
        progs,
        tools,
    } = fault;
    let counts = (progs.len() as u64, tools.len() as u64);
    Some(((member, refusal), counts))
}

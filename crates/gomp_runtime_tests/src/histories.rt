//! The history of a region is that of its own members.

use crate::checks::{AMPLE, same};
use crate::forks::{own_report_of, planned};
use gomp_crew::Host;
use gomp_events::{Arrival, Event, Tag};
use gomp_icv::Icv;
use gomp_test_programs::planned::{CODE, Planned, PlannedAct, task_desc};
use gomp_test_programs::regions::{plan, programs};
use gomp_types::{Call, EndKind, LoopDesc, Sched, Task, TaskDesc};
use std::alloc::Global;
use std::process::Abort;

/// Member 0 passes a barrier.
fn pass(barrier: u64) -> Event {
    Event::Pass { barrier, member: 0 }
}

/// It arrives there, before any share.
fn arrive(barrier: u64, kind: Arrival) -> Event {
    let tag = Tag { kind, shares: 0 };
    Event::Arrive {
        barrier,
        member: 0,
        tag,
    }
}

/// It creates task 1 in its implicit task.
fn create(desc: TaskDesc) -> Event {
    Event::Create {
        task: 1,
        member: 0,
        parent: Task::Implicit(0),
        desc,
    }
}

/// What the history of a single task is.
fn history_of_one_task(alloc: Global) -> [Event; 7] {
    [
        create(task_desc(alloc, 9)),
        arrive(0, Arrival::Barrier),
        Event::Start { task: 1, member: 0 },
        Event::Done { task: 1, member: 0 },
        pass(0),
        arrive(1, Arrival::RegionEnd),
        pass(1),
    ]
}

/// One program creates a task, goes to a barrier, executes the task there, resumes, and ends its region.
#[test]
fn one_task_leaves_its_history(rt: HostRuntime) {
    let alloc = rt.alloc();
    let mut progs = planned(&rt, alloc, 1, 0, PlannedAct::Call(Call::Barrier));
    let create = Call::TaskCreate(task_desc(alloc, 9));
    plan(&mut progs, 0, PlannedAct::Call(create)).expect(&rt, AMPLE);
    let report = own_report_of(&rt, alloc, Icv::initial(), progs);
    let expected = history_of_one_task(alloc);
    let history = report.history.as_slice();
    same(&rt, &history, &expected.as_slice(), "events", 0);
    same(&rt, &report.size, &1, "size", 0);
}

/// The tasks that the member of this number created (`created`) in a history, or started, in their order.
fn tasks_of(
    rt: &impl Abort,
    alloc: Global,
    history: &[Event],
    number: usize,
    created: bool,
) -> Vec<u32> {
    let mut tasks = Vec::new(alloc);
    for event in history {
        let (task, member) = match event {
            Event::Create { task, member, .. } if created => (*task, *member),
            Event::Start { task, member } if !created => (*task, *member),
            _ => continue,
        };
        if member as usize == number {
            tasks.push(task).expect(rt, AMPLE);
        }
    }
    tasks
}

/// So many programs, of which that of member m creates m + 1 tasks before a barrier.
fn programs_with_tasks(rt: &impl Abort, alloc: Global, count: usize) -> Vec<Planned> {
    let mut progs = programs(alloc, count as u64).expect(rt, AMPLE);
    for number in 0..count {
        let barrier = PlannedAct::Call(Call::Barrier);
        plan(&mut progs, number, barrier).expect(rt, AMPLE);
        for _ in 0..number + 1 {
            let create = Call::TaskCreate(task_desc(alloc, CODE));
            plan(&mut progs, number, PlannedAct::Call(create)).expect(rt, AMPLE);
        }
    }
    progs
}

/// That the program of this number was told of the tasks that its member created and started. How many each.
fn has_tasks(
    rt: &impl Abort,
    alloc: Global,
    history: &[Event],
    prog: &Planned,
    number: usize,
) -> (usize, usize) {
    let case = number as u64;
    same(rt, &prog.mark, &case, "place of program", case);
    let created = tasks_of(rt, alloc, history, number, true);
    same(rt, &prog.created, &created, "tasks created by", case);
    let started = tasks_of(rt, alloc, history, number, false);
    same(rt, &prog.started, &started, "tasks started by", case);
    (created.len(), started.len())
}

/// Of four programs, member m creates m + 1 tasks before a barrier: the numbers that it is told are those of its creations and starts
/// in the history, ten each over all.
#[test]
fn members_are_told_their_own_tasks(rt: HostRuntime) {
    let alloc = rt.alloc();
    let progs = programs_with_tasks(&rt, alloc, 4);
    let report = own_report_of(&rt, alloc, Icv::initial(), progs);
    let (mut creations, mut starts) = (0usize, 0usize);
    for (number, prog) in report.progs.iter().enumerate() {
        let (created, started) = has_tasks(&rt, alloc, &report.history, prog, number);
        creations = creations.saturating_add(created);
        starts = starts.saturating_add(started);
    }
    same(&rt, &(creations, starts), &(10, 10), "tasks of", 4);
}

/// The loop of these tests: 1,000 iterations, with a barrier at its end.
fn a_loop(sched: Sched, chunk: i64) -> LoopDesc {
    LoopDesc {
        start: 0,
        end: 1_000,
        incr: 1,
        sched,
        chunk,
        ordered: false,
        end_kind: EndKind::Wait,
    }
}

/// So many programs that each go through such a loop.
fn programs_with_loops(
    rt: &impl Abort,
    alloc: Global,
    size: u64,
    (sched, chunk): (Sched, i64),
) -> Vec<Planned> {
    let mut progs = programs(alloc, size).expect(rt, AMPLE);
    for number in 0..size as usize {
        let end = PlannedAct::Call(Call::LoopEnd);
        plan(&mut progs, number, end).expect(rt, AMPLE);
        let start = PlannedAct::Call(Call::LoopStart(a_loop(sched, chunk)));
        plan(&mut progs, number, start).expect(rt, AMPLE);
    }
    progs
}

/// The iterations that a report of so many members counts are those that each program was told to do, 1,000 in all.
fn count_iterations<R: Host + Abort>(rt: &R, alloc: Global, size: u64, kind: (Sched, i64)) {
    let progs = programs_with_loops(rt, alloc, size, kind);
    let report = own_report_of(rt, alloc, Icv::initial(), progs);
    let mut all = 0u64;
    for (taken, prog) in report.taken.iter().zip(report.progs.iter()) {
        let told = prog.iterations as u128;
        same(rt, taken, &told, "iterations of", prog.mark);
        all = prog.iterations.saturating_add(all);
    }
    let found = (all, report.taken.len() as u64);
    same(rt, &found, &(1_000, size), "iterations and counts of", size);
}

/// Schedules with their chunks; the last is left to the control variables.
const KINDS: &[(Sched, i64)] = &[(Sched::Dynamic, 3), (Sched::Static, 7), (Sched::Runtime, 0)];

#[test]
fn iterations_are_counted(rt: HostRuntime) {
    for kind in KINDS {
        for size in &[1, 2, 4] {
            count_iterations(&rt, rt.alloc(), *size, *kind);
        }
    }
}

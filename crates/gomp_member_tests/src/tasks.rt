//! Tasks that members create before a barrier: each is executed there, once, and stands in the history as its members were answered.

use crate::barriers::THE_END;
use crate::checks::same;
use crate::lines::{Answer, Ask, Line, walk_lines};
use crate::regions::{Outcome, add_mark, mark_at, run_region};
use crate::walkers::{TeamRing, TestMember};
use crate::ways::{Spot, Way};
use gomp_events::{Arrival, Event, Tag};
use gomp_team_book::HoldLedger;
use gomp_types::{Call, Deps, Reply, Task, TaskDesc};
use std::alloc::Global;
use std::process::Abort;
use std::sync::Wait;
use std::sync::atomic::AtomicU64;
use std::sync::ledger::Ledger;
use std::thread::Threads;

/// The code of each task.
pub(crate) const CODE: u64 = 7;

/// The most tasks that a member creates. The marks below so many times four count the executions of a task, by its argument.
const MOST: usize = 256;

/// Behind this mark the creator of each task marks itself, at the task's number, by its own number from 1.
const CREATED: usize = 1_024;

/// Behind this one its executor does.
const STARTED: usize = 2_048;

/// The description of a deferred task with this argument.
fn task_desc(alloc: Global, arg: u64) -> TaskDesc {
    TaskDesc {
        code: CODE,
        arg,
        undeferred: false,
        final_task: false,
        deps: Deps::new(alloc),
    }
}

/// The argument of the task of this member that it creates after so many others.
fn argument(number: usize, before: usize) -> usize {
    number.saturating_mul(MOST).saturating_add(before)
}

/// How many tasks the member of this number creates.
fn tasks_of(number: usize, (each, more): (u64, u64)) -> usize {
    each.saturating_add(more.saturating_mul(number as u64)) as usize
}

/// Marks the member at this task, behind this mark.
fn mark_task(spot: Spot<'_>, front: usize, task: u32) {
    let mark = front.saturating_add(task as usize);
    add_mark(spot.marks, mark, (spot.number as u64).saturating_add(1));
}

/// Marks the member as the creator of the task that it was answered after so many others.
fn mark_created(rt: &impl Abort, spot: Spot<'_>, before: usize, reply: &Reply) {
    match reply {
        Reply::Created(task) => mark_task(spot, CREATED, *task),
        reply => same(rt, reply, &Reply::Created(0), "creation", before as u64),
    }
}

/// The task that the member is handed at a barrier, which it marks. None once it has passed.
fn mark_started(rt: &impl Abort, spot: Spot<'_>, reply: &Reply) -> Option<u32> {
    match reply {
        Reply::Run {
            task,
            code: CODE,
            arg,
            own: false,
        } => {
            mark_task(spot, STARTED, *task);
            add_mark(spot.marks, *arg as usize, 1);
            Some(*task)
        }
        reply => {
            same(rt, reply, &Reply::Passed, "a barrier", 0);
            None
        }
    }
}

/// That each task of each member was executed once.
fn compare_executions(rt: &impl Abort, spot: Spot<'_>, numbers: (u64, u64)) {
    for number in 0..spot.count {
        for before in 0..tasks_of(number, numbers) {
            let times = mark_at(spot.marks, argument(number, before));
            let name = "executions of a task of member";
            same(rt, &times, &1, name, number as u64);
        }
    }
}

/// The member creates its tasks, executes what it is handed at a barrier, and goes to the region's end. When it has passed the
/// barrier each task of every member was executed once.
pub(crate) fn walk_tasks<L: Ledger, H: HoldLedger, F: Ledger, S: TeamRing, R: Wait + Abort>(
    rt: &R,
    alloc: Global,
    member: &mut TestMember<L, H, F, S>,
    spot: Spot<'_>,
    numbers: (u64, u64),
) {
    for before in 0..tasks_of(spot.number, numbers) {
        let desc = task_desc(alloc, argument(spot.number, before) as u64);
        let reply = member.call(rt, Call::TaskCreate(desc));
        mark_created(rt, spot, before, &reply);
    }
    execute_at_barrier(rt, alloc, member, spot);
    compare_executions(rt, spot, numbers);
    walk_lines(rt, alloc, member, spot, THE_END);
}

/// The member arrives at a barrier, and executes each task that it is handed until it has passed.
fn execute_at_barrier<L: Ledger, H: HoldLedger, F: Ledger, S: TeamRing, R: Wait + Abort>(
    rt: &R,
    alloc: Global,
    member: &mut TestMember<L, H, F, S>,
    spot: Spot<'_>,
) {
    let mut handed = mark_started(rt, spot, &member.call(rt, Call::Barrier));
    for _ in rt.forever() {
        let Some(task) = handed else {
            return;
        };
        let done = Answer::Done {
            task,
            waiting: true,
        };
        let end = Line::Call(Ask::EndTask, done, "the end of a task");
        walk_lines(rt, alloc, member, spot, &[end]);
        handed = mark_started(rt, spot, &member.resume(rt));
    }
}

/// A single task, of a team of one.
pub(crate) const ONE_TASK: &[Line] = &[
    Line::Call(
        Ask::Create {
            undeferred: false,
            item: None,
        },
        Answer::Created(1),
        "a creation",
    ),
    Line::Call(
        Ask::Barrier,
        Answer::Run {
            task: 1,
            own: false,
        },
        "a barrier",
    ),
    Line::Call(
        Ask::EndTask,
        Answer::Done {
            task: 1,
            waiting: true,
        },
        "the end of a task",
    ),
    Line::Call(Ask::Resume, Answer::Passed, "a barrier"),
];

/// The arrival of member 0 at a barrier, before any share.
fn arrive(barrier: u64, kind: Arrival) -> Event {
    Event::Arrive {
        barrier,
        member: 0,
        tag: Tag { kind, shares: 0 },
    }
}

/// What the history of that region is.
fn history_of_one_task(alloc: Global) -> [Event; 7] {
    [
        Event::Create {
            task: 1,
            member: 0,
            parent: Task::Implicit(0),
            desc: task_desc(alloc, 9),
        },
        arrive(0, Arrival::Barrier),
        Event::Start { task: 1, member: 0 },
        Event::Done { task: 1, member: 0 },
        Event::Pass {
            barrier: 0,
            member: 0,
        },
        arrive(1, Arrival::RegionEnd),
        Event::Pass {
            barrier: 1,
            member: 0,
        },
    ]
}

#[test]
fn one_task_leaves_its_history(rt: HostRuntime) {
    let outcome = run_region(&rt, rt.alloc(), 1, Way::OneTask);
    let expected = history_of_one_task(rt.alloc());
    let history = outcome.settled.expect(&rt, "a history");
    same(&rt, &history.as_slice(), &expected.as_slice(), "events", 0);
}

/// That the member of this number made what another one told by the mark of this task, behind this mark.
fn compare_mark(
    rt: &impl Abort,
    marks: &[AtomicU64],
    (front, task): (usize, u32),
    member: u16,
    name: &str,
) {
    let found = mark_at(marks, front.saturating_add(task as usize));
    same(rt, &found, &(member as u64 + 1), name, task as u64);
}

/// So many creations and starts a history has; each by the member that was answered so.
fn creations_and_starts(rt: &impl Abort, history: &[Event], marks: &[AtomicU64]) -> (u64, u64) {
    let (mut creations, mut starts) = (0u64, 0u64);
    for event in history {
        match event {
            Event::Create { task, member, .. } => {
                compare_mark(rt, marks, (CREATED, *task), *member, "creator of");
                creations = creations.saturating_add(1);
            }
            Event::Start { task, member } => {
                compare_mark(rt, marks, (STARTED, *task), *member, "executor of");
                starts = starts.saturating_add(1);
            }
            _ => {}
        }
    }
    (creations, starts)
}

/// A team of so many members, of which each creates so many tasks and so many more for each member before it: all in all so many.
fn execute_tasks<R: Threads + Wait + Abort + Sync>(
    rt: &R,
    alloc: Global,
    members: u16,
    (each, more): (u64, u64),
    all: u64,
) {
    let outcome = run_region(rt, alloc, members, Way::Tasks { each, more });
    let Outcome { marks, settled } = outcome;
    let history = settled.expect(rt, "a history");
    let found = creations_and_starts(rt, &history, &marks);
    let name = "creations and starts of";
    same(rt, &found, &(all, all), name, members as u64);
}

/// Of four members member m creates m + 1 tasks, ten in all; then of two and of four each creates 200.
#[test]
fn tasks_are_executed_at_the_barrier(rt: HostRuntime) {
    execute_tasks(&rt, rt.alloc(), 4, (1, 1), 10);
    execute_tasks(&rt, rt.alloc(), 2, (200, 0), 400);
    execute_tasks(&rt, rt.alloc(), 4, (200, 0), 800);
}

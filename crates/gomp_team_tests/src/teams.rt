//! Teams of `gomp_core` called as a library: teams with lower limits, and teams at the places where a caller may
//! keep them.

use crate::checks::{AMPLE, same};
use gomp_core::Team;
use gomp_icv::Icv;
use gomp_share_ring::RingAll;
use gomp_test_data::LOOP;
use gomp_types::{Call, Deps, EndKind, Limits, LoopDesc, Refusal, Reply, TaskDesc};
use std::alloc::Global;
use std::process::Abort;
use std::sync::Mutex;

/// A loop of one iteration, without a barrier.
const SHORT_LOOP: LoopDesc = LoopDesc {
    end: 1,
    chunk: 1,
    end_kind: EndKind::Nowait,
    ..LOOP
};

/// That a member alone is answered so, whose team has this limit; `case` is the number of the call.
fn is_answered(
    rt: &impl Abort,
    team: &mut Team<RingAll>,
    call: Call,
    expected: Reply,
    name: &str,
    case: u64,
) {
    same(rt, team.step(0, call), expected, name, case);
}

/// What a member alone is answered that starts one share more than the team's limit, with what came before.
fn one_share_too_many(rt: &impl Abort, alloc: Global) {
    let limits = Limits {
        shares: 1,
        tasks: 0,
        events: 0,
    };
    let mut team: Team<RingAll> = Team::with_limits(alloc, 1, Icv::initial(), limits).expect(
        rt, AMPLE,
    );
    starts_one_share(rt, &mut team);
    drop(team);
}

/// That a member of such a team starts one share, and no other one.
fn starts_one_share(rt: &impl Abort, team: &mut Team<RingAll>) {
    let name = "reply at a limit";
    let chunk = Reply::Chunk { first: 0, count: 1 };
    is_answered(rt, team, Call::LoopStart(SHORT_LOOP), chunk, name, 1);
    is_answered(rt, team, Call::LoopNext, Reply::NoChunk, name, 2);
    is_answered(rt, team, Call::LoopEndNowait, Reply::Finished, name, 3);
    let refused = Reply::Refused(Refusal::TooManyShares);
    is_answered(rt, team, Call::LoopStart(SHORT_LOOP), refused, name, 4);
}

/// The call that creates a task.
fn task_create(alloc: Global) -> Call {
    Call::TaskCreate(TaskDesc {
        code: 5,
        arg: 9,
        undeferred: false,
        final_task: false,
        deps: Deps::new(alloc),
    })
}

/// What a member alone is answered whose team creates one task and stores six events at most: a task asks for room for
/// three, a barrier for two, and the team is made with three. No more is asked for at the region's end, nor by the task.
fn one_task_and_six_events(rt: &impl Abort, alloc: Global) {
    let limits = Limits {
        shares: 0,
        tasks: 1,
        events: 6,
    };
    let mut team: Team<RingAll> = Team::with_limits(alloc, 1, Icv::initial(), limits).expect(
        rt, AMPLE,
    );
    creates_one_task(rt, alloc, &mut team);
    drop(team);
}

/// That a member of such a team creates one task, and executes it at the region's end.
fn creates_one_task(rt: &impl Abort, alloc: Global, team: &mut Team<RingAll>) {
    let name = "reply at limits";
    is_answered(rt, team, task_create(alloc), Reply::Created(1), name, 1);
    let refused = Reply::Refused(Refusal::TooManyTasks);
    is_answered(rt, team, task_create(alloc), refused, name, 2);
    let refused = Reply::Refused(Refusal::TraceFull);
    is_answered(rt, team, Call::Barrier, refused, name, 3);
    let run = Reply::Run {
        task: 1,
        code: 5,
        arg: 9,
        own: false,
    };
    is_answered(rt, team, Call::RegionEnd, run, name, 4);
    let done = Reply::TaskDone {
        task: 1,
        waiting: true,
    };
    is_answered(rt, team, Call::TaskEnd, done, name, 5);
    is_answered(rt, team, Call::Resume, Reply::Passed, name, 6);
}

/// Teams at the places where a caller may keep them.
#[derive(Drop)]
struct Pool {
    listed: Vec<Team<RingAll>>,
    boxed: Option<Box<Team<RingAll>>>,
}

impl Pool {
    fn step(&mut self, index: usize, member: u16, call: Call) -> Option<Reply> {
        if let Some(team) = self.listed.get_mut(index) {
            return Some(team.step(member, call));
        }
        let Some(team) = self.boxed.as_deref_mut() else {
            drop(call);
            return None;
        };
        Some(team.step(member, call))
    }
}

/// A team of this size.
fn team_of(rt: &impl Abort, alloc: Global, count: u16) -> Team<RingAll> {
    Team::new(alloc, count, Icv::initial()).expect(rt, AMPLE)
}

/// A team of two members in a box, and one of one in a list.
fn pool_of(rt: &impl Abort, alloc: Global) -> Pool {
    let boxed = Box::new(alloc, team_of(rt, alloc, 2)).expect(rt, AMPLE);
    let listed = vec![in alloc; team_of(rt, alloc, 1)].expect(rt, AMPLE);
    Pool {
        listed,
        boxed: Some(boxed),
    }
}

/// That teams in a list and in a box answer.
fn listed_and_boxed(rt: &impl Abort, alloc: Global) {
    let mut pool = pool_of(rt, alloc);
    let listed = pool.step(0, 0, Call::Barrier);
    same(rt, listed, Some(Reply::Passed), "listed", 1);
    let boxed = pool.step(1, 0, Call::Barrier);
    same(rt, boxed, Some(Reply::Wait), "boxed", 2);
    drop(pool);
}

#[test]
fn limits_and_places(rt: HostRuntime) {
    let alloc = rt.alloc();
    one_share_too_many(&rt, alloc);
    one_task_and_six_events(&rt, alloc);
    listed_and_boxed(&rt, alloc);
    let locked = Mutex::new(team_of(&rt, alloc, 1));
    let mut guard = locked.lock(&rt);
    let reply = guard.step(0, Call::RegionEnd);
    drop(guard);
    drop(locked);
    same(&rt, reply, Reply::Passed, "locked", 1);
}

//! Sizes at which nothing may give up: what takes memory may answer that it had none, and no clause says that it had.

use crate::checks::{AMPLE, same};
use gomp_core::Team;
use gomp_icv::{Icv, child_icv, read_env};
use gomp_share_ring::RingAll;
use gomp_types::{Call, CancelKind, Limits, Refusal, Reply};
use std::alloc::Global;
use std::process::Abort;

/// That the members of a team of this size, which has so many of what is limited, meet: at a barrier, or, if its events
/// are too few to meet there, at the region's end.
fn meet(rt: &impl Abort, alloc: Global, count: u16, number: u32) {
    let limits = Limits {
        shares: number,
        tasks: number,
        events: number,
    };
    // A team within one of that many members: of more than one member that is an active level.
    let initial = Icv::initial();
    let icv = child_icv(&initial, count as u32);
    drop(initial);
    let mut team: Team<RingAll> = Team::with_limits(alloc, count, icv, limits).expect(rt, AMPLE);
    all_meet(rt, &mut team, count, number < u32::MAX);
    drop(team);
}

/// That the members of such a team meet, which is full if it has too few events for a barrier.
fn all_meet(rt: &impl Abort, team: &mut Team<RingAll>, count: u16, is_full: bool) {
    if is_full {
        let reply = team.step(0, Call::Barrier);
        let expected = Reply::Refused(Refusal::TraceFull);
        same(rt, reply, expected, "a full team of", count as u64);
    }
    for member in 1..count {
        let reply = team.step(member, arrival(is_full));
        same(rt, reply, Reply::Wait, "a team of", count as u64);
    }
    let reply = team.step(0, arrival(is_full));
    same(rt, reply, Reply::Passed, "a team of", count as u64);
}

/// The call of a member of a team that has no room for the events of a barrier, or has it.
fn arrival(is_full: bool) -> Call {
    if is_full {
        Call::RegionEnd
    } else {
        Call::Barrier
    }
}

/// That a member of a team of this size cancels the region, if there is room for one more event than the team is made with,
/// and that all then leave it.
fn leave(rt: &impl Abort, alloc: Global, count: u16, is_full: bool) {
    let made_with = 2 * count as u32 + 1;
    let limits = Limits {
        shares: 0,
        tasks: 0,
        events: if is_full { made_with } else { made_with + 1 },
    };
    let icv = cancellable(rt, alloc);
    let mut team: Team<RingAll> = Team::with_limits(alloc, count, icv, limits).expect(rt, AMPLE);
    all_leave(rt, &mut team, count, is_full);
    drop(team);
}

/// Control variables by which a region can be cancelled.
fn cancellable(rt: &impl Abort, alloc: Global) -> Icv {
    let (icv, ignored) = read_env(alloc, &[("OMP_CANCELLATION", "true")]).expect(rt, AMPLE);
    drop(ignored);
    icv
}

/// That member 0 of such a team cancels the region, which is refused if the team is full, and that all then leave it.
fn all_leave(rt: &impl Abort, team: &mut Team<RingAll>, count: u16, is_full: bool) {
    let reply = team.step(0, cancel_region());
    let expected = if is_full {
        Reply::Refused(Refusal::TraceFull)
    } else {
        Reply::Cancelling(true)
    };
    same(rt, reply, expected, "cancelled by one of", count as u64);
    for member in 1..count {
        let reply = team.step(member, Call::Point(CancelKind::Parallel));
        let expected = Reply::Cancelling(!is_full);
        same(rt, reply, expected, "seen by all of", count as u64);
        let reply = team.step(member, Call::RegionEnd);
        same(rt, reply, Reply::Wait, "left by some of", count as u64);
    }
    let reply = team.step(0, Call::RegionEnd);
    same(rt, reply, Reply::Passed, "left by all of", count as u64);
}

/// The call that cancels the region.
fn cancel_region() -> Call {
    Call::Cancel {
        kind: CancelKind::Parallel,
        clause: true,
    }
}

#[test]
fn nothing_gives_up(rt: HostRuntime) {
    for count in 1..=64 {
        for number in &[0, 1, u32::MAX] {
            meet(&rt, rt.alloc(), count, *number);
        }
        for is_full in [false, true] {
            leave(&rt, rt.alloc(), count, is_full);
        }
    }
}

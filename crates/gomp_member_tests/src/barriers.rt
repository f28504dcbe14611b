//! Barriers and the region's end, with no task at them.

use crate::checks::same;
use crate::lines::{Answer, Ask, Line};
use crate::regions::run_region;
use crate::ways::Way;
use std::alloc::Global;
use std::process::Abort;
use std::sync::Wait;
use std::thread::Threads;

/// So many barriers the members of a test pass.
const ROUNDS: u64 = 3_000;

/// The member passes a barrier, where no task is.
pub(crate) const BARRIER: &[Line] = &[Line::Call(Ask::Barrier, Answer::Passed, "a barrier")];

/// The member goes to the region's end, where no task is.
pub(crate) const THE_END: &[Line] = &[Line::Call(
    Ask::RegionEnd,
    Answer::Passed,
    "the region's end",
)];

/// Each member of a team of so many arrives at each of so many barriers and passes it, and the region ends: no more happens.
fn pass_barriers<R: Threads + Wait + Abort + Sync>(
    rt: &R,
    alloc: Global,
    members: u16,
    rounds: u64,
) {
    let outcome = run_region(rt, alloc, members, Way::Barriers(rounds));
    let each = rounds.saturating_add(1).saturating_mul(2);
    let expected = each.saturating_mul(members as u64);
    same(
        rt,
        &outcome.events(),
        &expected,
        "events of",
        members as u64,
    );
}

#[test]
fn members_pass_empty_barriers(rt: HostRuntime) {
    for members in &[1, 2, 4] {
        pass_barriers(&rt, rt.alloc(), *members, ROUNDS);
    }
}

/// A team of each size that there is ends.
#[test]
fn teams_of_every_size_settle(rt: HostRuntime) {
    for members in 1..65 {
        pass_barriers(&rt, rt.alloc(), members, 0);
    }
}

//! Critical names and locks: of what they guard no step of another member is lost.

use crate::checks::same;
use crate::lines::{Answer, Ask, Line};
use crate::regions::run_region;
use crate::ways::Way;
use std::alloc::Global;
use std::process::Abort;
use std::sync::Wait;
use std::thread::Threads;

/// So often each member of a test enters.
const ROUNDS: u64 = 400;

/// The member enters the critical construct of a name.
pub(crate) const NAME: &[Line] = &[
    Line::Call(Ask::Enter(b"one"), Answer::Finished, "a name"),
    Line::AddsSlowly,
    Line::Call(Ask::Leave(b"one"), Answer::Finished, "the end of a name"),
];

/// Member 0 makes a simple lock, and all meet at a barrier then.
pub(crate) const MAKE_LOCK: &[Line] = &[
    Line::Call(Ask::MakeLock, Answer::Lock, "the making of a lock"),
    Line::Call(Ask::Barrier, Answer::Passed, "a barrier"),
];

/// The member sets the simple lock.
pub(crate) const LOCK: &[Line] = &[
    Line::Call(Ask::Set, Answer::Finished, "a lock"),
    Line::AddsSlowly,
    Line::Call(Ask::Unset, Answer::Finished, "the end of a lock"),
];

/// Member 0 makes a nestable lock, and all meet at a barrier then.
pub(crate) const MAKE_NEST: &[Line] = &[
    Line::Call(Ask::MakeNest, Answer::Lock, "the making of a lock"),
    Line::Call(Ask::Barrier, Answer::Passed, "a barrier"),
];

/// The member sets the nestable lock twice.
pub(crate) const NEST: &[Line] = &[
    Line::Call(Ask::SetNest, Answer::Count(1), "a nestable lock"),
    Line::Call(Ask::SetNest, Answer::Count(2), "it again"),
    Line::AddsSlowly,
    Line::Call(Ask::UnsetNest, Answer::Count(1), "its end"),
    Line::AddsSlowly,
    Line::Call(Ask::UnsetNest, Answer::Count(0), "its last end"),
];

/// Teams of two members and of four, under a name, a lock, and a nestable lock, and how many steps each member makes.
const CASES: &[(u16, Way, u64)] = &[
    (2, Way::Names(ROUNDS), ROUNDS),
    (2, Way::Locks(ROUNDS), ROUNDS),
    (2, Way::Nests(ROUNDS), 2 * ROUNDS),
    (4, Way::Names(ROUNDS), ROUNDS),
    (4, Way::Locks(ROUNDS), ROUNDS),
    (4, Way::Nests(ROUNDS), 2 * ROUNDS),
];

/// No step is lost of so many members that go this way, each by so many steps.
fn exclude<R: Threads + Wait + Abort + Sync>(
    rt: &R,
    alloc: Global,
    members: u16,
    way: Way,
    each: u64,
) {
    let outcome = run_region(rt, alloc, members, way);
    let expected = each.saturating_mul(members as u64);
    let found = (outcome.mark(0), outcome.settled.is_ok());
    same(rt, &found, &(expected, true), "steps of", members as u64);
}

#[test]
fn names_and_locks_exclude(rt: HostRuntime) {
    for (members, way, each) in CASES {
        exclude(&rt, rt.alloc(), *members, *way, *each);
    }
}

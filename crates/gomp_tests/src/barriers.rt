//! The barriers of a team, called as a library.

ghost use Rattle.std.specs.Prelude.{◌≡◌, ◌<◌};
ghost use Rattle.gomp_barrier.specs.Stands.{barrier_members};

use crate::checks::{AMPLE, same};
use gomp_barrier::{AtBarrier, Barriers};
use gomp_events::{Arrival, Tag};
use std::alloc::Global;
use std::process::Abort;

/// What a member does at its next barrier.
#[derive(Clone, Copy)]
enum Act {
    Arrive(Tag),
    Turn,
    /// It cancels the region.
    Cancel,
}

// A member of the team, what it does, the answer, and what it sees then: the barrier's number and tag,
// with which tag it has arrived, and whether it has left the region.
type Line = (u16, Act, bool, (u64, Option<Tag>, Option<Tag>, bool));

/// The member does this, and gets this answer.
fn answer(barriers: &mut Barriers, member: u16, act: Act) -> bool
    requires member { member < barrier_members barriers.old }
    ensures members { barrier_members barriers.new ≡ barrier_members barriers.old }
{
    match act {
        Act::Arrive(tag) => barriers.arrive(member, tag),
        Act::Turn => barriers.turn(member),
        Act::Cancel => {
            barriers.cancel();
            true
        }
    }
}

/// A new team of two goes through these lines.
fn walk(rt: &impl Abort, alloc: Global, name: &str, lines: &[Line]) {
    let mut barriers = Barriers::new(alloc, 2).expect(rt, AMPLE);
    for (number, line) in lines.iter().enumerate() {
        let member = line.0.min(1);
        let (barrier, tag, arrived, left) = line.3;
        let seen = AtBarrier {
            number: barrier,
            tag,
            arrived,
            left,
        };
        let found = answer(&mut barriers, member, line.1);
        let found = (found, barriers.look(member));
        same(rt, found, (line.2, seen), name, number as u64);
    }
    drop(barriers);
}

/// A team of so many meets at a barrier: nobody passes before all have arrived, and then all do.
fn meet(rt: &impl Abort, alloc: Global, count: u16)
    requires some { 0 < count }
{
    let mut barriers = Barriers::new(alloc, count).expect(rt, AMPLE);
    for member in 0..count {
        let arrived = answer(&mut barriers, member, Act::Arrive(BARRIER));
        let passed = answer(&mut barriers, 0, Act::Turn);
        let expected = (true, member == count - 1);
        same(rt, (arrived, passed), expected, "arrival of", member as u64);
    }
    for member in 1..count {
        let passed = answer(&mut barriers, member, Act::Turn);
        same(rt, passed, true, "turn of", member as u64);
    }
    drop(barriers);
}

const BARRIER: Tag = Tag {
    kind: Arrival::Barrier,
    shares: 0,
};

const END: Tag = Tag {
    kind: Arrival::RegionEnd,
    shares: 1,
};

const OTHER: Tag = Tag {
    kind: Arrival::RegionEnd,
    shares: 0,
};

const AT: Option<Tag> = Some(BARRIER);

const LAST: Option<Tag> = Some(END);

const OTHER_LAST: Option<Tag> = Some(OTHER);

/// A barrier opens when all are there.
const BARRIERS: &[Line] = &[
    (0, Act::Arrive(BARRIER), true, (0, AT, AT, false)),
    (0, Act::Turn, false, (0, AT, AT, false)),
    (1, Act::Arrive(BARRIER), true, (0, AT, AT, false)),
    (1, Act::Turn, true, (1, None, None, false)),
    (1, Act::Arrive(BARRIER), true, (1, AT, AT, false)),
    (1, Act::Turn, false, (1, AT, AT, false)),
    (0, Act::Turn, true, (1, AT, None, false)),
    (1, Act::Turn, false, (1, AT, AT, false)),
];

/// A barrier takes one tag, and the region's end leaves the region.
const ENDS: &[Line] = &[
    (1, Act::Arrive(END), true, (0, LAST, LAST, false)),
    (0, Act::Arrive(OTHER), false, (0, LAST, None, false)),
    (0, Act::Arrive(END), true, (0, LAST, LAST, false)),
    (0, Act::Turn, true, (1, None, None, true)),
    (1, Act::Turn, true, (1, None, None, true)),
];

/// Once the region is cancelled nobody passes a barrier, and each member arrives at the region's end alone, with any tag,
/// and passes it once.
const CANCELLED: &[Line] = &[
    (0, Act::Arrive(BARRIER), true, (0, AT, AT, false)),
    (1, Act::Cancel, true, (0, AT, None, false)),
    (0, Act::Turn, false, (0, AT, AT, false)),
    (1, Act::Arrive(BARRIER), false, (0, AT, None, false)),
    (1, Act::Arrive(END), true, (0, LAST, LAST, false)),
    (1, Act::Turn, false, (0, LAST, LAST, false)),
    (
        0,
        Act::Arrive(OTHER),
        true,
        (0, OTHER_LAST, OTHER_LAST, false),
    ),
    (0, Act::Turn, true, (1, None, None, true)),
    (0, Act::Turn, false, (1, None, None, true)),
    (0, Act::Arrive(END), false, (1, None, None, true)),
    (1, Act::Turn, true, (1, None, None, true)),
];

#[test]
fn barriers_open(rt: HostRuntime) {
    let alloc = rt.alloc();
    walk(&rt, alloc, "a barrier opens: line", BARRIERS);
    walk(&rt, alloc, "the region's end: line", ENDS);
    walk(&rt, alloc, "a cancelled region: line", CANCELLED);
    // No team is larger than 64, but barriers are made for as many as are asked for.
    for count in 1..67 {
        meet(&rt, alloc, count);
    }
    for count in &[255, 256, 65_535] {
        drop(Barriers::new(alloc, *count).expect(&rt, AMPLE));
    }
}

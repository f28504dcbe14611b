//! Teams of several sizes on one thread, of which all members walk through constructs of each kind.

use crate::checks::{AMPLE, same};
use crate::constructs::{Construct, What, construct_of, single};
use crate::members::{open_next, split_next};
use crate::team::{Team, compare_totals, gathered, new_team};
use gomp_ring::{Entry, Piece, Ring};
use gomp_test_data::LOOP;
use gomp_types::{EndKind, LoopDesc, MAX_TRIPS, Sched, Shape, ShareKind, is_team_size};
use std::alloc::Global;
use std::process::Abort;

/// The piece from this iteration on, of so many, in a share of so many iterations; none if nothing is left there.
fn piece_from(first: u64, count: u64, trips: u64) -> Piece {
    if first >= trips || count == 0 {
        return Piece::NONE;
    }
    Piece {
        first,
        end: first.saturating_add(count).min(trips),
    }
}

/// How many iterations member `member` of a team has of a static loop without a chunk.
fn even_count(trips: u64, members: u64, member: u64) -> u64 {
    let rest = trips.checked_rem(members).unwrap_or(0);
    let more = if member < rest { 1 } else { 0 };
    trips.checked_div(members).unwrap_or(0).saturating_add(more)
}

/// The first of them: those of the members before it come first.
fn even_first(trips: u64, members: u64, member: u64) -> u64 {
    let rest = trips.checked_rem(members).unwrap_or(0);
    let each = trips.checked_div(members).unwrap_or(0);
    member.saturating_mul(each).saturating_add(member.min(rest))
}

/// What a member is answered that asks for its piece number `round`, from 0, after so many iterations were dealt.
fn expected(shape: &Shape, members: u64, member: u64, round: u64, dealt: u64) -> Piece {
    let trips = shape.trips;
    match shape.kind {
        ShareKind::StaticChunked => {
            let number = round.saturating_mul(members).saturating_add(member);
            piece_from(number.saturating_mul(shape.chunk), shape.chunk, trips)
        }
        ShareKind::StaticEven => {
            if round > 0 {
                return Piece::NONE;
            }
            let first = even_first(trips, members, member);
            piece_from(first, even_count(trips, members, member), trips)
        }
        ShareKind::Guided => {
            let left = trips.saturating_sub(dealt);
            let part = left.saturating_add(members.saturating_sub(1));
            let part = part.checked_div(members).unwrap_or(0);
            piece_from(dealt, part.max(shape.chunk), trips)
        }
        _ => piece_from(dealt, shape.chunk, trips),
    }
}

/// Each member in turn asks for one piece. How many iterations were dealt after it, if that many were before.
fn deal(
    rt: &impl Abort,
    team: &mut Team,
    shape: &Shape,
    members: u64,
    round: u64,
    before: u64,
) -> u64 {
    let mut dealt = before;
    for member in 0..members {
        let piece = team.claim(member as usize);
        let wanted = expected(shape, members, member, round, dealt);
        same(rt, &piece, &wanted, "a piece of member", member);
        dealt = dealt.saturating_add(piece.end.saturating_sub(piece.first));
    }
    dealt
}

/// All members walk through a construct: each opens it, they claim in turn until nothing is left, and each leaves.
fn walk(rt: &impl Abort, team: &mut Team, members: u64, construct: &Construct, case: u64) {
    for member in 0..members {
        let entry = team.open(member as usize, construct);
        same(rt, &entry, &Some(Entry::Entered), "opening construct", case);
    }
    let mut dealt = 0;
    for round in 0..1_000_000 {
        let before = dealt;
        dealt = deal(rt, team, &construct.shape, members, round, before);
        if dealt == before {
            break;
        }
    }
    same(
        rt,
        &dealt,
        &construct.shape.trips,
        "iterations of construct",
        case,
    );
    for member in 0..members {
        let left = team.leave(member as usize);
        same(rt, &left, &true, "leaving construct", case);
    }
}

/// Loops of each schedule, with chunks and without, sections, and a `single`.
const CONSTRUCTS: &[What] = &[
    What::Loop(LoopDesc {
        end: 1_000,
        sched: Sched::Static,
        ..LOOP
    }),
    What::Loop(LoopDesc {
        end: 10,
        sched: Sched::Static,
        ..LOOP
    }),
    What::Loop(LoopDesc {
        end: 1_000,
        sched: Sched::Static,
        chunk: 3,
        ..LOOP
    }),
    What::Loop(LoopDesc {
        end: 1_000,
        chunk: 3,
        ..LOOP
    }),
    What::Loop(LoopDesc {
        end: 1_000,
        sched: Sched::Guided,
        ..LOOP
    }),
    What::Loop(LoopDesc {
        end: 1_000,
        sched: Sched::Guided,
        chunk: 7,
        ..LOOP
    }),
    What::Loop(LOOP),
    // the most iterations
    What::Loop(LoopDesc {
        end: MAX_TRIPS as i64,
        chunk: 1 << 37,
        ..LOOP
    }),
    What::Loop(LoopDesc {
        end: MAX_TRIPS as i64,
        chunk: MAX_TRIPS as i64,
        ..LOOP
    }),
    What::Loop(LoopDesc {
        end: MAX_TRIPS as i64,
        sched: Sched::Guided,
        ..LOOP
    }),
    What::Loop(LoopDesc {
        end: MAX_TRIPS as i64,
        sched: Sched::Static,
        ..LOOP
    }),
    What::Loop(LoopDesc {
        end: MAX_TRIPS as i64,
        sched: Sched::Static,
        chunk: (1 << 33) - 1,
        ..LOOP
    }),
    // from the largest value down to the least
    What::Loop(LoopDesc {
        start: i64::MAX,
        end: i64::MIN,
        incr: -(1 << 25),
        chunk: (1 << 37) + 1,
        end_kind: EndKind::Cancellable,
        ..LOOP
    }),
    What::Sections(0),
    What::Sections(1),
    What::Sections(100),
    What::Sections(65_536),
    What::Single,
];

/// The numbers of iterations of the loops among them, added up.
const ALL_TRIPS: u128 = 5_010 + 6 * (1 << 39);

/// The constructs of a team of so many, and what they come to.
fn walk_all(rt: &impl Abort, alloc: Global, members: u16) {
    assert!(rt; is_team_size(members));
    let mut team = new_team(alloc, members).expect(rt, AMPLE);
    for (number, what) in CONSTRUCTS.iter().enumerate() {
        let construct = construct_of(what).expect(rt, "a construct");
        walk(rt, &mut team, members as u64, &construct, number as u64);
    }
    compare_totals(rt, &gathered(rt, alloc, team), 18, ALL_TRIPS, members);
}

/// The seats of a team have the numbers of its members, and no more are split.
fn splits(rt: &impl Abort, alloc: Global, members: u16) {
    assert!(rt; is_team_size(members));
    let (ring, mut first) = Ring::new(alloc, members).expect(rt, AMPLE);
    for member in 1..members {
        let seat = split_next(&ring, &mut first);
        same(rt, &seat, &Some(member), "a seat of", members as u64);
    }
    let more = (first.member(), split_next(&ring, &mut first));
    same(rt, &more, &(0, None), "one more seat of", members as u64);
}

/// No seat is split once a member has entered a share.
fn splits_before_entries(rt: &impl Abort, alloc: Global, members: u16) {
    assert!(rt; is_team_size(members));
    let one = single().expect(rt, "a single");
    let (ring, mut first) = Ring::new(alloc, members).expect(rt, AMPLE);
    let entry = open_next(&ring, &mut first, &one);
    let entered = (entry, split_next(&ring, &mut first));
    let expected = (Some(Entry::Entered), None);
    same(
        rt,
        &entered,
        &expected,
        "a seat after an entry of",
        members as u64,
    );
}

#[test]
fn teams_walk_through_constructs(rt: HostRuntime) {
    let alloc = rt.alloc();
    for members in &[1, 2, 63, 64] {
        splits(&rt, alloc, *members);
        splits_before_entries(&rt, alloc, *members);
        walk_all(&rt, alloc, *members);
    }
}

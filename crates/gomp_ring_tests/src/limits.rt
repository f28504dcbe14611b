//! Long runs of a team of two: rounds of the ring that wrap, and many claims of one loop. Memory that is refused once is asked for
//! again.

use crate::checks::{AMPLE, same};
use crate::constructs::{What, loop_of};
use crate::rows::{Case, ENTERS, Line, Part, WAITS, walk, walk_case};
use crate::team::{Team, compare_sums, new_team};
use gomp_ring::Piece;
use gomp_test_data::LOOP;
use gomp_types::{EndKind, LoopDesc, MAX_TRIPS, OPEN_SHARES};
use std::alloc::Global;
use std::process::Abort;

/// More shares than the rounds of a gate count.
const SHARES: u64 = 140_000;

/// A loop of one iteration.
const ONE: What = What::Loop(LoopDesc {
    end: 1,
    end_kind: EndKind::Nowait,
    ..LOOP
});

const LONGEST: LoopDesc = LoopDesc {
    end: MAX_TRIPS as i64,
    ..LOOP
};

/// Member 0 walks through eight loops of one iteration, which are the next ones of its team: it takes the iteration of each.
const FIRST_LEADS: Part = Part {
    what: ONE,
    times: OPEN_SHARES,
    lines: &[
        (0, ENTERS),
        (0, Line::Claims(0, 1)),
        (0, Line::Claims(0, 0)),
        (0, Line::Leaves(true)),
    ],
};

/// Member 1 walks through eight loops after the other, which took the iteration of each.
const SECOND_FOLLOWS: Part = Part {
    what: ONE,
    times: OPEN_SHARES,
    lines: &[
        (1, ENTERS),
        (1, Line::Claims(0, 0)),
        (1, Line::Leaves(true)),
    ],
};

/// Member 1 likewise.
const SECOND_LEADS: Part = Part {
    what: ONE,
    times: OPEN_SHARES,
    lines: &[
        (1, ENTERS),
        (1, Line::Claims(0, 1)),
        (1, Line::Claims(0, 0)),
        (1, Line::Leaves(true)),
    ],
};

/// Member 0 likewise.
const FIRST_FOLLOWS: Part = Part {
    what: ONE,
    times: OPEN_SHARES,
    lines: &[
        (0, ENTERS),
        (0, Line::Claims(0, 0)),
        (0, Line::Leaves(true)),
    ],
};

/// As many shares as do not fit into the rounds of a gate. In each round of the ring a member walks through eight loops, may not open
/// a ninth one, and then the other follows. Each member is first in every other round.
const MANY_SHARES: Case = Case {
    name: "rounds of the ring",
    rounds: SHARES / OPEN_SHARES / 2,
    parts: &[
        FIRST_LEADS,
        Part {
            what: ONE,
            times: 1,
            lines: &[(0, WAITS)],
        },
        SECOND_FOLLOWS,
        SECOND_LEADS,
        Part {
            what: ONE,
            times: 1,
            lines: &[(1, WAITS)],
        },
        FIRST_FOLLOWS,
    ],
    shares: SHARES,
    taken: &[SHARES as u128 / 2, SHARES as u128 / 2],
};

/// A new team of two. If memory is refused once, it is asked for again.
fn two(rt: &impl Abort, alloc: Global) -> Team {
    match new_team(alloc, 2) {
        Ok(team) => team,
        Err(_) => new_team(alloc, 2).expect(rt, AMPLE),
    }
}

/// Claims of a loop of the most iterations, of which most are left at the end. Of three claims the last is member 1's.
fn many_claims(rt: &impl Abort, alloc: Global) {
    let longest = loop_of(&LONGEST).expect(rt, "the longest loop");
    let mut team = two(rt, alloc);
    let both = &[(0, ENTERS), (1, ENTERS)];
    walk(rt, &mut team, &longest, both, "opening the loop");
    for first in 0..300_000 {
        let end = first + 1;
        let piece = team.claim((first % 3 / 2) as usize);
        same(rt, &piece, &Piece { first, end }, "claim", first);
    }
    let stays = &[(0, Line::Leaves(false))];
    walk(rt, &mut team, &longest, stays, "leaving the loop");
    compare_sums(rt, alloc, team, 0, &[200_000, 100_000], "claims");
}

#[test]
fn many_shares_and_claims(rt: HostRuntime) {
    let alloc = rt.alloc();
    walk_case(&rt, alloc, two(&rt, alloc), &MANY_SHARES);
    many_claims(&rt, alloc);
}

//! Members that go through a `single` without words by one step. The first member that comes to it executes it, and no other
//! (OpenMP API 5.2, section 11.1). It is one of the eight shares that may be open, and counts no iteration of a loop.

use crate::checks::{AMPLE, same};
use crate::constructs::What;
use crate::rows::{Case, DIFFERS, ENTERS, Line, Part, WAITS, seen_after, walk_cases};
use crate::team::{Team, compare_totals, gathered, new_team};
use gomp_ring::{Delay, Passage};
use gomp_test_data::LOOP;
use gomp_types::{EndKind, LoopDesc, OPEN_SHARES, is_team_size};
use std::alloc::Global;
use std::process::Abort;

/// More singles than the rounds of a gate count.
const SINGLES: u64 = 140_000;

/// The member executes the single.
const EXECUTES: Line = Line::Passes(Some(Passage::Passed(true)));

/// It goes through the single, which another executes.
const GOES_BY: Line = Line::Passes(Some(Passage::Passed(false)));

/// It may not come to the single yet, since another has not left the share eight before.
const NO_ROOM: Line = Line::Passes(Some(Passage::NotYet(Delay::NoRoom)));

/// The share is no single without words.
const NO_SINGLE: Line = Line::Passes(Some(Passage::Differs));

/// The piece of a single, which its executor has.
const PIECE: Option<(u64, u64)> = Some((0, 1));

/// A loop of one iteration, which has the numbers of a single.
const ONE: LoopDesc = LoopDesc {
    end: 1,
    chunk: 1,
    end_kind: EndKind::Nowait,
    ..LOOP
};

/// Singles 0 and 1, each with another member first, and calls that may not be made.
const TWO: &[(usize, Line)] = &[
    (0, EXECUTES),
    (0, Line::Sees(1, false, PIECE)),
    (1, GOES_BY),
    (1, Line::Sees(1, true, None)),
    (1, EXECUTES),
    (1, Line::Sees(2, false, PIECE)),
    (1, Line::Claims(0, 0)),
    (1, Line::Leaves(false)),
    (0, GOES_BY),
    (0, Line::Sees(2, true, None)),
    (1, Line::Sees(2, false, PIECE)),
    (2, Line::Passes(None)),
];

/// Behind eight singles of member 0: its ninth waits until the other has gone through the first. Then either member is first to
/// some, behind one that it executed and behind one that it did not.
const NINTH: &[(usize, Line)] = &[
    (0, NO_ROOM),
    (0, Line::Sees(8, false, PIECE)),
    (0, NO_ROOM),
    (1, GOES_BY),
    (1, Line::Sees(1, true, None)),
    (0, EXECUTES),
    (0, Line::Sees(9, false, PIECE)),
    (0, NO_ROOM),
    (1, GOES_BY),
    (1, GOES_BY),
    (1, GOES_BY),
    (1, GOES_BY),
    (0, EXECUTES),
    (0, EXECUTES),
    (0, Line::Sees(11, false, PIECE)),
    (0, EXECUTES),
    (0, Line::Sees(12, false, PIECE)),
    (0, EXECUTES),
    (0, NO_ROOM),
    (1, GOES_BY),
    (1, GOES_BY),
    (1, GOES_BY),
    (1, GOES_BY),
    (1, GOES_BY),
    (1, GOES_BY),
    (1, GOES_BY),
    (1, GOES_BY),
    (1, Line::Sees(13, true, None)),
    (1, EXECUTES),
    (1, EXECUTES),
    (1, Line::Sees(15, false, PIECE)),
    (0, GOES_BY),
    (0, GOES_BY),
    (0, Line::Sees(15, true, None)),
    (0, EXECUTES),
    (1, Line::Sees(15, false, PIECE)),
    (1, GOES_BY),
    (1, Line::Sees(16, true, None)),
    // who did not execute its last single is the first now
    (1, EXECUTES),
    (1, Line::Sees(17, false, PIECE)),
    (0, GOES_BY),
];

/// Shares 0, 2 and 12 are loops of one iteration, the others singles. Member 0, eight shares ahead of member 1, waits for room
/// whether a loop or a single stands there or eight before.
const BETWEEN_LOOPS: &[(usize, Line)] = &[
    (0, ENTERS),
    (0, Line::Passes(None)),
    (0, Line::Claims(0, 1)),
    (0, Line::Claims(0, 0)),
    (0, Line::Leaves(true)),
    (0, EXECUTES),
    (0, Line::Sees(2, false, PIECE)),
    (0, ENTERS),
    (0, Line::Claims(0, 1)),
    (0, Line::Claims(0, 0)),
    (0, Line::Leaves(true)),
    (0, EXECUTES),
    (0, EXECUTES),
    (0, EXECUTES),
    (0, EXECUTES),
    (0, EXECUTES),
    (0, Line::Sees(8, false, PIECE)),
    // the single behind loop 0
    (0, NO_ROOM),
    (1, ENTERS),
    (0, NO_ROOM),
    (1, Line::Claims(0, 0)),
    (0, NO_ROOM),
    (1, Line::Leaves(true)),
    (0, EXECUTES),
    // that behind single 1
    (0, NO_ROOM),
    (1, GOES_BY),
    (1, Line::Sees(2, true, None)),
    (0, EXECUTES),
    // that behind loop 2
    (0, NO_ROOM),
    (1, ENTERS),
    (1, Line::Claims(0, 0)),
    (1, Line::Leaves(true)),
    (0, EXECUTES),
    // that behind single 3
    (0, NO_ROOM),
    (1, GOES_BY),
    (0, EXECUTES),
    (0, Line::Sees(12, false, PIECE)),
    // the loop behind single 4
    (0, WAITS),
    (1, GOES_BY),
    (0, ENTERS),
    (0, Line::Claims(0, 1)),
    (0, Line::Claims(0, 0)),
    (0, Line::Leaves(true)),
    (1, GOES_BY),
    (1, GOES_BY),
    (1, GOES_BY),
    (1, GOES_BY),
    (1, GOES_BY),
    (1, GOES_BY),
    (1, GOES_BY),
    (1, Line::Sees(12, true, None)),
    (1, NO_SINGLE),
    (1, ENTERS),
    (1, Line::Claims(0, 0)),
    (1, Line::Leaves(true)),
];

/// Singles that one member goes through by one step, and the other by calls of its own.
const EITHER_WAY: &[(usize, Line)] = &[
    // who opens it comes after the step
    (0, EXECUTES),
    (1, ENTERS),
    (1, Line::Sees(1, false, None)),
    (1, Line::Claims(0, 0)),
    (1, Line::Sees(1, true, None)),
    (1, Line::Claims(0, 0)),
    (1, Line::Leaves(true)),
    (1, Line::Sees(1, true, None)),
    // and before it
    (1, ENTERS),
    (1, Line::Claims(0, 1)),
    (1, Line::Sees(2, false, PIECE)),
    (1, Line::Claims(0, 0)),
    (1, Line::Sees(2, true, None)),
    (0, GOES_BY),
    (0, Line::Sees(2, true, None)),
    (1, Line::Leaves(true)),
    // and enters before it, and claims after it
    (1, ENTERS),
    (0, EXECUTES),
    (0, Line::Sees(3, false, PIECE)),
    (1, Line::Leaves(false)),
    (1, Line::Claims(0, 0)),
    (1, Line::Leaves(true)),
    // and leaves before it
    (1, ENTERS),
    (1, Line::Claims(0, 1)),
    (1, Line::Leaves(true)),
    (1, Line::Sees(4, false, PIECE)),
    (0, GOES_BY),
    // the other way round
    (0, ENTERS),
    (0, Line::Claims(0, 1)),
    (1, GOES_BY),
    (0, Line::Claims(0, 0)),
    (0, Line::Leaves(true)),
    (1, EXECUTES),
    (0, ENTERS),
    (0, Line::Claims(0, 0)),
    (0, Line::Leaves(true)),
];

/// A share that is no single without words, and then such a single, twice. Each has one piece. Behind a single that it executed,
/// member 1 comes to the first of the other shares as the second member, and to the second one as the first.
const TWO_KINDS: &[(usize, Line)] = &[
    (0, ENTERS),
    (1, NO_SINGLE),
    (1, NO_SINGLE),
    (1, ENTERS),
    (1, Line::Claims(0, 1)),
    (0, Line::Claims(0, 0)),
    (1, Line::Claims(0, 0)),
    (0, Line::Leaves(true)),
    (1, Line::Leaves(true)),
    (1, EXECUTES),
    (0, DIFFERS),
    (0, Line::Claims(0, 0)),
    (0, GOES_BY),
    (1, ENTERS),
    (0, NO_SINGLE),
    (0, ENTERS),
    (0, Line::Claims(0, 1)),
    (0, Line::Claims(0, 0)),
    (1, Line::Claims(0, 0)),
    (1, Line::Leaves(true)),
    (0, Line::Leaves(true)),
    (1, EXECUTES),
    (0, DIFFERS),
    (0, GOES_BY),
];

/// The member goes through share `share`, a single, and executes it or does not.
fn go_through(rt: &impl Abort, team: &mut Team, member: usize, executes: bool, share: u64) {
    let passage = team.pass(member);
    let expected = Some(Passage::Passed(executes));
    same(rt, &passage, &expected, "single", share);
    let seen = Some(seen_after(executes, share));
    same(rt, &team.seen(member), &seen, "seen after single", share);
}

/// Members come to singles in the lines of a part.
const BY_ONE_STEP: Part = Part {
    what: What::Single,
    times: 1,
    lines: &[],
};

/// A loop of one iteration, and then singles in its place.
const OTHER_LOOP: Part = Part {
    what: What::Loop(ONE),
    times: 1,
    lines: TWO_KINDS,
};

const OTHER_SECTIONS: Part = Part {
    what: What::Sections(1),
    times: 1,
    lines: TWO_KINDS,
};

const OTHER_SINGLE: Part = Part {
    what: What::SingleWithWords,
    times: 1,
    lines: TWO_KINDS,
};

const OTHER_VALUES: Part = Part {
    what: What::Loop(LoopDesc {
        start: 3,
        end: 4,
        ..ONE
    }),
    times: 1,
    lines: TWO_KINDS,
};

/// Both members come to singles, and member 0 to each first.
const FIRST_THEN_SECOND: Part = Part {
    what: What::Single,
    times: 1,
    lines: &[(0, EXECUTES), (1, GOES_BY)],
};

/// Two members, call by call.
const CASES: &[Case] = &[
    Case {
        name: "two singles",
        rounds: 1,
        parts: &[Part {
            lines: TWO,
            ..BY_ONE_STEP
        }],
        shares: 2,
        taken: &[0, 0],
    },
    Case {
        name: "the ninth single",
        rounds: 1,
        parts: &[
            Part {
                times: OPEN_SHARES,
                lines: &[(0, EXECUTES)],
                ..BY_ONE_STEP
            },
            Part {
                lines: NINTH,
                ..BY_ONE_STEP
            },
        ],
        shares: 17,
        taken: &[0, 0],
    },
    Case {
        name: "singles between loops",
        rounds: 1,
        parts: &[Part {
            what: What::Loop(ONE),
            times: 1,
            lines: BETWEEN_LOOPS,
        }],
        shares: 13,
        taken: &[3, 0],
    },
    // one of them opens singles
    Case {
        name: "singles either way",
        rounds: 1,
        parts: &[
            Part {
                lines: EITHER_WAY,
                ..BY_ONE_STEP
            },
            Part {
                times: 24,
                ..FIRST_THEN_SECOND
            },
            Part {
                lines: &[
                    (0, Line::Sees(30, false, PIECE)),
                    (1, Line::Sees(30, true, None)),
                ],
                ..BY_ONE_STEP
            },
        ],
        shares: 30,
        taken: &[0, 0],
    },
    // constructs that are no single without words, each in the place of one, in four rounds of the ring. One single stands between
    // the second round and the third, so that later singles come to the slots in which these constructs were
    Case {
        name: "shares that are no single",
        rounds: 1,
        parts: &[
            OTHER_LOOP,
            OTHER_SECTIONS,
            OTHER_SINGLE,
            OTHER_VALUES,
            FIRST_THEN_SECOND,
            Part {
                lines: &[
                    (0, Line::Sees(17, false, PIECE)),
                    (1, Line::Sees(17, true, None)),
                ],
                ..BY_ONE_STEP
            },
            OTHER_LOOP,
            OTHER_SECTIONS,
            OTHER_SINGLE,
            OTHER_VALUES,
            FIRST_THEN_SECOND,
            Part {
                lines: &[
                    (0, Line::Sees(34, false, PIECE)),
                    (1, Line::Sees(34, true, None)),
                ],
                ..BY_ONE_STEP
            },
        ],
        shares: 34,
        taken: &[4, 4],
    },
    // each member in turn is the first to come to one single
    Case {
        name: "singles by turns of one",
        rounds: SINGLES / 2,
        parts: &[Part {
            lines: &[(0, EXECUTES), (1, GOES_BY), (1, EXECUTES), (0, GOES_BY)],
            ..BY_ONE_STEP
        }],
        shares: SINGLES,
        taken: &[0, 0],
    },
    // to five
    Case {
        name: "singles by turns of five",
        rounds: SINGLES / 5 / 2,
        parts: &[
            Part {
                times: 5,
                lines: &[(0, EXECUTES)],
                ..BY_ONE_STEP
            },
            Part {
                times: 5,
                lines: &[(1, GOES_BY)],
                ..BY_ONE_STEP
            },
            Part {
                times: 5,
                lines: &[(1, EXECUTES)],
                ..BY_ONE_STEP
            },
            Part {
                times: 5,
                lines: &[(0, GOES_BY)],
                ..BY_ONE_STEP
            },
        ],
        shares: SINGLES,
        taken: &[0, 0],
    },
    // to as many as may be open: there is no room for one more before the other has gone through them
    Case {
        name: "singles by turns of eight",
        rounds: SINGLES / OPEN_SHARES / 2,
        parts: &[
            Part {
                times: OPEN_SHARES,
                lines: &[(0, EXECUTES)],
                ..BY_ONE_STEP
            },
            Part {
                lines: &[(0, NO_ROOM)],
                ..BY_ONE_STEP
            },
            Part {
                times: OPEN_SHARES,
                lines: &[(1, GOES_BY)],
                ..BY_ONE_STEP
            },
            Part {
                times: OPEN_SHARES,
                lines: &[(1, EXECUTES)],
                ..BY_ONE_STEP
            },
            Part {
                lines: &[(1, NO_ROOM)],
                ..BY_ONE_STEP
            },
            Part {
                times: OPEN_SHARES,
                lines: &[(0, GOES_BY)],
                ..BY_ONE_STEP
            },
        ],
        shares: SINGLES,
        taken: &[0, 0],
    },
];

/// The members of a team go through a single one after another, from the first to the last, or from the last to the first.
fn all_go_through(rt: &impl Abort, team: &mut Team, members: usize, falling: bool, share: u64) {
    for place in 0..members {
        let last = members.saturating_sub(place + 1);
        let member = if falling { last } else { place };
        go_through(rt, team, member, place == 0, share);
    }
}

/// Twenty singles of a team of so many in rising order of its members, and twenty in falling order.
fn in_both_orders(rt: &impl Abort, alloc: Global, members: u16) {
    assert!(rt; is_team_size(members));
    let mut team = new_team(alloc, members).expect(rt, AMPLE);
    for share in 0..40 {
        all_go_through(rt, &mut team, members as usize, share >= 20, share);
    }
    compare_totals(rt, &gathered(rt, alloc, team), 40, 0, members);
}

#[test]
fn members_go_through_singles(rt: HostRuntime) {
    let alloc = rt.alloc();
    walk_cases(&rt, alloc, CASES);
    for members in &[1, 2, 63, 64] {
        in_both_orders(&rt, alloc, *members);
    }
}

//! Two seats on one thread, call by call: a member that is eight shares ahead, constructs that differ, and calls that may not be
//! made.

use crate::checks::{AMPLE, same};
use crate::constructs::{Construct, What, construct_of};
use crate::team::{Team, compare_sums, new_team};
use gomp_events::Seen;
use gomp_ring::{Delay, Entry, Passage, Piece};
use gomp_test_data::LOOP;
use gomp_types::{EndKind, LoopDesc, Sched};
use std::alloc::Global;
use std::process::Abort;

/// What a member does, and what it is answered.
#[derive(Clone, Copy)]
pub(crate) enum Line {
    Opens(Option<Entry>),
    Claims(u64, u64),
    Leaves(bool),
    /// It goes through a `single` without words.
    Passes(Option<Passage>),
    /// What it sees, without a call: how many shares it entered, whether nothing is left of the last one, and its piece of that.
    Sees(u64, bool, Option<(u64, u64)>),
}

/// The members make the calls of these lines, each with this construct, and do so again, so many times in all.
#[derive(Clone, Copy)]
pub(crate) struct Part {
    pub(crate) what: What,
    pub(crate) times: u64,
    pub(crate) lines: &'static [(usize, Line)],
}

/// A team of two walks these parts one after another, in each of so many rounds.
pub(crate) struct Case {
    /// What it is called.
    pub(crate) name: &'static str,
    /// How many rounds there are.
    pub(crate) rounds: u64,
    /// The parts of a round.
    pub(crate) parts: &'static [Part],
    /// So many shares both have left then.
    pub(crate) shares: u64,
    /// So many iterations of loops each has taken then.
    pub(crate) taken: &'static [u128],
}

pub(crate) const ENTERS: Line = Line::Opens(Some(Entry::Entered));

pub(crate) const WAITS: Line = Line::Opens(Some(Entry::NotYet(Delay::NoRoom)));

pub(crate) const DIFFERS: Line = Line::Opens(Some(Entry::Differs));

/// A member walks through a loop of one iteration, which it takes.
const WHOLE: &[(usize, Line)] = &[
    (0, ENTERS),
    (0, Line::Claims(0, 1)),
    (0, Line::Claims(0, 0)),
    (0, Line::Leaves(true)),
];

/// Its ninth loop waits until the other member has left the first.
const NINTH: &[(usize, Line)] = &[
    (0, WAITS),
    (0, Line::Claims(0, 0)),
    (0, Line::Leaves(false)),
    (1, ENTERS),
    (1, Line::Claims(0, 0)),
    (0, WAITS),
    (1, Line::Leaves(true)),
    (0, ENTERS),
    (0, Line::Claims(0, 1)),
];

/// A loop of ten iterations in chunks of three, and calls that may not be made.
const TEN: &[(usize, Line)] = &[
    (0, Line::Claims(0, 0)),
    (0, Line::Leaves(false)),
    (0, ENTERS),
    (0, Line::Opens(None)),
    (0, Line::Claims(0, 3)),
    (1, ENTERS),
    (1, Line::Claims(3, 6)),
    (0, Line::Claims(6, 9)),
    (0, Line::Leaves(false)),
    (1, Line::Claims(9, 10)),
    (0, Line::Claims(0, 0)),
    (1, Line::Claims(0, 0)),
    (1, Line::Claims(0, 0)),
    (0, Line::Leaves(true)),
    (0, Line::Leaves(false)),
    (1, Line::Leaves(true)),
    (2, ENTERS_NOT),
];

/// No member has this number.
const ENTERS_NOT: Line = Line::Opens(None);

/// The member makes the call of this line, and is answered so.
fn walk_line(
    rt: &impl Abort,
    team: &mut Team,
    construct: &Construct,
    (member, line): (usize, Line),
    name: &str,
    number: u64,
) {
    match line {
        Line::Opens(entry) => same(rt, &team.open(member, construct), &entry, name, number),
        Line::Claims(first, end) => {
            same(rt, &team.claim(member), &Piece { first, end }, name, number)
        }
        Line::Leaves(left) => same(rt, &team.leave(member), &left, name, number),
        Line::Passes(passage) => same(rt, &team.pass(member), &passage, name, number),
        Line::Sees(entered, drained, piece) => {
            same(
                rt,
                &sees(team, member),
                &(entered, drained, piece),
                name,
                number,
            )
        }
    }
}

/// How many shares this member entered, whether nothing is left of the last one, and its piece of that; if there is no such member,
/// what it sees at first.
fn sees(team: &Team, member: usize) -> (u64, bool, Option<(u64, u64)>) {
    match team.seen(member) {
        Some(seen) => (seen.entered, seen.drained, seen.piece),
        None => (0, false, None),
    }
}

/// What a member sees that saw this before and was answered so. None if a test does not say.
fn seen_then(line: Line, before: Option<Seen>) -> Option<Option<Seen>> {
    match line {
        Line::Opens(Some(Entry::Entered)) | Line::Claims(_, _) | Line::Leaves(true) => None,
        Line::Passes(Some(Passage::Passed(executes))) => {
            let entered = match before {
                Some(seen) => seen.entered,
                None => 0,
            };
            Some(Some(seen_after(executes, entered)))
        }
        _ => Some(before),
    }
}

/// What a member sees that went through share `share`, a `single` without words, and executed it or did not.
pub(crate) fn seen_after(executes: bool, share: u64) -> Seen {
    Seen {
        entered: share.saturating_add(1),
        current: None,
        drained: !executes,
        piece: if executes { Some((0, 1)) } else { None },
        next_part: 0,
        in_part: false,
        leaving: false,
    }
}

/// The members make the calls of these lines, each with this construct.
pub(crate) fn walk(
    rt: &impl Abort,
    team: &mut Team,
    construct: &Construct,
    lines: &[(usize, Line)],
    name: &str,
) {
    for (number, (member, line)) in lines.iter().enumerate() {
        let before = team.seen(*member);
        walk_line(rt, team, construct, (*member, *line), name, number as u64);
        if let Some(seen) = seen_then(*line, before) {
            same(rt, &team.seen(*member), &seen, name, number as u64);
        }
    }
}

/// The members walk this part.
fn walk_part(rt: &impl Abort, team: &mut Team, part: &Part, name: &str) {
    let construct = construct_of(&part.what).expect(rt, "a construct");
    for _ in 0..part.times {
        walk(rt, team, &construct, part.lines, name);
    }
}

/// The members walk the parts of this case.
fn walk_parts(rt: &impl Abort, team: &mut Team, case: &Case) {
    for _ in 0..case.rounds {
        for part in case.parts {
            walk_part(rt, team, part, case.name);
        }
    }
}

/// The members of a new team have come to no share.
const NEW: Part = Part {
    what: What::Single,
    times: 1,
    lines: &[
        (0, Line::Sees(0, false, None)),
        (1, Line::Sees(0, false, None)),
    ],
};

/// A new team of two walks this case.
pub(crate) fn walk_case(rt: &impl Abort, alloc: Global, mut team: Team, case: &Case) {
    walk_part(rt, &mut team, &NEW, case.name);
    walk_parts(rt, &mut team, case);
    compare_sums(rt, alloc, team, case.shares, case.taken, case.name);
}

/// A new team of two walks each of these cases.
pub(crate) fn walk_cases(rt: &impl Abort, alloc: Global, cases: &[Case]) {
    for case in cases {
        walk_case(rt, alloc, new_team(alloc, 2).expect(rt, AMPLE), case);
    }
}

/// A loop of one iteration.
const ONE: What = What::Loop(LoopDesc {
    end: 1,
    chunk: 1,
    end_kind: EndKind::Nowait,
    ..LOOP
});

/// A member that is eight loops ahead of the other waits until that has left the first.
const EIGHT_AHEAD: Case = Case {
    name: "eight loops ahead",
    rounds: 1,
    parts: &[
        Part {
            what: ONE,
            times: 8,
            lines: WHOLE,
        },
        Part {
            what: ONE,
            times: 1,
            lines: NINTH,
        },
    ],
    shares: 1,
    taken: &[9, 0],
};

const FIRST: LoopDesc = LoopDesc {
    end: 10,
    chunk: 3,
    ..LOOP
};

/// Of the second member, whose construct is another one.
const OTHER: &[(usize, Line)] = &[(1, DIFFERS), (1, Line::Claims(0, 0))];

/// The second member comes to a construct, which is another one.
const COMES: Part = Part {
    what: What::Single,
    times: 1,
    lines: OTHER,
};

/// Member 0 is in a loop, and member 1 opens other constructs, and then the loop. The loops among them differ from the first one,
/// each in one respect.
const DIFFERING: Case = Case {
    name: "constructs that differ",
    rounds: 1,
    parts: &[
        Part {
            what: What::Loop(FIRST),
            times: 1,
            lines: &[(0, ENTERS)],
        },
        Part {
            what: What::Loop(LoopDesc {
                start: 1,
                end: 11,
                ..FIRST
            }),
            ..COMES
        },
        Part {
            what: What::Loop(LoopDesc {
                end: 20,
                incr: 2,
                ..FIRST
            }),
            ..COMES
        },
        Part {
            what: What::Loop(LoopDesc { end: 11, ..FIRST }),
            ..COMES
        },
        Part {
            what: What::Loop(LoopDesc { end: 0, ..FIRST }),
            ..COMES
        },
        Part {
            what: What::Loop(LoopDesc {
                sched: Sched::Static,
                ..FIRST
            }),
            ..COMES
        },
        Part {
            what: What::Loop(LoopDesc {
                sched: Sched::Guided,
                ..FIRST
            }),
            ..COMES
        },
        Part {
            what: What::Loop(LoopDesc { chunk: 4, ..FIRST }),
            ..COMES
        },
        Part {
            what: What::Loop(LoopDesc {
                end_kind: EndKind::Nowait,
                ..FIRST
            }),
            ..COMES
        },
        Part {
            what: What::Loop(LoopDesc {
                end_kind: EndKind::Cancellable,
                ..FIRST
            }),
            ..COMES
        },
        Part {
            what: What::Sections(10),
            ..COMES
        },
        Part {
            what: What::Single,
            ..COMES
        },
        Part {
            what: What::Loop(FIRST),
            times: 1,
            lines: &[(1, ENTERS), (1, Line::Claims(0, 3))],
        },
    ],
    shares: 0,
    taken: &[0, 3],
};

/// Both walk through a loop of ten iterations in chunks of three.
const TEN_ITERATIONS: Case = Case {
    name: "ten iterations",
    rounds: 1,
    parts: &[Part {
        what: What::Loop(FIRST),
        times: 1,
        lines: TEN,
    }],
    shares: 1,
    taken: &[6, 4],
};

#[test]
fn two_members_call_by_call(rt: HostRuntime) {
    walk_cases(&rt, rt.alloc(), &[EIGHT_AHEAD, TEN_ITERATIONS, DIFFERING]);
}

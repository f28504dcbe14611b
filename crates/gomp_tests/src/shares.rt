//! The plain shares, called as a library.

ghost use Rattle.std.specs.Prelude.{◌≡◌, ◌<◌};

use crate::checks::{AMPLE, same};
use crate::promises::answers_of;
use ShareAnswer::{Cancelled, Claimed, Ended, Left, NotMade, Opened, Saw, Turned};
use ShareCall::{
    Begin, Cancel, Claim, EndPart, HandOn, Leave, Open, OpenSections, OpenSingle, See,
};
use gomp_share_plain::PlainShares;
use gomp_shares::{Opening, ShareAnswer, ShareCall, ShareStep, Shares};
use gomp_test_data::{LOOP, SIZES};
use gomp_types::{EndKind, LoopDesc, Sched, is_team_size, single_shape};
use std::alloc::Global;
use std::process::Abort;

// A member, what it calls and what it is answered.
type Line = (u16, ShareCall, ShareAnswer);

/// A new team of so many makes these calls and gets these answers.
fn walk(rt: &impl Abort, alloc: Global, members: u16, run: &str, lines: &[Line]) {
    assert!(rt; is_team_size(members));
    let mut steps = Vec::new(alloc);
    for (member, call, _) in lines {
        let (member, call) = (*member, *call);
        steps.push(ShareStep { member, call }).expect(rt, AMPLE);
    }
    let (shares, answers) = answers_of::<PlainShares>(alloc, members, &steps).expect(rt, AMPLE);
    drop(shares);
    drop(steps);
    same(rt, answers.len(), lines.len(), run, members as u64);
    for (number, (line, answer)) in lines.iter().zip(answers.iter()).enumerate() {
        same(rt, *answer, line.2, run, number as u64);
    }
    drop(answers);
}

const ENTERED: ShareAnswer = Opened(Opening::Entered);

// Loops in chunks, each to whoever asks next, with a barrier at their end.
const TEN: ShareCall = Open(LoopDesc {
    end: 10,
    chunk: 3,
    ..LOOP
});

const FOUR: ShareCall = Open(LoopDesc {
    end: 4,
    chunk: 2,
    ..LOOP
});

const MANY: ShareCall = Open(LoopDesc {
    end: 1 << 20,
    chunk: 1,
    ..LOOP
});

// The same with ordered parts.
const PARTS_OF_TWO: ShareCall = Open(LoopDesc {
    end: 2,
    chunk: 1,
    ordered: true,
    ..LOOP
});

const PARTS_OF_FOUR: ShareCall = Open(LoopDesc {
    end: 4,
    chunk: 2,
    ordered: true,
    ..LOOP
});

const CHUNKED: ShareCall = Open(LoopDesc {
    end: 10,
    sched: Sched::Static,
    chunk: 3,
    ..LOOP
});

const EVEN: ShareCall = Open(LoopDesc {
    end: 1,
    sched: Sched::Static,
    ..LOOP
});

const GUIDED: ShareCall = Open(LoopDesc {
    end: 10,
    sched: Sched::Guided,
    chunk: 2,
    ..LOOP
});

const ONE: ShareCall = Open(LoopDesc {
    end: 1,
    chunk: 1,
    end_kind: EndKind::Nowait,
    ..LOOP
});

// Of these the end says that they may be cancelled.
const CANCELLABLE: ShareCall = Open(LoopDesc {
    end: 10,
    chunk: 1,
    end_kind: EndKind::Cancellable,
    ..LOOP
});

const CANCELLABLE_SECTIONS: ShareCall = OpenSections {
    count: 3,
    end_kind: EndKind::Cancellable,
};

const NO_SECTIONS: ShareCall = OpenSections {
    count: 0,
    end_kind: EndKind::Wait,
};

const THREE: ShareCall = OpenSections {
    count: 3,
    end_kind: EndKind::Wait,
};

const FOUR_SECTIONS: ShareCall = OpenSections {
    count: 4,
    end_kind: EndKind::Wait,
};

const TOO_MANY: ShareCall = OpenSections {
    count: 65_537,
    end_kind: EndKind::Wait,
};

const SINGLE: ShareCall = OpenSingle { copies: false };

const COPIED: ShareCall = OpenSingle { copies: true };

/// Runs of a team of two.
const RUNS: &[(&str, &[Line])] = &[
    (
        "a dynamic loop",
        &[
            (0, TEN, ENTERED),
            (0, Claim, Claimed(Some((0, 3)))),
            (1, TEN, ENTERED),
            (1, Claim, Claimed(Some((3, 6)))),
            (0, Claim, Claimed(Some((6, 9)))),
            (1, Claim, Claimed(Some((9, 10)))),
            (0, Claim, Claimed(None)),
            (1, Claim, Claimed(None)),
            (1, Claim, NotMade),
            (0, Leave, Left),
            (1, Leave, Left),
            (0, Claim, NotMade),
            (2, TEN, NotMade),
        ],
    ),
    (
        "two static loops",
        &[
            (1, CHUNKED, ENTERED),
            (1, Claim, Claimed(Some((3, 6)))),
            (1, Claim, Claimed(Some((9, 10)))),
            (1, Claim, Claimed(None)),
            (1, Leave, Left),
            (1, EVEN, ENTERED),
            (1, Claim, Claimed(None)),
            (0, CHUNKED, ENTERED),
            (0, Claim, Claimed(Some((0, 3)))),
            (0, Claim, Claimed(Some((6, 9)))),
            (0, Claim, Claimed(None)),
            (0, Leave, Left),
            (0, EVEN, ENTERED),
            (0, Claim, Claimed(Some((0, 1)))),
            (0, Claim, Claimed(None)),
        ],
    ),
    (
        "a guided loop",
        &[
            (0, GUIDED, ENTERED),
            (0, Claim, Claimed(Some((0, 5)))),
            (1, GUIDED, ENTERED),
            (1, Claim, Claimed(Some((5, 8)))),
            (0, Claim, Claimed(Some((8, 10)))),
            (0, Claim, Claimed(None)),
            (1, Claim, Claimed(None)),
        ],
    ),
    (
        "sections",
        &[
            (0, THREE, ENTERED),
            (0, Claim, Claimed(Some((0, 1)))),
            (1, FOUR_SECTIONS, Opened(Opening::Differs)),
            (1, THREE, ENTERED),
            (1, Claim, Claimed(Some((1, 2)))),
            (0, Leave, NotMade),
            (0, Claim, Claimed(Some((2, 3)))),
            (1, Claim, Claimed(None)),
            (0, Claim, Claimed(None)),
            (1, Leave, Left),
            (0, Leave, Left),
            (0, TOO_MANY, NotMade),
            (0, NO_SECTIONS, ENTERED),
            (0, Claim, Claimed(None)),
            (0, Leave, Left),
        ],
    ),
    (
        "singles",
        &[
            (0, SINGLE, ENTERED),
            (0, Leave, NotMade),
            (0, Claim, Claimed(Some((0, 1)))),
            (0, Leave, Left),
            (0, Leave, NotMade),
            (1, COPIED, Opened(Opening::Differs)),
            (1, SINGLE, ENTERED),
            (1, Leave, NotMade),
            (1, Claim, Claimed(None)),
            (1, Claim, NotMade),
            (1, Leave, Left),
            (1, SINGLE, ENTERED),
            (1, Claim, Claimed(Some((0, 1)))),
        ],
    ),
    (
        "singles that copy",
        &[
            (0, COPIED, ENTERED),
            (0, Leave, NotMade),
            (0, Claim, Claimed(Some((0, 1)))),
            (0, Leave, Left),
            (0, Leave, NotMade),
            (1, SINGLE, Opened(Opening::Differs)),
            (1, COPIED, ENTERED),
            (1, Leave, NotMade),
            (1, Claim, Claimed(None)),
            (1, Claim, NotMade),
            (1, Leave, Left),
            (1, COPIED, ENTERED),
            (1, Claim, Claimed(Some((0, 1)))),
        ],
    ),
    (
        "a cancelled loop",
        &[
            (0, CANCELLABLE, ENTERED),
            (0, See, Saw(false)),
            (0, Claim, Claimed(Some((0, 1)))),
            (1, CANCELLABLE, ENTERED),
            (1, Claim, Claimed(Some((1, 2)))),
            (1, Leave, NotMade),
            (0, Cancel, Cancelled),
            (0, Leave, NotMade),
            (0, See, Saw(true)),
            (0, Leave, Left),
            (1, Leave, NotMade),
            (1, Claim, Claimed(Some((2, 3)))),
            (1, See, Saw(true)),
            (1, Leave, Left),
            (0, Cancel, NotMade),
            (0, See, NotMade),
            (0, TEN, ENTERED),
            (0, Cancel, NotMade),
            (0, See, Saw(false)),
            (0, Claim, Claimed(Some((0, 3)))),
        ],
    ),
    (
        "cancelled sections",
        &[
            (0, CANCELLABLE_SECTIONS, ENTERED),
            (1, THREE, Opened(Opening::Differs)),
            (0, Claim, Claimed(Some((0, 1)))),
            (0, Cancel, Cancelled),
            (1, CANCELLABLE_SECTIONS, ENTERED),
            (1, Cancel, Cancelled),
            (1, See, Saw(true)),
            (1, Leave, Left),
            (0, See, Saw(true)),
            (0, Leave, Left),
            (0, SINGLE, ENTERED),
            (0, See, NotMade),
            (0, Cancel, NotMade),
        ],
    ),
    (
        "parts of two members",
        &[
            (0, PARTS_OF_TWO, ENTERED),
            (1, PARTS_OF_TWO, ENTERED),
            (0, Claim, Claimed(Some((0, 1)))),
            (1, Claim, Claimed(Some((1, 2)))),
            (1, Begin(1), Turned(false)),
            (1, HandOn, Turned(false)),
            (0, Begin(0), Turned(true)),
            (0, HandOn, NotMade),
            (0, Claim, NotMade),
            (1, Begin(1), Turned(false)),
            (0, EndPart, Ended),
            (1, Begin(1), Turned(false)),
            (0, HandOn, Turned(true)),
            (0, HandOn, Turned(false)),
            (1, Begin(1), Turned(true)),
            (0, Claim, Claimed(None)),
            (0, HandOn, Turned(false)),
            (0, Leave, Left),
            (1, Leave, NotMade),
            (1, EndPart, Ended),
            (1, HandOn, Turned(true)),
            (1, Claim, Claimed(None)),
            (1, Leave, Left),
            (1, HandOn, NotMade),
        ],
    ),
    (
        "parts of a piece",
        &[
            (0, PARTS_OF_FOUR, ENTERED),
            (0, Begin(0), NotMade),
            (0, HandOn, Turned(false)),
            (0, Claim, Claimed(Some((0, 2)))),
            (0, EndPart, NotMade),
            (0, Begin(0), Turned(true)),
            (0, Begin(1), NotMade),
            (0, EndPart, Ended),
            (0, Begin(0), NotMade),
            (0, Begin(2), NotMade),
            (0, Begin(1), Turned(true)),
            (0, EndPart, Ended),
            (0, HandOn, Turned(true)),
            (0, Claim, Claimed(Some((2, 4)))),
            (0, Begin(3), Turned(true)),
            (0, EndPart, Ended),
            (0, Begin(2), NotMade),
            (0, HandOn, Turned(true)),
            (0, Claim, Claimed(None)),
            (0, Leave, Left),
            (0, FOUR, ENTERED),
            (0, Claim, Claimed(Some((0, 2)))),
            (0, Begin(0), NotMade),
            (0, HandOn, NotMade),
        ],
    ),
];

/// A member that is eight shares ahead of the other.
fn eight_ahead(rt: &impl Abort, alloc: Global) {
    let mut lines = Vec::new(alloc);
    for _ in 0..8 {
        lines
            .extend_from_slice(&[
                (0, ONE, ENTERED),
                (0, Claim, Claimed(Some((0, 1)))),
                (0, Claim, Claimed(None)),
                (0, Leave, Left),
            ])
            .expect(rt, AMPLE);
    }
    lines
        .extend_from_slice(&[
            (0, ONE, Opened(Opening::NotYet)),
            (1, ONE, ENTERED),
            (1, Claim, Claimed(None)),
            (1, Leave, Left),
            (0, ONE, ENTERED),
        ])
        .expect(rt, AMPLE);
    walk(rt, alloc, 2, "nine loops", &lines);
    drop(lines);
}

// A member, what it calls, and whether the next share of each member is taken then.
type NextLine = (u16, ShareCall, (bool, bool));

const NEXT_SHARES: &[NextLine] = &[
    (1, COPIED, (false, false)),
    (1, Claim, (true, false)),
    (1, Leave, (true, false)),
    (1, COPIED, (true, false)),
    (0, COPIED, (false, false)),
    (1, Claim, (true, false)),
    (0, Claim, (true, false)),
    (0, Leave, (true, false)),
    (0, COPIED, (false, false)),
    (1, Leave, (false, false)),
];

/// Whether the member's next share is taken, which is a `single` with words if some member entered it.
fn is_taken<S: Shares>(rt: &impl Abort, shares: &mut S, member: u16) -> bool
    requires member { member < S.members shares.old }
    ensures members { S.members shares.new ≡ S.members shares.old }
{
    let differs = shares.next_differs(member, &single_shape(true));
    assert!(rt; !differs);
    shares.next_is_taken(member)
}

/// That a new team of two that makes these calls has the next share of each member taken, or not, call by call.
fn have_taken(rt: &impl Abort, alloc: Global, lines: &[NextLine]) {
    let mut steps = Vec::new(alloc);
    for (member, call, taken) in lines {
        let (member, call) = (*member, *call);
        steps.push(ShareStep { member, call }).expect(rt, AMPLE);
        let (mut shares, answers) = answers_of::<PlainShares>(alloc, 2, &steps).expect(rt, AMPLE);
        let found = (is_taken(rt, &mut shares, 0), is_taken(rt, &mut shares, 1));
        drop(shares);
        drop(answers);
        same(
            rt,
            found,
            *taken,
            "next shares are taken after line",
            steps.len() as u64,
        );
    }
    drop(steps);
}

/// The shares of a new team of so many are made. A member enters a loop in chunks of one, and makes claims in it until
/// there are so many calls: each gets the next iteration.
fn claims(rt: &impl Abort, alloc: Global, members: u16, calls: u64) {
    assert!(rt; is_team_size(members));
    drop(PlainShares::make(alloc, members).expect(rt, AMPLE));
    let mut lines = Vec::new(alloc);
    for k in 0..calls {
        let line = match k.checked_sub(1) {
            None => (0, MANY, ENTERED),
            Some(before) => (0, Claim, Claimed(Some((before, k)))),
        };
        lines.push(line).expect(rt, AMPLE);
    }
    walk(rt, alloc, members, "claims", &lines);
    drop(lines);
}

#[test]
fn runs_and_claims(rt: HostRuntime) {
    let alloc = rt.alloc();
    for (run, lines) in RUNS {
        walk(&rt, alloc, 2, *run, *lines);
    }
    eight_ahead(&rt, alloc);
    have_taken(&rt, alloc, NEXT_SHARES);
    for members in 1..65 {
        claims(&rt, alloc, members, 3);
    }
    for calls in 0..301 {
        claims(&rt, alloc, 2, calls);
    }
    for calls in SIZES {
        claims(&rt, alloc, 2, *calls as u64);
    }
}

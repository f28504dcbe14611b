//! Seats on one thread, call by call, with each reply. What is expected is worked out by the rules of docs/RULES.md, and never taken
//! from a run.

use crate::answers::{Answer, reply_of};
use crate::calls::Ask;
use crate::checks::{AMPLE, same};
use crate::others::meet_others;
use crate::team::hear_member;
use gomp_seats::SeatedRing;
use gomp_shares::Construct;
use gomp_team_shares::{InsideCall, ShareStart};
use gomp_test_data::LOOP;
use gomp_types::{EndKind, LoopDesc, Sched, is_team_size};
use std::alloc::Global;
use std::process::Abort;

/// A member, what it asks for, and the reply.
pub(crate) type Line = (usize, Ask, Answer);

/// A team of so many walks these parts, one after another.
struct Case {
    name: &'static str,
    members: u16,
    parts: &'static [&'static [Line]],
}

// The replies

const OK: Answer = Answer::Finished;

const NONE: Answer = Answer::NoChunk;

const WAIT: Answer = Answer::Wait;

const EXECUTES: Answer = Answer::Executor(true);

const GOES_BY: Answer = Answer::Executor(false);

const IS_CANCELLED: Answer = Answer::Cancelling(true);

const NOT_CANCELLED: Answer = Answer::Cancelling(false);

const INSIDE_SHARE: Answer = Answer::InsideShare;

const OUTSIDE_SHARE: Answer = Answer::OutsideShare;

const IN_ORDERED: Answer = Answer::InOrdered;

const ZERO_STEP: Answer = Answer::ZeroStep;

const BAD_CHUNK: Answer = Answer::BadChunk;

const LOOP_TOO_LONG: Answer = Answer::LoopTooLong;

const BAD_SECTIONS: Answer = Answer::BadSections;

const ORDERED_LOOP: Answer = Answer::OrderedLoop;

const END_DIFFERS: Answer = Answer::EndDiffers;

const NOT_DRAINED: Answer = Answer::NotDrained;

const DRAINED: Answer = Answer::Drained;

const NOT_ORDERED: Answer = Answer::NotOrdered;

const BACKWARDS: Answer = Answer::OrderedBackwards;

const NOT_INSIDE: Answer = Answer::NotInside;

const NOT_CANCELLABLE: Answer = Answer::NotCancellable;

const TOO_MANY: Answer = Answer::TooManyShares;

pub(crate) const MISMATCH: Answer = Answer::Mismatch;

// What is asked for

const NEXT: Ask = Ask::Inside(InsideCall::Next(Construct::Loop));

const NEXT_SECTION: Ask = Ask::Inside(InsideCall::Next(Construct::Sections));

const END: Ask = Ask::Inside(InsideCall::EndNowait(Construct::Loop));

const END_SECTIONS: Ask = Ask::Inside(InsideCall::EndNowait(Construct::Sections));

const END_PART: Ask = Ask::Inside(InsideCall::EndPart);

const FIRST_PART: Ask = Ask::Inside(InsideCall::BeginPart(0));

const SECOND_PART: Ask = Ask::Inside(InsideCall::BeginPart(1));

const THIRD_PART: Ask = Ask::Inside(InsideCall::BeginPart(2));

/// No iteration has this value.
const NO_PART: Ask = Ask::Inside(InsideCall::BeginPart(-1));

const CANCEL: Ask = Ask::Inside(InsideCall::Cancel {
    construct: Construct::Loop,
    clause: true,
    allowed: true,
});

const POINT: Ask = Ask::Inside(InsideCall::Cancel {
    construct: Construct::Loop,
    clause: false,
    allowed: true,
});

const CANCEL_FORBIDDEN: Ask = Ask::Inside(InsideCall::Cancel {
    construct: Construct::Loop,
    clause: true,
    allowed: false,
});

const POINT_FORBIDDEN: Ask = Ask::Inside(InsideCall::Cancel {
    construct: Construct::Loop,
    clause: false,
    allowed: false,
});

const CANCEL_SECTIONS: Ask = Ask::Inside(InsideCall::Cancel {
    construct: Construct::Sections,
    clause: true,
    allowed: true,
});

const POINT_SECTIONS: Ask = Ask::Inside(InsideCall::Cancel {
    construct: Construct::Sections,
    clause: false,
    allowed: true,
});

const POINT_SECTIONS_FORBIDDEN: Ask = Ask::Inside(InsideCall::Cancel {
    construct: Construct::Sections,
    clause: false,
    allowed: false,
});

const END_WAIT: Ask = Ask::End(Construct::Loop, EndKind::Wait);

const END_CANCEL: Ask = Ask::End(Construct::Loop, EndKind::Cancellable);

const END_SECTIONS_WAIT: Ask = Ask::End(Construct::Sections, EndKind::Wait);

const END_SECTIONS_CANCEL: Ask = Ask::End(Construct::Sections, EndKind::Cancellable);

const SINGLE: Ask = Ask::Start(ShareStart::Single);

const COPY: Ask = Ask::Start(ShareStart::SingleCopy);

/// The start of a loop of ten iterations in chunks of three.
const START: Ask = Ask::Start(ShareStart::Loop(TEN));

/// A loop of ten iterations in chunks of three.
pub(crate) const TEN: LoopDesc = LoopDesc {
    end: 10,
    chunk: 3,
    end_kind: EndKind::Nowait,
    ..LOOP
};

const DYNAMIC: &[Line] = &[
    (0, NEXT, OUTSIDE_SHARE),
    (0, START, Answer::Chunk(0, 3)),
    (0, START, INSIDE_SHARE),
    (1, START, Answer::Chunk(3, 3)),
    (0, NEXT, Answer::Chunk(6, 3)),
    (0, END, NOT_DRAINED),
    (1, Ask::Claim, Answer::Chunk(9, 1)),
    (0, NEXT, NONE),
    (1, Ask::Claim, NONE),
    (0, NEXT, DRAINED),
    (1, Ask::Claim, DRAINED),
    (0, END_WAIT, END_DIFFERS),
    (0, NEXT_SECTION, OUTSIDE_SHARE),
    (0, END_SECTIONS, OUTSIDE_SHARE),
    (0, FIRST_PART, NOT_ORDERED),
    (0, END_PART, NOT_INSIDE),
    (0, Ask::Put, NOT_INSIDE),
    (0, END, OK),
    (0, END, OUTSIDE_SHARE),
    (0, Ask::Claim, OUTSIDE_SHARE),
    (0, FIRST_PART, OUTSIDE_SHARE),
    (1, END, OK),
];

/// The values 10, 7, 4 and 1, one a chunk.
const FALLING: Ask = Ask::Start(ShareStart::Loop(LoopDesc {
    start: 10,
    incr: -3,
    ..LOOP
}));

/// The same values, with another end.
const FALLING_FURTHER: Ask = Ask::Start(ShareStart::Loop(LoopDesc {
    start: 10,
    end: -1,
    incr: -3,
    ..LOOP
}));

const DOWNWARDS: &[Line] = &[
    (0, FALLING, Answer::Chunk(10, 1)),
    (1, FALLING_FURTHER, Answer::Chunk(7, 1)),
    (1, NEXT, Answer::Chunk(4, 1)),
    (0, NEXT, Answer::Chunk(1, 1)),
    (0, NEXT, NONE),
    (1, NEXT, NONE),
    (0, END, END_DIFFERS),
    (0, END_WAIT, OK),
    (1, END_WAIT, OK),
];

/// Ten iterations that are dealt out ahead, in chunks of three.
const CHUNKED: Ask = Ask::Start(ShareStart::Loop(LoopDesc {
    sched: Sched::Static,
    ..TEN
}));

/// The same without a chunk.
const EVEN: Ask = Ask::Start(ShareStart::Loop(LoopDesc {
    sched: Sched::Static,
    chunk: 0,
    ..TEN
}));

/// Two iterations, which are dealt out ahead without a chunk: the third member has none.
const FEW: Ask = Ask::Start(ShareStart::Loop(LoopDesc {
    end: 2,
    sched: Sched::Static,
    chunk: 0,
    ..TEN
}));

const STATIC: &[Line] = &[
    (1, CHUNKED, Answer::Chunk(3, 3)),
    (1, NEXT, NONE),
    (0, CHUNKED, Answer::Chunk(0, 3)),
    (2, CHUNKED, Answer::Chunk(6, 3)),
    (0, Ask::Claim, Answer::Chunk(9, 1)),
    (0, Ask::Claim, NONE),
    (0, NEXT, DRAINED),
    (2, NEXT, NONE),
    (0, END, OK),
    (1, END, OK),
    (2, END, OK),
    (2, EVEN, Answer::Chunk(7, 3)),
    (0, EVEN, Answer::Chunk(0, 4)),
    (1, EVEN, Answer::Chunk(4, 3)),
    (0, NEXT, NONE),
    (1, NEXT, NONE),
    (2, NEXT, NONE),
    (0, END, OK),
    (1, END, OK),
    (2, END, OK),
    (2, FEW, NONE),
    (1, FEW, Answer::Chunk(1, 1)),
    (0, FEW, Answer::Chunk(0, 1)),
];

const GUIDED_START: Ask = Ask::Start(ShareStart::Loop(LoopDesc {
    end: 20,
    sched: Sched::Guided,
    chunk: 2,
    ..LOOP
}));

const GUIDED: &[Line] = &[
    (3, GUIDED_START, Answer::Chunk(0, 5)),
    (0, GUIDED_START, Answer::Chunk(5, 4)),
    (3, NEXT, Answer::Chunk(9, 3)),
    (1, GUIDED_START, Answer::Chunk(12, 2)),
    (1, NEXT, Answer::Chunk(14, 2)),
    (2, GUIDED_START, Answer::Chunk(16, 2)),
    (0, NEXT, Answer::Chunk(18, 2)),
    (0, NEXT, NONE),
    (1, NEXT, NONE),
    (2, NEXT, NONE),
    (3, NEXT, NONE),
    (3, END_WAIT, OK),
];

/// A loop of one iteration.
const ONE: Ask = Ask::Start(ShareStart::Loop(LoopDesc {
    end: 1,
    end_kind: EndKind::Nowait,
    ..LOOP
}));

/// Member 0 walks through such a loop.
const WHOLE: &[Line] = &[(0, ONE, Answer::Chunk(0, 1)), (0, NEXT, NONE), (0, END, OK)];

const NINTH: &[Line] = &[
    (0, ONE, WAIT),
    (0, SINGLE, WAIT),
    (0, COPY, WAIT),
    (0, SECTIONS, WAIT),
    (0, NEXT, OUTSIDE_SHARE),
    (1, ONE, NONE),
    (0, ONE, WAIT),
    (1, END, OK),
    (0, ONE, Answer::Chunk(0, 1)),
    (0, NEXT, NONE),
    (0, END, OK),
    (0, ONE, WAIT),
];

const ORDERED: Ask = Ask::Start(ShareStart::Loop(LoopDesc {
    end: 3,
    ordered: true,
    end_kind: EndKind::Nowait,
    ..LOOP
}));

const PARTS: &[Line] = &[
    (0, ORDERED, Answer::Chunk(0, 1)),
    (1, ORDERED, Answer::Chunk(1, 1)),
    (1, SECOND_PART, WAIT),
    (1, NEXT, WAIT),
    (1, FIRST_PART, BACKWARDS),
    (0, SECOND_PART, BACKWARDS),
    (0, NO_PART, BACKWARDS),
    (0, END_PART, NOT_INSIDE),
    (0, FIRST_PART, OK),
    (0, FIRST_PART, IN_ORDERED),
    (0, NEXT, IN_ORDERED),
    (0, END, IN_ORDERED),
    (0, SINGLE, INSIDE_SHARE),
    (1, SECOND_PART, WAIT),
    (0, END_PART, OK),
    (0, END_PART, NOT_INSIDE),
    (0, FIRST_PART, BACKWARDS),
    (1, SECOND_PART, WAIT),
    (0, NEXT, Answer::Chunk(2, 1)),
    (0, THIRD_PART, WAIT),
    (1, SECOND_PART, OK),
    (0, THIRD_PART, WAIT),
    (0, NEXT, WAIT),
    (1, END_PART, OK),
    (0, THIRD_PART, WAIT),
    (1, Ask::Claim, NONE),
    (1, END, OK),
    // a member may hand its piece on without a part
    (0, Ask::Claim, NONE),
    (0, NEXT, DRAINED),
    (0, THIRD_PART, BACKWARDS),
    (0, END, OK),
    (0, THIRD_PART, OUTSIDE_SHARE),
];

/// Values that fall, dealt out ahead in chunks of two, with ordered parts.
const FALLING_PARTS: Ask = Ask::Start(ShareStart::Loop(LoopDesc {
    start: 10,
    incr: -3,
    sched: Sched::Static,
    chunk: 2,
    ordered: true,
    end_kind: EndKind::Nowait,
    ..LOOP
}));

/// An ordered loop of no iterations: its first value lies behind its end.
const EMPTY: Ask = Ask::Start(ShareStart::Loop(LoopDesc {
    start: 3,
    ordered: true,
    end_kind: EndKind::Nowait,
    ..LOOP
}));

const PARTS_DOWNWARDS: &[Line] = &[
    (1, FALLING_PARTS, Answer::Chunk(4, 2)),
    (1, Ask::Inside(InsideCall::BeginPart(4)), WAIT),
    (1, Ask::Inside(InsideCall::BeginPart(10)), BACKWARDS),
    (0, FALLING_PARTS, Answer::Chunk(10, 2)),
    (0, Ask::Inside(InsideCall::BeginPart(9)), BACKWARDS),
    // an iteration without a part
    (0, Ask::Inside(InsideCall::BeginPart(7)), OK),
    (0, END_PART, OK),
    (0, Ask::Inside(InsideCall::BeginPart(10)), BACKWARDS),
    (0, Ask::Inside(InsideCall::BeginPart(7)), BACKWARDS),
    (1, Ask::Inside(InsideCall::BeginPart(4)), WAIT),
    (1, NEXT, WAIT),
    (0, NEXT, NONE),
    (0, END, OK),
    (1, Ask::Inside(InsideCall::BeginPart(4)), OK),
    (1, END_PART, OK),
    (1, Ask::Inside(InsideCall::BeginPart(1)), OK),
    (1, END, IN_ORDERED),
    (1, END_PART, OK),
    (1, END, NOT_DRAINED),
    (1, NEXT, NONE),
    (1, END, OK),
    (0, EMPTY, NONE),
    (0, Ask::Inside(InsideCall::BeginPart(3)), BACKWARDS),
    (0, NEXT, DRAINED),
    (0, END, OK),
    (1, EMPTY, NONE),
];

const SECTIONS: Ask = Ask::Start(ShareStart::Sections {
    count: 3,
    end_kind: EndKind::Nowait,
});

const NO_SECTIONS: Ask = Ask::Start(ShareStart::Sections {
    count: 0,
    end_kind: EndKind::Wait,
});

const NUMBERED: &[Line] = &[
    (0, NEXT_SECTION, OUTSIDE_SHARE),
    (0, SECTIONS, Answer::Section(1)),
    (1, SECTIONS, Answer::Section(2)),
    (1, NEXT_SECTION, Answer::Section(3)),
    (1, END_SECTIONS, NOT_DRAINED),
    (0, NEXT_SECTION, Answer::Section(0)),
    (1, NEXT_SECTION, Answer::Section(0)),
    (0, NEXT_SECTION, DRAINED),
    (1, NEXT_SECTION, DRAINED),
    (0, NEXT, OUTSIDE_SHARE),
    (0, Ask::Claim, OUTSIDE_SHARE),
    (0, END, OUTSIDE_SHARE),
    (0, SECOND_PART, OUTSIDE_SHARE),
    (0, END_SECTIONS_WAIT, END_DIFFERS),
    (0, END_SECTIONS, OK),
    (1, END_SECTIONS, OK),
    (1, END_SECTIONS, OUTSIDE_SHARE),
    (1, NO_SECTIONS, Answer::Section(0)),
    (1, NEXT_SECTION, DRAINED),
    (1, END_SECTIONS, END_DIFFERS),
    (1, END_SECTIONS_WAIT, OK),
    (0, NO_SECTIONS, Answer::Section(0)),
];

const CANCELLABLE: Ask = Ask::Start(ShareStart::Loop(LoopDesc {
    end: 10,
    end_kind: EndKind::Cancellable,
    ..LOOP
}));

const CANCELLED: &[Line] = &[
    (0, CANCEL, OUTSIDE_SHARE),
    (0, CANCELLABLE, Answer::Chunk(0, 1)),
    (1, CANCELLABLE, Answer::Chunk(1, 1)),
    (0, CANCEL_SECTIONS, OUTSIDE_SHARE),
    (0, POINT_SECTIONS_FORBIDDEN, OUTSIDE_SHARE),
    (0, CANCEL_FORBIDDEN, NOT_CANCELLED),
    (1, CANCEL_FORBIDDEN, NOT_CANCELLED),
    (0, POINT, NOT_CANCELLED),
    (1, END_CANCEL, NOT_DRAINED),
    (0, CANCEL, IS_CANCELLED),
    // pieces are dealt out until a member sees the cancellation
    (1, NEXT, Answer::Chunk(2, 1)),
    (1, POINT_FORBIDDEN, NOT_CANCELLED),
    (1, POINT, IS_CANCELLED),
    (0, END, END_DIFFERS),
    (0, END_WAIT, END_DIFFERS),
    (0, END_CANCEL, OK),
    (0, POINT, OUTSIDE_SHARE),
    (2, CANCELLABLE, Answer::Chunk(3, 1)),
    (2, NEXT, Answer::Chunk(4, 1)),
    // seen at the end alone
    (2, END_CANCEL, OK),
    (1, END_CANCEL, OK),
    // the next one is not cancelled
    (1, CANCELLABLE, Answer::Chunk(0, 1)),
    (1, POINT, NOT_CANCELLED),
    (1, END_CANCEL, NOT_DRAINED),
];

const CANCELLABLE_SECTIONS: Ask = Ask::Start(ShareStart::Sections {
    count: 5,
    end_kind: EndKind::Cancellable,
});

const CANCELLED_SECTIONS: &[Line] = &[
    (1, CANCELLABLE_SECTIONS, Answer::Section(1)),
    (0, CANCELLABLE_SECTIONS, Answer::Section(2)),
    (0, CANCEL, OUTSIDE_SHARE),
    (0, END_SECTIONS_CANCEL, NOT_DRAINED),
    (1, CANCEL_SECTIONS, IS_CANCELLED),
    (0, NEXT_SECTION, Answer::Section(3)),
    (0, POINT_SECTIONS, IS_CANCELLED),
    (1, END_SECTIONS_CANCEL, OK),
    (0, END_SECTIONS_CANCEL, OK),
    (0, START, Answer::Chunk(0, 3)),
    (0, CANCEL, NOT_CANCELLABLE),
    (0, POINT_FORBIDDEN, NOT_CANCELLABLE),
    (1, START, Answer::Chunk(3, 3)),
    (1, CANCEL, NOT_CANCELLABLE),
];

const SINGLES: &[Line] = &[
    (1, SINGLE, EXECUTES),
    (0, SINGLE, GOES_BY),
    (0, NEXT, OUTSIDE_SHARE),
    (2, SINGLE, GOES_BY),
    (2, SINGLE, EXECUTES),
    (1, SINGLE, GOES_BY),
    (1, SINGLE, EXECUTES),
    (0, SINGLE, GOES_BY),
    (0, SINGLE, GOES_BY),
    (2, SINGLE, GOES_BY),
];

const COPIES: &[Line] = &[
    (1, Ask::Put, NOT_INSIDE),
    (1, Ask::Take, NOT_INSIDE),
    (1, COPY, EXECUTES),
    (0, COPY, WAIT),
    (0, Ask::Put, NOT_INSIDE),
    (0, COPY, INSIDE_SHARE),
    (0, SINGLE, INSIDE_SHARE),
    (0, NEXT, OUTSIDE_SHARE),
    (0, END, OUTSIDE_SHARE),
    (0, NEXT_SECTION, OUTSIDE_SHARE),
    (1, Ask::Take, NOT_INSIDE),
    (1, START, INSIDE_SHARE),
    (1, Ask::Put, OK),
    (1, Ask::Put, NOT_INSIDE),
    (0, Ask::Take, OK),
    (0, Ask::Take, NOT_INSIDE),
    // a member that comes behind the words
    (2, COPY, WAIT),
    (2, Ask::Put, NOT_INSIDE),
    (2, Ask::Take, OK),
    (2, COPY, EXECUTES),
    (2, Ask::Put, OK),
];

/// A loop with the step 0.
const ZERO: ShareStart = ShareStart::Loop(LoopDesc { incr: 0, ..TEN });

const TOO_MANY_SECTIONS: ShareStart = ShareStart::Sections {
    count: 65_537,
    end_kind: EndKind::Nowait,
};

/// The longest loop, whose one chunk is as large as may be.
const LONGEST: LoopDesc = LoopDesc {
    end: 1 << 39,
    chunk: 1 << 39,
    ..TEN
};

const MOST_SECTIONS: ShareStart = ShareStart::Sections {
    count: 65_536,
    end_kind: EndKind::Nowait,
};

/// Of tests that hold the one with the least number answers.
const REFUSED: &[Line] = &[
    (0, Ask::Start(ZERO), ZERO_STEP),
    (0, Ask::StartAtOnce(ZERO), ZERO_STEP),
    (
        0,
        Ask::Start(ShareStart::Loop(LoopDesc {
            incr: 0,
            chunk: -1,
            ..TEN
        })),
        ZERO_STEP,
    ),
    (
        0,
        Ask::Start(ShareStart::Loop(LoopDesc { chunk: -1, ..TEN })),
        BAD_CHUNK,
    ),
    (
        0,
        Ask::Start(ShareStart::Loop(LoopDesc {
            chunk: (1 << 39) + 1,
            ..TEN
        })),
        BAD_CHUNK,
    ),
    (
        0,
        Ask::Start(ShareStart::Loop(LoopDesc {
            sched: Sched::Runtime,
            ..TEN
        })),
        BAD_CHUNK,
    ),
    (
        0,
        Ask::Start(ShareStart::Loop(LoopDesc {
            chunk: -1,
            end: (1 << 39) + 1,
            ..TEN
        })),
        BAD_CHUNK,
    ),
    (
        0,
        Ask::Start(ShareStart::Loop(LoopDesc {
            end: (1 << 39) + 1,
            ..TEN
        })),
        LOOP_TOO_LONG,
    ),
    (
        0,
        Ask::Start(ShareStart::Loop(LoopDesc {
            start: i64::MAX,
            end: i64::MIN,
            incr: -1,
            ..TEN
        })),
        LOOP_TOO_LONG,
    ),
    (
        0,
        Ask::Start(ShareStart::Loop(LoopDesc {
            ordered: true,
            end_kind: EndKind::Cancellable,
            ..TEN
        })),
        ORDERED_LOOP,
    ),
    (0, Ask::Start(TOO_MANY_SECTIONS), BAD_SECTIONS),
    (0, Ask::StartAtOnce(TOO_MANY_SECTIONS), BAD_SECTIONS),
    (0, Ask::StartOfFew(TOO_MANY_SECTIONS, 0), BAD_SECTIONS),
    (0, Ask::StartOfFew(ZERO, 0), ZERO_STEP),
    (0, Ask::StartOfFew(ShareStart::Loop(TEN), 0), TOO_MANY),
    (0, Ask::StartOfFew(MOST_SECTIONS, 0), TOO_MANY),
    (0, Ask::StartOfFew(ShareStart::SingleCopy, 0), TOO_MANY),
    (0, Ask::StartOfFew(ShareStart::Single, 0), TOO_MANY),
    (0, Ask::StartOfFew(ShareStart::Single, 1), EXECUTES),
    (0, Ask::StartOfFew(ShareStart::Single, 1), TOO_MANY),
    (1, Ask::StartOfFew(MOST_SECTIONS, 0), TOO_MANY),
    (1, Ask::StartOfFew(MOST_SECTIONS, 1), MISMATCH),
    (1, Ask::Start(ZERO), ZERO_STEP),
    (
        0,
        Ask::StartOfFew(ShareStart::Loop(LONGEST), 2),
        Answer::Chunk(0, 1 << 39),
    ),
    (0, Ask::StartOfFew(ZERO, 2), INSIDE_SHARE),
    (0, Ask::Start(TOO_MANY_SECTIONS), INSIDE_SHARE),
    (0, NEXT, NONE),
    (0, END, OK),
    (0, Ask::StartOfFew(MOST_SECTIONS, 2), TOO_MANY),
    (0, Ask::Start(MOST_SECTIONS), Answer::Section(1)),
];

const CASES: &[Case] = &[
    Case {
        name: "a dynamic loop",
        members: 2,
        parts: &[DYNAMIC],
    },
    Case {
        name: "a loop downwards",
        members: 2,
        parts: &[DOWNWARDS],
    },
    Case {
        name: "static loops",
        members: 3,
        parts: &[STATIC],
    },
    Case {
        name: "a guided loop",
        members: 4,
        parts: &[GUIDED],
    },
    Case {
        name: "the ninth loop",
        members: 2,
        parts: &[
            WHOLE, WHOLE, WHOLE, WHOLE, WHOLE, WHOLE, WHOLE, WHOLE, NINTH,
        ],
    },
    Case {
        name: "an ordered loop",
        members: 2,
        parts: &[PARTS],
    },
    Case {
        name: "an ordered loop downwards",
        members: 2,
        parts: &[PARTS_DOWNWARDS],
    },
    Case {
        name: "sections",
        members: 2,
        parts: &[NUMBERED],
    },
    Case {
        name: "a cancelled loop",
        members: 3,
        parts: &[CANCELLED],
    },
    Case {
        name: "cancelled sections",
        members: 2,
        parts: &[CANCELLED_SECTIONS],
    },
    Case {
        name: "singles",
        members: 3,
        parts: &[SINGLES],
    },
    Case {
        name: "singles with words",
        members: 3,
        parts: &[COPIES],
    },
    Case {
        name: "refused starts",
        members: 2,
        parts: &[REFUSED],
    },
];

/// The members ask for what these lines say.
pub(crate) fn walk(rt: &impl Abort, team: &mut SeatedRing, lines: &[Line], name: &str) {
    for (number, (member, ask, expected)) in lines.iter().enumerate() {
        let heard = hear_member(team, *member, ask).expect(rt, "a member");
        same(rt, &heard.reply, &reply_of(*expected), name, number as u64);
        same(rt, &heard.is_steady, &true, name, number as u64);
    }
}

/// A team walks this case.
fn walk_case(rt: &impl Abort, alloc: Global, case: &Case) {
    assert!(rt; is_team_size(case.members));
    let mut team = SeatedRing::new(alloc, case.members).expect(rt, AMPLE);
    for part in case.parts {
        walk(rt, &mut team, part, case.name);
    }
}

/// The cases. A constant is in each step of the function that names it, so this one does nothing else.
fn cases() -> &'static [Case] {
    CASES
}

#[test]
fn members_are_answered(rt: HostRuntime) {
    let alloc = rt.alloc();
    for case in cases() {
        walk_case(&rt, alloc, case);
    }
    meet_others(&rt, alloc);
}

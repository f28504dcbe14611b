//! A member that comes to another construct than the one that the team has there.

use crate::calls::Ask;
use crate::checks::{AMPLE, same};
use crate::rows::{MISMATCH, TEN, walk};
use crate::team::hear_member;
use gomp_seats::SeatedRing;
use gomp_team_shares::ShareStart;
use gomp_types::{EndKind, LoopDesc, Sched};
use std::alloc::Global;
use std::process::Abort;

/// Four iterations, with the values 0, 3, 6 and 9.
const FOUR: LoopDesc = LoopDesc {
    end: 10,
    incr: 3,
    ..TEN
};

/// Constructs of which each differs from each, most in one respect alone.
const CONSTRUCTS: &[ShareStart] = &[
    ShareStart::Loop(FOUR),
    ShareStart::Loop(LoopDesc {
        start: 1,
        end: 11,
        ..FOUR
    }),
    ShareStart::Loop(LoopDesc {
        end: 20,
        incr: 6,
        ..FOUR
    }),
    ShareStart::Loop(LoopDesc { end: 13, ..FOUR }),
    ShareStart::Loop(LoopDesc {
        sched: Sched::Static,
        ..FOUR
    }),
    ShareStart::Loop(LoopDesc {
        sched: Sched::Static,
        chunk: 0,
        ..FOUR
    }),
    ShareStart::Loop(LoopDesc {
        sched: Sched::Guided,
        ..FOUR
    }),
    ShareStart::Loop(LoopDesc { chunk: 4, ..FOUR }),
    ShareStart::Loop(LoopDesc {
        ordered: true,
        ..FOUR
    }),
    ShareStart::Loop(LoopDesc {
        end_kind: EndKind::Wait,
        ..FOUR
    }),
    ShareStart::Loop(LoopDesc {
        end_kind: EndKind::Cancellable,
        ..FOUR
    }),
    ShareStart::Sections {
        count: 4,
        end_kind: EndKind::Nowait,
    },
    ShareStart::Sections {
        count: 1,
        end_kind: EndKind::Nowait,
    },
    ShareStart::Sections {
        count: 4,
        end_kind: EndKind::Wait,
    },
    ShareStart::Single,
    ShareStart::SingleCopy,
];

/// These, by a function of their own: a constant is in each step of the function that names it.
fn constructs() -> &'static [ShareStart] {
    CONSTRUCTS
}

/// What the second member asks for that comes to this construct, which is another one.
fn comes(rt: &impl Abort, team: &mut SeatedRing, other: &ShareStart) {
    let lines = [
        (1, Ask::Start(*other), MISMATCH),
        (1, Ask::StartAtOnce(*other), MISMATCH),
    ];
    walk(rt, team, &lines, "another construct");
}

/// Member 0 is in this construct, or went through it, and member 1 comes to each other one.
fn meet_others_than(rt: &impl Abort, alloc: Global, first: &ShareStart) {
    let mut team = SeatedRing::new(alloc, 2).expect(rt, AMPLE);
    let entered = hear_member(&mut team, 0, &Ask::StartAtOnce(*first));
    same(rt, &entered.is_some(), &true, "a construct", 0);
    for other in constructs() {
        if other != first {
            comes(rt, &mut team, other);
        }
    }
}

/// Each construct is once the team's, and the others come then.
pub(crate) fn meet_others(rt: &impl Abort, alloc: Global) {
    for construct in constructs() {
        meet_others_than(rt, alloc, construct);
    }
}

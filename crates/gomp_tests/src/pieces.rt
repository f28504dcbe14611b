//! The pieces of shares of each kind, by numbers up to the largest, and the cursors that lead to them.

ghost use Rattle.std.specs.Prelude.{◌≡◌, ◌<◌, IfOk};

use crate::checks::same;
use Construct::{Loop, Sections, Single};
use gomp_chunks::{Cursor, Plan};
use gomp_test_data::LOOP;
use gomp_types::{EndKind, LoopDesc, Refusal, Sched, sections_shape, single_shape};
use std::process::Abort;

// The longest loop has 2^39 iterations.
const LONGEST: i64 = 549_755_813_888;

// So many pieces it has in chunks of one.
const MOST: u64 = 549_755_813_888;

/// What a test expects of each work-share.
const PLANNED: &str = "it has a plan";

/// A work-share: a loop by its schedule, iterations and chunk, so many sections, or a `single`.
#[derive(Clone, Copy)]
enum Construct {
    Loop(Sched, i64, i64),
    Sections(u32),
    Single { copies: bool },
}

/// Its plan in a team of so many members.
fn plan_of(construct: Construct, members: u16) -> Result<Plan, Refusal>
    ensures { IfOk result (λ plan. plan.members ≡ members) }
{
    if members == 0 {
        return Err(Refusal::BadTeam);
    }
    match construct {
        Loop(sched, end, chunk) => {
            let desc = LoopDesc {
                end,
                sched,
                chunk,
                ..LOOP
            };
            plan_of_loop(&desc, members)
        }
        Sections(count) => Ok(Plan::of(&sections_shape(count, EndKind::Wait)?, members)),
        Single { copies } => Ok(Plan::of(&single_shape(copies), members)),
    }
}

/// The plan of a loop.
fn plan_of_loop(desc: &LoopDesc, members: u16) -> Result<Plan, Refusal>
    requires { 0 < members }
    ensures { IfOk result (λ plan. plan.members ≡ members) }
{
    Ok(Plan::of(&desc.shape()?, members))
}

// A work-share, its members, and how many pieces that makes; a number, the piece that has it, and its owner.
type PieceRow = (Construct, u16, u64, u64, Option<(u64, u64)>, Option<u16>);

/// Numbers of pieces that no text asks for; tests/pieces.rows has those that one does.
const PIECES: &[PieceRow] = &[
    (
        Loop(Sched::Dynamic, LONGEST, 1),
        4,
        MOST,
        0,
        Some((0, 1)),
        None,
    ),
    (
        Loop(Sched::Dynamic, LONGEST, 1),
        4,
        MOST,
        MOST - 1,
        Some((MOST - 1, MOST)),
        None,
    ),
    (Loop(Sched::Dynamic, LONGEST, 1), 4, MOST, MOST, None, None),
    (
        Loop(Sched::Dynamic, LONGEST, 1),
        4,
        MOST,
        u64::MAX,
        None,
        None,
    ),
    (
        Loop(Sched::Static, LONGEST, 1),
        64,
        MOST,
        MOST - 1,
        Some((MOST - 1, MOST)),
        Some(63),
    ),
    (Loop(Sched::Guided, 20, 2), 4, 7, u64::MAX, None, None),
    (Sections(5), 2, 5, u64::MAX, None, None),
    (Single { copies: true }, 4, 1, u64::MAX, None, None),
];

/// That a work-share has so many pieces, and this piece with this owner.
fn has_piece(rt: &impl Abort, row: &PieceRow, case: u64) {
    let plan = plan_of(row.0, row.1).expect(rt, PLANNED);
    let found = (plan.chunks(), plan.chunk(row.3), plan.owner(row.3));
    same(
        rt,
        found,
        (row.2, row.4, row.5),
        "pieces, piece and owner of row",
        case,
    );
}

// A work-share of a team of two, a member, its takes and those of all; the number of its next piece.
type NextRow = (Construct, u16, u64, u64, Option<u64>);

const NEXT_PIECES: &[NextRow] = &[
    (Loop(Sched::Static, 10, 3), 0, 0, 3, Some(0)),
    (Loop(Sched::Static, 10, 3), 1, 0, 3, Some(1)),
    (Loop(Sched::Static, 10, 3), 1, 1, 3, Some(3)),
    (Loop(Sched::Static, 10, 3), 0, u64::MAX, 3, None),
    (Loop(Sched::Static, 10, 0), 1, 0, 3, Some(1)),
    (Loop(Sched::Static, 10, 0), 1, 1, 3, None),
    (Loop(Sched::Dynamic, 10, 3), 1, 2, 3, Some(3)),
    (Loop(Sched::Guided, 10, 3), 0, 2, 3, Some(3)),
    (Sections(0), 1, 0, 0, Some(0)),
    (Sections(1), 1, 0, 1, Some(1)),
    (Sections(5), 1, 0, 4, Some(4)),
    (Sections(65_536), 1, 0, 65_536, Some(65_536)),
    (Single { copies: false }, 1, 0, 0, Some(0)),
    (Single { copies: true }, 1, 0, u64::MAX, Some(u64::MAX)),
];

/// That a cursor, led through these numbers, gives what the plan gives.
fn follows(rt: &impl Abort, plan: Plan, numbers: &[u64]) {
    let mut cursor = Cursor::new(plan);
    for j in numbers {
        same(rt, cursor.advance_to(*j), plan.chunk(*j), "piece", *j);
    }
}

/// That this is the number of the member's next piece, and that a cursor follows the plan.
fn has_next_piece(rt: &impl Abort, row: &NextRow, case: u64) {
    let plan = plan_of(row.0, 2).expect(rt, PLANNED);
    let member = row.1;
    assert!(rt; member < 2);
    let found = plan.next_number(member, row.2, row.3);
    same(rt, found, row.4, "next piece of row", case);
    follows(rt, plan, &[0, 1, 2, 3, 4, 5, 2, 0, u64::MAX, 1]);
}

/// Loops of 20 iterations: their schedules and chunks.
const LOOPS: &[(Sched, i64)] = &[
    (Sched::Static, 0),
    (Sched::Static, 2),
    (Sched::Dynamic, 0),
    (Sched::Dynamic, 2),
    (Sched::Guided, 0),
    (Sched::Guided, 2),
];

/// That cursors of a loop of 20 iterations follow its plan.
fn follow_loop(rt: &impl Abort, sched: Sched, chunk: i64) {
    let plan = plan_of(Loop(sched, 20, chunk), 4).expect(rt, PLANNED);
    follows(rt, plan, &[0, 1, 2, 3, 4, 5, 6, 7, 8, 19, 20]);
    follows(rt, plan, &[3, 3, 1, 6, 0, 100, 2, u64::MAX, 5]);
}

#[test]
fn pieces_and_their_owners(rt: HostRuntime) {
    for (case, row) in PIECES.iter().enumerate() {
        has_piece(&rt, row, case as u64);
    }
    for (case, row) in NEXT_PIECES.iter().enumerate() {
        has_next_piece(&rt, row, case as u64);
    }
    for (sched, chunk) in LOOPS {
        follow_loop(&rt, *sched, *chunk);
    }
}

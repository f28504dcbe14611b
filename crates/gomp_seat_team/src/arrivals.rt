//! The `barrier` construct and the end of the region.
//!
//! OpenMP API 5.2, sections 10.1 and 15.3.1; libgomp's `GOMP_barrier` and `GOMP_parallel_end`.

ghost use Rattle.std.specs.Prelude.{◌≡◌, ◌≢◌, Some, reverse};
ghost use Rattle.gomp_types.specs.declared.refusal.Refusal.TheVariants.{Mismatch};
ghost use Rattle.gomp_types.specs.Least.{least};
ghost use Rattle.gomp_board.specs.Boards.{Stands};
ghost use Rattle.gomp_team_board.specs.Locked.{AnswersUnless, MovesCounts};
ghost use Rattle.gomp_team_board.specs.Parts.{part_after};
ghost use Rattle.gomp_team_calls.specs.Arrivals.{arrival_place_tests, arrival_with};
ghost use Rattle.gomp_seat_team.specs.Arrivals.{arrival_refused};

use gomp_events::{Arrival, Seen};
use gomp_ring::RingSeat;
use gomp_team_board::{LockedBoard, Part};
use gomp_team_calls::arrivals::arrival;
use gomp_team_calls::{BoardReply, lesser};
use gomp_types::Refusal;
use std::sync::ledger::Ledger;

/// The member arrives at its next barrier (`kind`), with the number of shares that it has entered. `leaving` says that it leaves the
/// region, so that it gives up its share at the region's end. The board answers, unless `found`, or `InsideShare` if the member is
/// in a share, comes before its own refusals.
pub fn arrive<L: Ledger>(
    board: &mut LockedBoard<L>,
    seat: &RingSeat,
    part: &mut Part<L>,
    kind: Arrival,
    leaving: bool,
    found: Option<Refusal>,
) -> BoardReply
    requires own { found ≢ Some Mismatch }
    ensures known { Stands board.old.board (reverse board.old.board.history) }
    ensures op { result.op ≡ arrival_with kind leaving seat.now.seen.entered }
    ensures answer { AnswersUnless (arrival_refused kind leaving found seat.now.seen)
        result.op seat.now.member board.old board.new result.reply }
    ensures counts { MovesCounts result.op seat.now.member board.old board.new result.reply }
    ensures part { part.new ≡ part_after result.op result.reply part.old }
{
    let _ = board.history(); // for clause known
    let seen = seat.seen();
    let op = arrival(kind, leaving, seen.entered);
    let found = lesser(found, inside_refusal(&seen, kind, leaving));
    let reply = board.step_unless(part, seat.member(), &op, found);
    BoardReply { op, reply }
}

/// Why a member that sees this of its place does not arrive: `InsideShare`.
fn inside_refusal(seen: &Seen, kind: Arrival, leaving: bool) -> Option<Refusal>
    ensures least { result ≡ least (arrival_place_tests kind leaving seen.now) }
    ensures own { result ≢ Some Mismatch }
{
    let gives_up = leaving && matches!(kind, Arrival::RegionEnd);
    if seen.current.is_some() && !gives_up {
        return Some(Refusal::InsideShare);
    }
    None
}

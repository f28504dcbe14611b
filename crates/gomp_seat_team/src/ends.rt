//! The ends of loops and sections that have a barrier.
//!
//! OpenMP API 5.2, sections 11.3, 11.5 and 15.3.2; libgomp's `GOMP_loop_end`, `GOMP_sections_end` and their `_cancel` forms.

ghost use Rattle.std.specs.Prelude.{◌≡◌, ◌≢◌, Some, None, reverse};
ghost use Rattle.gomp_types.specs.declared.refusal.Refusal.TheVariants.{Mismatch};
ghost use Rattle.gomp_events.specs.declared.event.Arrival.TheVariants.{ShareEnd as AtShareEnd};
ghost use Rattle.gomp_board.specs.Boards.{Stands};
ghost use Rattle.gomp_team_board.specs.Locked.{MovesCounts};
ghost use Rattle.gomp_team_board.specs.Parts.{part_after};
ghost use Rattle.gomp_team_calls.specs.Arrivals.{arrival_with};
ghost use Rattle.gomp_ring.specs.RingSeats.{IsOnRing};
ghost use Rattle.gomp_seat_calls.specs.Stays.{StaysSeat};
ghost use Rattle.gomp_seat_team.specs.Arrivals.{EndsShare, end_asked};
ghost use Rattle.gomp_seat_team.specs.Moved.{moved};

use gomp_board::Op;
use gomp_events::Arrival;
use gomp_ring::{Ring, RingSeat};
use gomp_seat_calls::{ask_end_refusal, end_refusal, leave_share};
use gomp_team_board::{LockedBoard, Part};
use gomp_team_calls::arrivals::arrival;
use gomp_team_calls::{BoardReply, ShareEnd, lesser};
use gomp_types::{Refusal, Reply};
use std::sync::ledger::Ledger;

/// The member leaves its loop or sections, and arrives at the barrier at its end. `leaving` says that it leaves the region.
///
/// The board's lock is held, so no other member's arrival comes between the two: the member leaves its share once the board lets it
/// arrive. It has then been answered that nothing is left of the share, or has seen that this is cancelled. Refused as `found`, with
/// `OutsideShare`, `InOrdered`, `EndDiffers` or `NotDrained`, or by the board: the least by number answers, and the member has not left
/// its share.
pub fn end_share<L: Ledger>(
    board: &mut LockedBoard<L>,
    ring: &Ring,
    seat: &mut RingSeat,
    part: &mut Part<L>,
    end: ShareEnd,
    leaving: bool,
    found: Option<Refusal>,
) -> BoardReply
    requires ring { IsOnRing ring.now seat.old }
    requires own { found ≢ Some Mismatch }
    ensures known { Stands board.old.board (reverse board.old.board.history) }
    ensures op { result.op ≡ arrival_with AtShareEnd leaving seat.old.seen.entered }
    ensures ends { EndsShare (end_asked end.construct end.end_kind found) result.op
        (moved seat.old seat.new board.old board.new) result.reply }
    ensures stays { StaysSeat seat.old seat.new }
    ensures counts { MovesCounts result.op seat.old.member board.old board.new result.reply }
    ensures part { part.new ≡ part_after result.op result.reply part.old }
{
    let _ = board.history(); // for clause known
    let op = arrival(Arrival::ShareEnd, leaving, seat.entered());
    match found {
        Some(refusal) => {
            let member = seat.member();
            let place = ask_end_refusal(ring, seat, end.construct, end.end_kind);
            let reply = board.step_unless(part, member, &op, lesser(Some(refusal), place));
            BoardReply { op, reply }
        }
        None => end_by_arrival(board, ring, seat, part, end, op),
    }
}

/// The same by this arrival, of a member whose caller found no refusal.
fn end_by_arrival<L: Ledger>(
    board: &mut LockedBoard<L>,
    ring: &Ring,
    seat: &mut RingSeat,
    part: &mut Part<L>,
    end: ShareEnd,
    op: Op,
) -> BoardReply
    requires ring { IsOnRing ring.now seat.old }
    ensures op { result.op ≡ op }
    ensures ends { EndsShare (end_asked end.construct end.end_kind None) op
        (moved seat.old seat.new board.old board.new) result.reply }
    ensures stays { StaysSeat seat.old seat.new }
    ensures counts { MovesCounts op seat.old.member board.old board.new result.reply }
    ensures part { part.new ≡ part_after op result.reply part.old }
{
    let member = seat.member();
    let place = end_refusal(ring, seat, end.construct, end.end_kind);
    match board.step_unless(part, member, &op, place) {
        Reply::Refused(refusal) => BoardReply {
            op,
            reply: Reply::Refused(refusal),
        },
        reply => {
            leave_share(ring, seat);
            BoardReply { op, reply }
        }
    }
}

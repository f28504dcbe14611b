//! The words of a `single` with the `copyprivate` clause, which its executor puts and the others are given.
//!
//! OpenMP API 5.2, section 5.7.2; libgomp's `GOMP_single_copy_end`.

ghost use Rattle.std.specs.Prelude.{◌≡◌, ◌≢◌, Some, reverse};
ghost use Rattle.gomp_types.specs.declared.refusal.Refusal.TheVariants.{Mismatch};
ghost use Rattle.gomp_types.specs.declared.reply.Reply.TheVariants.{Finished};
ghost use Rattle.gomp_types.specs.Least.{least, lesser};
ghost use Rattle.gomp_events.specs.Events.{share_number};
ghost use Rattle.gomp_shares.specs.Singles.{put_tests};
ghost use Rattle.gomp_board.specs.declared.op.Op.TheVariants.{Put};
ghost use Rattle.gomp_board.specs.Boards.{Stands};
ghost use Rattle.gomp_team_board.specs.Locked.{AnswersUnless, MovesCounts};
ghost use Rattle.gomp_team_board.specs.Parts.{part_after};
ghost use Rattle.gomp_ring.specs.RingSeats.{IsOnRing};
ghost use Rattle.gomp_seat_calls.specs.Stays.{LeavesShare, StaysSeat};

use gomp_ring::{Ring, RingSeat};
use gomp_seat_calls::{leave_share, single_copy_end_refusal};
use gomp_team_board::{LockedBoard, Part};
use gomp_team_calls::words::put;
use gomp_team_calls::{BoardReply, lesser};
use gomp_types::{Payload, Refusal, Reply};
use std::sync::ledger::Ledger;

/// The executor of a `single` puts these words in its share, for the members that wait there, and has left that.
///
/// Refused as `found`, with `NotInside` if the member does not execute a `single` whose words are still to be put, or by the board: the
/// least by number answers, and the member has not left its share.
pub fn put_words<L: Ledger>(
    board: &mut LockedBoard<L>,
    ring: &Ring,
    seat: &mut RingSeat,
    part: &mut Part<L>,
    words: &Payload,
    found: Option<Refusal>,
) -> BoardReply
    requires ring { IsOnRing ring.now seat.old }
    requires own { found ≢ Some Mismatch }
    ensures known { Stands board.old.board (reverse board.old.board.history) }
    ensures op { result.op ≡ Put (share_number seat.old.seen.current) words.now }
    ensures answer { AnswersUnless (lesser found (least (put_tests seat.old.seen)))
        result.op seat.old.member board.old board.new result.reply }
    ensures left { result.reply ≡ Finished → LeavesShare seat.old seat.new }
    ensures kept { result.reply ≢ Finished → seat.new ≡ seat.old }
    ensures stays { StaysSeat seat.old seat.new }
    ensures counts { MovesCounts result.op seat.old.member board.old board.new result.reply }
    ensures part { part.new ≡ part_after result.op result.reply part.old }
{
    let _ = board.history(); // for clause known
    let op = put(share_of(seat), words);
    let found = lesser(found, single_copy_end_refusal(seat));
    match board.step_unless(part, seat.member(), &op, found) {
        Reply::Finished => {
            leave_share(ring, seat);
            BoardReply {
                op,
                reply: Reply::Finished,
            }
        }
        reply => BoardReply { op, reply },
    }
}

/// The number of the share that the member is in; 0 outside of every share, where its place refuses it whatever the number is.
pub(crate) fn share_of(seat: &RingSeat) -> u64
    ensures { result ≡ share_number seat.now.seen.current }
{
    match seat.current() {
        Some((share, _)) => share,
        None => 0,
    }
}

//! The starts of constructs that are shares: loops, sections and `single`.
//!
//! OpenMP API 5.2, sections 11.1, 11.3, 11.5 and 5.7.2; libgomp's `GOMP_loop_start`, `GOMP_sections_start`, `GOMP_single_start` and
//! `GOMP_single_copy_start`.

ghost use Rattle.std.specs.Prelude.{ℕ, ◌≡◌, ◌≢◌, ◌<◌, true, IsSome, Some, None};
ghost use Rattle.gomp_types.specs.declared.refusal.Refusal.{Refusal};
ghost use Rattle.gomp_types.specs.declared.refusal.Refusal.TheVariants.{Mismatch};
ghost use Rattle.gomp_types.specs.declared.reply.Reply.TheVariants.{Refused};
ghost use Rattle.gomp_shares.specs.Calls.{CanOpen};
ghost use Rattle.gomp_board.specs.declared.op.Op.TheVariants.{Reserve};
ghost use Rattle.gomp_board.specs.KeptPayload.{HasPayload};
ghost use Rattle.gomp_team_board.specs.Locked.{team_size};
ghost use Rattle.gomp_team_board.specs.Parts.{counts_in};
ghost use Rattle.gomp_team_calls.specs.Arrivals.{IsAccepted};
ghost use Rattle.gomp_team_calls.specs.Starts.{start_part};
ghost use Rattle.gomp_team_shares.specs.Constructs.{construct_shape};
ghost use Rattle.gomp_ring.specs.RingSeats.{IsOnRing};
ghost use Rattle.gomp_seat_calls.specs.Starts.{IsStarted, awaits_payload};
ghost use Rattle.gomp_seat_calls.specs.Stays.{LeavesShare, StaysSeat};
ghost use Rattle.gomp_seat_team.specs.Moved.{moved};
ghost use Rattle.gomp_seat_team.specs.Starts.{AnswersNote, EntersBySeat, GoesOnBy, GoesOnWaiting, IsStartRefusedFor, RefusesLeast, StartsShare, TakesWords, seat_start};

use crate::words::share_of;
use gomp_board::Op;
use gomp_dispatch::cut_reply;
use gomp_ring::{Ring, RingSeat};
use gomp_seat_calls::{awaits_payload, compared_shape, leave_share, start_admitted};
use gomp_team_board::{LockedBoard, Part};
use gomp_team_calls::starts::{back_room, do_at_once, note_words, refuse_start, reserve_op};
use gomp_team_calls::{BoardReply, lesser};
use gomp_team_shares::ShareStart;
use gomp_types::{Limits, Payload, Refusal, Reply, Shape};
use std::sync::ledger::Ledger;

/// The member starts a construct, or goes on with a start that waits outside of its share (`repeated`), whose room the board keeps
/// already.
///
/// `Wait` if some member has not left the share eight before, if another is opening the share at this moment, or if the member waits
/// in a `single` for the words that its executor puts: then it goes on by [`go_on_waiting`]. In a cancelled region the answer is
/// `Cancelled` instead. Refused as `found`, by its place, with `Mismatch` if the team's share of this number is another construct, which
/// breaks the team and gives back the room that the start has kept, or by the board: the least by number answers.
pub fn start_share<L: Ledger>(
    board: &mut LockedBoard<L>,
    ring: &Ring,
    seat: &mut RingSeat,
    part: &mut Part<L>,
    start: &ShareStart,
    repeated: bool,
    limits: &Limits,
    found: Option<Refusal>,
) -> BoardReply
    requires ring { IsOnRing ring.now seat.old }
    requires own { found ≢ Some Mismatch }
    ensures starts { StartsShare (seat_start start.now repeated limits.now found)
        (moved seat.old seat.new board.old board.new) result.reply }
    ensures refused { IsSome found → (refusal : Refusal) × (result.reply ≡ Refused refusal) }
    ensures stays { StaysSeat seat.old seat.new }
    ensures counts { (k : ℕ) →
        counts_in k board.new.board.history ≡ counts_in k board.old.board.history }
    ensures part { part.new ≡ start_part result.reply part.old }
{
    let op = reserve_op(start, repeated);
    let entered = seat.entered();
    match compared_shape(ring, seat, start, limits) {
        Ok(shape) => match found {
            None => enter(board, ring, seat, part, start, &shape, op),
            Some(refusal) => {
                let back = back_room(start, repeated);
                refuse_start(board, part, seat.member(), op, refusal, entered, back)
            }
        },
        Err(place) => match lesser(found, Some(place)) {
            None => unreachable!(),
            Some(refusal) => {
                let back = back_room(start, repeated);
                refuse_start(board, part, seat.member(), op, refusal, entered, back)
            }
        },
    }
}

/// The board keeps the room of the start, by this operation, and the member enters its next share. If the team's share of this number
/// turns out to be another construct the team breaks, and the room that the start keeps goes back.
fn enter<L: Ledger>(
    board: &mut LockedBoard<L>,
    ring: &Ring,
    seat: &mut RingSeat,
    part: &mut Part<L>,
    start: &ShareStart,
    shape: &Shape,
    op: Op,
) -> BoardReply
    requires ring { IsOnRing ring.now seat.old }
    requires op { (more : ℕ) × (op ≡ Reserve more) }
    requires shape { shape.now ≡ construct_shape start.now }
    requires place { CanOpen seat.old.members seat.old.member shape.now seat.old.seen }
    ensures refused { seat.old.member < team_size board.old → RefusesLeast None op
        (moved seat.old seat.new board.old board.new) result.reply }
    ensures enters { IsAccepted result.reply → EntersBySeat start.now op
        (moved seat.old seat.new board.old board.new) result.reply }
    ensures cause { (refusal : Refusal) → result.reply ≡ Refused refusal →
        IsStartRefusedFor start.now None op (moved seat.old seat.new board.old board.new)
        result.reply }
    ensures stays { StaysSeat seat.old seat.new }
    ensures counts { (k : ℕ) →
        counts_in k board.new.board.history ≡ counts_in k board.old.board.history }
    ensures part { part.new ≡ start_part result.reply part.old }
{
    let member = seat.member();
    if let Err(refusal) = do_at_once(board, part, member, &op) {
        return BoardReply {
            op,
            reply: Reply::Refused(refusal),
        };
    }
    let _ = board.history(); // for clause cause
    let entered = seat.entered();
    match start_admitted(ring, seat, start, shape) {
        Reply::Refused(_) => {
            let back = back_room(start, true);
            refuse_start(board, part, member, op, Refusal::Mismatch, entered, back)
        }
        reply => go_on(board, ring, seat, part, reply, op),
    }
}

/// The member goes on once it has tried to enter its share, and was answered so.
fn go_on<L: Ledger>(
    board: &mut LockedBoard<L>,
    ring: &Ring,
    seat: &mut RingSeat,
    part: &mut Part<L>,
    reply: Reply,
    op: Op,
) -> BoardReply
    requires ring { IsOnRing ring.now seat.old }
    requires started { IsStarted reply }
    requires accepted { IsAccepted reply }
    ensures goes_on { IsAccepted result.reply → GoesOnBy (awaits_payload seat.old.seen)
        reply (moved seat.old seat.new board.old board.new) result.reply }
    ensures cause { (refusal : Refusal) → result.reply ≡ Refused refusal →
        AnswersNote seat.old result.reply }
    ensures stays { StaysSeat seat.old seat.new }
    ensures counts { (k : ℕ) →
        counts_in k board.new.board.history ≡ counts_in k board.old.board.history }
    ensures part { part.new ≡ start_part result.reply part.old }
{
    if awaits_payload(seat) {
        let reply = copy_words(board, ring, seat, part);
        return BoardReply { op, reply };
    }
    let reply = cut_reply(reply, board.is_cancelled());
    BoardReply { op, reply }
}

/// A member that waits in its share for the words of a `single` goes on: it copies them, if they are put, and has left the share then.
///
/// `Wait` if they are not put, or `Cancelled` in a cancelled region. Refused as `found`, or by the board, as an operation that asks for
/// nothing: then the member waits on in its share.
pub fn go_on_waiting<L: Ledger>(
    board: &mut LockedBoard<L>,
    ring: &Ring,
    seat: &mut RingSeat,
    part: &mut Part<L>,
    found: Option<Refusal>,
) -> BoardReply
    requires ring { IsOnRing ring.now seat.old }
    requires own { found ≢ Some Mismatch }
    requires waits { awaits_payload seat.old.seen ≡ true }
    ensures goes_on { GoesOnWaiting found (moved seat.old seat.new board.old board.new)
        result.reply }
    ensures refused { IsSome found → (refusal : Refusal) × (result.reply ≡ Refused refusal) }
    ensures stays { StaysSeat seat.old seat.new }
    ensures counts { (k : ℕ) →
        counts_in k board.new.board.history ≡ counts_in k board.old.board.history }
    ensures part { part.new ≡ start_part result.reply part.old }
{
    let op = Op::Reserve(0);
    let member = seat.member();
    if let Some(refusal) = found {
        let entered = seat.entered();
        return refuse_start(board, part, member, op, refusal, entered, 0);
    }
    if let Err(refusal) = do_at_once(board, part, member, &op) {
        return BoardReply {
            op,
            reply: Reply::Refused(refusal),
        };
    }
    let reply = copy_words(board, ring, seat, part);
    BoardReply { op, reply }
}

/// The member copies the words of the share in which it waits for them, and leaves that, if they are put: the board notes that it was
/// given them. If the board refuses that, so is the call, and the member has not left its share.
fn copy_words<L: Ledger>(
    board: &mut LockedBoard<L>,
    ring: &Ring,
    seat: &mut RingSeat,
    part: &mut Part<L>,
) -> Reply
    requires ring { IsOnRing ring.now seat.old }
    requires waits { awaits_payload seat.old.seen ≡ true }
    ensures takes { IsAccepted result →
        TakesWords (moved seat.old seat.new board.old board.new) result }
    ensures kept { (refusal : Refusal) → result ≡ Refused refusal → seat.new ≡ seat.old }
    ensures cause { (refusal : Refusal) → result ≡ Refused refusal →
        AnswersNote seat.old result }
    ensures matches { result ≢ Refused Mismatch }
    ensures stays { StaysSeat seat.old seat.new }
    ensures counts { (k : ℕ) →
        counts_in k board.new.board.history ≡ counts_in k board.old.board.history }
    ensures part { part.new ≡ start_part result part.old }
{
    let _ = board.history(); // for clause cause
    let share = share_of(seat);
    let cancelled = board.is_cancelled();
    match words_of(board, share) {
        None => cut_reply(Reply::Wait, cancelled),
        Some(words) => match note_words(board, part, seat.member(), share, words) {
            Reply::Copied(words) => {
                leave_waiting(ring, seat);
                Reply::Copied(words)
            }
            Reply::Refused(refusal) => Reply::Refused(refusal),
            _ => unreachable!(),
        },
    }
}

/// The words that the board has for the share.
fn words_of<L: Ledger>(board: &LockedBoard<L>, share: u64) -> Option<Payload>
    ensures { HasPayload board.now.board share result }
{
    match board.payload(share) {
        Some(words) => Some(words.copied()),
        None => None,
    }
}

/// The member leaves the share in which it waits for words.
fn leave_waiting(ring: &Ring, seat: &mut RingSeat)
    requires ring { IsOnRing ring.now seat.old }
    requires waits { awaits_payload seat.old.seen ≡ true }
    ensures leaves { LeavesShare seat.old seat.new }
    ensures stays { StaysSeat seat.old seat.new }
{
    // Asked again, after the board: its answer says that the member may leave.
    if awaits_payload(seat) {
        leave_share(ring, seat);
    } else {
        unreachable!()
    }
}

//! What the starts of constructs that are shares (loops, sections and `single`) ask of the board: their
//! room, a note of words, and the break of a start that differs from the team's share.
//!
//! OpenMP API 5.2, sections 11.1, 11.3, 11.5 and 5.7.2; libgomp's `GOMP_loop_start`,
//! `GOMP_sections_start`, `GOMP_single_start` and `GOMP_single_copy_start`.

ghost use Rattle.std.specs.Prelude.{ℕ, ◌≡◌, ◌≢◌, ◌<◌, ◌↔◌, IsTrue, Some, None, Ok, Err, reverse};
ghost use Rattle.gomp_types.specs.declared.refusal.Refusal.{Refusal};
ghost use Rattle.gomp_types.specs.declared.refusal.Refusal.TheVariants.{Mismatch};
ghost use Rattle.gomp_types.specs.declared.refusal.Place.TheVariants.{Share};
ghost use Rattle.gomp_types.specs.declared.reply.Reply.TheVariants.{Finished, Copied, Refused};
ghost use Rattle.gomp_types.specs.RefusalTexts.{number_of};
ghost use Rattle.gomp_shares.specs.Calls.{EachStands};
ghost use Rattle.gomp_board.specs.declared.op.Op.TheVariants.{Reserve, Got, Break};
ghost use Rattle.gomp_board.specs.Boards.{Stands};
ghost use Rattle.gomp_model.specs.Starts.{end_room};
ghost use Rattle.gomp_team_board.specs.Locked.{team_size, locked_refusal, AnswersNumber};
ghost use Rattle.gomp_team_board.specs.Parts.{counts_in, part_after};
ghost use Rattle.gomp_team_calls.specs.Arrivals.{IsAccepted};
ghost use Rattle.gomp_team_calls.specs.Starts.{start_room, back_room, reserve_op, IsDoneAtOnce, IsLate, start_part, LesserAnswers, IsRefusedBy};

use crate::board_reply::BoardReply;
use gomp_board::Op;
use gomp_events::{ARRIVAL_ROOM, PAYLOAD_ROOM};
use gomp_team_board::{LockedBoard, Part};
use gomp_team_shares::ShareStart;
use gomp_types::{EndKind, Payload, Place, Refusal, Reply};
use std::sync::ledger::Ledger;

/// Refuses a start by the refusal that was found, or by one of the board's with a lesser number. A
/// mismatch at this share breaks the team, and gives so much room back.
pub fn refuse_start<L: Ledger>(
    board: &mut LockedBoard<L>,
    part: &mut Part<L>,
    member: u16,
    op: Op,
    refusal: Refusal,
    entered: u64,
    back: u32,
) -> BoardReply
    requires op { (more : ℕ) × (op ≡ Reserve more) }
    ensures refused { (first : Refusal) × (result.reply ≡ Refused first) }
    ensures least { member < team_size board.old → LesserAnswers
        refusal (locked_refusal member board.old op) board.old.board result.reply }
    ensures breaks { result.reply ≡ Refused Mismatch →
        AnswersNumber (Break (Share entered) back) member board.old board.new (Refused Mismatch) }
    ensures counts { (k : ℕ) →
        counts_in k board.new.board.history ≡ counts_in k board.old.board.history }
    ensures part { part.new ≡ start_part result.reply part.old }
{
    if is_mismatch(&refusal) {
        return break_team(board, part, member, op, entered, back);
    }
    match board.step_unless(part, member, &op, Some(refusal)) {
        Reply::Refused(first) => BoardReply {
            op,
            reply: Reply::Refused(first),
        },
        _ => unreachable!(),
    }
}

/// Whether the refusal is `Mismatch`.
fn is_mismatch(refusal: &Refusal) -> bool
    ensures { IsTrue result ↔ (refusal.now ≡ Mismatch) }
{
    matches!(refusal, Refusal::Mismatch)
}

/// The operation that asks for the room of a start.
pub fn reserve_op(start: &ShareStart, repeated: bool) -> Op
    ensures value { result ≡ reserve_op start.now repeated }
    ensures done { IsDoneAtOnce result }
{
    if repeated {
        return Op::Reserve(0);
    }
    Op::Reserve(start_room(start))
}

/// The room that the start gives back if it differs.
pub fn back_room(start: &ShareStart, repeated: bool) -> u32
    ensures { result ≡ back_room start.now repeated }
{
    if repeated {
        return start_room(start);
    }
    0
}

/// The room that the start asks for (own).
fn start_room(start: &ShareStart) -> u32
    ensures { result ≡ start_room start.now }
{
    match start {
        ShareStart::Loop(desc) => end_room(desc.end_kind),
        ShareStart::Sections { end_kind, .. } => end_room(*end_kind),
        ShareStart::Single => 0,
        ShareStart::SingleCopy => PAYLOAD_ROOM,
    }
}

/// The room for the arrival at a construct's end, if it has a barrier there.
fn end_room(kind: EndKind) -> u32
    ensures { result ≡ end_room kind }
{
    match kind {
        EndKind::Nowait => 0,
        _ => ARRIVAL_ROOM,
    }
}

/// Has the board do an operation that it does at once, or refuses.
pub fn do_at_once<L: Ledger>(
    board: &mut LockedBoard<L>,
    part: &mut Part<L>,
    member: u16,
    op: &Op,
) -> Result<(), Refusal>
    requires op { IsDoneAtOnce op.now }
    ensures done { result ≡ Ok tt → AnswersNumber op.now member board.old board.new Finished }
    ensures refused { (refusal : Refusal) → result ≡ Err refusal →
        AnswersNumber op.now member board.old board.new (Refused refusal) }
    ensures compares { result ≢ Err Mismatch }
    ensures counts { (k : ℕ) →
        counts_in k board.new.board.history ≡ counts_in k board.old.board.history }
    ensures part_done { result ≡ Ok tt → part.new ≡ part_after op.now Finished part.old }
    ensures part_refused { (refusal : Refusal) → result ≡ Err refusal →
        part.new ≡ part_after op.now (Refused refusal) part.old }
{
    match board.step(part, member, op) {
        Reply::Finished => Ok(()),
        Reply::Refused(refusal) => Err(refusal),
        _ => unreachable!(),
    }
}

/// Notes that the member is given these words of the share. If the board refuses that, so is the call.
pub fn note_words<L: Ledger>(
    board: &mut LockedBoard<L>,
    part: &mut Part<L>,
    member: u16,
    share: u64,
    words: Payload,
) -> Reply
    ensures given { IsAccepted result → (result ≡ Copied words) ×
        AnswersNumber (Got share words) member board.old board.new Finished }
    ensures refused { (refusal : Refusal) → result ≡ Refused refusal →
        AnswersNumber (Got share words) member board.old board.new (Refused refusal) }
    ensures matches { result ≢ Refused Mismatch }
    ensures counts { (k : ℕ) →
        counts_in k board.new.board.history ≡ counts_in k board.old.board.history }
    ensures part { part.new ≡ start_part result part.old }
{
    let op = Op::Got {
        share,
        words: words.copied(),
    };
    match do_at_once(board, part, member, &op) {
        Ok(()) => Reply::Copied(words),
        Err(refusal) => Reply::Refused(refusal),
    }
}

/// Breaks the team: its share of this number is another construct. A refusal of the room that the start
/// asks for, with a lesser number, comes first.
fn break_team<L: Ledger>(
    board: &mut LockedBoard<L>,
    part: &mut Part<L>,
    member: u16,
    op: Op,
    entered: u64,
    back: u32,
) -> BoardReply
    requires op { (more : ℕ) × (op ≡ Reserve more) }
    ensures refused { (refusal : Refusal) × (result.reply ≡ Refused refusal) }
    ensures least { member < team_size board.old → LesserAnswers
        Mismatch (locked_refusal member board.old op) board.old.board result.reply }
    ensures breaks { result.reply ≡ Refused Mismatch →
        AnswersNumber (Break (Share entered) back) member board.old board.new (Refused Mismatch) }
    ensures counts { (k : ℕ) →
        counts_in k board.new.board.history ≡ counts_in k board.old.board.history }
    ensures part { part.new ≡ start_part result.reply part.old }
{
    match early_refusal(board, member, &op) {
        Some(refusal) => BoardReply {
            op,
            reply: Reply::Refused(refusal),
        },
        None => break_share(board, part, member, entered, back),
    }
}

/// Breaks the team at this share, and gives so much room back.
fn break_share<L: Ledger>(
    board: &mut LockedBoard<L>,
    part: &mut Part<L>,
    member: u16,
    share: u64,
    back: u32,
) -> BoardReply
    ensures op { result.op ≡ Break (Share share) back }
    ensures refused { (refusal : Refusal) × (result.reply ≡ Refused refusal) }
    ensures answer { AnswersNumber result.op member board.old board.new result.reply }
    ensures counts { (k : ℕ) →
        counts_in k board.new.board.history ≡ counts_in k board.old.board.history }
    ensures part { part.new ≡ start_part result.reply part.old }
{
    let op = Op::Break {
        place: Place::Share(share),
        back,
    };
    match board.step(part, member, &op) {
        Reply::Refused(refusal) => BoardReply {
            op,
            reply: Reply::Refused(refusal),
        },
        _ => unreachable!(),
    }
}

/// Why the board refuses the operation, if that comes before a mismatch.
fn early_refusal<L: Ledger>(board: &LockedBoard<L>, member: u16, op: &Op) -> Option<Refusal>
    ensures known { Stands board.now.board (reverse board.now.board.history) }
    ensures none { result ≡ None → member < team_size board.now }
    ensures late { result ≡ None → EachStands (Stands board.now.board) (λ k.
        IsLate (locked_refusal member board.now op.now k)) }
    ensures early { (refusal : Refusal) → result ≡ Some refusal →
        (number_of refusal < number_of Mismatch) × (member < team_size board.now →
        IsRefusedBy refusal member op.now board.now) }
{
    let _ = board.history(); // for clause known
    match board.first_refusal(member, op) {
        None => None,
        Some(refusal) => {
            if refusal.number() >= Refusal::Mismatch.number() {
                return None;
            }
            Some(refusal)
        }
    }
}

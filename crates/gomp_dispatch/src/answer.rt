//! What a member is answered if no test of its call holds.

ghost use Rattle.std.specs.Prelude.{◌≡◌, ◌≢◌, ◌<◌, true};
ghost use Rattle.gomp_types.specs.declared.call.Server.TheVariants.{Shares as OfShares, Book, Team as Together};
ghost use Rattle.gomp_types.specs.Servers.{served_by};
ghost use Rattle.gomp_types.specs.Singles.{single_shape};
ghost use Rattle.gomp_shares.specs.Calls.{MayOpenAs};
ghost use Rattle.gomp_model.specs.Singles.{single_copy_start_row};
ghost use Rattle.gomp_model.specs.Calls.{row_of};
ghost use Rattle.gomp_board.specs.Boards.{members_of};
ghost use Rattle.gomp_dispatch.specs.Answers.{StartsShare, IsDrained, SomeServersAdmit, AnswersCall, asked_so};

use crate::arrivals::{arrival_reply, end_reply};
use crate::leaving::Manner;
use crate::room::{asked_once, keep_room};
use crate::shares::{CancelTerms, copy_reply, cut_reply, put_words, share_reply};
use crate::tasks::board_admitted;
use gomp_board::Board;
use gomp_events::Arrival;
use gomp_shares::Shares;
use gomp_types::{Call, Refusal, Reply, Server, Shape};

/// Answers a call of the member, numbered from 0, which starts a share of this shape if it starts
/// one (`starts`), made so (`manner`), or goes on with one that waits. The book of names and locks
/// answers the calls on these.
///
/// No test of the call holds. `NoMemory` if there is none for the room that the call asks for:
/// nothing changes then. If a call that waits is asked about again and waits on, nothing changes.
/// In a cancelled region a call that would wait at its share or at a barrier is answered
/// `Cancelled` (OpenMP API 5.2, section 16.1).
#[inline(always)]
pub fn call_admitted<S: Shares>(
    shares: &mut S,
    board: &mut Board,
    member: u16,
    call: &Call,
    starts: &Option<Shape>,
    manner: Manner,
) -> Reply
    requires member { member < S.members shares.old }
    requires aside { served_by call.now ≢ Book }
    requires starts { StartsShare (row_of call.now) (S.seen shares.old member) starts.now }
    requires drained { IsDrained manner.repeated (row_of call.now) S.stands shares.old member }
    requires team { members_of board.old ≡ S.members shares.old }
    requires admitted { SomeServersAdmit S.stands shares.old board.old
        (row_of call.now) manner member }
    ensures answers { AnswersCall (asked_so S.stands (row_of call.now) manner member)
        shares.old shares.new board.old board.new result }
    ensures members { S.members shares.new ≡ S.members shares.old }
{
    match call {
        // Three calls that a program makes again and again: where the caller knows that it is one of these, the
        // compiler cuts the rest away.
        Call::LoopNext => {
            let team = CancelTerms {
                cancelled: board.is_cancelled(),
                allowed: manner.allowed,
            };
            share_reply(shares, member, call, starts, team)
        }
        Call::Barrier => arrival_reply(shares, board, member, Arrival::Barrier, manner),
        Call::RegionEnd => arrival_reply(shares, board, member, Arrival::RegionEnd, manner),
        // Asked by the team too, for the book alone, of which this crate knows nothing.
        _ => match call.served_by() {
            Server::Shares => share_admitted(shares, board, member, call, starts, manner),
            Server::Board => board_admitted(board, member, call, manner),
            Server::Team => together_admitted(shares, board, member, call, starts, manner),
            Server::Book => unreachable!(),
        },
    }
}

/// Answers a call that brings the shares and the board together: one that arrives at a barrier, or
/// that copies words.
// A frame of its own: that of each step, all of which is zeroed first, stays small.
#[inline(never)]
fn together_admitted<S: Shares>(
    shares: &mut S,
    board: &mut Board,
    member: u16,
    call: &Call,
    starts: &Option<Shape>,
    manner: Manner,
) -> Reply
    requires member { member < S.members shares.old }
    requires together { served_by call.now ≡ Together }
    requires starts { StartsShare (row_of call.now) (S.seen shares.old member) starts.now }
    requires drained { IsDrained manner.repeated (row_of call.now) S.stands shares.old member }
    requires team { members_of board.old ≡ S.members shares.old }
    requires admitted { SomeServersAdmit S.stands shares.old board.old
        (row_of call.now) manner member }
    ensures members { S.members shares.new ≡ S.members shares.old }
    ensures answers { AnswersCall (asked_so S.stands (row_of call.now) manner member)
        shares.old shares.new board.old board.new result }
{
    match call {
        Call::LoopEnd => end_reply(shares, board, member, manner),
        Call::LoopEndCancel => end_reply(shares, board, member, manner),
        Call::SectionsEnd => end_reply(shares, board, member, manner),
        Call::SectionsEndCancel => end_reply(shares, board, member, manner),
        Call::Barrier => arrival_reply(shares, board, member, Arrival::Barrier, manner),
        Call::RegionEnd => arrival_reply(shares, board, member, Arrival::RegionEnd, manner),
        Call::SingleCopyStart => start_copy(shares, board, member, manner),
        Call::SingleCopyEnd(words) => put_words(shares, board, member, words),
        _ => unreachable!(),
    }
}

/// Answers a call on a share that has no words and no barrier, once the room is kept that it asks
/// for.
// A frame of its own: that of each step, all of which is zeroed first, stays small.
#[inline(never)]
fn share_admitted<S: Shares>(
    shares: &mut S,
    board: &mut Board,
    member: u16,
    call: &Call,
    starts: &Option<Shape>,
    manner: Manner,
) -> Reply
    requires member { member < S.members shares.old }
    requires served { served_by call.now ≡ OfShares }
    requires starts { StartsShare (row_of call.now) (S.seen shares.old member) starts.now }
    requires drained { IsDrained manner.repeated (row_of call.now) S.stands shares.old member }
    requires team { members_of board.old ≡ S.members shares.old }
    requires admitted { SomeServersAdmit S.stands shares.old board.old
        (row_of call.now) manner member }
    ensures members { S.members shares.new ≡ S.members shares.old }
    ensures answers { AnswersCall (asked_so S.stands (row_of call.now) manner member)
        shares.old shares.new board.old board.new result }
{
    if !keep_room(board, member, asked_once(manner.repeated, call)) {
        return Reply::Refused(Refusal::NoMemory);
    }
    let team = CancelTerms {
        cancelled: board.is_cancelled(),
        allowed: manner.allowed,
    };
    share_reply(shares, member, call, starts, team)
}

/// Answers the start of a `single` with words, once the room is kept that they need.
fn start_copy<S: Shares>(shares: &mut S, board: &mut Board, member: u16, manner: Manner) -> Reply
    requires member { member < S.members shares.old }
    requires starts { MayOpenAs (S.seen shares.old member) (single_shape true) }
    requires team { members_of board.old ≡ S.members shares.old }
    requires admitted { SomeServersAdmit S.stands shares.old board.old
        single_copy_start_row manner member }
    ensures members { S.members shares.new ≡ S.members shares.old }
    ensures answers { AnswersCall (asked_so S.stands single_copy_start_row manner member)
        shares.old shares.new board.old board.new result }
{
    if !keep_room(
        board,
        member,
        asked_once(manner.repeated, &Call::SingleCopyStart),
    ) {
        return Reply::Refused(Refusal::NoMemory);
    }
    let cancelled = board.is_cancelled();
    let reply = copy_reply(shares, board, member);
    cut_reply(reply, cancelled)
}

//! What a member is answered if no test of its call holds, by the parts of its team or by the book of
//! names and locks.

ghost use Rattle.std.specs.Prelude.{◌≡◌, ◌<◌, true, Some};
ghost use Rattle.gomp_model.specs.Calls.{row_of};
ghost use Rattle.gomp_board.specs.Boards.{members_of};
ghost use Rattle.gomp_dispatch.specs.Answers.{StartsShare, IsDrained, asked_so};
ghost use Rattle.gomp_book_calls.specs.Stands.{IsKnown};
ghost use Rattle.gomp_core.specs.Replies.{SomeTeamAdmits, AnswersAll, all_parts};

use gomp_board::Board;
use gomp_book_calls::book_admitted;
use gomp_dispatch::Manner;
use gomp_dispatch::answer::call_admitted;
use gomp_locks::LockBook;
use gomp_shares::Shares;
use gomp_types::{Call, Reply, Server, Shape};

/// Answers a call of the member, numbered from 0, which starts a share of this shape if it starts one
/// (`starts`), made so (`manner`), or goes on with one that waits: by the book, if it asks for a name
/// or a lock, and else by the parts.
///
/// No test of the call holds. It may find no memory if it takes some (`NoMemory`); then nothing
/// changes (OpenMP API 5.2, chapters 11, 12 and 15, section 18.9).
#[inline(always)]
pub fn team_reply<S: Shares>(
    shares: &mut S,
    board: &mut Board,
    book: &mut LockBook,
    member: u16,
    call: &Call,
    starts: &Option<Shape>,
    manner: Manner,
) -> Reply
    requires member { member < S.members shares.old }
    requires starts { StartsShare (row_of call.now) (S.seen shares.old member) starts.now }
    requires drained { IsDrained manner.repeated (row_of call.now) S.stands shares.old member }
    requires team { members_of board.old ≡ S.members shares.old }
    requires admitted { SomeTeamAdmits
        (asked_so S.stands (row_of call.now) manner member) shares.old board.old book.old }
    requires known { manner.repeated ≡ true → IsKnown book.old (Some call.now) }
    ensures members { S.members shares.new ≡ S.members shares.old }
    ensures answers { AnswersAll
        (record { stands = S.stands; call = call.now; manner = manner; m = member; reply = result })
        (all_parts shares.old board.old book.old) (all_parts shares.new board.new book.new) }
{
    match call {
        // Where the caller knows that it is one of these, the compiler cuts the rest away.
        Call::LoopNext | Call::Barrier | Call::RegionEnd => {
            call_admitted(shares, board, member, call, starts, manner)
        }
        // gomp_dispatch asks it again, of calls that are no book's: it is a number in a table, and it has no arm for the book.
        _ => match call.served_by() {
            Server::Book => {
                let task = board.current(member);
                book_admitted(book, member, task, call, manner.repeated)
            }
            Server::Shares | Server::Board | Server::Team => {
                call_admitted(shares, board, member, call, starts, manner)
            }
        },
    }
}

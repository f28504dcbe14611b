//! The calls on the shares: starts, which ask for room first, nexts, ordered parts, ends with no
//! barrier, constructs that cancel a share, and the words of singles.
//!
//! OpenMP API 5.2, sections 11.1, 11.3, 11.5, 15.10.2, 16.1, 16.2 and 5.7.2.

ghost use Rattle.std.specs.Prelude.{ℕ, ◌≡◌, ◌<◌, List, None, true, false};
ghost use Rattle.gomp_types.specs.declared.call.Server.TheVariants.{Shares};
ghost use Rattle.gomp_events.specs.declared.event.Event.{Event};
ghost use Rattle.gomp_types.specs.declared.reply.Reply.TheVariants.{Wait};
ghost use Rattle.gomp_events.specs.Events.{open_number};
ghost use Rattle.gomp_events.specs.Laws.{Always};
ghost use Rattle.gomp_types.specs.Least.{least};
ghost use Rattle.gomp_types.specs.Servers.{served_by};
ghost use Rattle.gomp_types.specs.Singles.{single_shape};
ghost use Rattle.gomp_shares.specs.Calls.{CanOpen, EachStands, events_left};
ghost use Rattle.gomp_shares.specs.Starts.{AnswersBegin};
ghost use Rattle.gomp_shares.specs.Singles.{DealsCopy, copy_started, put_tests};
ghost use Rattle.gomp_model.specs.Calls.{row_of};
ghost use Rattle.gomp_board.specs.declared.op.Op.TheVariants.{Put, Got};
ghost use Rattle.gomp_board.specs.Boards.{Stands as BoardStands, IsOpAdmittedOnce, Performs, members_of};
ghost use Rattle.gomp_dispatch.specs.Answers.{PlaceAdmits, IsDrained, StartsShare, PutsInside};
ghost use Rattle.gomp_dispatch.specs.Serves.{SharesServe, GivesShareEvents, NotesWords, cut_reply, in_team};

use gomp_board::{Board, Op};
use gomp_shares::Shares;
use gomp_shares::cancels::cancel_share;
use gomp_shares::ends::leave_at_once;
use gomp_types::{Call, Payload, Reply, Shape};

/// What a call on the shares is answered by, beside the shares.
#[derive(Clone, Copy, Debug, PartialEq, Eq)]
pub(crate) struct CancelTerms {
    /// Whether the region is cancelled.
    pub(crate) cancelled: bool,
    /// Whether something may be cancelled.
    pub(crate) allowed: bool,
}

/// Answers a call that neither arrives at a barrier nor has words, or goes on with it: that it is
/// repeated changes nothing. `starts` is the shape of the share that it starts, if it starts one.
/// In a cancelled region a call that would wait is answered `Cancelled`.
///
/// The call was tested, and its room is kept: here it is performed.
#[inline(always)]
pub(crate) fn share_reply<S: Shares>(
    shares: &mut S,
    member: u16,
    call: &Call,
    starts: &Option<Shape>,
    team: CancelTerms,
) -> Reply
    requires member { member < S.members shares.old }
    requires served { served_by call.now ≡ Shares }
    requires starts { StartsShare (row_of call.now) (S.seen shares.old member) starts.now }
    requires place { PlaceAdmits (row_of call.now) (S.seen shares.old member) }
    requires drained { IsDrained false (row_of call.now) S.stands shares.old member }
    requires known { (h : List Event) × S.stands shares.old h }
    ensures members { S.members shares.new ≡ S.members shares.old }
    ensures serves { SharesServe
        (in_team S.stands (S.members shares.old) shares.old team.cancelled team.allowed)
        shares.old shares.new (row_of call.now) member result }
    ensures events { GivesShareEvents (row_of call.now) member result }
{
    match call {
        Call::LoopStart(_) => {
            let Some(shape) = starts else { unreachable!() };
            let reply = gomp_loops::loop_start_admitted(shares, member, shape);
            cut_reply(reply, team.cancelled)
        }
        Call::LoopNext => {
            let reply = gomp_loops::loop_next_admitted(shares, member);
            cut_reply(reply, team.cancelled)
        }
        Call::LoopEndNowait => leave_at_once(shares, member),
        Call::SectionsStart { .. } => {
            let Some(shape) = starts else { unreachable!() };
            let reply = gomp_sections::sections_start_admitted(shares, member, shape);
            cut_reply(reply, team.cancelled)
        }
        Call::SectionsNext => gomp_sections::sections_next_admitted(shares, member),
        Call::SectionsEndNowait => leave_at_once(shares, member),
        Call::SingleStart => {
            let reply = gomp_sections::single_start_admitted(shares, member);
            cut_reply(reply, team.cancelled)
        }
        Call::OrderedStart(value) => {
            let reply = gomp_ordered::ordered_start_admitted(shares, member, *value);
            cut_reply(reply, team.cancelled)
        }
        Call::OrderedEnd => gomp_ordered::ordered_end_admitted(shares, member),
        Call::Cancel { kind, clause } => {
            cancel_share(shares, member, *kind, team.allowed, *clause)
        }
        Call::Point(kind) => cancel_share(shares, member, *kind, team.allowed, false),
        _ => unreachable!(),
    }
}

/// The reply in a region that is cancelled or not, to a call that would wait: `Cancelled` if it is
/// (OpenMP API 5.2, section 16.1).
#[inline(always)]
pub fn cut_reply(reply: Reply, cancelled: bool) -> Reply
    ensures { result ≡ cut_reply cancelled reply }
{
    if cancelled && matches!(reply, Reply::Wait) {
        return Reply::Cancelled;
    }
    reply
}

/// Answers the start of a `single` with words for the other members, by those that were put in the
/// member's next share; if the member is given them, the board notes that.
pub(crate) fn copy_reply<S: Shares>(shares: &mut S, board: &mut Board, member: u16) -> Reply
    requires team { members_of board.old ≡ S.members shares.old }
    requires place { CanOpen (S.members shares.old) member (single_shape true)
        (S.seen shares.old member) }
    requires admitted { (words : List ℕ) →
        IsOpAdmittedOnce (Got (S.seen shares.old member).entered words) member board.old }
    ensures members { S.members shares.new ≡ S.members shares.old }
    ensures answer { EachStands (S.stands shares.old)
        (λ h. BoardStands board.old h → Always PutsInside h →
        AnswersBegin (single_shape true) DealsCopy (S.members shares.old) member result h) }
    ensures stands { EachStands (S.stands shares.old)
        (λ h. S.stands shares.new (copy_started member result h)) }
    ensures waits { result ≡ Wait → shares.new ≡ shares.old }
    ensures words { NotesWords (S.seen shares.old member).entered member result
        board.old board.new }
{
    let entered = shares.look(member).entered;
    let reply = gomp_sections::single_copy_start_admitted(shares, member, board.payload(entered));
    note_words(board, member, entered, &reply);
    reply
}

/// Notes the words of this share that the reply gives the member, if it gives some.
fn note_words(board: &mut Board, member: u16, share: u64, reply: &Reply)
    requires member { member < members_of board.old }
    requires admitted { (words : List ℕ) → IsOpAdmittedOnce (Got share words) member board.old }
    ensures { NotesWords share member reply.now board.old board.new }
{
    if let Reply::Copied(words) = reply {
        let _ = board.step_admitted(
            member,
            &Op::Got {
                share,
                words: words.copied(),
            },
        );
    }
}

/// The executor of a `single` puts its words, and leaves it.
pub(crate) fn put_words<S: Shares>(
    shares: &mut S,
    board: &mut Board,
    member: u16,
    words: &Payload,
) -> Reply
    requires member { member < S.members shares.old }
    requires team { members_of board.old ≡ S.members shares.old }
    requires place { least (put_tests (S.seen shares.old member)) ≡ None }
    requires admitted { (h : List Event) × S.stands shares.old h ×
        IsOpAdmittedOnce (Put (open_number member h) words.now) member board.old }
    ensures members { S.members shares.new ≡ S.members shares.old }
    ensures puts { EachStands (S.stands shares.old)
        (λ h. Performs (Put (open_number member h) words.now) member board.old board.new result) }
    ensures left { EachStands (S.stands shares.old)
        (λ h. S.stands shares.new (events_left member h)) }
{
    let Some((share, _)) = shares.look(member).current else {
        unreachable!()
    };
    shares.leave(member);
    board.step_admitted(
        member,
        &Op::Put {
            share,
            words: words.copied(),
        },
    )
}

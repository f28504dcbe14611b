//! What a call is to the part of the team that answers it.

ghost use Rattle.std.specs.Prelude.{◌≡◌, Bool, is_some, is_none, IfSome, IsSome, Some};
ghost use Rattle.gomp_types.specs.declared.call.Server.TheVariants.{Shares, Board};
ghost use Rattle.gomp_types.specs.declared.reply.Reply.{Reply};
ghost use Rattle.gomp_types.specs.Servers.{served_by};
ghost use Rattle.gomp_dispatch.specs.Serves.{board_op, cancel_op, point_op, team_cancel};
ghost use Rattle.gomp_member.specs.Own.{names_share};
ghost use Rattle.gomp_model.specs.Calls.{row_of};
ghost use Rattle.gomp_team_board.specs.Parts.{PartView, part_after};
ghost use Rattle.gomp_events.specs.declared.event.Arrival.TheVariants.{ShareEnd as AtShareEnd};
ghost use Rattle.gomp_team_calls.specs.Starts.{start_part};
ghost use Rattle.gomp_team.specs.Moves.{events_part};
ghost use Rattle.gomp_team.specs.Seats.{cancel_of, end_of, inside_of, start_of};
ghost use Rattle.gomp_team.specs.Members.{AsksNoItems};

use gomp_board::{Op, TeamCancel};
use gomp_dispatch::Manner;
use gomp_shares::Construct;
use gomp_team_calls::ShareEnd;
use gomp_team_shares::{InsideCall, ShareStart};
use gomp_types::{Call, CancelKind, EndKind, Place};

/// The operation by which the board answers a call that brings no items, or one that is repeated.
pub(crate) fn plain_op(manner: Manner, call: &Call) -> Option<Op>
    requires items { AsksNoItems manner.repeated call.now }
    ensures op { result ≡ board_op manner call.now }
    ensures moves { IfSome result (λ op. (reply : Reply) (part : PartView) →
        served_by call.now ≡ Board →
        part_after op reply part ≡ events_part manner.repeated call.now reply part) }
{
    match call {
        Call::TaskCreate(_) if manner.repeated => Some(Op::AwaitOwn),
        Call::TaskEnd => Some(Op::EndTask(manner.leaving.task)),
        Call::GroupStart => Some(Op::OpenGroup),
        Call::GroupEnd if manner.repeated => Some(Op::AwaitGroup),
        Call::GroupEnd => Some(Op::EndGroup),
        Call::Cancel { kind, clause } => cancel_op(*kind, *clause, manner.allowed),
        Call::Point(kind) => point_op(*kind, manner.allowed),
        Call::Stop => Some(Op::Break {
            place: Place::Stopped,
            back: 0,
        }),
        _ => None,
    }
}

/// How the board cancels what a construct of this kind names, if that is no share.
fn cancel_op(kind: CancelKind, clause: bool, allowed: bool) -> Option<Op>
    ensures { result ≡ cancel_op allowed clause (team_cancel kind) }
{
    let named = team_cancel(kind)?;
    Some(Op::Cancel {
        named,
        clause,
        allowed,
    })
}

/// How it answers whether that is cancelled.
fn point_op(kind: CancelKind, allowed: bool) -> Option<Op>
    ensures { result ≡ point_op allowed (team_cancel kind) }
{
    let named = team_cancel(kind)?;
    Some(Op::Point { named, allowed })
}

/// What a construct of this kind names of the team, if it names no share.
fn team_cancel(kind: CancelKind) -> Option<TeamCancel>
    ensures { result ≡ team_cancel kind }
{
    Some(match kind {
        CancelKind::Parallel => TeamCancel::Parallel,
        CancelKind::Taskgroup => TeamCancel::Taskgroup,
        CancelKind::Loop | CancelKind::Sections => return None,
    })
}

/// The construct that a call starts, if it starts one.
pub(crate) fn share_start(call: &Call) -> Option<ShareStart>
    ensures start { result ≡ start_of call.now }
    ensures starts { is_some result ≡ is_some (row_of call.now).starts }
    ensures moves { IfSome result (λ start. (repeated : Bool) (reply : Reply) (part : PartView) →
        start_part reply part ≡ events_part repeated call.now reply part) }
{
    match call {
        Call::LoopStart(desc) => Some(ShareStart::Loop(*desc)),
        Call::SectionsStart { count, end_kind } => Some(ShareStart::Sections {
            count: *count,
            end_kind: *end_kind,
        }),
        Call::SingleStart => Some(ShareStart::Single),
        Call::SingleCopyStart => Some(ShareStart::SingleCopy),
        _ => None,
    }
}

/// What a call on shares asks that starts none, in a team that allows cancellation or does not.
#[inline(always)]
pub(crate) fn inside_call(call: &Call, allowed: bool) -> Option<InsideCall>
    ensures call { result ≡ inside_of allowed call.now }
    ensures some { served_by call.now ≡ Shares → is_none (row_of call.now).starts ≡ is_some result }
{
    match call {
        Call::LoopNext => Some(InsideCall::Next(Construct::Loop)),
        Call::LoopEndNowait => Some(InsideCall::EndNowait(Construct::Loop)),
        Call::SectionsNext => Some(InsideCall::Next(Construct::Sections)),
        Call::SectionsEndNowait => Some(InsideCall::EndNowait(Construct::Sections)),
        Call::OrderedStart(value) => Some(InsideCall::BeginPart(*value)),
        Call::OrderedEnd => Some(InsideCall::EndPart),
        Call::Cancel { kind, clause } => cancel_inside(*kind, *clause, allowed),
        Call::Point(kind) => cancel_inside(*kind, false, allowed),
        _ => None,
    }
}

/// A construct that cancels a share, or asks whether it is cancelled, if it names one.
#[inline(always)]
fn cancel_inside(kind: CancelKind, clause: bool, allowed: bool) -> Option<InsideCall>
    ensures call { result ≡ cancel_of allowed clause kind }
    ensures some { is_some result ≡ names_share (Some kind) }
{
    let construct = match kind {
        CancelKind::Loop => Construct::Loop,
        CancelKind::Sections => Construct::Sections,
        CancelKind::Parallel | CancelKind::Taskgroup => return None,
    };
    Some(InsideCall::Cancel {
        construct,
        clause,
        allowed,
    })
}

/// Which construct with a barrier at its end a call ends, if it ends one.
pub(crate) fn share_end(call: &Call) -> Option<ShareEnd>
    ensures end { result ≡ end_of call.now }
    ensures some { (row_of call.now).arrives ≡ Some AtShareEnd → IsSome result }
    ensures arrives { IfSome result (λ end. (row_of call.now).arrives ≡ Some AtShareEnd) }
{
    match call {
        Call::LoopEnd => Some(end_of(Construct::Loop, EndKind::Wait)),
        Call::LoopEndCancel => Some(end_of(Construct::Loop, EndKind::Cancellable)),
        Call::SectionsEnd => Some(end_of(Construct::Sections, EndKind::Wait)),
        Call::SectionsEndCancel => Some(end_of(Construct::Sections, EndKind::Cancellable)),
        _ => None,
    }
}

/// The end of this construct by the call for this end kind.
fn end_of(construct: Construct, end_kind: EndKind) -> ShareEnd
    ensures construct { result.construct ≡ construct }
    ensures end_kind { result.end_kind ≡ end_kind }
{
    ShareEnd {
        construct,
        end_kind,
    }
}

//! The calls on tasks and groups, the constructs that cancel the region or a group, and the stop of
//! the team: the board answers them alone.
//!
//! OpenMP API 5.2, chapter 12 and sections 15.4, 15.5, 16.1 and 16.2; libgomp's `GOMP_task`,
//! `GOMP_taskwait`, `GOMP_taskgroup_start`, `GOMP_taskgroup_end`, `GOMP_cancel` and
//! `GOMP_cancellation_point`.

ghost use Rattle.std.specs.Prelude.{◌≡◌, ◌<◌, List, Some};
ghost use Rattle.gomp_types.specs.declared.call.Server.TheVariants.{Board as OfBoard, Team as Together};
ghost use Rattle.gomp_events.specs.declared.event.Event.{Event};
ghost use Rattle.gomp_events.specs.CancelCalls.{cancel_tests};
ghost use Rattle.gomp_types.specs.Least.{least, lesser};
ghost use Rattle.gomp_types.specs.Servers.{served_by};
ghost use Rattle.gomp_model.specs.Past.{Past};
ghost use Rattle.gomp_model.specs.Row.{asked_tests, board_tests};
ghost use Rattle.gomp_model.specs.Calls.{row_of};
ghost use Rattle.gomp_board.specs.declared.op.Op.{Op as BoardOp};
ghost use Rattle.gomp_board.specs.Boards.{Stands as BoardStands, IsOpAdmittedOnce, Performs, members_of};
ghost use Rattle.gomp_dispatch.specs.Leaves.{LeavesAs};
ghost use Rattle.gomp_dispatch.specs.Serves.{board_op, create_op, group_op, team_cancel, has_no_clause};

use crate::leaving::{Leaving, Manner};
use crate::room::room_asked;
use gomp_board::{Board, Op, TeamCancel, items_refusal};
use gomp_types::{Call, CancelKind, Place, Refusal, Reply, Server, TaskDesc};

/// Why tasks, groups, cancellation or want of room for events refuse the call of the member,
/// numbered from 0: `InsideTask` if no explicit task may make it, `TooDeep`, `TooManyTasks`,
/// `TooManyDepends`, `NotInTask`, `NoGroup`, `GroupOpen` or `TraceFull`. A call that is repeated
/// (`repeated`) was tested when it was made. A member that leaves its task or the region
/// (`leaving`) gives up the groups that it has open there.
// A frame of its own: that of each step, all of which is zeroed first, stays small.
#[inline(never)]
pub fn task_refusal(
    board: &Board,
    member: u16,
    call: &Call,
    repeated: bool,
    leaving: Leaving,
) -> Option<Refusal>
    requires member { member < members_of board.now }
    ensures least { (p : Past) → BoardStands board.now p.events → p.terms.limits ≡
        board.now.limits → p.room ≡ board.now.room → LeavesAs leaving member p.events →
        result ≡ least (board_tests repeated (row_of call.now) member p) }
{
    if repeated {
        return None;
    }
    let own = tasks_refusal(board, member, call, leaving);
    lesser(own, room_asked_refusal(board, member, call))
}

/// Why there is no room for the events of the call: `TraceFull`. A creation that is dropped asks
/// for none.
fn room_asked_refusal(board: &Board, member: u16, call: &Call) -> Option<Refusal>
    requires member { member < members_of board.now }
    ensures least { (p : Past) → BoardStands board.now p.events →
        p.terms.limits ≡ board.now.limits → p.room ≡ board.now.room →
        result ≡ least (asked_tests ((row_of call.now).drops member p) (row_of call.now) p) }
{
    if is_creation_dropped(board, member, call) {
        return None;
    }
    board.room_refusal(room_asked(call))
}

/// Whether the call creates a task that a cancellation would reach. The board asks this once more
/// when it creates the task: it is no refusal, which alone the tests hand on.
fn is_creation_dropped(board: &Board, member: u16, call: &Call) -> bool
    requires member { member < members_of board.now }
    ensures drops { (p : Past) → BoardStands board.now p.events →
        result ≡ (row_of call.now).drops member p }
{
    match call {
        Call::TaskCreate(_) => board.drops_creation(member),
        _ => false,
    }
}

/// Why tasks, groups and cancellation refuse it.
fn tasks_refusal(board: &Board, member: u16, call: &Call, leaving: Leaving) -> Option<Refusal>
    requires member { member < members_of board.now }
    ensures least { (p : Past) → BoardStands board.now p.events →
        p.terms.limits ≡ board.now.limits → LeavesAs leaving member p.events →
        result ≡ least ((row_of call.now).by_task member p) }
{
    // Which part answers the call is asked for each kind of tests (here, of its place, of its comparison)
    // and for its answer: it is a number in a table, and each of these has other arms.
    match call.served_by() {
        Server::Shares => board.inside_task_refusal(member),
        Server::Board => board_refusal(board, member, call, leaving),
        Server::Team => arrival_refusal(board, member, call, leaving),
        Server::Book => None,
    }
}

/// Why they refuse a call that the board answers alone.
fn board_refusal(board: &Board, member: u16, call: &Call, leaving: Leaving) -> Option<Refusal>
    requires member { member < members_of board.now }
    requires served { served_by call.now ≡ OfBoard }
    ensures least { (p : Past) → BoardStands board.now p.events →
        p.terms.limits ≡ board.now.limits → LeavesAs leaving member p.events →
        result ≡ least ((row_of call.now).by_task member p) }
{
    match call {
        Call::TaskCreate(desc) => board.create_place_refusal(member, desc.deps.as_slice()),
        Call::TaskEnd => board.end_task_place_refusal(member, leaving.task),
        Call::GroupEnd => board.end_group_place_refusal(member),
        Call::Taskwait(items) => items_refusal(items.as_slice()),
        Call::Cancel { kind, .. } => cancel_refusal(board, member, *kind),
        Call::Point(kind) => cancel_refusal(board, member, *kind),
        _ => None,
    }
}

/// Why they refuse a call that arrives at a barrier or copies words, or a resume.
fn arrival_refusal(board: &Board, member: u16, call: &Call, leaving: Leaving) -> Option<Refusal>
    requires member { member < members_of board.now }
    requires served { served_by call.now ≡ Together }
    ensures least { (p : Past) → BoardStands board.now p.events →
        LeavesAs leaving member p.events →
        result ≡ least ((row_of call.now).by_task member p) }
{
    match call {
        Call::RegionEnd => board.region_end_place_refusal(member, leaving.region),
        Call::Resume => None,
        _ => board.inside_task_refusal(member),
    }
}

/// Why a construct of this kind does not name what it does where the member is: `InsideTask`,
/// `NotInTask`, `NoGroup` or `GroupOpen`.
fn cancel_refusal(board: &Board, member: u16, kind: CancelKind) -> Option<Refusal>
    requires member { member < members_of board.now }
    ensures least { (h : List Event) → BoardStands board.now h →
        result ≡ least (cancel_tests kind member h) }
{
    // Each layer has a word of its own for what is named: the call its kind, the board what it serves of
    // these, the scheduler the group by number. So each asks which it is.
    match kind {
        CancelKind::Parallel => board.cancel_place_refusal(member, TeamCancel::Parallel),
        CancelKind::Taskgroup => board.cancel_place_refusal(member, TeamCancel::Taskgroup),
        CancelKind::Loop | CancelKind::Sections => board.inside_task_refusal(member),
    }
}

/// Of two refusals the one with the lesser number.
fn lesser(one: Option<Refusal>, other: Option<Refusal>) -> Option<Refusal>
    ensures { result ≡ lesser one other }
{
    match (one, other) {
        (None, other) => other,
        (one, None) => one,
        (Some(one), Some(other)) => {
            if one.number() <= other.number() {
                Some(one)
            } else {
                Some(other)
            }
        }
    }
}

/// Answers a call on tasks or groups, a construct that names the region or a group, or the stop of
/// the team, or goes on with a call that waits. The call was tested: here it is performed.
// A frame of its own: that of each step, all of which is zeroed first, stays small.
#[inline(never)]
pub(crate) fn board_admitted(board: &mut Board, member: u16, call: &Call, manner: Manner) -> Reply
    requires member { member < members_of board.old }
    requires served { served_by call.now ≡ OfBoard }
    requires admitted { (op : BoardOp) → board_op manner call.now ≡ Some op →
        IsOpAdmittedOnce op member board.old }
    ensures performs { (op : BoardOp) → board_op manner call.now ≡ Some op →
        Performs op member board.old board.new result }
{
    match call {
        Call::TaskCreate(desc) => create_reply(board, member, desc, manner.repeated),
        Call::Taskwait(items) => board.await_children_admitted(member, items.as_slice()),
        _ => match plain_op(manner, call) {
            Some(op) => board.step_admitted(member, &op),
            None => unreachable!(),
        },
    }
}

/// Answers the creation of a task, or goes on with one that waits.
fn create_reply(board: &mut Board, member: u16, desc: &TaskDesc, repeated: bool) -> Reply
    requires member { member < members_of board.old }
    requires admitted { IsOpAdmittedOnce (create_op repeated desc.now) member board.old }
    ensures performs { Performs (create_op repeated desc.now) member board.old board.new result }
{
    if repeated {
        board.step_admitted(member, &Op::AwaitOwn)
    } else {
        board.create_admitted(member, desc)
    }
}

/// How the board alone answers a call with no items, or one that waits, if it does.
fn plain_op(manner: Manner, call: &Call) -> Option<Op>
    ensures { has_no_clause call.now → result ≡ board_op manner call.now }
{
    match call {
        Call::TaskEnd => Some(Op::EndTask(manner.leaving.task)),
        Call::GroupStart => Some(Op::OpenGroup),
        Call::GroupEnd => Some(group_op(manner.repeated)),
        Call::Cancel { kind, clause } => {
            let named = team_cancel(*kind)?;
            Some(Op::Cancel {
                named,
                clause: *clause,
                allowed: manner.allowed,
            })
        }
        Call::Point(kind) => {
            let named = team_cancel(*kind)?;
            Some(Op::Point {
                named,
                allowed: manner.allowed,
            })
        }
        Call::Stop => Some(Op::Break {
            place: Place::Stopped,
            back: 0,
        }),
        _ => None,
    }
}

/// What a construct of this kind names of the team, if it names no share.
fn team_cancel(kind: CancelKind) -> Option<TeamCancel>
    ensures { result ≡ team_cancel kind }
{
    match kind {
        CancelKind::Parallel => Some(TeamCancel::Parallel),
        CancelKind::Taskgroup => Some(TeamCancel::Taskgroup),
        CancelKind::Loop | CancelKind::Sections => None,
    }
}

/// The end of a group, or the wait for its tasks that goes on (`repeated`).
fn group_op(repeated: bool) -> Op
    ensures { result ≡ group_op repeated }
{
    if repeated {
        Op::AwaitGroup
    } else {
        Op::EndGroup
    }
}

//! The room for events that a call asks for.

ghost use Rattle.std.specs.Prelude.{◌≡◌, ◌<◌, true, false};
ghost use Rattle.gomp_events.specs.CancelCalls.{cancel_room};
ghost use Rattle.gomp_model.specs.Calls.{row_of};
ghost use Rattle.gomp_model.specs.Starts.{end_room};
ghost use Rattle.gomp_board.specs.declared.op.Op.TheVariants.{Reserve};
ghost use Rattle.gomp_board.specs.Boards.{IsOpAdmittedOnce, IsSame, members_of};
ghost use Rattle.gomp_dispatch.specs.Serves.{asked_once, is_finished, KeepsMore};

use gomp_board::{Board, Op};
use gomp_events::{ARRIVAL_ROOM, CANCEL_ROOM, GROUP_ROOM, PAYLOAD_ROOM, TASK_ROOM};
use gomp_types::{Call, CancelKind, EndKind, Reply};

/// For how many events the call asks room (own): for those of a task or a group, for an arrival at
/// a barrier, at the start of a construct for the barrier at its end, or for its words, and for the
/// cancellation of the region or of a group.
#[inline(always)]
pub(crate) fn room_asked(call: &Call) -> u32
    ensures { result ≡ (row_of call.now).room }
{
    match call {
        Call::LoopStart(desc) => end_room(desc.end_kind),
        Call::SectionsStart { end_kind, .. } => end_room(*end_kind),
        Call::SingleCopyStart => PAYLOAD_ROOM,
        Call::Barrier => ARRIVAL_ROOM,
        Call::TaskCreate(_) => TASK_ROOM,
        Call::GroupStart => GROUP_ROOM,
        Call::Cancel { kind, .. } => cancel_room(*kind),
        _ => 0,
    }
}

/// The room for the arrival at a construct's end, if it has a barrier there.
fn end_room(kind: EndKind) -> u32
    ensures { result ≡ end_room kind }
{
    match kind {
        EndKind::Wait | EndKind::Cancellable => ARRIVAL_ROOM,
        EndKind::Nowait => 0,
    }
}

/// The room for a cancellation of this kind; that of a share is stored nowhere.
fn cancel_room(kind: CancelKind) -> u32
    ensures { result ≡ cancel_room kind }
{
    match kind {
        CancelKind::Parallel | CancelKind::Taskgroup => CANCEL_ROOM,
        CancelKind::Loop | CancelKind::Sections => 0,
    }
}

/// The same, if the call is not repeated: then its room was asked for.
#[inline(always)]
pub(crate) fn asked_once(repeated: bool, call: &Call) -> u32
    ensures { result ≡ asked_once repeated (row_of call.now).room }
{
    // The tests have asked for the number too: a look into a table, which no test hands on.
    if repeated { 0 } else { room_asked(call) }
}

/// Has the board keep so much more room of the member, which its call asked for when it was tested:
/// whether it does. If there is no memory for it, nothing changes.
#[inline(always)]
pub(crate) fn keep_room(board: &mut Board, member: u16, more: u32) -> bool
    requires member { member < members_of board.old }
    requires admitted { 0 < more → IsOpAdmittedOnce (Reserve more) member board.old }
    ensures kept { result ≡ true → KeepsMore more member board.old board.new }
    ensures lacks { result ≡ false → (0 < more) × IsSame board.old board.new ×
        (board.new.limits ≡ board.old.limits) }
{
    // The board's own tests ask this too: here it spares the operation.
    if more == 0 {
        return true;
    }
    is_finished(&board.step_admitted(member, &Op::Reserve(more)))
}

/// Whether the reply says that the call is done.
fn is_finished(reply: &Reply) -> bool
    ensures { result ≡ is_finished reply.now }
{
    matches!(reply, Reply::Finished)
}

//! Arrivals: the `barrier` construct, the end of a loop or of sections with a barrier, and the end
//! of the region.
//!
//! OpenMP API 5.2, sections 15.3.1 and 15.3.2; libgomp's `GOMP_barrier`, `GOMP_loop_end`,
//! `GOMP_sections_end` and `GOMP_parallel_end`.

ghost use Rattle.std.specs.Prelude.{◌≡◌, ◌<◌, true, false};
ghost use Rattle.gomp_events.specs.declared.event.Arrival.TheVariants.{ShareEnd};
ghost use Rattle.gomp_shares.specs.Calls.{CanEnd};
ghost use Rattle.gomp_board.specs.Boards.{Performs, members_of};
ghost use Rattle.gomp_dispatch.specs.Serves.{arrival_op, EachArrival, IsArrivalAdmitted, IsLeftOnce, IsShareDrained};

use crate::leaving::Manner;
use gomp_board::{Board, Op};
use gomp_events::{Arrival, Tag};
use gomp_shares::Shares;
use gomp_shares::ends::end_construct_admitted;
use gomp_types::Reply;

/// Ends a construct with a barrier at its end, or goes on at that if the call is repeated: the
/// member leaves the construct, which it sees to be cancelled if it leaves it since it is, and
/// arrives. It passes if it may, and else executes a task, or waits; in a cancelled region it does
/// not arrive, and is answered `Cancelled`.
pub(crate) fn end_reply<S: Shares>(
    shares: &mut S,
    board: &mut Board,
    member: u16,
    manner: Manner,
) -> Reply
    requires member { member < S.members shares.old }
    requires team { members_of board.old ≡ S.members shares.old }
    requires place { manner.repeated ≡ false →
        CanEnd (S.members shares.old) member (S.seen shares.old member) }
    requires drained { manner.repeated ≡ false →
        IsShareDrained member S.stands shares.old }
    requires admitted { IsArrivalAdmitted ShareEnd manner member S.stands shares.old board.old }
    ensures members { S.members shares.new ≡ S.members shares.old }
    ensures kept { manner.repeated ≡ true → shares.new ≡ shares.old }
    ensures left { IsLeftOnce manner.repeated member S.stands shares.old shares.new }
    ensures performs { EachArrival ShareEnd manner member (S.stands shares.old)
        (λ op. Performs op member board.old board.new result) }
{
    leave(shares, member, manner.repeated);
    arrival_reply(shares, board, member, Arrival::ShareEnd, manner)
}

/// The member arrives at its next barrier, or goes on there if the call is repeated, and passes it
/// if it may; else it executes a task, or waits. A cancelled region has it arrive at the region's
/// end alone. The arrival was tested with its call: here it is performed.
#[inline(always)]
pub(crate) fn arrival_reply<S: Shares>(
    shares: &S,
    board: &mut Board,
    member: u16,
    kind: Arrival,
    manner: Manner,
) -> Reply
    requires member { member < S.members shares.now }
    requires team { members_of board.old ≡ S.members shares.now }
    requires admitted { IsArrivalAdmitted kind manner member S.stands shares.now board.old }
    ensures performs { EachArrival kind manner member (S.stands shares.now)
        (λ op. Performs op member board.old board.new result) }
{
    let tag = Tag {
        kind,
        shares: shares.look(member).entered,
    };
    board.step_admitted(
        member,
        &arrival_op(manner.repeated, manner.leaving.region, tag),
    )
}

/// An arrival with this tag, of a member that leaves the region or does not (`leaving`), or the
/// wait after it (`repeated`).
#[inline(always)]
fn arrival_op(repeated: bool, leaving: bool, tag: Tag) -> Op
    ensures { result ≡ arrival_op repeated leaving tag }
{
    if repeated {
        Op::AwaitBarrier
    } else {
        Op::Arrive { tag, leaving }
    }
}

/// Leaves the member's construct; nothing changes if the call is repeated (`repeated`).
fn leave<S: Shares>(shares: &mut S, member: u16, repeated: bool)
    requires place { repeated ≡ false →
        CanEnd (S.members shares.old) member (S.seen shares.old member) }
    requires drained { repeated ≡ false → IsShareDrained member S.stands shares.old }
    ensures members { S.members shares.new ≡ S.members shares.old }
    ensures kept { repeated ≡ true → shares.new ≡ shares.old }
    ensures left { IsLeftOnce repeated member S.stands shares.old shares.new }
{
    if !repeated {
        end_construct_admitted(shares, member);
    }
}

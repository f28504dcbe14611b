//! Whether the parts let a member make one of the calls that a program makes most often: the next chunk
//! of its loop, a barrier, and the region's end.
//!
//! [`call_shape`](crate::call_shape), [`task_refusal`](crate::task_refusal) and
//! [`leaving_refusal`](crate::leaving_refusal) tell of every call why they refuse it. Here it is asked of
//! one call whether nothing does, by its own tests alone, which takes a few looks. Who is told that
//! something does asks those three.

ghost use Rattle.std.specs.Prelude.{◌≡◌, ◌<◌, ◌↔◌, true};
ghost use Rattle.gomp_barrier.specs.Stands.{barrier_members};
ghost use Rattle.gomp_model.specs.Arrivals.{barrier_row, region_end_row};
ghost use Rattle.gomp_model.specs.Loops.{loop_next_row};
ghost use Rattle.gomp_board.specs.Boards.{members_of};
ghost use Rattle.gomp_dispatch.specs.Admission.{EachStandsSo, PartsLet, PartsLetStaying};

use crate::leaving::{Leaving, is_leaving};
use crate::refusals::{barrier_refusal, compared_arrival_refusal};
use gomp_board::Board;
use gomp_events::{ARRIVAL_ROOM, Arrival};
use gomp_shares::admission::next_refusal;
use gomp_shares::{Construct, Shares};

/// Whether the parts let the member, numbered from 0, ask for the next chunk of its loop: it leaves
/// nothing, executes no explicit task, and is in a loop, in no ordered part of it, and was not told that
/// nothing is left (OpenMP API 5.2, section 11.5).
#[inline(always)]
pub fn lets_next<S: Shares>(shares: &S, board: &Board, member: u16, leaving: Leaving) -> bool
    requires member { member < S.members shares.now }
    requires team { members_of board.now ≡ S.members shares.now }
    ensures { EachStandsSo S.stands shares.now board.now leaving member
        (λ p. (result ≡ true) ↔ PartsLet loop_next_row member p) }
{
    let seen = shares.look(member);
    if is_leaving(&seen, leaving) {
        return false;
    }
    if board.inside_task_refusal(member).is_some() {
        return false;
    }
    next_refusal(&seen, Construct::Loop).is_none()
}

/// Whether the parts let the member, numbered from 0, arrive at a barrier: it leaves nothing, executes no
/// explicit task, is in no work-share, there is room for its arrival, and no other member has arrived there
/// otherwise (OpenMP API 5.2, section 15.3.1).
#[inline(always)]
pub fn lets_barrier<S: Shares>(shares: &S, board: &Board, member: u16, leaving: Leaving) -> bool
    requires member { member < S.members shares.now }
    requires team { members_of board.now ≡ S.members shares.now }
    ensures { EachStandsSo S.stands shares.now board.now leaving member
        (λ p. (result ≡ true) ↔ PartsLet barrier_row member p) }
{
    let seen = shares.look(member);
    if is_leaving(&seen, leaving) {
        return false;
    }
    if board.inside_task_refusal(member).is_some() {
        return false;
    }
    if board.room_refusal(ARRIVAL_ROOM).is_some() {
        return false;
    }
    if barrier_refusal(&seen).is_some() {
        return false;
    }
    compared_arrival_refusal(shares, board.barriers(), member, Arrival::Barrier, false).is_none()
}

/// Whether the member, numbered from 0, leaves nothing and the parts let it come to the region's end: it
/// executes no explicit task, has no group open, is in no work-share, and no other member has arrived there
/// otherwise (OpenMP API 5.2, section 15.3.2). Of one that leaves the region it is not asked here.
#[inline(always)]
pub fn lets_region_end<S: Shares>(shares: &S, board: &Board, member: u16, leaving: Leaving) -> bool
    requires member { member < S.members shares.now }
    requires team { members_of board.now ≡ S.members shares.now }
    ensures { EachStandsSo S.stands shares.now board.now leaving member
        (λ p. (result ≡ true) ↔ PartsLetStaying region_end_row member p) }
{
    let seen = shares.look(member);
    if is_leaving(&seen, leaving) {
        return false;
    }
    if board.region_end_place_refusal(member, false).is_some() {
        return false;
    }
    if barrier_refusal(&seen).is_some() {
        return false;
    }
    compared_arrival_refusal(shares, board.barriers(), member, Arrival::RegionEnd, false).is_none()
}

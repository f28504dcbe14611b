//! What a member does, by its seat: each call tests what the seat asks.

ghost use Rattle.gomp_claim.specs.Members.{TakesPiece, EntersShare, LeavesShare, PassesSingle};

use crate::member::{ClaimMember, Done, Passed};
use gomp_ring::{Entry, Passage, Piece};

/// The answer to a member that did not go through.
const NOT_PASSED: Passed = Passed {
    done: false,
    executes: false,
};

/// Takes the next piece; none if the member may not claim.
pub fn take_piece(member: &mut ClaimMember) -> Piece
    ensures takes { TakesPiece member.old member.new result.first result.end }
{
    let ring = &member.ring;
    member.seat.claim_next(ring)
}

/// Enters the next share, if the member is in none and has not entered all that it can.
pub fn enter_share(member: &mut ClaimMember) -> Done
    ensures enters { EntersShare member.old member.new result.done }
{
    if !member.seat.may_enter() {
        return Done { done: false };
    }
    let ring = &member.ring;
    match member.seat.try_open(ring, &member.shape) {
        Entry::Entered => Done { done: true },
        Entry::NotYet(_) => Done { done: false },
        Entry::Differs => Done { done: false },
    }
}

/// Leaves the share, if the member is in one, of which nothing is left for it.
pub fn leave_share(member: &mut ClaimMember) -> Done
    ensures leaves { LeavesShare member.old member.new result.done }
{
    if !member.seat.is_drained() {
        return Done { done: false };
    }
    let ring = &member.ring;
    member.seat.leave(ring);
    Done { done: true }
}

/// Goes through the next share, a `single` without words for the others, if the member is in none and has not entered all that it
/// can.
pub fn pass_single(member: &mut ClaimMember) -> Passed
    ensures passes { PassesSingle member.old member.new result.done result.executes }
{
    let ring = &member.ring;
    match member.seat.single_next(ring) {
        Some(Passage::Passed(executes)) => Passed {
            done: true,
            executes,
        },
        Some(Passage::NotYet(_)) => NOT_PASSED,
        Some(Passage::Differs) => NOT_PASSED,
        None => NOT_PASSED,
    }
}

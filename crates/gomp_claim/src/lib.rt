//! A static library for C: the seat of each member of a team behind a pointer.
//!
//! C gives the pointer of a member to one call at a time, and to none of another member; it reads and writes nothing there.
#![tactic(auto)]

mod calls;
mod member;
mod team;

ghost use types.Logic.{sem};
ghost use Rattle.std.specs.Ptr.{points_to};
ghost use Rattle.gomp_claim.specs.contracts.member.ClaimMember.{the_row};
ghost use Rattle.gomp_claim.specs.declared.member.ClaimMember.{ClaimMember};
ghost use Rattle.gomp_claim.specs.Members.{TakesPiece, EntersShare, LeavesShare, PassesSingle};

use calls::{enter_share, leave_share, pass_single, take_piece};
use gomp_ring::Piece;
use member::{ClaimMember, Done, Passed};
use std::alloc::Global;
use team::{dynamic_loop, make_team};

/// The member takes its next piece of the share that it is in. There is none if it is in none, or was answered already that
/// nothing is left for it.
#[unsafe(no_mangle)]
pub unsafe extern "C" fn claim_next(at: *mut u8) -> Piece
    ghost old: { ClaimMember }
    requires* { sem 𝓛 (points_to the_row at old) }
    ensures* { ∃ₛ (λ (new : ClaimMember). sem 𝓛 (points_to the_row at new) ∗
        ⌜ TakesPiece old new result.first result.end ⌝) }
{
    let member = at as *mut ClaimMember;
    take_piece(&mut *member)
}

/// The member enters its next share, which has the shape of the team's loop. If that is not done, it may be asked again: the
/// member is in a share, or some member has not left the one eight before, or another is opening the share at this moment.
#[unsafe(no_mangle)]
pub unsafe extern "C" fn claim_enter(at: *mut u8) -> Done
    ghost old: { ClaimMember }
    requires* { sem 𝓛 (points_to the_row at old) }
    ensures* { ∃ₛ (λ (new : ClaimMember). sem 𝓛 (points_to the_row at new) ∗
        ⌜ EntersShare old new result.done ⌝) }
{
    let member = at as *mut ClaimMember;
    enter_share(&mut *member)
}

/// The member leaves the share that it is in. That is not done if it is in none, or was not answered that nothing is left.
#[unsafe(no_mangle)]
pub unsafe extern "C" fn claim_leave(at: *mut u8) -> Done
    ghost old: { ClaimMember }
    requires* { sem 𝓛 (points_to the_row at old) }
    ensures* { ∃ₛ (λ (new : ClaimMember). sem 𝓛 (points_to the_row at new) ∗
        ⌜ LeavesShare old new result.done ⌝) }
{
    let member = at as *mut ClaimMember;
    leave_share(&mut *member)
}

/// The member goes through its next share, a `single` without words for the others, and executes its body or not. If that is not
/// done, it may be asked again, as `claim_enter` may; or others entered the share in another shape.
#[unsafe(no_mangle)]
pub unsafe extern "C" fn claim_single(at: *mut u8) -> Passed
    ghost old: { ClaimMember }
    requires* { sem 𝓛 (points_to the_row at old) }
    ensures* { ∃ₛ (λ (new : ClaimMember). sem 𝓛 (points_to the_row at new) ∗
        ⌜ PassesSingle old new result.done result.executes ⌝) }
{
    let member = at as *mut ClaimMember;
    pass_single(&mut *member)
}

/// A new team of as many members as there are places, 1 to 64: in each is then the pointer of the member of that number. Its
/// work-shares are loops from 0 to `end` in steps of 1, dynamic in pieces of `chunk`, with nothing at their end. If the answer
/// is false, memory is refused, or the numbers are no loop's or no team's, and the places have nothing to use.
#[unsafe(no_mangle)]
pub extern "C" fn claim_open(alloc: Global, end: i64, chunk: i64, places: &mut [*mut u8]) -> bool {
    let Some(shape) = dynamic_loop(end, chunk) else {
        return false;
    };
    make_team(alloc, shape, places)
}

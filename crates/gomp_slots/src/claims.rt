//! Claims: a member takes its next piece of the share that it is in, or learns that none is left. OpenMP API 5.2, section 11.5.

ghost use Rattle.std.specs.Prelude.{◌≡◌, ◌<◌, ◌^◌};
ghost use Rattle.gomp_events.specs.Events.{open_share};
ghost use Rattle.gomp_slots.specs.Words.{gate_at};
ghost use Rattle.gomp_slots.specs.Calls.{Acts, claim_event, ClaimsTicket, own_next};
ghost use Rattle.gomp_slots.specs.Plays.{ClaimStep, AssignStep};
ghost use Rattle.gomp_slots.specs.Premises.{IsSeatOf, IsSameSeat, IsAbout, MayClaim, MayAssign};

use crate::slots::{Chosen, Slots, gate_index};
use crate::view::View;
use atomic_table::{Play, Seat};
use gomp_types::Shape;
use std::marker::PhantomData;

/// What a claim adds to the gate, as `gomp_gate::claimed`.
const TICKET: u64 = 1;
/// So many numbers a ticket has: 2^40. The fields of the gate above it begin there.
const TICKETS: u64 = 0x100_0000_0000;

struct Claim<C> {
    chosen: PhantomData<C>,
}

impl<C: Chosen> Play<Shape, View> for Claim<C> {
    ghost then = { ClaimStep C.members C.member C.share };
}

struct Assign<C> {
    chosen: PhantomData<C>,
}

impl<C: Chosen> Play<Shape, View> for Assign<C> {
    ghost then = { AssignStep C.members C.member C.share };
}

/// The member claims a piece of its share, which is not static. The answer is its ticket: the number of the claims that were made
/// before, and of the piece that it takes, from 0; if the share has no piece of that number, nothing is left for the member.
///
/// `share` is the number of the share. One addition to the gate; no call of another member waits for it.
pub fn take_ticket<C: Chosen>(
    slots: &Slots,
    seat: &mut Seat<Shape, View>,
    member: u16,
    share: u64,
) -> u64
    requires seat { IsSeatOf slots.now seat.old }
    requires chosen { IsAbout C.members C.member C.share slots.now member share }
    requires may { MayClaim C.members C.member C.share seat.old.me.0 }
    ensures seat { IsSameSeat seat.old seat.new }
    ensures claimed { ClaimsTicket C.members C.member C.share result seat.old.me.0 seat.new.me.0 }
    ensures ticket { result < 2 ^ 40 }
{
    take_ticket_at::<C>(slots, seat, member, share, gate_index(share))
}

/// The same, for a caller that has the place of the share's gate, `gate`: that which `gate_index` answers.
#[inline(always)]
pub fn take_ticket_at<C: Chosen>(
    slots: &Slots,
    seat: &mut Seat<Shape, View>,
    member: u16,
    share: u64,
    gate: usize,
) -> u64
    requires seat { IsSeatOf slots.now seat.old }
    requires chosen { IsAbout C.members C.member C.share slots.now member share }
    requires gate { gate ≡ gate_at share }
    requires may { MayClaim C.members C.member C.share seat.old.me.0 }
    ensures seat { IsSameSeat seat.old seat.new }
    ensures claimed { ClaimsTicket C.members C.member C.share result seat.old.me.0 seat.new.me.0 }
    ensures ticket { result < 2 ^ 40 }
{
    slots.table.shared.fetch_add::<Claim<C>>(seat, gate, TICKET) % TICKETS
}

/// The member takes its next piece of its share, which is static: that piece follows from what it took before, so no other member
/// is asked. It learns so too that none is left.
pub fn take_assigned<C: Chosen>(
    slots: &Slots,
    seat: &mut Seat<Shape, View>,
    member: u16,
    share: u64,
)
    requires seat { IsSeatOf slots.now seat.old }
    requires chosen { IsAbout C.members C.member C.share slots.now member share }
    requires may { MayAssign C.members C.member C.share seat.old.me.0 }
    ensures seat { IsSameSeat seat.old seat.new }
    ensures acted { Acts C.members (claim_event C.share C.member (own_next C.members C.member
        seat.old.me.0.did (open_share C.member seat.old.me.0.did))) seat.old.me.0 seat.new.me.0 }
{
    let gate = gate_index(share);
    slots.table.shared.load::<Assign<C>>(seat, gate);
}

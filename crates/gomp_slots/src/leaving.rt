//! The ends of a share: a member leaves the share that it is in, cancels it, sees that it is cancelled, or asks. OpenMP API 5.2,
//! section 16.1.

ghost use Rattle.std.specs.Prelude.{◌≡◌, true};
ghost use Rattle.gomp_events.specs.declared.event.Event.TheVariants.{End, Cancel};
ghost use Rattle.gomp_types.specs.declared.cancel.Scope.TheVariants.{OneShare};
ghost use Rattle.gomp_events.specs.Events.{open_share};
ghost use Rattle.gomp_events.specs.Cancels.{may_be_cancelled};
ghost use Rattle.gomp_events.specs.Seen.{seen_of};
ghost use Rattle.gomp_shares.specs.Calls.{CanLeave, in_construct};
ghost use Rattle.gomp_slots.specs.Calls.{Acts, SeesShareCancelled, AsksShareCancelled};
ghost use Rattle.gomp_slots.specs.Plays.{LeaveStep, CancelStep, SeeStep, AskStep};
ghost use Rattle.gomp_slots.specs.Premises.{IsSeatOf, IsSameSeat, IsAbout, IsInShare};

use crate::slots::{Chosen, Slots, gate_index};
use crate::view::View;
use atomic_table::{Play, Seat};
use gomp_gate::decode;
use gomp_types::Shape;
use std::marker::PhantomData;

/// What a member that leaves adds to the gate, as `gomp_gate::left`: 2^40.
const LEFT: u64 = 0x100_0000_0000;
/// The bit of the gate that a cancellation sets, as `gomp_gate::cancelled`: bit 47.
const CANCELLED: u64 = 0x8000_0000_0000;

struct Leave<C> {
    chosen: PhantomData<C>,
}

impl<C: Chosen> Play<Shape, View> for Leave<C> {
    ghost then = { LeaveStep C.members C.member C.share };
}

struct CancelShare<C> {
    chosen: PhantomData<C>,
}

impl<C: Chosen> Play<Shape, View> for CancelShare<C> {
    ghost then = { CancelStep C.members C.member C.share };
}

struct SeeCancelled<C> {
    chosen: PhantomData<C>,
}

impl<C: Chosen> Play<Shape, View> for SeeCancelled<C> {
    ghost then = { SeeStep C.members C.member C.share };
}

struct AskCancelled<C> {
    chosen: PhantomData<C>,
}

impl<C: Chosen> Play<Shape, View> for AskCancelled<C> {
    ghost then = { AskStep C.members C.share };
}

/// The member leaves the share that it is in. One addition to the gate.
///
/// Nothing is left for it there, or it has seen that the share is cancelled; it is in no ordered part.
pub fn leave_share<C: Chosen>(slots: &Slots, seat: &mut Seat<Shape, View>, member: u16, share: u64)
    requires seat { IsSeatOf slots.now seat.old }
    requires chosen { IsAbout C.members C.member C.share slots.now member share }
    requires inside { IsInShare C.members C.member C.share seat.old.me.0 }
    requires may { CanLeave C.members C.member (seen_of C.member seat.old.me.0.did) }
    ensures seat { IsSameSeat seat.old seat.new }
    ensures acted { Acts C.members (End C.share C.member) seat.old.me.0 seat.new.me.0 }
{
    let gate = gate_index(share);
    slots.table.shared.fetch_add::<Leave<C>>(seat, gate, LEFT);
}

/// The member cancels the share that it is in, whose end kind allows that. One bit of the gate is set; it stays set if it was.
pub fn cancel_share<C: Chosen>(slots: &Slots, seat: &mut Seat<Shape, View>, member: u16, share: u64)
    requires seat { IsSeatOf slots.now seat.old }
    requires chosen { IsAbout C.members C.member C.share slots.now member share }
    requires inside { IsInShare C.members C.member C.share seat.old.me.0 }
    requires may { may_be_cancelled (open_share C.member seat.old.me.0.did) ≡ true }
    ensures seat { IsSameSeat seat.old seat.new }
    ensures acted { Acts C.members (Cancel C.member (OneShare C.share))
        seat.old.me.0 seat.new.me.0 }
{
    let gate = gate_index(share);
    slots
        .table
        .shared
        .fetch_or::<CancelShare<C>>(seat, gate, CANCELLED);
}

/// The member, in a loop or in sections, looks whether its share is cancelled: if the answer is true, it has seen it and leaves
/// the share next; else nothing changes.
pub fn see_cancelled<C: Chosen>(
    slots: &Slots,
    seat: &mut Seat<Shape, View>,
    member: u16,
    share: u64,
) -> bool
    requires seat { IsSeatOf slots.now seat.old }
    requires chosen { IsAbout C.members C.member C.share slots.now member share }
    requires inside { IsInShare C.members C.member C.share seat.old.me.0 }
    requires may { in_construct (open_share C.member seat.old.me.0.did) ≡ true }
    ensures seat { IsSameSeat seat.old seat.new }
    ensures seen { SeesShareCancelled C.members C.member C.share
        seat.old.me.0 result seat.new.me.0 }
{
    let gate = gate_index(share);
    let word = slots.table.shared.load::<SeeCancelled<C>>(seat, gate);
    decode(word).cancelled
}

/// Whether the share that the member is in is cancelled. Nothing changes.
pub fn ask_cancelled<C: Chosen>(
    slots: &Slots,
    seat: &mut Seat<Shape, View>,
    member: u16,
    share: u64,
) -> bool
    requires seat { IsSeatOf slots.now seat.old }
    requires chosen { IsAbout C.members C.member C.share slots.now member share }
    requires inside { IsInShare C.members C.member C.share seat.old.me.0 }
    ensures seat { IsSameSeat seat.old seat.new }
    ensures answer { AsksShareCancelled C.members C.share
        seat.old.me.0 result seat.new.me.0 }
{
    let gate = gate_index(share);
    let found = slots.table.shared.load::<AskCancelled<C>>(seat, gate);
    decode(found).cancelled
}

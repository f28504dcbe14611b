//! Turns: a member of an ordered loop begins and ends ordered parts, and hands its piece on. OpenMP API 5.2, section 15.10.2.

ghost use Rattle.std.specs.Prelude.{◌≡◌, ◌<◌, ◌^◌};
ghost use Rattle.gomp_events.specs.declared.event.Event.TheVariants.{Part, PartEnd, HandOn as HandedOn};
ghost use Rattle.gomp_events.specs.Seen.{seen_of};
ghost use Rattle.gomp_shares.specs.Calls.{CanBeginPart, CanEndPart, CanHandOn};
ghost use Rattle.gomp_slots.specs.Calls.{Acts, TriesTurn};
ghost use Rattle.gomp_slots.specs.Plays.{BeginStep, EndPartStep, HandOnStep};
ghost use Rattle.gomp_slots.specs.Premises.{IsSeatOf, IsSameSeat, IsAbout, IsInShare, HasPieceNumber};

use crate::slots::{Chosen, Slots, gate_index};
use crate::view::View;
use atomic_table::{Play, Seat};
use gomp_types::Shape;
use std::marker::PhantomData;

/// The turn lies so many words behind the gate.
const TURN: usize = 5;

struct BeginPart<C> {
    chosen: PhantomData<C>,
}

impl<C: Chosen> Play<Shape, View> for BeginPart<C> {
    ghost then = { BeginStep C.members C.member C.share C.piece C.iteration };
}

struct EndPart<C> {
    chosen: PhantomData<C>,
}

impl<C: Chosen> Play<Shape, View> for EndPart<C> {
    ghost then = { EndPartStep C.members C.member C.share };
}

struct HandOn<C> {
    chosen: PhantomData<C>,
}

impl<C: Chosen> Play<Shape, View> for HandOn<C> {
    ghost then = { HandOnStep C.members C.member C.share C.piece };
}

/// The member begins the ordered part of an iteration of its piece if every piece before its own was handed on: then the answer
/// is true. Else nothing changes.
///
/// `piece` is the number of the piece that the member took last, from 0. The iteration is one of that piece, after those whose
/// parts the member has begun.
pub fn begin_part<C: Chosen>(
    slots: &Slots,
    seat: &mut Seat<Shape, View>,
    member: u16,
    share: u64,
    piece: u64,
    iteration: u64,
) -> bool
    requires seat { IsSeatOf slots.now seat.old }
    requires chosen { IsAbout C.members C.member C.share slots.now member share }
    requires part { (piece ≡ C.piece) × (iteration ≡ C.iteration) }
    requires holds { HasPieceNumber C.members C.member C.share C.piece seat.old.me.0 }
    requires may { CanBeginPart C.members C.member C.iteration
        (seen_of C.member seat.old.me.0.did) }
    ensures seat { IsSameSeat seat.old seat.new }
    ensures turn { TriesTurn C.members C.member (Part C.share C.member C.iteration)
        seat.old.me.0 result seat.new.me.0 }
{
    let gate = gate_index(share);
    slots.table.shared.load::<BeginPart<C>>(seat, gate + TURN) == piece
}

/// The member ends the ordered part that it is in. The turn stays with its piece.
pub fn end_part<C: Chosen>(slots: &Slots, seat: &mut Seat<Shape, View>, member: u16, share: u64)
    requires seat { IsSeatOf slots.now seat.old }
    requires chosen { IsAbout C.members C.member C.share slots.now member share }
    requires inside { IsInShare C.members C.member C.share seat.old.me.0 }
    requires may { CanEndPart C.members C.member (seen_of C.member seat.old.me.0.did) }
    ensures seat { IsSameSeat seat.old seat.new }
    ensures acted { Acts C.members (PartEnd C.share C.member) seat.old.me.0 seat.new.me.0 }
{
    let gate = gate_index(share);
    slots.table.shared.load::<EndPart<C>>(seat, gate + TURN);
}

/// The member hands its piece on if every piece before it was handed on: then the answer is true, and the turn is the next
/// piece's. Else nothing changes. One exchange of the turn, which tests and stores at once.
///
/// `piece` is the number of the piece that the member took last, from 0. The member is in no ordered part.
pub fn hand_on<C: Chosen>(
    slots: &Slots,
    seat: &mut Seat<Shape, View>,
    member: u16,
    share: u64,
    piece: u64,
) -> bool
    requires seat { IsSeatOf slots.now seat.old }
    requires chosen { IsAbout C.members C.member C.share slots.now member share }
    requires piece { (piece ≡ C.piece) × (piece < 2 ^ 39) }
    requires holds { HasPieceNumber C.members C.member C.share C.piece seat.old.me.0 }
    requires may { CanHandOn C.members C.member (seen_of C.member seat.old.me.0.did) }
    ensures seat { IsSameSeat seat.old seat.new }
    ensures turn { TriesTurn C.members C.member (HandedOn C.share C.member C.piece)
        seat.old.me.0 result seat.new.me.0 }
{
    let gate = gate_index(share);
    slots
        .table
        .shared
        .compare_exchange::<HandOn<C>>(seat, gate + TURN, piece, piece + 1)
        == piece
}

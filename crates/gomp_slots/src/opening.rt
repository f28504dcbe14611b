//! How a member opens its next share, or enters it: the seat looks at the slot, reads the share's shape there, or takes the slot,
//! stores the shape's words, and opens the share. OpenMP API 5.2, chapter 11.

ghost use Rattle.std.specs.Prelude.{◌≡◌, ◌<◌, ◌+◌, if◌then◌else◌, false, true, None, Some};
ghost use Rattle.gomp_types.specs.declared.shape.Shape.{Shape};
ghost use Rattle.gomp_events.specs.declared.event.Event.TheVariants.{Enter};
ghost use Rattle.gomp_events.specs.Seen.{seen_of};
ghost use Rattle.gomp_types.specs.Values.{IsShape};
ghost use Rattle.gomp_shares.specs.Calls.{CanOpen};
ghost use Rattle.gomp_gate.specs.Gates.{is_free_for, phase_of, phase_for, is_bare_single};
ghost use Rattle.gomp_gate.specs.Shapes.{shape_word, SameWords};
ghost use Rattle.gomp_slots.specs.Rule.{FitsWords};
ghost use Rattle.gomp_slots.specs.Calls.{Acts, LooksAtSlot, TriesSlot, ComparesWord, Publishes, delay_of, OpensNext};
ghost use Rattle.gomp_slots.specs.Plays.{LookStep, ReadStep, EnterStep, TakeSlotStep, StoreStep, CompareStep, PublishStep};
ghost use Rattle.gomp_slots.specs.Premises.{IsSeatOf, IsSameSeat, IsAbout, IsBeforeShare, IsStoring};

use crate::slots::{Chosen, Slots, gate_index};
use crate::view::View;
use atomic_table::{Play, Seat};
use gomp_gate::{
    Phase, decode, holds_share, is_bare, is_bare_single, is_free_for, opened, opening, shape_word,
};
use gomp_types::Shape;
use std::marker::PhantomData;

/// Why a member cannot enter its next share yet, which nobody has entered.
#[derive(Clone, Copy, Debug, PartialEq, Eq)]
pub enum Delay {
    /// Some member has not left the share eight before.
    NoRoom,
    /// Another seat is opening the share at this moment.
    BeingOpened,
}

/// The answer to a member that opens its next share.
#[derive(Clone, Copy, Debug, PartialEq, Eq)]
pub enum Entry {
    /// The member is in the share.
    Entered,
    /// It is not, and may ask again.
    NotYet(Delay),
    /// Others entered the share in another shape.
    Differs,
}

struct LookAtNext<C> {
    chosen: PhantomData<C>,
}

impl<C: Chosen> Play<Shape, View> for LookAtNext<C> {
    ghost then = { LookStep C.members C.share };
}

struct ReadWord;

impl Play<Shape, View> for ReadWord {
    ghost then = { ReadStep };
}

struct EnterShare<C> {
    chosen: PhantomData<C>,
}

impl<C: Chosen> Play<Shape, View> for EnterShare<C> {
    ghost then = { EnterStep C.members C.member C.share };
}

struct TakeSlot<C> {
    chosen: PhantomData<C>,
}

impl<C: Chosen> Play<Shape, View> for TakeSlot<C> {
    ghost then = { TakeSlotStep C.members C.share };
}

struct StoreWord;

impl Play<Shape, View> for StoreWord {
    ghost then = { StoreStep };
}

struct CompareWord;

impl Play<Shape, View> for CompareWord {
    ghost then = { CompareStep };
}

struct Publish<C> {
    chosen: PhantomData<C>,
}

impl<C: Chosen> Play<Shape, View> for Publish<C> {
    ghost then = { PublishStep C.members C.member C.share };
}

/// Looks at the slot of the member's next share. The answer is its gate: `gomp_gate::holds_share` tells whether the share is open
/// there, and then the seat has found its shape.
///
/// `share` is the number of the member's next share. The seat opens no share.
pub fn look_at_next<C: Chosen>(
    slots: &Slots,
    seat: &mut Seat<Shape, View>,
    member: u16,
    share: u64,
) -> u64
    requires seat { IsSeatOf slots.now seat.old }
    requires chosen { IsAbout C.members C.member C.share slots.now member share }
    requires next { IsBeforeShare C.members C.member C.share seat.old.me.0 }
    requires idle { seat.old.me.0.opening ≡ None }
    ensures seat { IsSameSeat seat.old seat.new }
    ensures looked { LooksAtSlot C.members C.share seat.old.me.0 result seat.new.me.0 }
{
    let gate = gate_index(share);
    slots.table.shared.load::<LookAtNext<C>>(seat, gate)
}

/// The word at this place, 0 to 3, of the share that the seat looks at, which is no bare single.
fn read_word<C: Chosen>(
    slots: &Slots,
    seat: &mut Seat<Shape, View>,
    member: u16,
    share: u64,
    place: usize,
) -> u64
    requires seat { IsSeatOf slots.now seat.old }
    requires chosen { IsAbout C.members C.member C.share slots.now member share }
    requires place { place < 4 }
    requires next { IsBeforeShare C.members C.member C.share seat.old.me.0 }
    requires looks { (shape : Shape) × (seat.old.me.0.found ≡ Some shape) ×
        (seat.old.me.0.share ≡ C.share) }
    requires told { (shape : Shape) → seat.old.me.0.found ≡ Some shape →
        is_bare_single shape ≡ false }
    ensures seat { (seat.new.table_id ≡ seat.old.table_id) × (seat.new.me ≡ seat.old.me) }
    ensures word { (shape : Shape) → seat.old.me.0.found ≡ Some shape →
        result ≡ shape_word place shape }
{
    let gate = gate_index(share);
    slots.table.shared.load::<ReadWord>(seat, gate + 1 + place)
}

/// The member enters the share that the seat looks at, which is of this shape.
fn enter_share<C: Chosen>(
    slots: &Slots,
    seat: &mut Seat<Shape, View>,
    member: u16,
    share: u64,
    shape: &Shape,
)
    requires seat { IsSeatOf slots.now seat.old }
    requires chosen { IsAbout C.members C.member C.share slots.now member share }
    requires next { IsBeforeShare C.members C.member C.share seat.old.me.0 }
    requires looks { (seat.old.me.0.found ≡ Some shape.now) × (seat.old.me.0.share ≡ C.share) }
    requires may { CanOpen C.members C.member shape.now (seen_of C.member seat.old.me.0.did) }
    ensures seat { IsSameSeat seat.old seat.new }
    ensures acted { Acts C.members (Enter C.share C.member shape.now)
        seat.old.me.0 seat.new.me.0 }
{
    let gate = gate_index(share);
    slots.table.shared.load::<EnterShare<C>>(seat, gate);
}

/// Takes the slot for the member's next share if its gate still is `word`, by which it is free for the share. The answer is the
/// gate as it was: `word` if the seat has the slot now, else another seat was first and nothing changes.
fn take_slot<C: Chosen>(
    slots: &Slots,
    seat: &mut Seat<Shape, View>,
    member: u16,
    share: u64,
    word: u64,
    shape: &Shape,
) -> u64
    requires seat { IsSeatOf slots.now seat.old }
    requires chosen { IsAbout C.members C.member C.share slots.now member share }
    requires next { IsBeforeShare C.members C.member C.share seat.old.me.0 }
    requires idle { seat.old.me.0.opening ≡ None }
    requires free { is_free_for C.members C.share word ≡ true }
    ensures seat { IsSameSeat seat.old seat.new }
    ensures tried { TriesSlot (record { members = C.members; i = C.share }) word shape.now
        seat.old.me.0 result seat.new.me.0 }
{
    let gate = gate_index(share);
    let new = opening(share);
    slots
        .table
        .shared
        .compare_exchange_with::<TakeSlot<C>>(seat, gate, word, new, shape)
}

/// Stores the next word, at this place, of the share that the seat opens.
fn store_word(
    slots: &Slots,
    seat: &mut Seat<Shape, View>,
    share: u64,
    place: usize,
    value: u64,
    shape: &Shape,
)
    requires seat { IsSeatOf slots.now seat.old }
    requires storing { IsStoring share shape.now place seat.old.me.0 }
    requires value { (place < 5) × (value ≡ shape_word place shape.now) }
    ensures seat { IsSameSeat seat.old seat.new }
    ensures stored { seat.new.me.0 ≡ record seat.old.me.0 { stored = seat.old.me.0.stored + 1 } }
{
    let gate = gate_index(share);
    slots
        .table
        .shared
        .store::<StoreWord>(seat, gate + 1 + place, value);
}

/// The word at this place as it is: the next one of the share that the seat opens may stand already.
fn compare_word(
    slots: &Slots,
    seat: &mut Seat<Shape, View>,
    share: u64,
    place: usize,
    shape: &Shape,
) -> u64
    requires seat { IsSeatOf slots.now seat.old }
    requires storing { IsStoring share shape.now place seat.old.me.0 }
    requires place { place < 5 }
    ensures seat { IsSameSeat seat.old seat.new }
    ensures compared { ComparesWord shape.now seat.old.me.0 result seat.new.me.0 }
{
    let gate = gate_index(share);
    slots
        .table
        .shared
        .load::<CompareWord>(seat, gate + 1 + place)
}

/// Stores the next word of the share that the seat opens, if it does not stand already: a load is cheaper than a store.
fn put_word(slots: &Slots, seat: &mut Seat<Shape, View>, share: u64, place: usize, shape: &Shape)
    requires seat { IsSeatOf slots.now seat.old }
    requires storing { IsStoring share shape.now place seat.old.me.0 }
    requires place { place < 5 }
    requires shape { IsShape shape.now }
    ensures seat { IsSameSeat seat.old seat.new }
    ensures stored { seat.new.me.0 ≡ record seat.old.me.0 { stored = seat.old.me.0.stored + 1 } }
{
    let value = shape_word(shape, place as u64);
    if compare_word(slots, seat, share, place, shape) != value {
        store_word(slots, seat, share, place, value, shape);
    }
}

/// Stores the five words of the share that the seat opens: the four that tell its shape, and the turn.
fn put_words(slots: &Slots, seat: &mut Seat<Shape, View>, share: u64, shape: &Shape)
    requires seat { IsSeatOf slots.now seat.old }
    requires storing { IsStoring share shape.now 0 seat.old.me.0 }
    requires shape { IsShape shape.now }
    ensures seat { IsSameSeat seat.old seat.new }
    ensures stored { seat.new.me.0 ≡ record seat.old.me.0 { stored = 5 } }
{
    put_word(slots, seat, share, 0, shape);
    put_word(slots, seat, share, 1, shape);
    put_word(slots, seat, share, 2, shape);
    put_word(slots, seat, share, 3, shape);
    put_word(slots, seat, share, 4, shape);
}

/// Stores the words of the share that the seat opens; none if it is a bare single, which its gate tells.
fn put_shape(slots: &Slots, seat: &mut Seat<Shape, View>, share: u64, bare: bool, shape: &Shape)
    requires seat { IsSeatOf slots.now seat.old }
    requires storing { IsStoring share shape.now 0 seat.old.me.0 }
    requires shape { IsShape shape.now }
    ensures seat { IsSameSeat seat.old seat.new }
    ensures stored { seat.new.me.0 ≡ record seat.old.me.0 { stored = if bare then 0 else 5 } }
{
    if !bare {
        put_words(slots, seat, share, shape);
    }
}

/// Whether the share that the seat looks at has the words of this shape. `word` is the gate that it found: by that it knows a bare
/// single, whose shape no words tell.
pub fn has_same_words<C: Chosen>(
    slots: &Slots,
    seat: &mut Seat<Shape, View>,
    member: u16,
    share: u64,
    word: u64,
    shape: &Shape,
) -> bool
    requires seat { IsSeatOf slots.now seat.old }
    requires chosen { IsAbout C.members C.member C.share slots.now member share }
    requires next { IsBeforeShare C.members C.member C.share seat.old.me.0 }
    requires looks { (other : Shape) × (seat.old.me.0.found ≡ Some other) ×
        (seat.old.me.0.share ≡ C.share) }
    requires gate { (other : Shape) → seat.old.me.0.found ≡ Some other →
        phase_of word ≡ phase_for other }
    requires shape { IsShape shape.now }
    ensures seat { (seat.new.table_id ≡ seat.old.table_id) × (seat.new.me ≡ seat.old.me) }
    ensures same { result ≡ true → (other : Shape) → seat.old.me.0.found ≡ Some other →
        SameWords other shape.now }
    ensures differs { result ≡ false → seat.old.me.0.found ≡ Some shape.now → ⊥ }
{
    if is_bare(word) {
        return is_bare_single(shape);
    }
    let trips = read_word::<C>(slots, seat, member, share, 0);
    let packed = read_word::<C>(slots, seat, member, share, 1);
    let start = read_word::<C>(slots, seat, member, share, 2);
    let incr = read_word::<C>(slots, seat, member, share, 3);
    trips == shape_word(shape, 0)
        && packed == shape_word(shape, 1)
        && start == shape_word(shape, 2)
        && incr == shape_word(shape, 3)
}

/// Opens the share in the slot that the seat took, in which all five words stand, unless it is a bare single: its member enters it.
fn publish_share<C: Chosen>(
    slots: &Slots,
    seat: &mut Seat<Shape, View>,
    member: u16,
    share: u64,
    bare: bool,
    shape: &Shape,
)
    requires seat { IsSeatOf slots.now seat.old }
    requires chosen { IsAbout C.members C.member C.share slots.now member share }
    requires next { IsBeforeShare C.members C.member C.share seat.old.me.0 }
    requires bare { bare ≡ is_bare_single shape.now }
    requires storing { IsStoring C.share shape.now (if bare then 0 else 5) seat.old.me.0 }
    requires may { CanOpen C.members C.member shape.now (seen_of C.member seat.old.me.0.did) }
    requires shape { FitsWords shape.now }
    ensures seat { IsSameSeat seat.old seat.new }
    ensures published { Publishes C.members C.member C.share shape.now
        seat.old.me.0 seat.new.me.0 }
{
    let gate = gate_index(share);
    let new = opened(share, bare);
    slots.table.shared.store::<Publish<C>>(seat, gate, new);
}

/// Enters the member's next share, which is opened if no other member has. It answers `NotYet` if some member has not left the
/// share eight before, or another seat is opening the share at this moment, and says which; `Differs` if the share is open in
/// another shape. If it is not `Entered`, the events do not change.
///
/// `share` is the number of the member's next share, `members` the size of the team. The member is in no share.
pub fn open_next<C: Chosen>(
    slots: &Slots,
    seat: &mut Seat<Shape, View>,
    member: u16,
    share: u64,
    members: u64,
    shape: &Shape,
) -> Entry
    requires seat { IsSeatOf slots.now seat.old }
    requires chosen { IsAbout C.members C.member C.share slots.now member share }
    requires size { members ≡ C.members }
    requires next { IsBeforeShare C.members C.member C.share seat.old.me.0 }
    requires idle { seat.old.me.0.opening ≡ None }
    requires may { CanOpen C.members C.member shape.now (seen_of C.member seat.old.me.0.did) }
    requires shape { FitsWords shape.now }
    ensures seat { IsSameSeat seat.old seat.new }
    ensures answer { OpensNext (record { members = C.members; m = C.member }) C.share shape.now
        result seat.old.me.0 seat.new.me.0 }
{
    let word = look_at_next::<C>(slots, seat, member, share);
    if holds_share(word, share) {
        if !has_same_words::<C>(slots, seat, member, share, word, shape) {
            return Entry::Differs;
        }
        enter_share::<C>(slots, seat, member, share, shape);
        return Entry::Entered;
    }
    if !is_free_for(word, share, members) {
        return Entry::NotYet(delay_by(word));
    }
    if take_slot::<C>(slots, seat, member, share, word, shape) != word {
        return Entry::NotYet(Delay::BeingOpened);
    }
    let bare = is_bare_single(shape);
    put_shape(slots, seat, share, bare, shape);
    publish_share::<C>(slots, seat, member, share, bare, shape);
    Entry::Entered
}

/// Why a share that is not open cannot be opened, if its slot has this gate, by which the slot is not free for it.
pub(crate) fn delay_by(word: u64) -> Delay
    ensures delay { result ≡ delay_of word }
{
    if decode(word).phase == Phase::Opening {
        Delay::BeingOpened
    } else {
        Delay::NoRoom
    }
}

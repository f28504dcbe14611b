//! The single steps of seats on the words of the slots.

ghost use Rattle.std.specs.Prelude.{◌≡◌, ◌<◌, ◌≤◌, ◌^◌, [], None, Some, true, false};
ghost use Rattle.gomp_types.specs.declared.shape.Shape.{Shape};
ghost use Rattle.gomp_types.specs.declared.cancel.Scope.TheVariants.{OneShare};
ghost use Rattle.gomp_events.specs.declared.event.Event.TheVariants.{Cancel, End, Part, PartEnd, HandOn as HandedOn};
ghost use Rattle.gomp_events.specs.Cancels.{may_be_cancelled};
ghost use Rattle.gomp_events.specs.Events.{open_share};
ghost use Rattle.gomp_events.specs.Seen.{seen_of};
ghost use Rattle.gomp_types.specs.Singles.{single_shape};
ghost use Rattle.gomp_types.specs.Values.{IsShape};
ghost use Rattle.gomp_shares.specs.Calls.{CanLeave, CanOpen, CanBeginPart, CanEndPart, CanHandOn, in_construct};
ghost use Rattle.gomp_gate.specs.Gates.{phase_of, phase_for};
ghost use Rattle.gomp_gate.specs.Shapes.{SameWords};
ghost use Rattle.gomp_slots.specs.Words.{passed_by_all};
ghost use Rattle.gomp_slots.specs.Rule.{FitsWords};
ghost use Rattle.gomp_slots.specs.Calls.{Acts, claim_event, ClaimsTicket, own_next, SeesShareCancelled, AsksShareCancelled, TriesTurn, LooksAtSlot, OpensNext, GoesThrough, PassesNext, Settles};
ghost use Rattle.gomp_slots.specs.Premises.{slots_members, IsSeatOf, IsSameSeat, IsAbout, IsInShare, IsBeforeShare, MayClaim, MayAssign, HasPieceNumber};
ghost use Rattle.gomp_slots.specs.Seats.{kept_view, dealt_view, both_view, IsSecondOnce, IsApart};

use atomic_table::Seat;
use gomp_slots::{Chosen, Entry, Passage, Slots, View};
use gomp_types::Shape;

/// A claim of a share that is not static.
pub fn take_ticket<C: Chosen>(
    slots: &Slots,
    seat: &mut Seat<Shape, View>,
    member: u16,
    share: u64,
) -> u64
    requires seat { IsSeatOf slots.now seat.old }
    requires chosen { IsAbout C.members C.member C.share slots.now member share }
    requires may { MayClaim C.members C.member C.share seat.old.me.0 }
    ensures seat { IsSameSeat seat.old seat.new }
    ensures claimed { ClaimsTicket C.members C.member C.share result seat.old.me.0 seat.new.me.0 }
    ensures ticket { result < 2 ^ 40 }
{
    gomp_slots::take_ticket::<C>(slots, seat, member, share)
}

/// The next piece of a static share.
pub fn take_assigned<C: Chosen>(
    slots: &Slots,
    seat: &mut Seat<Shape, View>,
    member: u16,
    share: u64,
)
    requires seat { IsSeatOf slots.now seat.old }
    requires chosen { IsAbout C.members C.member C.share slots.now member share }
    requires may { MayAssign C.members C.member C.share seat.old.me.0 }
    ensures seat { IsSameSeat seat.old seat.new }
    ensures acted { Acts C.members (claim_event C.share C.member (own_next C.members C.member
        seat.old.me.0.did (open_share C.member seat.old.me.0.did))) seat.old.me.0 seat.new.me.0 }
{
    gomp_slots::take_assigned::<C>(slots, seat, member, share);
}

/// The member leaves its share.
pub fn leave_share<C: Chosen>(slots: &Slots, seat: &mut Seat<Shape, View>, member: u16, share: u64)
    requires seat { IsSeatOf slots.now seat.old }
    requires chosen { IsAbout C.members C.member C.share slots.now member share }
    requires inside { IsInShare C.members C.member C.share seat.old.me.0 }
    requires may { CanLeave C.members C.member (seen_of C.member seat.old.me.0.did) }
    ensures seat { IsSameSeat seat.old seat.new }
    ensures acted { Acts C.members (End C.share C.member) seat.old.me.0 seat.new.me.0 }
{
    gomp_slots::leave_share::<C>(slots, seat, member, share);
}

/// It cancels it.
pub fn cancel_share<C: Chosen>(slots: &Slots, seat: &mut Seat<Shape, View>, member: u16, share: u64)
    requires seat { IsSeatOf slots.now seat.old }
    requires chosen { IsAbout C.members C.member C.share slots.now member share }
    requires inside { IsInShare C.members C.member C.share seat.old.me.0 }
    requires may { may_be_cancelled (open_share C.member seat.old.me.0.did) ≡ true }
    ensures seat { IsSameSeat seat.old seat.new }
    ensures acted { Acts C.members (Cancel C.member (OneShare C.share))
        seat.old.me.0 seat.new.me.0 }
{
    gomp_slots::cancel_share::<C>(slots, seat, member, share);
}

/// It sees whether it is cancelled.
pub fn see_cancelled<C: Chosen>(
    slots: &Slots,
    seat: &mut Seat<Shape, View>,
    member: u16,
    share: u64,
) -> bool
    requires seat { IsSeatOf slots.now seat.old }
    requires chosen { IsAbout C.members C.member C.share slots.now member share }
    requires inside { IsInShare C.members C.member C.share seat.old.me.0 }
    requires may { in_construct (open_share C.member seat.old.me.0.did) ≡ true }
    ensures seat { IsSameSeat seat.old seat.new }
    ensures seen { SeesShareCancelled C.members C.member C.share
        seat.old.me.0 result seat.new.me.0 }
{
    gomp_slots::see_cancelled::<C>(slots, seat, member, share)
}

/// It asks whether it is cancelled.
pub fn ask_cancelled<C: Chosen>(
    slots: &Slots,
    seat: &mut Seat<Shape, View>,
    member: u16,
    share: u64,
) -> bool
    requires seat { IsSeatOf slots.now seat.old }
    requires chosen { IsAbout C.members C.member C.share slots.now member share }
    requires inside { IsInShare C.members C.member C.share seat.old.me.0 }
    ensures seat { IsSameSeat seat.old seat.new }
    ensures answer { AsksShareCancelled C.members C.share
        seat.old.me.0 result seat.new.me.0 }
{
    gomp_slots::ask_cancelled::<C>(slots, seat, member, share)
}

/// It begins an ordered part, if the turn is its.
pub fn begin_part<C: Chosen>(
    slots: &Slots,
    seat: &mut Seat<Shape, View>,
    member: u16,
    share: u64,
    piece: u64,
    iteration: u64,
) -> bool
    requires seat { IsSeatOf slots.now seat.old }
    requires chosen { IsAbout C.members C.member C.share slots.now member share }
    requires part { (piece ≡ C.piece) × (iteration ≡ C.iteration) }
    requires holds { HasPieceNumber C.members C.member C.share C.piece seat.old.me.0 }
    requires may { CanBeginPart C.members C.member C.iteration
        (seen_of C.member seat.old.me.0.did) }
    ensures seat { IsSameSeat seat.old seat.new }
    ensures turn { TriesTurn C.members C.member (Part C.share C.member C.iteration)
        seat.old.me.0 result seat.new.me.0 }
{
    gomp_slots::begin_part::<C>(slots, seat, member, share, piece, iteration)
}

/// It ends it.
pub fn end_part<C: Chosen>(slots: &Slots, seat: &mut Seat<Shape, View>, member: u16, share: u64)
    requires seat { IsSeatOf slots.now seat.old }
    requires chosen { IsAbout C.members C.member C.share slots.now member share }
    requires inside { IsInShare C.members C.member C.share seat.old.me.0 }
    requires may { CanEndPart C.members C.member (seen_of C.member seat.old.me.0.did) }
    ensures seat { IsSameSeat seat.old seat.new }
    ensures acted { Acts C.members (PartEnd C.share C.member) seat.old.me.0 seat.new.me.0 }
{
    gomp_slots::end_part::<C>(slots, seat, member, share);
}

/// It hands its piece on, if the turn is its.
pub fn hand_on<C: Chosen>(
    slots: &Slots,
    seat: &mut Seat<Shape, View>,
    member: u16,
    share: u64,
    piece: u64,
) -> bool
    requires seat { IsSeatOf slots.now seat.old }
    requires chosen { IsAbout C.members C.member C.share slots.now member share }
    requires piece { (piece ≡ C.piece) × (piece < 2 ^ 39) }
    requires holds { HasPieceNumber C.members C.member C.share C.piece seat.old.me.0 }
    requires may { CanHandOn C.members C.member (seen_of C.member seat.old.me.0.did) }
    ensures seat { IsSameSeat seat.old seat.new }
    ensures turn { TriesTurn C.members C.member (HandedOn C.share C.member C.piece)
        seat.old.me.0 result seat.new.me.0 }
{
    gomp_slots::hand_on::<C>(slots, seat, member, share, piece)
}

/// The seat looks at the slot of its member's next share.
pub fn look_at_next<C: Chosen>(
    slots: &Slots,
    seat: &mut Seat<Shape, View>,
    member: u16,
    share: u64,
) -> u64
    requires seat { IsSeatOf slots.now seat.old }
    requires chosen { IsAbout C.members C.member C.share slots.now member share }
    requires next { IsBeforeShare C.members C.member C.share seat.old.me.0 }
    requires idle { seat.old.me.0.opening ≡ None }
    ensures seat { IsSameSeat seat.old seat.new }
    ensures looked { LooksAtSlot C.members C.share seat.old.me.0 result seat.new.me.0 }
{
    gomp_slots::look_at_next::<C>(slots, seat, member, share)
}

/// Whether the share there has the words of this shape.
pub fn has_same_words<C: Chosen>(
    slots: &Slots,
    seat: &mut Seat<Shape, View>,
    member: u16,
    share: u64,
    word: u64,
    shape: &Shape,
) -> bool
    requires seat { IsSeatOf slots.now seat.old }
    requires chosen { IsAbout C.members C.member C.share slots.now member share }
    requires next { IsBeforeShare C.members C.member C.share seat.old.me.0 }
    requires looks { (other : Shape) × (seat.old.me.0.found ≡ Some other) ×
        (seat.old.me.0.share ≡ C.share) }
    requires gate { (other : Shape) → seat.old.me.0.found ≡ Some other →
        phase_of word ≡ phase_for other }
    requires shape { IsShape shape.now }
    ensures seat { (seat.new.table_id ≡ seat.old.table_id) × (seat.new.me ≡ seat.old.me) }
    ensures same { result ≡ true → (other : Shape) → seat.old.me.0.found ≡ Some other →
        SameWords other shape.now }
    ensures differs { result ≡ false → seat.old.me.0.found ≡ Some shape.now → ⊥ }
{
    gomp_slots::has_same_words::<C>(slots, seat, member, share, word, shape)
}

/// The member enters its next share.
pub fn open_next<C: Chosen>(
    slots: &Slots,
    seat: &mut Seat<Shape, View>,
    member: u16,
    share: u64,
    members: u64,
    shape: &Shape,
) -> Entry
    requires seat { IsSeatOf slots.now seat.old }
    requires chosen { IsAbout C.members C.member C.share slots.now member share }
    requires size { members ≡ C.members }
    requires next { IsBeforeShare C.members C.member C.share seat.old.me.0 }
    requires idle { seat.old.me.0.opening ≡ None }
    requires may { CanOpen C.members C.member shape.now (seen_of C.member seat.old.me.0.did) }
    requires shape { FitsWords shape.now }
    ensures seat { IsSameSeat seat.old seat.new }
    ensures answer { OpensNext (record { members = C.members; m = C.member }) C.share shape.now
        result seat.old.me.0 seat.new.me.0 }
{
    gomp_slots::open_next::<C>(slots, seat, member, share, members, shape)
}

/// The member goes through its next share, a bare single.
pub fn pass_single<C: Chosen>(
    slots: &Slots,
    seat: &mut Seat<Shape, View>,
    member: u16,
    share: u64,
    members: u64,
) -> Passage
    requires seat { IsSeatOf slots.now seat.old }
    requires chosen { IsAbout C.members C.member C.share slots.now member share }
    requires size { members ≡ C.members }
    requires next { IsBeforeShare C.members C.member C.share seat.old.me.0 }
    requires idle { seat.old.me.0.opening ≡ None }
    requires may { CanOpen C.members C.member (single_shape false)
        (seen_of C.member seat.old.me.0.did) }
    ensures seat { IsSameSeat seat.old seat.new }
    ensures answer { PassesNext C.members C.member C.share result
        seat.old.me.0 seat.new.me.0 }
{
    gomp_slots::pass_single::<C>(slots, seat, member, share, members)
}

/// What such a single leaves in its gate once all went through it, without its round.
pub fn passed_by_all(members: u64) -> u64
    requires few { members ≤ 64 }
    ensures word { result ≡ passed_by_all members }
{
    gomp_slots::passed_by_all(members)
}

/// The same by an exchange without a look.
pub fn pass_again<C: Chosen>(
    slots: &Slots,
    seat: &mut Seat<Shape, View>,
    member: u16,
    share: u64,
    passed: u64,
) -> bool
    requires seat { IsSeatOf slots.now seat.old }
    requires chosen { IsAbout C.members C.member C.share slots.now member share }
    requires size { (passed ≡ passed_by_all C.members) × (C.members ≤ 64) }
    requires late { 8 ≤ C.share }
    requires next { IsBeforeShare C.members C.member C.share seat.old.me.0 }
    requires idle { seat.old.me.0.opening ≡ None }
    requires may { CanOpen C.members C.member (single_shape false)
        (seen_of C.member seat.old.me.0.did) }
    ensures seat { IsSameSeat seat.old seat.new }
    ensures passed { result ≡ true →
        GoesThrough C.members C.member C.share true seat.old.me.0 seat.new.me.0 }
    ensures stays { result ≡ false → seat.new.me ≡ seat.old.me }
{
    gomp_slots::pass_again::<C>(slots, seat, member, share, passed)
}

/// A seat becomes two.
pub fn split_seat(slots: &Slots, seat: &mut Seat<Shape, View>) -> Seat<Shape, View>
    requires seat { IsSeatOf slots.now seat.old }
    requires idle { seat.old.me.0.opening ≡ None }
    requires distinct { IsSecondOnce seat.old.me.0.mine }
    ensures tables { (seat.new.table_id ≡ seat.old.table_id) ×
        (result.table_id ≡ seat.old.table_id) }
    ensures views { (seat.new.me ≡ (kept_view seat.old.me.0, seat.old.me.1)) ×
        (result.me ≡ (dealt_view seat.old.me.0, [])) }
{
    gomp_slots::split_seat(slots, seat)
}

/// Two become one.
pub fn join_seats(slots: &Slots, seat: &mut Seat<Shape, View>, other: Seat<Shape, View>)
    requires seats { IsSeatOf slots.now seat.old × IsSeatOf slots.now other × (other.me.1 ≡ []) }
    requires idle { (seat.old.me.0.opening ≡ None) × (other.me.0.opening ≡ None) }
    requires apart { IsApart seat.old.me.0 other.me.0 }
    ensures seat { (seat.new.table_id ≡ seat.old.table_id) ×
        (seat.new.me ≡ (both_view seat.old.me.0 other.me.0, seat.old.me.1)) }
{
    gomp_slots::join_seats(slots, seat, other);
}

/// A seat learns that there are events of which it knows its part.
pub fn settle<C: Chosen>(slots: &Slots, seat: &mut Seat<Shape, View>)
    requires seat { IsSeatOf slots.now seat.old }
    requires size { slots_members slots.now ≡ C.members }
    ensures seat { (seat.new.table_id ≡ seat.old.table_id) × (seat.new.me ≡ seat.old.me) }
    ensures settled { Settles C.members seat.old.me.0 }
{
    gomp_slots::settle::<C>(slots, seat);
}

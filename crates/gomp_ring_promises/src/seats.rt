//! The work-shares of a team on threads: the ring, the seat of one member, and what the members took together.

ghost use Rattle.std.specs.Prelude.{◌≡◌, ◌<◌, ◌&&◌, true, false, not, is_some, IfOk, IfErr};
ghost use Rattle.gomp_events.specs.declared.event.Event.TheVariants.{End, Cancel, Part, PartEnd};
ghost use Rattle.gomp_types.specs.declared.cancel.Scope.TheVariants.{OneShare};
ghost use Rattle.gomp_types.specs.Limits.{IsTeamSize};
ghost use Rattle.gomp_events.specs.Events.{share_number};
ghost use Rattle.gomp_types.specs.Singles.{single_shape};
ghost use Rattle.gomp_shares.specs.Calls.{CanOpen, CanClaim, CanLeave, CanCancel, CanSee, CanBeginPart, CanEndPart, CanHandOn};
ghost use Rattle.gomp_ring.specs.Rings.{ring_members};
ghost use Rattle.gomp_ring.specs.RingSeats.{IsOnRing, IsNewRing, SeatActs, SeatClaims, SeatClaimsNext, may_claim, may_enter, SeatOpens, SeatCompares, SeatPasses, SeatPassesNext, SeatSplits, IsLawfulSeat, piece_in, SeatAsks, SeatSees, SeatTriesTurn, piece_handed_on, AreAllSeats, Gathers};

use gomp_events::Seen;
use gomp_ring::{Entry, Gathered, Passage, Piece, Ring, RingSeat};
use gomp_types::Shape;
use std::alloc::{AllocError, Global};

/// A new ring, and the seat of member 0.
pub fn new_ring(alloc: Global, members: u16) -> Result<(Ring, RingSeat), AllocError>
    requires team { IsTeamSize members }
    ensures ring { IfOk result (λ made. IsNewRing members made.0 made.1) }
{
    Ring::new(alloc, members)
}

/// Whose seat it is.
pub fn member(seat: &RingSeat) -> u16
    ensures { result ≡ seat.now.member }
{
    seat.member()
}

/// The seat of the next member.
pub fn split(seat: &mut RingSeat, ring: &Ring) -> Option<RingSeat>
    requires ring { IsOnRing ring.now seat.old }
    ensures split { SeatSplits seat.old result seat.new }
{
    seat.split(ring)
}

/// What the member sees of its place.
pub fn seen(seat: &RingSeat) -> Seen
    ensures value { result ≡ seat.now.seen }
    ensures stands { IsLawfulSeat seat.now }
{
    seat.seen()
}

/// The share that it is in.
pub fn current(seat: &RingSeat) -> Option<(u64, Shape)>
    ensures value { result ≡ seat.now.seen.current }
    ensures stands { IsLawfulSeat seat.now }
{
    seat.current()
}

/// Whether the member may enter a share.
pub fn may_enter(seat: &RingSeat) -> bool
    ensures answer { result ≡ may_enter seat.now.seen }
    ensures member { seat.now.member < seat.now.members }
{
    seat.may_enter()
}

/// Whether nothing is left for it in the share that it is in.
pub fn is_drained(seat: &RingSeat) -> bool
    ensures drained { result ≡ (is_some seat.now.seen.current && seat.now.seen.drained
        && not seat.now.seen.in_part) }
{
    seat.is_drained()
}

/// The member's next share.
pub fn try_open(seat: &mut RingSeat, ring: &Ring, shape: &Shape) -> Entry
    requires ring { IsOnRing ring.now seat.old }
    requires place { CanOpen seat.old.members seat.old.member shape.now seat.old.seen }
    ensures opened { SeatOpens seat.old shape.now result seat.new }
{
    seat.try_open(ring, shape)
}

/// Whether its next share is of another shape.
pub fn differs(seat: &mut RingSeat, ring: &Ring, shape: &Shape) -> bool
    requires ring { IsOnRing ring.now seat.old }
    requires place { CanOpen seat.old.members seat.old.member shape.now seat.old.seen }
    ensures compared { SeatCompares seat.old shape.now result seat.new }
{
    seat.differs(ring, shape)
}

/// Its next share, a bare single.
pub fn single(seat: &mut RingSeat, ring: &Ring) -> Passage
    requires ring { IsOnRing ring.now seat.old }
    requires place { CanOpen seat.old.members seat.old.member (single_shape false) seat.old.seen }
    ensures passed { SeatPasses seat.old result seat.new }
{
    seat.single(ring)
}

/// Its next share, a bare single, if it may enter one.
pub fn single_next(seat: &mut RingSeat, ring: &Ring) -> Option<Passage>
    requires ring { IsOnRing ring.now seat.old }
    ensures passed { SeatPassesNext (may_enter seat.old.seen) seat.old result seat.new }
{
    seat.single_next(ring)
}

/// Its next piece.
pub fn claim(seat: &mut RingSeat, ring: &Ring) -> Piece
    requires ring { IsOnRing ring.now seat.old }
    requires place { CanClaim seat.old.members seat.old.member seat.old.seen }
    ensures claimed { SeatClaims seat.old (piece_in result.first result.end) seat.new }
{
    seat.claim(ring)
}

/// Its next piece, if it may claim one.
pub fn claim_next(seat: &mut RingSeat, ring: &Ring) -> Piece
    requires ring { IsOnRing ring.now seat.old }
    ensures claimed { SeatClaimsNext (may_claim seat.old.seen) seat.old
        (piece_in result.first result.end) seat.new }
{
    seat.claim_next(ring)
}

/// Whether it may claim a piece.
pub fn may_claim(seat: &RingSeat) -> bool
    ensures answer { result ≡ may_claim seat.now.seen }
    ensures place { result ≡ true →
        CanClaim seat.now.members seat.now.member seat.now.seen }
{
    seat.may_claim()
}

/// It leaves its share.
pub fn leave(seat: &mut RingSeat, ring: &Ring)
    requires ring { IsOnRing ring.now seat.old }
    requires place { CanLeave seat.old.members seat.old.member seat.old.seen }
    ensures left { SeatActs (End (share_number seat.old.seen.current) seat.old.member)
        seat.old seat.new }
{
    seat.leave(ring);
}

/// It cancels its share.
pub fn cancel(seat: &mut RingSeat, ring: &Ring)
    requires ring { IsOnRing ring.now seat.old }
    requires place { CanCancel seat.old.members seat.old.member seat.old.seen }
    ensures cancelled { SeatActs
        (Cancel seat.old.member (OneShare (share_number seat.old.seen.current)))
        seat.old seat.new }
{
    seat.cancel(ring);
}

/// Whether its share is cancelled.
pub fn cancelled(seat: &mut RingSeat, ring: &Ring) -> bool
    requires ring { IsOnRing ring.now seat.old }
    ensures asked { SeatAsks seat.old result seat.new }
{
    seat.cancelled(ring)
}

/// It sees whether its share is cancelled.
pub fn see(seat: &mut RingSeat, ring: &Ring) -> bool
    requires ring { IsOnRing ring.now seat.old }
    requires place { CanSee seat.old.members seat.old.member seat.old.seen }
    ensures seen { SeatSees seat.old result seat.new }
{
    seat.see(ring)
}

/// It begins an ordered part.
pub fn try_turn(seat: &mut RingSeat, ring: &Ring, iteration: u64) -> bool
    requires ring { IsOnRing ring.now seat.old }
    requires place { CanBeginPart seat.old.members seat.old.member iteration seat.old.seen }
    ensures turn { SeatTriesTurn
        (Part (share_number seat.old.seen.current) seat.old.member iteration)
        seat.old result seat.new }
{
    seat.try_turn(ring, iteration)
}

/// It ends its ordered part.
pub fn end_part(seat: &mut RingSeat, ring: &Ring)
    requires ring { IsOnRing ring.now seat.old }
    requires place { CanEndPart seat.old.members seat.old.member seat.old.seen }
    ensures ended { SeatActs (PartEnd (share_number seat.old.seen.current) seat.old.member)
        seat.old seat.new }
{
    seat.end_part(ring);
}

/// It hands its piece on.
pub fn hand_on(seat: &mut RingSeat, ring: &Ring) -> bool
    requires ring { IsOnRing ring.now seat.old }
    requires place { CanHandOn seat.old.members seat.old.member seat.old.seen }
    ensures turn { SeatTriesTurn (piece_handed_on seat.old) seat.old result seat.new }
{
    seat.hand_on(ring)
}

/// What all members took.
pub fn gather(
    alloc: Global,
    ring: &Ring,
    seats: Vec<RingSeat>,
) -> Result<Gathered, (AllocError, Vec<RingSeat>)>
    requires seats { AreAllSeats ring.now seats.items }
    ensures gathered { IfOk result (λ all.
        Gathers (ring_members ring.now) seats.items all.shares all.taken.items) }
    ensures refused { IfErr result (λ back. back.1.items ≡ seats.items) }
{
    gomp_ring::gather(alloc, ring, seats)
}

//! The seat of one member: it opens the member's shares, claims pieces of them, and leaves them. OpenMP API 5.2, chapter 11.
//!
//! The seat of member 0 comes with the ring, and those of the others are split from it. A seat goes to its member's thread; no
//! call of it waits, takes memory or asks another seat.

ghost use Rattle.std.specs.Prelude.{◌≡◌, ◌<◌, [], true, if◌then◌else◌, ◌&&◌, not, is_some};
ghost use Rattle.gomp_events.specs.declared.event.Event.TheVariants.{End};
ghost use Rattle.gomp_types.specs.Shapes.{is_static, is_loop};
ghost use Rattle.gomp_events.specs.Events.{share_number};
ghost use Rattle.gomp_shares.specs.Calls.{CanOpen, CanClaim, CanLeave};
ghost use Rattle.gomp_ring.specs.RingSeats.{IsOnRing, IsFresh, fresh_view, SeatActs, SeatClaims, SeatClaimsNext, may_claim, may_enter, SeatOpens, SeatSplits, IsLawfulSeat, piece_in, static_in, IsGivenUp};

use crate::current::Current;
use crate::piece::{Piece, finish_piece, keep_plan, look_up_piece};
use crate::ring::Ring;
use atomic_table::Seat;
use gomp_chunks::{Cursor, Plan};
use gomp_events::Seen;
use gomp_slots::{
    Entry, View, gate_index, leave_share, open_next, passed_by_all, split_seat, take_assigned,
    take_ticket_at,
};
use gomp_types::{Shape, ShareKind, single_shape};
use std::marker::{Brand, Model};

/// The seat of one member of a team.
#[derive(Drop)]
pub struct RingSeat {
    /// The member's seat at the slots: its share of what all members know of them.
    pub(crate) seat: Seat<Shape, View>,
    /// How many members the team has, 1 to 64.
    pub(crate) members: u16,
    /// The member's number, from 0.
    pub(crate) member: u16,
    /// The members from this number on have no seat yet: this seat acts for them too, and is split once for each.
    seated: u16,
    /// How many shares the member has entered, 0 to 2^48.
    pub(crate) entered: u64,
    /// The share that it is in, by number and shape.
    pub(crate) current: Current,
    /// Where the gate of that share lies.
    gate: usize,
    /// The chunk of that share, which a claim reads here: so it need not ask whether the member is in a share.
    pub(crate) chunk: u64,
    /// Whether it was answered that nothing is left of the share that it entered last.
    pub(crate) drained: bool,
    /// Whether it may claim, by ticket: it is in a share that is not static, was not answered that nothing is left, and is in no
    /// ordered part. So a claim tests one byte.
    pub(crate) asking: bool,
    /// The number of the piece that it asked for last of that share, and 1; 0 before it asked for one.
    pub(crate) asked: u64,
    /// So many of the first pieces of that share have a whole chunk each.
    pub(crate) whole: u64,
    /// From this number on that share has no piece; it may have none of a lower one.
    pub(crate) none_from: u64,
    /// How many pieces of that share it took, if that is static.
    own: u64,
    /// How many iterations of that share it took.
    here: u64,
    /// How many iterations it took of the loops that it has left.
    taken: u128,
    /// The iteration after that of the member's last ordered part of the share that it entered last; 0 before its first.
    pub(crate) next_part: u64,
    /// Whether it is in an ordered part.
    pub(crate) in_part: bool,
    /// Whether it has seen that the share that it is in is cancelled.
    pub(crate) leaving: bool,
    /// The pieces of the share that it entered last.
    pub(crate) cursor: Cursor,
    /// The shape of that share.
    pub(crate) planned: Shape,
    /// Whether these are known to be those of a `single` without words for the others.
    pub(crate) bare: bool,
    /// Below so many shares the member goes through the next one without a look: 2^48, if it executed its last share, a `single`
    /// without words for the others, and has entered eight shares or more; else 0.
    pub(crate) again_below: u64,
    /// What such a single leaves in its gate once all members went through it, without its round.
    pub(crate) passed: u64,
}

impl Model for RingSeat {
    ghost use Rattle.std.specs.Prelude.{◌≡◌, ◌≤◌, ◌^◌, nat_lt, []};
    ghost use Rattle.gomp_ring.specs.RingSeats.{SeatView, seen_by, IsSeat, ActsFor, Counts, AreWhole, IsGateOf, AskedIsThere, asks_by_ticket, IsChunkOf, IsOfSingle, HasExecuted, AreNoneFrom};
    ghost use Rattle.gomp_slots.specs.Words.{passed_by_all};

    ghost Value = { SeatView };

    ghost view = { λ s. record {
      table = s.seat.table_id;
      members = s.members;
      member = s.member;
      seated = s.seated;
      seen = seen_by s.entered s.current s.drained s.cursor.plan s.asked s.next_part s.in_part s.leaving;
      did = s.seat.me.0.did;
    } };

    ghost invariant = { λ s. (s.seat.me.1 ≡ []) ×
        IsSeat s.members s.member (seen_by s.entered s.current s.drained s.cursor.plan s.asked s.next_part s.in_part s.leaving) s.cursor.plan s.seat.me.0 ×
        ActsFor s.members s.member s.seated s.seat.me.0 ×
        Counts s.member s.own s.here s.taken (seen_by s.entered s.current s.drained s.cursor.plan s.asked s.next_part s.in_part s.leaving) s.seat.me.0 ×
        AreWhole s.cursor.plan s.whole ×
        IsGateOf s.current s.gate ×
        AskedIsThere s.cursor.plan s.asked s.drained ×
        (s.asking ≡ asks_by_ticket s.current s.drained s.in_part) ×
        IsChunkOf s.current s.chunk ×
        IsOfSingle s.bare s.members s.cursor.plan ×
        HasExecuted (nat_lt s.entered s.again_below) (seen_by s.entered s.current s.drained s.cursor.plan s.asked s.next_part s.in_part s.leaving) ×
        (s.again_below ≤ 2 ^ 48) ×
        (s.passed ≡ passed_by_all s.members) ×
        AreNoneFrom s.cursor.plan s.none_from ×
        (s.cursor.plan ≡ record { members = s.members; shape = s.planned }) };
}

/// So many shares a member enters at most: 2^48.
pub(crate) const MOST_SHARES: u64 = 0x1_0000_0000_0000;

/// Whether the pieces of a share of this kind are assigned to its members ahead.
#[inline(always)]
fn is_assigned(kind: ShareKind) -> bool
    ensures { result ≡ is_static kind }
{
    matches!(kind, ShareKind::StaticChunked | ShareKind::StaticEven)
}

/// Whether a member claims by ticket that is in a share of this kind, and in no ordered part.
pub(crate) fn is_asking(kind: ShareKind, drained: bool) -> bool
    ensures { result ≡ (not drained && not (is_static kind)) }
{
    !drained && !is_assigned(kind)
}

/// How many of these iterations of a share count as a loop's: all, or none if it is sections or a `single`.
fn loop_part(shape: &Shape, iterations: u64) -> u64
    ensures { result ≡ (if is_loop shape.now.kind then iterations else 0) }
{
    if shape.kind.is_loop() { iterations } else { 0 }
}

/// The seat of a member that has done nothing. It acts for the members from `seated` on too.
pub(crate) fn fresh_seat(
    seat: Seat<Shape, View>,
    members: u16,
    member: u16,
    seated: u16,
) -> RingSeat
    requires fresh { (seat.me.1 ≡ []) × IsFresh members member seated seat.me.0 }
    ensures seat { result ≡ fresh_view seat.table_id members member seated }
{
    let planned = single_shape(false);
    RingSeat {
        seat,
        members,
        member,
        seated,
        entered: 0,
        current: Current::outside(),
        gate: 0,
        chunk: 0,
        drained: false,
        asking: false,
        asked: 0,
        whole: 0,
        none_from: u64::MAX,
        own: 0,
        here: 0,
        taken: 0,
        next_part: 0,
        in_part: false,
        leaving: false,
        cursor: Cursor::new(Plan::of(&planned, members)),
        planned,
        bare: false,
        again_below: 0,
        passed: passed_by_all(members as u64),
    }
}

impl RingSeat {
    /// Which member's seat it is, from 0.
    pub fn member(&self) -> u16
        ensures { result ≡ self.now.member }
    {
        let RingSeat { member, .. } = self;
        *member
    }

    /// The seat of the next member that has none: of member 1, 2 and on. None, and nothing changes, once all have theirs, and
    /// once this seat's member has entered a share.
    pub fn split(&mut self, ring: &Ring) -> Option<RingSeat>
        requires ring { IsOnRing ring.now self.old }
        ensures split { SeatSplits self.old result self.new }
    {
        if self.seated == self.members || self.entered != 0 {
            return None;
        }
        let member = self.seated;
        let seat = split_seat(&ring.slots, &mut self.seat);
        self.seated = member + 1;
        Some(fresh_seat(seat, self.members, member, self.members))
    }

    /// What the member sees of its place. What its seat keeps stands, whatever the other members did.
    pub fn seen(&self) -> Seen
        ensures value { result ≡ self.now.seen }
        ensures stands { IsLawfulSeat self.now }
    {
        Seen {
            entered: self.entered,
            current: self.current.get(),
            drained: self.drained,
            piece: self.last_piece(),
            next_part: self.next_part,
            in_part: self.in_part,
            leaving: self.leaving,
        }
    }

    /// The share that the member is in, by its number from 0, and its shape; none outside of every share.
    #[inline(always)]
    pub fn current(&self) -> Option<(u64, Shape)>
        ensures value { result ≡ self.now.seen.current }
        ensures stands { IsLawfulSeat self.now }
    {
        self.current.get()
    }

    /// How many shares the member has entered, 0 to 2^48.
    #[inline(always)]
    pub fn entered(&self) -> u64
        ensures value { result ≡ self.now.seen.entered }
        ensures stands { IsLawfulSeat self.now }
    {
        let RingSeat { entered, .. } = self;
        *entered
    }

    /// Whether the member is in an ordered part (OpenMP API 5.2, section 15.10.2).
    #[inline(always)]
    pub fn is_in_part(&self) -> bool
        ensures value { result ≡ self.now.seen.in_part }
        ensures stands { IsLawfulSeat self.now }
    {
        let RingSeat { in_part, .. } = self;
        *in_part
    }

    /// Whether the member may enter a share: it is in none, and has entered fewer than 2^48.
    pub fn may_enter(&self) -> bool
        ensures answer { result ≡ may_enter self.now.seen }
        ensures member { self.now.member < self.now.members }
    {
        !self.current.is_some() && self.entered < MOST_SHARES
    }

    /// Whether it is in a share of which it was answered that nothing is left, and in no ordered part.
    pub fn is_drained(&self) -> bool
        ensures drained { result ≡ (is_some self.now.seen.current && self.now.seen.drained
            && not self.now.seen.in_part) }
    {
        self.current.is_some() && self.drained && !self.in_part
    }

    /// Enters the member's next share, which is opened if no other member has. It answers `NotYet` if some member has not left
    /// the share eight before, or another seat is opening the share at this moment, and says which; `Differs` if others entered
    /// the share in another shape. If it is not `Entered`, nothing changes.
    ///
    /// `shape` is that of a construct that is not refused. The member is in no share, and has entered fewer than 2^48.
    pub fn try_open(&mut self, ring: &Ring, shape: &Shape) -> Entry
        requires ring { IsOnRing ring.now self.old }
        requires place { CanOpen self.old.members self.old.member shape.now self.old.seen }
        ensures opened { SeatOpens self.old shape.now result self.new }
    {
        let _numbers = (shape.start, shape.incr);
        let share = self.entered;
        match open_next::<Brand>(
            &ring.slots,
            &mut self.seat,
            self.member,
            share,
            self.members as u64,
            shape,
        ) {
            Entry::Entered => {
                self.entered = share + 1;
                self.current.enter(share, shape);
                self.gate = gate_index(share);
                self.chunk = shape.chunk;
                self.drained = false;
                self.asking = is_asking(shape.kind, false);
                self.asked = 0;
                self.own = 0;
                self.here = 0;
                self.next_part = 0;
                self.in_part = false;
                self.leaving = false;
                keep_plan(
                    &mut self.cursor,
                    &mut self.planned,
                    &mut self.whole,
                    &mut self.none_from,
                    self.members,
                    shape,
                );
                self.bare = false;
                self.again_below = 0;
                Entry::Entered
            }
            Entry::NotYet(delay) => Entry::NotYet(delay),
            Entry::Differs => Entry::Differs,
        }
    }

    /// Takes the next piece of the member's share that is its to take; none if nothing is left for the member. One addition to
    /// the share's gate, or one load if the share is static; no call of another member is waited for.
    ///
    /// The member is in a share, was not answered that nothing is left, and is in no ordered part.
    #[inline(always)]
    pub fn claim(&mut self, ring: &Ring) -> Piece
        requires ring { IsOnRing ring.now self.old }
        requires place { CanClaim self.old.members self.old.member self.old.seen }
        ensures claimed { SeatClaims self.old (piece_in result.first result.end) self.new }
    {
        if !self.asking {
            return self.claim_assigned(ring);
        }
        let share = self.entered - 1;
        let chunk = self.chunk;
        // Counted ahead, where nothing waits for it: behind the addition it would be read anew.
        self.here += chunk;
        let ticket = take_ticket_at::<Brand>(
            &ring.slots,
            &mut self.seat,
            self.member,
            share,
            self.gate,
        );
        self.asked = ticket + 1;
        if ticket < self.whole {
            let first = ticket * chunk;
            return Piece {
                first,
                end: first + chunk,
            };
        }
        let none_from = self.none_from;
        finish_piece(
            &mut self.cursor,
            ticket,
            chunk,
            none_from,
            &mut self.here,
            &mut self.drained,
            &mut self.asking,
        )
    }

    /// As `claim`, if the member may claim: it is in a share, was not answered that nothing is left, and is in no ordered part. If
    /// it may not, there is no piece, and nothing changes.
    #[inline(always)]
    pub fn claim_next(&mut self, ring: &Ring) -> Piece
        requires ring { IsOnRing ring.now self.old }
        ensures claimed { SeatClaimsNext (may_claim self.old.seen) self.old
            (piece_in result.first result.end) self.new }
    {
        if !self.may_claim() {
            return Piece::NONE;
        }
        self.claim(ring)
    }

    /// Whether it may claim: it is in a share, was not answered that nothing is left, and is in no ordered part.
    #[inline(always)]
    pub fn may_claim(&self) -> bool
        ensures answer { result ≡ may_claim self.now.seen }
        ensures place { result ≡ true →
            CanClaim self.now.members self.now.member self.now.seen }
    {
        self.asking || (self.current.is_some() && !self.drained && !self.in_part)
    }

    /// As `claim`, of a static share.
    #[inline(never)]
    fn claim_assigned(&mut self, ring: &Ring) -> Piece
        requires ring { IsOnRing ring.now self.old }
        requires place { CanClaim self.old.members self.old.member self.old.seen }
        requires assigned { static_in self.old.seen ≡ true }
        ensures claimed { SeatClaims self.old (piece_in result.first result.end) self.new }
    {
        let Some((share, _)) = self.current.get() else {
            unreachable!()
        };
        take_assigned::<Brand>(&ring.slots, &mut self.seat, self.member, share);
        match self.cursor.next_piece(self.member, self.own, 0) {
            Some((number, (first, end))) => {
                self.asked = number + 1;
                self.own = self.own.saturating_add(1);
                self.here += end - first;
                Piece { first, end }
            }
            None => {
                self.drained = true;
                self.asked = u64::MAX;
                Piece::NONE
            }
        }
    }

    /// Leaves the member's share, of which nothing is left for it, or which it has seen cancelled. One addition to the share's gate.
    ///
    /// The member is in no ordered part.
    pub fn leave(&mut self, ring: &Ring)
        requires ring { IsOnRing ring.now self.old }
        requires place { CanLeave self.old.members self.old.member self.old.seen }
        ensures left { SeatActs (End (share_number self.old.seen.current) self.old.member)
            self.old self.new }
    {
        let Some((share, shape)) = self.current.get() else {
            unreachable!()
        };
        leave_share::<Brand>(&ring.slots, &mut self.seat, self.member, share);
        self.taken += loop_part(&shape, self.here) as u128;
        self.current.leave();
        self.asking = false;
        self.leaving = false;
    }

    /// The piece that the member took last of the share that it entered last.
    #[inline(always)]
    fn last_piece(&self) -> Option<(u64, u64)>
        ensures { result ≡ self.now.seen.piece }
    {
        if self.asked == 0 || self.drained {
            return None;
        }
        look_up_piece(&self.cursor, self.asked - 1)
    }

    /// The seat is given up: its part of the ring, how many shares the member has left, and how many iterations of loops it took.
    pub(crate) fn into_parts(self) -> (Seat<Shape, View>, u64, u128)
        requires seated { self.seated ≡ self.members }
        ensures parts { IsGivenUp self result.0 result.1 result.2 }
    {
        let (left, here) = match self.current.get() {
            Some((share, shape)) => (share, loop_part(&shape, self.here)),
            None => (self.entered, 0),
        };
        (self.seat, left, self.taken + here as u128)
    }
}

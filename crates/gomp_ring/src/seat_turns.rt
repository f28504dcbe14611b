//! The seat of one member of an ordered loop: the member begins and ends ordered parts, and hands its piece on. OpenMP API 5.2,
//! section 15.10.2.

ghost use Rattle.gomp_events.specs.declared.event.Event.TheVariants.{Part, PartEnd};
ghost use Rattle.gomp_events.specs.Events.{share_number};
ghost use Rattle.gomp_shares.specs.Calls.{CanBeginPart, CanEndPart, CanHandOn};
ghost use Rattle.gomp_ring.specs.RingSeats.{IsOnRing, SeatActs, SeatTriesTurn, piece_handed_on};

use crate::ring::Ring;
use crate::ring_seat::{RingSeat, is_asking};
use gomp_slots::{begin_part, end_part, hand_on};
use std::marker::Brand;

impl RingSeat {
    /// Begins the ordered part of this iteration of the member's piece, if every piece before its own was handed on: then the
    /// answer is true. Else nothing changes. One load.
    ///
    /// The iteration is one of the piece that the member took last, after those whose parts it has begun. The member is in an
    /// ordered loop, and in no part of it.
    pub fn try_turn(&mut self, ring: &Ring, iteration: u64) -> bool
        requires ring { IsOnRing ring.now self.old }
        requires place { CanBeginPart self.old.members self.old.member iteration self.old.seen }
        ensures turn { SeatTriesTurn
            (Part (share_number self.old.seen.current) self.old.member iteration)
            self.old result self.new }
    {
        let Some((share, _)) = self.current.get() else {
            unreachable!()
        };
        let piece = self.asked - 1;
        if !begin_part::<Brand>(
            &ring.slots,
            &mut self.seat,
            self.member,
            share,
            piece,
            iteration,
        ) {
            return false;
        }
        self.next_part = iteration + 1;
        self.in_part = true;
        self.asking = false;
        true
    }

    /// Ends the ordered part that the member is in. The turn stays with its piece.
    pub fn end_part(&mut self, ring: &Ring)
        requires ring { IsOnRing ring.now self.old }
        requires place { CanEndPart self.old.members self.old.member self.old.seen }
        ensures ended { SeatActs (PartEnd (share_number self.old.seen.current) self.old.member)
            self.old self.new }
    {
        let Some((share, shape)) = self.current.get() else {
            unreachable!()
        };
        end_part::<Brand>(&ring.slots, &mut self.seat, self.member, share);
        self.in_part = false;
        self.asking = is_asking(shape.kind, self.drained);
    }

    /// Hands the member's piece on, if every piece before it was handed on, and it was not: then the answer is true, and the turn
    /// is the next piece's. Else nothing changes; so it is if the member has no piece. One exchange of the turn.
    ///
    /// The member is in an ordered loop, and in no part of it.
    pub fn hand_on(&mut self, ring: &Ring) -> bool
        requires ring { IsOnRing ring.now self.old }
        requires place { CanHandOn self.old.members self.old.member self.old.seen }
        ensures turn { SeatTriesTurn (piece_handed_on self.old) self.old result self.new }
    {
        let Some((share, _)) = self.current.get() else {
            unreachable!()
        };
        if self.asked == 0 || self.drained {
            return false;
        }
        let piece = self.asked - 1;
        hand_on::<Brand>(&ring.slots, &mut self.seat, self.member, share, piece)
    }
}

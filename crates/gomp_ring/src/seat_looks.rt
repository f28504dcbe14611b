//! The seat of one member: it looks at the share that the member enters next, and tells whether that is of another shape. OpenMP API
//! 5.2, chapter 11.

ghost use Rattle.gomp_shares.specs.Calls.{CanOpen};
ghost use Rattle.gomp_ring.specs.RingSeats.{IsOnRing, SeatCompares};

use crate::ring::Ring;
use crate::ring_seat::RingSeat;
use gomp_gate::holds_share;
use gomp_slots::{has_same_words, look_at_next};
use gomp_types::Shape;
use std::marker::Brand;

impl RingSeat {
    /// Whether the share that the member enters next is of another shape than this, by the members that entered it; false if none
    /// has. Nothing changes. One load, and four more if the share is open and its gate does not tell its shape.
    ///
    /// `shape` is that of a construct that is not refused. The member is in no share, and has entered fewer than 2^48.
    pub fn differs(&mut self, ring: &Ring, shape: &Shape) -> bool
        requires ring { IsOnRing ring.now self.old }
        requires place { CanOpen self.old.members self.old.member shape.now self.old.seen }
        ensures compared { SeatCompares self.old shape.now result self.new }
    {
        let _numbers = (shape.start, shape.incr);
        let share = self.entered;
        let word = look_at_next::<Brand>(&ring.slots, &mut self.seat, self.member, share);
        if !holds_share(word, share) {
            return false;
        }
        !has_same_words::<Brand>(&ring.slots, &mut self.seat, self.member, share, word, shape)
    }
}

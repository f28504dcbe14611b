//! The seat of one member: it cancels the share that the member is in, asks whether that is cancelled, and sees it. OpenMP API
//! 5.2, section 16.1.

ghost use Rattle.gomp_events.specs.declared.event.Event.TheVariants.{Cancel};
ghost use Rattle.gomp_types.specs.declared.cancel.Scope.TheVariants.{OneShare};
ghost use Rattle.gomp_events.specs.Events.{share_number};
ghost use Rattle.gomp_shares.specs.Calls.{CanCancel, CanSee};
ghost use Rattle.gomp_ring.specs.RingSeats.{IsOnRing, SeatActs, SeatAsks, SeatSees};

use crate::ring::Ring;
use crate::ring_seat::RingSeat;
use gomp_slots::{ask_cancelled, cancel_share, see_cancelled};
use std::marker::Brand;

impl RingSeat {
    /// Cancels the share that the member is in, whose end kind allows that; it may be cancelled already. One bit of the share's
    /// gate is set.
    pub fn cancel(&mut self, ring: &Ring)
        requires ring { IsOnRing ring.now self.old }
        requires place { CanCancel self.old.members self.old.member self.old.seen }
        ensures cancelled { SeatActs
            (Cancel self.old.member (OneShare (share_number self.old.seen.current)))
            self.old self.new }
    {
        let Some((share, _)) = self.current.get() else {
            unreachable!()
        };
        cancel_share::<Brand>(&ring.slots, &mut self.seat, self.member, share);
    }

    /// Whether the share that the member is in is cancelled; false outside of a share. Nothing changes. One load.
    pub fn cancelled(&mut self, ring: &Ring) -> bool
        requires ring { IsOnRing ring.now self.old }
        ensures asked { SeatAsks self.old result self.new }
    {
        let Some((share, _)) = self.current.get() else {
            return false;
        };
        ask_cancelled::<Brand>(&ring.slots, &mut self.seat, self.member, share)
    }

    /// Looks whether the share that the member is in is cancelled: if the answer is true, the member has seen it, and leaves the
    /// share next; else nothing changes. One load.
    ///
    /// The member is in a loop or in sections.
    pub fn see(&mut self, ring: &Ring) -> bool
        requires ring { IsOnRing ring.now self.old }
        requires place { CanSee self.old.members self.old.member self.old.seen }
        ensures seen { SeatSees self.old result self.new }
    {
        let Some((share, _)) = self.current.get() else {
            unreachable!()
        };
        if !see_cancelled::<Brand>(&ring.slots, &mut self.seat, self.member, share) {
            return false;
        }
        self.leaving = true;
        true
    }
}

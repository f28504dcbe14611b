//! The seat of one member: the member goes through a `single` construct whose executor hands no words to the others. OpenMP API
//! 5.2, section 11.1.

ghost use Rattle.std.specs.Prelude.{◌≡◌, ◌<◌, ◌&&◌, nat_lt, false, true, if◌then◌else◌};
ghost use Rattle.gomp_types.specs.Singles.{single_shape};
ghost use Rattle.gomp_shares.specs.Calls.{CanOpen, most_shares};
ghost use Rattle.gomp_ring.specs.RingSeats.{IsOnRing, SeatGoesThrough, SeatPasses, SeatPassesNext, may_enter, AreWhole, AreNoneFrom, IsOfSingle};

use crate::piece::keep_plan;
use crate::ring::Ring;
use crate::ring_seat::{MOST_SHARES, RingSeat};
use gomp_chunks::Cursor;
use gomp_slots::{Passage, pass_again, pass_single};
use gomp_types::{Shape, single_shape};
use std::marker::Brand;

/// The cursor of a seat is over a single now, and none of its pieces is taken for a whole chunk. If it is known to be (`bare`),
/// nothing is stored.
#[inline(always)]
fn keep_single(
    cursor: &mut Cursor,
    planned: &mut Shape,
    whole: &mut u64,
    none_from: &mut u64,
    bare: &mut bool,
    members: u16,
)
    requires team { 0 < members }
    requires kept { IsOfSingle bare.old members cursor.old.plan }
    requires same { cursor.old.plan ≡ record { members = members; shape = planned.old } }
    requires whole { AreWhole cursor.old.plan whole.old }
    requires none { AreNoneFrom cursor.old.plan none_from.old }
    ensures plan { cursor.new.plan ≡ record { members = members; shape = single_shape false } }
    ensures planned { planned.new ≡ single_shape false }
    ensures whole { AreWhole cursor.new.plan whole.new }
    ensures none { AreNoneFrom cursor.new.plan none_from.new }
{
    if *bare {
        return;
    }
    keep_plan(
        cursor,
        planned,
        whole,
        none_from,
        members,
        &single_shape(false),
    );
    *bare = true;
}

/// What a seat keeps of the piece that its member asked for in a single: the number and 1 of the one piece that the executor
/// took, or 0 if none was left.
#[inline(always)]
fn asked_in_single(executes: bool) -> u64
    ensures { result ≡ (if executes then 1 else 0) }
{
    if executes { 1 } else { 0 }
}

/// Below how many shares the member goes through the next single without a look: 2^48, if it executed this one and the next share is
/// not one of the first eight; else 0.
#[inline(always)]
fn goes_on_below(executes: bool, share: u64) -> u64
    ensures { result ≡ (if executes && nat_lt 6 share then most_shares else 0) }
{
    if executes && share > 6 {
        MOST_SHARES
    } else {
        0
    }
}

impl RingSeat {
    /// Goes through the member's next share, a `single` construct whose executor hands no words to the others: if no other member
    /// has come to it, the member executes its body, else it does not. The member has entered the share then, claimed its one
    /// piece, and left it, all by one locked step. It answers `NotYet` if some member has not left the share eight before, or another
    /// seat is opening the share at this moment, and says which; `Differs` if others entered the share in another shape. If it is
    /// not `Passed`, nothing changes.
    ///
    /// The member is in no share, and has entered fewer than 2^48.
    #[inline(always)]
    pub fn single(&mut self, ring: &Ring) -> Passage
        requires ring { IsOnRing ring.now self.old }
        requires place { CanOpen self.old.members self.old.member (single_shape false)
            self.old.seen }
        ensures passed { SeatPasses self.old result self.new }
    {
        if self.single_again(ring) {
            return Passage::Passed(true);
        }
        self.single_by_look(ring)
    }

    /// As `single`, if the member may enter a share: it is in none, and has entered fewer than 2^48. If it may not, there is no answer,
    /// and nothing changes.
    #[inline(always)]
    pub fn single_next(&mut self, ring: &Ring) -> Option<Passage>
        requires ring { IsOnRing ring.now self.old }
        ensures passed { SeatPassesNext (may_enter self.old.seen) self.old result self.new }
    {
        if self.single_again(ring) {
            return Some(Passage::Passed(true));
        }
        if !self.may_enter() {
            return None;
        }
        Some(self.single_by_look(ring))
    }

    /// As `single`, by one exchange without a look, if the member executed its last share, a single too, and all members went through
    /// the one eight before. If the answer is false, nothing changes; so it is if the member may not enter a share.
    #[inline(always)]
    fn single_again(&mut self, ring: &Ring) -> bool
        requires ring { IsOnRing ring.now self.old }
        ensures passed { result ≡ true → SeatGoesThrough true self.old self.new }
        ensures may { result ≡ true → may_enter self.old.seen ≡ true }
        ensures stays { result ≡ false → self.new ≡ self.old }
    {
        let share = self.entered;
        if share >= self.again_below {
            return false;
        }
        let passed = self.passed;
        if !pass_again::<Brand>(&ring.slots, &mut self.seat, self.member, share, passed) {
            self.again_below = 0;
            return false;
        }
        self.entered = share + 1;
        true
    }

    /// As `single`, after a look at the slot.
    fn single_by_look(&mut self, ring: &Ring) -> Passage
        requires ring { IsOnRing ring.now self.old }
        requires place { CanOpen self.old.members self.old.member (single_shape false)
            self.old.seen }
        ensures passed { SeatPasses self.old result self.new }
    {
        let share = self.entered;
        match pass_single::<Brand>(
            &ring.slots,
            &mut self.seat,
            self.member,
            share,
            self.members as u64,
        ) {
            Passage::Passed(executes) => {
                keep_single(
                    &mut self.cursor,
                    &mut self.planned,
                    &mut self.whole,
                    &mut self.none_from,
                    &mut self.bare,
                    self.members,
                );
                self.entered = share + 1;
                self.drained = !executes;
                self.asked = asked_in_single(executes);
                self.next_part = 0;
                self.in_part = false;
                self.leaving = false;
                self.again_below = goes_on_below(executes, share);
                Passage::Passed(executes)
            }
            Passage::NotYet(delay) => Passage::NotYet(delay),
            Passage::Differs => Passage::Differs,
        }
    }
}

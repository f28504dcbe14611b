//! The work-shares of a team on the slots of `gomp_slots`, with one seat that stands for all members.

ghost use Rattle.gomp_slots.specs.Premises.{slots_members};
ghost use Rattle.gomp_share_ring.specs.AllShares.{StandsForAll, all_seen};
ghost use Rattle.gomp_share_ring.specs.AllLaws.{all_aside, all_agrees, all_valid};

use crate::fitting::is_shape;
use crate::member_seat::{MemberSeat, NO_SHAPE, is_assigned};
use crate::shared_cursor::{SharedCursor, find_piece};
use atomic_table::Seat;
use gomp_events::Seen;
use gomp_gate::{holds_share, is_bare, is_bare_single};
use gomp_shares::{Opening, Places, Shares};
use gomp_slots::new_table::new_table;
use gomp_slots::{
    Entry, Slots, View, ask_cancelled, begin_part, cancel_share, end_part, hand_on, has_same_words,
    leave_share, look_at_next, open_next, see_cancelled, take_assigned, take_ticket,
};
use gomp_types::{OPEN_SHARES, Shape};
use std::alloc::{AllocError, Global};
use std::marker::{Brand, Model};

/// The work-shares of a team, whose one seat on the slots stands for all members. After `make` no
/// call takes memory.
#[derive(Drop)]
pub struct RingAll {
    /// The slots of the team's open shares.
    slots: Slots,
    /// The one seat of the slots. It was never split, so it knows every event.
    seat: Seat<Shape, View>,
    /// How many members the team has, 1 to 64.
    members: u16,
    /// What is kept of each member, by its number.
    seats: Vec<MemberSeat>,
    /// Of each slot the last share there of which some member took a piece, by its number.
    taken: Places<u64>,
    /// Of each slot a cursor over the pieces of its share, if that is a guided loop. Eight are many, so they have a block of their own,
    /// and a team that moves does not copy them.
    shared: Box<[SharedCursor; OPEN_SHARES as usize]>,
}

impl Model for RingAll {
    ghost use Rattle.std.specs.Prelude.{◌≡◌, []};
    ghost use Rattle.gomp_slots.specs.Premises.{slots_members, IsSeatOf};
    ghost use Rattle.gomp_share_ring.specs.AllShares.{AllView, IsAll, IsNoted};

    ghost Value = { AllView };

    ghost view = { λ s. record {
      members = slots_members s.slots;
      seats = s.seats.items;
      did = s.seat.me.0.did;
    } };

    ghost invariant = { λ s. IsSeatOf s.slots s.seat × (s.seat.me.1 ≡ []) ×
        (s.members ≡ slots_members s.slots) ×
        IsAll (slots_members s.slots) s.seats.items s.seat.me.0 ×
        IsNoted s.taken s.seat.me.0.did };
}

impl Shares for RingAll {
    ghost members = { λ shares. shares.members };

    ghost seen = { λ shares m. all_seen shares.seats m };

    ghost stands = { λ shares h. StandsForAll shares.members shares.seats shares.did h };

    ghost aside = { λ shares h event. all_aside shares h event };

    ghost agrees = { λ shares h m. all_agrees shares h m };

    ghost valid = { λ shares h m i shape. all_valid shares h m i shape };

    ghost ruled = { λ shares h stands. stands.rule };

    fn make(alloc: Global, count: u16) -> Result<Self, AllocError> {
        let shared = Box::new(
            alloc,
            [
                SharedCursor::new(count, &NO_SHAPE),
                SharedCursor::new(count, &NO_SHAPE),
                SharedCursor::new(count, &NO_SHAPE),
                SharedCursor::new(count, &NO_SHAPE),
                SharedCursor::new(count, &NO_SHAPE),
                SharedCursor::new(count, &NO_SHAPE),
                SharedCursor::new(count, &NO_SHAPE),
                SharedCursor::new(count, &NO_SHAPE),
            ],
        )?;
        let seats = vec![in alloc; MemberSeat::new(count); count as usize]?;
        let (slots, seat) = new_table(alloc, count)?;
        Ok(RingAll {
            slots,
            seat,
            members: count,
            seats,
            taken: Places::new(),
            shared,
        })
    }

    fn look(&self, member: u16) -> Seen {
        let own = &self.seats[member as usize];
        own.seen
    }

    fn next_differs(&mut self, member: u16, shape: &Shape) -> bool {
        let _numbers = (shape.start, shape.incr);
        let next = self.seats[member as usize].seen.entered;
        let word = look_at_next::<Brand>(&self.slots, &mut self.seat, member, next);
        if !holds_share(word, next) {
            return false;
        }
        if is_bare(word) {
            return !is_bare_single(shape);
        }
        // No premise of `next_differs` says so, and `has_same_words` asks for a lawful shape.
        if !is_shape(shape) {
            return true;
        }
        !has_same_words::<Brand>(&self.slots, &mut self.seat, member, next, word, shape)
    }

    fn next_is_taken(&mut self, member: u16) -> bool {
        // No word is read: the gate's ticket counts the claims that found nothing too.
        let next = self.seats[member as usize].seen.entered;
        let Some(&last) = self.taken.at(next) else {
            return false;
        };
        last == next
    }

    #[inline(always)]
    fn try_open(&mut self, member: u16, shape: &Shape) -> Opening {
        let _numbers = (shape.start, shape.incr);
        let next = self.seats[member as usize].seen.entered;
        let members = self.members as u64;
        match open_next::<Brand>(&self.slots, &mut self.seat, member, next, members, shape) {
            Entry::Entered => {
                self.seats[member as usize] = MemberSeat::in_share(next, shape, self.members);
                Opening::Entered
            }
            Entry::NotYet(_) => Opening::NotYet,
            Entry::Differs => Opening::Differs,
        }
    }

    fn claim(&mut self, member: u16) -> Option<(u64, u64)> {
        // Whoever claims is in a share: the trait asks for that.
        let Some((share, shape)) = self.seats[member as usize].seen.current else {
            unreachable!()
        };
        // A piece that is assigned takes no ticket. The plan asks again, for its number.
        if is_assigned(shape.kind) {
            take_assigned::<Brand>(&self.slots, &mut self.seat, member, share);
            let seat = &mut self.seats[member as usize];
            let own = seat.own;
            let Some((number, piece)) = seat.cursor.next_piece(member, own, 0) else {
                seat.drain();
                return None;
            };
            seat.take_piece(number, piece);
            self.taken.put(share, share);
            return Some(piece);
        }
        let ticket = take_ticket::<Brand>(&self.slots, &mut self.seat, member, share);
        let members = self.members;
        let seat = &mut self.seats[member as usize];
        let found = find_piece(
            &mut seat.cursor,
            &mut self.shared,
            share,
            members,
            &shape,
            ticket,
        );
        let Some(piece) = found else {
            seat.drain();
            return None;
        };
        seat.take_piece(ticket, piece);
        self.taken.put(share, share);
        Some(piece)
    }

    fn try_turn(&mut self, member: u16, iteration: u64) -> bool {
        let seat = self.seats[member as usize];
        let Some((share, _)) = seat.seen.current else {
            unreachable!()
        };
        if !begin_part::<Brand>(
            &self.slots,
            &mut self.seat,
            member,
            share,
            seat.number,
            iteration,
        ) {
            return false;
        }
        let seat = &mut self.seats[member as usize];
        seat.seen.next_part = iteration + 1;
        seat.seen.in_part = true;
        true
    }

    fn end_part(&mut self, member: u16) {
        let Some((share, _)) = self.seats[member as usize].seen.current else {
            unreachable!()
        };
        end_part::<Brand>(&self.slots, &mut self.seat, member, share);
        self.seats[member as usize].seen.in_part = false;
    }

    fn hand_on(&mut self, member: u16) -> bool {
        let seat = self.seats[member as usize];
        // Whoever hands on is in a share: the trait asks for that.
        let Some((share, _)) = seat.seen.current else {
            unreachable!()
        };
        if seat.seen.piece.is_none() {
            return false;
        }
        hand_on::<Brand>(&self.slots, &mut self.seat, member, share, seat.number)
    }

    fn leave(&mut self, member: u16) {
        let Some((share, _)) = self.seats[member as usize].seen.current else {
            unreachable!()
        };
        leave_share::<Brand>(&self.slots, &mut self.seat, member, share);
        let seat = &mut self.seats[member as usize];
        seat.seen.current = None;
        seat.seen.leaving = false;
    }

    fn cancel(&mut self, member: u16) {
        let Some((share, _)) = self.seats[member as usize].seen.current else {
            unreachable!()
        };
        cancel_share::<Brand>(&self.slots, &mut self.seat, member, share);
    }

    fn cancelled(&mut self, member: u16) -> bool {
        let Some((share, _)) = self.seats[member as usize].seen.current else {
            return false;
        };
        ask_cancelled::<Brand>(&self.slots, &mut self.seat, member, share)
    }

    fn see(&mut self, member: u16) {
        let Some((share, _)) = self.seats[member as usize].seen.current else {
            unreachable!()
        };
        see_cancelled::<Brand>(&self.slots, &mut self.seat, member, share);
        self.seats[member as usize].seen.leaving = true;
    }
}

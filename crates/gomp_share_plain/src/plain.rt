//! The work-shares of a team that one thread steps: a seat for each member, and a place for each
//! of the eight shares that may be open.

ghost use Rattle.std.specs.Prelude.{length};
ghost use Rattle.gomp_share_plain.specs.Plain.{StandsFor, plain_seen};
ghost use Rattle.gomp_share_plain.specs.PlainLaws.{plain_aside, plain_agrees, plain_valid};

use crate::open_share::{OpenShare, is_next};
use crate::seat::{PlainSeat, ended_shares, has_room};
use gomp_chunks::{Cursor, Plan};
use gomp_events::Seen;
use gomp_shares::{Opening, Places, Shares};
use gomp_types::Shape;
use std::alloc::{AllocError, Global};
use std::marker::Model;

/// The work-shares of a team, for one thread. After `make` no call takes memory.
#[derive(Debug, Drop)]
pub struct PlainShares {
    seats: Vec<PlainSeat>,
    /// How many shares were ever opened.
    opened: u64,
    places: Places<OpenShare>,
}

impl Model for PlainShares {
    ghost use Rattle.std.specs.Prelude.{List, length};
    ghost use Rattle.gomp_events.specs.declared.event.Event.{Event};
    ghost use Rattle.gomp_share_plain.specs.Plain.{PlainView, StandsFor};

    ghost Value = { PlainView };

    ghost view = { λ s. record { seats = s.seats.items; opened = s.opened; places = s.places } };

    ghost invariant = { λ s. (h : List Event) ×
        StandsFor (length s.seats.items) s.seats.items s.opened s.places h };
}

impl Shares for PlainShares {
    ghost members = { λ shares. length shares.seats };

    ghost seen = { λ shares m. plain_seen shares.seats m };

    ghost stands = { λ shares h.
        StandsFor (length shares.seats) shares.seats shares.opened shares.places h };

    ghost aside = { λ shares h event.
        plain_aside (length shares.seats) shares.seats shares.opened shares.places h event };

    ghost agrees = { λ shares h m.
        plain_agrees (length shares.seats) shares.seats shares.opened shares.places h m };

    ghost valid = { λ shares h m i shape.
        plain_valid (length shares.seats) shares.seats shares.opened shares.places h m i shape };

    ghost ruled = { λ shares h stands. stands.rule };

    fn make(alloc: Global, count: u16) -> Result<Self, AllocError> {
        Ok(PlainShares {
            seats: vec![in alloc; PlainSeat::NEW; count as usize]?,
            opened: 0,
            places: Places::new(),
        })
    }

    fn look(&self, member: u16) -> Seen {
        self.seats[member as usize].seen
    }

    fn next_differs(&mut self, member: u16, shape: &Shape) -> bool {
        let next = self.seats[member as usize].seen.entered;
        if next >= self.opened {
            return false;
        }
        let Some(share) = self.places.at(next) else {
            unreachable!()
        };
        !share.shape.is_same(shape)
    }

    fn next_is_taken(&mut self, member: u16) -> bool {
        let number = self.seats[member as usize].seen.entered;
        if number >= self.opened {
            return false;
        }
        let Some(share) = self.places.at(number) else {
            unreachable!()
        };
        share.taken > 0
    }

    fn try_open(&mut self, member: u16, shape: &Shape) -> Opening {
        let members = self.seats.len() as u16;
        let number = self.seats[member as usize].seen.entered;
        if number < self.opened {
            let Some(share) = self.places.at(number) else {
                unreachable!()
            };
            // A caller that asked `next_differs` before finds them the same.
            if !share.shape.is_same(shape) {
                return Opening::Differs;
            }
            self.seats[member as usize] = PlainSeat::in_share(number, shape);
            return Opening::Entered;
        }
        if !has_room(&self.seats, number) {
            return Opening::NotYet;
        }
        let new = OpenShare {
            shape: *shape,
            taken: 0,
            turn: 0,
            cancelled: false,
            cursor: Cursor::new(Plan::of(shape, members)),
        };
        self.places.put(number, new);
        self.opened = number + 1;
        self.seats[member as usize] = PlainSeat::in_share(number, shape);
        Opening::Entered
    }

    fn claim(&mut self, member: u16) -> Option<(u64, u64)> {
        let seat = &mut self.seats[member as usize];
        let number = ended_shares(seat);
        let Some(share) = self.places.at(number).copied() else {
            unreachable!()
        };
        let mut cursor = share.cursor;
        let Some((piece_number, piece)) = cursor.next_piece(member, seat.taken, share.taken) else {
            seat.seen.drained = true;
            seat.seen.piece = None;
            return None;
        };
        seat.seen.piece = Some(piece);
        seat.taken = seat.taken.saturating_add(1);
        seat.number = piece_number;
        let claimed = OpenShare {
            taken: share.taken.saturating_add(1),
            cursor,
            ..share
        };
        self.places.put(number, claimed);
        Some(piece)
    }

    fn try_turn(&mut self, member: u16, iteration: u64) -> bool {
        let seat = &self.seats[member as usize];
        let Some(share) = self.places.at(ended_shares(seat)) else {
            unreachable!()
        };
        if !is_next(seat, share) {
            return false;
        }
        let seat = &mut self.seats[member as usize];
        seat.seen.next_part = iteration + 1;
        seat.seen.in_part = true;
        true
    }

    fn end_part(&mut self, member: u16) {
        self.seats[member as usize].seen.in_part = false;
    }

    fn hand_on(&mut self, member: u16) -> bool {
        let seat = &self.seats[member as usize];
        let number = ended_shares(seat);
        let Some(share) = self.places.at(number) else {
            unreachable!()
        };
        if !is_next(seat, share) {
            return false;
        }
        let passed_on = OpenShare {
            turn: seat.number + 1,
            ..*share
        };
        self.places.put(number, passed_on);
        true
    }

    fn leave(&mut self, member: u16) {
        let seat = &mut self.seats[member as usize];
        seat.seen.current = None;
        seat.seen.leaving = false;
    }

    fn cancel(&mut self, member: u16) {
        let number = ended_shares(&self.seats[member as usize]);
        let Some(share) = self.places.at(number) else {
            unreachable!()
        };
        let cancelled = OpenShare {
            cancelled: true,
            ..*share
        };
        self.places.put(number, cancelled);
    }

    fn cancelled(&mut self, member: u16) -> bool {
        let seat = &self.seats[member as usize];
        if seat.seen.current.is_none() {
            return false;
        }
        let Some(share) = self.places.at(ended_shares(seat)) else {
            unreachable!()
        };
        share.cancelled
    }

    fn see(&mut self, member: u16) {
        self.seats[member as usize].seen.leaving = true;
    }
}

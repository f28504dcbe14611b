//! The work-shares of a team on threads: a ring of eight slots (`gomp_slots`), and a seat for each member, which its thread has.
//!
//! What a call of a seat tells is a fact of lists of events: there is one list that keeps the rule of the work-shares
//! (`gomp_shares`) and of which the seat knows the part of its member. OpenMP API 5.2, chapter 11.
#![tactic(auto)]

mod current;
mod gathering;
mod piece;
mod ring;
mod ring_seat;
mod seat_cancels;
mod seat_looks;
mod seat_singles;
mod seat_turns;

pub use gathering::{Gathered, gather, gather_in};
pub use gomp_slots::{Delay, Entry, Passage};
pub use piece::Piece;
pub use ring::Ring;
pub use ring_seat::RingSeat;

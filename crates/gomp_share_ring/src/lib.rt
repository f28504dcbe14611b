//! The body of the work-shares on the slots of `gomp_slots`, with one seat that stands for all members: [`RingAll`].
//!
//! What its calls answer is the contract of [`gomp_shares::Shares`]. OpenMP API 5.2, chapter 11.
#![tactic(auto)]

mod fitting;
mod member_seat;
pub mod ring_all;
mod shared_cursor;

pub use ring_all::RingAll;

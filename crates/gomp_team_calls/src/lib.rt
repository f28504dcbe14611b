//! What the calls of a member on a thread ask of its team's board beside the work-shares.
//!
//! The board is lent: the caller holds its lock, and knows nothing of what happened before. A part of
//! the ledger moves by what the board stores. The calls themselves, with the member's seat, are those
//! of gomp_seat_team. OpenMP API 5.2, chapter 11, sections 5.7.2, 15.3 and 16.1.
#![tactic(auto)]

pub mod arrivals;
pub mod board_reply;
pub mod ends;
pub mod starts;
pub mod words;

pub use board_reply::{BoardReply, lesser};
pub use ends::ShareEnd;

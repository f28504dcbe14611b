//! A board that knows at every wait who waits: the board of a team, and for each member whether its
//! wait is open.
//!
//! A wait at a taskwait, at a taskgroup's end or at the creation of an undeferred task leaves no event,
//! so [`Board`](gomp_board::Board) alone refuses a member that waits (E4 `Waiting`) at barriers only.
//! [`WaitBoard`] refuses it at every wait. OpenMP API 5.2, sections 12.5, 12.9 and 15.3 to 15.5.
#![tactic(auto)]

pub mod wait_board;
mod waits;

pub use wait_board::WaitBoard;
pub use waits::lesser_refusal;

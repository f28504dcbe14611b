//! The calls of a member that bring its team's board, under its lock, and the member's own seat on the ring of the work-shares together.
//!
//! The work-shares have no lock: a member acts on them by its seat (gomp_seat_calls). Its arrivals, starts and words are told to the
//! board, whose lock the caller holds (gomp_team_board). So each call here is lent the board and the seat, and tests first what it is
//! refused for; the part of the ledger moves by what the board stores. `found` is a refusal that the caller found by a test of its
//! own: of all the least by number answers. OpenMP API 5.2, chapter 11, sections 5.7.2, 15.3 and 16.1.
#![tactic(auto)]

pub mod arrivals;
pub mod ends;
pub mod inside;
pub mod starts;
pub mod words;

pub use arrivals::arrive;
pub use ends::end_share;
pub use inside::call_inside;
pub use starts::{go_on_waiting, start_share};
pub use words::put_words;

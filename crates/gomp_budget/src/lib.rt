//! The thread budget of a runtime: how many threads may still be given to teams.
//!
//! thread-limit-var bounds how many threads take part in a contention group (OpenMP API 5.2, sections
//! 2.1 and 2.4). A [`Budget`] starts with all of them free. A team reserves what it can get, and holds
//! it in a [`Seat`] until it gives the seat back. The budget lies under a lock of its own, and any
//! thread may call it at any time: every call answers. Threads given and threads free are the limit
//! always, and a ledger of the standard library ties the threads given to the seats that are out.
#![tactic(auto)]

pub mod budget;
pub mod seat;

pub use budget::Budget;
pub use seat::Seat;

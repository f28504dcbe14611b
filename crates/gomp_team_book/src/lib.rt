//! The book of critical names and locks as it lies under a lock, with two ledgers that only grow: what
//! was held since the outermost region began, and what was freed.
//!
//! Each member of a team has a [`BookPart`] of each ledger, and each call moves a part by exactly what
//! it holds or frees. So whoever has all parts knows how many holds are open ([`LockedBook::audit`]).
//! No token per owner is needed: a release asks for no part that has what it frees.
//! OpenMP API 5.2, sections 15.2 (the `critical` construct) and 18.9 (the lock routines).
#![tactic(auto)]

mod critical;
mod lock;
pub mod locked_book;
mod nest_lock;
pub mod part;
mod replies;
mod simple_lock;
pub mod under_lock;
mod waits;

pub use locked_book::{HoldLedger, LockedBook};
pub use part::BookPart;

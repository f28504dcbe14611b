//! The book of names and locks, as whoever forks a team has it.

use gomp_team_book::{BookPart, HoldLedger, LockedBook};
use std::alloc::Global;
use std::sync::ledger::Ledger;
use std::sync::{Arc, Mutex};

/// The book of critical names and locks under its lock, and some parts of its two ledgers. The teams
/// that share one book have numbers of their own, and their members take a part each.
#[derive(Drop)]
pub struct BookShare<H: HoldLedger, F: Ledger> {
    /// The book.
    pub book: Arc<Mutex<LockedBook<H, F>>, Global>,
    /// Of the ledger of holds.
    pub held: BookPart<H>,
    /// Of the ledger of releases.
    pub freed: BookPart<F>,
}

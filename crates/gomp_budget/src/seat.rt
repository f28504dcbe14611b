//! Threads that a budget gave to a team.

ghost use Rattle.std.specs.Prelude.{◌≡◌, ◌<◌};

use std::marker::Model;
use std::sync::ledger::{Ledger, Share};

/// Threads that a budget gave: 1 to the limit of the budget. Only the budget of the same ledger takes
/// it back, once and whole. It cannot be dropped, so whoever has one gives it back or hands it on.
pub struct Seat<L: Ledger> {
    pub(crate) threads: u32,
    // Of the ledger a part for each thread, and as much of the total.
    pub(crate) share: Share<L>,
}

impl<L: Ledger> Model for Seat<L> {
    ghost use Rattle.std.specs.Prelude.{ℕ};
    ghost use Rattle.gomp_budget.specs.Counts.{SeatKeeps};

    ghost Value = { ℕ };

    ghost view = { λ seat. seat.threads };

    ghost invariant = { λ seat. SeatKeeps seat.threads seat.share.parts seat.share.amount };
}

impl<L: Ledger> Seat<L> {
    /// How many threads the seat has, from 1.
    pub fn threads(&self) -> u32
        ensures threads { result ≡ self.now }
        ensures some { 0 < result }
    {
        self.threads
    }
}

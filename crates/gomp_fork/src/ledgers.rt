//! Ledgers whose parts go to threads.

use gomp_team_book::HoldLedger;
use std::marker::Brand;
use std::sync::ledger::Ledger;

/// A ledger whose parts may go to other threads.
pub trait Named: Ledger + Send + Sync + 'static {}

impl Named for Brand {}

/// A ledger of holds whose parts may go to other threads.
pub trait NamedHolds: HoldLedger + Send + Sync + 'static {}

impl NamedHolds for Brand {}

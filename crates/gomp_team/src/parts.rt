//! What a member brings to its team.

use gomp_ring::RingSeat;
use gomp_team_board::Part;
use gomp_team_book::{BookPart, HoldLedger};
use std::sync::ledger::Ledger;

/// What a member holds of the ledgers of its team and of the book of names and locks, and its seat on the ring of the
/// work-shares. The parts take no bytes but the counts of [`Part`].
#[derive(Drop)]
pub struct MemberParts<L: Ledger, H: HoldLedger, F: Ledger> {
    /// Of the events of its team.
    pub board: Part<L>,
    /// Of the holds of names and locks.
    pub held: BookPart<H>,
    /// Of their releases.
    pub freed: BookPart<F>,
    /// Its seat.
    pub seat: RingSeat,
}

//! What comes back of a team: of one that is refused, and of one whose region is over.

use crate::settle::SettleError;
use gomp_events::Event;
use gomp_team_board::EventLedger;
use gomp_types::Refusal;
use std::sync::ledger::Ledger;

/// Why there is no team, and what it was to be made with.
#[derive(Drop)]
pub struct RefusedTeam<L: Ledger, T> {
    /// Why: `BadTeam` (E38) or `NoMemory` (E37).
    pub refusal: Refusal,
    /// The ledger of its events. None only if another thread has the team: no call hands that out.
    pub ledger: Option<EventLedger<L>>,
    /// The tools of its members, in the order of their numbers.
    pub tools: Vec<T>,
}

/// What the members of a region did.
#[derive(Debug, Drop)]
pub struct RegionWork {
    /// The history of the region: the stored events, the oldest first.
    pub history: Vec<Event>,
    /// How many work-shares all members have left: those of the numbers below this one.
    pub shares: u64,
    /// How many iterations of loops each member took, by its number.
    pub taken: Vec<u128>,
}

/// What a team leaves whose members have returned.
#[derive(Drop)]
pub struct SettledTeam<L: Ledger, T> {
    /// The tools of its members, in the order of their numbers.
    pub tools: Vec<T>,
    /// What its members did, or why that is not handed out.
    pub work: Result<RegionWork, SettleError>,
    /// The ledger of its events, for the next team. None only if another thread has the team: no call
    /// hands that out.
    pub ledger: Option<EventLedger<L>>,
}

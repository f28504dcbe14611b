//! What the thread of a member is handed, and what comes back.

use crate::program::Program;
use crate::runner::Runner;
use gomp_ompt::Tool;
use gomp_team_book::HoldLedger;
use gomp_types::Refusal;
use std::sync::ledger::Ledger;

/// What a thread of a region is handed.
#[derive(Drop)]
pub struct Job<L: Ledger, H: HoldLedger, F: Ledger, I: Drop, P: Program, T: Tool> {
    /// The member's number, from 0.
    pub number: u16,
    /// The member with its program.
    pub runner: Runner<L, H, F, I, P, T>,
}

/// What comes back of it.
#[derive(Drop)]
pub struct Outcome<L: Ledger, H: HoldLedger, F: Ledger, I: Drop, P: Program, T: Tool> {
    /// The member with its program.
    pub runner: Runner<L, H, F, I, P, T>,
    /// How many iterations it was given.
    pub taken: u128,
    /// The refusal that it last got.
    pub refusal: Option<Refusal>,
}

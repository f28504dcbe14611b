//! What the teams of an outermost region share.

ghost use Rattle.std.specs.Prelude.{◌≤◌};

use crate::common::Common;
use crate::threads::TeamThreads;
use gomp_budget::Budget;
use gomp_team_book::HoldLedger;
use std::sync::ledger::Ledger;
use std::sync::{Arc, Mutex, Wait};

/// What the teams of an outermost region share: what all teams of the runtime do, and the threads that they
/// may have.
#[derive(Drop)]
pub struct Shared<B: Ledger, H: HoldLedger, F: Ledger> {
    /// What all teams of the runtime share.
    pub common: Arc<Common<H, F>>,
    /// The threads, under their lock.
    budget: Mutex<Budget<B>>,
}

impl<B: Ledger, H: HoldLedger, F: Ledger> Shared<B, H, F> {
    /// With these threads, of which the outermost team has its own.
    pub fn new(common: Arc<Common<H, F>>, budget: Budget<B>) -> Shared<B, H, F> {
        Shared {
            common,
            budget: Mutex::new(budget),
        }
    }

    /// The threads of a nested team that is to have `wanted` members, 1 to 64: for as many, or for so many fewer
    /// as there are threads too few.
    pub(crate) fn reserve<R: Wait>(&self, rt: &R, wanted: u32) -> TeamThreads<B>
        requires some { 1 ≤ wanted }
        requires few { wanted ≤ 64 }
        ensures some { 1 ≤ result }
        ensures few { result ≤ wanted }
    {
        let mut budget = self.budget.lock(rt);
        TeamThreads::of(&mut budget, wanted)
    }

    /// Takes the threads of a team back, once it has ended.
    pub fn give_back<R: Wait>(&self, rt: &R, threads: TeamThreads<B>) {
        let mut budget = self.budget.lock(rt);
        threads.give_back(&mut budget);
    }
}

//! The threads that teams may have, and those of a team.

ghost use Rattle.std.specs.Prelude.{◌≡◌, ◌+◌, ◌≤◌, min};

use gomp_budget::{Budget, Seat};
use std::marker::Model;
use std::sync::ledger::{Blank, Ledger};

/// The threads that teams may have beside the initial one, none of which was given yet.
#[derive(Drop)]
pub struct Threads {
    /// How many there are, 0 to 2^32 - 1.
    pub limit: u32,
    /// The ledger of those that are given, with a part for each.
    pub blank: Blank,
}

/// The threads of a team, and so how many members it may have, 1 to 64: the one that forks it has a thread, the
/// others those of a seat. It cannot be dropped: [`TeamThreads::give_back`] ends it.
pub struct TeamThreads<B: Ledger> {
    /// The seat of a team of more than one.
    seat: Option<Seat<B>>,
}

impl<B: Ledger> Model for TeamThreads<B> {
    ghost use Rattle.std.specs.Prelude.{◌≤◌, ℕ};
    ghost use Rattle.gomp_nested.specs.Seats.{members_for};

    ghost Value = { ℕ };

    ghost view = { λ t. members_for t.seat };

    ghost invariant = { λ t. members_for t.seat ≤ 64 };
}

impl<B: Ledger> TeamThreads<B> {
    /// Those of a team that is to have `wanted` members, 1 to 64: for as many, or for so many fewer as there are
    /// threads too few.
    pub fn of(budget: &mut Budget<B>, wanted: u32) -> TeamThreads<B>
        requires some { 1 ≤ wanted }
        requires few { wanted ≤ 64 }
        ensures size { result ≡ min wanted (budget.old.free + 1) }
    {
        let (_, seat) = budget.reserve(wanted - 1);
        TeamThreads { seat }
    }

    /// How many members the team has.
    pub fn size(&self) -> u16
        ensures size { result ≡ self.now }
        ensures some { 1 ≤ result }
        ensures few { result ≤ 64 }
    {
        match &self.seat {
            Some(seat) => seat.threads() as u16 + 1,
            None => 1,
        }
    }

    /// Gives them back to the budget.
    pub fn give_back(self, budget: &mut Budget<B>) {
        let TeamThreads { seat } = self;
        if let Some(seat) = seat {
            budget.give_back(seat);
        }
    }
}

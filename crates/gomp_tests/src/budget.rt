//! The thread budget of a runtime, called as a library.

ghost use Rattle.std.specs.Prelude.{◌≡◌, ◌+◌};
ghost use Rattle.std.specs.Option.{option_map_or};

use crate::checks::same;
use gomp_budget::{Budget, Seat};
use std::marker::Brand;
use std::sync::ledger::{Blank, Ledger};

/// What three reservations of four threads get, if the first seat is given back before the last, and
/// how many threads are then free. The contracts of the budget's calls alone prove it.
fn gifts_of_four<L: Ledger>(blank: Blank) -> (u32, u32, u32, u32)
    requires name { blank.name ≡ L.name }
    requires parts { blank.parts ≡ L.parts }
    requires four { blank.parts ≡ 4 }
    ensures gifts { result ≡ (3, 1, 3, 0) }
{
    let mut budget = Budget::<L>::new(4, blank);
    let (first, seat) = budget.reserve(3);
    let (second, other) = budget.reserve(3);
    give_back(&mut budget, seat);
    let (third, last) = budget.reserve(9);
    let free = budget.free();
    give_back(&mut budget, other);
    give_back(&mut budget, last);
    (first, second, third, free)
}

/// Gives a seat back, if there is one.
fn give_back<L: Ledger>(budget: &mut Budget<L>, seat: Option<Seat<L>>)
    ensures free { budget.new.free ≡ budget.old.free + option_map_or (λ threads. threads) seat 0 }
    ensures limit { budget.new.limit ≡ budget.old.limit }
{
    if let Some(seat) = seat {
        budget.give_back(seat);
    }
}

#[test]
fn budget_gives_what_is_free(rt: HostRuntime) {
    let found = gifts_of_four::<Brand>(Blank::new(4));
    same(&rt, found, (3, 1, 3, 0), "gifts of a budget of", 4);
}

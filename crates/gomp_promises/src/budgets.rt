//! How many threads may still be given to teams.

ghost use Rattle.std.specs.Prelude.{◌≡◌, ◌+◌, ◌↔◌, min, IsNone, IfSome, ◌<◌};
ghost use Rattle.gomp_budget.specs.Counts.{IsBalanced, all_free};

use gomp_budget::{Budget, Seat};
use std::sync::ledger::{Blank, Ledger};

/// A budget all of whose threads are free.
pub fn new<L: Ledger>(limit: u32, blank: Blank) -> Budget<L>
    requires name { blank.name ≡ L.name }
    requires parts { blank.parts ≡ L.parts }
    requires part_each { blank.parts ≡ limit }
    ensures all_free { result ≡ all_free limit }
{
    Budget::<L>::new(limit, blank)
}

/// How many threads there are in all.
pub fn limit<L: Ledger>(this: &Budget<L>) -> u32
    ensures limit { result ≡ this.now.limit }
    ensures balanced { IsBalanced this.now }
{
    this.limit()
}

/// How many are free.
pub fn free<L: Ledger>(this: &Budget<L>) -> u32
    ensures free { result ≡ this.now.free }
    ensures balanced { IsBalanced this.now }
{
    this.free()
}

/// How many are given.
pub fn given<L: Ledger>(this: &Budget<L>) -> u32
    ensures given { result ≡ this.now.given }
    ensures balanced { IsBalanced this.now }
{
    this.given()
}

/// Gives threads.
pub fn reserve<L: Ledger>(this: &mut Budget<L>, want: u32) -> (u32, Option<Seat<L>>)
    ensures got { result.0 ≡ min want this.old.free }
    ensures none { IsNone result.1 ↔ (result.0 ≡ 0) }
    ensures seat { IfSome result.1 (λ seat. seat ≡ result.0) }
    ensures free { this.new.free + result.0 ≡ this.old.free }
    ensures given { this.new.given ≡ this.old.given + result.0 }
    ensures limit { this.new.limit ≡ this.old.limit }
    ensures balanced { IsBalanced this.new }
{
    this.reserve(want)
}

/// Takes them back.
pub fn give_back<L: Ledger>(this: &mut Budget<L>, seat: Seat<L>)
    ensures free { this.new.free ≡ this.old.free + seat }
    ensures given { this.new.given + seat ≡ this.old.given }
    ensures limit { this.new.limit ≡ this.old.limit }
    ensures balanced { IsBalanced this.new }
    ensures all_back { seat ≡ this.old.given → this.new.free ≡ this.new.limit }
{
    this.give_back(seat)
}

/// How many threads a seat has.
pub fn threads<L: Ledger>(this: &Seat<L>) -> u32
    ensures threads { result ≡ this.now }
    ensures some { 0 < result }
{
    this.threads()
}

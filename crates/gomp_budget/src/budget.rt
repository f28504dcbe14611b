//! How many threads may still be given to teams.

ghost use Rattle.std.specs.Prelude.{◌≡◌, ◌+◌, ◌↔◌, min, IsNone, IfSome};
ghost use Rattle.gomp_budget.specs.Counts.{IsBalanced, all_free};

use crate::seat::Seat;
use std::marker::Model;
use std::sync::ledger::{Blank, Book, Ledger, Share};

/// The threads that teams may have. No call takes memory, and none is refused.
#[derive(Drop)]
pub struct Budget<L: Ledger> {
    /// How many threads there are in all, 0 to 2^32 - 1.
    limit: u32,
    /// How many of them nobody has.
    free: u32,
    /// Its total is what all seats that are out have together.
    book: Book<L>,
    /// A part for each free thread, and nothing of the total.
    spare: Share<L>,
}

impl<L: Ledger> Model for Budget<L> {
    ghost use Rattle.gomp_budget.specs.Counts.{ThreadCounts, BudgetKeeps};

    ghost Value = { ThreadCounts };

    ghost view = { λ b. record { limit = b.limit; free = b.free; given = b.book.total } };

    ghost invariant = { λ b. BudgetKeeps b.limit b.free b.book.total b.spare.parts b.spare.amount };
}

impl<L: Ledger> Budget<L> {
    /// A budget of `limit` threads, 0 to 2^32 - 1, all of them free. `blank` is a new ledger with a
    /// part for each thread: `Blank::new(limit as u64)`.
    pub fn new(limit: u32, blank: Blank) -> Budget<L>
        requires name { blank.name ≡ L.name }
        requires parts { blank.parts ≡ L.parts }
        requires part_each { blank.parts ≡ limit }
        ensures all_free { result ≡ all_free limit }
    {
        let (book, spare) = blank.open::<L>();
        Budget {
            limit,
            free: limit,
            book,
            spare,
        }
    }

    /// How many threads the budget has in all.
    pub fn limit(&self) -> u32
        ensures limit { result ≡ self.now.limit }
        ensures balanced { IsBalanced self.now }
    {
        self.limit
    }

    /// How many threads are free.
    pub fn free(&self) -> u32
        ensures free { result ≡ self.now.free }
        ensures balanced { IsBalanced self.now }
    {
        self.free
    }

    /// How many threads the seats that are out have together.
    pub fn given(&self) -> u32
        ensures given { result ≡ self.now.given }
        ensures balanced { IsBalanced self.now }
    {
        let Budget { limit, free, .. } = self;
        *limit - *free
    }

    /// Gives `want` threads (any number), or all that are free if these are fewer: how many it gave,
    /// and their seat. There is none if it gave no thread.
    pub fn reserve(&mut self, want: u32) -> (u32, Option<Seat<L>>)
        ensures got { result.0 ≡ min want self.old.free }
        ensures none { IsNone result.1 ↔ (result.0 ≡ 0) }
        ensures seat { IfSome result.1 (λ seat. seat ≡ result.0) }
        ensures free { self.new.free + result.0 ≡ self.old.free }
        ensures given { self.new.given ≡ self.old.given + result.0 }
        ensures limit { self.new.limit ≡ self.old.limit }
        ensures balanced { IsBalanced self.new }
    {
        let got = want.min(self.free);
        if got == 0 {
            return (0, None);
        }
        let Budget {
            free,
            book,
            spare,
            ..
        } = self;
        book.add(spare, got as u64);
        let share = spare.split_off(got as u64, got as u64);
        *free -= got;
        let seat = Seat {
            threads: got,
            share,
        };
        (got, Some(seat))
    }

    /// Takes a seat back: its threads are free again.
    pub fn give_back(&mut self, seat: Seat<L>)
        ensures free { self.new.free ≡ self.old.free + seat }
        ensures given { self.new.given + seat ≡ self.old.given }
        ensures limit { self.new.limit ≡ self.old.limit }
        ensures balanced { IsBalanced self.new }

        // Whoever gives back all that is given leaves every thread free.
        ensures all_back { seat ≡ self.old.given → self.new.free ≡ self.new.limit }
    {
        let Seat { threads, mut share } = seat;
        let Budget {
            free,
            book,
            spare,
            ..
        } = self;
        book.sub(&mut share, threads as u64);
        spare.merge(share);
        *free += threads;
    }
}

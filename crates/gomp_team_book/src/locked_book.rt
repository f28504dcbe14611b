//! What the lock guards: the book and its ledgers.

ghost use Rattle.std.specs.Prelude.{ℕ, ◌≡◌, ◌<◌};
ghost use Rattle.gomp_locks.specs.Book.{open_holds};
ghost use Rattle.gomp_locks.specs.Order.{IsInOrder};
ghost use Rattle.gomp_team_book.specs.Balance.{IsBalanced};
ghost use Rattle.gomp_team_book.specs.Parts.{new_book_part};

use crate::part::BookPart;
use gomp_locks::LockBook;
use std::marker::{Brand, Model};
use std::sync::ledger::{Blank, Book, Ledger};

/// Names the ledger of what is held, and says how many holds were open before.
pub trait HoldLedger: Ledger {
    /// How many holds were open when the ledger was begun: those of the program's initial task, as the
    /// outermost region began.
    ghost before: { ℕ };
}

impl HoldLedger for Brand {
    ghost before = { 0 };
}

/// The book of names and locks, with a ledger of what was held since it lies under its lock, and one of
/// what was freed.
///
/// Whenever the lock is free, the open holds and what was freed are together what was open before and
/// what was held since, and the book is in order.
#[derive(Drop)]
pub struct LockedBook<H: HoldLedger, F: Ledger> {
    pub(crate) book: LockBook,
    pub(crate) held: Book<H>,
    pub(crate) freed: Book<F>,
}

impl<H: HoldLedger, F: Ledger> Model for LockedBook<H, F> {
    ghost use Rattle.gomp_locks.specs.Book.{BookView};
    ghost use Rattle.gomp_team_book.specs.Balance.{IsLockedBook};

    ghost Value = { BookView };

    ghost view = { λ locked. locked.book };

    ghost invariant = { λ locked. IsLockedBook H.before locked.held.total locked.freed.total locked.book };
}

impl<H: HoldLedger, F: Ledger> LockedBook<H, F> {
    /// The book with two new ledgers, and all parts of each: of what is held, and of what is freed. The
    /// holds that are open in the book are those from before.
    pub fn new(
        book: LockBook,
        held: Blank,
        freed: Blank,
    ) -> (LockedBook<H, F>, BookPart<H>, BookPart<F>)
        requires held_name { held.name ≡ H.name }
        requires held_parts { held.parts ≡ H.parts }
        requires held_some { 0 < held.parts }
        requires freed_name { freed.name ≡ F.name }
        requires freed_parts { freed.parts ≡ F.parts }
        requires freed_some { 0 < freed.parts }
        requires order { IsInOrder book }
        requires before { open_holds book ≡ H.before }
        ensures book { result.0 ≡ book }
        ensures held { result.1 ≡ new_book_part H.parts }
        ensures freed { result.2 ≡ new_book_part F.parts }
    {
        let (held, holds) = held.open::<H>();
        let (freed, frees) = freed.open::<F>();
        (
            LockedBook { book, held, freed },
            BookPart { share: holds },
            BookPart { share: frees },
        )
    }

    /// With all parts of both ledgers it shows how many holds are open: as many as were held and open
    /// before, less those that were freed. It changes nothing.
    pub fn audit(&mut self, held: &mut BookPart<H>, freed: &mut BookPart<F>)
        ensures balanced { held.old.parts ≡ H.parts → freed.old.parts ≡ F.parts →
            IsBalanced H.before held.old.amount freed.old.amount self.old }
        ensures book { self.new ≡ self.old }
        ensures held { held.new ≡ held.old }
        ensures freed { freed.new ≡ freed.old }
    {
        self.held.audit(&mut held.share);
        self.freed.audit(&mut freed.share);
    }

    /// The book without its ledgers. It is in order, so it can be put under a lock again.
    pub fn into_book(self) -> LockBook
        ensures book { result ≡ self }
        ensures order { IsInOrder result }
    {
        let LockedBook { book, .. } = self;
        book
    }

    /// The book as it stands, to read: who holds what, and why a call would be refused.
    pub fn book(&self) -> &LockBook
        ensures book { result.now ≡ self.now }
        ensures order { IsInOrder self.now }
    {
        &self.book
    }
}

//! A member's part of a ledger.

ghost use Rattle.std.specs.Prelude.{◌≡◌, ◌<◌, ◌+◌};
ghost use Rattle.gomp_team_book.specs.Parts.{new_book_part, counted_more, merged_book_part};

use std::marker::Model;
use std::sync::ledger::{Book, Ledger, Share};

/// One part or more of a ledger, with what was counted on it. It takes no bytes.
///
/// [`LockedBook::new`](crate::LockedBook::new) gives all parts of its two ledgers. A part that is
/// dropped is lost, and then nobody has all parts again.
#[derive(Drop)]
pub struct BookPart<L: Ledger> {
    pub(crate) share: Share<L>,
}

impl<L: Ledger> Model for BookPart<L> {
    ghost use Rattle.gomp_team_book.specs.Parts.{BookPartView, IsSomePart};

    ghost Value = { BookPartView };

    ghost view = { λ part. record { parts = part.share.parts; amount = part.share.amount } };

    ghost invariant = { λ part. IsSomePart (record { parts = part.share.parts; amount = part.share.amount }) };
}

impl<L: Ledger> BookPart<L> {
    /// Gives away so many parts, of which some stay; what was counted stays here.
    pub fn split(&mut self, parts: u64) -> BookPart<L>
        requires some { 0 < parts }
        requires fewer { parts < self.old.parts }
        ensures given { result ≡ new_book_part parts }
        ensures parts { self.new.parts + parts ≡ self.old.parts }
        ensures amount { self.new.amount ≡ self.old.amount }
    {
        BookPart {
            share: self.share.split_off(parts, 0),
        }
    }

    /// Takes the other part in, with what was counted on it.
    pub fn merge(&mut self, other: BookPart<L>)
        ensures { self.new ≡ merged_book_part self.old other }
    {
        let BookPart { share } = other;
        self.share.merge(share);
    }

    /// So much more is counted, on the part and in its ledger.
    pub(crate) fn count(&mut self, ledger: &mut Book<L>, more: u64)
        ensures part { self.new ≡ counted_more more self.old }
        ensures total { ledger.new.total ≡ ledger.old.total + more }
    {
        ledger.add(&mut self.share, more);
    }
}

//! What a member has for the regions that it forks: a part of each of the book's ledgers.

ghost use Rattle.std.specs.Prelude.{◌≡◌, ◌<◌};
ghost use Rattle.gomp_team_book.specs.Parts.{merged_book_part, new_book_part};
ghost use Rattle.gomp_team_region.specs.Regions.{GivesParts};
ghost use Rattle.gomp_fork.specs.Counts.{both_counted, counted_on, nothing_counted};

use gomp_team_book::{BookPart, HoldLedger};
use gomp_team_region::BookShare;
use gomp_types::MAX_MEMBERS;
use std::marker::Model;
use std::sync::ledger::Ledger;

/// How many parts of each of the book's ledgers the members of a region have, at most: each has one, and one for
/// the regions that it forks.
pub const REGION_PARTS: u64 = 2 * MAX_MEMBERS as u64;

/// What a member has for the regions that it forks: one part of each of the book's ledgers, on which is counted
/// what their members held and freed of critical names and locks. It takes no bytes.
#[derive(Drop)]
pub struct InnerParts<H: HoldLedger, F: Ledger> {
    /// Of the ledger of holds.
    held: BookPart<H>,
    /// Of the ledger of releases.
    freed: BookPart<F>,
}

impl<H: HoldLedger, F: Ledger> Model for InnerParts<H, F> {
    ghost use Rattle.std.specs.Prelude.{◌≡◌};
    ghost use Rattle.gomp_fork.specs.Counts.{HoldCounts, counted_on};

    ghost Value = { HoldCounts };

    ghost view = { λ inner. counted_on inner.held inner.freed };

    ghost invariant = { λ inner. (inner.held.parts ≡ 1) × (inner.freed.parts ≡ 1) };
}

impl<H: HoldLedger, F: Ledger> InnerParts<H, F> {
    /// Those of a member that has forked no region, out of this share.
    pub(crate) fn split(share: &mut BookShare<H, F>) -> InnerParts<H, F>
        requires held { 1 < share.old.held.parts }
        requires freed { 1 < share.old.freed.parts }
        ensures none { result ≡ nothing_counted }
        ensures held { GivesParts 1 share.old.held share.new.held }
        ensures freed { GivesParts 1 share.old.freed share.new.freed }
    {
        InnerParts {
            held: share.held.split(1),
            freed: share.freed.split(1),
        }
    }

    /// Puts them back into the share, with what was counted on them.
    pub(crate) fn merge_into(self, share: &mut BookShare<H, F>)
        ensures held { share.new.held ≡
            merged_book_part share.old.held (record { parts = 1; amount = self.held }) }
        ensures freed { share.new.freed ≡
            merged_book_part share.old.freed (record { parts = 1; amount = self.freed }) }
    {
        let InnerParts { held, freed } = self;
        share.held.merge(held);
        share.freed.merge(freed);
    }

    /// Takes over what was counted on the parts of a team whose region has ended, so many of each ledger. They
    /// come back with nothing counted on them.
    pub fn take_over(
        &mut self,
        parts: u64,
        held: BookPart<H>,
        freed: BookPart<F>,
    ) -> (BookPart<H>, BookPart<F>)
        requires held { held.parts ≡ parts }
        requires freed { freed.parts ≡ parts }
        ensures counted { self.new ≡ both_counted self.old (counted_on held freed) }
        ensures held { result.0 ≡ new_book_part parts }
        ensures freed { result.1 ≡ new_book_part parts }
    {
        self.held.merge(held);
        self.freed.merge(freed);
        (self.held.split(parts), self.freed.split(parts))
    }
}

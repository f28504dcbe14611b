//! Parts of the book's ledgers, for teams.

ghost use Rattle.std.specs.Prelude.{◌≡◌, ◌≢◌, ◌+◌, ◌<◌, ◌≤◌, ◌^◌, IfSome, IsNone, OnSome};
ghost use Rattle.std.specs.Borrow.{sem};
ghost use Rattle.gomp_team_book.specs.Parts.{new_book_part};
ghost use Rattle.gomp_team_region.specs.Regions.{GivesParts};
ghost use Rattle.gomp_fork.specs.Counts.{both_counted, counted_on};

use gomp_fork::{InnerParts, REGION_PARTS};
use gomp_team_book::{BookPart, HoldLedger};
use gomp_team_region::BookShare;
use gomp_types::MAX_MEMBERS;
use std::marker::Model;
use std::sync::Arc;
use std::sync::ledger::Ledger;

/// How many parts the ledger of a team's events has: one for each member that it may have, and one more.
pub const TEAM_PARTS: u64 = MAX_MEMBERS as u64 + 1;

/// How many parts of each of the book's ledgers a team is given: those of its members, and one more.
pub const TEAM_BOOK_PARTS: u64 = REGION_PARTS + 1;

/// The book with the parts of its ledgers that a nested team is given. It cannot be dropped, and no other module
/// can take it apart: [`TeamParts::share`] lends the book, [`BookPool::put`] takes all back.
pub(crate) struct TeamParts<H: HoldLedger, F: Ledger> {
    /// The book with these parts.
    share: BookShare<H, F>,
}

impl<H: HoldLedger, F: Ledger> Model for TeamParts<H, F> {
    ghost use Rattle.gomp_nested.specs.Ledgers.{PartsView};

    ghost Value = { PartsView };

    ghost view = { λ parts. record { held = parts.share.held; freed = parts.share.freed } };
}

impl<H: HoldLedger, F: Ledger> TeamParts<H, F> {
    ghost use Rattle.gomp_nested.specs.Lends.{lends_share};

    /// Lends the book with these parts, for the region of their team.
    pub(crate) fn share(&mut self) -> &mut BookShare<H, F>
        ensures* lends { sem 𝓛
            (lends_share H.row F.row H.before (H.Ledger, F.Ledger) self.entry result) }
        ensures held { result.now.held ≡ self.old.held }
        ensures freed { result.now.freed ≡ self.old.freed }
    {
        &mut self.share
    }

    /// The parts with nothing counted on them: what was, once the region of their team has ended, the member
    /// that forked it has.
    pub(crate) fn hand_over(self, inner: &mut InnerParts<H, F>) -> TeamParts<H, F>
        requires held { self.held.parts ≡ 129 }
        requires freed { self.freed.parts ≡ 129 }
        ensures held { result.held ≡ new_book_part 129 }
        ensures freed { result.freed ≡ new_book_part 129 }
        ensures inner { inner.new ≡ both_counted inner.old (counted_on self.held self.freed) }
    {
        let TeamParts { share } = self;
        let BookShare { book, held, freed } = share;
        let (held, freed) = inner.take_over(TEAM_BOOK_PARTS, held, freed);
        let share = BookShare { book, held, freed };
        TeamParts { share }
    }
}

/// The book of critical names and locks, and the parts of its ledgers that no team has, on which nothing was
/// counted.
#[derive(Drop)]
pub(crate) struct BookPool<H: HoldLedger, F: Ledger> {
    /// The book with these parts.
    share: BookShare<H, F>,
    /// How many parts there are of each.
    left: u64,
}

impl<H: HoldLedger, F: Ledger> Model for BookPool<H, F> {
    ghost use Rattle.gomp_nested.specs.Ledgers.{IsPool, PoolView};

    ghost Value = { PoolView };

    ghost view = { λ p. record { left = p.left; held = p.share.held; freed = p.share.freed } };

    ghost invariant = { λ p. IsPool (record { left = p.left; held = p.share.held; freed = p.share.freed }) };
}

impl<H: HoldLedger, F: Ledger> BookPool<H, F> {
    /// The parts of this share, of which there are so many. Nothing was counted on them.
    pub(crate) fn new(share: BookShare<H, F>, parts: u64) -> BookPool<H, F>
        requires held { share.held ≡ new_book_part parts }
        requires freed { share.freed ≡ new_book_part parts }
        ensures left { result.left ≡ parts }
        ensures held { result.held ≡ share.held }
        ensures freed { result.freed ≡ share.freed }
    {
        BookPool { share, left: parts }
    }

    /// The book with 129 parts of each ledger, for a team. None if there are no more, or if memory is refused.
    pub(crate) fn take(&mut self) -> Option<TeamParts<H, F>>
        ensures held { IfSome result (λ parts. parts.held ≡ new_book_part 129) }
        ensures freed { IfSome result (λ parts. parts.freed ≡ new_book_part 129) }
        ensures left { OnSome result (self.new.left + 129 ≡ self.old.left) }
        ensures held_left { OnSome result (GivesParts 129 self.old.held self.new.held) }
        ensures freed_left { OnSome result (GivesParts 129 self.old.freed self.new.freed) }
        ensures none { IsNone result → self.new ≡ self.old }
    {
        if self.left <= TEAM_BOOK_PARTS {
            return None;
        }
        let Ok(book) = Arc::try_clone(&self.share.book) else {
            return None;
        };
        self.left -= TEAM_BOOK_PARTS;
        let share = BookShare {
            book,
            held: self.share.held.split(TEAM_BOOK_PARTS),
            freed: self.share.freed.split(TEAM_BOOK_PARTS),
        };
        Some(TeamParts { share })
    }

    /// Takes the parts of a team back, on which nothing is counted any more. There are never 2^64 of them: then
    /// they would be lost.
    pub(crate) fn put(&mut self, parts: TeamParts<H, F>)
        requires held { parts.held ≡ new_book_part 129 }
        requires freed { parts.freed ≡ new_book_part 129 }
        ensures left { self.old.left + 129 < 2 ^ 64 → self.new.left ≡ self.old.left + 129 }
        ensures lost { 2 ^ 64 ≤ self.old.left + 129 → self.new ≡ self.old }
    {
        let TeamParts { share } = parts;
        let BookShare { held, freed, .. } = share;
        // Nothing is lost else, though a part could be dropped: the pool has as many as it counts.
        let Some(left) = self.left.checked_add(TEAM_BOOK_PARTS) else {
            return;
        };
        self.share.held.merge(held);
        self.share.freed.merge(freed);
        self.left = left;
    }

    /// All parts that there are: those of the pool, if it has so many, and these. What was counted on these, was
    /// counted on all. None if the pool has not so many.
    pub(crate) fn into_whole(
        self,
        parts: u64,
        mut held: BookPart<H>,
        mut freed: BookPart<F>,
    ) -> Option<(BookPart<H>, BookPart<F>)>
        ensures held { IfSome result (λ whole.
            whole.0 ≡ record { parts = held.parts + parts; amount = held.amount }) }
        ensures freed { IfSome result (λ whole.
            whole.1 ≡ record { parts = freed.parts + parts; amount = freed.amount }) }
        ensures none { IsNone result → self.left ≢ parts }
    {
        let BookPool { share, left } = self;
        if left != parts {
            return None;
        }
        let BookShare {
            held: more_held,
            freed: more_freed,
            ..
        } = share;
        held.merge(more_held);
        freed.merge(more_freed);
        Some((held, freed))
    }
}

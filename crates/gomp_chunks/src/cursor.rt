//! Pieces asked for one after another.

ghost use Rattle.std.specs.Prelude.{◌≡◌, ◌<◌, IfSome, Some, option_map, slice_get};
ghost use Rattle.gomp_chunks.specs.Plans.{IsPieceWithin, next_piece, pieces};
ghost use Rattle.gomp_chunks.specs.Spots.{IsSpotAt};

use crate::Plan;
use crate::guided::{Spot, spot_ahead};
use std::marker::Model;

/// A plan with the place of the piece of a guided loop that was asked for last, from which the next
/// one is found without going over those before it anew. Pieces of other loops need no place: they
/// are counted once, so that no call divides to find the last one. Those of a dynamic loop have a
/// count of their own, which is 0 for any other share: its pieces are found by one comparison.
#[derive(Clone, Copy, Debug)]
pub struct Cursor {
    /// How the share is dealt out.
    plan: Plan,
    /// Where the piece lies that was found last: guided pieces are found from there on.
    spot: Spot,
    /// How many pieces there are, if the loop is not guided.
    count: u64,
    /// The same of a dynamic loop, or 0; of any other share 0.
    dynamic_count: u64,
}

impl Model for Cursor {
    ghost use Rattle.gomp_chunks.specs.Spots.{CursorView, IsCursor, IsDynamicCount};

    ghost Value = { CursorView };

    ghost view = { λ cursor. record { plan = cursor.plan; spot = cursor.spot; count = cursor.count; dynamic_count = cursor.dynamic_count } };

    ghost invariant = { λ cursor. IsCursor cursor.plan cursor.spot cursor.count × IsDynamicCount cursor.plan cursor.dynamic_count };

    ghost inverse = { λ cursor. record { plan = cursor.plan; spot = cursor.spot; count = cursor.count; dynamic_count = cursor.dynamic_count } };
}

impl Cursor {
    /// A cursor of this plan, from which no piece was asked for yet.
    pub fn new(plan: Plan) -> Cursor
        ensures plan { result.plan ≡ plan }
        ensures start { result.spot.number ≡ 0 }
    {
        Cursor {
            plan,
            spot: Spot::START,
            count: plan.count_ahead(),
            dynamic_count: plan.dynamic_count(),
        }
    }

    /// What [`Plan::chunk`] gives for piece number `j`. A number that is not below the last one that
    /// was asked for takes as many turns as there are pieces between them; a lower one is looked for
    /// from the first piece on.
    #[inline(always)]
    pub fn advance_to(&mut self, j: u64) -> Option<(u64, u64)>
        ensures plan { self.new.plan ≡ self.old.plan }
        ensures piece { result ≡ slice_get (pieces self.old.plan) j }
        ensures within { IfSome result (IsPieceWithin self.old.plan.shape.trips) }
        ensures spot { IsSpotAt self.new.plan.shape self.new.spot j }
    {
        let count = self.dynamic_count;
        if j < count {
            return self.plan.dynamic_piece(count, j);
        }
        self.find_piece(j)
    }

    /// The same, for any share.
    #[inline(never)]
    fn find_piece(&mut self, j: u64) -> Option<(u64, u64)>
        ensures plan { self.new.plan ≡ self.old.plan }
        ensures piece { result ≡ slice_get (pieces self.old.plan) j }
        ensures within { IfSome result (IsPieceWithin self.old.plan.shape.trips) }
        ensures spot { IsSpotAt self.new.plan.shape self.new.spot j }
    {
        let start = if j < self.spot.number {
            Spot::START
        } else {
            self.spot
        };
        self.spot = self.plan.spot_from(start, j);
        self.plan.piece_from(self.spot, self.count, j)
    }

    /// The piece that a member takes next, with its number, if it took `own` pieces and all members
    /// together took `all`: of a static loop its own next one, of others the next one of all.
    pub fn next_piece(&mut self, member: u16, own: u64, all: u64) -> Option<(u64, (u64, u64))>
        requires member { member < self.old.plan.members }
        ensures plan { self.new.plan ≡ self.old.plan }
        ensures piece { option_map (λ taken. taken.1) result ≡
            next_piece self.old.plan member own all }
        ensures number { IfSome result (λ taken.
            slice_get (pieces self.old.plan) taken.0 ≡ Some taken.1) }
        ensures within { IfSome result (λ taken.
            IsPieceWithin self.old.plan.shape.trips taken.1) }
        ensures spot { IfSome result (λ taken.
            IsSpotAt self.new.plan.shape self.new.spot taken.0) }
    {
        let number = self.plan.next_number(member, own, all)?;
        let piece = self.advance_to(number)?;
        Some((number, piece))
    }
}

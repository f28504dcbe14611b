//! The ledgers of a runtime's regions.

ghost use Rattle.std.specs.Prelude.{◌≡◌};

use crate::common::BOOK_PARTS;
use crate::pool::TEAM_PARTS;
use std::sync::ledger::Blank;

/// The ledgers of a region, not begun yet: that of its events with a part for every member that a team may
/// have, and one more; those of the book with as many for each team that is open at once.
#[derive(Drop)]
pub struct Blanks {
    /// Of its events.
    pub events: Blank,
    /// Of the holds of names and locks.
    pub held: Blank,
    /// Of their releases.
    pub freed: Blank,
}

impl Blanks {
    /// New ones.
    pub fn new() -> Blanks
        ensures events { result.events.parts ≡ 65 }
        ensures held { result.held.parts ≡ 34353345 }
        ensures freed { result.freed.parts ≡ 34353345 }
    {
        Blanks {
            events: Blank::new(TEAM_PARTS),
            held: Blank::new(BOOK_PARTS),
            freed: Blank::new(BOOK_PARTS),
        }
    }
}

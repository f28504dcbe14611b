//! The ledger of a team's events while no team has it.

ghost use Rattle.std.specs.Prelude.{ℕ, ◌≡◌, ◌<◌};

use std::marker::Model;
use std::sync::ledger::{Blank, Book, Ledger, Share};

/// The ledger of a team's events while no team has it: all of its parts, and no event. So one ledger
/// serves one team after another. It takes no bytes.
///
/// [`LockedBoard::new`](crate::LockedBoard::new) takes it, and
/// [`LockedBoard::close`](crate::LockedBoard::close) gives it back. One that is dropped is lost.
#[derive(Drop)]
pub struct EventLedger<L: Ledger> {
    /// Nothing is on it.
    pub(crate) happened: Book<L>,
    /// All parts.
    pub(crate) share: Share<L>,
}

impl<L: Ledger> Model for EventLedger<L> {
    ghost use Rattle.std.specs.Prelude.{ℕ};
    ghost use Rattle.gomp_team_board.specs.Parts.{IsAtRest};

    ghost Value = { ℕ };

    ghost view = { λ ledger. ledger.share.parts };

    ghost invariant = { λ ledger. IsAtRest ledger.happened.total ledger.share.parts ledger.share.amount };
}

impl<L: Ledger> EventLedger<L> {
    /// Opens the ledger `blank`, which is new and has some part.
    pub fn open(blank: Blank) -> EventLedger<L>
        requires name { blank.name ≡ L.name }
        requires parts { blank.parts ≡ L.parts }
        requires some { 0 < blank.parts }
        ensures parts { result ≡ L.parts }
    {
        let (happened, share) = blank.open::<L>();
        EventLedger { happened, share }
    }
}

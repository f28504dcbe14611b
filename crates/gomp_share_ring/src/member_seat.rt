//! What is kept of one member beside the seat of the slots.

ghost use Rattle.std.specs.Prelude.{◌≡◌, ◌<◌, ◌+◌, ◌^◌, Some, None, true};
ghost use Rattle.gomp_types.specs.Shapes.{is_static};
ghost use Rattle.gomp_types.specs.Limits.{shown_number};
ghost use Rattle.gomp_types.specs.Values.{IsShape};
ghost use Rattle.gomp_slots.specs.Seats.{unseen};
ghost use Rattle.gomp_share_ring.specs.AllShares.{seen_in_share};

use gomp_chunks::{Cursor, Plan};
use gomp_events::Seen;
use gomp_types::{EndKind, Shape, ShareKind};

/// Where a member is among the shares.
#[derive(Clone, Copy, Debug)]
pub struct MemberSeat {
    /// What the member sees of its place.
    pub seen: Seen,
    /// How many pieces it took of the share that it entered last; the count stays at the largest
    /// number.
    pub own: u64,
    /// The number of its piece among the pieces of that share.
    pub number: u64,
    /// The pieces of that share.
    pub cursor: Cursor,
}

/// A shape without iterations: what the cursor of a member goes over that has entered no share.
pub(crate) const NO_SHAPE: Shape = Shape {
    start: 0,
    incr: 1,
    trips: 0,
    kind: ShareKind::Dynamic,
    chunk: 1,
    ordered: false,
    end_kind: EndKind::Wait,
};

impl MemberSeat {
    /// A member of a team of this size that has entered no share.
    pub(crate) fn new(members: u16) -> MemberSeat
        requires team { 0 < members }
        ensures seen { result.seen ≡ unseen }
    {
        MemberSeat {
            seen: Seen {
                entered: 0,
                current: None,
                drained: false,
                piece: None,
                next_part: 0,
                in_part: false,
                leaving: false,
            },
            own: 0,
            number: 0,
            cursor: Cursor::new(Plan::of(&NO_SHAPE, members)),
        }
    }

    /// A member of a team of this size that has just entered the share of this number, in this shape.
    pub(crate) fn in_share(share: u64, shape: &Shape, members: u16) -> MemberSeat
        requires team { 0 < members }
        requires shape { IsShape shape.now }
        requires few { share < 2 ^ 48 }
        ensures seen { result.seen ≡ seen_in_share share shape.now }
        ensures own { result.own ≡ 0 }
        ensures plan { result.cursor.plan ≡ record { members = members; shape = shape.now } }
    {
        MemberSeat {
            seen: Seen {
                entered: share + 1,
                current: Some((share, *shape)),
                drained: false,
                piece: None,
                next_part: 0,
                in_part: false,
                leaving: false,
            },
            own: 0,
            number: 0,
            cursor: Cursor::new(Plan::of(shape, members)),
        }
    }

    /// The member was answered that nothing is left of its share.
    pub(crate) fn drain(&mut self)
        ensures { self.new ≡ record self.old {
          seen = record self.old.seen { drained = true; piece = None };
        } }
    {
        self.seen.drained = true;
        self.seen.piece = None;
    }

    /// The member took this piece of its share, of this number.
    pub(crate) fn take_piece(&mut self, number: u64, piece: (u64, u64))
        ensures seen { self.new.seen ≡ record self.old.seen { piece = Some piece } }
        ensures own { self.new.own ≡ shown_number (self.old.own + 1) }
        ensures number { self.new.number ≡ number }
        ensures cursor { self.new.cursor ≡ self.old.cursor }
    {
        self.seen.piece = Some(piece);
        self.own = self.own.saturating_add(1);
        self.number = number;
    }
}

/// Whether the pieces of a share of this kind are assigned to its members ahead.
pub(crate) fn is_assigned(kind: ShareKind) -> bool
    ensures { result ≡ is_static kind }
{
    matches!(kind, ShareKind::StaticChunked | ShareKind::StaticEven)
}

//! The cursor over the pieces of a guided loop, which all members move on.

ghost use Rattle.std.specs.Prelude.{◌≡◌, ◌<◌, ◌==◌, ◌&&◌, IfSome, slice_get};
ghost use Rattle.gomp_types.specs.Shapes.{same_shape};
ghost use Rattle.gomp_types.specs.Values.{IsShape};
ghost use Rattle.gomp_chunks.specs.Plans.{IsPieceWithin, pieces};

use gomp_chunks::{Cursor, Plan};
use gomp_types::{OPEN_SHARES, Shape, ShareKind};
use std::marker::Model;

/// A cursor over the pieces of the share for which it was asked last: the next piece of a guided loop is one step from
/// the last one, whoever took that.
#[derive(Debug, Drop)]
pub struct SharedCursor {
    members: u16,
    shape: Shape,
    cursor: Cursor,
}

impl Model for SharedCursor {
    ghost use Rattle.std.specs.Prelude.{◌≡◌};
    ghost use Rattle.gomp_chunks.specs.Plans.{PlanView};

    ghost Value = { PlanView };

    ghost view = { λ shared. record { members = shared.members; shape = shared.shape } };

    ghost invariant = { λ shared. shared.cursor.plan ≡
        record { members = shared.members; shape = shared.shape } };
}

impl SharedCursor {
    /// A cursor at the first piece of a share of this shape, in a team of this size.
    pub(crate) fn new(members: u16, shape: &Shape) -> SharedCursor
        requires team { 0 < members }
        requires shape { IsShape shape.now }
        ensures { result ≡ record { members = members; shape = shape.now } }
    {
        SharedCursor {
            members,
            shape: *shape,
            cursor: Cursor::new(Plan::of(shape, members)),
        }
    }

    /// Whether its pieces are those of a share of this shape, in a team of this size.
    fn is_over(&self, members: u16, shape: &Shape) -> bool
        ensures { result ≡
            (self.now.members == members && same_shape self.now.shape shape.now) }
    {
        self.members == members && self.shape.is_same(shape)
    }

    /// Piece number `j` of a share of this shape, in a team of this size.
    fn piece_at(&mut self, members: u16, shape: &Shape, j: u64) -> Option<(u64, u64)>
        requires team { 0 < members }
        requires shape { IsShape shape.now }
        ensures piece { result ≡
            slice_get (pieces (record { members = members; shape = shape.now })) j }
        ensures within { IfSome result (IsPieceWithin shape.now.trips) }
    {
        if !self.is_over(members, shape) {
            *self = SharedCursor::new(members, shape);
        }
        self.cursor.advance_to(j)
    }
}

/// Piece number `j` of the share of this number, which has this cursor of a member and this shape in a team of this size. That of
/// a guided loop is found by the cursor that is shared, since others may have taken many pieces since the member's last one.
pub(crate) fn find_piece(
    cursor: &mut Cursor,
    shared: &mut [SharedCursor; OPEN_SHARES as usize],
    share: u64,
    members: u16,
    shape: &Shape,
    j: u64,
) -> Option<(u64, u64)>
    requires plan { cursor.old.plan ≡ record { members = members; shape = shape.now } }
    requires team { 0 < members }
    requires shape { IsShape shape.now }
    ensures plan { cursor.new.plan ≡ cursor.old.plan }
    ensures piece { result ≡ slice_get (pieces cursor.old.plan) j }
    ensures within { IfSome result (IsPieceWithin cursor.old.plan.shape.trips) }
{
    match shape.kind {
        ShareKind::Guided => shared[(share % OPEN_SHARES) as usize].piece_at(members, shape, j),
        _ => cursor.advance_to(j),
    }
}

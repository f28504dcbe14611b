//! The pieces in which a work-share hands out its iterations, each computed when it is asked for.
//!
//! No list of pieces is kept and no memory is taken: a piece follows from the number of
//! iterations, the chunk, the kind of the share and the team's size (OpenMP API 5.2, section
//! 11.5.3). Each section of a sections construct is a piece, and a `single` is one whole (sections
//! 11.3 and 11.1).
#![tactic(auto)]

mod chunked;
pub mod cursor;
mod even;
mod guided;
mod sections;
mod single;

ghost use Rattle.std.specs.Prelude.{◌≡◌, ◌≢◌, ◌<◌, ◌≤◌, ◌^◌, length, slice_get, IfSome, OnSome};
ghost use Rattle.gomp_types.specs.declared.shape.ShareKind.TheVariants.{Guided};
ghost use Rattle.gomp_types.specs.Pieces.{Tiles};
ghost use Rattle.gomp_types.specs.Values.{IsShape};
ghost use Rattle.gomp_chunks.specs.Plans.{IsPieceWithin, next_piece, owner, piece_at, pieces};
ghost use Rattle.gomp_chunks.specs.Spots.{IsDynamicCount, IsSpot, IsSpotAt};

use chunked::{chunked_count, chunked_piece};
pub use cursor::Cursor;
use even::{even_count, even_owner, even_piece};
use gomp_types::{Shape, ShareKind};
pub use guided::Spot;
use guided::{guided_count, guided_piece, spot_ahead};
use sections::{section_count, section_piece};
use single::{whole_count, whole_piece};
use std::marker::Model;

/// The pieces of one work-share in the order of their iterations.
///
/// A piece is given by its first iteration and the one after its last, both counted from 0.
#[derive(Clone, Copy, Debug)]
pub struct Plan {
    shape: Shape,
    members: u16,
}

impl Model for Plan {
    ghost use Rattle.std.specs.Prelude.{◌<◌};
    ghost use Rattle.gomp_types.specs.Values.{IsShape};
    ghost use Rattle.gomp_chunks.specs.Plans.{PlanView};

    ghost Value = { PlanView };

    ghost view = { λ plan. record { members = plan.members; shape = plan.shape } };

    ghost invariant = { λ plan. IsShape plan.shape × (0 < plan.members) };

    ghost inverse = { λ plan. record { members = plan.members; shape = plan.shape } };
}

impl Plan {
    /// The pieces of a work-share of this shape in a team of `members` members, 1 or more.
    ///
    /// They lead from the first iteration to the last: each begins where the one before it ends,
    /// and none is empty (OpenMP API 5.2, section 11.5.3, the `schedule` clause).
    pub fn of(shape: &Shape, members: u16) -> Plan
        requires shape { IsShape shape.now }
        requires team { 0 < members }
        ensures plan { result ≡ record { members = members; shape = shape.now } }
        ensures tiles { Tiles 0 (pieces result) shape.now.trips }
    {
        Plan {
            shape: *shape,
            members,
        }
    }

    /// How many pieces there are, 0 to 2^39; none if the share has no iterations. Those of a guided
    /// loop are counted anew at each call.
    pub fn chunks(&self) -> u64
        ensures count { result ≡ length (pieces self.now) }
        ensures bounded { result ≤ 2 ^ 39 }
    {
        match self.shape.kind {
            ShareKind::StaticChunked | ShareKind::Dynamic => chunked_count(&self.shape),
            ShareKind::Sections => section_count(&self.shape),
            ShareKind::Single | ShareKind::SingleCopy => whole_count(&self.shape),
            ShareKind::StaticEven => even_count(&self.shape, self.members),
            ShareKind::Guided => guided_count(&self.shape, self.members),
        }
    }

    /// Piece number `j`, counted from 0: its first iteration, and the one after its last. `None`
    /// if `j` is past the last piece. Any number may be asked for, at the same small cost; only a
    /// guided loop's pieces are gone over from the first one on (see [`Cursor`]).
    pub fn chunk(&self, j: u64) -> Option<(u64, u64)>
        ensures piece { result ≡ slice_get (pieces self.now) j }

        // A piece has an iteration, and its ends and its number lie within the loop.
        ensures within { IfSome result (IsPieceWithin self.now.shape.trips) }
        ensures number { OnSome result (j < self.now.shape.trips) }
    {
        self.piece_from(self.spot_from(Spot::START, j), self.count_ahead(), j)
    }

    /// The member that owns piece number `j` of a static loop. `None` if `j` is past the last
    /// piece, and if the pieces belong to whoever asks next.
    pub fn owner(&self, j: u64) -> Option<u16>
        ensures owner { result ≡ owner self.now j }
        ensures member { IfSome result (λ member. member < self.now.members) }
    {
        let members = self.members;
        if j >= self.chunks() {
            return None;
        }
        match self.shape.kind {
            ShareKind::StaticChunked => Some((j % members as u64) as u16),
            ShareKind::StaticEven => Some(even_owner(members, j)),
            _ => None,
        }
    }

    /// The number of the piece that a member takes next, if it took `own` pieces and all members
    /// together took `all`: of a static loop its own next one, of others the next one of all.
    /// `None`, or a number past the last piece, if nothing is left for it.
    pub fn next_number(&self, member: u16, own: u64, all: u64) -> Option<u64>
        requires { member < self.now.members }
        ensures { next_piece self.now member own all ≡ piece_at self.now result }
    {
        match self.shape.kind {
            // There are no more pieces than iterations.
            ShareKind::StaticChunked if own >= self.shape.trips => None,
            ShareKind::StaticChunked => Some(own * self.members as u64 + member as u64),
            ShareKind::StaticEven if own > 0 => None,
            ShareKind::StaticEven => Some(member as u64),
            _ => Some(all),
        }
    }

    /// The spot of piece number `j`, from one that lies before it. Only a guided loop's is looked
    /// for.
    fn spot_from(&self, start: Spot, j: u64) -> Spot
        requires spot { IsSpot self.now.members self.now.shape start }
        requires ahead { start.number ≤ j }
        ensures spot { IsSpot self.now.members self.now.shape result }
        ensures ahead { result.number ≤ j }
        ensures there { IsSpotAt self.now.shape result j }
    {
        match self.shape.kind {
            ShareKind::Guided => spot_ahead(&self.shape, self.members, start, j),
            _ => start,
        }
    }

    /// How many pieces there are, if that is known ahead: 0 for a guided loop, whose pieces are not
    /// gone over.
    fn count_ahead(&self) -> u64
        ensures { self.now.shape.kind ≢ Guided → result ≡ length (pieces self.now) }
    {
        match self.shape.kind {
            ShareKind::Guided => 0,
            _ => self.chunks(),
        }
    }

    /// How many pieces a dynamic loop has; 0 for any other share.
    fn dynamic_count(&self) -> u64
        ensures { IsDynamicCount self.now result }
    {
        match self.shape.kind {
            ShareKind::Dynamic => chunked_count(&self.shape),
            _ => 0,
        }
    }

    /// Piece number `j` of the `count` of a dynamic loop.
    #[inline(always)]
    fn dynamic_piece(&self, count: u64, j: u64) -> Option<(u64, u64)>
        requires count { IsDynamicCount self.now count }
        requires within { j < count }
        ensures piece { result ≡ slice_get (pieces self.now) j }
        ensures within { IfSome result (IsPieceWithin self.now.shape.trips) }
        ensures kind { self.now.shape.kind ≢ Guided }
    {
        // Whether there is such a piece is asked in there once more: inlined, the two tests are one.
        chunked_piece(&self.shape, count, j)
    }

    /// Piece number `j`, if this is its spot, and there are `count` pieces if the loop is not
    /// guided.
    fn piece_from(&self, spot: Spot, count: u64, j: u64) -> Option<(u64, u64)>
        requires spot { IsSpot self.now.members self.now.shape spot }
        requires ahead { spot.number ≤ j }
        requires there { IsSpotAt self.now.shape spot j }
        requires count { self.now.shape.kind ≢ Guided → count ≡ length (pieces self.now) }
        ensures piece { result ≡ slice_get (pieces self.now) j }
        ensures within { IfSome result (IsPieceWithin self.now.shape.trips) }
        ensures number { OnSome result (j < self.now.shape.trips) }
    {
        match self.shape.kind {
            ShareKind::StaticChunked | ShareKind::Dynamic => chunked_piece(&self.shape, count, j),
            ShareKind::Sections => section_piece(&self.shape, j),
            ShareKind::Single | ShareKind::SingleCopy => whole_piece(&self.shape, j),
            ShareKind::StaticEven => even_piece(&self.shape, self.members, j),
            ShareKind::Guided => guided_piece(&self.shape, self.members, spot, j),
        }
    }
}

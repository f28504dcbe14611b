//! The pieces of a share, by their numbers.

ghost use Rattle.std.specs.Prelude.{◌≡◌, ◌<◌, ◌≤◌, ◌^◌, length, slice_get, IfSome, OnSome};
ghost use Rattle.gomp_types.specs.Pieces.{Tiles};
ghost use Rattle.gomp_types.specs.Values.{IsShape};
ghost use Rattle.gomp_chunks.specs.Plans.{IsPieceWithin, owner, pieces};

use gomp_chunks::Plan;
use gomp_types::Shape;

/// The plan of a share.
pub fn plan_of(shape: &Shape, members: u16) -> Plan
    requires shape { IsShape shape.now }
    requires team { 0 < members }
    ensures plan { result ≡ record { members = members; shape = shape.now } }
    ensures tiles { Tiles 0 (pieces result) shape.now.trips }
{
    Plan::of(shape, members)
}

/// A piece by its number.
pub fn chunk(this: &Plan, j: u64) -> Option<(u64, u64)>
    ensures piece { result ≡ slice_get (pieces this.now) j }
    ensures within { IfSome result (IsPieceWithin this.now.shape.trips) }
    ensures number { OnSome result (j < this.now.shape.trips) }
{
    this.chunk(j)
}

/// Whose it is.
pub fn owner(this: &Plan, j: u64) -> Option<u16>
    ensures owner { result ≡ owner this.now j }
    ensures member { IfSome result (λ member. member < this.now.members) }
{
    this.owner(j)
}

/// How many pieces there are.
pub fn chunks(this: &Plan) -> u64
    ensures count { result ≡ length (pieces this.now) }
    ensures bounded { result ≤ 2 ^ 39 }
{
    this.chunks()
}

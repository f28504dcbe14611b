//! A piece for each member, as even as may be: of a static loop without chunk (OpenMP API 5.2,
//! section 11.5.3, the `schedule` clause).

ghost use Rattle.std.specs.Prelude.{◌≡◌, ◌<◌, ◌≤◌, length, slice_get, IfSome, OnSome};
ghost use Rattle.gomp_types.specs.Pieces.{even_pieces, even_start};
ghost use Rattle.gomp_types.specs.Values.{IsShape};

use gomp_types::Shape;

/// How many pieces there are: members that would have no iteration have no piece.
pub fn even_count(shape: &Shape, members: u16) -> u64
    ensures count { result ≡ length (even_pieces shape.now.trips members) }
    ensures bounded { result ≤ shape.now.trips }
{
    shape.trips.min(members as u64)
}

/// Piece number `j`, which is member `j`'s.
pub fn even_piece(shape: &Shape, members: u16, j: u64) -> Option<(u64, u64)>
    requires shape { IsShape shape.now }
    requires team { 0 < members }
    ensures piece { result ≡ slice_get (even_pieces shape.now.trips members) j }
    ensures within { IfSome result (λ piece. (piece.0 < piece.1) × (piece.1 ≤ shape.now.trips)) }
    ensures number { OnSome result (j < shape.now.trips) }
{
    if j >= even_count(shape, members) {
        return None;
    }
    Some((
        even_start(shape, members, j),
        even_start(shape, members, j + 1),
    ))
}

/// The member that owns piece number `j`.
pub fn even_owner(members: u16, j: u64) -> u16
    requires { j < members }
    ensures number { result ≡ j }
    ensures member { result < members }
{
    let _members = members;
    j as u16
}

/// Where the part of member `j` begins: each member before it has its part of the iterations, and
/// the first ones one more each while some are left over.
fn even_start(shape: &Shape, members: u16, j: u64) -> u64
    requires shape { IsShape shape.now }
    requires team { 0 < members }
    requires member { j ≤ members }
    ensures { result ≡ even_start shape.now.trips members j }
{
    let members = members as u64;
    j * (shape.trips / members) + j.min(shape.trips % members)
}

//! The piece of a `single` construct: one that has all there is (OpenMP API 5.2, section 11.1).

ghost use Rattle.std.specs.Prelude.{◌≡◌, ◌<◌, ◌≤◌, length, slice_get, IfSome, OnSome};
ghost use Rattle.gomp_types.specs.Pieces.{whole_piece};

use gomp_types::Shape;

/// How many pieces there are: one, and none if there is nothing to do.
pub fn whole_count(shape: &Shape) -> u64
    ensures count { result ≡ length (whole_piece shape.now.trips) }
    ensures bounded { result ≤ shape.now.trips }
{
    shape.trips.min(1)
}

/// Piece number `j`.
pub fn whole_piece(shape: &Shape, j: u64) -> Option<(u64, u64)>
    ensures piece { result ≡ slice_get (whole_piece shape.now.trips) j }
    ensures within { IfSome result (λ piece. (piece.0 < piece.1) × (piece.1 ≤ shape.now.trips)) }
    ensures number { OnSome result (j < shape.now.trips) }
{
    if j < whole_count(shape) {
        Some((0, shape.trips))
    } else {
        None
    }
}

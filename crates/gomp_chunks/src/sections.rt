//! The pieces of the sections of a construct: each section is one (OpenMP API 5.2, section 11.3).

ghost use Rattle.std.specs.Prelude.{◌≡◌, ◌<◌, ◌≤◌, length, slice_get, IfSome, OnSome};
ghost use Rattle.gomp_types.specs.Pieces.{dynamic_pieces};

use gomp_types::Shape;

/// How many pieces there are: as many as sections.
pub fn section_count(shape: &Shape) -> u64
    ensures count { result ≡ length (dynamic_pieces shape.now.trips 1) }
    ensures bounded { result ≤ shape.now.trips }
{
    shape.trips
}

/// Piece number `j`.
pub fn section_piece(shape: &Shape, j: u64) -> Option<(u64, u64)>
    ensures piece { result ≡ slice_get (dynamic_pieces shape.now.trips 1) j }
    ensures within { IfSome result (λ piece. (piece.0 < piece.1) × (piece.1 ≤ shape.now.trips)) }
    ensures number { OnSome result (j < shape.now.trips) }
{
    if j < section_count(shape) {
        Some((j, j + 1))
    } else {
        None
    }
}

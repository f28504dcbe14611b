//! Pieces of the chunk's size, the last perhaps shorter: of a dynamic loop, and of a static one with
//! a chunk (OpenMP API 5.2, section 11.5.3, the `schedule` clause).

ghost use Rattle.std.specs.Prelude.{◌≡◌, ◌<◌, ◌≤◌, length, slice_get, IfSome, OnSome};
ghost use Rattle.gomp_types.specs.Pieces.{dynamic_pieces};
ghost use Rattle.gomp_types.specs.Values.{IsShape};

use gomp_types::Shape;

/// How many pieces there are.
pub fn chunked_count(shape: &Shape) -> u64
    requires { IsShape shape.now }
    ensures count { result ≡ length (dynamic_pieces shape.now.trips shape.now.chunk) }
    ensures bounded { result ≤ shape.now.trips }
{
    shape.trips.div_ceil(shape.chunk)
}

/// Piece number `j` of these `count`, in constant time and without a division.
#[inline(always)]
pub fn chunked_piece(shape: &Shape, count: u64, j: u64) -> Option<(u64, u64)>
    requires shape { IsShape shape.now }
    requires count { count ≡ length (dynamic_pieces shape.now.trips shape.now.chunk) }
    ensures piece { result ≡ slice_get (dynamic_pieces shape.now.trips shape.now.chunk) j }
    ensures within { IfSome result (λ piece. (piece.0 < piece.1) × (piece.1 ≤ shape.now.trips)) }
    ensures number { OnSome result (j < shape.now.trips) }
{
    if j >= count {
        return None;
    }
    let first = j * shape.chunk;
    Some((first, shape.trips.min(first + shape.chunk)))
}

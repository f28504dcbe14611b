//! The pieces of a guided loop, of which each depends on those before it (OpenMP API 5.2, section
//! 11.5.3, the `schedule` clause).

ghost use Rattle.std.specs.Prelude.{◌≡◌, ◌≤◌, ◌<◌, ◌-◌, ◌⊎◌, length, slice_get, IfSome, OnSome};
ghost use Rattle.gomp_types.specs.Pieces.{guided_pieces, guided_size};
ghost use Rattle.gomp_types.specs.Values.{IsShape};
ghost use Rattle.gomp_chunks.specs.Spots.{IsSpot};

use gomp_types::Shape;

/// A piece's place: its number, and its first iteration, both counted from 0. Past the last piece it
/// is the number of pieces, and of iterations.
#[derive(Clone, Copy, Debug)]
pub struct Spot {
    pub number: u64,
    pub first: u64,
}

impl Spot {
    /// The first piece.
    pub const START: Spot = Spot {
        number: 0,
        first: 0,
    };
}

/// How many iterations the piece has that begins here: its part of what is left, and no fewer than
/// the chunk says while so many are left; 0 past the last iteration.
pub fn size_from(shape: &Shape, members: u16, first: u64) -> u64
    requires shape { IsShape shape.now }
    requires team { 0 < members }
    requires within { first ≤ shape.now.trips }
    ensures { result ≡ guided_size members shape.now.chunk (shape.now.trips - first) }
{
    let rest = shape.trips - first;
    rest.div_ceil(members as u64).max(shape.chunk).min(rest)
}

/// Goes forward from a spot to piece number `j`, or past the last piece if there is none of this
/// number.
pub fn spot_ahead(shape: &Shape, members: u16, start: Spot, j: u64) -> Spot
    requires shape { IsShape shape.now }
    requires team { 0 < members }
    requires spot { IsSpot members shape.now start }
    requires ahead { start.number ≤ j }
    ensures spot { IsSpot members shape.now result }
    ensures ahead { result.number ≤ j }
    ensures there { (result.number ≡ j) ⊎ (result.first ≡ shape.now.trips) }
{
    let mut spot = start;
    while spot.number < j && spot.first < shape.trips {
        spot = Spot {
            number: spot.number + 1,
            first: spot.first + size_from(shape, members, spot.first),
        };
    }
    spot
}

/// Piece number `j`, from its spot; none if that lies past the last piece.
pub fn guided_piece(shape: &Shape, members: u16, spot: Spot, j: u64) -> Option<(u64, u64)>
    requires shape { IsShape shape.now }
    requires team { 0 < members }
    requires spot { IsSpot members shape.now spot }
    requires ahead { spot.number ≤ j }
    requires there { (spot.number ≡ j) ⊎ (spot.first ≡ shape.now.trips) }
    ensures piece { result ≡ slice_get (guided_pieces shape.now.trips members shape.now.chunk) j }
    ensures within { IfSome result (λ piece. (piece.0 < piece.1) × (piece.1 ≤ shape.now.trips)) }
    ensures number { OnSome result (j < shape.now.trips) }
{
    if spot.first < shape.trips {
        Some((
            spot.first,
            spot.first + size_from(shape, members, spot.first),
        ))
    } else {
        None
    }
}

/// How many pieces there are; it goes over them all.
pub fn guided_count(shape: &Shape, members: u16) -> u64
    requires shape { IsShape shape.now }
    requires team { 0 < members }
    ensures count { result ≡ length (guided_pieces shape.now.trips members shape.now.chunk) }
    ensures bounded { result ≤ shape.now.trips }
{
    spot_ahead(shape, members, Spot::START, shape.trips).number
}

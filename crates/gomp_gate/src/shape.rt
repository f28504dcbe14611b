//! The words that tell the shape of a share.

ghost use Rattle.std.specs.Prelude.{◌≡◌};
ghost use Rattle.gomp_types.specs.Values.{IsShape};
ghost use Rattle.gomp_gate.specs.Shapes.{kind_bits, end_number, packed_shape, shape_word};

use gomp_types::{EndKind, Shape, ShareKind};

/// One kind of share: 2^40.
const KIND: u64 = 0x100_0000_0000;
/// The loop is ordered: 2^43.
const ORDERED: u64 = 0x800_0000_0000;
/// One kind of end: 2^44.
const END: u64 = 0x1000_0000_0000;

fn kind_code(kind: ShareKind) -> u64
    ensures { result ≡ kind_bits kind }
{
    match kind {
        ShareKind::StaticChunked => 0,
        ShareKind::StaticEven => 1,
        ShareKind::Dynamic => 2,
        ShareKind::Guided => 3,
        ShareKind::Sections => 4,
        ShareKind::Single => 5,
        ShareKind::SingleCopy => 6,
    }
}

fn end_code(end_kind: EndKind) -> u64
    ensures { result ≡ end_number end_kind }
{
    match end_kind {
        EndKind::Wait => 0,
        EndKind::Nowait => 1,
        EndKind::Cancellable => 2,
    }
}

/// The chunk, the kind, whether it is ordered and the end of a shape, in one word.
pub fn packed_shape(shape: &Shape) -> u64
    requires shape { IsShape shape.now }
    ensures word { result ≡ packed_shape shape.now }
{
    let kind = kind_code(shape.kind);
    let end = end_code(shape.end_kind);
    let ordered: u64 = if shape.ordered { 1 } else { 0 };
    shape.chunk + KIND * kind + ORDERED * ordered + END * end
}

/// The word of a share at this place behind its gate: its number of iterations (place 0), the packed rest of its shape (1),
/// its start (2) and its step (3), both as the bits of their two's complement. Behind these stands the ordered turn, which is
/// 0 as the share is opened.
pub fn shape_word(shape: &Shape, place: u64) -> u64
    requires shape { IsShape shape.now }
    ensures word { result ≡ shape_word place shape.now }
{
    match place {
        0 => shape.trips,
        1 => packed_shape(shape),
        2 => shape.start.cast_unsigned(),
        3 => shape.incr.cast_unsigned(),
        _ => 0,
    }
}

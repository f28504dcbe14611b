//! Whether a shape is one that a construct has.

ghost use Rattle.std.specs.Prelude.{◌<◌, ◌≤◌, ◌-◌, ◌^◌, IsTrue, ◌↔◌, FitsSigned};
ghost use Rattle.std.specs.Int.{w64};
ghost use Rattle.gomp_types.specs.Values.{IsShape, value_at};

use gomp_types::{EndKind, Shape};

/// The most iterations that a share has, and a piece: 2^39.
const MOST: u64 = 0x80_0000_0000;

/// Whether the value of the last iteration is an i64.
fn last_value_fits(shape: &Shape) -> bool
    requires some { 0 < shape.now.trips }
    requires few { shape.now.trips ≤ 2 ^ 39 }
    ensures { IsTrue result ↔ FitsSigned w64 (value_at shape.now (shape.now.trips - 1)) }
{
    let _numbers = (shape.start, shape.incr);
    let last = shape.start as i128 + (shape.trips - 1) as i128 * shape.incr as i128;
    i64::try_from(last).is_ok()
}

/// Whether a construct that is not refused can have this shape: a share is open in no other.
pub(crate) fn is_shape(shape: &Shape) -> bool
    ensures { IsTrue result ↔ IsShape shape.now }
{
    let _numbers = (shape.start, shape.incr);
    if shape.trips > MOST || shape.chunk == 0 || shape.chunk > MOST || shape.incr == 0 {
        return false;
    }
    if shape.ordered && shape.end_kind == EndKind::Cancellable {
        return false;
    }
    shape.trips == 0 || last_value_fits(shape)
}

//! Constructs that are not refused: their shapes are known to be valid, so a member may open them.

ghost use Rattle.std.specs.Prelude.{◌≡◌, false};
ghost use Rattle.gomp_types.specs.Values.{IsShape};

use gomp_types::{EndKind, LoopDesc, Shape, sections_shape, single_shape};

/// A construct of a test, which is not refused and not ordered.
#[derive(Clone, Copy)]
pub(crate) enum What {
    Loop(LoopDesc),
    /// So many sections, without a barrier at their end.
    Sections(u32),
    /// A `single` without words.
    Single,
    /// A `single` with words for the others.
    SingleWithWords,
}

/// A construct that is not refused, and is not ordered.
#[derive(Drop)]
pub(crate) struct Construct {
    pub(crate) shape: Shape,
    ghost valid: { IsShape shape },
    ghost unordered: { shape.ordered ≡ false },
}

/// A construct of this shape, if that is not ordered.
fn unordered(shape: Shape) -> Option<Construct>
    requires valid { IsShape shape }
{
    if shape.ordered {
        return None;
    }
    Some(Construct { shape })
}

/// A loop; none if it is refused or ordered.
pub(crate) fn loop_of(desc: &LoopDesc) -> Option<Construct> {
    match desc.shape() {
        Ok(shape) => unordered(shape),
        Err(_) => None,
    }
}

/// So many sections, without a barrier at their end; none if they are refused.
fn sections_of(count: u32) -> Option<Construct> {
    match sections_shape(count, EndKind::Nowait) {
        Ok(shape) => unordered(shape),
        Err(_) => None,
    }
}

/// A `single` without words.
pub(crate) fn single() -> Option<Construct> {
    unordered(single_shape(false))
}

/// This construct; none if it is refused or ordered.
pub(crate) fn construct_of(what: &What) -> Option<Construct> {
    match what {
        What::Loop(desc) => loop_of(desc),
        What::Sections(count) => sections_of(*count),
        What::Single => single(),
        What::SingleWithWords => unordered(single_shape(true)),
    }
}

//! A member's own tests, by what it sees of its place among the shares.

ghost use Rattle.std.specs.Prelude.{◌≡◌, [], IfOk};
ghost use Rattle.gomp_types.specs.Tests.{first_holding, outcome};
ghost use Rattle.gomp_types.specs.Sections.{sections_shape, sections_tests};
ghost use Rattle.gomp_types.specs.Singles.{single_shape};
ghost use Rattle.gomp_shares.specs.Calls.{MayOpenAs};
ghost use Rattle.gomp_shares.specs.Starts.{start_tests};
ghost use Rattle.gomp_shares.specs.Singles.{put_tests};

use gomp_events::Seen;
use gomp_shares::admission::outside_refusal;
use gomp_types::{EndKind, Limits, Refusal, Shape, ShareKind, sections_shape, single_shape};

/// The shape of the share that a construct of so many sections gives a member which may start it, or
/// why it may not: `InsideShare`, `BadSections` or `TooManyShares`.
pub fn sections_start_shape(
    seen: &Seen,
    limits: &Limits,
    count: u32,
    end_kind: EndKind,
) -> Result<Shape, Refusal>
    ensures first { result ≡ outcome
        (first_holding (start_tests (sections_tests count) limits.now seen.now))
        (sections_shape count end_kind) }
    ensures place { IfOk result (MayOpenAs seen.now) }
{
    if seen.current.is_some() {
        return Err(Refusal::InsideShare);
    }
    match sections_shape(count, end_kind) {
        Ok(_) if seen.entered >= limits.shares as u64 => Err(Refusal::TooManyShares),
        Ok(shape) => Ok(shape),
        Err(refusal) => Err(refusal),
    }
}

/// Why a member may not start a construct of so many sections, as [`sections_start_shape`] says.
pub fn sections_start_refusal(seen: &Seen, limits: &Limits, count: u32) -> Option<Refusal>
    ensures first { result ≡
        first_holding (start_tests (sections_tests count) limits.now seen.now) }
{
    sections_start_shape(seen, limits, count, EndKind::Nowait).err()
}

/// The shape of the share that a `single` construct gives a member which may start it, with words
/// for the other members (`copies`) or without; or why it may not: `InsideShare` or
/// `TooManyShares`.
pub fn single_start_shape(seen: &Seen, limits: &Limits, copies: bool) -> Result<Shape, Refusal>
    ensures first { result ≡ outcome
        (first_holding (start_tests [] limits.now seen.now)) (single_shape copies) }
    ensures place { IfOk result (MayOpenAs seen.now) }
{
    match outside_refusal(seen, limits) {
        Some(refusal) => Err(refusal),
        None => Ok(single_shape(copies)),
    }
}

/// Why a member may not put the words of a `single`: `NotInside` if it does not execute one whose
/// words are still to be put.
pub fn single_copy_end_refusal(seen: &Seen) -> Option<Refusal>
    ensures first { result ≡ first_holding (put_tests seen.now) }
{
    let Some((_, shape)) = seen.current else {
        return Some(Refusal::NotInside);
    };
    if matches!(shape.kind, ShareKind::SingleCopy) && seen.piece.is_some() {
        return None;
    }
    Some(Refusal::NotInside)
}

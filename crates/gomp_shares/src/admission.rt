//! What a member's own place among the shares decides, whatever their body, and more than one crate
//! of calls needs: refusals of loops, sections and singles, and which iterations are left of a
//! piece.
//!
//! Nothing here asks the shares, so members on threads can use it with a seat of their own.

ghost use Rattle.std.specs.Prelude.{◌≡◌, IfNone, IfSome, ◌<◌, ◌^◌, [], Some, is_some};
ghost use Rattle.gomp_types.specs.Tests.{first_holding};
ghost use Rattle.gomp_events.specs.Ordered.{is_in_rest};
ghost use Rattle.gomp_shares.specs.Admission.{kinds_of, seen_in, in_part_of, next_tests_of, end_tests_of};
ghost use Rattle.gomp_shares.specs.Calls.{IsIn};
ghost use Rattle.gomp_shares.specs.Cancels.{cancel_place_tests};
ghost use Rattle.gomp_shares.specs.Starts.{start_tests};

use gomp_events::Seen;
use gomp_types::{CancelKind, EndKind, Limits, Refusal, Shape, ShareKind};

/// A construct whose pieces are asked for by calls of their own.
#[derive(Clone, Copy, Debug, PartialEq, Eq)]
pub enum Construct {
    /// A worksharing loop (OpenMP API 5.2, section 11.5).
    Loop,
    /// A sections construct (OpenMP API 5.2, section 11.3).
    Sections,
}

/// The shape of the share that a member which sees this of its place is in, if that is such a
/// construct.
fn shape_inside(seen: &Seen, construct: Construct) -> Option<Shape>
    ensures kind { is_some result ≡ seen_in (kinds_of construct) seen.now }
    ensures shape { IfSome result (λ shape. IsIn shape seen.now) }
{
    let (_, shape) = seen.current?;
    let is_one = match construct {
        Construct::Loop => shape.kind.is_loop(),
        Construct::Sections => matches!(shape.kind, ShareKind::Sections),
    };
    if is_one { Some(shape) } else { None }
}

/// Whether a member that sees this of its place is in an ordered part of such a construct; only
/// loops have them.
fn is_in_part(seen: &Seen, construct: Construct) -> bool
    ensures { result ≡ in_part_of construct seen.now }
{
    matches!(construct, Construct::Loop) && seen.in_part
}

/// Why a member may not start any more shares, or none from where it is: `InsideShare` or
/// `TooManyShares`.
pub fn outside_refusal(seen: &Seen, limits: &Limits) -> Option<Refusal>
    ensures first { result ≡ first_holding (start_tests [] limits.now seen.now) }
    ensures few { IfNone result (seen.now.entered < 2 ^ 32) }
{
    if seen.current.is_some() {
        return Some(Refusal::InsideShare);
    }
    if seen.entered >= limits.shares as u64 {
        return Some(Refusal::TooManyShares);
    }
    None
}

/// Why a member may not ask for the next piece of such a construct: `OutsideShare`, `InOrdered` or
/// `Drained`.
pub fn next_refusal(seen: &Seen, construct: Construct) -> Option<Refusal>
    ensures first { result ≡ first_holding (next_tests_of construct seen.now) }
{
    if shape_inside(seen, construct).is_none() {
        return Some(Refusal::OutsideShare);
    }
    if is_in_part(seen, construct) {
        return Some(Refusal::InOrdered);
    }
    if seen.drained {
        return Some(Refusal::Drained);
    }
    None
}

/// Why a member may not end such a construct by the call for this end kind, whatever is left of
/// it: `OutsideShare`, `InOrdered` or `EndDiffers`.
pub fn end_construct_refusal(
    seen: &Seen,
    construct: Construct,
    end_kind: EndKind,
) -> Option<Refusal>
    ensures first { result ≡ first_holding (end_tests_of construct end_kind seen.now) }
{
    let Some(shape) = shape_inside(seen, construct) else {
        return Some(Refusal::OutsideShare);
    };
    if is_in_part(seen, construct) {
        return Some(Refusal::InOrdered);
    }
    if shape.end_kind != end_kind {
        return Some(Refusal::EndDiffers);
    }
    None
}

/// Why a member may not cancel the share of this kind that it is in, nor ask whether that is
/// cancelled: `OutsideShare` if it is in none of that kind, or `NotCancellable` if the end kind does
/// not let it be cancelled (OpenMP API 5.2, section 16.1). No refusal if the kind names no share.
pub fn cancel_share_refusal(seen: &Seen, kind: CancelKind) -> Option<Refusal>
    ensures first { result ≡ first_holding (cancel_place_tests kind seen.now) }
{
    let construct = match kind {
        CancelKind::Loop => Construct::Loop,
        CancelKind::Sections => Construct::Sections,
        CancelKind::Parallel | CancelKind::Taskgroup => return None,
    };
    let Some(shape) = shape_inside(seen, construct) else {
        return Some(Refusal::OutsideShare);
    };
    if shape.end_kind != EndKind::Cancellable {
        return Some(Refusal::NotCancellable);
    }
    None
}

/// Whether the iteration lies in the member's piece, after those whose parts it has begun.
pub fn is_in_rest(seen: &Seen, iteration: u64) -> bool
    ensures { result ≡ is_in_rest seen.now.piece seen.now.next_part (Some iteration) }
{
    let Some((low, high)) = seen.piece else {
        return false;
    };
    low <= iteration && iteration < high && seen.next_part <= iteration
}

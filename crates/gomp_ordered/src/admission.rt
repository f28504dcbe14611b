//! A member's own tests, by what it sees of its place among the shares. Nothing here asks the
//! shares, so members on threads can use it with a seat of their own.

ghost use Rattle.std.specs.Prelude.{◌≡◌, IfOk, Some};
ghost use Rattle.std.specs.Result.{result_err};
ghost use Rattle.gomp_types.specs.Tests.{first_holding};
ghost use Rattle.gomp_shares.specs.Calls.{MayBeginAs};
ghost use Rattle.gomp_shares.specs.OrderedParts.{part_tests};
ghost use Rattle.gomp_ordered.specs.Iterations.{HasShape, seen_iteration};

use gomp_events::Seen;
use gomp_shares::admission::is_in_rest;
use gomp_types::Refusal;

/// The iteration with this value, whose ordered part the member may begin, or why it may not:
/// `OutsideShare`, `InOrdered`, `NotOrdered` or `OrderedBackwards`.
pub fn ordered_start_iteration(seen: &Seen, value: i64) -> Result<u64, Refusal>
    requires shape { HasShape seen.now }
    ensures first { result_err result ≡ first_holding (part_tests value seen.now) }
    ensures iteration { IfOk result (λ k. seen_iteration seen.now.current value ≡ Some k) }
    ensures place { IfOk result (MayBeginAs seen.now) }
{
    let Some((_, shape)) = seen.current else {
        return Err(Refusal::OutsideShare);
    };
    if !shape.kind.is_loop() {
        return Err(Refusal::OutsideShare);
    }
    if seen.in_part {
        return Err(Refusal::InOrdered);
    }
    if !shape.ordered {
        return Err(Refusal::NotOrdered);
    }
    match shape.iteration_of(value) {
        Some(iteration) if is_in_rest(seen, iteration) => Ok(iteration),
        _ => Err(Refusal::OrderedBackwards),
    }
}

/// Why a member may not begin the ordered part of the iteration with this value, as [`ordered_start_iteration`]
/// says.
pub fn ordered_start_refusal(seen: &Seen, value: i64) -> Option<Refusal>
    requires shape { HasShape seen.now }
    ensures first { result ≡ first_holding (part_tests value seen.now) }
{
    ordered_start_iteration(seen, value).err()
}

//! How a team is made: a ring, and a member on it for each place.

ghost use Rattle.std.specs.Prelude.{◌≡◌, ◌<◌, false, IfSome};
ghost use Rattle.std.specs.Arc.{arc_value};
ghost use Rattle.gomp_types.specs.Values.{IsShape};
ghost use Rattle.gomp_ring.specs.RingSeats.{IsOnRing};

use crate::member::ClaimMember;
use gomp_ring::{Ring, RingSeat};
use gomp_types::{EndKind, LoopDesc, Sched, Shape};
use std::alloc::Global;
use std::sync::Arc;

/// The shape of a dynamic loop from 0 to `end` in pieces of `chunk`, with nothing at its end; none if no loop has it.
pub fn dynamic_loop(end: i64, chunk: i64) -> Option<Shape>
    ensures valid { IfSome result IsShape }
    ensures plain { IfSome result (λ shape. shape.ordered ≡ false) }
{
    let desc = LoopDesc {
        start: 0,
        end,
        incr: 1,
        sched: Sched::Dynamic,
        chunk,
        ordered: false,
        end_kind: EndKind::Nowait,
    };
    desc.shape().ok()
}

/// A member with this seat, on the heap; none if memory is refused.
fn member_of(
    alloc: Global,
    ring: Arc<Ring>,
    seat: RingSeat,
    shape: Shape,
) -> Option<Box<ClaimMember>>
    requires on { IsOnRing (arc_value ring) seat }
    requires place { seat.member < seat.members }
    requires valid { IsShape shape }
    requires plain { shape.ordered ≡ false }
{
    Box::new(alloc, ClaimMember { ring, seat, shape }).ok()
}

/// Makes a ring and a member for each place, of which the last one made is member 0. False if memory is refused, or there are no
/// places, or more than 64.
pub fn make_team(alloc: Global, shape: Shape, places: &mut [*mut u8]) -> bool
    requires valid { IsShape shape }
    requires plain { shape.ordered ≡ false }
{
    if places.is_empty() || places.len() > 64 {
        return false;
    }
    let Ok((ring, mut first)) = Ring::new(alloc, places.len() as u16) else {
        return false;
    };
    let Ok(ring) = Arc::new(alloc, ring) else {
        return false;
    };
    for place in 1..places.len() {
        let Some(seat) = first.split(&ring) else {
            return false;
        };
        let Ok(other) = Arc::try_clone(&ring) else {
            return false;
        };
        let Some(member) = member_of(alloc, other, seat, shape) else {
            return false;
        };
        places[place] = Box::into_raw(member).cast();
    }
    let Some(member) = member_of(alloc, ring, first, shape) else {
        return false;
    };
    places[0] = Box::into_raw(member).cast();
    true
}

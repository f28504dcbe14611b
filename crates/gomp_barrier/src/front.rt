//! The seats of a team's members at its barriers, and the barrier that the slowest come to next.
//!
//! No member is two barriers ahead of another, so it is enough to know of each whether it is ahead
//! of the slowest, which the parities tell. One that has passed the end of a cancelled region is a
//! barrier further than that; its seat tells so too.

ghost use Rattle.std.specs.Prelude.{◌≡◌, ◌↔◌, IsTrue, All};
ghost use Rattle.gomp_events.specs.Events.{was_region_end};
ghost use Rattle.gomp_barrier.specs.Seats.{is_ahead, has_odd_number, tag_for, number_for, IsThere, has_come_to_end, AllAhead, SomeBehind, arrived_at, passed_by, gone_from, next_front};

use gomp_events::{Arrival, Tag};

/// A member's seat at the barriers.
#[derive(Clone, Copy, Debug, PartialEq, Eq)]
pub struct BarrierSeat {
    /// Whether it has passed an odd number of barriers, the end of a cancelled region apart.
    pub odd: bool,
    /// With which tag it has arrived at its next barrier: none if it has not.
    pub arrived: Option<Tag>,
    /// Whether it has passed the region's end.
    pub left: bool,
    /// Whether it did so once the region was cancelled: then no front moves on.
    pub gone: bool,
}

/// The barrier that the slowest members come to next.
#[derive(Clone, Copy, Debug, PartialEq, Eq)]
pub struct Front {
    /// Whether its number is odd.
    pub odd: bool,
    /// Its number, which stays at the largest one of its type.
    pub number: u64,
    /// With which tag members have arrived at it.
    pub tag: Option<Tag>,
    /// With which tag members that have passed it arrived at the one after it.
    pub next: Option<Tag>,
}

/// Whether the member has passed the front. A pass of a cancelled region's end does not count here.
#[inline(always)]
pub fn is_ahead(front: &Front, member: &BarrierSeat) -> bool
    ensures { result ≡ is_ahead front.now member.now }
{
    member.odd != front.odd
}

/// Whether the member has passed an odd number of barriers.
pub fn has_odd_number(member: &BarrierSeat) -> bool
    ensures { result ≡ has_odd_number member.now }
{
    member.odd != member.gone
}

/// With which tag any member has arrived at the member's next barrier: none if nobody has.
#[inline(always)]
pub fn tag_for(front: &Front, member: &BarrierSeat) -> Option<Tag>
    ensures { result ≡ tag_for front.now member.now }
{
    if member.gone {
        if is_ahead(front, member) {
            None
        } else {
            front.next
        }
    } else if is_ahead(front, member) {
        front.next
    } else {
        front.tag
    }
}

/// The number of the member's next barrier.
#[inline(always)]
pub fn number_for(front: &Front, member: &BarrierSeat) -> u64
    ensures { result ≡ number_for front.now member.now }
{
    if member.gone {
        if is_ahead(front, member) {
            front.number.saturating_add(2)
        } else {
            front.number.saturating_add(1)
        }
    } else if is_ahead(front, member) {
        front.number.saturating_add(1)
    } else {
        front.number
    }
}

/// Whether every member has arrived at the front.
pub fn all_there(front: &Front, members: &[BarrierSeat]) -> bool
    ensures { IsTrue result ↔ All (IsThere front.now) members.now }
{
    members.iter().all(|member| is_ahead(front, member) || member.arrived.is_some())
}

/// The front after the member has arrived with this tag at its next barrier.
pub fn arrived_at(front: &Front, member: &BarrierSeat, tag: Tag) -> Front
    ensures { result ≡ arrived_at front.now member.now tag }
{
    if is_ahead(front, member) {
        Front {
            odd: front.odd,
            number: front.number,
            tag: front.tag,
            next: Some(tag),
        }
    } else {
        Front {
            odd: front.odd,
            number: front.number,
            tag: Some(tag),
            next: front.next,
        }
    }
}

/// The member after it has passed its next barrier.
pub fn passed_by(member: &BarrierSeat, at_region_end: bool) -> BarrierSeat
    ensures { result ≡ passed_by member.now at_region_end }
{
    BarrierSeat {
        odd: !member.odd,
        arrived: None,
        left: member.left || at_region_end,
        gone: member.gone,
    }
}

/// The member after it has passed the end of a cancelled region.
pub fn gone_from(member: &BarrierSeat) -> BarrierSeat
    ensures { result ≡ gone_from member.now }
{
    BarrierSeat {
        odd: member.odd,
        arrived: None,
        left: true,
        gone: true,
    }
}

/// The front after members have passed: the next barrier, once all have passed this one.
pub fn front_after(front: &Front, members: &[BarrierSeat]) -> Front
    ensures moved { AllAhead front.now members.now → result ≡ next_front front.now }
    ensures stays { SomeBehind front.now members.now → result ≡ front.now }
{
    if members.iter().all(|member| is_ahead(front, member)) {
        Front {
            odd: !front.odd,
            number: front.number.saturating_add(1),
            tag: front.next,
            next: None,
        }
    } else {
        *front
    }
}

/// Whether the member has arrived at the region's end, or has passed it.
pub fn has_come_to_end(member: &BarrierSeat) -> bool
    ensures { result ≡ has_come_to_end member.now }
{
    member.left || ends_region(member.arrived)
}

/// Whether an arrival is at the region's end.
pub fn ends_region(arrived: Option<Tag>) -> bool
    ensures { result ≡ was_region_end arrived }
{
    match arrived {
        Some(tag) => matches!(tag.kind, Arrival::RegionEnd),
        None => false,
    }
}

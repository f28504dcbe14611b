//! A team whose members' seats are all in one place, for one thread.

ghost use Rattle.gomp_ring.specs.RingSeats.{AreAllSeats};

use crate::calls::{Ask, Heard, hear};
use gomp_ring::{Ring, RingSeat};
use gomp_seats::SeatedRing;

/// This member looks, and then asks for this. None if there is no such member.
pub(crate) fn hear_member(team: &mut SeatedRing, member: usize, ask: &Ask) -> Option<Heard> {
    hear_at(&team.ring, &mut team.seats, member, ask)
}

/// The member at this place looks, and then asks for this. None if there is none.
fn hear_at(ring: &Ring, seats: &mut Vec<RingSeat>, member: usize, ask: &Ask) -> Option<Heard>
    requires all { AreAllSeats ring.now seats.old.items }
    ensures all { AreAllSeats ring.now seats.new.items }
{
    if member < seats.len() {
        return Some(hear(ring, &mut seats[member], ask));
    }
    None
}

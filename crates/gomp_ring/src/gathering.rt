//! The end of a team's work: the seats of all members are joined, and what they took is added up.

ghost use Rattle.std.specs.Prelude.{◌≡◌, length, IfOk, IfErr};
ghost use Rattle.gomp_ring.specs.Rings.{ring_members};
ghost use Rattle.gomp_ring.specs.RingSeats.{AreAllSeats, Gathers};

use crate::ring::Ring;
use crate::ring_seat::RingSeat;
use gomp_slots::{join_seats, settle};
use std::alloc::{AllocError, Global};
use std::marker::Brand;

/// What a team's members did with its work-shares.
#[derive(Debug, Drop)]
pub struct Gathered {
    /// How many shares all members have left: those of the numbers below this one.
    pub shares: u64,
    /// How many iterations of loops each member took, by its number.
    pub taken: Vec<u128>,
}

/// Joins the seats of all members, in the order of their numbers, and adds up what they took.
///
/// The memory is taken first: if it is refused (E37), the seats are handed back as they were.
pub fn gather(
    alloc: Global,
    ring: &Ring,
    seats: Vec<RingSeat>,
) -> Result<Gathered, (AllocError, Vec<RingSeat>)>
    requires seats { AreAllSeats ring.now seats.items }
    ensures gathered { IfOk result (λ all.
        Gathers (ring_members ring.now) seats.items all.shares all.taken.items) }
    ensures refused { IfErr result (λ back. back.1.items ≡ seats.items) }
{
    let taken = match vec![in alloc; 0u128; seats.len()] {
        Ok(taken) => taken,
        Err(refused) => return Err((refused, seats)),
    };
    Ok(gather_in(ring, seats, taken))
}

/// The same with a list that was made earlier, of as many numbers as there are seats, in which each member's number of iterations is
/// noted. It takes no memory.
pub fn gather_in(ring: &Ring, seats: Vec<RingSeat>, mut taken: Vec<u128>) -> Gathered
    requires seats { AreAllSeats ring.now seats.items }
    requires taken { length taken.items ≡ length seats.items }
    ensures gathered { Gathers (ring_members ring.now) seats.items result.shares
        result.taken.items }
{
    let mut rest = seats;
    let (mut whole, mut shares, iterations) = rest.remove(0).into_parts();
    taken[0] = iterations;
    let mut joined = 1;
    while !rest.is_empty() {
        let (seat, left, iterations) = rest.remove(0).into_parts();
        join_seats(&ring.slots, &mut whole, seat);
        shares = shares.min(left);
        taken[joined] = iterations;
        joined += 1;
    }
    settle::<Brand>(&ring.slots, &mut whole);
    Gathered { shares, taken }
}

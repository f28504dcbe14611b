//! The ring of a new team, with the seats of all members: those of the others are split from that of member 0.
#![tactic(auto)]

ghost use Rattle.std.specs.Prelude.{IfOk};
ghost use Rattle.gomp_types.specs.Limits.{IsTeamSize};
ghost use Rattle.gomp_ring.specs.RingSeats.{AreAllSeats, IsNewRing};
ghost use Rattle.gomp_seats.specs.NewSeats.{AreNewSeats};

use gomp_ring::{Ring, RingSeat};
use std::alloc::{AllocError, Global};

/// A ring, and the seats of all members of its team, that of member `m` at place `m`.
#[derive(Drop)]
pub struct SeatedRing {
    pub ring: Ring,
    pub seats: Vec<RingSeat>,
    ghost all: { AreAllSeats ring seats.items },
}

impl SeatedRing {
    /// That of a new team of 1 to 64 members. Only this call takes memory; the error is that it is refused (E37).
    pub fn new(alloc: Global, members: u16) -> Result<SeatedRing, AllocError>
        requires team { IsTeamSize members }
        ensures seats { IfOk result (λ team. AreNewSeats members team.ring team.seats.items) }
    {
        let (ring, first) = Ring::new(alloc, members)?;
        let seats = split_all(alloc, &ring, first, members)?;
        Ok(SeatedRing { ring, seats })
    }
}

/// The seats of all members of a new ring, of which the first one is given.
fn split_all(
    alloc: Global,
    ring: &Ring,
    mut first: RingSeat,
    members: u16,
) -> Result<Vec<RingSeat>, AllocError>
    requires team { IsTeamSize members }
    requires ring { IsNewRing members ring.now first }
    ensures seats { IfOk result (λ seats. AreNewSeats members ring.now seats.items) }
{
    let mut others = Vec::new(alloc);
    for _ in 1..members {
        let Some(seat) = first.split(ring) else {
            unreachable!()
        };
        others.push(seat)?;
    }
    let mut seats = Vec::new(alloc);
    seats.push(first)?;
    seats.append(&mut others)?;
    Ok(seats)
}

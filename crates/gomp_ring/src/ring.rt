//! The ring of a team: its slots, on which the seats of its members are.

ghost use Rattle.std.specs.Prelude.{IfOk};
ghost use Rattle.gomp_types.specs.Limits.{IsTeamSize};
ghost use Rattle.gomp_ring.specs.RingSeats.{IsNewRing};

use crate::ring_seat::{RingSeat, fresh_seat};
use gomp_slots::Slots;
use gomp_slots::new_table::new_table;
use std::alloc::{AllocError, Global};

/// The work-shares of a team, which the seats of all its members share.
#[derive(Drop)]
pub struct Ring {
    pub(crate) slots: Slots,
}

impl Ring {
    /// The ring of a new team of 1 to 64 members, and the seat of member 0, from which those of the others are split. Only this
    /// call takes memory; the error is that it is refused (E37).
    pub fn new(alloc: Global, members: u16) -> Result<(Ring, RingSeat), AllocError>
        requires team { IsTeamSize members }
        ensures ring { IfOk result (λ made. IsNewRing members made.0 made.1) }
    {
        let (slots, seat) = new_table(alloc, members)?;
        Ok((Ring { slots }, fresh_seat(seat, members, 0, 1)))
    }
}

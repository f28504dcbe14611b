//! What one member has: the ring of its team and its seat.

ghost use Rattle.std.specs.Prelude.{◌≡◌, ◌<◌, false};
ghost use Rattle.std.specs.Arc.{arc_value};
ghost use Rattle.gomp_types.specs.Values.{IsShape};
ghost use Rattle.gomp_ring.specs.RingSeats.{IsOnRing};

use gomp_ring::{Ring, RingSeat};
use gomp_types::Shape;
use std::sync::Arc;

/// A member of a team. The seats of all members of one team are on one ring.
#[derive(Drop)]
pub struct ClaimMember {
    /// The work-shares of its team.
    pub ring: Arc<Ring>,
    /// Its seat there.
    pub seat: RingSeat,
    /// The shape of the team's loop.
    pub shape: Shape,
    ghost on: { IsOnRing (arc_value ring) seat },
    ghost place: { seat.member < seat.members },
    ghost valid: { IsShape shape },
    ghost plain: { shape.ordered ≡ false },
}

/// What a member did at a `single`.
#[repr(C)]
#[derive(Drop)]
pub struct Passed {
    /// Whether it went through.
    pub done: bool,
    /// Whether it executes the body; false if it did not go through.
    pub executes: bool,
}

/// Whether a call did what it was asked.
#[repr(C)]
#[derive(Drop)]
pub struct Done {
    pub done: bool,
}

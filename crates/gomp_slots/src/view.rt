//! What a seat of the slots knows, as plain data: the ghost value of the seat, which its steps change.

use gomp_events::Event;
use gomp_types::Shape;
use std::collections::LinkedList;

/// What the slots are told when they are made.
#[derive(Clone, Copy)]
pub struct TeamSize {
    /// How many members the team has, 1 to 64.
    pub members: u64,
}

/// What a seat knows of the team's events. No value of it is made: contracts alone speak of it.
pub struct View {
    /// Whether the seat was never split and never joined with another: it is the only one, and it knows every event of the team.
    pub alone: bool,
    /// The seat acts for the members of these numbers, from 0, and no other seat acts for one of them.
    pub mine: LinkedList<u64>,
    /// These members did this, as far as the seat knows, the newest event first.
    pub did: LinkedList<Event>,
    /// The seat opens the share of this number, or looks at it; if it does neither, the number says nothing.
    pub share: u64,
    /// The seat has taken the slot for a share of this shape, and has not opened the share yet.
    pub opening: Option<Shape>,
    /// So many words of the share that the seat opens, 0 to 5, stand in the slot: the seat stored them, or found them equal.
    pub stored: u64,
    /// The seat has seen that the share that it looks at is open, and that it is of this shape.
    pub found: Option<Shape>,
}

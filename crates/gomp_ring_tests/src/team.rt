//! A team whose members' seats are all in one place, for one thread.

ghost use Rattle.gomp_types.specs.Limits.{IsTeamSize};
ghost use Rattle.gomp_ring.specs.RingSeats.{AreAllSeats};

use crate::checks::{AMPLE, same};
use crate::constructs::Construct;
use crate::members::{claim_next, leave, open_next, pass_next};
use gomp_events::Seen;
use gomp_ring::{Entry, Gathered, Passage, Piece, Ring, RingSeat, gather};
use gomp_seats::SeatedRing;
use std::alloc::{AllocError, Global};
use std::process::Abort;

/// A ring and the seats of all members, each at its number.
#[derive(Drop)]
pub(crate) struct Team {
    pub(crate) ring: Ring,
    pub(crate) seats: Vec<RingSeat>,
    ghost all: { AreAllSeats ring seats.items },
}

/// A new team of so many.
pub(crate) fn new_team(alloc: Global, members: u16) -> Result<Team, AllocError>
    requires team { IsTeamSize members }
{
    let SeatedRing { ring, seats } = SeatedRing::new(alloc, members)?;
    Ok(Team { ring, seats })
}

impl Team {
    /// This member opens its next share. None if it may not.
    pub(crate) fn open(&mut self, member: usize, construct: &Construct) -> Option<Entry> {
        open_at(&self.ring, &mut self.seats, member, construct)
    }

    /// This member goes through its next share, a `single` without words. None if it may not.
    pub(crate) fn pass(&mut self, member: usize) -> Option<Passage> {
        pass_at(&self.ring, &mut self.seats, member)
    }

    /// This member claims its next piece, if it may.
    pub(crate) fn claim(&mut self, member: usize) -> Piece {
        claim_at(&self.ring, &mut self.seats, member)
    }

    /// This member leaves its share. False if it may not.
    pub(crate) fn leave(&mut self, member: usize) -> bool {
        leave_at(&self.ring, &mut self.seats, member)
    }

    /// What this member sees, if there is one of this number.
    pub(crate) fn seen(&self, member: usize) -> Option<Seen> {
        let seat = self.seats.get(member)?;
        Some(seat.seen())
    }
}

/// What the members took. If memory is refused once, it is asked for again.
pub(crate) fn gathered(rt: &impl Abort, alloc: Global, team: Team) -> Gathered {
    let Team { ring, seats } = team;
    match gather(alloc, &ring, seats) {
        Ok(gathered) => gathered,
        Err((_, seats)) => gather(alloc, &ring, seats).ok().expect(rt, AMPLE),
    }
}

/// So many shares all members have left, and these are the iterations of loops that each took.
pub(crate) fn compare_sums(
    rt: &impl Abort,
    alloc: Global,
    team: Team,
    shares: u64,
    taken: &[u128],
    name: &str,
) {
    let all = gathered(rt, alloc, team);
    same(rt, &all.shares, &shares, name, shares);
    same(rt, &all.taken.as_slice(), &taken, name, shares);
}

/// So many shares all members have left, and so many iterations of loops they took together.
pub(crate) fn compare_totals(
    rt: &impl Abort,
    all: &Gathered,
    shares: u64,
    taken: u128,
    members: u16,
) {
    let size = members as u64;
    same(rt, &all.shares, &shares, "shares of a team of", size);
    same(rt, &(all.taken.len() as u64), &size, "members of", size);
    same(rt, &sum(&all.taken), &taken, "iterations of", size);
}

/// These numbers, added up; the largest one of the type if they are more.
fn sum(numbers: &[u128]) -> u128 {
    let mut all: u128 = 0;
    for number in numbers {
        all = all.saturating_add(*number);
    }
    all
}

/// The member at this place opens its next share. None if it may not, or if there is none.
fn open_at(
    ring: &Ring,
    seats: &mut Vec<RingSeat>,
    member: usize,
    construct: &Construct,
) -> Option<Entry>
    requires all { AreAllSeats ring.now seats.old.items }
    ensures all { AreAllSeats ring.now seats.new.items }
{
    if member < seats.len() {
        return open_next(ring, &mut seats[member], construct);
    }
    None
}

/// The member at this place goes through its next share, a `single` without words. None if it may not, or if there is none.
fn pass_at(ring: &Ring, seats: &mut Vec<RingSeat>, member: usize) -> Option<Passage>
    requires all { AreAllSeats ring.now seats.old.items }
    ensures all { AreAllSeats ring.now seats.new.items }
{
    if member < seats.len() {
        return pass_next(ring, &mut seats[member]);
    }
    None
}

/// The member at this place claims its next piece, if it may.
fn claim_at(ring: &Ring, seats: &mut Vec<RingSeat>, member: usize) -> Piece
    requires all { AreAllSeats ring.now seats.old.items }
    ensures all { AreAllSeats ring.now seats.new.items }
{
    if member < seats.len() {
        return claim_next(ring, &mut seats[member]);
    }
    Piece::NONE
}

/// The member at this place leaves its share. False if it may not, or if there is none.
fn leave_at(ring: &Ring, seats: &mut Vec<RingSeat>, member: usize) -> bool
    requires all { AreAllSeats ring.now seats.old.items }
    ensures all { AreAllSeats ring.now seats.new.items }
{
    if member < seats.len() {
        return leave(ring, &mut seats[member]);
    }
    false
}

//! Seats: one is split in two, two are joined, and one learns what the team has done.

ghost use Rattle.std.specs.Prelude.{◌≡◌, [], None};
ghost use Rattle.gomp_slots.specs.Calls.{Settles};
ghost use Rattle.gomp_slots.specs.Plays.{SettleStep};
ghost use Rattle.gomp_slots.specs.Premises.{IsSeatOf, slots_members};
ghost use Rattle.gomp_slots.specs.Seats.{kept_view, dealt_view, both_view, spent_view, IsSecondOnce, IsApart};

use crate::slots::{Chosen, Slots};
use crate::view::View;
use atomic_table::{Join, Play, Seat, Split};
use gomp_types::Shape;
use std::marker::PhantomData;

struct Deal;

impl Split<View> for Deal {
    ghost left = { kept_view };

    ghost right = { dealt_view };
}

struct Merge;

impl Join<View> for Merge {
    ghost both = { both_view };

    ghost spent = { spent_view };
}

struct Settlement<C> {
    chosen: PhantomData<C>,
}

impl<C: Chosen> Play<Shape, View> for Settlement<C> {
    ghost then = { SettleStep C.members };
}

/// A new seat, for the second of the members that this one acts for. Both know what this one knew; it opens no share.
pub fn split_seat(slots: &Slots, seat: &mut Seat<Shape, View>) -> Seat<Shape, View>
    requires seat { IsSeatOf slots.now seat.old }
    requires idle { seat.old.me.0.opening ≡ None }
    requires distinct { IsSecondOnce seat.old.me.0.mine }
    ensures tables { (seat.new.table_id ≡ seat.old.table_id) ×
        (result.table_id ≡ seat.old.table_id) }
    ensures views { (seat.new.me ≡ (kept_view seat.old.me.0, seat.old.me.1)) ×
        (result.me ≡ (dealt_view seat.old.me.0, [])) }
{
    slots.table.shared.split_seat::<Deal>(seat)
}

/// The seat takes in another of the same slots: it acts for the members of both, and knows what these did. Neither opens a share,
/// and neither knows events of the other's members.
pub fn join_seats(slots: &Slots, seat: &mut Seat<Shape, View>, other: Seat<Shape, View>)
    requires seats { IsSeatOf slots.now seat.old × IsSeatOf slots.now other × (other.me.1 ≡ []) }
    requires idle { (seat.old.me.0.opening ≡ None) × (other.me.0.opening ≡ None) }
    requires apart { IsApart seat.old.me.0 other.me.0 }
    ensures seat { (seat.new.table_id ≡ seat.old.table_id) ×
        (seat.new.me ≡ (both_view seat.old.me.0 other.me.0, seat.old.me.1)) }
{
    slots.table.shared.join_seat::<Merge>(seat, other);
}

/// At the moment of this call there is a list of the team's events that kept the rule of the work-shares, of which the seat knows
/// the events of its members. Nothing changes.
pub fn settle<C: Chosen>(slots: &Slots, seat: &mut Seat<Shape, View>)
    requires seat { IsSeatOf slots.now seat.old }
    requires size { slots_members slots.now ≡ C.members }
    ensures seat { (seat.new.table_id ≡ seat.old.table_id) × (seat.new.me ≡ seat.old.me) }
    ensures settled { Settles C.members seat.old.me.0 }
{
    slots.table.shared.load::<Settlement<C>>(seat, 0);
}

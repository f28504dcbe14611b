//! The starts of constructs that are shares: loops, sections and `single`.
//!
//! OpenMP API 5.2, sections 11.1, 11.3, 11.5 and 5.7.2; libgomp's `GOMP_loop_start`, `GOMP_sections_start`, `GOMP_single_start` and
//! `GOMP_single_copy_start`.

ghost use Rattle.std.specs.Prelude.{◌≡◌, IfOk};
ghost use Rattle.gomp_shares.specs.declared.admission.Construct.TheVariants.{Loop, Sections};
ghost use Rattle.gomp_types.specs.Tests.{first_holding, outcome};
ghost use Rattle.gomp_shares.specs.Calls.{CanOpen};
ghost use Rattle.gomp_shares.specs.Starts.{start_tests};
ghost use Rattle.gomp_team_shares.specs.Constructs.{construct_tests, construct_shape, construct_start_tests};
ghost use Rattle.gomp_ring.specs.RingSeats.{IsLawfulSeat, IsOnRing};
ghost use Rattle.std.specs.Result.{result_err};
ghost use Rattle.gomp_seat_calls.specs.Stays.{FindsRefusal, StaysSeat};
ghost use Rattle.gomp_seat_calls.specs.Next.{TakesPiece};
ghost use Rattle.gomp_seat_calls.specs.Starts.{EntersAnd, ExecutesOrWaits, IsStarted, StartsBySeat};

use crate::next::{take_chunk, take_section};
use crate::singles::{execute_or_wait, single_start_admitted};
use gomp_loops::admission::loop_start_shape;
use gomp_ring::{Entry, Ring, RingSeat};
use gomp_sections::admission::{sections_start_shape, single_start_shape};
use gomp_team_shares::ShareStart;
use gomp_types::{Limits, Refusal, Reply, Shape};

/// The shape of the share that the construct gives the member, if it may start it by its place, or why it may not: `InsideShare`,
/// `ZeroStep`, `BadChunk`, `LoopTooLong`, `BadSections` or `TooManyShares`.
pub fn start_shape(seat: &RingSeat, start: &ShareStart, limits: &Limits) -> Result<Shape, Refusal>
    ensures first { result ≡ outcome
        (first_holding (start_tests (construct_tests start.now) limits.now seat.now.seen))
        (construct_shape start.now) }
    ensures place { IfOk result (λ shape.
        CanOpen seat.now.members seat.now.member shape seat.now.seen) }
    ensures stands { IsLawfulSeat seat.now }
{
    let seen = seat.seen();
    match start {
        ShareStart::Loop(desc) => loop_start_shape(&seen, limits, desc),
        ShareStart::Sections { count, end_kind } => {
            sections_start_shape(&seen, limits, *count, *end_kind)
        }
        ShareStart::Single => single_start_shape(&seen, limits, false),
        ShareStart::SingleCopy => single_start_shape(&seen, limits, true),
    }
}

/// The same, but for `Mismatch` too: the team's share of this number is of another shape, by the members that entered it. Nothing
/// changes. One load of the share's gate, and four more if that does not tell the shape.
pub fn compared_shape(
    ring: &Ring,
    seat: &mut RingSeat,
    start: &ShareStart,
    limits: &Limits,
) -> Result<Shape, Refusal>
    requires ring { IsOnRing ring.now seat.old }
    ensures finds { FindsRefusal (construct_start_tests start.now limits.now) seat.old
        (result_err result) seat.new }
    ensures shape { IfOk result (λ shape. shape ≡ construct_shape start.now) }
    ensures place { IfOk result (λ shape.
        CanOpen seat.new.members seat.new.member shape seat.new.seen) }
{
    match start_shape(seat, start, limits) {
        Err(refusal) => Err(refusal),
        Ok(shape) => {
            if seat.differs(ring, &shape) {
                return Err(Refusal::Mismatch);
            }
            Ok(shape)
        }
    }
}

/// Starts the construct, which has this shape and which the member may start by its place ([`start_shape`]). The member enters its
/// next share, and is answered the first chunk or section, or whether it executes the `single`. In a `single` with words that
/// another member executes it waits for the words (`Wait`, [`awaits_payload`](crate::awaits_payload)).
///
/// `Wait` too, outside of every share, if some member has not left the share eight
/// before, or another is opening the share at this moment; `Mismatch` if the team's share of this number is another construct.
pub fn start_admitted(ring: &Ring, seat: &mut RingSeat, start: &ShareStart, shape: &Shape) -> Reply
    requires ring { IsOnRing ring.now seat.old }
    requires shape { shape.now ≡ construct_shape start.now }
    requires place { CanOpen seat.old.members seat.old.member shape.now seat.old.seen }
    ensures starts { StartsBySeat start.now seat.old result seat.new }
    ensures started { IsStarted result }
    ensures stays { StaysSeat seat.old seat.new }
{
    match start {
        ShareStart::Loop(_) => loop_start_admitted(ring, seat, shape),
        ShareStart::Sections { .. } => sections_start_admitted(ring, seat, shape),
        ShareStart::Single => single_start_admitted(ring, seat),
        ShareStart::SingleCopy => single_copy_start_admitted(ring, seat, shape),
    }
}

/// Enters a loop of this shape, and takes its first chunk.
fn loop_start_admitted(ring: &Ring, seat: &mut RingSeat, shape: &Shape) -> Reply
    requires ring { IsOnRing ring.now seat.old }
    requires place { CanOpen seat.old.members seat.old.member shape.now seat.old.seen }
    ensures enters { EntersAnd (TakesPiece Loop) shape.now seat.old result seat.new }
    ensures started { IsStarted result }
    ensures stays { StaysSeat seat.old seat.new }
{
    match seat.try_open(ring, shape) {
        Entry::Entered => take_chunk(ring, seat, shape),
        Entry::NotYet(_) => Reply::Wait,
        Entry::Differs => Reply::Refused(Refusal::Mismatch),
    }
}

/// Enters sections of this shape, and takes the first section.
fn sections_start_admitted(ring: &Ring, seat: &mut RingSeat, shape: &Shape) -> Reply
    requires ring { IsOnRing ring.now seat.old }
    requires place { CanOpen seat.old.members seat.old.member shape.now seat.old.seen }
    ensures enters { EntersAnd (TakesPiece Sections) shape.now seat.old result seat.new }
    ensures started { IsStarted result }
    ensures stays { StaysSeat seat.old seat.new }
{
    match seat.try_open(ring, shape) {
        Entry::Entered => take_section(ring, seat),
        Entry::NotYet(_) => Reply::Wait,
        Entry::Differs => Reply::Refused(Refusal::Mismatch),
    }
}

/// Enters a `single` with words, and executes it or waits for these.
fn single_copy_start_admitted(ring: &Ring, seat: &mut RingSeat, shape: &Shape) -> Reply
    requires ring { IsOnRing ring.now seat.old }
    requires place { CanOpen seat.old.members seat.old.member shape.now seat.old.seen }
    ensures enters { EntersAnd ExecutesOrWaits shape.now seat.old result seat.new }
    ensures started { IsStarted result }
    ensures stays { StaysSeat seat.old seat.new }
{
    match seat.try_open(ring, shape) {
        Entry::Entered => execute_or_wait(ring, seat),
        Entry::NotYet(_) => Reply::Wait,
        Entry::Differs => Reply::Refused(Refusal::Mismatch),
    }
}

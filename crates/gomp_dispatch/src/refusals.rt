//! Why a call is refused, layer by layer: by the member's place among the shares, and by how it
//! compares with other members' calls.

ghost use Rattle.std.specs.Prelude.{◌≡◌, ◌<◌, true, false, Some, None, Ok, IfOk};
ghost use Rattle.std.specs.Result.{result_err, result_map_both};
ghost use Rattle.gomp_types.specs.declared.call.Server.TheVariants.{Shares as OfShares, Team as Together};
ghost use Rattle.gomp_types.specs.Servers.{served_by};
ghost use Rattle.gomp_types.specs.Tests.{outcome};
ghost use Rattle.gomp_types.specs.declared.limits.Limits.{Limits};
ghost use Rattle.gomp_events.specs.Tags.{tag_differs, tag_with};
ghost use Rattle.gomp_events.specs.Events.{shares_entered, barriers_passed, tag_at};
ghost use Rattle.gomp_types.specs.Least.{lesser, least};
ghost use Rattle.gomp_types.specs.Limits.{shown_number};
ghost use Rattle.gomp_shares.specs.Calls.{EachStands};
ghost use Rattle.gomp_shares.specs.Starts.{compared_share};
ghost use Rattle.gomp_shares.specs.OrderedParts.{part_tests, part_end_tests};
ghost use Rattle.gomp_ordered.specs.Iterations.{HasShape};
ghost use Rattle.gomp_barrier.specs.Stands.{barrier_members};
ghost use Rattle.gomp_model.specs.Row.{drain_tests, place_tests};
ghost use Rattle.gomp_model.specs.Arrivals.{outside_tests, compared_arrival};
ghost use Rattle.gomp_model.specs.Calls.{row_of};
ghost use Rattle.gomp_dispatch.specs.Admission.{ByPlaceLeaving, EachPast, EachTested, WasPlaced};
ghost use Rattle.gomp_dispatch.specs.Answers.{BothStand, StartsShare, PlaceDecides, IsDrained, compared_start, later_tests};
ghost use Rattle.gomp_types.specs.declared.refusal.Place.TheVariants.{Share};

use crate::leaving::Leaving;
use gomp_barrier::Barriers;
use gomp_events::{Arrival, Seen, Tag};
use gomp_sections::admission::{single_copy_end_refusal, single_start_shape};
use gomp_shares::admission::{cancel_share_refusal, end_construct_refusal, next_refusal};
use gomp_shares::ends::drained_refusal;
use gomp_shares::{Construct, Shares};
use gomp_types::{Call, EndKind, Limits, Place, Refusal, Server, Shape};

/// What a call was admitted to, unless it is refused beside: then by the refusal with the lesser
/// number.
pub fn unless_refused(
    refusal: Option<Refusal>,
    admitted: Result<Option<Shape>, Refusal>,
) -> Result<Option<Shape>, Refusal>
    ensures least { result_err result ≡ lesser refusal (result_err admitted) }
    ensures admitted { IfOk result (λ starts. admitted ≡ Ok starts) }
{
    match (refusal, admitted) {
        (None, admitted) => admitted,
        (Some(refusal), Ok(_)) => Err(refusal),
        (Some(one), Err(other)) => {
            if one.number() <= other.number() {
                Err(one)
            } else {
                Err(other)
            }
        }
    }
}

/// The shape of the share that the call starts, if it starts one, unless one of its own tests
/// refuses it: those on the place of the member, numbered from 0, among the shares (E8 to E23,
/// E34), and the comparison with other members' calls (`Mismatch`). A call that is repeated
/// (`repeated`) is only compared: its place was tested when it was made. A member that leaves the
/// region (`leaving`) gives up its share at the region's end. What names and locks refuse is none
/// of this, nor what tasks and groups do ([`task_refusal`](crate::task_refusal); OpenMP API 5.2,
/// chapter 11 and sections 16.1 and 17.1).
pub fn call_shape<S: Shares>(
    shares: &mut S,
    barriers: &Barriers,
    limits: &Limits,
    member: u16,
    call: &Call,
    repeated: bool,
    leaving: Leaving,
) -> Result<Option<Shape>, Refusal>
    requires member { member < S.members shares.old }
    requires team { barrier_members barriers.now ≡ S.members shares.old }
    requires place { WasPlaced repeated (row_of call.now) limits.now (S.seen shares.old member) }
    ensures kept { shares.new ≡ shares.old }
    ensures least { EachTested limits.now leaving member
        (BothStand S.stands shares.old barriers.now)
        (λ p. result_err result ≡ least (place_tests repeated (row_of call.now) member p)) }
    ensures starts { IfOk result (StartsShare (row_of call.now) (S.seen shares.old member)) }
    ensures drained { IfOk result (λ starts.
        IsDrained repeated (row_of call.now) S.stands shares.old member) }
{
    let starts = match place_leaving_shape(shares, limits, member, call, leaving) {
        Ok(starts) => starts,
        // A member that waits at a barrier may have left its place.
        Err(_) if repeated => None,
        Err(refusal) => return Err(refusal),
    };
    match later_refusal(shares, barriers, member, call, &starts, repeated) {
        Some(refusal) => Err(refusal),
        None => Ok(starts),
    }
}

/// The shape of the share that the call starts, if it starts one, if the member may make it from
/// its place among the shares, or gives up its share by it (`leaving`).
fn place_leaving_shape<S: Shares>(
    shares: &S,
    limits: &Limits,
    member: u16,
    call: &Call,
    leaving: Leaving,
) -> Result<Option<Shape>, Refusal>
    requires member { member < S.members shares.now }
    ensures place { ByPlaceLeaving leaving member (row_of call.now) limits.now
        (S.seen shares.now member) (result_err result) }
    ensures starts { IfOk result (StartsShare (row_of call.now) (S.seen shares.now member)) }
    ensures stays { (row_of call.now).stays ≡ true → result_err result ≡
        least ((row_of call.now).by_place limits.now (S.seen shares.now member)) }
    ensures leaving { (row_of call.now).stays ≡ false → (row_of call.now).starts ≡ None }
{
    // Whether the member leaves anything was asked of every call; that it is the region matters to its end alone.
    if leaving.region && matches!(call, Call::RegionEnd) {
        return Ok(None);
    }
    place_shape(shares, limits, member, call)
}

/// The shape of the share that the call starts, if it starts one, if the member may make it from
/// its place among the shares.
fn place_shape<S: Shares>(
    shares: &S,
    limits: &Limits,
    member: u16,
    call: &Call,
) -> Result<Option<Shape>, Refusal>
    requires member { member < S.members shares.now }
    ensures { PlaceDecides (row_of call.now) limits.now (S.seen shares.now member) result }
{
    let seen = shares.look(member);
    match call.served_by() {
        Server::Shares => share_shape(&seen, limits, call),
        Server::Team => together_shape(&seen, limits, call),
        Server::Board | Server::Book => Ok(None),
    }
}

/// The same of a call that the shares answer.
fn share_shape(seen: &Seen, limits: &Limits, call: &Call) -> Result<Option<Shape>, Refusal>
    requires served { served_by call.now ≡ OfShares }
    requires shape { HasShape seen.now }
    ensures { PlaceDecides (row_of call.now) limits.now seen.now result }
{
    match call {
        Call::LoopStart(desc) => {
            share_started(gomp_loops::admission::loop_start_shape(seen, limits, desc))
        }
        Call::SectionsStart { count, end_kind } => {
            share_started(gomp_sections::admission::sections_start_shape(
                seen, limits, *count, *end_kind,
            ))
        }
        Call::SingleStart => share_started(single_start_shape(seen, limits, false)),
        Call::LoopNext => none_started(next_refusal(seen, Construct::Loop)),
        Call::LoopEndNowait => none_started(end_construct_refusal(
            seen,
            Construct::Loop,
            EndKind::Nowait,
        )),
        Call::SectionsNext => none_started(next_refusal(seen, Construct::Sections)),
        Call::SectionsEndNowait => {
            none_started(end_construct_refusal(seen, Construct::Sections, EndKind::Nowait))
        }
        Call::OrderedStart(value) => none_started(ordered_start_refusal(seen, *value)),
        Call::OrderedEnd => none_started(ordered_end_refusal(seen)),
        Call::Cancel { kind, .. } => none_started(cancel_share_refusal(seen, *kind)),
        Call::Point(kind) => none_started(cancel_share_refusal(seen, *kind)),
        _ => unreachable!(),
    }
}

/// The same of a call that arrives at a barrier or copies words, or of a resume.
fn together_shape(seen: &Seen, limits: &Limits, call: &Call) -> Result<Option<Shape>, Refusal>
    requires served { served_by call.now ≡ Together }
    ensures { PlaceDecides (row_of call.now) limits.now seen.now result }
{
    match call {
        Call::LoopEnd => none_started(end_construct_refusal(seen, Construct::Loop, EndKind::Wait)),
        Call::LoopEndCancel => {
            none_started(end_construct_refusal(seen, Construct::Loop, EndKind::Cancellable))
        }
        Call::SectionsEnd => none_started(end_construct_refusal(
            seen,
            Construct::Sections,
            EndKind::Wait,
        )),
        Call::SectionsEndCancel => {
            none_started(end_construct_refusal(seen, Construct::Sections, EndKind::Cancellable))
        }
        Call::SingleCopyStart => share_started(single_start_shape(seen, limits, true)),
        Call::SingleCopyEnd(_) => none_started(single_copy_end_refusal(seen)),
        Call::Barrier | Call::RegionEnd => none_started(barrier_refusal(seen)),
        _ => Ok(None),
    }
}

/// A call that starts a share of this shape, unless it is refused.
fn share_started(shape: Result<Shape, Refusal>) -> Result<Option<Shape>, Refusal>
    ensures { result ≡ result_map_both (λ s. Some s) (λ refusal. refusal) shape }
{
    match shape {
        Ok(shape) => Ok(Some(shape)),
        Err(refusal) => Err(refusal),
    }
}

/// A call that starts no share, unless it is refused.
fn none_started(refusal: Option<Refusal>) -> Result<Option<Shape>, Refusal>
    ensures { result ≡ outcome refusal None }
{
    match refusal {
        Some(refusal) => Err(refusal),
        None => Ok(None),
    }
}

/// Why the member may not begin the ordered part of the iteration with this value: `OutsideShare`,
/// `InOrdered`, `NotOrdered` or `OrderedBackwards`.
fn ordered_start_refusal(seen: &Seen, value: i64) -> Option<Refusal>
    requires shape { HasShape seen.now }
    ensures { result ≡ least (part_tests value seen.now) }
{
    gomp_ordered::admission::ordered_start_refusal(seen, value)
}

/// Why the member may not end an ordered part: `NotInside`.
fn ordered_end_refusal(seen: &Seen) -> Option<Refusal>
    ensures { result ≡ least (part_end_tests seen.now) }
{
    if seen.in_part {
        None
    } else {
        Some(Refusal::NotInside)
    }
}

/// Why the member may not arrive at a barrier, or at the region's end: `InsideShare`.
#[inline(always)]
pub(crate) fn barrier_refusal(seen: &Seen) -> Option<Refusal>
    ensures { result ≡ least (outside_tests seen.now) }
{
    if seen.current.is_some() {
        Some(Refusal::InsideShare)
    } else {
        None
    }
}

/// Why the call is refused behind the tests of the member's place: `NotDrained`, or by the
/// comparison with other members' calls. A call that is repeated (`repeated`) is only compared.
fn later_refusal<S: Shares>(
    shares: &mut S,
    barriers: &Barriers,
    member: u16,
    call: &Call,
    starts: &Option<Shape>,
    repeated: bool,
) -> Option<Refusal>
    requires starts { starts.now ≡ (row_of call.now).starts }
    requires member { member < S.members shares.old }
    requires team { barrier_members barriers.now ≡ S.members shares.old }
    ensures kept { shares.new ≡ shares.old }
    ensures later { EachPast (BothStand S.stands shares.old barriers.now)
        (λ p. result ≡ least (later_tests repeated (row_of call.now) member p)) }
    ensures drained { result ≡ None →
        IsDrained repeated (row_of call.now) S.stands shares.old member }
{
    if repeated {
        return compared_refusal(shares, barriers, member, call, starts, true);
    }
    if let Some(refusal) = share_end_refusal(shares, member, call) {
        return Some(refusal);
    }
    compared_refusal(shares, barriers, member, call, starts, false)
}

/// Why the call does not end the member's share: `NotDrained`, if it is an end, the member was not
/// answered that nothing is left, and the share is not cancelled.
fn share_end_refusal<S: Shares>(shares: &mut S, member: u16, call: &Call) -> Option<Refusal>
    requires member { member < S.members shares.old }
    ensures kept { shares.new ≡ shares.old }
    ensures drains { EachStands (S.stands shares.old)
        (λ h. result ≡ least (drain_tests (row_of call.now).drains member h)) }
{
    if !drains(call) {
        return None;
    }
    let seen = shares.look(member);
    drained_refusal(shares, member, &seen)
}

/// Whether the call ends a loop or sections.
fn drains(call: &Call) -> bool
    ensures { result ≡ (row_of call.now).drains }
{
    matches!(
        call,
        Call::LoopEnd
            | Call::LoopEndNowait
            | Call::LoopEndCancel
            | Call::SectionsEnd
            | Call::SectionsEndNowait
            | Call::SectionsEndCancel
    )
}

/// Why the call, which starts a share of this shape if it starts one, is refused when it is
/// compared with other members': `Mismatch` if its construct is another, and for a resume with no
/// wait open `NotInside`.
fn compared_refusal<S: Shares>(
    shares: &mut S,
    barriers: &Barriers,
    member: u16,
    call: &Call,
    starts: &Option<Shape>,
    repeated: bool,
) -> Option<Refusal>
    requires member { member < S.members shares.old }
    requires team { barrier_members barriers.now ≡ S.members shares.old }
    requires starts { starts.now ≡ (row_of call.now).starts }
    ensures kept { shares.new ≡ shares.old }
    ensures compared { EachPast (BothStand S.stands shares.old barriers.now)
        (λ p. result ≡ least ((row_of call.now).compared repeated member p)) }
{
    match call.served_by() {
        Server::Shares => compared_start_refusal(shares, member, starts),
        Server::Team => compared_together_refusal(shares, barriers, member, call, starts, repeated),
        Server::Board | Server::Book => None,
    }
}

/// Why the call, which starts a share of this shape if it starts one, is refused when that is
/// compared.
fn compared_start_refusal<S: Shares>(
    shares: &mut S,
    member: u16,
    starts: &Option<Shape>,
) -> Option<Refusal>
    requires member { member < S.members shares.old }
    ensures kept { shares.new ≡ shares.old }
    ensures compared { EachStands (S.stands shares.old)
        (λ h. result ≡ least (compared_start starts.now member h)) }
{
    match starts {
        Some(shape) => compared_share_refusal(shares, member, shape),
        None => None,
    }
}

/// The same of a call that arrives at a barrier or copies words, or of a resume.
fn compared_together_refusal<S: Shares>(
    shares: &mut S,
    barriers: &Barriers,
    member: u16,
    call: &Call,
    starts: &Option<Shape>,
    repeated: bool,
) -> Option<Refusal>
    requires member { member < S.members shares.old }
    requires team { barrier_members barriers.now ≡ S.members shares.old }
    requires served { served_by call.now ≡ Together }
    requires starts { starts.now ≡ (row_of call.now).starts }
    ensures kept { shares.new ≡ shares.old }
    ensures compared { EachPast (BothStand S.stands shares.old barriers.now)
        (λ p. result ≡ least ((row_of call.now).compared repeated member p)) }
{
    match call {
        Call::LoopEnd | Call::LoopEndCancel | Call::SectionsEnd | Call::SectionsEndCancel => {
            compared_arrival_refusal(shares, barriers, member, Arrival::ShareEnd, repeated)
        }
        Call::Barrier => compared_arrival_refusal(
            shares,
            barriers,
            member,
            Arrival::Barrier,
            repeated,
        ),
        Call::RegionEnd => compared_arrival_refusal(
            shares,
            barriers,
            member,
            Arrival::RegionEnd,
            repeated,
        ),
        Call::Resume => Some(Refusal::NotInside),
        _ => compared_start_refusal(shares, member, starts),
    }
}

/// Why the member may not start a construct of this shape next: `Mismatch` if the team's share is
/// of another one.
fn compared_share_refusal<S: Shares>(shares: &mut S, member: u16, shape: &Shape) -> Option<Refusal>
    requires member { member < S.members shares.old }
    ensures kept { shares.new ≡ shares.old }
    ensures compared { EachStands (S.stands shares.old)
        (λ h. result ≡ least (compared_share shape.now member h)) }
{
    if shares.next_differs(member, shape) {
        Some(Refusal::Mismatch)
    } else {
        None
    }
}

/// Why the member may not arrive so at its next barrier: `Mismatch` if others arrived there
/// otherwise. A member that has arrived (`repeated`) is not compared any more, nor is one of a
/// cancelled region.
#[inline(always)]
pub(crate) fn compared_arrival_refusal<S: Shares>(
    shares: &S,
    barriers: &Barriers,
    member: u16,
    kind: Arrival,
    repeated: bool,
) -> Option<Refusal>
    requires member { member < S.members shares.now }
    requires team { barrier_members barriers.now ≡ S.members shares.now }
    ensures compared { EachStands (BothStand S.stands shares.now barriers.now)
        (λ h. result ≡ least (compared_arrival kind repeated member h)) }
{
    if repeated {
        return None;
    }
    if barriers.is_cancelled() {
        return None;
    }
    if arrival_differs(shares, barriers, member, kind) {
        return Some(Refusal::Mismatch);
    }
    None
}

/// Whether others arrived otherwise at the member's next barrier.
#[inline(always)]
fn arrival_differs<S: Shares>(shares: &S, barriers: &Barriers, member: u16, kind: Arrival) -> bool
    requires member { member < S.members shares.now }
    requires team { barrier_members barriers.now ≡ S.members shares.now }
    ensures compared { EachStands (BothStand S.stands shares.now barriers.now) (λ h.
        result ≡ tag_differs (tag_with kind (shares_entered member h))
        (tag_at (barriers_passed member h) h)) }
{
    let own = Tag {
        kind,
        shares: shares.look(member).entered,
    };
    match barriers.look(member).tag {
        Some(other) => !other.is_same(&own),
        None => false,
    }
}

/// Where the team breaks if the call is another than other members': at the share that would be
/// started, else at the member's next barrier.
pub fn place_of<S: Shares>(shares: &S, barriers: &Barriers, member: u16, call: &Call) -> Place
    requires member { member < S.members shares.now }
    requires team { barrier_members barriers.now ≡ S.members shares.now }
    ensures { EachPast (BothStand S.stands shares.now barriers.now)
        (λ p. result ≡ (row_of call.now).place member p.events) }
{
    match call {
        Call::LoopStart(_)
        | Call::SectionsStart { .. }
        | Call::SingleStart
        | Call::SingleCopyStart => at_share(shares.look(member).entered),
        _ => Place::Barrier(barriers.number(member)),
    }
}

/// The place of this share. A place shows a number up to the largest `u64`, and so this one as it
/// is.
fn at_share(number: u64) -> Place
    ensures { result ≡ Share (shown_number number) }
{
    Place::Share(number)
}

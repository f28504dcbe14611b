//! Members on threads of their own: each walks through the same constructs without a barrier, and asks again if it is answered to
//! wait. Such a run meets a few of the orders in which threads may act, and proves nothing.

ghost use Rattle.std.specs.Prelude.{◌≡◌, ℕ, ◌<◌, IfOk, slice_index_or, vec_len};
ghost use Rattle.gomp_ring.specs.RingSeats.{AreAllSeats, IsOnRing};
ghost use Rattle.gomp_seat_calls.specs.Stays.{StaysSeat};

use crate::calls::{Ask, answer};
use crate::checks::{AMPLE, same};
use gomp_ring::{Gathered, Ring, RingSeat, gather};
use gomp_seats::SeatedRing;
use gomp_shares::Construct;
use gomp_team_shares::{InsideCall, ShareStart};
use gomp_test_data::LOOP;
use gomp_types::{EndKind, LoopDesc, Reply, Sched, is_team_size};
use std::alloc::{AllocError, Global};
use std::process::Abort;
use std::sync::atomic::{AtomicU64, Ordering};
use std::thread;
use std::thread::Threads;

/// So often a member asks again before the test gives up.
const TRIES: u64 = 50_000_000;

/// After so many waits a member yields. It does not at each: on a busy machine the others may come back late.
const ASKS: u64 = 64;

/// Of so many ordered parts one yields.
const QUICK_PARTS: u64 = 16;

/// Of so many iterations of an ordered loop the last one has no ordered part.
const PARTS_AND_ONE: u64 = 5;

/// What the members of a team walk through: constructs that are alike, one after another.
#[derive(Clone, Copy)]
struct Way {
    /// How a member starts each construct.
    start: ShareStart,
    /// How a member asks for its next piece.
    next: Ask,
    /// How it ends the construct.
    end: Ask,
    /// How many constructs there are.
    rounds: u64,
    /// How many iterations or sections each has.
    trips: u64,
    /// How many ordered parts each has.
    parts: u64,
}

/// What the members of a team did.
#[derive(Drop)]
struct Marks {
    /// How often each iteration or section of each construct was taken.
    taken: Vec<AtomicU64>,
    /// How many ordered parts of each construct were executed.
    parts: Vec<AtomicU64>,
}

/// What a member does after a reply.
enum Step {
    /// It asks for its next piece.
    Asks,
    /// It ends the construct.
    Ends,
    /// It was answered what it must not be.
    Stops,
}

/// One in so many times the thread yields.
fn yield_at(time: u64, times: u64) {
    if times > 0 && time % times == 0 {
        thread::yield_now();
    }
}

/// The member asks for this, and asks again while it is answered to wait.
fn ask_again(ring: &Ring, seat: &mut RingSeat, ask: &Ask) -> Reply
    requires ring { IsOnRing ring.now seat.old }
    ensures stays { StaysSeat seat.old seat.new }
{
    for tries in 1..TRIES {
        match answer(ring, seat, ask) {
            Reply::Wait => yield_at(tries, ASKS),
            reply => return reply,
        }
    }
    Reply::Wait
}

/// Whether the member asks for this, perhaps often, and it is done.
fn is_done(ring: &Ring, seat: &mut RingSeat, ask: &Ask) -> bool
    requires ring { IsOnRing ring.now seat.old }
    ensures stays { StaysSeat seat.old seat.new }
{
    matches!(ask_again(ring, seat, ask), Reply::Finished)
}

/// Notes that so many iterations or sections were taken, from this place on.
fn note(marks: &Marks, place: u64, count: u64) {
    for mark in place..place.saturating_add(count) {
        if let Some(taken) = marks.taken.get(mark as usize) {
            taken.fetch_add(1, Ordering::SeqCst);
        }
    }
}

/// Adds 1 to the parts of this construct, in two steps: of two parts at once one is lost. Whether so many were executed before.
fn add_part(marks: &Marks, round: u64, before: u64) -> bool {
    match marks.parts.get(round as usize) {
        Some(parts) => {
            let executed = parts.load(Ordering::SeqCst);
            yield_at(before, QUICK_PARTS);
            parts.store(executed.wrapping_add(1), Ordering::SeqCst);
            executed == before
        }
        None => false,
    }
}

/// The member executes the ordered part of the iteration with this value, if it has one. Whether it comes behind those of all
/// iterations before, and before all others.
fn do_part(ring: &Ring, seat: &mut RingSeat, round: u64, marks: &Marks, value: i64) -> bool
    requires ring { IsOnRing ring.now seat.old }
    ensures stays { StaysSeat seat.old seat.new }
{
    let iteration = value.unsigned_abs();
    if iteration % PARTS_AND_ONE == PARTS_AND_ONE - 1 {
        return true;
    }
    if !is_done(ring, seat, &Ask::Inside(InsideCall::BeginPart(value))) {
        return false;
    }
    let in_order = add_part(marks, round, iteration - iteration / PARTS_AND_ONE);
    is_done(ring, seat, &Ask::Inside(InsideCall::EndPart)) && in_order
}

/// The member was answered this, and works the piece off.
fn work(
    ring: &Ring,
    seat: &mut RingSeat,
    way: &Way,
    round: u64,
    marks: &Marks,
    reply: &Reply,
) -> Step
    requires ring { IsOnRing ring.now seat.old }
    ensures stays { StaysSeat seat.old seat.new }
{
    let place = round.saturating_mul(way.trips);
    match reply {
        Reply::Chunk { first, count } => {
            note(marks, place.saturating_add(first.unsigned_abs()), *count);
            if way.parts > 0 && !do_part(ring, seat, round, marks, *first) {
                return Step::Stops;
            }
            Step::Asks
        }
        Reply::NoChunk | Reply::Section(0) => Step::Ends,
        Reply::Section(number) => {
            note(marks, place.saturating_add(*number - 1), 1);
            Step::Asks
        }
        _ => Step::Stops,
    }
}

/// The member walks through one construct. False if it was answered what it must not be.
fn walk_one(ring: &Ring, seat: &mut RingSeat, way: &Way, round: u64, marks: &Marks) -> bool
    requires ring { IsOnRing ring.now seat.old }
    ensures stays { StaysSeat seat.old seat.new }
{
    let mut reply = ask_again(ring, seat, &Ask::Start(way.start));
    for _ in 0..way.trips.saturating_add(1) {
        match work(ring, seat, way, round, marks, &reply) {
            Step::Asks => reply = ask_again(ring, seat, &way.next),
            Step::Ends => return is_done(ring, seat, &way.end),
            Step::Stops => return false,
        }
    }
    false
}

/// The member walks all the way. It stops if it is answered what it must not be.
fn walk(ring: &Ring, mut seat: RingSeat, way: &Way, marks: &Marks) -> RingSeat
    requires ring { IsOnRing ring.now seat }
    ensures stays { StaysSeat seat result }
{
    for round in 0..way.rounds {
        if !walk_one(ring, &mut seat, way, round, marks) {
            return seat;
        }
    }
    seat
}

/// So many counts, each 0.
fn new_counts(rt: &impl Abort, alloc: Global, count: u64) -> Vec<AtomicU64> {
    let mut counts = Vec::new(alloc);
    for _ in 0..count {
        counts.push(AtomicU64::new(0)).expect(rt, AMPLE);
    }
    counts
}

/// The members of a team walk the way, each on a thread of its own.
fn walk_each<R: Threads + Sync>(
    rt: &R,
    ring: &Ring,
    seats: Vec<RingSeat>,
    way: &Way,
    marks: &Marks,
) -> Result<Vec<RingSeat>, AllocError>
    requires all { AreAllSeats ring.now seats.items }
    ensures len { IfOk result (λ walked. vec_len walked ≡ vec_len seats) }
    ensures each { IfOk result (λ walked. (m : ℕ) (d : _) → m < vec_len seats →
        StaysSeat (slice_index_or seats.items m d) (slice_index_or walked.items m d)) }
{
    let walk_alone = |seat: RingSeat| -> RingSeat
        requires { IsOnRing ring.now seat }
        ensures { StaysSeat seat result }
    { walk(ring, seat, way, marks) };
    thread::map_vec(rt, seats, &walk_alone)
}

/// The same, and then their seats are all seats again, which are joined.
fn walk_on_threads<R: Threads + Abort + Sync>(
    rt: &R,
    alloc: Global,
    team: SeatedRing,
    way: &Way,
    marks: &Marks,
) -> Gathered {
    let SeatedRing { ring, seats } = team;
    let walked = walk_each(rt, &ring, seats, way, marks).expect(rt, AMPLE);
    gather(alloc, &ring, walked).ok().expect(rt, AMPLE)
}

/// These numbers, added up; the largest one of the type if they are more.
fn sum(numbers: &[u128]) -> u128 {
    let mut all: u128 = 0;
    for number in numbers {
        all = all.saturating_add(*number);
    }
    all
}

/// That each of these counts is so much.
fn are_all(rt: &impl Abort, counts: &[AtomicU64], expected: u64, name: &str) {
    for (number, count) in counts.iter().enumerate() {
        let found = count.load(Ordering::SeqCst);
        same(rt, &found, &expected, name, number as u64);
    }
}

/// That so many shares were left by all, and as many iterations were taken as those of this way.
fn compare_totals(rt: &impl Abort, all: &Gathered, way: &Way, members: u16) {
    let size = members as u64;
    same(rt, &all.shares, &way.rounds, "shares of", size);
    let iterations = match way.start {
        ShareStart::Loop(_) => way.rounds.saturating_mul(way.trips),
        _ => 0,
    };
    let taken = sum(&all.taken);
    same(rt, &taken, &(iterations as u128), "iterations of", size);
}

/// The members of a team walk this way: each iteration and each section is taken once, and ordered parts are executed in order.
fn walk_all<R: Threads + Abort + Sync>(rt: &R, alloc: Global, members: u16, way: &Way) {
    assert!(rt; is_team_size(members));
    let marks = Marks {
        taken: new_counts(rt, alloc, way.rounds.saturating_mul(way.trips)),
        parts: new_counts(rt, alloc, way.rounds),
    };
    let team = SeatedRing::new(alloc, members).expect(rt, AMPLE);
    let all = walk_on_threads(rt, alloc, team, way, &marks);
    are_all(rt, &marks.taken, 1, "iteration or section");
    are_all(rt, &marks.parts, way.parts, "the ordered parts of loop");
    compare_totals(rt, &all, way, members);
}

/// The constructs of a way of loops.
const DYNAMIC: LoopDesc = LoopDesc {
    end: 1_000,
    chunk: 3,
    end_kind: EndKind::Nowait,
    ..LOOP
};

/// Dynamic loops.
const LOOPS: Way = Way {
    start: ShareStart::Loop(DYNAMIC),
    next: Ask::Claim,
    end: Ask::Inside(InsideCall::EndNowait(Construct::Loop)),
    rounds: 50,
    trips: 1_000,
    parts: 0,
};

/// Guided loops.
const GUIDED: Way = Way {
    start: ShareStart::Loop(LoopDesc {
        sched: Sched::Guided,
        ..DYNAMIC
    }),
    ..LOOPS
};

/// Ordered loops, of which each member takes one iteration at a time.
const ORDERED: Way = Way {
    start: ShareStart::Loop(LoopDesc {
        end: 100,
        chunk: 1,
        ordered: true,
        ..DYNAMIC
    }),
    next: Ask::Inside(InsideCall::Next(Construct::Loop)),
    rounds: 20,
    trips: 100,
    parts: 80,
    ..LOOPS
};

/// Sections.
const SECTIONS: Way = Way {
    start: ShareStart::Sections {
        count: 100,
        end_kind: EndKind::Nowait,
    },
    next: Ask::Inside(InsideCall::Next(Construct::Sections)),
    end: Ask::Inside(InsideCall::EndNowait(Construct::Sections)),
    rounds: 50,
    trips: 100,
    parts: 0,
};

/// Teams of so many, and their ways.
const WAYS: &[(u16, Way)] = &[
    (2, LOOPS),
    (4, LOOPS),
    (2, GUIDED),
    (4, GUIDED),
    (2, ORDERED),
    (4, ORDERED),
    (2, SECTIONS),
    (4, SECTIONS),
];

/// These, by a function of their own: a constant is in each step of the function that names it.
fn ways() -> &'static [(u16, Way)] {
    WAYS
}

#[test]
fn members_walk_on_threads(rt: HostRuntime) {
    for (members, way) in ways() {
        walk_all(&rt, rt.alloc(), *members, way);
    }
}

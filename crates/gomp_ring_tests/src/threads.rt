//! Members on threads of their own: each walks through the same loops or singles without a barrier, and asks again if it may not
//! enter yet. Such a run meets a few of the orders in which threads may act, and proves nothing.

ghost use Rattle.std.specs.Prelude.{◌≡◌, ℕ, ◌<◌, IfOk, slice_index_or, vec_len};
ghost use Rattle.gomp_ring.specs.RingSeats.{AreAllSeats};
ghost use Rattle.gomp_ring_tests.specs.Members.{MayAct};
ghost use Rattle.gomp_seats.specs.NewSeats.{IsSameMember};

use crate::checks::{AMPLE, same};
use crate::constructs::{Construct, loop_of, single};
use crate::members::{claim_next, leave, open_next, pass_next};
use crate::team::{Team, compare_totals, new_team};
use gomp_ring::{Entry, Gathered, Passage, Ring, RingSeat, gather};
use gomp_test_data::LOOP;
use gomp_types::{EndKind, LoopDesc, Sched, is_team_size};
use std::alloc::{AllocError, Global};
use std::process::Abort;
use std::sync::atomic::{AtomicU64, Ordering};
use std::thread;
use std::thread::Threads;

/// So many loops each member walks through.
const LOOPS: u64 = 100;

/// So many iterations each loop has.
const TRIPS: u64 = 1_000;

/// So many singles each member goes through.
const SINGLES: u64 = 2_000;

/// So often a member asks again before the test gives up.
const TRIES: u64 = 50_000_000;

/// What the members of a team walk through.
#[derive(Clone, Copy)]
enum Way {
    /// Loops, without ordered parts.
    Loops(LoopDesc),
    /// Singles, each by one step.
    Singles,
    /// Singles, which a member opens and goes through by one step by turns, each member at another time than the next.
    EitherWay,
}

/// The way of a team, and what its members mark.
#[derive(Drop)]
struct Track {
    way: Way,
    /// Each construct on it.
    construct: Construct,
    /// How often each thing on it was done that is done once: iterations, or bodies of singles.
    marks: Vec<AtomicU64>,
}

impl Way {
    /// Each construct on it; none if that is refused.
    fn construct(&self) -> Option<Construct> {
        match self {
            Way::Loops(desc) => loop_of(desc),
            _ => single(),
        }
    }

    /// How many shares it has.
    fn shares(&self) -> u64 {
        match self {
            Way::Loops(_) => LOOPS,
            _ => SINGLES,
        }
    }

    /// How many iterations of loops it has.
    fn iterations(&self) -> u64 {
        match self {
            Way::Loops(_) => LOOPS * TRIPS,
            _ => 0,
        }
    }

    /// How many things on it are done once.
    fn marks(&self) -> u64 {
        match self {
            Way::Loops(_) => LOOPS * TRIPS,
            _ => SINGLES,
        }
    }
}

/// The member opens its next share, and asks again until it may. False if it was answered anything else.
fn enter(ring: &Ring, seat: &mut RingSeat, construct: &Construct) -> bool
    requires seat { MayAct ring.now seat.old }
    ensures same { IsSameMember seat.old seat.new }
{
    for _ in 0..TRIES {
        match open_next(ring, seat, construct) {
            Some(Entry::Entered) => return true,
            Some(Entry::NotYet(_)) => thread::yield_now(),
            _ => return false,
        }
    }
    false
}

/// Adds 1 to the mark at this place.
fn add_mark(marks: &[AtomicU64], place: u64) {
    if let Some(mark) = marks.get(place as usize) {
        mark.fetch_add(1, Ordering::SeqCst);
    }
}

/// Notes that these iterations of a loop were taken.
fn note(marks: &[AtomicU64], share: u64, first: u64, end: u64) {
    for iteration in first..end {
        add_mark(marks, share.saturating_mul(TRIPS).saturating_add(iteration));
    }
}

/// The member claims until nothing is left for it, and notes what it took.
fn claim_all(ring: &Ring, seat: &mut RingSeat, share: u64, marks: &[AtomicU64])
    requires seat { MayAct ring.now seat.old }
    ensures same { IsSameMember seat.old seat.new }
{
    for _ in 0..TRIPS + 1 {
        let piece = claim_next(ring, seat);
        if piece.first == piece.end {
            return;
        }
        note(marks, share, piece.first, piece.end);
    }
}

/// The member walks through all loops. It stops if it is answered what it must not be.
fn walk_loops(
    ring: &Ring,
    mut seat: RingSeat,
    construct: &Construct,
    marks: &[AtomicU64],
) -> RingSeat
    requires seat { MayAct ring.now seat }
    ensures same { IsSameMember seat result }
{
    for share in 0..LOOPS {
        if !enter(ring, &mut seat, construct) {
            return seat;
        }
        claim_all(ring, &mut seat, share, marks);
        if !leave(ring, &mut seat) {
            return seat;
        }
    }
    seat
}

/// The member goes through its next single, and asks again until it may. Whether it executes it; none if it was answered anything
/// else.
fn pass(ring: &Ring, seat: &mut RingSeat) -> Option<bool>
    requires seat { MayAct ring.now seat.old }
    ensures same { IsSameMember seat.old seat.new }
{
    for _ in 0..TRIES {
        match pass_next(ring, seat) {
            Some(Passage::Passed(executes)) => return Some(executes),
            Some(Passage::NotYet(_)) => thread::yield_now(),
            _ => return None,
        }
    }
    None
}

/// The member opens its next single, asks for its piece until nothing is left, and leaves it. Whether it executes it; none if it
/// was answered what it must not be.
fn open_single(ring: &Ring, seat: &mut RingSeat, single: &Construct) -> Option<bool>
    requires seat { MayAct ring.now seat.old }
    ensures same { IsSameMember seat.old seat.new }
{
    if !enter(ring, seat, single) {
        return None;
    }
    let piece = claim_next(ring, seat);
    let rest = claim_next(ring, seat);
    if rest.first != rest.end || !leave(ring, seat) {
        return None;
    }
    Some(piece.first < piece.end)
}

/// The member goes through all singles by one step each, or opens every other one (`opened`). It stops if it is answered what it
/// must not be.
fn walk_singles(
    ring: &Ring,
    mut seat: RingSeat,
    opened: Option<&Construct>,
    marks: &[AtomicU64],
) -> RingSeat
    requires seat { MayAct ring.now seat }
    ensures same { IsSameMember seat result }
{
    let member = seat.member() as u64;
    for share in 0..SINGLES {
        let opens = (share + member) % 2 == 1;
        let executes = match opened {
            Some(single) if opens => open_single(ring, &mut seat, single),
            _ => pass(ring, &mut seat),
        };
        match executes {
            Some(true) => add_mark(marks, share),
            Some(false) => {}
            None => return seat,
        }
    }
    seat
}

/// The member walks all the way.
fn walk(ring: &Ring, seat: RingSeat, track: &Track) -> RingSeat
    requires seat { MayAct ring.now seat }
    ensures same { IsSameMember seat result }
{
    let Track {
        way,
        construct,
        marks,
    } = track;
    match way {
        Way::Loops(_) => walk_loops(ring, seat, construct, marks),
        Way::Singles => walk_singles(ring, seat, None, marks),
        Way::EitherWay => walk_singles(ring, seat, Some(construct), marks),
    }
}

/// So many marks.
fn new_marks(rt: &impl Abort, alloc: Global, count: u64) -> Vec<AtomicU64> {
    let mut marks = Vec::new(alloc);
    for _ in 0..count {
        marks.push(AtomicU64::new(0)).expect(rt, AMPLE);
    }
    marks
}

/// That each mark is 1.
fn each_once(rt: &impl Abort, marks: &[AtomicU64]) {
    for (number, mark) in marks.iter().enumerate() {
        let times = mark.load(Ordering::SeqCst);
        same(rt, &times, &1, "iteration or single", number as u64);
    }
}

/// The members of a team walk the way, each on a thread of its own.
fn walk_each<R: Threads + Sync>(
    rt: &R,
    ring: &Ring,
    seats: Vec<RingSeat>,
    track: &Track,
) -> Result<Vec<RingSeat>, AllocError>
    requires all { AreAllSeats ring.now seats.items }
    ensures len { IfOk result (λ walked. vec_len walked ≡ vec_len seats) }
    ensures each { IfOk result (λ walked. (m : ℕ) (d : _) → m < vec_len seats →
        IsSameMember (slice_index_or seats.items m d) (slice_index_or walked.items m d)) }
{
    let walk_alone = |seat: RingSeat| -> RingSeat
        requires { MayAct ring.now seat }
        ensures { IsSameMember seat result }
    { walk(ring, seat, track) };
    thread::map_vec(rt, seats, &walk_alone)
}

/// The same, and then their seats are all seats again, which are joined.
fn walk_on_threads<R: Threads + Abort + Sync>(
    rt: &R,
    alloc: Global,
    team: Team,
    track: &Track,
) -> Gathered {
    let Team { ring, seats } = team;
    let walked = walk_each(rt, &ring, seats, track).expect(rt, AMPLE);
    gather(alloc, &ring, walked).ok().expect(rt, AMPLE)
}

/// The members of a team walk this way: each iteration of its loops is taken once, and each single executed once.
fn walk_all<R: Threads + Abort + Sync>(rt: &R, alloc: Global, members: u16, way: Way) {
    assert!(rt; is_team_size(members));
    let track = Track {
        way,
        construct: way.construct().expect(rt, "a construct"),
        marks: new_marks(rt, alloc, way.marks()),
    };
    let team = new_team(alloc, members).expect(rt, AMPLE);
    let all = walk_on_threads(rt, alloc, team, &track);
    each_once(rt, &track.marks);
    let iterations = way.iterations() as u128;
    compare_totals(rt, &all, way.shares(), iterations, members);
}

const DYNAMIC: LoopDesc = LoopDesc {
    end: TRIPS as i64,
    chunk: 3,
    end_kind: EndKind::Nowait,
    ..LOOP
};

const GUIDED: LoopDesc = LoopDesc {
    sched: Sched::Guided,
    ..DYNAMIC
};

const STATIC: LoopDesc = LoopDesc {
    sched: Sched::Static,
    ..DYNAMIC
};

/// Teams of so many, and their ways.
const WAYS: &[(u16, Way)] = &[
    (2, Way::Loops(DYNAMIC)),
    (4, Way::Loops(DYNAMIC)),
    (4, Way::Loops(GUIDED)),
    (4, Way::Loops(STATIC)),
    (2, Way::Singles),
    (2, Way::EitherWay),
    (4, Way::Singles),
    (4, Way::EitherWay),
];

#[test]
fn members_walk_on_threads(rt: HostRuntime) {
    for (members, way) in WAYS {
        walk_all(&rt, rt.alloc(), *members, *way);
    }
}

//! The region of a test: its members are made, go their way each on a thread of its own, and are taken back.

ghost use Rattle.std.specs.Prelude.{◌≡◌, ◌<◌, ◌≤◌, ◌+◌, All, vec_len};
ghost use Rattle.gomp_types.specs.declared.limits.TheConstants.{MAX_MEMBERS};
ghost use Rattle.gomp_team_region.specs.Regions.{HasOneOfEach, seats_of};
ghost use Rattle.gomp_member_tests.specs.Ledgers.{IsLedger};
ghost use Rattle.gomp_member_tests.specs.Seats.{HaveSeatsFrom};

use crate::checks::{AMPLE, same};
use crate::walkers::{CountedMember, TeamRing, TestMember, members_back, walkers_of};
use crate::ways::{Spot, Way, walk};
use gomp_events::Event;
use gomp_icv::Icv;
use gomp_locks::LockBook;
use gomp_ompt::Counts;
use gomp_team::TeamTerms;
use gomp_team_board::EventLedger;
use gomp_team_book::{HoldLedger, LockedBook};
use gomp_team_region::{BookShare, RefusedTeam, RegionTeam, RegionWork, SettleError, SettledTeam};
use gomp_types::{Limits, MAX_MEMBERS, Refusal};
use std::alloc::Global;
use std::marker::Brand;
use std::process::Abort;
use std::sync::atomic::{AtomicU64, Ordering};
use std::sync::ledger::{Blank, Ledger};
use std::sync::{Arc, Mutex, Wait};
use std::thread;
use std::thread::Threads;

/// The parts of a ledger: one for each member that a team may have, and one more.
const PARTS: u64 = MAX_MEMBERS as u64 + 1;

/// What comes of a region.
#[derive(Drop)]
pub(crate) struct Outcome {
    /// The marks that its members left.
    pub(crate) marks: Vec<AtomicU64>,
    /// Its history, or why there is none.
    pub(crate) settled: Result<Vec<Event>, SettleError>,
}

impl Outcome {
    /// What the mark at this place is; 0 if there is none.
    pub(crate) fn mark(&self, place: usize) -> u64 {
        mark_at(&self.marks, place)
    }

    /// How many events its history has; 0 if there is none.
    pub(crate) fn events(&self) -> u64 {
        match &self.settled {
            Ok(history) => history.len() as u64,
            Err(_) => 0,
        }
    }
}

/// The ledgers of a region, not begun yet.
#[derive(Drop)]
struct Blanks {
    /// Of its events.
    events: Blank,
    /// Of the holds of names and locks.
    held: Blank,
    /// Of their releases.
    freed: Blank,
}

/// What the mark at this place is; 0 if there is none.
pub(crate) fn mark_at(marks: &[AtomicU64], place: usize) -> u64 {
    match marks.get(place) {
        Some(mark) => mark.load(Ordering::SeqCst),
        None => 0,
    }
}

/// Adds so much to the mark at this spot.
pub(crate) fn add_mark(marks: &[AtomicU64], place: usize, more: u64) {
    if let Some(mark) = marks.get(place) {
        mark.fetch_add(more, Ordering::SeqCst);
    }
}

/// Reads the mark at this place and writes one more, in two steps: of two members at once one is lost.
pub(crate) fn add_slowly(marks: &[AtomicU64], place: usize) {
    if let Some(mark) = marks.get(place) {
        let seen = mark.load(Ordering::SeqCst);
        thread::yield_now();
        mark.store(seen.wrapping_add(1), Ordering::SeqCst);
    }
}

/// Waits until the mark at this place is no longer 0.
pub(crate) fn await_mark<R: Wait>(rt: &R, marks: &[AtomicU64], place: usize) {
    for _ in rt.forever() {
        if mark_at(marks, place) != 0 {
            return;
        }
        thread::yield_now();
    }
}

/// A team of this size goes this way, and its region is settled.
pub(crate) fn run_region<R: Threads + Wait + Abort + Sync>(
    rt: &R,
    alloc: Global,
    size: u16,
    way: Way,
) -> Outcome {
    one_of(rt, run_regions(rt, alloc, &[(size, way)]))
}

/// Teams of these sizes go these ways one after another, with one ledger of their events and one book.
pub(crate) fn run_regions<R: Threads + Wait + Abort + Sync>(
    rt: &R,
    alloc: Global,
    cases: &[(u16, Way)],
) -> Vec<Outcome> {
    let blanks = new_blanks();
    run_all::<Brand, Brand, Brand, R>(rt, alloc, cases, None, blanks)
}

/// That no team is made of so many tools, and that a team of one is made then with what came back.
pub(crate) fn run_after_refusal<R: Threads + Wait + Abort + Sync>(
    rt: &R,
    alloc: Global,
    tools: u16,
) -> Outcome {
    let blanks = new_blanks();
    let cases = &[(1, Way::Barriers(0))];
    one_of(
        rt,
        run_all::<Brand, Brand, Brand, R>(rt, alloc, cases, Some(tools), blanks),
    )
}

/// What came of the one region.
fn one_of(rt: &impl Abort, mut outcomes: Vec<Outcome>) -> Outcome {
    outcomes.pop().expect(rt, "an outcome")
}

/// Ledgers that are not begun, each with a part for each member that a team may have, and one more.
fn new_blanks() -> Blanks
    ensures events { result.events.parts ≡ MAX_MEMBERS + 1 }
    ensures held { result.held.parts ≡ MAX_MEMBERS + 1 }
    ensures freed { result.freed.parts ≡ MAX_MEMBERS + 1 }
{
    Blanks {
        events: Blank::new(PARTS),
        held: Blank::new(PARTS),
        freed: Blank::new(PARTS),
    }
}

/// Regions one after another, with these ledgers; before, a team is refused for its number of tools, if one is given.
fn run_all<
    L: Ledger + Send + Sync,
    H: HoldLedger + Send + Sync,
    F: Ledger + Send + Sync,
    R: Threads + Wait + Abort + Sync,
>(rt: &R, alloc: Global, cases: &[(u16, Way)], refused: Option<u16>, blanks: Blanks) -> Vec<Outcome>
    requires events { IsLedger L.name L.parts blanks.events.name blanks.events.parts }
    requires held { IsLedger H.name H.parts blanks.held.name blanks.held.parts }
    requires freed { IsLedger F.name F.parts blanks.freed.name blanks.freed.parts }
    requires before { H.before ≡ 0 }
{
    let (mut share, mut ledger) = begin::<L, H, F, R>(rt, alloc, blanks);
    if let Some(tools) = refused {
        ledger = refuse(rt, alloc, &mut share, ledger, tools);
    }
    let mut outcomes = Vec::new(alloc);
    for case in cases {
        let (outcome, free) = run_team(rt, alloc, &mut share, ledger, *case);
        ledger = free;
        outcomes.push(outcome).expect(rt, AMPLE);
    }
    outcomes
}

/// That no team is made of so many tools. The ledger that comes back.
fn refuse<L: Ledger, H: HoldLedger, F: Ledger, R: Abort>(
    rt: &R,
    alloc: Global,
    share: &mut BookShare<H, F>,
    ledger: EventLedger<L>,
    count: u16,
) -> EventLedger<L>
    requires ledger { ledger ≡ L.parts }
    requires events { MAX_MEMBERS < L.parts }
    requires held { MAX_MEMBERS < share.old.held.parts }
    requires freed { MAX_MEMBERS < share.old.freed.parts }
    ensures ledger { result ≡ L.parts }
    ensures held { share.new.held.parts ≡ share.old.held.parts }
    ensures freed { share.new.freed.parts ≡ share.old.freed.parts }
{
    let tools = new_tools(rt, alloc, count);
    let RefusedTeam {
        refusal,
        ledger,
        tools,
    } = match RegionTeam::<L, H, F, Counts>::new(alloc, terms(), share, ledger, tools) {
        Ok(_) => stop(rt, "a team of no such size"),
        Err(refused) => refused,
    };
    same(rt, &refusal, &Refusal::BadTeam, "a team of", count as u64);
    let back = tools.len() as u64;
    same(rt, &back, &(count as u64), "tools of", count as u64);
    ledger.expect(rt, "the ledger")
}

/// Ends the test.
fn stop(rt: &impl Abort, why: &str) -> ! {
    rt.panic(why)
}

/// A new book with these ledgers, and the ledger of the events of the first team.
#[tactic(auto, using(gomp_locks::proofs::Laws::new_book_is_in_order))]
fn begin<L: Ledger, H: HoldLedger, F: Ledger, R: Abort>(
    rt: &R,
    alloc: Global,
    blanks: Blanks,
) -> (BookShare<H, F>, EventLedger<L>)
    requires events { IsLedger L.name L.parts blanks.events.name blanks.events.parts }
    requires held { IsLedger H.name H.parts blanks.held.name blanks.held.parts }
    requires freed { IsLedger F.name F.parts blanks.freed.name blanks.freed.parts }
    requires before { H.before ≡ 0 }
    ensures ledger { result.1 ≡ L.parts }
    ensures held { MAX_MEMBERS < result.0.held.parts }
    ensures freed { MAX_MEMBERS < result.0.freed.parts }
{
    let Blanks {
        events,
        held,
        freed,
    } = blanks;
    let (book, held, freed) = LockedBook::<H, F>::new(LockBook::new(alloc), held, freed);
    let book = Arc::new(alloc, Mutex::new(book)).ok().expect(rt, AMPLE);
    (BookShare { book, held, freed }, EventLedger::open(events))
}

/// A team of the size of this case goes its way, and its region is settled. The ledger of its events and
/// the parts of the book's come back.
fn run_team<
    L: Ledger + Send + Sync,
    H: HoldLedger + Send + Sync,
    F: Ledger + Send + Sync,
    R: Threads + Wait + Abort + Sync,
>(
    rt: &R,
    alloc: Global,
    share: &mut BookShare<H, F>,
    ledger: EventLedger<L>,
    case: (u16, Way),
) -> (Outcome, EventLedger<L>)
    requires ledger { ledger ≡ L.parts }
    requires events { MAX_MEMBERS < L.parts }
    requires held { MAX_MEMBERS < share.old.held.parts }
    requires freed { MAX_MEMBERS < share.old.freed.parts }
    ensures ledger { result.1 ≡ L.parts }
    ensures held { share.new.held.parts ≡ share.old.held.parts }
    ensures freed { share.new.freed.parts ≡ share.old.freed.parts }
{
    let (size, way) = case;
    let tools = new_tools(rt, alloc, size);
    let (region, members) = match RegionTeam::<L, H, F, Counts>::new(
        alloc,
        terms(),
        share,
        ledger,
        tools,
    ) {
        Ok(made) => made,
        Err(_) => stop(rt, "no team"),
    };
    let marks = new_marks(rt, alloc, way.marks());
    let members = walk_all::<L, H, F, Brand, R>(rt, alloc, members, way, &marks);
    let SettledTeam {
        tools,
        work,
        ledger,
    } = region.settle(share, members);
    same(rt, &tools.len(), &(size as usize), "tools of", size as u64);
    let Some(ledger) = ledger else {
        stop(rt, "no ledger");
    };
    let settled = history_of(work);
    (Outcome { marks, settled }, ledger)
}

/// The history of what members did.
fn history_of(work: Result<RegionWork, SettleError>) -> Result<Vec<Event>, SettleError> {
    let RegionWork { history, .. } = work?;
    Ok(history)
}

/// The terms of each team.
fn terms() -> TeamTerms {
    TeamTerms {
        number: 0,
        icv: Icv::initial(),
        limits: Limits::STANDARD,
    }
}

/// A tool for each member.
fn new_tools(rt: &impl Abort, alloc: Global, size: u16) -> Vec<Counts> {
    let mut tools = Vec::new(alloc);
    for _ in 0..size {
        tools.push(Counts::new()).expect(rt, AMPLE);
    }
    tools
}

/// So many marks.
fn new_marks(rt: &impl Abort, alloc: Global, count: usize) -> Vec<AtomicU64> {
    let mut marks = Vec::new(alloc);
    for _ in 0..count {
        marks.push(AtomicU64::new(0)).expect(rt, AMPLE);
    }
    marks
}

/// The members go this way, each on a thread of its own, and come back.
fn walk_all<
    L: Ledger + Send + Sync,
    H: HoldLedger + Send + Sync,
    F: Ledger + Send + Sync,
    S: TeamRing,
    R: Threads + Wait + Abort + Sync,
>(
    rt: &R,
    alloc: Global,
    members: Vec<CountedMember<L, H, F>>,
    way: Way,
    marks: &[AtomicU64],
) -> Vec<CountedMember<L, H, F>>
    requires parts { All HasOneOfEach members.items }
    requires seats { HaveSeatsFrom S.table S.members 0 (seats_of members.items) }
    requires few { vec_len members ≤ 64 }
    ensures parts { All HasOneOfEach result.items }
    ensures seats { HaveSeatsFrom S.table S.members 0 (seats_of result.items) }
    ensures len { vec_len result ≡ vec_len members }
{
    let room = Vec::with_capacity(alloc, members.len()).expect(rt, AMPLE);
    let back = Vec::with_capacity(alloc, members.len()).expect(rt, AMPLE);
    let mut walkers = walkers_of::<L, H, F, S>(members, room);
    walk_each(rt, alloc, walkers.as_mut_slice(), way, marks);
    members_back(walkers, back).expect(rt, "the members")
}

/// Each walker goes this way on a thread of its own.
fn walk_each<
    L: Ledger + Send + Sync,
    H: HoldLedger + Send + Sync,
    F: Ledger + Send + Sync,
    S: TeamRing,
    R: Threads + Wait + Abort + Sync,
>(rt: &R, alloc: Global, walkers: &mut [TestMember<L, H, F, S>], way: Way, marks: &[AtomicU64]) {
    let count = walkers.len();
    if count == 0 {
        return;
    }
    let walk_alone = |number: usize, member: &mut TestMember<L, H, F, S>| {
        let spot = Spot {
            number,
            count,
            marks,
        };
        walk(rt, alloc, member, spot, way)
    };
    thread::for_each_mut(rt, walkers, count, &walk_alone);
}

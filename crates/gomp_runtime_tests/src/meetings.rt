//! The members of a region run at the same time.

use crate::checks::{AMPLE, same};
use gomp_crew::Host;
use gomp_runtime::CallGate;
use gomp_test_programs::planned::{Planned, PlannedAct};
use gomp_test_programs::regions::{plan, programs, run_with};
use gomp_types::Call;
use std::alloc::Global;
use std::hint;
use std::process::Abort;
use std::sync::Arc;
use std::sync::atomic::{AtomicU64, Ordering};

/// So often a member looks for the others.
const TURNS: u64 = 10_000_000;

/// So many calls each member makes before the region's end.
const CALLS: u64 = 60;

/// A gate at which all members meet before their calls 1, 2 and 50: each waits until all others are there.
#[derive(Drop)]
struct Meetings {
    /// How many there are.
    size: u32,
    /// A bit for each member that has come to call 1.
    first: AtomicU64,
    /// The same of call 2.
    second: AtomicU64,
    /// The same of call 50.
    fiftieth: AtomicU64,
    /// How often a member met all others.
    met: AtomicU64,
    /// How many calls were answered.
    answered: AtomicU64,
}

impl Meetings {
    /// The member waits for all others.
    fn meet(&self, place: &AtomicU64, member: u16) {
        place.fetch_or(1u64 << (member as u64 % 64), Ordering::SeqCst);
        for _ in 0..TURNS {
            if place.load(Ordering::SeqCst).count_ones() >= self.size {
                self.met.fetch_add(1, Ordering::SeqCst);
                return;
            }
            hint::spin_loop();
        }
    }
}

impl CallGate for Meetings {
    fn before(&self, member: u16, call: u64) {
        match call {
            1 => self.meet(&self.first, member),
            2 => self.meet(&self.second, member),
            50 => self.meet(&self.fiftieth, member),
            _ => {}
        }
    }

    fn after(&self, _member: u16, _call: u64) {
        self.answered.fetch_add(1, Ordering::SeqCst);
    }
}

/// A gate at which so many members meet.
fn new_gate(size: u32) -> Meetings {
    Meetings {
        size,
        first: AtomicU64::new(0),
        second: AtomicU64::new(0),
        fiftieth: AtomicU64::new(0),
        met: AtomicU64::new(0),
        answered: AtomicU64::new(0),
    }
}

/// So many programs, each with so many calls before the region's end.
fn callers(rt: &impl Abort, alloc: Global, size: u64) -> Vec<Planned> {
    let mut progs = programs(alloc, size).expect(rt, AMPLE);
    for number in 0..size as usize {
        for _ in 0..CALLS {
            let end = PlannedAct::Call(Call::GroupEnd);
            plan(&mut progs, number, end).expect(rt, AMPLE);
        }
    }
    progs
}

/// All members of a team of so many meet, and the gate stands round each call.
fn meet_all<R: Host + Abort>(rt: &R, alloc: Global, members: u32) {
    let size = u64::from(members);
    let progs = callers(rt, alloc, size);
    let gate = Arc::new(alloc, new_gate(members)).ok().expect(rt, AMPLE);
    let theirs = Arc::try_clone(&gate).ok().expect(rt, AMPLE);
    let outcome = run_with(rt, alloc, theirs, progs).expect(rt, AMPLE);
    same(rt, &outcome.is_ok(), &true, "report of", size);
    let met = gate.met.load(Ordering::SeqCst);
    let answered = gate.answered.load(Ordering::SeqCst);
    let expected = (size.saturating_mul(3), size.saturating_mul(CALLS + 1));
    same(
        rt,
        &(met, answered),
        &expected,
        "meetings and calls of",
        size,
    );
}

/// All members of teams of 1, 2 and 4 meet before their calls 1, 2 and 50, and the gate stands round each call.
#[test]
fn members_run_at_the_same_time(rt: HostRuntime) {
    for size in &[1, 2, 4] {
        meet_all(&rt, rt.alloc(), *size);
    }
}

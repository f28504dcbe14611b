//! What the members of a test do.

use crate::alone::{ALONE, ALONE_STOPPED};
use crate::barriers::{BARRIER, THE_END};
use crate::broken::{Break, break_team, wait_in_vain};
use crate::claims::CLAIMS;
use crate::copies::walk_copies;
use crate::exclusion::{LOCK, MAKE_LOCK, MAKE_NEST, NAME, NEST};
use crate::lines::{Answer, Ask, Line, walk_lines};
use crate::tasks::{ONE_TASK, walk_tasks};
use crate::waiters::Waiter;
use crate::walkers::{TeamRing, TestMember};
use gomp_team_book::HoldLedger;
use std::alloc::Global;
use std::process::Abort;
use std::sync::Wait;
use std::sync::atomic::AtomicU64;
use std::sync::ledger::Ledger;

/// What the members of a team go through, each on a thread of its own.
#[derive(Clone, Copy)]
pub(crate) enum Way {
    /// So many barriers, and the region's end.
    Barriers(u64),
    /// So many singles whose executor hands on words, and the region's end.
    Copies(u64),
    /// Member m creates so many tasks, and m times so many more; all go to a barrier, and to the region's end.
    Tasks {
        /// How many each creates.
        each: u64,
        /// How many more for each member before it.
        more: u64,
    },
    /// A single task, step by step, of a team of one.
    OneTask,
    /// A loop and sections by the calls that a member's seat answers alone, of a team of one.
    Claims,
    /// Shares by the calls that do all or nothing, of a team of one.
    Alone,
    /// These in a team of one that its member stops.
    AloneStopped,
    /// So many critical regions of one name for each member, and the region's end.
    Names(u64),
    /// The same under a simple lock.
    Locks(u64),
    /// The same under a nestable lock that is set twice.
    Nests(u64),
    /// The last member calls nothing, and the others go to the region's end.
    Astray,
    /// The last member stops the team.
    Stopped,
    /// Member 1 breaks the team so, while all others wait for this.
    Broken(Waiter, Break),
}

impl Way {
    /// How many marks its members leave at most.
    pub(crate) fn marks(self) -> usize {
        match self {
            Way::Copies(rounds) => (rounds as usize).saturating_mul(2),
            Way::Tasks { .. } => 4_096,
            _ => 16,
        }
    }
}

/// A member's place in a test.
#[derive(Clone, Copy)]
pub(crate) struct Spot<'a> {
    /// Its number, from 0.
    pub(crate) number: usize,
    /// How many members there are.
    pub(crate) count: usize,
    /// What all members mark.
    pub(crate) marks: &'a [AtomicU64],
}

/// What a member does whose way is a list: lines, others so many times, and lines at the end.
#[derive(Clone, Copy)]
struct Plan {
    /// What it does first.
    before: &'static [Line],
    /// How often it does the lines of `each`.
    rounds: u64,
    /// What it does then, so many times.
    each: &'static [Line],
    /// What it does at the end.
    after: &'static [Line],
}

const NO_LINES: &[Line] = &[];

const ASTRAY: &[Line] = &[Line::Waits(Ask::RegionEnd, "the region's end")];

const STOP: &[Line] = &[Line::Call(Ask::Stop, Answer::Stopped, "stop")];

/// The member does this first.
fn before(way: Way, spot: Spot<'_>) -> &'static [Line] {
    let is_last = spot.number.saturating_add(1) == spot.count;
    match way {
        Way::OneTask => ONE_TASK,
        Way::Claims => CLAIMS,
        Way::Alone => ALONE,
        Way::AloneStopped => ALONE_STOPPED,
        Way::Locks(_) if spot.number == 0 => MAKE_LOCK,
        Way::Nests(_) if spot.number == 0 => MAKE_NEST,
        Way::Locks(_) | Way::Nests(_) => BARRIER,
        Way::Astray if !is_last => ASTRAY,
        Way::Stopped if is_last => STOP,
        _ => NO_LINES,
    }
}

/// The member does this so many times.
fn rounds(way: Way) -> (u64, &'static [Line]) {
    match way {
        Way::Barriers(rounds) => (rounds, BARRIER),
        Way::Names(rounds) => (rounds, NAME),
        Way::Locks(rounds) => (rounds, LOCK),
        Way::Nests(rounds) => (rounds, NEST),
        _ => (0, NO_LINES),
    }
}

/// The plan of a member's way that is a list.
fn plan_of(way: Way, spot: Spot<'_>) -> Plan {
    let (rounds, each) = rounds(way);
    let after = match way {
        Way::Claims | Way::Alone | Way::AloneStopped | Way::Astray | Way::Stopped => NO_LINES,
        _ => THE_END,
    };
    Plan {
        before: before(way, spot),
        rounds,
        each,
        after,
    }
}

/// A member goes by this plan.
fn walk_plan<L: Ledger, H: HoldLedger, F: Ledger, S: TeamRing, R: Wait + Abort>(
    rt: &R,
    alloc: Global,
    member: &mut TestMember<L, H, F, S>,
    spot: Spot<'_>,
    plan: Plan,
) {
    walk_lines(rt, alloc, member, spot, plan.before);
    for _ in 0..plan.rounds {
        walk_lines(rt, alloc, member, spot, plan.each);
    }
    walk_lines(rt, alloc, member, spot, plan.after);
}

/// A member goes this way.
pub(crate) fn walk<L: Ledger, H: HoldLedger, F: Ledger, S: TeamRing, R: Wait + Abort>(
    rt: &R,
    alloc: Global,
    member: &mut TestMember<L, H, F, S>,
    spot: Spot<'_>,
    way: Way,
) {
    match way {
        Way::Copies(rounds) => walk_copies(rt, alloc, member, spot, rounds),
        Way::Tasks { each, more } => walk_tasks(rt, alloc, member, spot, (each, more)),
        Way::Broken(waiter, how) if spot.number == 1 => {
            break_team(rt, alloc, member, spot, (waiter, how))
        }
        Way::Broken(waiter, how) => wait_in_vain(rt, alloc, member, spot, (waiter, how)),
        _ => walk_plan(rt, alloc, member, spot, plan_of(way, spot)),
    }
}

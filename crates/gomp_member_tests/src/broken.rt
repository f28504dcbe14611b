//! Broken teams: whoever waits, for anything, is told so and goes on.

use crate::checks::same;
use crate::lines::{Answer, Ask, Line, walk_lines};
use crate::regions::{add_mark, mark_at, run_region};
use crate::waiters::{A_SINGLE, WAITING, Waiter};
use crate::walkers::{TeamRing, TestMember};
use crate::ways::{Spot, Way};
use gomp_team_book::HoldLedger;
use gomp_team_region::SettleError;
use gomp_types::{Clash, EndKind, Place};
use std::alloc::Global;
use std::process::Abort;
use std::sync::Wait;
use std::sync::ledger::Ledger;
use std::thread;
use std::thread::Threads;

/// So often the member that breaks the team yields once all others wait.
const YIELDS: u32 = 200;

/// How member 1 breaks its team.
#[derive(Clone, Copy, Debug, PartialEq, Eq)]
pub(crate) enum Break {
    /// It stops it.
    Stop,
    /// It goes to a barrier while the others are at the region's end.
    Arrival,
    /// It goes to the region's end while the others are at a barrier.
    End,
    /// It enters a sections construct where the others went through a single.
    Share,
}

impl Break {
    /// By whom and where the team is broken then.
    fn clash(self) -> Clash {
        let place = match self {
            Break::Stop => Place::Stopped,
            Break::Arrival | Break::End => Place::Barrier(0),
            Break::Share => Place::Share(0),
        };
        Clash { member: 1, place }
    }

    /// The call by which it is broken, and its reply.
    fn line(self) -> Line {
        let (ask, answer) = match self {
            Break::Stop => (Ask::Stop, Answer::Stopped),
            Break::Arrival => (Ask::Barrier, Answer::Mismatch),
            Break::End => (Ask::RegionEnd, Answer::Mismatch),
            Break::Share => (Ask::Sections(1, EndKind::Nowait), Answer::Mismatch),
        };
        Line::Call(ask, answer, "what breaks the team")
    }
}

/// Waits until all others wait, and then a while.
fn await_others<R: Wait>(rt: &R, spot: Spot<'_>) {
    let others = (spot.count as u64).saturating_sub(1);
    for _ in rt.forever() {
        if mark_at(spot.marks, WAITING) == others {
            break;
        }
        thread::yield_now();
    }
    for _ in 0..YIELDS {
        thread::yield_now();
    }
}

/// The member breaks the team when all others wait. It is told so itself then.
pub(crate) fn break_team<L: Ledger, H: HoldLedger, F: Ledger, S: TeamRing, R: Wait + Abort>(
    rt: &R,
    alloc: Global,
    member: &mut TestMember<L, H, F, S>,
    spot: Spot<'_>,
    (waiter, how): (Waiter, Break),
) {
    walk_lines(rt, alloc, member, spot, waiter.lead());
    await_others(rt, spot);
    let broken = Answer::Broken(how.clash());
    let then = Line::Call(Ask::MakeLock, broken, "a call then");
    walk_lines(rt, alloc, member, spot, &[how.line(), then]);
}

const ONE_SINGLE: &[Line] = &[A_SINGLE];

const NO_LINES: &[Line] = &[];

/// What a member goes through first, so that another may enter a construct that differs.
fn before_wait(waiter: Waiter, how: Break, number: usize) -> &'static [Line] {
    if how == Break::Share && waiter != Waiter::Room && number == 0 {
        ONE_SINGLE
    } else {
        NO_LINES
    }
}

/// The member waits, and is told that the team is broken.
pub(crate) fn wait_in_vain<L: Ledger, H: HoldLedger, F: Ledger, S: TeamRing, R: Wait + Abort>(
    rt: &R,
    alloc: Global,
    member: &mut TestMember<L, H, F, S>,
    spot: Spot<'_>,
    (waiter, how): (Waiter, Break),
) {
    let before = before_wait(waiter, how, spot.number);
    walk_lines(rt, alloc, member, spot, before);
    walk_lines(rt, alloc, member, spot, waiter.follow());
    add_mark(spot.marks, WAITING, 1);
    let broken = Answer::Broken(how.clash());
    let end = Line::Call(Ask::OwnResume, broken, "its end");
    let then = Line::Call(Ask::OwnTryResume, broken, "a call then");
    walk_lines(rt, alloc, member, spot, &[end, then]);
}

/// For what the others of a team wait, how many members it has, and how it is broken.
type Case = (Waiter, u16, Break);

/// That whoever waits is told by whom and where the team was broken, and so is who settles the region: of each of these cases.
fn waiters_return<R: Threads + Wait + Abort + Sync>(rt: &R, alloc: Global, cases: &[Case]) {
    for (number, (waiter, members, how)) in cases.iter().enumerate() {
        let outcome = run_region(rt, alloc, *members, Way::Broken(*waiter, *how));
        let expected = Err(SettleError::Broken(how.clash()));
        same(rt, &outcome.settled, &expected, "settled", number as u64);
    }
}

const AT_BARRIERS: &[Case] = &[
    (Waiter::Barrier, 2, Break::Stop),
    (Waiter::Barrier, 4, Break::Stop),
    (Waiter::Barrier, 2, Break::End),
    (Waiter::Barrier, 4, Break::End),
    (Waiter::RegionEnd, 2, Break::Stop),
    (Waiter::RegionEnd, 4, Break::Arrival),
    (Waiter::ShareEnd, 2, Break::Stop),
    (Waiter::ShareEnd, 4, Break::Stop),
];

#[test]
fn waiters_at_barriers_return(rt: HostRuntime) {
    waiters_return(&rt, rt.alloc(), AT_BARRIERS);
}

const FOR_TASKS: &[Case] = &[
    (Waiter::Taskwait, 2, Break::Stop),
    (Waiter::Group, 2, Break::Stop),
    (Waiter::Undeferred, 2, Break::Stop),
];

#[test]
fn waiters_for_tasks_return(rt: HostRuntime) {
    waiters_return(&rt, rt.alloc(), FOR_TASKS);
}

const IN_SHARES: &[Case] = &[
    (Waiter::Room, 2, Break::Stop),
    (Waiter::Room, 2, Break::Share),
    (Waiter::Turn, 2, Break::Stop),
    (Waiter::Piece, 2, Break::Stop),
];

#[test]
fn waiters_in_shares_return(rt: HostRuntime) {
    waiters_return(&rt, rt.alloc(), IN_SHARES);
}

const FOR_WORDS: &[Case] = &[
    (Waiter::Words, 2, Break::Stop),
    (Waiter::Words, 4, Break::Stop),
];

#[test]
fn waiters_for_words_return(rt: HostRuntime) {
    waiters_return(&rt, rt.alloc(), FOR_WORDS);
}

const FOR_NAMES_AND_LOCKS: &[Case] = &[
    (Waiter::Name, 2, Break::Stop),
    (Waiter::Name, 4, Break::Stop),
    (Waiter::Lock, 2, Break::Stop),
    (Waiter::Lock, 4, Break::Stop),
    (Waiter::Lock, 2, Break::Share),
    (Waiter::Nest, 2, Break::Stop),
    (Waiter::Nest, 4, Break::Stop),
    (Waiter::Nest, 4, Break::Share),
];

#[test]
fn waiters_for_names_and_locks_return(rt: HostRuntime) {
    waiters_return(&rt, rt.alloc(), FOR_NAMES_AND_LOCKS);
}

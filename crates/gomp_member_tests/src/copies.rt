//! Singles whose executor hands words on to all other members.

use crate::barriers::THE_END;
use crate::checks::same;
use crate::lines::walk_lines;
use crate::regions::{add_mark, mark_at, run_region};
use crate::walkers::{TeamRing, TestMember};
use crate::ways::{Spot, Way};
use gomp_team_book::HoldLedger;
use gomp_types::{Call, Payload, Reply};
use std::alloc::Global;
use std::process::Abort;
use std::sync::Wait;
use std::sync::ledger::Ledger;
use std::thread::Threads;

/// So many singles the members of a test go through.
const ROUNDS: u64 = 500;

/// The words of a single: which it is, and the executor's number from 1.
fn words_of(round: u64, executor: u64) -> Payload {
    let mut words = Payload::new();
    words.push(round);
    words.push(executor);
    words
}

/// The mark that counts the executors of this single. The next one tells the executor's number from 1.
fn executors_of(round: u64) -> usize {
    (round as usize).saturating_mul(2)
}

/// Marks the member as the executor of this single. The words that it hands on.
fn mark_executor(spot: Spot<'_>, round: u64) -> Payload {
    let executor = (spot.number as u64).saturating_add(1);
    let executors = executors_of(round);
    add_mark(spot.marks, executors, 1);
    add_mark(spot.marks, executors.saturating_add(1), executor);
    words_of(round, executor)
}

/// That a member that does not execute this single was given the words of its executor.
fn compare_words(rt: &impl Abort, spot: Spot<'_>, round: u64, reply: &Reply) {
    let executor = mark_at(spot.marks, executors_of(round).saturating_add(1));
    let words = Reply::Copied(words_of(round, executor));
    same(rt, reply, &words, "the words of single", round);
}

/// The member goes through this single. Two marks tell how many members executed it, and the executor's number from 1, which it
/// leaves before it puts its words.
fn walk_copy<L: Ledger, H: HoldLedger, F: Ledger, S: TeamRing, R: Wait + Abort>(
    rt: &R,
    member: &mut TestMember<L, H, F, S>,
    spot: Spot<'_>,
    round: u64,
) {
    let reply = member.call(rt, Call::SingleCopyStart);
    if matches!(&reply, Reply::Executor(true)) {
        let words = mark_executor(spot, round);
        let put = member.call(rt, Call::SingleCopyEnd(words));
        same(rt, &put, &Reply::Finished, "its words", round);
    } else {
        compare_words(rt, spot, round, &reply);
    }
}

/// The member goes through so many singles, and to the region's end.
pub(crate) fn walk_copies<L: Ledger, H: HoldLedger, F: Ledger, S: TeamRing, R: Wait + Abort>(
    rt: &R,
    alloc: Global,
    member: &mut TestMember<L, H, F, S>,
    spot: Spot<'_>,
    rounds: u64,
) {
    for round in 0..rounds {
        walk_copy(rt, member, spot, round);
    }
    walk_lines(rt, alloc, member, spot, THE_END);
}

/// One of so many members executes each single, and every other one is given its words.
fn copy_words<R: Threads + Wait + Abort + Sync>(rt: &R, alloc: Global, members: u16) {
    let outcome = run_region(rt, alloc, members, Way::Copies(ROUNDS));
    for round in 0..ROUNDS {
        let executors = outcome.mark(executors_of(round));
        same(rt, &executors, &1, "executors of single", round);
    }
    let settled = outcome.settled.is_ok();
    same(rt, &settled, &true, "settled", members as u64);
}

#[test]
fn members_copy_the_words_of_the_executor(rt: HostRuntime) {
    copy_words(&rt, rt.alloc(), 2);
    copy_words(&rt, rt.alloc(), 4);
}

//! Regions that give no history.

use crate::checks::same;
use crate::regions::{run_after_refusal, run_region, run_regions};
use crate::ways::Way;
use gomp_team_region::SettleError;
use gomp_types::{Clash, Place};
use std::alloc::Global;
use std::process::Abort;
use std::sync::Wait;
use std::thread::Threads;

/// That a team of so many which goes this way leaves no history, but this.
fn unsettled<R: Threads + Wait + Abort + Sync>(
    rt: &R,
    alloc: Global,
    members: u16,
    way: Way,
    why: SettleError,
) {
    let outcome = run_region(rt, alloc, members, way);
    same(rt, &outcome.settled, &Err(why), "settled", members as u64);
}

/// A member that has not passed the region's end leaves its region unsettled, alone or with others.
#[test]
fn members_that_went_astray_are_not_settled(rt: HostRuntime) {
    for members in &[1, 2, 4, 64] {
        let why = SettleError::Unsettled;
        unsettled(&rt, rt.alloc(), *members, Way::Astray, why);
    }
}

/// A stopped team is broken by the member that stopped it.
#[test]
fn stopped_teams_are_broken(rt: HostRuntime) {
    for members in &[1u16, 2, 64] {
        let clash = Clash {
            member: members.saturating_sub(1),
            place: Place::Stopped,
        };
        let why = SettleError::Broken(clash);
        unsettled(&rt, rt.alloc(), *members, Way::Stopped, why);
    }
}

/// Teams that have one ledger in turn.
const TEAMS: &[(u16, Way)] = &[
    (2, Way::Barriers(3)),
    (64, Way::Barriers(0)),
    (1, Way::Stopped),
    (4, Way::Astray),
    (1, Way::Barriers(1)),
    (2, Way::Names(5)),
];

/// The events of each.
const EVENTS: &[u64] = &[16, 128, 0, 0, 4, 4];

/// One ledger serves teams one after another, of any size, and whatever became of those before. No event
/// of an earlier one is in a history.
#[test]
fn teams_have_one_ledger_in_turn(rt: HostRuntime) {
    let outcomes = run_regions(&rt, rt.alloc(), TEAMS);
    same(&rt, &outcomes.len(), &6, "regions", 0);
    for (outcome, events) in outcomes.iter().zip(EVENTS) {
        same(&rt, &outcome.events(), events, "events", 0);
    }
}

/// The ledger and the tools of a team that is refused for its size come back.
#[test]
fn refused_teams_give_their_ledger_back(rt: HostRuntime) {
    for tools in &[0, 65] {
        let outcome = run_after_refusal(&rt, rt.alloc(), *tools);
        same(&rt, &outcome.events(), &2, "events after", *tools as u64);
    }
}

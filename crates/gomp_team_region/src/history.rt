//! Whether the history of a region has what its members were answered.

ghost use Rattle.std.specs.Prelude.{◌≡◌, ◌≤◌, ◌↔◌, IsTrue, IsOk, IfOk, IfErr, length, reverse};
ghost use Rattle.gomp_types.specs.declared.limits.TheConstants.{MAX_MEMBERS};
ghost use Rattle.gomp_events.specs.Cancels.{is_cancelled};
ghost use Rattle.gomp_events.specs.Events.{clash_of, has_left_region};
ghost use Rattle.gomp_team_board.specs.Locked.{team_size};
ghost use Rattle.gomp_team_board.specs.Parts.{is_pass};
ghost use Rattle.gomp_team_region.specs.declared.settle.SettleError.TheVariants.{Unsettled};
ghost use Rattle.gomp_team_region.specs.Settled.{all_arrive_within, arrives_within, cancels_region, comes_to_end, HasReturned, HaveReturned, IsSettled, LeftShares, settle_error};

use crate::outcome::RegionWork;
use crate::settle::SettleError;
use gomp_events::{Arrival, Event};
use gomp_ring::Gathered;
use gomp_team_board::{PartCounts, counts_of};
use gomp_types::{MAX_MEMBERS, Scope};
use gomp_waits::WaitBoard;

/// The history of a region, the oldest event first, whose members' counts are these, in the order of
/// their numbers. Refused with `Broken` if the team is broken, and with `Unsettled` if these are not the
/// counts of all its members, or one of these has not passed the region's end.
pub fn region_history(board: WaitBoard, counts: &[PartCounts]) -> Result<Vec<Event>, SettleError>
    ensures settled { IsOk result ↔
        IsSettled (team_size board) counts.now board.board.history }
    ensures history { IfOk result (λ history. history.items ≡ board.board.history) }
    ensures refused { IfErr result (λ error. error ≡
        settle_error (clash_of (reverse board.board.history))) }
{
    let _ = board.history(); // the board stands for it
    if let Some(clash) = board.clash() {
        return Err(SettleError::Broken(clash));
    }
    let members = board.members();
    if members as usize != counts.len() {
        return Err(SettleError::Unsettled);
    }
    let history = board.into_history();
    if have_returned(history.as_slice(), counts) {
        Ok(history)
    } else {
        Err(SettleError::Unsettled)
    }
}

/// What the members of a region did, whose history is this, and who gathered so. Refused as the history is, and with `Unsettled` if the
/// region was not cancelled, and a member had started a work-share when it arrived at a barrier that not all have left.
pub(crate) fn region_work(
    history: Result<Vec<Event>, SettleError>,
    gathered: Gathered,
) -> Result<RegionWork, SettleError>
    ensures history { IfOk result (λ work.
        IfOk history (λ events. work.history.items ≡ events.items)) }
    ensures settled { IsOk result → IsOk history }
    ensures shares { IfOk result (λ work. work.shares ≡ gathered.shares) }
    ensures taken { IfOk result (λ work. work.taken.items ≡ gathered.taken.items) }
    ensures left { IfOk result (λ work. LeftShares work.shares work.history.items) }
    ensures refused { IfErr result (λ error. IfErr history (λ first. error ≡ first)) }
    ensures stayed { IfErr result (λ error. IfOk history (λ events.
        (error ≡ Unsettled) × (LeftShares gathered.shares events.items → ⊥))) }
{
    let Gathered { shares, taken } = gathered;
    let history = history?;
    if !is_cancelled(history.as_slice()) && !all_arrive_within(shares, history.as_slice()) {
        return Err(SettleError::Unsettled);
    }
    Ok(RegionWork {
        history,
        shares,
        taken,
    })
}

/// Whether the region was cancelled in the history.
fn is_cancelled(history: &[Event]) -> bool
    ensures { result ≡ is_cancelled (reverse history.now) }
{
    let mut rest = history;
    while let [event, later @ ..] = rest {
        if cancels_region(event) {
            return true;
        }
        rest = later;
    }
    false
}

/// Whether the event cancels the region.
fn cancels_region(event: &Event) -> bool
    ensures { result ≡ cancels_region event.now }
{
    matches!(
        event,
        Event::Cancel {
            scope: Scope::Region,
            ..
        }
    )
}

/// Whether each arrival in the history comes after at most so many started work-shares.
fn all_arrive_within(shares: u64, history: &[Event]) -> bool
    ensures { result ≡ all_arrive_within shares history.now }
{
    let mut rest = history;
    while let [event, later @ ..] = rest {
        if !arrives_within(shares, event) {
            return false;
        }
        rest = later;
    }
    true
}

/// Whether the event, if it is an arrival, comes after at most so many.
fn arrives_within(shares: u64, event: &Event) -> bool
    ensures { result ≡ arrives_within shares event.now }
{
    match event {
        Event::Arrive { tag, .. } => tag.shares <= shares,
        _ => true,
    }
}

/// Whether each of the first members, as many as these counts, has returned.
fn have_returned(history: &[Event], counts: &[PartCounts]) -> bool
    requires few { length counts.now ≤ MAX_MEMBERS }
    ensures { IsTrue result ↔ HaveReturned 0 counts.now history.now }
{
    let mut rest = counts;
    let mut member = 0;
    while let [first, later @ ..] = rest {
        if !has_returned(history, member, *first) {
            return false;
        }
        member += 1;
        rest = later;
    }
    true
}

/// Whether the member has passed the region's end in the history, and has these counts there.
fn has_returned(history: &[Event], member: u16, counts: PartCounts) -> bool
    ensures { IsTrue result ↔ HasReturned member counts history.now }
{
    has_left(history, member) && counts_of(history, member) == counts
}

/// Whether the member has passed the region's end in the history, which has the oldest event first: once
/// it has arrived there it passes nothing else.
fn has_left(history: &[Event], member: u16) -> bool
    ensures { result ≡ has_left_region member (reverse history.now) }
{
    let mut rest = history;
    let mut came = false;
    while let [event, later @ ..] = rest {
        if came && passes(event, member) {
            return true;
        }
        if comes_to_end(event, member) {
            came = true;
        }
        rest = later;
    }
    false
}

/// Whether the member passes a barrier by the event.
fn passes(event: &Event, member: u16) -> bool
    ensures { result ≡ is_pass member event.now }
{
    match event {
        Event::Pass { member: by, .. } => *by == member,
        _ => false,
    }
}

/// Whether the member arrives at the region's end by the event.
fn comes_to_end(event: &Event, member: u16) -> bool
    ensures { result ≡ comes_to_end member event.now }
{
    match event {
        Event::Arrive {
            member: by,
            tag,
            ..
        } => { *by == member && matches!(tag.kind, Arrival::RegionEnd) }
        _ => false,
    }
}

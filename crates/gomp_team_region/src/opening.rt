//! How the members of a team are made.

ghost use Rattle.std.specs.Prelude.{◌≡◌, ◌≤◌, ◌<◌, ◌+◌, ◌++◌, [], true, IfOk, IfErr, IfSome, OnErr, length, reverse, vec_len, vec_capacity};
ghost use Rattle.gomp_types.specs.Limits.{IsTeamSize};
ghost use Rattle.gomp_types.specs.declared.limits.TheConstants.{MAX_MEMBERS};
ghost use Rattle.gomp_team_board.specs.Parts.{new_part, merged_part};
ghost use Rattle.gomp_team_book.specs.Parts.{merged_book_part};
ghost use Rattle.gomp_seats.specs.NewSeats.{AreNewSeats};
ghost use Rattle.gomp_team_region.specs.Regions.{IsNewMember, AreNewMembers, IsNewSeat, AreSeatsFrom, tools_of, seats_of, events_parts, held_parts, freed_parts, with_parts, with_book_parts};

use crate::book_share::BookShare;
use crate::returned::take_parts;
use gomp_ompt::Tool;
use gomp_ring::RingSeat;
use gomp_team::{Member, MemberParts, NewTeam, SharedTeam, TeamTerms};
use gomp_team_board::{EventLedger, Part};
use gomp_team_book::HoldLedger;
use std::alloc::{AllocFailed, Global};
use std::sync::Arc;
use std::sync::ledger::Ledger;

/// What the members of a new team share, as they have it.
type Shared<L, H, F> = Arc<SharedTeam<L, H, F>, Global>;

/// What the members of a new team share, the whole of its ledger, which no team had, and their seats. If memory is refused, the
/// ledger comes back.
pub(crate) fn new_team<L: Ledger, H: HoldLedger, F: Ledger>(
    alloc: Global,
    size: u16,
    terms: TeamTerms,
    share: &BookShare<H, F>,
    ledger: EventLedger<L>,
) -> Result<(Shared<L, H, F>, Part<L>, Vec<RingSeat>), EventLedger<L>>
    requires size { IsTeamSize size }
    requires ledger { ledger ≡ L.parts }
    ensures number { IfOk result (λ made. made.0.value.team.number ≡ terms.number) }
    ensures icv { IfOk result (λ made. made.0.value.team.icv ≡ terms.icv) }
    ensures whole { IfOk result (λ made. made.1 ≡ new_part L.parts 0) }
    ensures seats { IfOk result (λ made. AreNewSeats size made.0.value.ring made.2.items) }
    ensures back { IfErr result (λ back. back ≡ L.parts) }
{
    let Ok(book) = Arc::try_clone(&share.book) else {
        return Err(ledger);
    };
    let NewTeam { team, whole, seats } = match SharedTeam::new(alloc, size, terms, book, ledger) {
        Ok(made) => made,
        Err((_, ledger)) => return Err(ledger),
    };
    match Arc::new(alloc, team) {
        Ok(team) => Ok((team, whole, seats)),
        Err(AllocFailed { value: team }) => {
            let (_, ledger) = team.close(whole);
            Err(ledger)
        }
    }
}

/// The ledger of a team without members, of which this is the whole. None if the team has another owner.
pub(crate) fn closed_ledger<L: Ledger, H: HoldLedger, F: Ledger>(
    team: Arc<SharedTeam<L, H, F>, Global>,
    whole: Part<L>,
) -> Option<EventLedger<L>>
    requires whole { whole.parts ≡ L.parts }
    ensures ledger { IfSome result (λ ledger. ledger ≡ L.parts) }
{
    let (_, ledger) = Arc::into_inner(team)?.close(whole);
    Some(ledger)
}

/// Makes a member for each tool, the last one first, with the last of the seats, and hands them on in the order of their numbers. If
/// memory is refused it stops: the tools that no member has stay.
pub(crate) fn open_members<L: Ledger, H: HoldLedger, F: Ledger, T: Tool>(
    alloc: Global,
    team: &Arc<SharedTeam<L, H, F>, Global>,
    rest: &mut Part<L>,
    share: &mut BookShare<H, F>,
    mut seats: Vec<RingSeat>,
    tools: &mut Vec<T>,
    members: &mut Vec<Member<L, H, F, T>>,
) -> bool
    requires seats { AreSeatsFrom team.now.value.ring 0 (reverse seats.items) }
    requires each { length seats.items ≡ vec_len tools.old }
    requires events { vec_len tools.old < rest.old.parts }
    requires held { vec_len tools.old < share.old.held.parts }
    requires freed { vec_len tools.old < share.old.freed.parts }
    requires few { vec_len tools.old ≤ MAX_MEMBERS }
    requires none { members.old.items ≡ [] }
    requires room { vec_len tools.old ≤ vec_capacity members.old }
    ensures all { result ≡ true → tools.new.items ≡ [] }
    ensures count { result ≡ true → length members.new.items ≡ vec_len tools.old }
    ensures few { vec_len tools.new + vec_len members.new ≤ vec_len tools.old }
    ensures members { AreNewMembers team.now.value.team 0 members.new.items }
    ensures seats { AreSeatsFrom team.now.value.ring 0 (seats_of members.new.items) }
    ensures tools { tools_of members.new.items ++ reverse tools.new.items
        ≡ reverse tools.old.items }
    ensures rest { with_parts rest.new (events_parts members.new.items) ≡ rest.old }
    ensures held { with_book_parts share.new.held (held_parts members.new.items) ≡ share.old.held }
    ensures freed { with_book_parts share.new.freed (freed_parts members.new.items)
        ≡ share.old.freed }
    ensures capacity { vec_capacity tools.new ≡ vec_capacity tools.old }
{
    let mut number = 0;
    while let Some(tool) = tools.pop() {
        let Some(seat) = seats.pop() else {
            unreachable!()
        };
        match open_member(alloc, team, number, rest, share, seat, tool) {
            Ok(member) => members.push_reserved(member),
            Err(tool) => {
                tools.push_reserved(tool);
                return false;
            }
        }
        number += 1;
    }
    true
}

/// Makes the member of this number, whose seat this is. If memory is refused, its tool comes back, and no part is taken.
fn open_member<L: Ledger, H: HoldLedger, F: Ledger, T: Tool>(
    alloc: Global,
    team: &Arc<SharedTeam<L, H, F>, Global>,
    number: u16,
    rest: &mut Part<L>,
    share: &mut BookShare<H, F>,
    seat: RingSeat,
    tool: T,
) -> Result<Member<L, H, F, T>, T>
    requires seat { IsNewSeat team.now.value.ring number seat }
    requires events { 1 < rest.old.parts }
    requires held { 1 < share.old.held.parts }
    requires freed { 1 < share.old.freed.parts }
    ensures member { IfOk result (λ made. IsNewMember team.now.value.team number made) }
    ensures seat { IfOk result (λ made. made.seat ≡ seat) }
    ensures tool { IfOk result (λ made. made.tool ≡ tool) }
    ensures rest { IfOk result (λ made. merged_part rest.new made.events ≡ rest.old) }
    ensures held { IfOk result (λ made.
        merged_book_part share.new.held made.held ≡ share.old.held) }
    ensures freed { IfOk result (λ made.
        merged_book_part share.new.freed made.freed ≡ share.old.freed) }
    ensures back { IfErr result (λ back. back ≡ tool) }
    ensures rest_back { OnErr result (rest.new ≡ rest.old) }
    ensures held_back { OnErr result (share.new.held ≡ share.old.held) }
    ensures freed_back { OnErr result (share.new.freed ≡ share.old.freed) }
{
    let Ok(theirs) = Arc::try_clone(team) else {
        return Err(tool);
    };
    let parts = MemberParts {
        board: rest.split(1),
        held: share.held.split(1),
        freed: share.freed.split(1),
        seat,
    };
    match Member::new(alloc, theirs, parts, tool) {
        Ok(member) => Ok(member),
        Err((parts, tool)) => {
            let _ = take_parts(parts, rest, share);
            Err(tool)
        }
    }
}

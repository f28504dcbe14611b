//! The team of a region: how it is made, and how it is taken back.

ghost use Rattle.std.specs.Prelude.{◌≡◌, ◌<◌, ◌≤◌, ◌+◌, ◌⊎◌, ◌↔◌, [], IsNone, IsSome, Err, IfOk, IfErr, OnOk, OnErr, length, reverse, vec_len, vec_capacity};
ghost use Rattle.gomp_types.specs.declared.limits.TheConstants.{MAX_MEMBERS};
ghost use Rattle.gomp_types.specs.declared.refusal.Refusal.TheVariants.{BadTeam, NoMemory};
ghost use Rattle.gomp_types.specs.Limits.{IsTeamSize};
ghost use Rattle.gomp_ring.specs.RingSeats.{AreAllSeats, Gathers};
ghost use Rattle.gomp_ring.specs.Rings.{ring_members};
ghost use Rattle.gomp_seats.specs.NewSeats.{AreNewSeats};
ghost use Rattle.gomp_team_region.specs.Regions.{AreNewMembers, IsNewRegion, GivesParts, tools_of, seats_of, events_parts, held_parts, freed_parts, counts_on, with_parts, with_book_parts};
ghost use Rattle.gomp_team_region.specs.declared.settle.SettleError.TheVariants.{Unsettled};
ghost use Rattle.gomp_team_region.specs.Settled.{IsHistory, IsCounted, MembersNotSettled, LeftShares, ComesBack};

use crate::book_share::BookShare;
use crate::history::{region_history, region_work};
use crate::opening::{closed_ledger, new_team, open_members};
use crate::outcome::{RefusedTeam, SettledTeam};
use crate::returned::{Room, take_back};
use crate::settle::SettleError;
use gomp_ompt::Tool;
use gomp_ring::RingSeat;
use gomp_team::{Member, SharedTeam, TeamTerms};
use gomp_team_board::{EventLedger, Part};
use gomp_team_book::HoldLedger;
use gomp_types::{MAX_MEMBERS, Refusal};
use std::alloc::Global;
use std::marker::Model;
use std::sync::Arc;
use std::sync::ledger::Ledger;

/// The team of a region whose members were handed out: what they share, what is left of the ledger of
/// its events, and room for what comes back.
#[derive(Drop)]
pub struct RegionTeam<L: Ledger, H: HoldLedger, F: Ledger, T: Tool> {
    /// What its members share.
    team: Arc<SharedTeam<L, H, F>, Global>,
    /// What is left of the ledger of its events.
    rest: Part<L>,
    /// How many members it has.
    size: u16,
    /// Room for their tools and counts.
    room: Room<T>,
}

impl<L: Ledger, H: HoldLedger, F: Ledger, T: Tool> Model for RegionTeam<L, H, F, T> {
    ghost use Rattle.std.specs.Prelude.{◌≡◌, ◌≤◌, [], length, vec_capacity};
    ghost use Rattle.gomp_team_region.specs.Regions.{RegionView};

    ghost Value = { RegionView };

    ghost view = { λ r. record { team = r.team.value.team; ring = r.team.value.ring; size = r.size; rest = r.rest } };

    ghost invariant = { λ r. (r.room.tools.items ≡ []) × (r.room.counts.items ≡ []) × (r.room.seats.items ≡ []) × (r.size ≤ vec_capacity r.room.tools) × (r.size ≤ vec_capacity r.room.counts) × (r.size ≤ vec_capacity r.room.seats) × (length r.room.taken.items ≡ r.size) };
}

/// A team whose members are open, and these members.
type Opened<L, H, F, T> = (RegionTeam<L, H, F, T>, Vec<Member<L, H, F, T>>);

impl<L: Ledger, H: HoldLedger, F: Ledger, T: Tool> RegionTeam<L, H, F, T> {
    /// A team with a member for each tool, 1 to 64, and these members, in the order of their numbers from
    /// 0. The ledger is that of its events; no team has it. Of the book's ledgers each member takes one
    /// part of `share`.
    ///
    /// Refused with `BadTeam` (E38) if the number of tools is not 1 to 64, and with `NoMemory` (E37) if
    /// memory is refused; then the ledger and the tools come back, and `share` is as it was.
    pub fn new(
        alloc: Global,
        terms: TeamTerms,
        share: &mut BookShare<H, F>,
        ledger: EventLedger<L>,
        tools: Vec<T>,
    ) -> Result<(RegionTeam<L, H, F, T>, Vec<Member<L, H, F, T>>), RefusedTeam<L, T>>
        requires ledger { ledger ≡ L.parts }
        requires events { MAX_MEMBERS < L.parts }
        requires held { MAX_MEMBERS < share.old.held.parts }
        requires freed { MAX_MEMBERS < share.old.freed.parts }
        ensures size { IfErr result (λ refused. refused.refusal ≡ BadTeam ↔
            (IsTeamSize (vec_len tools) → ⊥)) }
        ensures refused { IfErr result (λ refused.
            (refused.refusal ≡ BadTeam) ⊎ (refused.refusal ≡ NoMemory)) }
        ensures fits { IfOk result (λ made. IsTeamSize (vec_len tools)) }
        ensures region { IfOk result (λ made.
            IsNewRegion terms.number terms.icv (vec_len tools) L.parts made.0) }
        ensures members { IfOk result (λ made. AreNewMembers made.0.team 0 made.1.items) }
        ensures seats { IfOk result (λ made.
            AreAllSeats made.0.ring (seats_of made.1.items)) }
        ensures tools { IfOk result (λ made. tools_of made.1.items ≡ tools.items) }
        ensures held { OnOk result (GivesParts (vec_len tools) share.old.held share.new.held) }
        ensures freed { OnOk result (GivesParts (vec_len tools) share.old.freed share.new.freed) }
        ensures back { IfErr result (λ refused. refused.tools.items ≡ tools.items) }
        ensures ledger_back { IfErr result (λ refused. ComesBack L.parts refused.ledger) }
        ensures kept { IfErr result (λ refused. refused.refusal ≡ BadTeam → IsSome refused.ledger) }
        ensures held_back { OnErr result (share.new.held ≡ share.old.held) }
        ensures freed_back { OnErr result (share.new.freed ≡ share.old.freed) }
    {
        let count = tools.len();
        if count == 0 || count > MAX_MEMBERS as usize {
            return Err(RefusedTeam {
                refusal: Refusal::BadTeam,
                ledger: Some(ledger),
                tools,
            });
        }
        match RegionTeam::new_admitted(alloc, terms, share, ledger, tools) {
            Ok(opened) => Ok(opened),
            Err((ledger, tools)) => Err(RefusedTeam {
                refusal: Refusal::NoMemory,
                ledger,
                tools,
            }),
        }
    }

    /// The same of a number of tools that a team may have. The ledger is put into the team when all memory
    /// but that of its members is there.
    fn new_admitted(
        alloc: Global,
        terms: TeamTerms,
        share: &mut BookShare<H, F>,
        ledger: EventLedger<L>,
        tools: Vec<T>,
    ) -> Result<Opened<L, H, F, T>, (Option<EventLedger<L>>, Vec<T>)>
        requires size { IsTeamSize (vec_len tools) }
        requires ledger { ledger ≡ L.parts }
        requires events { MAX_MEMBERS < L.parts }
        requires held { MAX_MEMBERS < share.old.held.parts }
        requires freed { MAX_MEMBERS < share.old.freed.parts }
        ensures region { IfOk result (λ made.
            IsNewRegion terms.number terms.icv (vec_len tools) L.parts made.0) }
        ensures members { IfOk result (λ made. AreNewMembers made.0.team 0 made.1.items) }
        ensures seats { IfOk result (λ made.
            AreAllSeats made.0.ring (seats_of made.1.items)) }
        ensures tools { IfOk result (λ made. tools_of made.1.items ≡ tools.items) }
        ensures held { OnOk result (GivesParts (vec_len tools) share.old.held share.new.held) }
        ensures freed { OnOk result (GivesParts (vec_len tools) share.old.freed share.new.freed) }
        ensures back { IfErr result (λ back. back.1.items ≡ tools.items) }
        ensures ledger_back { IfErr result (λ back. ComesBack L.parts back.0) }
        ensures held_back { OnErr result (share.new.held ≡ share.old.held) }
        ensures freed_back { OnErr result (share.new.freed ≡ share.old.freed) }
    {
        let size = tools.len() as u16;
        let Ok(members) = Vec::with_capacity(alloc, tools.len()) else {
            return Err((Some(ledger), tools));
        };
        let room = match Room::new(alloc, tools) {
            Ok(room) => room,
            Err(tools) => return Err((Some(ledger), tools)),
        };
        match new_team(alloc, size, terms, share, ledger) {
            Ok((team, rest, seats)) => {
                RegionTeam::open(alloc, team, rest, seats, share, room, members)
            }
            Err(ledger) => {
                let Room { tools, .. } = room.into_lists();
                Err((Some(ledger), tools))
            }
        }
    }

    /// Opens the members of a team: one for each tool in the room. If memory is refused, the ledger and
    /// the tools come back.
    fn open(
        alloc: Global,
        team: Arc<SharedTeam<L, H, F>, Global>,
        mut rest: Part<L>,
        mut seats: Vec<RingSeat>,
        share: &mut BookShare<H, F>,
        mut room: Room<T>,
        mut members: Vec<Member<L, H, F, T>>,
    ) -> Result<Opened<L, H, F, T>, (Option<EventLedger<L>>, Vec<T>)>
        requires size { IsTeamSize (vec_len room.tools) }
        requires whole { rest.parts ≡ L.parts }
        requires seats { AreNewSeats (vec_len room.tools) team.value.ring seats.items }
        requires events { MAX_MEMBERS < rest.parts }
        requires held { MAX_MEMBERS < share.old.held.parts }
        requires freed { MAX_MEMBERS < share.old.freed.parts }
        requires none { (members.items ≡ []) × (room.counts.items ≡ []) × (room.seats.items ≡ []) }
        requires members_room { vec_len room.tools ≤ vec_capacity members }
        requires tools_room { vec_len room.tools ≤ vec_capacity room.tools }
        requires counts_room { vec_len room.tools ≤ vec_capacity room.counts }
        requires seats_room { vec_len room.tools ≤ vec_capacity room.seats }
        requires taken { length room.taken.items ≡ vec_len room.tools }
        ensures region { IfOk result (λ made.
            (made.0.team ≡ team.value.team) × (made.0.size ≡ vec_len room.tools)) }
        ensures rest { IfOk result (λ made. (made.0.rest.parts + vec_len room.tools ≡ rest.parts)
            × (made.0.rest.amount ≡ rest.amount)) }
        ensures members { IfOk result (λ made. AreNewMembers made.0.team 0 made.1.items) }
        ensures seats { IfOk result (λ made.
            AreAllSeats made.0.ring (seats_of made.1.items)) }
        ensures tools { IfOk result (λ made. tools_of made.1.items ≡ reverse room.tools.items) }
        ensures held { OnOk result (GivesParts (vec_len room.tools) share.old.held share.new.held) }
        ensures freed { OnOk result
            (GivesParts (vec_len room.tools) share.old.freed share.new.freed) }
        ensures back { IfErr result (λ back. back.1.items ≡ reverse room.tools.items) }
        ensures ledger_back { IfErr result (λ back. ComesBack L.parts back.0) }
        ensures held_back { OnErr result (share.new.held ≡ share.old.held) }
        ensures freed_back { OnErr result (share.new.freed ≡ share.old.freed) }
    {
        let size = room.tools.len() as u16;
        seats.reverse();
        if open_members(
            alloc,
            &team,
            &mut rest,
            share,
            seats,
            &mut room.tools,
            &mut members,
        ) {
            let opened = RegionTeam {
                team,
                rest,
                size,
                room,
            };
            return Ok((opened, members));
        }
        take_back(members, &mut rest, share, &mut room);
        let Room { tools, .. } = room.into_lists();
        Err((closed_ledger(team, rest), tools))
    }

    /// Takes all members back, in the order of their numbers, once they have returned: their tools, what they did, and the ledger of
    /// the team's events, which the next team may have. Their parts of the book's ledgers go back to `share`. With the part that was
    /// left, the members have all parts of the ledger: so each stored event, discards aside, was given by a call. And they have all seats
    /// of the work-shares: so what these know is what the team did.
    ///
    /// What they did is handed out only if no member broke the team (`Broken`, E3), and each member has passed the region's end there,
    /// and has created tasks, passed barriers and started tasks as often as it was answered; and, unless the region was cancelled, if all
    /// members have left each work-share that one had started when it arrived at a barrier (`Unsettled`, E42). If another thread has the
    /// team, there is no ledger, and the answer is `Unsettled`.
    pub fn settle(
        self,
        share: &mut BookShare<H, F>,
        members: Vec<Member<L, H, F, T>>,
    ) -> SettledTeam<L, T>
        requires all { vec_len members ≡ self.size }
        requires whole { (with_parts self.rest (events_parts members.items)).parts ≡ L.parts }
        requires seats { AreAllSeats self.ring (seats_of members.items) }
        ensures tools { result.tools.items ≡ tools_of members.items }
        ensures history { IfOk result.work (λ work.
            IsHistory (counts_on (events_parts members.items)) work.history.items) }
        ensures whole { IfOk result.work (λ work.
            IsCounted (with_parts self.rest (events_parts members.items)) work.history.items) }
        ensures gathered { IfOk result.work (λ work. Gathers (ring_members self.ring)
            (seats_of members.items) work.shares work.taken.items) }
        ensures left { IfOk result.work (λ work. LeftShares work.shares work.history.items) }
        ensures ledger { ComesBack L.parts result.ledger }
        ensures lost { IsNone result.ledger → result.work ≡ Err Unsettled }
        ensures refused { IfErr result.work (λ error. IsSome result.ledger →
            MembersNotSettled self.ring self.rest members.items error) }
        ensures held { share.new.held ≡ with_book_parts share.old.held (held_parts members.items) }
        ensures freed { share.new.freed ≡
            with_book_parts share.old.freed (freed_parts members.items) }
    {
        let RegionTeam {
            team,
            mut rest,
            mut room,
            ..
        } = self;
        take_back(members, &mut rest, share, &mut room);
        let Room {
            tools,
            counts,
            seats,
            taken,
        } = room.into_lists();
        let Some(team) = Arc::into_inner(team) else {
            return SettledTeam {
                tools,
                work: Err(SettleError::Unsettled),
                ledger: None,
            };
        };
        let gathered = team.gather(seats, taken);
        let (board, free) = team.close(rest);
        let history = region_history(board, counts.as_slice());
        SettledTeam {
            tools,
            work: region_work(history, gathered),
            ledger: Some(free),
        }
    }
}

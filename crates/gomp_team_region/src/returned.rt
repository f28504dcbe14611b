//! What is taken back of members that have returned.

ghost use Rattle.std.specs.Prelude.{◌≡◌, ◌≤◌, ◌+◌, ◌++◌, [], length, reverse, vec_len, vec_capacity, IfOk, IfErr};
ghost use Rattle.gomp_team_board.specs.Parts.{merged_part};
ghost use Rattle.gomp_team_book.specs.Parts.{merged_book_part};
ghost use Rattle.gomp_team_region.specs.Regions.{tools_of, seats_of, events_parts, counts_on, held_parts, freed_parts, with_parts, with_book_parts};

use crate::book_share::BookShare;
use gomp_ompt::Tool;
use gomp_ring::RingSeat;
use gomp_team::{Member, MemberParts};
use gomp_team_board::{Part, PartCounts};
use gomp_team_book::HoldLedger;
use std::alloc::Global;
use std::sync::ledger::Ledger;

/// Room for what comes back of members: their tools, the counts of what they were answered, their seats, and what they took.
#[derive(Drop)]
pub(crate) struct Room<T> {
    /// Tools.
    pub(crate) tools: Vec<T>,
    /// Counts, of as many members.
    pub(crate) counts: Vec<PartCounts>,
    /// Their seats.
    pub(crate) seats: Vec<RingSeat>,
    /// A number for each: how many iterations of loops it took, once that is known.
    pub(crate) taken: Vec<u128>,
}

impl<T> Room<T> {
    /// The room that these tools leave once they are handed out, in which they lie yet, the first last,
    /// and room for as many counts and seats, and as many numbers. If memory is refused, the tools come back as they were.
    pub(crate) fn new(alloc: Global, mut tools: Vec<T>) -> Result<Room<T>, Vec<T>>
        ensures tools { IfOk result (λ room. room.tools.items ≡ reverse tools.items) }
        ensures len { IfOk result (λ room.
            (vec_len room.tools ≡ vec_len tools) × (vec_len room.counts ≡ 0)) }
        ensures tools_room { IfOk result (λ room. vec_len tools ≤ vec_capacity room.tools) }
        ensures counts { IfOk result (λ room. room.counts.items ≡ []) }
        ensures counts_room { IfOk result (λ room. vec_len tools ≤ vec_capacity room.counts) }
        ensures seats { IfOk result (λ room. room.seats.items ≡ []) }
        ensures seats_room { IfOk result (λ room. vec_len tools ≤ vec_capacity room.seats) }
        ensures taken { IfOk result (λ room. length room.taken.items ≡ vec_len tools) }
        ensures back { IfErr result (λ back. back ≡ tools) }
    {
        let Ok(counts) = Vec::with_capacity(alloc, tools.len()) else {
            return Err(tools);
        };
        let Ok(seats) = Vec::with_capacity(alloc, tools.len()) else {
            return Err(tools);
        };
        let Ok(taken) = vec![in alloc; 0u128; tools.len()] else {
            return Err(tools);
        };
        tools.reverse();
        Ok(Room {
            tools,
            counts,
            seats,
            taken,
        })
    }

    /// What lies in the room, in the order of members' numbers.
    pub(crate) fn into_lists(self) -> Room<T>
        ensures tools { result.tools.items ≡ reverse self.tools.items }
        ensures counts { result.counts.items ≡ reverse self.counts.items }
        ensures seats { result.seats.items ≡ reverse self.seats.items }
        ensures taken { result.taken.items ≡ self.taken.items }
    {
        let mut room = self;
        room.tools.reverse();
        room.counts.reverse();
        room.seats.reverse();
        room
    }
}

/// Takes the parts of a member back, and hands its seat on.
pub(crate) fn take_parts<L: Ledger, H: HoldLedger, F: Ledger>(
    parts: MemberParts<L, H, F>,
    rest: &mut Part<L>,
    share: &mut BookShare<H, F>,
) -> RingSeat
    ensures rest { rest.new ≡ merged_part rest.old parts.board }
    ensures held { share.new.held ≡ merged_book_part share.old.held parts.held }
    ensures freed { share.new.freed ≡ merged_book_part share.old.freed parts.freed }
    ensures book { share.new.book ≡ share.old.book }
    ensures seat { result ≡ parts.seat }
{
    let MemberParts {
        board,
        held,
        freed,
        seat,
    } = parts;
    rest.merge(board);
    share.held.merge(held);
    share.freed.merge(freed);
    seat
}

/// Takes members back, the last first: their parts, their tools, their counts and their seats.
pub(crate) fn take_back<L: Ledger, H: HoldLedger, F: Ledger, T: Tool>(
    mut members: Vec<Member<L, H, F, T>>,
    rest: &mut Part<L>,
    share: &mut BookShare<H, F>,
    room: &mut Room<T>,
)
    requires tools_room { vec_len room.old.tools + vec_len members ≤ vec_capacity room.old.tools }
    requires counts_room { vec_len room.old.counts + vec_len members
        ≤ vec_capacity room.old.counts }
    requires seats_room { vec_len room.old.seats + vec_len members ≤ vec_capacity room.old.seats }
    ensures rest { rest.new ≡ with_parts rest.old (events_parts members.items) }
    ensures held { share.new.held ≡ with_book_parts share.old.held (held_parts members.items) }
    ensures freed { share.new.freed ≡ with_book_parts share.old.freed (freed_parts members.items) }
    ensures tools { room.new.tools.items ≡
        room.old.tools.items ++ reverse (tools_of members.items) }
    ensures counts { room.new.counts.items ≡
        room.old.counts.items ++ reverse (counts_on (events_parts members.items)) }
    ensures seats { room.new.seats.items ≡
        room.old.seats.items ++ reverse (seats_of members.items) }
    ensures taken { room.new.taken.items ≡ room.old.taken.items }
{
    while let Some(member) = members.pop() {
        let (parts, tool) = member.into_parts();
        room.counts.push_reserved(parts.board.counts());
        room.tools.push_reserved(tool);
        let seat = take_parts(parts, rest, share);
        room.seats.push_reserved(seat);
    }
}

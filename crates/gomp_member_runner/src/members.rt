//! All members of a team on one thread.

ghost use Rattle.std.specs.Prelude.{◌≡◌, ◌+◌, ◌<◌, All, OnOk, vec_len};
ghost use Rattle.gomp_types.specs.declared.limits.TheConstants.{MAX_MEMBERS};
ghost use Rattle.gomp_ring.specs.RingSeats.{IsOnRing};

use gomp_icv::Icv;
use gomp_locks::LockBook;
use gomp_ompt::Counts;
use gomp_ring::RingSeat;
use gomp_team::{Member, MemberParts, NewTeam, SharedTeam, TeamTerms};
use gomp_team_board::{EventLedger, Part};
use gomp_team_book::{BookPart, HoldLedger, LockedBook};
use gomp_types::{Call, Limits, MAX_MEMBERS, Refusal, Reply, Step};
use std::alloc::{AllocError, Global};
use std::sync::ledger::{Blank, Ledger};
use std::sync::{Arc, Mutex, Wait};

/// A member with a tool that counts.
type CountedMember<L, H, F> = Member<L, H, F, Counts>;

/// The members of a team, in the order of their numbers.
type Members<L, H, F> = Vec<CountedMember<L, H, F>>;

/// The ledgers of a team that were begun, whole.
#[derive(Drop)]
struct Wholes<L: Ledger, H: HoldLedger, F: Ledger> {
    /// Of the events of the team.
    board: Part<L>,
    /// Of the holds of names and locks.
    held: BookPart<H>,
    /// Of their releases.
    freed: BookPart<F>,
}

/// The ledgers of a team and of its book, not begun yet, each with a part for each member and one that stays.
#[derive(Drop)]
pub(crate) struct Blanks {
    /// Of the events of the team.
    pub events: Blank,
    /// Of the holds of names and locks.
    pub held: Blank,
    /// Of their releases.
    pub freed: Blank,
}

/// The standard limits count.
const NO_LIMITS: Limits = Limits {
    shares: u32::MAX,
    tasks: u32::MAX,
    events: u32::MAX,
};

/// The replies of the members of a new team, of this size and by these control variables, to these steps; none if there is no team
/// of that size. The error is want of memory outside of the steps.
#[tactic(auto, using(gomp_locks::proofs::Laws::new_book_is_in_order, crate::proofs::SeatsOnRing::seats_on_ring))]
pub(crate) fn replies_of<L: Ledger, H: HoldLedger, F: Ledger, R: Wait>(
    rt: &R,
    alloc: Global,
    size: u16,
    icv: Icv,
    steps: Vec<Step>,
    blanks: Blanks,
) -> Result<Option<Vec<Reply>>, AllocError>
    requires events { (blanks.events.name ≡ L.name) × (blanks.events.parts ≡ L.parts) }
    requires held { (blanks.held.name ≡ H.name) × (blanks.held.parts ≡ H.parts) }
    requires freed { (blanks.freed.name ≡ F.name) × (blanks.freed.parts ≡ F.parts) }
    requires events_parts { MAX_MEMBERS < blanks.events.parts }
    requires held_parts { MAX_MEMBERS < blanks.held.parts }
    requires freed_parts { MAX_MEMBERS < blanks.freed.parts }
    requires before { H.before ≡ 0 }
{
    let Blanks {
        events,
        held,
        freed,
    } = blanks;
    let (book, held, freed) = LockedBook::<H, F>::new(LockBook::new(alloc), held, freed);
    let book = Arc::new(alloc, Mutex::new(book))?;
    let terms = TeamTerms {
        number: 0,
        icv,
        limits: NO_LIMITS,
    };
    let ledger = EventLedger::open(events);
    let NewTeam {
        team,
        whole: board,
        seats,
    } = match SharedTeam::<L, H, F>::new(alloc, size, terms, book, ledger) {
        Ok(made) => made,
        Err((Refusal::BadTeam, _)) => return Ok(None),
        Err(_) => return Err(AllocError),
    };
    let team = Arc::new(alloc, team)?;
    let mut wholes = Wholes { board, held, freed };
    let members = members_of(alloc, &team, seats, &mut wholes)?;
    Ok(Some(answer_all(rt, alloc, members, steps)?))
}

/// The members of the team, one for each of these seats, each with a part of these. It is as deep as there are members.
fn members_of<L: Ledger, H: HoldLedger, F: Ledger>(
    alloc: Global,
    team: &Arc<SharedTeam<L, H, F>, Global>,
    mut seats: Vec<RingSeat>,
    wholes: &mut Wholes<L, H, F>,
) -> Result<Members<L, H, F>, AllocError>
    requires seats { All (IsOnRing team.now.value.ring) seats.items }
    requires board { vec_len seats < wholes.old.board.parts }
    requires held { vec_len seats < wholes.old.held.parts }
    requires freed { vec_len seats < wholes.old.freed.parts }
    ensures board { OnOk result
        (wholes.new.board.parts + vec_len seats ≡ wholes.old.board.parts) }
    ensures held { OnOk result
        (wholes.new.held.parts + vec_len seats ≡ wholes.old.held.parts) }
    ensures freed { OnOk result
        (wholes.new.freed.parts + vec_len seats ≡ wholes.old.freed.parts) }
{
    let Some(seat) = seats.pop() else {
        return Ok(Vec::new(alloc));
    };
    let mut members = members_of(alloc, team, seats, wholes)?;
    let own = MemberParts {
        board: wholes.board.split(1),
        held: wholes.held.split(1),
        freed: wholes.freed.split(1),
        seat,
    };
    match Member::new(alloc, Arc::try_clone(team)?, own, Counts::new()) {
        Ok(member) => members.push(member)?,
        Err(_) => return Err(AllocError),
    }
    Ok(members)
}

/// The replies of these members to these steps.
fn answer_all<L: Ledger, H: HoldLedger, F: Ledger, R: Wait>(
    rt: &R,
    alloc: Global,
    mut members: Members<L, H, F>,
    steps: Vec<Step>,
) -> Result<Vec<Reply>, AllocError> {
    let mut replies = Vec::new(alloc);
    for Step { member, call } in steps {
        replies.push(answer_step(rt, &mut members, member as usize, call))?;
    }
    Ok(replies)
}

/// The reply to a step: of the member of this number, if the team has one.
fn answer_step<L: Ledger, H: HoldLedger, F: Ledger, R: Wait>(
    rt: &R,
    members: &mut Members<L, H, F>,
    number: usize,
    call: Call,
) -> Reply {
    match members.get_mut(number) {
        Some(member) => try_step(rt, member, call),
        None => Reply::Refused(Refusal::BadMember),
    }
}

/// One try of a call, by the form that is for it.
fn try_step<L: Ledger, H: HoldLedger, F: Ledger, R: Wait>(
    rt: &R,
    member: &mut CountedMember<L, H, F>,
    call: Call,
) -> Reply {
    match call {
        Call::LoopStart(desc) => member.try_loop_start(rt, desc),
        Call::Resume => member.try_resume(rt),
        call => member.try_call(rt, call),
    }
}

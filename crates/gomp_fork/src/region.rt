//! A region: a team whose members run their programs on the threads of a crew.

ghost use Rattle.std.specs.Prelude.{◌≡◌, ◌+◌, ◌-◌, ◌<◌, ◌≤◌, [], Some, IsErr, IsSome, IfOk, IfErr, OnErr, OnOk, length, map, max, vec_len, vec_capacity};
ghost use Rattle.std.specs.Arc.{arc_value};
ghost use Rattle.gomp_types.specs.Limits.{IsTeamSize};
ghost use Rattle.gomp_types.specs.declared.refusal.Refusal.TheVariants.{NoMemory};
ghost use Rattle.gomp_types.specs.declared.limits.TheConstants.{MAX_MEMBERS};
ghost use Rattle.gomp_fork.specs.declared.inner.TheConstants.{REGION_PARTS};
ghost use Rattle.gomp_ring.specs.RingSeats.{AreAllSeats};
ghost use Rattle.gomp_course.specs.Forkers.{KeepsVariables};
ghost use Rattle.gomp_team_region.specs.Regions.{GivesParts, IsNewRegion, events_parts, freed_parts, held_parts, seats_of, tools_of, with_book_parts, with_parts};
ghost use Rattle.gomp_team_region.specs.Settled.{ComesBack};
ghost use Rattle.gomp_fork.specs.Counts.{counted_in};
ghost use Rattle.gomp_fork.specs.declared.report.RegionRefusal.TheVariants.{Refused};
ghost use Rattle.gomp_fork.specs.Lists.{nothing_returned};
ghost use Rattle.gomp_fork.specs.Reports.{Blames, FaultHasCause, HasBlamed, HasSettled, IsOpened, LeavesAll};
ghost use Rattle.gomp_fork.specs.Teams.{IsWithin, team_of};

use crate::fork::{Forked, Ground};
use crate::inner::InnerParts;
use crate::ledgers::{Named, NamedHolds};
use crate::report::{RegionFault, RegionRefusal, Report};
use crate::returned::{Returned, jobs_of, take_apart};
use crate::runs::{Forking, RegionJob, RegionOutcome, Runs};
use crate::threads::{Server, grow_for, run_by};
use gomp_course::{Program, Site};
use gomp_crew::{Crew, Host};
use gomp_ompt::Tool;
use gomp_team::TeamTerms;
use gomp_team_board::EventLedger;
use gomp_team_book::HoldLedger;
use gomp_team_region::{BookShare, RegionTeam, RegionWork, SettleError, SettledTeam};
use gomp_types::Refusal;
use std::alloc::{AllocError, Global};
use std::marker::PhantomData;
use std::sync::ledger::Ledger;
use std::sync::{Arc, Wait};

/// The threads of a region, and what comes of the regions that its members fork.
pub type RegionCrew<L, H, F, P, T, K> = Crew<
    RegionJob<L, H, F, P, T>,
    RegionOutcome<L, H, F, P, T>,
    Runs<K>,
>;

/// A region on the threads of a crew: each of the programs runs, as the member of its place, number 0 on this
/// thread. There are 1 to 64 of them, and as many tools.
///
/// Its fault is `NoMemory` (E37) if memory is refused, or the thread of the member that it names; what the member
/// got last that broke the team, or `Broken` (E3); or E42 if its history cannot be settled. OpenMP API 5.2,
/// section 10.1.
pub fn on_crew<L, H, F, P, T, C, K, R>(
    rt: &R,
    crew: &mut RegionCrew<L, H, F, P, T, K>,
    share: &mut BookShare<H, F>,
    ledger: EventLedger<L>,
    ground: Ground<C>,
    forked: Forked<P, T>,
) -> EndedRegion<L, P, T>
where
    L: Named,
    H: NamedHolds,
    F: Named,
    P: Program + Send + 'static,
    T: Tool + Send + 'static,
    C: Site<InnerParts<H, F>, P, T> + Send + Sync + 'static,
    K: Forking<InnerParts<H, F>, P, T> + Send + Sync + 'static,
    R: Host,
    requires ready { C.ready (arc_value ground.site) }
    requires icv { KeepsVariables C.forks }
    requires within { IsWithin C.forks K.forks }
    requires ledger { ledger ≡ L.parts }
    requires events { MAX_MEMBERS < L.parts }
    requires held { REGION_PARTS < share.old.held.parts }
    requires freed { REGION_PARTS < share.old.freed.parts }
    requires size { IsTeamSize (vec_len forked.progs) }
    requires tools { vec_len forked.tools ≡ vec_len forked.progs }
    ensures region { LeavesAll P.Program T.Tool K.forks
        (team_of ground.terms, forked.progs.items, forked.tools.items)
        (counted_in share.old, counted_in share.new) result.result }
    ensures threads { crew.new ≤ max crew.old (vec_len forked.progs - 1) }
    ensures held { share.new.held.parts ≡ share.old.held.parts }
    ensures freed { share.new.freed.parts ≡ share.old.freed.parts }
    ensures ledger { ComesBack L.parts result.ledger }
    ensures caused { IfErr result.result (λ fault. IsSome result.ledger → FaultHasCause fault) }
{
    let Ground { alloc, site, terms } = ground;
    let count = forked.progs.len();
    let host = *rt;
    let Ok(server) = Arc::new(
        alloc,
        Server::<C, K, R> {
            site,
            alloc,
            host,
            forking: PhantomData,
        },
    ) else {
        return not_begun(0, ledger, forked);
    };
    if grow_for(crew, host, alloc, count - 1, &server).is_err() {
        return not_begun(first_without(crew.size(), count), ledger, forked);
    }
    match open_region(alloc, terms, share, ledger, forked) {
        Ok(opened) => {
            let Opened {
                team,
                jobs,
                outcomes,
                returned,
            } = opened;
            let outcomes = run_by(rt, crew, &*server, jobs, outcomes);
            let returned = take_apart(outcomes, share, returned);
            report_of(team, share, returned)
        }
        Err(unopened) => EndedRegion {
            result: Err(unopened.fault),
            ledger: unopened.ledger,
        },
    }
}

/// The first member that has no thread, where a crew has so many for a team of this size, 1 to 64; 0 if there is one for each.
fn first_without(threads: usize, size: usize) -> u16
    requires size { IsTeamSize size }
    ensures first { threads + 1 < size → result ≡ threads + 1 }
{
    if threads < size - 1 {
        return threads as u16 + 1;
    }
    0
}

/// What a region on a crew leaves.
#[derive(Drop)]
pub struct EndedRegion<L: Ledger, P: Drop, T: Drop> {
    /// Its report, or its fault.
    pub result: Result<Report<P, T>, RegionFault<P, T>>,
    /// The ledger of its events, for the next region. None only if another thread has its team still.
    pub ledger: Option<EventLedger<L>>,
}

/// Why a region was not opened, and its ledger.
#[derive(Drop)]
struct Unopened<L: Ledger, P: Drop, T: Drop> {
    /// The refusal, programs and tools.
    fault: RegionFault<P, T>,
    /// The ledger of its events.
    ledger: Option<EventLedger<L>>,
}

/// A region that does not begin for want of memory, or of the thread of this member, 0 to 63 (`NoMemory`, E37).
pub fn not_begun<L: Ledger, P: Drop, T: Drop>(
    member: u16,
    ledger: EventLedger<L>,
    forked: Forked<P, T>,
) -> EndedRegion<L, P, T>
    ensures progs { IfErr result.result (λ fault. fault.progs.items ≡ forked.progs.items) }
    ensures tools { IfErr result.result (λ fault. fault.tools.items ≡ forked.tools.items) }
    ensures fault { IsErr result.result }
    ensures refusal { IfErr result.result (λ fault. fault.refusal ≡ Refused NoMemory) }
    ensures member { IfErr result.result (λ fault. fault.member ≡ member) }
    ensures ledger { result.ledger ≡ Some ledger }
{
    EndedRegion {
        result: Err(forked.refused(member, Refusal::NoMemory)),
        ledger: Some(ledger),
    }
}

/// A region whose members were made and told that they begin, of whose programs none has run, with room for what
/// they return.
#[derive(Drop)]
struct Opened<L: Ledger, H: HoldLedger, F: Ledger, P: Program, T: Tool> {
    /// Their team.
    team: RegionTeam<L, H, F, T>,
    /// A job for each.
    jobs: Vec<RegionJob<L, H, F, P, T>>,
    /// Room for their outcomes.
    outcomes: Vec<RegionOutcome<L, H, F, P, T>>,
    /// Room for what these have.
    returned: Returned<L, H, F, P, T>,
}

/// Makes the members of a region, a job for each, and room for what they return. If memory is refused,
/// programs and tools come back, and the share is, as they were.
fn open_region<L: Ledger, H: HoldLedger, F: Ledger, P: Program, T: Tool>(
    alloc: Global,
    terms: TeamTerms,
    share: &mut BookShare<H, F>,
    ledger: EventLedger<L>,
    forked: Forked<P, T>,
) -> Result<Opened<L, H, F, P, T>, Unopened<L, P, T>>
    requires ledger { ledger ≡ L.parts }
    requires events { MAX_MEMBERS < L.parts }
    requires held { REGION_PARTS < share.old.held.parts }
    requires freed { REGION_PARTS < share.old.freed.parts }
    requires size { IsTeamSize (vec_len forked.progs) }
    requires tools { vec_len forked.tools ≡ vec_len forked.progs }
    ensures team { IfOk result (λ opened. IsOpened T.Tool (team_of terms) forked.progs.items
        forked.tools.items opened.team (map (λ job. job.runner) opened.jobs.items)) }
    ensures jobs { IfOk result (λ opened. vec_len opened.jobs ≡ vec_len forked.progs) }
    ensures outcomes { IfOk result (λ opened. (opened.outcomes.items ≡ [])
        × (vec_len forked.progs ≤ vec_capacity opened.outcomes)) }
    ensures returned { IfOk result (λ opened.
        opened.returned ≡ nothing_returned (vec_len forked.progs)) }
    ensures held { OnOk result (GivesParts (vec_len forked.progs + vec_len forked.progs)
        share.old.held share.new.held) }
    ensures freed { OnOk result (GivesParts (vec_len forked.progs + vec_len forked.progs)
        share.old.freed share.new.freed) }
    ensures held_back { OnErr result (share.new.held ≡ share.old.held) }
    ensures freed_back { OnErr result (share.new.freed ≡ share.old.freed) }
    ensures progs { IfErr result (λ unopened. unopened.fault.progs.items ≡ forked.progs.items) }
    ensures tools { IfErr result (λ unopened. unopened.fault.tools.items ≡ forked.tools.items) }
    ensures refusal { IfErr result (λ unopened. unopened.fault.refusal ≡ Refused NoMemory) }
    ensures ledger { IfErr result (λ unopened. ComesBack L.parts unopened.ledger) }
    ensures region { IfOk result (λ opened.
        IsNewRegion terms.number terms.icv (vec_len forked.progs) L.parts opened.team) }
{
    let Ok(lists) = Lists::new(alloc, forked.progs.len()) else {
        return Err(Unopened {
            fault: forked.refused(0, Refusal::NoMemory),
            ledger: Some(ledger),
        });
    };
    let Lists {
        jobs,
        outcomes,
        returned,
    } = lists;
    let Forked { progs, tools } = forked;
    let size = progs.len() as u16;
    match RegionTeam::new(alloc, terms, share, ledger, tools) {
        Ok((team, members)) => Ok(Opened {
            team,
            jobs: jobs_of(size, members, progs, share, jobs),
            outcomes,
            returned,
        }),
        Err(refused) => Err(Unopened {
            fault: Forked {
                progs,
                tools: refused.tools,
            }
            .refused(0, refused.refusal),
            ledger: refused.ledger,
        }),
    }
}

/// Room for what a region moves between lists, taken before it begins.
#[derive(Drop)]
struct Lists<L: Ledger, H: HoldLedger, F: Ledger, P: Program, T: Tool> {
    /// For a job of each member.
    jobs: Vec<RegionJob<L, H, F, P, T>>,
    /// For its outcome.
    outcomes: Vec<RegionOutcome<L, H, F, P, T>>,
    /// For what that has.
    returned: Returned<L, H, F, P, T>,
}

impl<L, H, F, P, T> Lists<L, H, F, P, T>
where
    L: Ledger,
    H: HoldLedger,
    F: Ledger,
    P: Program,
    T: Tool,
{
    /// Room for `count` members.
    fn new(alloc: Global, count: usize) -> Result<Lists<L, H, F, P, T>, AllocError>
        ensures jobs { IfOk result (λ lists.
            (lists.jobs.items ≡ []) × (count ≤ vec_capacity lists.jobs)) }
        ensures outcomes { IfOk result (λ lists.
            (lists.outcomes.items ≡ []) × (count ≤ vec_capacity lists.outcomes)) }
        ensures returned { IfOk result (λ lists. lists.returned ≡ nothing_returned count) }
    {
        Ok(Lists {
            jobs: Vec::with_capacity(alloc, count)?,
            outcomes: Vec::with_capacity(alloc, count)?,
            returned: Returned::new(alloc, count)?,
        })
    }
}

/// What a region leaves whose members returned this.
fn report_of<L: Ledger, H: HoldLedger, F: Ledger, P: Program, T: Tool>(
    team: RegionTeam<L, H, F, T>,
    share: &mut BookShare<H, F>,
    returned: Returned<L, H, F, P, T>,
) -> EndedRegion<L, P, T>
    requires all { length returned.members ≡ team.size }
    requires whole { (with_parts team.rest (events_parts returned.members)).parts ≡ L.parts }
    requires seats { AreAllSeats team.ring (seats_of returned.members) }
    ensures ok { IfOk result.result (HasSettled team.rest returned) }
    ensures err { IfErr result.result (λ fault.
        (fault.progs.items ≡ returned.progs) × (fault.tools.items ≡ tools_of returned.members)) }
    ensures blamed { IfErr result.result (λ fault. IsSome result.ledger →
        HasBlamed team.ring team.rest returned.members fault.member fault.refusal) }
    ensures ledger { ComesBack L.parts result.ledger }
    ensures held { share.new.held ≡
        with_book_parts share.old.held (held_parts returned.members) }
    ensures freed { share.new.freed ≡
        with_book_parts share.old.freed (freed_parts returned.members) }
{
    let (members, progs, refusals) = returned.into_lists();
    let size = members.len() as u16;
    let SettledTeam {
        tools,
        work,
        ledger,
    } = team.settle(share, members);
    let result = match work {
        Ok(RegionWork { history, taken, .. }) => Ok(Report {
            size,
            taken,
            history,
            progs,
            tools,
        }),
        Err(error) => {
            let (member, refusal) = blame(error, refusals);
            Err(RegionFault {
                member,
                refusal,
                progs,
                tools,
            })
        }
    };
    EndedRegion { result, ledger }
}

/// Which member a settled region blames, and by which refusal: the one that broke the team, by the one that
/// it last got, or `Broken` if it got none; else member 0.
fn blame(error: SettleError, mut refusals: Vec<Option<Refusal>>) -> (u16, RegionRefusal)
    ensures { Blames error result.0 result.1 }
{
    let SettleError::Broken(clash) = error else {
        return (0, RegionRefusal::Unsettled);
    };
    let last = match refusals.get_mut(clash.member as usize) {
        Some(last) => last.take(),
        None => None,
    };
    let refusal = last.unwrap_or(Refusal::Broken(clash));
    (clash.member, RegionRefusal::Refused(refusal))
}

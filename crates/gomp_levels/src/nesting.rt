//! An outermost region, within which three levels of others are served: a function for each level.

ghost use Rattle.std.specs.Prelude.{◌≡◌, ◌+◌, ◌-◌, ◌<◌, ◌≤◌, max, vec_len};
ghost use Rattle.gomp_types.specs.Limits.{IsTeamSize, standard};
ghost use Rattle.gomp_types.specs.declared.limits.TheConstants.{MAX_MEMBERS};
ghost use Rattle.gomp_fork.specs.declared.inner.TheConstants.{REGION_PARTS};
ghost use Rattle.gomp_fork.specs.Counts.{counted_in};
ghost use Rattle.gomp_fork.specs.Teams.{team_of};
ghost use Rattle.gomp_team_region.specs.Settled.{ComesBack};
ghost use Rattle.gomp_nested.specs.Ledgers.{IsLedger};
ghost use Rattle.gomp_nested.specs.Nested.{ComesOf};
ghost use Rattle.gomp_levels.specs.Levels.{ForksOne, ForksTwo, LeavesOutermost, NoneForked};

use crate::levels::{Around, LastLevel, NestGround, OneLevel, ThreeLevels, TwoLevels};
use gomp_budget::Budget;
use gomp_course::{CallGate, Nest, Nested, Program};
use gomp_crew::Host;
use gomp_fork::{
    EndedRegion, Forked, Ground, InnerParts, Named, NamedHolds, RegionCrew, not_begun, on_crew,
};
use gomp_nested::{OpenBook, Shared, TeamThreads, Threads, nested_region, unbegun};
use gomp_ompt::Tool;
use gomp_team::TeamTerms;
use gomp_team_board::EventLedger;
use gomp_team_region::BookShare;
use gomp_types::Refusal;
use std::alloc::Global;
use std::marker::PhantomData;
use std::sync::Arc;

/// The threads of an outermost region.
pub type OutermostCrew<L, H, F, P, T> = RegionCrew<L, H, F, P, T, ThreeLevels>;

/// What an outermost region is forked with, beside its programs and tools.
#[derive(Drop)]
pub struct OutermostGround<G: Drop> {
    /// Where the memory of its teams comes from.
    pub alloc: Global,
    /// What stands round each call of their members.
    pub gate: Arc<G>,
    /// With what its own team is made.
    pub terms: TeamTerms,
    /// The threads that its teams may have beside the one that forks it.
    pub threads: Threads,
}

/// An outermost region on the threads of a crew: each of the programs runs, as the member of its place, number 0
/// on this thread. There are 1 to 64 of them, as many tools, and threads for all of them, of as many as
/// thread-limit-var allows. The members of the regions within it have threads of their own, which end with these.
///
/// Its fault is `NoMemory` (E37) if memory is refused, or the thread of the member that it names; what the member
/// got last that broke the team, or `Broken` (E3); or E42 if its history cannot be settled. OpenMP API 5.2,
/// sections 10.1 and 10.1.1.
pub fn outermost<L, B, H, F, P, T, G, S>(
    rt: &S,
    crew: &mut OutermostCrew<L, H, F, P, T>,
    opened: &mut OpenBook<H, F>,
    ledger: EventLedger<L>,
    ground: OutermostGround<G>,
    forked: Forked<P, T>,
) -> EndedRegion<L, P, T>
where
    L: Named,
    B: Named,
    H: NamedHolds,
    F: Named,
    P: Program + Send + 'static,
    T: Tool + Send + 'static,
    G: CallGate + Send + Sync + 'static,
    S: Host,
    requires threads { IsLedger B.name B.parts ground.threads.limit
        ground.threads.blank.name ground.threads.blank.parts }
    requires enough { vec_len forked.progs ≤ ground.threads.limit + 1 }
    requires limit { ground.threads.limit + 1 ≡ ground.terms.icv.thread_limit }
    requires limits { ground.terms.limits ≡ standard }
    requires ledger { ledger ≡ L.parts }
    requires events { MAX_MEMBERS < L.parts }
    requires held { REGION_PARTS < opened.old.share.held.parts }
    requires freed { REGION_PARTS < opened.old.share.freed.parts }
    requires size { IsTeamSize (vec_len forked.progs) }
    requires tools { vec_len forked.tools ≡ vec_len forked.progs }
    ensures region { LeavesOutermost P.Program T.Tool
        (team_of ground.terms, forked.progs.items, forked.tools.items)
        (counted_in opened.old.share, counted_in opened.new.share) result.result }
    ensures crew { crew.new ≤ max crew.old (vec_len forked.progs - 1) }
    ensures held { opened.new.share.held.parts ≡ opened.old.share.held.parts }
    ensures freed { opened.new.share.freed.parts ≡ opened.old.share.freed.parts }
    ensures ledger { ComesBack L.parts result.ledger }
{
    let OpenBook { common, share } = opened;
    let OutermostGround {
        alloc,
        gate,
        terms,
        threads: allowed,
    } = ground;
    let Ok(common) = Arc::try_clone(common) else {
        return not_begun(0, ledger, forked);
    };
    let mut budget = Budget::<B>::new(allowed.limit, allowed.blank);
    let threads = TeamThreads::of(&mut budget, forked.progs.len() as u32);
    let shared = match Arc::new(alloc, Shared::new(common, budget)) {
        Ok(shared) => shared,
        Err(failed) => {
            failed.value.give_back(rt, threads);
            return not_begun(0, ledger, forked);
        }
    };
    let ended = match Arc::try_clone(&shared) {
        Ok(own) => {
            let nesting = NestGround {
                shared: own,
                rt: *rt,
                gate,
            };
            first_region(rt, crew, share, ledger, nesting, terms, &threads, forked)
        }
        Err(_) => not_begun(0, ledger, forked),
    };
    shared.give_back(rt, threads);
    ended
}

/// An outermost region on these threads: its members have round them what serves those of the second level.
fn first_region<L, B, H, F, P, T, G, S>(
    rt: &S,
    crew: &mut OutermostCrew<L, H, F, P, T>,
    share: &mut BookShare<H, F>,
    ledger: EventLedger<L>,
    nesting: NestGround<B, H, F, S, G>,
    terms: TeamTerms,
    threads: &TeamThreads<B>,
    forked: Forked<P, T>,
) -> EndedRegion<L, P, T>
where
    B: Named,
    H: NamedHolds,
    F: Named,
    P: Program + Send + 'static,
    T: Tool + Send + 'static,
    G: CallGate + Send + Sync + 'static,
    S: Host,
    L: Named,
    requires threads { threads.now ≡ vec_len forked.progs }
    requires size { IsTeamSize (vec_len forked.progs) }
    requires tools { vec_len forked.tools ≡ vec_len forked.progs }
    requires ledger { ledger ≡ L.parts }
    requires events { MAX_MEMBERS < L.parts }
    requires held { REGION_PARTS < share.old.held.parts }
    requires freed { REGION_PARTS < share.old.freed.parts }
    ensures crew { crew.new ≤ max crew.old (vec_len forked.progs - 1) }
    ensures ledger { ComesBack L.parts result.ledger }
    ensures region { LeavesOutermost P.Program T.Tool
        (team_of terms, forked.progs.items, forked.tools.items)
        (counted_in share.old, counted_in share.new) result.result }
    ensures held { share.new.held.parts ≡ share.old.held.parts }
    ensures freed { share.new.freed.parts ≡ share.old.freed.parts }
{
    let alloc = nesting.shared.common.alloc;
    let Ok(site) = Arc::new(
        alloc,
        Around {
            levels: PhantomData::<ThreeLevels>,
            ground: nesting,
            fork: |nesting: &NestGround<B, H, F, S, G>, nest: Nest<
                InnerParts<H, F>,
                P,
                T,
            >| -> Nested<InnerParts<H, F>, P, T>
                ensures { ComesOf P.Program T.Tool (ForksTwo P.Program T.Tool) nest.asked
                    (nest.forker, result.forker) result.reply }
            { second_region(nesting, nest) },
        },
    ) else {
        return not_begun(0, ledger, forked);
    };
    let ground = Ground { alloc, site, terms };
    on_crew::<L, H, F, P, T, Around<ThreeLevels, NestGround<B, H, F, S, G>, _>, ThreeLevels, S>(
        rt, crew, share, ledger, ground, forked,
    )
}

/// A region of the second level: its members have round them what serves those of the third.
fn second_region<B, H, F, P, T, S, G>(
    nesting: &NestGround<B, H, F, S, G>,
    nest: Nest<InnerParts<H, F>, P, T>,
) -> Nested<InnerParts<H, F>, P, T>
where
    B: Named,
    H: NamedHolds,
    F: Named,
    P: Program + Send + 'static,
    T: Tool + Send + 'static,
    S: Host,
    G: CallGate + Send + Sync + 'static,
    ensures { ComesOf P.Program T.Tool (ForksTwo P.Program T.Tool) nest.asked
        (nest.forker, result.forker) result.reply }
{
    let NestGround { shared, rt, .. } = nesting;
    let Ok(ground) = nesting.again() else {
        return unbegun(Refusal::NoMemory, nest.forker);
    };
    let Ok(site) = Arc::new(
        shared.common.alloc,
        Around {
            levels: PhantomData::<TwoLevels>,
            ground,
            fork: |nesting: &NestGround<B, H, F, S, G>, nest: Nest<
                InnerParts<H, F>,
                P,
                T,
            >| -> Nested<InnerParts<H, F>, P, T>
                ensures { ComesOf P.Program T.Tool (ForksOne P.Program T.Tool) nest.asked
                    (nest.forker, result.forker) result.reply }
            { third_region(nesting, nest) },
        },
    ) else {
        return unbegun(Refusal::NoMemory, nest.forker);
    };
    nested_region(rt, shared, site, nest)
}

/// A region of the third level: its members have round them what serves those of the fourth.
fn third_region<B, H, F, P, T, S, G>(
    ground: &NestGround<B, H, F, S, G>,
    region: Nest<InnerParts<H, F>, P, T>,
) -> Nested<InnerParts<H, F>, P, T>
where
    B: Named,
    H: NamedHolds,
    F: Named,
    P: Program + Send + 'static,
    T: Tool + Send + 'static,
    S: Host,
    G: CallGate + Send + Sync + 'static,
    ensures { ComesOf P.Program T.Tool (ForksOne P.Program T.Tool) region.asked
        (region.forker, result.forker) result.reply }
{
    let NestGround { shared, rt, .. } = ground;
    let Ok(inner) = ground.again() else {
        return unbegun(Refusal::NoMemory, region.forker);
    };
    let Ok(site) = Arc::new(
        shared.common.alloc,
        Around {
            levels: PhantomData::<OneLevel>,
            ground: inner,
            fork: |nesting: &NestGround<B, H, F, S, G>, nest: Nest<
                InnerParts<H, F>,
                P,
                T,
            >| -> Nested<InnerParts<H, F>, P, T>
                ensures { ComesOf P.Program T.Tool NoneForked nest.asked
                    (nest.forker, result.forker) result.reply }
            { fourth_region(nesting, nest) },
        },
    ) else {
        return unbegun(Refusal::NoMemory, region.forker);
    };
    nested_region(rt, shared, site, region)
}

/// A region of the fourth level, which is the last.
fn fourth_region<B, H, F, P, T, S, G>(
    last: &NestGround<B, H, F, S, G>,
    forked: Nest<InnerParts<H, F>, P, T>,
) -> Nested<InnerParts<H, F>, P, T>
where
    B: Named,
    H: NamedHolds,
    F: Named,
    P: Program + Send + 'static,
    T: Tool + Send + 'static,
    S: Host,
    G: CallGate + Send + Sync + 'static,
    ensures { ComesOf P.Program T.Tool NoneForked forked.asked
        (forked.forker, result.forker) result.reply }
{
    let NestGround { shared, rt, .. } = last;
    let Ok(gate) = Arc::try_clone(&last.gate) else {
        return unbegun(Refusal::NoMemory, forked.forker);
    };
    let Ok(site) = Arc::new(shared.common.alloc, LastLevel { gate }) else {
        return unbegun(Refusal::NoMemory, forked.forker);
    };
    nested_region(rt, shared, site, forked)
}

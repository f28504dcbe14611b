//! A nested region, from its fork to its join.

ghost use Rattle.std.specs.Prelude.{◌≡◌, ◌≤◌, IfOk, IfSome, IsNone, IsSome, vec_len};
ghost use Rattle.std.specs.Arc.{arc_value};
ghost use Rattle.gomp_types.specs.Limits.{IsTeamSize, standard};
ghost use Rattle.gomp_types.specs.declared.refusal.Refusal.{Refusal};
ghost use Rattle.gomp_types.specs.declared.reply.Reply.TheVariants.{Refused};
ghost use Rattle.gomp_course.specs.Forkers.{KeepsVariables};
ghost use Rattle.gomp_team_book.specs.Parts.{new_book_part};
ghost use Rattle.gomp_fork.specs.Counts.{both_counted, counted_in, counted_on, nothing_counted};
ghost use Rattle.gomp_fork.specs.Reports.{LeavesAll};
ghost use Rattle.gomp_fork.specs.Teams.{team_of, team_sized};
ghost use Rattle.gomp_nested.specs.Nested.{BeginsTeam, ComesOf, EndsTeam, RunsTeam, progs_back, told, told_of_refusal, tools_back};

use crate::pool::{TEAM_PARTS, TeamParts};
use crate::shared::Shared;
use crate::threads::TeamThreads;
use gomp_course::{Forker, Nest, Nested, Program, Site};
use gomp_crew::{Crew, Host};
use gomp_fork::{
    EndedRegion, Forked, Ground, InnerParts, Named, NamedHolds, RegionFault, RegionRefusal, Report,
    Round, on_crew,
};
use gomp_icv::{Icv, child_icv, team_size};
use gomp_ompt::{Point, Record, Tool};
use gomp_team::TeamTerms;
use gomp_team_board::EventLedger;
use gomp_team_book::HoldLedger;
use gomp_team_region::BookShare;
use gomp_types::{Limits, Refusal, Reply};
use std::alloc::{AllocError, Global};
use std::marker::Brand;
use std::sync::Arc;
use std::sync::ledger::{Blank, Ledger};

/// Forks a nested region, and waits until it has ended. Its first member runs on this thread, the others on
/// threads that end with it: as many as the clauses and the control variables ask for, or so many fewer as
/// there are threads too few.
///
/// Refused with `CountTooLarge` (E33) after 2^31 nested regions, and with `NoMemory` (E37) if memory is
/// refused for programs and tools or before: then its member is as it was. Else these are taken back, and the
/// reply is `Finished`, or the refusal of the region's fault: `NoMemory` too if a thread or memory is refused
/// then, what a member that broke the team got last, `BadTeam` (E38) if its history cannot be settled. OpenMP API
/// 5.2, sections 10.1 and 10.1.1.
pub fn nested_region<B, H, F, P, T, S, C>(
    rt: &S,
    shared: &Shared<B, H, F>,
    site: Arc<C>,
    nest: Nest<InnerParts<H, F>, P, T>,
) -> Nested<InnerParts<H, F>, P, T>
where
    B: Ledger,
    H: NamedHolds,
    F: Named,
    P: Program + Send + 'static,
    T: Tool + Send + 'static,
    S: Host,
    C: Site<InnerParts<H, F>, P, T> + Send + Sync + 'static,
    requires ready { C.ready (arc_value site) }
    requires icv { KeepsVariables C.forks }
    ensures { ComesOf P.Program T.Tool C.forks nest.asked
        (nest.forker, result.forker) result.reply }
{
    let Nest { asked, mut forker } = nest;
    let common = &shared.common;
    let Some(number) = common.take_number() else {
        return unbegun(Refusal::CountTooLarge, forker);
    };
    let Some(mut parts) = common.take(rt) else {
        return unbegun(Refusal::NoMemory, forker);
    };
    let wanted = team_size(&forker.icv, asked.num_threads, asked.if_clause, 1);
    let threads = shared.reserve(rt, wanted);
    let size = threads.size();
    let ground = Ground {
        alloc: common.alloc,
        site,
        terms: terms_of(number, &forker.icv, size),
    };
    let ended = team_region(rt, parts.share(), ground, &threads, &mut forker);
    shared.give_back(rt, threads);
    let parts = hand_over(parts, &mut forker);
    common.put(rt, parts);
    match ended {
        Some(result) => rejoined(size, forker, result),
        None => unbegun(Refusal::NoMemory, forker),
    }
}

/// What was counted on the parts of a team whose region has ended, the member has then that forked it; they come
/// back with nothing counted on them.
fn hand_over<H: HoldLedger, F: Ledger, P: Drop, T: Drop>(
    parts: TeamParts<H, F>,
    forker: &mut Forker<InnerParts<H, F>, P, T>,
) -> TeamParts<H, F>
    requires held { parts.held.parts ≡ 129 }
    requires freed { parts.freed.parts ≡ 129 }
    ensures held { result.held ≡ new_book_part 129 }
    ensures freed { result.freed ≡ new_book_part 129 }
    ensures forker { forker.new ≡ record forker.old {
      inner = both_counted forker.old.inner (counted_on parts.held parts.freed);
    } }
{
    parts.hand_over(&mut forker.inner)
}

/// A nested region that is not begun: its member as it was.
pub fn unbegun<I: Drop, P: Drop, T: Drop>(
    refusal: Refusal,
    forker: Forker<I, P, T>,
) -> Nested<I, P, T>
    ensures reply { result.reply ≡ Refused refusal }
    ensures forker { result.forker ≡ forker }
{
    Nested {
        reply: Reply::Refused(refusal),
        forker,
    }
}

/// With what a nested team of this number and size is made.
fn terms_of(number: u32, icv: &Icv, size: u16) -> TeamTerms
    ensures team { team_of result ≡ team_sized number icv.now size }
    ensures limits { result.limits ≡ standard }
{
    TeamTerms {
        number,
        icv: child_icv(icv, size as u32),
        limits: Limits::STANDARD,
    }
}

/// A program and a tool for each member of a nested team. The error is want of memory.
fn children_of<I: Drop, P: Program, T: Tool>(
    alloc: Global,
    size: u16,
    forker: &Forker<I, P, T>,
) -> Result<Forked<P, T>, AllocError>
    ensures progs { IfOk result (λ children.
        P.fork_gives forker.now.prog size children.progs.items) }
    ensures tools { IfOk result (λ children.
        T.fork_gives forker.now.tool size children.tools.items) }
    ensures prog_each { IfOk result (λ children. vec_len children.progs ≡ size) }
    ensures tool_each { IfOk result (λ children. vec_len children.tools ≡ size) }
{
    Ok(Forked {
        progs: forker.prog.fork(alloc, size)?,
        tools: forker.tool.fork(alloc, size)?,
    })
}

/// The region of a nested team on these threads, with programs and tools made by those of the member that forks
/// it, whose tool is told that it does. None if memory is refused for these; then the member is as it was.
fn team_region<B, H, F, P, T, S, C>(
    rt: &S,
    share: &mut BookShare<H, F>,
    ground: Ground<C>,
    threads: &TeamThreads<B>,
    forker: &mut Forker<InnerParts<H, F>, P, T>,
) -> Option<Result<Report<P, T>, RegionFault<P, T>>>
where
    B: Ledger,
    H: NamedHolds,
    F: Named,
    P: Program + Send + 'static,
    T: Tool + Send + 'static,
    S: Host,
    C: Site<InnerParts<H, F>, P, T> + Send + Sync + 'static,
    requires ready { C.ready (arc_value ground.site) }
    requires icv { KeepsVariables C.forks }
    requires held { share.old.held ≡ new_book_part 129 }
    requires freed { share.old.freed ≡ new_book_part 129 }
    requires limits { ground.terms.limits ≡ standard }
    ensures ran { IfSome result (RunsTeam P.Program T.Tool C.forks
        (team_of ground.terms, threads.now, forker.old) (counted_in share.new)) }
    ensures none { IsNone result → counted_in share.new ≡ nothing_counted }
    ensures begun { IsSome result → BeginsTeam T.Tool threads.now forker.old forker.new }
    ensures same { IsNone result → forker.new ≡ forker.old }
    ensures held { share.new.held.parts ≡ 129 }
    ensures freed { share.new.freed.parts ≡ 129 }
{
    let size = threads.size();
    let Ok(children) = children_of(ground.alloc, size, forker) else {
        return None;
    };
    let tool = &mut forker.tool;
    tool.on(&Record::single(Point::ParallelBegin, size as u64, 0));
    let blank = Blank::new(TEAM_PARTS);
    Some(spawned::<Brand, B, H, F, P, T, S, C>(rt, share, blank, ground, threads, children))
}

/// The region of these programs and tools, 1 to 64 and no more than there are threads for, which end with it.
fn spawned<L, B, H, F, P, T, S, C>(
    rt: &S,
    share: &mut BookShare<H, F>,
    blank: Blank,
    ground: Ground<C>,
    threads: &TeamThreads<B>,
    children: Forked<P, T>,
) -> Result<Report<P, T>, RegionFault<P, T>>
where
    L: Named,
    B: Ledger,
    H: NamedHolds,
    F: Named,
    P: Program + Send + 'static,
    T: Tool + Send + 'static,
    S: Host,
    C: Site<InnerParts<H, F>, P, T> + Send + Sync + 'static,
    requires name { blank.name ≡ L.name }
    requires parts { blank.parts ≡ L.parts }
    requires events { blank.parts ≡ 65 }
    requires ready { C.ready (arc_value ground.site) }
    requires icv { KeepsVariables C.forks }
    requires held { share.old.held ≡ new_book_part 129 }
    requires freed { share.old.freed ≡ new_book_part 129 }
    requires size { IsTeamSize (vec_len children.progs) }
    requires tools { vec_len children.tools ≡ vec_len children.progs }
    requires threads { vec_len children.progs ≤ threads.now }
    ensures region { LeavesAll P.Program T.Tool C.forks
        (team_of ground.terms, children.progs.items, children.tools.items)
        (nothing_counted, counted_in share.new) result }
    ensures held { share.new.held.parts ≡ 129 }
    ensures freed { share.new.freed.parts ≡ 129 }
{
    let _ = threads;
    let ledger = EventLedger::<L>::open(blank);
    let mut crew = Crew::new(ground.alloc);
    let EndedRegion { result, .. } = on_crew::<L, H, F, P, T, C, Round<C>, S>(
        rt, &mut crew, share, ledger, ground, children,
    );
    crew.stop(rt);
    result
}

/// The programs and the tools of a nested team that has ended, and what the member that forked it is told.
fn came_back<P: Drop, T: Drop>(
    ended: Result<Report<P, T>, RegionFault<P, T>>,
) -> (Forked<P, T>, Reply)
    ensures progs { result.0.progs.items ≡ progs_back ended }
    ensures tools { result.0.tools.items ≡ tools_back ended }
    ensures reply { result.1 ≡ told ended }
{
    match ended {
        Ok(report) => {
            let Report { progs, tools, .. } = report;
            (Forked { progs, tools }, Reply::Finished)
        }
        Err(fault) => {
            let RegionFault {
                refusal,
                progs,
                tools,
                ..
            } = fault;
            (Forked { progs, tools }, told_of_refusal(refusal))
        }
    }
}

/// What the programs and the tools of a nested team of this size have come to: the member that forked it takes
/// them back, and is told how the region ended; its tool is told that it did.
fn rejoined<I: Drop, P: Program, T: Tool>(
    size: u16,
    forker: Forker<I, P, T>,
    ended: Result<Report<P, T>, RegionFault<P, T>>,
) -> Nested<I, P, T>
    ensures prog { P.join_gives forker.prog (progs_back ended) result.forker.prog }
    ensures tool { EndsTeam T.Tool size forker.tool (tools_back ended) result.forker.tool }
    ensures icv { result.forker.icv ≡ forker.icv }
    ensures inner { result.forker.inner ≡ forker.inner }
    ensures reply { result.reply ≡ told ended }
{
    let (children, reply) = came_back(ended);
    let Forker {
        mut prog,
        mut tool,
        icv,
        inner,
    } = forker;
    prog.join(children.progs);
    tool.join(children.tools);
    tool.on(&Record::single(Point::ParallelEnd, size as u64, 0));
    let forker = Forker {
        prog,
        tool,
        icv,
        inner,
    };
    Nested { reply, forker }
}

/// What the member that forked a region is told that left no report.
fn told_of_refusal(refusal: RegionRefusal) -> Reply
    ensures { result ≡ told_of_refusal refusal }
{
    match refusal {
        RegionRefusal::Refused(refusal) => Reply::Refused(refusal),
        RegionRefusal::Unsettled => Reply::Refused(Refusal::BadTeam),
    }
}

//! A region that may have fewer members than there are programs.

ghost use Rattle.std.specs.Prelude.{◌≡◌, ◌+◌, ◌++◌, ◌≤◌, ◌<◌, [], IfOk, IfErr, IfSome, take, drop, vec_len, vec_capacity};
ghost use Rattle.gomp_locks.specs.Order.{IsInOrder};
ghost use Rattle.gomp_types.specs.Limits.{IsTeamSize, standard};
ghost use Rattle.gomp_fork.specs.Reports.{HasOthers};
ghost use Rattle.gomp_fork.specs.Teams.{team_of};
ghost use Rattle.gomp_nested.specs.Ledgers.{IsLedger};
ghost use Rattle.gomp_levels.specs.Levels.{LeavesForked};

use crate::with_book::region_with_book;
use gomp_course::{CallGate, Program};
use gomp_crew::Host;
use gomp_fork::{Forked, Named, RegionFault, Report};
use gomp_levels::OutermostGround;
use gomp_nested::{Blanks, ClosedBook};
use gomp_ompt::Tool;
use gomp_types::Refusal;
use std::alloc::{AllocError, Global};
use std::marker::Brand;

/// Programs and tools of which the first ones run, and room to put all together again.
#[derive(Drop)]
pub(crate) struct Parted<P: Drop, T: Drop> {
    /// Those that run.
    pub(crate) first: Forked<P, T>,
    /// The others.
    pub(crate) others: Forked<P, T>,
    /// Room for all.
    pub(crate) room: Forked<P, T>,
}

/// A region of the first programs and tools, as many as `size`, 1 to 64. The others come back behind them,
/// as they were. Beside the result, the book.
pub(crate) fn sized_region<B, P, T, G, R>(
    rt: &R,
    size: u16,
    closed: ClosedBook,
    ground: OutermostGround<G>,
    forked: Forked<P, T>,
) -> (Result<Report<P, T>, RegionFault<P, T>>, Option<ClosedBook>)
where
    B: Named,
    P: Program + Send + 'static,
    T: Tool + Send + 'static,
    G: CallGate + Send + Sync + 'static,
    R: Host,
    requires threads { IsLedger B.name B.parts ground.threads.limit
        ground.threads.blank.name ground.threads.blank.parts }
    requires limit { size ≤ ground.threads.limit + 1 }
    requires size { IsTeamSize size }
    requires enough { size ≤ vec_len forked.progs }
    requires tools { vec_len forked.tools ≡ vec_len forked.progs }
    requires order { IsInOrder closed.book }
    requires thread_limit { ground.threads.limit + 1 ≡ ground.terms.icv.thread_limit }
    requires limits { ground.terms.limits ≡ standard }
    ensures region { LeavesForked P.Program T.Tool size
        (team_of ground.terms) (forked.progs.items, forked.tools.items) result.0 }
    ensures order { IfSome result.1 (λ closed. IsInOrder closed.book) }
{
    let Parted {
        first,
        others,
        room,
    } = match part_first(ground.alloc, size as usize, forked) {
        Ok(parted) => parted,
        Err(forked) => return (Err(forked.refused(0, Refusal::NoMemory)), Some(closed)),
    };
    let blanks = Blanks::new();
    let (result, closed) = region_with_book::<Brand, B, Brand, Brand, P, T, G, R>(
        rt, blanks, closed, ground, first,
    );
    (with_others(result, others, room), closed)
}

/// Parts the first programs and tools from the others. If memory is refused, they come back as they were.
pub(crate) fn part_first<P: Drop, T: Drop>(
    alloc: Global,
    size: usize,
    forked: Forked<P, T>,
) -> Result<Parted<P, T>, Forked<P, T>>
    requires progs { size ≤ vec_len forked.progs }
    requires tools { size ≤ vec_len forked.tools }
    ensures first { IfOk result (λ parted.
        (parted.first.progs.items ≡ take size forked.progs.items)
        × (parted.first.tools.items ≡ take size forked.tools.items)) }
    ensures others { IfOk result (λ parted.
        (parted.others.progs.items ≡ drop size forked.progs.items)
        × (parted.others.tools.items ≡ drop size forked.tools.items)) }
    ensures first_len { IfOk result (λ parted. (vec_len parted.first.progs ≡ size)
        × (vec_len parted.first.tools ≡ size)) }
    ensures others_len { IfOk result (λ parted.
        (vec_len parted.others.progs + size ≡ vec_len forked.progs)
        × (vec_len parted.others.tools + size ≡ vec_len forked.tools)) }
    ensures none { IfOk result (λ parted.
        (parted.room.progs.items ≡ []) × (parted.room.tools.items ≡ [])) }
    ensures room { IfOk result (λ parted. (vec_len forked.progs ≤ vec_capacity parted.room.progs)
        × (vec_len forked.tools ≤ vec_capacity parted.room.tools)) }
    ensures progs { IfErr result (λ back. back.progs.items ≡ forked.progs.items) }
    ensures tools { IfErr result (λ back. back.tools.items ≡ forked.tools.items) }
{
    let Ok(room) = room_for(alloc, forked.progs.len(), forked.tools.len()) else {
        return Err(forked);
    };
    let Forked {
        mut progs,
        mut tools,
    } = forked;
    let Ok(other_progs) = progs.split_off(size) else {
        return Err(Forked { progs, tools });
    };
    let Ok(other_tools) = tools.split_off(size) else {
        let Forked { progs: all, .. } = room;
        let progs = joined(all, progs, other_progs);
        return Err(Forked { progs, tools });
    };
    Ok(Parted {
        first: Forked { progs, tools },
        others: Forked {
            progs: other_progs,
            tools: other_tools,
        },
        room,
    })
}

/// Room for so many programs and tools.
fn room_for<P: Drop, T: Drop>(
    alloc: Global,
    progs: usize,
    tools: usize,
) -> Result<Forked<P, T>, AllocError>
    ensures progs { IfOk result (λ room.
        (room.progs.items ≡ []) × (progs ≤ vec_capacity room.progs)) }
    ensures tools { IfOk result (λ room.
        (room.tools.items ≡ []) × (tools ≤ vec_capacity room.tools)) }
{
    Ok(Forked {
        progs: Vec::with_capacity(alloc, progs)?,
        tools: Vec::with_capacity(alloc, tools)?,
    })
}

/// These, and behind them the others, in an empty list that has room for all.
fn joined<X: Drop>(mut all: Vec<X>, mut first: Vec<X>, mut others: Vec<X>) -> Vec<X>
    requires none { all.items ≡ [] }
    requires room { vec_len first + vec_len others ≤ vec_capacity all }
    ensures items { result.items ≡ first.items ++ others.items }
{
    let _ = all.append(&mut first);
    let _ = all.append(&mut others);
    all
}

/// The programs and tools of a region, and behind them the others.
fn all_together<P: Drop, T: Drop>(
    first: Forked<P, T>,
    others: Forked<P, T>,
    room: Forked<P, T>,
) -> Forked<P, T>
    requires progs_room { (room.progs.items ≡ [])
        × (vec_len first.progs + vec_len others.progs ≤ vec_capacity room.progs) }
    requires tools_room { (room.tools.items ≡ [])
        × (vec_len first.tools + vec_len others.tools ≤ vec_capacity room.tools) }
    ensures progs { result.progs.items ≡ first.progs.items ++ others.progs.items }
    ensures tools { result.tools.items ≡ first.tools.items ++ others.tools.items }
{
    Forked {
        progs: joined(room.progs, first.progs, others.progs),
        tools: joined(room.tools, first.tools, others.tools),
    }
}

/// The result with all programs and tools.
pub(crate) fn with_others<P: Drop, T: Drop>(
    region: Result<Report<P, T>, RegionFault<P, T>>,
    others: Forked<P, T>,
    room: Forked<P, T>,
) -> Result<Report<P, T>, RegionFault<P, T>>
    requires none { (room.progs.items ≡ []) × (room.tools.items ≡ []) }
    requires report_room { IfOk region (λ report.
        (vec_len report.progs + vec_len others.progs ≤ vec_capacity room.progs)
        × (vec_len report.tools + vec_len others.tools ≤ vec_capacity room.tools)) }
    requires fault_room { IfErr region (λ fault.
        (vec_len fault.progs + vec_len others.progs ≤ vec_capacity room.progs)
        × (vec_len fault.tools + vec_len others.tools ≤ vec_capacity room.tools)) }
    ensures { HasOthers others.progs.items others.tools.items region result }
{
    match region {
        Ok(report) => Ok(report_of_all(report, others, room)),
        Err(fault) => Err(fault_of_all(fault, others, room)),
    }
}

/// The report with all programs and tools.
fn report_of_all<P: Drop, T: Drop>(
    report: Report<P, T>,
    others: Forked<P, T>,
    room: Forked<P, T>,
) -> Report<P, T>
    requires progs_room { (room.progs.items ≡ [])
        × (vec_len report.progs + vec_len others.progs ≤ vec_capacity room.progs) }
    requires tools_room { (room.tools.items ≡ [])
        × (vec_len report.tools + vec_len others.tools ≤ vec_capacity room.tools) }
    ensures size { result.size ≡ report.size }
    ensures taken { result.taken ≡ report.taken }
    ensures history { result.history ≡ report.history }
    ensures progs { result.progs.items ≡ report.progs.items ++ others.progs.items }
    ensures tools { result.tools.items ≡ report.tools.items ++ others.tools.items }
{
    let Report {
        size,
        taken,
        history,
        progs,
        tools,
    } = report;
    let Forked { progs, tools } = all_together(Forked { progs, tools }, others, room);
    Report {
        size,
        taken,
        history,
        progs,
        tools,
    }
}

/// The fault with all programs and tools.
fn fault_of_all<P: Drop, T: Drop>(
    fault: RegionFault<P, T>,
    others: Forked<P, T>,
    room: Forked<P, T>,
) -> RegionFault<P, T>
    requires progs_room { (room.progs.items ≡ [])
        × (vec_len fault.progs + vec_len others.progs ≤ vec_capacity room.progs) }
    requires tools_room { (room.tools.items ≡ [])
        × (vec_len fault.tools + vec_len others.tools ≤ vec_capacity room.tools) }
    ensures progs { result.progs.items ≡ fault.progs.items ++ others.progs.items }
    ensures tools { result.tools.items ≡ fault.tools.items ++ others.tools.items }
    ensures member { result.member ≡ fault.member }
    ensures refusal { result.refusal ≡ fault.refusal }
{
    let RegionFault {
        member,
        refusal,
        progs,
        tools,
    } = fault;
    let Forked { progs, tools } = all_together(Forked { progs, tools }, others, room);
    RegionFault {
        member,
        refusal,
        progs,
        tools,
    }
}

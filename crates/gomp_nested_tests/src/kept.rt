//! A runtime that keeps its threads.

ghost use Rattle.std.specs.Prelude.{◌≡◌, ◌<◌};
ghost use Rattle.gomp_nested.specs.Ledgers.{IsLedger};

use crate::checks::{AMPLE, report_of, same};
use gomp_crew::Host;
use gomp_ompt::{Counts, Point};
use gomp_runtime::{Blanks, Kept, Named, NamedHolds, RegionRefusal, Runtime};
use gomp_test_programs::planned::{Planned, PlannedAct};
use gomp_test_programs::regions::{
    RegionResult, fault_parts, plan, programs, run, tools, variables,
};
use gomp_types::{Call, Clash, Place, Refusal};
use std::alloc::Global;
use std::marker::Brand;
use std::process::Abort;

/// How many regions there are.
const REGIONS: u64 = 400;

/// By these control variables nested teams have two members, within a team of two too.
const WORDS: [(&str, &str); 2] = [("OMP_MAX_ACTIVE_LEVELS", "2"), ("OMP_NUM_THREADS", "2")];

/// What a runtime forks, one region after another.
#[derive(Clone, Copy)]
enum Series {
    /// Regions of 1 to 4 members, in turn.
    Many,
    /// The regions of [`NESTING`].
    Nesting,
    /// One that breaks, and others behind it.
    Breaking,
}

/// The sizes of regions, and how many programs each of their members takes back: those of one nested region, or none.
const NESTING: &[(u64, u64)] = &[(1, 2), (3, 0), (2, 2)];

/// Regions of 1 to 4 members.
const IN_TURN: &[(u64, u64)] = &[(1, 0), (2, 0), (3, 0), (4, 0)];

/// The regions behind one that breaks.
const BEHIND: &[(u64, u64)] = &[(3, 0), (1, 0), (4, 0)];

/// So many programs, each of which forks a nested region if it is to take programs back.
fn forkers(rt: &impl Abort, alloc: Global, (size, joined): (u64, u64)) -> Vec<Planned> {
    let mut progs = programs(alloc, size).expect(rt, AMPLE);
    if joined > 0 {
        for number in 0..size as usize {
            plan(&mut progs, number, PlannedAct::Nested).expect(rt, AMPLE);
        }
    }
    progs
}

/// That a program of a region of `size` members is the one of its place, and took so many programs back.
fn has_joined(rt: &impl Abort, prog: &Planned, place: usize, (size, joined): (u64, u64)) {
    let asked = if joined > 0 { 2 } else { 1 };
    same(rt, &prog.mark, &(place as u64), "place of program", size);
    same(rt, &prog.asked, &asked, "questions to program", prog.mark);
    same(rt, &prog.joined, &joined, "taken back by", prog.mark);
    same(rt, &prog.refused, &0, "refusals", prog.mark);
}

/// That a region of `size` members left a report: all programs and tools come back in their order, each member arrives at the region's
/// end and passes it, and has taken back so many programs and their tools, which were told of a begin and an end each.
fn has_report(rt: &impl Abort, outcome: RegionResult, region: (u64, u64)) {
    let report = report_of(rt, outcome);
    let (size, joined) = region;
    same(rt, &(report.size as u64), &size, "size of", size);
    same(rt, &(report.taken.len() as u64), &size, "sums", size);
    same(rt, &(report.tools.len() as u64), &size, "tools", size);
    let events = report.history.len() as u64;
    same(rt, &events, &size.saturating_mul(2), "events of", size);
    for (place, prog) in report.progs.iter().enumerate() {
        has_joined(rt, prog, place, region);
    }
    let told = joined.saturating_add(1).saturating_mul(2);
    for tool in &report.tools {
        same(rt, &tool.count(Point::ImplicitTask), &told, "told in", size);
    }
}

/// Forks a region of `size` members, of which each is to take back so many programs.
fn fork_one<L: Named, H: NamedHolds, F: Named, R: Host + Abort>(
    rt: &R,
    alloc: Global,
    kept: &mut Kept<L, H, F, Planned, Counts>,
    region: (u64, u64),
)
    requires parts { L.parts ≡ 65 }
{
    let progs = forkers(rt, alloc, region);
    let tools = tools(alloc, region.0).expect(rt, AMPLE);
    let outcome = kept.parallel(rt, progs, tools);
    has_report(rt, outcome, region);
}

/// Three programs, of which the last stops.
fn stoppers(rt: &impl Abort, alloc: Global) -> Vec<Planned> {
    let mut progs = programs(alloc, 3).expect(rt, AMPLE);
    let stop = PlannedAct::Call(Call::Stop);
    plan(&mut progs, 2, stop).expect(rt, AMPLE);
    progs
}

/// That a region of three members broke by the last, which stopped: it is named, and programs and tools come back.
fn has_stopped(rt: &impl Abort, outcome: RegionResult) {
    let clash = Clash {
        member: 2,
        place: Place::Stopped,
    };
    let broken = RegionRefusal::Refused(Refusal::Broken(clash));
    let expected = Some(((2, broken), (3, 3)));
    same(rt, &fault_parts(outcome), &expected, "fault of", 3);
}

/// Forks a region of three members of which the last stops.
fn fork_fault<L: Named, H: NamedHolds, F: Named, R: Host + Abort>(
    rt: &R,
    alloc: Global,
    kept: &mut Kept<L, H, F, Planned, Counts>,
)
    requires parts { L.parts ≡ 65 }
{
    let progs = stoppers(rt, alloc);
    let tools = tools(alloc, 3).expect(rt, AMPLE);
    let outcome = kept.parallel(rt, progs, tools);
    has_stopped(rt, outcome);
}

/// The sizes of the regions of a series, and how many programs each of their members takes back; they come so many times.
fn regions_of(series: Series) -> (&'static [(u64, u64)], u64) {
    match series {
        Series::Many => (IN_TURN, REGIONS / 4),
        Series::Nesting => (NESTING, 1),
        Series::Breaking => (BEHIND, 1),
    }
}

/// Forks what a series says.
fn fork_series<L: Named, H: NamedHolds, F: Named, R: Host + Abort>(
    rt: &R,
    alloc: Global,
    kept: &mut Kept<L, H, F, Planned, Counts>,
    series: Series,
)
    requires parts { L.parts ≡ 65 }
{
    if let Series::Breaking = series {
        fork_fault(rt, alloc, kept);
    }
    let (regions, times) = regions_of(series);
    for _ in 0..times {
        for region in regions {
            fork_one(rt, alloc, kept, *region);
        }
    }
}

/// The same by a runtime of its own, whose threads end.
fn with_kept<L: Named, H: NamedHolds, F: Named, R: Host + Abort>(
    rt: &R,
    alloc: Global,
    blanks: Blanks,
    series: Series,
)
    requires events { IsLedger L.name L.parts 65 blanks.events.name blanks.events.parts }
    requires held { IsLedger H.name H.parts 34353345 blanks.held.name blanks.held.parts }
    requires freed { IsLedger F.name F.parts 34353345 blanks.freed.name blanks.freed.parts }
    requires before { H.before ≡ 0 }
{
    let icv = variables(alloc, &WORDS).expect(rt, AMPLE);
    let kept = Kept::<L, H, F, Planned, Counts>::new(alloc, icv, blanks);
    let mut kept = kept.ok().expect(rt, AMPLE);
    fork_series(rt, alloc, &mut kept, series);
    kept.stop(rt);
}

/// The same with ledgers of its own.
fn on_kept<R: Host + Abort>(rt: &R, alloc: Global, series: Series) {
    let blanks = Blanks::new();
    with_kept::<Brand, Brand, Brand, R>(rt, alloc, blanks, series);
}

/// One runtime serves 400 regions of changing sizes, one after another, on the threads that it keeps.
#[test]
fn kept_threads_serve_many_regions(rt: HostRuntime) {
    on_kept(&rt, rt.alloc(), Series::Many);
}

/// Forks these regions by a runtime that keeps no thread.
fn fork_unkept<R: Host + Abort>(rt: &R, alloc: Global, regions: &[(u64, u64)]) {
    let icv = variables(alloc, &WORDS).expect(rt, AMPLE);
    let mut runtime = Runtime::new(alloc, icv);
    for region in regions {
        let progs = forkers(rt, alloc, *region);
        let outcome = run(rt, alloc, &mut runtime, progs).expect(rt, AMPLE);
        has_report(rt, outcome, *region);
    }
}

/// Regions with nested ones, and one without, leave there what they leave of a runtime that keeps no thread.
#[test]
fn kept_threads_serve_nested_regions(rt: HostRuntime) {
    fork_unkept(&rt, rt.alloc(), NESTING);
    on_kept(&rt, rt.alloc(), Series::Nesting);
}

/// A region that breaks gives its programs and tools back, and those behind it are served by the same runtime.
#[test]
fn kept_threads_outlast_a_fault(rt: HostRuntime) {
    on_kept(&rt, rt.alloc(), Series::Breaking);
}

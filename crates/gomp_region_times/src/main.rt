//! Forks empty regions on kept threads, and says how long that took.
//!
//! The arguments are the number of members, how many regions a run has, how many runs there are, and how many barriers the members of a
//! region meet at before its end: none, if it is to be empty. With 0 members the regions have 1, 2, 3 and 4 in turn, each with lists of its
//! own; else each region takes the lists that the last one gave back. Of each run the program prints how many members its regions had
//! together and the nanoseconds that they took, the first of which start the threads. Then it waits for the end of its input, so that its
//! threads can be counted before they end. A word that is no number counts as 0.
#![tactic(auto)]

ghost use Rattle.std.specs.Prelude.{◌≡◌};
ghost use Rattle.gomp_nested.specs.Ledgers.{IsLedger};

use gomp_crew::Host;
use gomp_icv::Icv;
use gomp_runtime::{Act, Blanks, Kept, Named, NamedHolds, NoTool, Program};
use gomp_types::{Call, Reply};
use std::alloc::{AllocError, Global};
use std::io;
use std::marker::Brand;
use std::rt::Runtime;
use std::time::Instant;

/// A program that meets the others at some barriers, and then comes to the region's end.
#[derive(Drop)]
struct Empty {
    /// How many barriers there are in a region.
    barriers: u64,
    /// How many of them it has yet to meet at.
    left: u64,
}

impl Program for Empty {
    ghost next_gives = { λ before last act after. Unit {0} };

    ghost fork_gives = { λ program count made. Unit {0} };

    ghost join_gives = { λ before children after. Unit {0} };

    fn next(&mut self, _alloc: Global, _last: &Reply) -> Result<Act, AllocError> {
        if self.left > 0 {
            self.left -= 1;
            return Ok(Act::Do(Call::Barrier));
        }
        self.left = self.barriers;
        Ok(Act::Do(Call::RegionEnd))
    }

    /// No nested region is forked: as if there were no memory for it.
    fn fork(&self, _alloc: Global, _count: u16) -> Result<Vec<Empty>, AllocError> {
        Err(AllocError)
    }

    /// Nothing is taken of them.
    fn join(&mut self, children: Vec<Empty>)
        ensures { Unit {0} }
    {
        let _ = children;
    }
}

/// What a region is forked with: a program and a tool for each member.
#[derive(Drop)]
struct Lists {
    progs: Vec<Empty>,
    tools: Vec<NoTool>,
}

impl Lists {
    fn new(alloc: Global, members: u64, barriers: u64) -> Result<Lists, AllocError> {
        let mut progs = Vec::new(alloc);
        let mut tools = Vec::new(alloc);
        for _ in 0..members {
            progs.push(Empty {
                barriers,
                left: barriers,
            })?;
            tools.push(NoTool)?;
        }
        Ok(Lists { progs, tools })
    }
}

/// What is asked for.
#[derive(Clone, Copy)]
struct Asked {
    /// How many members a region has; 0 for 1, 2, 3 and 4 in turn.
    members: u64,
    /// How many regions a run has.
    regions: u64,
    /// How many runs there are.
    runs: u64,
    /// At how many barriers the members of a region meet.
    barriers: u64,
}

/// Forks a region: how many members it had, and its lists again. None if it gave no report.
fn fork_one<L: Named, H: NamedHolds, F: Named, R: Host>(
    rt: &R,
    kept: &mut Kept<L, H, F, Empty, NoTool>,
    lists: Lists,
) -> Option<(u64, Lists)>
    requires parts { L.parts ≡ 65 }
{
    let Lists { progs, tools } = lists;
    match kept.parallel(rt, progs, tools) {
        Ok(report) => {
            let lists = Lists {
                progs: report.progs,
                tools: report.tools,
            };
            Some((u64::from(report.size), lists))
        }
        Err(_) => None,
    }
}

/// Forks regions of as many members, one after another, until one gives no report: how many members they had together.
fn fork_alike<L: Named, H: NamedHolds, F: Named, R: Host>(
    rt: &R,
    alloc: Global,
    kept: &mut Kept<L, H, F, Empty, NoTool>,
    asked: Asked,
) -> Result<u64, AllocError>
    requires parts { L.parts ≡ 65 }
{
    let mut lists = Lists::new(alloc, asked.members, asked.barriers)?;
    let mut members: u64 = 0;
    for _ in 0..asked.regions {
        match fork_one(rt, kept, lists) {
            Some((size, back)) => {
                members = members.wrapping_add(size);
                lists = back;
            }
            None => return Ok(members),
        }
    }
    Ok(members)
}

/// Forks regions of 1, 2, 3 and 4 members in turn, those behind one that gives no report too: how many members those had together that did.
fn fork_changing<L: Named, H: NamedHolds, F: Named, R: Host>(
    rt: &R,
    alloc: Global,
    kept: &mut Kept<L, H, F, Empty, NoTool>,
    asked: Asked,
) -> Result<u64, AllocError>
    requires parts { L.parts ≡ 65 }
{
    let mut members: u64 = 0;
    for number in 0..asked.regions {
        let lists = Lists::new(alloc, number % 4 + 1, asked.barriers)?;
        if let Some((size, _)) = fork_one(rt, kept, lists) {
            members = members.wrapping_add(size);
        }
    }
    Ok(members)
}

/// Makes the runs, and waits for the end of the input.
fn make_runs<L: Named, H: NamedHolds, F: Named, R: Runtime + Host>(
    rt: &R,
    alloc: Global,
    kept: &mut Kept<L, H, F, Empty, NoTool>,
    asked: Asked,
) -> io::Result<()>
    requires parts { L.parts ≡ 65 }
{
    for _ in 0..asked.runs {
        let start = Instant::now(rt)?;
        let members = if asked.members == 0 {
            fork_changing(rt, alloc, kept, asked)?
        } else {
            fork_alike(rt, alloc, kept, asked)?
        };
        let spent = start.elapsed(rt)?.as_nanos();
        println!(rt; "{members} {spent}")?;
    }
    for line in rt.lines(alloc) {
        let _line = line?;
    }
    Ok(())
}

/// Makes the runs by a runtime that keeps its threads, which end behind them.
fn with_kept<L: Named, H: NamedHolds, F: Named, R: Runtime + Host>(
    rt: &R,
    alloc: Global,
    blanks: Blanks,
    asked: Asked,
) -> io::Result<()>
    requires events { IsLedger L.name L.parts 65 blanks.events.name blanks.events.parts }
    requires held { IsLedger H.name H.parts 34353345 blanks.held.name blanks.held.parts }
    requires freed { IsLedger F.name F.parts 34353345 blanks.freed.name blanks.freed.parts }
    requires before { H.before ≡ 0 }
{
    let mut kept = Kept::<L, H, F, Empty, NoTool>::new(alloc, Icv::initial(), blanks)?;
    let result = make_runs(rt, alloc, &mut kept, asked);
    kept.stop(rt);
    result
}

/// The number that a word is; 0 if it is none.
fn number_of(word: Option<&str>) -> u64 {
    word.unwrap_or("").parse::<u64>().unwrap_or(0)
}

fn main(rt: HostRuntime) -> io::Result<()> {
    let mut words = std::env::args(&rt)?;
    let _program = words.next();
    let members = words.next();
    let regions = words.next();
    let runs = words.next();
    let barriers = words.next();
    let asked = Asked {
        members: number_of(members.as_deref()),
        regions: number_of(regions.as_deref()),
        runs: number_of(runs.as_deref()),
        barriers: number_of(barriers.as_deref()),
    };
    let blanks = Blanks::new();
    with_kept::<Brand, Brand, Brand, HostRuntime>(&rt, rt.alloc(), blanks, asked)
}

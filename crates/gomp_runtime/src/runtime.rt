//! A runtime, and its parallel regions.

ghost use Rattle.std.specs.Prelude.{◌≡◌, ◌+◌, ◌<◌, ◌≤◌, None, Some, length, vec_len};
ghost use Rattle.gomp_locks.specs.Order.{IsInOrder};
ghost use Rattle.gomp_types.specs.Limits.{IsTeamSize, standard};
ghost use Rattle.gomp_runtime.specs.Regions.{ForksRegion, RunsForked, fork_refusal, regions_after, size_for};
ghost use Rattle.gomp_fork.specs.Teams.{team_of};
ghost use Rattle.gomp_levels.specs.Levels.{LeavesForked};

use crate::numbers::{Numbers, new_book};
use crate::sized::sized_region;
use crate::told::{begin_told, end_told};
use gomp_course::{CallGate, NoGate, Program};
use gomp_crew::Host;
use gomp_fork::{Forked, RegionFault, Report};
use gomp_icv::Icv;
use gomp_levels::OutermostGround;
use gomp_nested::ClosedBook;
use gomp_ompt::Tool;
use gomp_types::Refusal;
use std::alloc::Global;
use std::marker::{Brand, Model};
use std::mem;
use std::sync::Arc;

/// A runtime: it forks one outermost region after another. Its critical names and locks outlast them.
#[derive(Drop)]
pub struct Runtime {
    /// Its control variables, and the numbers of its regions.
    numbers: Numbers,
    /// Critical names and locks, and the count of its nested regions.
    closed: ClosedBook,
}

impl Model for Runtime {
    ghost use Rattle.gomp_locks.specs.Order.{IsInOrder};
    ghost use Rattle.gomp_runtime.specs.Regions.{RuntimeView};

    ghost Value = { RuntimeView };

    ghost view = { λ r. r.numbers };

    ghost invariant = { λ r. IsInOrder r.closed.book };
}

impl Runtime {
    /// A runtime with these control variables, which has forked no region. It takes no memory.
    pub fn new(alloc: Global, icv: Icv) -> Runtime
        ensures icv { result.icv ≡ icv }
        ensures regions { result.regions ≡ 0 }
    {
        Runtime {
            numbers: Numbers::new(icv),
            closed: new_book(alloc, 0),
        }
    }

    /// A parallel region: [`parallel_with`](Runtime::parallel_with) a gate that does nothing.
    pub fn parallel<P, T, R>(
        &mut self,
        rt: &R,
        alloc: Global,
        progs: Vec<P>,
        tools: Vec<T>,
    ) -> Result<Report<P, T>, RegionFault<P, T>>
    where
        P: Program + Send + 'static,
        T: Tool + Send + 'static,
        R: Host,
        ensures region { ForksRegion P.Program T.Tool
            self.old progs.items tools.items result }
        ensures regions { self.new.regions ≡
            regions_after self.old (length progs.items) (length tools.items) }
        ensures icv { self.new.icv ≡ self.old.icv }
    {
        let forked = Forked { progs, tools };
        let number = match self.numbers.take_number(&forked) {
            Ok(number) => number,
            Err(refusal) => return Err(forked.refused(0, refusal)),
        };
        match Arc::new(alloc, NoGate) {
            Ok(gate) => self.fork(rt, number, alloc, gate, forked),
            Err(_) => Err(forked.refused(0, Refusal::NoMemory)),
        }
    }

    /// A parallel region whose members run these programs, each with the tool of its place: the first ones,
    /// as many as the control variables allow, 1 to 64. Member 0 runs on the calling thread, and the
    /// others on threads that end with the region. The gate stands round each of their calls. The tool of each
    /// member is told that it begins, and that of member 0 of the team, before and behind all.
    ///
    /// Refused, of member 0: with `CountTooLarge` (E33) after 2^31 regions, with `BadTeam` (E38) if there is
    /// no program or not a tool for each, with `NoMemory` (E37) if memory is refused; with that also of the
    /// first member whose thread cannot be had, and of one whose program finds no memory. A member that
    /// breaks its team is named with the refusal that it last got, or with `Broken` (E3) if it got none. A
    /// history that cannot be settled, to which no call leads, is E42.
    /// OpenMP API 5.2, sections 10.1 and 10.1.1.
    pub fn parallel_with<P, T, G, R>(
        &mut self,
        rt: &R,
        alloc: Global,
        gate: Arc<G>,
        progs: Vec<P>,
        tools: Vec<T>,
    ) -> Result<Report<P, T>, RegionFault<P, T>>
    where
        P: Program + Send + 'static,
        T: Tool + Send + 'static,
        G: CallGate + Send + Sync + 'static,
        R: Host,
        ensures region { ForksRegion P.Program T.Tool
            self.old progs.items tools.items result }
        ensures told { fork_refusal self.old (length progs.items) (length tools.items) ≡ None →
            RunsForked P.Program T.Tool self.old.regions self.old.icv
            (progs.items, tools.items) result }
        ensures regions { self.new.regions ≡
            regions_after self.old (length progs.items) (length tools.items) }
        ensures icv { self.new.icv ≡ self.old.icv }
    {
        let forked = Forked { progs, tools };
        match self.numbers.take_number(&forked) {
            Ok(number) => self.fork(rt, number, alloc, gate, forked),
            Err(refusal) => Err(forked.refused(0, refusal)),
        }
    }

    /// A region of this number, which is not refused.
    fn fork<P, T, G, R>(
        &mut self,
        rt: &R,
        number: u32,
        alloc: Global,
        gate: Arc<G>,
        forked: Forked<P, T>,
    ) -> Result<Report<P, T>, RegionFault<P, T>>
    where
        P: Program + Send + 'static,
        T: Tool + Send + 'static,
        G: CallGate + Send + Sync + 'static,
        R: Host,
        requires some { 0 < length forked.progs.items }
        requires tools { length forked.tools.items ≡ length forked.progs.items }
        ensures region { RunsForked P.Program T.Tool number self.old.icv
            (forked.progs.items, forked.tools.items) result }
        ensures same { self.new ≡ self.old }
    {
        let size = self.numbers.size_for(forked.progs.len());
        let terms = self.numbers.terms(number, size);
        let forked = begin_told(size, forked);
        let ground = OutermostGround {
            alloc,
            gate,
            terms,
            threads: self.numbers.threads(),
        };
        let result = self.region(rt, size, ground, forked);
        end_told(size, result)
    }

    /// A region of as many of the programs and tools as `size`, 1 to 64.
    fn region<P, T, G, R>(
        &mut self,
        rt: &R,
        size: u16,
        ground: OutermostGround<G>,
        forked: Forked<P, T>,
    ) -> Result<Report<P, T>, RegionFault<P, T>>
    where
        P: Program + Send + 'static,
        T: Tool + Send + 'static,
        G: CallGate + Send + Sync + 'static,
        R: Host,
        requires parts { ground.threads.blank.parts ≡ ground.threads.limit }
        requires limit { size ≤ ground.threads.limit + 1 }
        requires thread_limit { ground.threads.limit + 1 ≡ ground.terms.icv.thread_limit }
        requires limits { ground.terms.limits ≡ standard }
        requires size { IsTeamSize size }
        requires enough { size ≤ vec_len forked.progs }
        requires tools { vec_len forked.tools ≡ vec_len forked.progs }
        ensures region { LeavesForked P.Program T.Tool size
            (team_of ground.terms) (forked.progs.items, forked.tools.items) result }
        ensures same { self.new ≡ self.old }
    {
        let alloc = ground.alloc;
        let nested = self.closed.nested;
        let closed = mem::replace(&mut self.closed, new_book(alloc, nested));
        let (result, closed) = sized_region::<Brand, P, T, G, R>(rt, size, closed, ground, forked);
        if let Some(closed) = closed {
            self.closed = closed;
        }
        result
    }
}

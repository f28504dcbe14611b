//! A runtime that keeps its threads between its regions.

ghost use Rattle.std.specs.Prelude.{◌≡◌, ◌≤◌, IfOk, None, length, vec_len};
ghost use Rattle.gomp_types.specs.Limits.{IsTeamSize, standard};
ghost use Rattle.gomp_runtime.specs.Regions.{ForksRegion, RunsForked, fork_refusal, regions_after};
ghost use Rattle.gomp_levels.specs.Levels.{LeavesForked};
ghost use Rattle.gomp_fork.specs.Teams.{team_of};
ghost use Rattle.gomp_nested.specs.Ledgers.{IsLedger};

use crate::numbers::{Numbers, new_book};
use crate::sized::{Parted, part_first, with_others};
use crate::told::{begin_told, end_told};
use gomp_course::{NoGate, Program};
use gomp_crew::{Crew, Host};
use gomp_fork::{EndedRegion, Forked, Named, NamedHolds, RegionFault, RegionRefusal, Report};
use gomp_icv::Icv;
use gomp_levels::{OutermostCrew, OutermostGround, outermost};
use gomp_nested::{Blanks, OpenBook};
use gomp_ompt::Tool;
use gomp_team::TeamTerms;
use gomp_team_board::EventLedger;
use gomp_team_book::HoldLedger;
use gomp_types::Refusal;
use std::alloc::{AllocError, Global};
use std::marker::{Brand, Model};
use std::sync::Arc;
use std::sync::ledger::Ledger;
use std::thread::Threads;

/// A runtime that keeps its threads: they start with the first region that needs them, and wait for the next.
/// Its regions are forked one after another, with programs of one type and tools of one type.
///
/// Its three ledgers go from one region to the next, so it names them: [`Runtime`](crate::Runtime) does not,
/// and starts threads for each region. It cannot be dropped: code that lets one go does not compile, and
/// [`Kept::stop`] ends its threads.
pub struct Kept<L: Ledger, H: HoldLedger, F: Ledger, P: Program, T: Tool> {
    /// Its control variables, and the numbers of its regions.
    numbers: Numbers,
    /// Where its memory comes from.
    alloc: Global,
    /// What stands round each call of a member: nothing.
    gate: Arc<NoGate>,
    /// Its threads.
    crew: OutermostCrew<L, H, F, P, T>,
    /// Critical names and locks, under their lock.
    opened: OpenBook<H, F>,
    /// The ledger of a region's events. None only once another thread has kept a team, which cannot be when
    /// all its members have returned; then there is no region any more.
    ledger: Option<EventLedger<L>>,
}

impl<L: Ledger, H: HoldLedger, F: Ledger, P: Program, T: Tool> Model for Kept<L, H, F, P, T> {
    ghost use Rattle.gomp_runtime.specs.Regions.{KeptParts, RuntimeView};

    ghost Value = { RuntimeView };

    ghost view = { λ k. k.numbers };

    ghost invariant = { λ k. KeptParts k.opened.share.held.parts k.opened.share.freed.parts k.ledger };
}

impl<L, H, F, P, T> Kept<L, H, F, P, T>
where
    L: Named,
    H: NamedHolds,
    F: Named,
    P: Program + Send + 'static,
    T: Tool + Send + 'static,
{
    /// A runtime with these control variables, which has no thread yet and has forked no region. Its ledgers
    /// are opened by these blanks: `Blanks::new()`. The error is want of memory.
    #[tactic(auto, using(gomp_locks::proofs::Laws::new_book_is_in_order))]
    pub fn new(alloc: Global, icv: Icv, blanks: Blanks) -> Result<Kept<L, H, F, P, T>, AllocError>
        requires events { IsLedger L.name L.parts 65 blanks.events.name blanks.events.parts }
        requires held { IsLedger H.name H.parts 34353345 blanks.held.name blanks.held.parts }
        requires freed { IsLedger F.name F.parts 34353345 blanks.freed.name blanks.freed.parts }
        requires before { H.before ≡ 0 }
        ensures icv { IfOk result (λ made. made.icv ≡ icv) }
        ensures regions { IfOk result (λ made. made.regions ≡ 0) }
    {
        let gate = Arc::new(alloc, NoGate)?;
        let closed = new_book(alloc, 0);
        let Ok(opened) = OpenBook::<H, F>::new(alloc, closed, blanks.held, blanks.freed) else {
            return Err(AllocError);
        };
        Ok(Kept {
            numbers: Numbers::new(icv),
            alloc,
            gate,
            crew: Crew::new(alloc),
            opened,
            ledger: Some(EventLedger::open(blanks.events)),
        })
    }

    /// A parallel region, as [`Runtime::parallel`](crate::Runtime::parallel) has it, refused as there, but on
    /// threads that are kept; those that it lacks are started first.
    pub fn parallel<R: Host>(
        &mut self,
        rt: &R,
        progs: Vec<P>,
        tools: Vec<T>,
    ) -> Result<Report<P, T>, RegionFault<P, T>>
        requires parts { L.parts ≡ 65 }
        ensures icv { self.new.icv ≡ self.old.icv }
        ensures regions { self.new.regions ≡
            regions_after self.old (length progs.items) (length tools.items) }
        ensures region { ForksRegion P.Program T.Tool
            self.old progs.items tools.items result }
        ensures told { fork_refusal self.old (length progs.items) (length tools.items) ≡ None →
            RunsForked P.Program T.Tool self.old.regions self.old.icv
            (progs.items, tools.items) result }
    {
        let forked = Forked { progs, tools };
        let number = match self.numbers.take_number(&forked) {
            Ok(number) => number,
            Err(refusal) => return Err(forked.refused(0, refusal)),
        };
        let size = self.numbers.size_for(forked.progs.len());
        let terms = self.numbers.terms(number, size);
        let forked = begin_told(size, forked);
        let result = self.sized_region(rt, terms, size, forked);
        end_told(size, result)
    }

    /// A region of the first programs and tools, as many as `size`, 1 to 64. The others come back behind
    /// them, as they were.
    fn sized_region<R: Host>(
        &mut self,
        rt: &R,
        terms: TeamTerms,
        size: u16,
        forked: Forked<P, T>,
    ) -> Result<Report<P, T>, RegionFault<P, T>>
        requires parts { L.parts ≡ 65 }
        requires limit { size ≤ self.old.icv.thread_limit }
        requires thread_limit { terms.icv.thread_limit ≡ self.old.icv.thread_limit }
        requires limits { terms.limits ≡ standard }
        requires size { IsTeamSize size }
        requires enough { size ≤ vec_len forked.progs }
        requires tools { vec_len forked.tools ≡ vec_len forked.progs }
        ensures region { LeavesForked P.Program T.Tool size
            (team_of terms) (forked.progs.items, forked.tools.items) result }
        ensures same { self.new ≡ self.old }
    {
        if size as usize == forked.progs.len() {
            return self.region(rt, terms, forked);
        }
        let Parted {
            first,
            others,
            room,
        } = match part_first(self.alloc, size as usize, forked) {
            Ok(parted) => parted,
            Err(forked) => return Err(forked.refused(0, Refusal::NoMemory)),
        };
        let result = self.region(rt, terms, first);
        with_others(result, others, room)
    }

    /// A region of these programs and tools, 1 to 64.
    fn region<R: Host>(
        &mut self,
        rt: &R,
        terms: TeamTerms,
        forked: Forked<P, T>,
    ) -> Result<Report<P, T>, RegionFault<P, T>>
        requires parts { L.parts ≡ 65 }
        requires limit { vec_len forked.progs ≤ self.old.icv.thread_limit }
        requires thread_limit { terms.icv.thread_limit ≡ self.old.icv.thread_limit }
        requires limits { terms.limits ≡ standard }
        requires size { IsTeamSize (vec_len forked.progs) }
        requires tools { vec_len forked.tools ≡ vec_len forked.progs }
        ensures region { LeavesForked P.Program T.Tool (vec_len forked.progs)
            (team_of terms) (forked.progs.items, forked.tools.items) result }
        ensures same { self.new ≡ self.old }
    {
        let Ok(gate) = Arc::try_clone(&self.gate) else {
            return Err(forked.refused(0, Refusal::NoMemory));
        };
        let Some(ledger) = self.ledger.take() else {
            return Err(RegionFault {
                member: 0,
                refusal: RegionRefusal::Unsettled,
                progs: forked.progs,
                tools: forked.tools,
            });
        };
        let ground = OutermostGround {
            alloc: self.alloc,
            gate,
            terms,
            threads: self.numbers.threads(),
        };
        let Kept {
            crew,
            opened,
            ledger: kept,
            ..
        } = self;
        let EndedRegion { result, ledger } = outermost::<L, Brand, H, F, P, T, NoGate, R>(
            rt, crew, opened, ledger, ground, forked,
        );
        *kept = ledger;
        result
    }
}

impl<L: Ledger, H: HoldLedger, F: Ledger, P: Program, T: Tool> Kept<L, H, F, P, T> {
    /// Ends all threads, and waits until they have ended.
    pub fn stop<R: Threads>(self, rt: &R) {
        let Kept {
            crew,
            numbers: _numbers,
            alloc: _alloc,
            gate: _gate,
            opened: _opened,
            ledger: _ledger,
        } = self;
        crew.stop(rt);
    }
}

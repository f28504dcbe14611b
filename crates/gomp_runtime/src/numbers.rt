//! What a runtime has before its first region: its control variables, the numbers of its regions, its book.

ghost use Rattle.std.specs.Prelude.{◌≡◌, ◌+◌, ◌<◌, ◌≤◌, IfOk, IfErr, Some, None, length};
ghost use Rattle.gomp_locks.specs.Book.{open_holds};
ghost use Rattle.gomp_locks.specs.Order.{IsInOrder};
ghost use Rattle.gomp_types.specs.Limits.{IsTeamSize, standard};
ghost use Rattle.gomp_runtime.specs.Regions.{fork_refusal, regions_after, size_for};
ghost use Rattle.gomp_fork.specs.Teams.{team_of, team_sized};

use gomp_fork::Forked;
use gomp_icv::{Icv, child_icv, team_size};
use gomp_locks::LockBook;
use gomp_nested::{ClosedBook, FIRST_NESTED, Threads};
use gomp_team::TeamTerms;
use gomp_types::{Limits, MAX_MEMBERS, Refusal};
use std::alloc::Global;
use std::marker::Model;
use std::sync::ledger::Blank;

/// The control variables of the initial task, and how many regions had a number.
#[derive(Drop)]
pub(crate) struct Numbers {
    /// The control variables of the initial task.
    icv: Icv,
    /// How many regions had a number, 0 to 2^31.
    regions: u32,
}

impl Model for Numbers {
    ghost use Rattle.std.specs.Prelude.{◌≤◌};
    ghost use Rattle.gomp_runtime.specs.Regions.{RuntimeView};

    ghost Value = { RuntimeView };

    ghost view = { λ n. record { icv = n.icv; regions = n.regions } };

    ghost invariant = { λ n. n.regions ≤ 2147483648 };
}

/// A book of which nothing is held, when so many nested regions had a number. It takes no memory.
#[tactic(auto, using(gomp_locks::proofs::Laws::new_book_is_in_order))]
pub(crate) fn new_book(alloc: Global, nested: u64) -> ClosedBook
    ensures order { IsInOrder result.book }
    ensures none { open_holds result.book ≡ 0 }
{
    ClosedBook {
        book: LockBook::new(alloc),
        nested,
    }
}

impl Numbers {
    /// With these control variables; no region has a number.
    pub(crate) fn new(icv: Icv) -> Numbers
        ensures icv { result.icv ≡ icv }
        ensures regions { result.regions ≡ 0 }
    {
        Numbers { icv, regions: 0 }
    }

    /// The threads that the teams of a region may have beside the one that forks it.
    pub(crate) fn threads(&self) -> Threads
        ensures limit { result.limit + 1 ≡ self.now.icv.thread_limit }
        ensures parts { result.blank.parts ≡ result.limit }
    {
        let limit = self.icv.thread_limit() - 1;
        Threads {
            limit,
            blank: Blank::new(limit as u64),
        }
    }

    /// The number of the next region with these programs and tools, if it is not refused.
    pub(crate) fn take_number<P: Drop, T: Drop>(
        &mut self,
        forked: &Forked<P, T>,
    ) -> Result<u32, Refusal>
        ensures number { IfOk result (λ number. number ≡ self.old.regions) }
        ensures some { IfOk result (λ number. 0 < length forked.now.progs.items) }
        ensures tools { IfOk result (λ number.
            length forked.now.tools.items ≡ length forked.now.progs.items) }
        ensures ok { IfOk result (λ number. fork_refusal self.old
            (length forked.now.progs.items) (length forked.now.tools.items) ≡ None) }
        ensures err { IfErr result (λ refusal. fork_refusal self.old
            (length forked.now.progs.items) (length forked.now.tools.items) ≡ Some refusal) }
        ensures regions { self.new.regions ≡ regions_after self.old
            (length forked.now.progs.items) (length forked.now.tools.items) }
        ensures icv { self.new.icv ≡ self.old.icv }
    {
        if self.regions >= FIRST_NESTED {
            return Err(Refusal::CountTooLarge);
        }
        let number = self.regions;
        let progs = forked.progs.len();
        if progs == 0 || progs != forked.tools.len() {
            return Err(Refusal::BadTeam);
        }
        self.regions += 1;
        Ok(number)
    }

    /// How many members a team for so many programs has.
    pub(crate) fn size_for(&self, progs: usize) -> u16
        requires some { 0 < progs }
        ensures size { result ≡ size_for self.now.icv progs }
        ensures fits { IsTeamSize result × (result ≤ progs) }
        ensures limit { result ≤ self.now.icv.thread_limit }
    {
        let wanted = progs.min(MAX_MEMBERS as usize) as u32;
        team_size(&self.icv, Some(wanted), true, 1) as u16
    }

    /// With what a team of this number and size is made.
    pub(crate) fn terms(&self, number: u32, size: u16) -> TeamTerms
        ensures team { team_of result ≡ team_sized number self.now.icv size }
        ensures thread_limit { result.icv.thread_limit ≡ self.now.icv.thread_limit }
        ensures limits { result.limits ≡ standard }
    {
        TeamTerms {
            number,
            icv: child_icv(&self.icv, size as u32),
            limits: Limits::STANDARD,
        }
    }
}

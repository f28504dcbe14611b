//! What the threads of a region are handed, and what they return, in lists.

ghost use Rattle.std.specs.Prelude.{◌≡◌, ◌+◌, ◌++◌, ◌∷◌, ◌<◌, ◌≤◌, [], IfOk, map, vec_len, vec_capacity};
ghost use Rattle.gomp_team_region.specs.Regions.{GivesParts};
ghost use Rattle.gomp_fork.specs.Counts.{HaveCountedNothing, both_counted, counted_in, counted_within};
ghost use Rattle.gomp_fork.specs.Lists.{nothing_returned};
ghost use Rattle.gomp_fork.specs.Teams.{EachHasBegun, HasBegun, members_of, progs_of};

use crate::inner::InnerParts;
use crate::runs::{RegionJob, RegionOutcome};
use gomp_course::{Job, NoTool, Outcome, Program, Runner};
use gomp_ompt::{Point, Record, Tool};
use gomp_team::Member;
use gomp_team_book::HoldLedger;
use gomp_team_region::BookShare;
use gomp_types::Refusal;
use std::alloc::{AllocError, Global};
use std::marker::Model;
use std::sync::ledger::Ledger;

/// What members returned, by their numbers, and room for more.
#[derive(Drop)]
pub(crate) struct Returned<L: Ledger, H: HoldLedger, F: Ledger, P: Program, T: Tool> {
    /// The members.
    members: Vec<Member<L, H, F, T>>,
    /// Their programs.
    progs: Vec<P>,
    /// The refusal that each got last.
    refusals: Vec<Option<Refusal>>,
    /// For how many more there is room.
    room: usize,
}

impl<L: Ledger, H: HoldLedger, F: Ledger, P: Program, T: Tool> Model for Returned<L, H, F, P, T> {
    ghost use Rattle.std.specs.Prelude.{◌+◌, ◌≤◌, vec_len, vec_capacity};
    ghost use Rattle.gomp_fork.specs.Lists.{ReturnedView};

    ghost Value = { ReturnedView P T };

    ghost view = { λ r. record { members = r.members.items; progs = r.progs.items; room = r.room } };

    ghost invariant = { λ r. (vec_len r.members + r.room ≤ vec_capacity r.members) × (vec_len r.progs + r.room ≤ vec_capacity r.progs) × (vec_len r.refusals + r.room ≤ vec_capacity r.refusals) };
}

impl<L: Ledger, H: HoldLedger, F: Ledger, P: Program, T: Tool> Returned<L, H, F, P, T> {
    /// Nothing yet, with room for what `count` members return.
    pub(crate) fn new(alloc: Global, count: usize) -> Result<Returned<L, H, F, P, T>, AllocError>
        ensures none { IfOk result (λ made. made ≡ nothing_returned count) }
    {
        Ok(Returned {
            members: Vec::with_capacity(alloc, count)?,
            progs: Vec::with_capacity(alloc, count)?,
            refusals: Vec::with_capacity(alloc, count)?,
            room: count,
        })
    }

    /// The lists: members, programs and refusals.
    pub(crate) fn into_lists(self) -> (Vec<Member<L, H, F, T>>, Vec<P>, Vec<Option<Refusal>>)
        ensures members { result.0.items ≡ self.members }
        ensures progs { result.1.items ≡ self.progs }
    {
        let Returned {
            members,
            progs,
            refusals,
            ..
        } = self;
        (members, progs, refusals)
    }

    /// What one more member returned; what it has for the regions that it forked is handed on.
    fn push(&mut self, outcome: RegionOutcome<L, H, F, P, T>) -> InnerParts<H, F>
        requires room { 0 < self.old.room }
        ensures members { self.new.members ≡ self.old.members ++ outcome.runner.member ∷ [] }
        ensures progs { self.new.progs ≡ self.old.progs ++ outcome.runner.prog ∷ [] }
        ensures room { self.new.room + 1 ≡ self.old.room }
        ensures inner { result ≡ outcome.runner.inner }
    {
        let Outcome {
            runner,
            refusal,
            ..
        } = outcome;
        let Runner {
            prog,
            member,
            inner,
        } = runner;
        self.members.push_reserved(member);
        self.progs.push_reserved(prog);
        self.refusals.push_reserved(refusal);
        self.room -= 1;
        inner
    }
}

/// A member of a team of this size, whose tool is told that it begins its part of the region.
fn begun<L: Ledger, H: HoldLedger, F: Ledger, T: Tool>(
    size: u16,
    number: u16,
    member: Member<L, H, F, T>,
) -> Member<L, H, F, T>
    ensures { HasBegun T.Tool size number member result }
{
    let (member, mut tool) = member.swap_tool(NoTool);
    tool.on(&Record::begin(Point::ImplicitTask, number as u64, size as u64));
    let (member, _) = member.swap_tool(tool);
    member
}

/// A job for each member, with the program of the same place, of a team of this size. Of the share each has a part
/// of each ledger for the regions that it forks. It is as deep as there are members.
pub(crate) fn jobs_of<L: Ledger, H: HoldLedger, F: Ledger, P: Program, T: Tool>(
    size: u16,
    mut members: Vec<Member<L, H, F, T>>,
    mut progs: Vec<P>,
    share: &mut BookShare<H, F>,
    jobs: Vec<RegionJob<L, H, F, P, T>>,
) -> Vec<RegionJob<L, H, F, P, T>>
    requires progs { vec_len progs ≡ vec_len members }
    requires few { vec_len members ≤ 64 }
    requires none { jobs.items ≡ [] }
    requires room { vec_len members ≤ vec_capacity jobs }
    requires held { vec_len members < share.old.held.parts }
    requires freed { vec_len members < share.old.freed.parts }
    ensures held { GivesParts (vec_len members) share.old.held share.new.held }
    ensures freed { GivesParts (vec_len members) share.old.freed share.new.freed }
    ensures counted { HaveCountedNothing (map (λ job. job.runner) result.items) }
    ensures begun { EachHasBegun T.Tool size 0 members.items
        (members_of (map (λ job. job.runner) result.items)) }
    ensures progs { progs_of (map (λ job. job.runner) result.items) ≡ progs.items }
    ensures len { vec_len result ≡ vec_len members }
    ensures room { vec_capacity result ≡ vec_capacity jobs }
{
    let Some(member) = members.pop() else {
        return jobs;
    };
    let Some(prog) = progs.pop() else {
        unreachable!()
    };
    let number = members.len() as u16;
    let inner = InnerParts::split(share);
    let mut jobs = jobs_of(size, members, progs, share, jobs);
    let runner = Runner {
        prog,
        member: begun(size, number, member),
        inner,
    };
    jobs.push_reserved(Job { number, runner });
    jobs
}

/// What the members returned, in their order. What they have for the regions that they forked goes back into the
/// share. It is as deep as there are members.
pub(crate) fn take_apart<L: Ledger, H: HoldLedger, F: Ledger, P: Program, T: Tool>(
    mut outcomes: Vec<RegionOutcome<L, H, F, P, T>>,
    share: &mut BookShare<H, F>,
    returned: Returned<L, H, F, P, T>,
) -> Returned<L, H, F, P, T>
    requires none { returned ≡ nothing_returned returned.room }
    requires room { vec_len outcomes ≤ returned.room }
    ensures members { result.members ≡
        members_of (map (λ outcome. outcome.runner) outcomes.items) }
    ensures progs { result.progs ≡ progs_of (map (λ outcome. outcome.runner) outcomes.items) }
    ensures room { result.room + vec_len outcomes ≡ returned.room }
    ensures held { share.new.held.parts ≡ share.old.held.parts + vec_len outcomes }
    ensures freed { share.new.freed.parts ≡ share.old.freed.parts + vec_len outcomes }
    ensures counted { counted_in share.new ≡ both_counted (counted_in share.old)
        (counted_within (map (λ outcome. outcome.runner) outcomes.items)) }
{
    let Some(outcome) = outcomes.pop() else {
        return returned;
    };
    let mut returned = take_apart(outcomes, share, returned);
    let inner = returned.push(outcome);
    inner.merge_into(share);
    returned
}

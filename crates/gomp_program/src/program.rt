//! The program of one member that runs a script.

ghost use Rattle.std.specs.Prelude.{◌≡◌, ◌+◌, true, Ok, Some, IfOk, IsNone, IsSome, OnErr};
ghost use Rattle.std.specs.Arc.{arc_value};
ghost use Rattle.gomp_types.specs.declared.call.Call.TheVariants.{Stop};
ghost use Rattle.gomp_types.specs.declared.refusal.Refusal.{Refusal};
ghost use Rattle.gomp_types.specs.declared.reply.Reply.TheVariants.{Refused, Wait};
ghost use Rattle.gomp_types.specs.Limits.{shown_number};
ghost use Rattle.gomp_program.specs.Next.{ActsThere, AddsCopied, EndsCopy, GoesOnBehind, HasCome, LacksMemory, MakesOwed, StandsBehind, StopsRefused, WaitsAgain, call_behind_lead};
ghost use Rattle.gomp_program.specs.Places.{statement_at};
ghost use Rattle.gomp_program.specs.Programs.{IsOtherCall, answers, call_at_wait, is_last_reply, lead_behind, programs_from, totals_of};
ghost use Rattle.gomp_program.specs.Totals.{addition_at, joined_total, plus_number, total_with};

use crate::acts::ScriptAct;
use crate::frame::{Iteration, Stage};
use crate::progress::Progress;
use crate::replies::Sequel;
use gomp_region::Script;
use gomp_types::{Call, Refusal, Reply};
use std::alloc::{AllocError, Global};
use std::marker::Model;
use std::sync::Arc;

/// The program of one member of the team that runs a script.
///
/// It can be sent to another thread; the members of a team share the script.
#[derive(Drop)]
pub struct ScriptProgram {
    /// What all members of the region run.
    script: Arc<Script>,
    /// The member's number, from 0.
    member: u16,
    /// Where it is in the script.
    progress: Progress,
    /// The sum of what it has added.
    total: i128,
    /// Whether it owes the call behind the statements that it has executed: memory was lacking for that.
    owes: bool,
}

impl Model for ScriptProgram {
    ghost use Rattle.std.specs.Arc.{arc_value};
    ghost use Rattle.gomp_program.specs.Programs.{ProgramView};

    ghost Value = { ProgramView };

    ghost view = { λ p. record { script = arc_value p.script; member = p.member; line = p.progress.line; stage = p.progress.stage; iteration = p.progress.iteration; frames = p.progress.frames.items; total = p.total; owes = p.owes } };
}

impl ScriptProgram {
    /// The programs of a team of this size that runs this script, by the members' numbers, with
    /// totals of 0. The error is want of memory.
    pub fn programs(
        alloc: Global,
        script: Arc<Script>,
        count: u16,
    ) -> Result<Vec<ScriptProgram>, AllocError>
        ensures { IfOk result (λ team. team.items ≡ programs_from (arc_value script) 0 0 count) }
    {
        team_of(alloc, &script, 0, count)
    }

    /// What the member does next, by the reply to its act before.
    ///
    /// The first reply is `Finished`. That to `Parallel` is `Finished`, once the nested region has
    /// ended, or its refusal. A refusal, and a reply that the call cannot have, are answered by
    /// `Stop`. After the last reply ([`is_last`](ScriptProgram::is_last)) it is asked no more.
    ///
    /// The error is want of memory. Then it is asked again, with the same reply: either nothing has
    /// changed, or the statements up to a task with items are executed, and it owes the call that
    /// creates that.
    pub fn next(&mut self, alloc: Global, last: &Reply) -> Result<ScriptAct, AllocError>
        ensures stands { StandsBehind last.now self.old result self.new }
        ensures act { ActsThere result self.new }
        ensures goes { GoesOnBehind last.now self.old result self.new }
        ensures refused { StopsRefused last.now self.old result self.new }
        ensures wait { WaitsAgain last.now self.old result self.new }
        ensures adds { AddsCopied last.now self.old result self.new }
        ensures owed { MakesOwed self.old result self.new }
        ensures memory { LacksMemory self.old result self.new }
        ensures script { self.new.script ≡ self.old.script }
        ensures member { self.new.member ≡ self.old.member }
    {
        if !self.owes
            && let Some(call) = self.take(last)?
        {
            return Ok(ScriptAct::Do(call));
        }
        self.owes = true;
        let act = self.progress.act(alloc, &self.script)?;
        self.owes = false;
        Ok(act)
    }

    /// Takes a reply. It answers the call that comes behind it, if that is not the one at which the
    /// member then stands. If memory is refused nothing changes.
    fn take(&mut self, last: &Reply) -> Result<Option<Call>, AllocError>
        ensures place { IfOk result (λ call.
            HasCome (lead_behind last.now self.old) last.now self.old self.new) }
        ensures behind { IfOk result (λ call.
            call ≡ call_behind_lead (lead_behind last.now self.old)) }
        ensures call { IfOk result IsOtherCall }
        ensures goes { answers last.now self.old ≡ true → IfOk result IsNone }
        ensures refused { (refusal : Refusal) → last.now ≡ Refused refusal →
            (result ≡ Ok (Some Stop)) × (self.new ≡ self.old) }
        ensures wait { last.now ≡ Wait →
            (result ≡ Ok (Some (call_at_wait self.old))) × (self.new ≡ self.old) }
        ensures adds { IsSome (addition_at self.old.stage
            (statement_at self.old.script self.old.line) last.now) →
            IfOk result (λ call. EndsCopy last.now self.old self.new) }
        ensures memory { OnErr result (self.new ≡ self.old) }
        ensures owes { self.new.owes ≡ self.old.owes }
        ensures script { self.new.script ≡ self.old.script }
        ensures member { self.new.member ≡ self.old.member }
    {
        let addition = self.progress.addition(&self.script, last);
        match self.progress.take_reply(&self.script, last)? {
            Sequel::Stopping => Ok(Some(Call::Stop)),
            Sequel::SameCall => Ok(Some(Call::Resume)),
            Sequel::ItsCall => {
                self.add(addition);
                Ok(None)
            }
            Sequel::Statements => {
                self.progress
                    .advance(&self.script, self.member, &mut self.total);
                Ok(None)
            }
        }
    }

    /// Adds what a reply adds, if it adds anything.
    fn add(&mut self, addition: Option<i64>)
        ensures { self.new ≡ record self.old { total = total_with self.old.total addition } }
    {
        if let Some(number) = addition {
            self.total = self.total.wrapping_add(i128::from(number));
        }
    }

    /// Whether this reply to its act is the last one: the region's end is passed, or the team is
    /// stopped or broken.
    pub fn is_last(&self, reply: &Reply) -> bool
        ensures { result ≡ is_last_reply self.now.stage reply.now }
    {
        match reply {
            Reply::Passed => self.progress.stage == Stage::EndingRegion,
            Reply::Stopped | Reply::Refused(Refusal::Broken(_)) => true,
            _ => false,
        }
    }

    /// The programs of the members of the nested region at which it stands, by their numbers, with
    /// totals of 0. They begin behind its line. The error is want of memory.
    pub fn fork(&self, alloc: Global, count: u16) -> Result<Vec<ScriptProgram>, AllocError>
        ensures { IfOk result (λ team.
            team.items ≡ programs_from self.now.script (shown_number (self.now.line + 1)) 0 count) }
    {
        team_of(
            alloc,
            &self.script,
            self.progress.line.saturating_add(1),
            count,
        )
    }

    /// Adds the totals of the members of a nested region that has ended. It takes no memory.
    pub fn join(&mut self, children: Vec<ScriptProgram>)
        ensures { self.new ≡ record self.old {
          total = joined_total self.old.total (totals_of children.items);
        } }
    {
        let mut rest = children.as_slice();
        while let [child, later @ ..] = rest {
            self.take_back(child);
            rest = later;
        }
    }

    /// Adds the total of one of them. It takes no memory.
    pub fn take_back(&mut self, child: &ScriptProgram)
        ensures { self.new ≡ record self.old {
          total = plus_number self.old.total child.now.total;
        } }
    {
        self.total = self.total.wrapping_add(child.total());
    }

    /// What the member has added.
    pub fn total(&self) -> i128
        ensures { result ≡ self.now.total }
    {
        let ScriptProgram { total, .. } = self;
        *total
    }
}

/// The programs of so many members, which begin at this line.
fn team_of(
    alloc: Global,
    script: &Arc<Script>,
    line: usize,
    count: u16,
) -> Result<Vec<ScriptProgram>, AllocError>
    ensures { IfOk result (λ team.
        team.items ≡ programs_from (arc_value script.now) line 0 count) }
{
    let mut team = Vec::new(alloc);
    for member in 0..count {
        team.push(ScriptProgram {
            script: Arc::try_clone(script)?,
            member,
            progress: Progress {
                line,
                stage: Stage::Unasked,
                iteration: Iteration { value: 0, left: 0 },
                frames: Vec::new(alloc),
            },
            total: 0,
            owes: false,
        })?;
    }
    Ok(team)
}

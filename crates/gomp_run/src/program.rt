//! The program of a member of a script's region.

ghost use Rattle.std.specs.Prelude.{◌≡◌, IfOk};
ghost use Rattle.std.specs.Arc.{arc_value};
ghost use Rattle.gomp_program.specs.Programs.{programs_from, totals_of};
ghost use Rattle.gomp_program.specs.Totals.{joined_total, plus_number};
ghost use Rattle.gomp_run.specs.Asks.{GoesAlong, MakesPrograms, TakesTotals, asked_act};

use gomp_program::{ScriptAct, ScriptProgram};
use gomp_region::Script;
use gomp_runtime::{Act, Program};
use gomp_types::Reply;
use std::alloc::{AllocError, Global};
use std::marker::Model;
use std::sync::Arc;

/// The program of one member of the team that runs a script, as a runtime asks it.
#[derive(Drop)]
pub struct RegionProgram {
    /// What it runs.
    program: ScriptProgram,
}

impl Model for RegionProgram {
    ghost use Rattle.gomp_program.specs.Programs.{ProgramView};

    ghost Value = { ProgramView };

    ghost view = { λ p. p.program };
}

impl RegionProgram {
    /// The programs of a team of this size that runs this script, by the members' numbers, with totals of 0.
    /// The error is want of memory.
    pub fn programs(
        alloc: Global,
        script: Arc<Script>,
        count: u16,
    ) -> Result<Vec<RegionProgram>, AllocError>
        ensures { IfOk result (λ team. team.items ≡ programs_from (arc_value script) 0 0 count) }
    {
        team_of(alloc, ScriptProgram::programs(alloc, script, count)?)
    }

    /// Adds the total of a member of a nested region that has ended. It takes no memory.
    fn take_back(&mut self, child: &RegionProgram)
        ensures { self.new ≡ record self.old {
          total = plus_number self.old.total child.now.total;
        } }
    {
        self.program.take_back(&child.program);
    }

    /// What its member has added.
    pub fn total(&self) -> i128
        ensures { result ≡ self.now.total }
    {
        self.program.total()
    }
}

impl Program for RegionProgram {
    ghost next_gives = { GoesAlong };

    ghost fork_gives = { MakesPrograms };

    ghost join_gives = { TakesTotals };

    fn next(&mut self, alloc: Global, last: &Reply) -> Result<Act, AllocError> {
        match self.program.next(alloc, last) {
            Ok(act) => Ok(act_of(act)),
            Err(AllocError) => Err(AllocError),
        }
    }

    fn fork(&self, alloc: Global, count: u16) -> Result<Vec<RegionProgram>, AllocError> {
        team_of(alloc, self.program.fork(alloc, count)?)
    }

    fn join(&mut self, children: Vec<RegionProgram>)
        ensures { self.new ≡ record self.old {
          total = joined_total self.old.total (totals_of children.items);
        } }
    {
        let mut left = children.as_slice();
        while let [first, others @ ..] = left {
            self.take_back(first);
            left = others;
        }
    }
}

/// What a script asks of the runtime: a nested region has no `if` clause.
fn act_of(act: ScriptAct) -> Act
    ensures { result ≡ asked_act act }
{
    match act {
        ScriptAct::Do(call) => Act::Do(call),
        ScriptAct::Parallel { members } => Act::Parallel {
            num_threads: Some(members),
            if_clause: true,
        },
    }
}

/// These programs, as a runtime asks them, in their order. The error is want of memory.
fn team_of(alloc: Global, programs: Vec<ScriptProgram>) -> Result<Vec<RegionProgram>, AllocError>
    ensures { IfOk result (λ team. team.items ≡ programs.items) }
{
    let mut team = Vec::new(alloc);
    for program in programs {
        team.push(RegionProgram { program })?;
    }
    Ok(team)
}

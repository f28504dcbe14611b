//! What a member does at the place where it stands.

ghost use Rattle.std.specs.Prelude.{◌≡◌, ◌≢◌, [], IfOk, IsErr};
ghost use Rattle.gomp_types.specs.declared.call.Call.TheVariants.{TaskCreate};
ghost use Rattle.gomp_program.specs.Calls.{CreatesWithItems, act_at, call_inside, call_to_begin, call_to_continue, call_to_end, call_to_put, loop_end, sections_at, sections_end, task_of};
ghost use Rattle.gomp_program.specs.Places.{statement_at};
ghost use Rattle.gomp_program.specs.declared.frame.Stage.TheVariants.{Starting};

use crate::frame::Stage;
use crate::progress::{Progress, statement_at};
use crate::sections::section_count;
use gomp_region::{BlockConstruct, Script, ScriptLine, Statement, TaskClauses};
use gomp_types::{Call, Deps, EndKind, Payload, TaskDesc};
use std::alloc::{AllocError, Global};

/// What a member does next.
#[derive(Debug, Drop, PartialEq, Eq)]
pub enum ScriptAct {
    /// It makes this call to its team.
    Do(Call),
    /// It forks a nested region of so many members, and waits until that has ended.
    Parallel {
        /// The size that the region asks for, from 1.
        members: u32,
    },
}

/// The call that asks for the next piece of a share.
fn call_to_continue(construct: &BlockConstruct) -> Call
    ensures { result ≡ call_to_continue construct.now }
{
    match construct {
        BlockConstruct::Loop(_) => Call::LoopNext,
        BlockConstruct::Sections(_) => Call::SectionsNext,
        _ => Call::Stop,
    }
}

/// The call that ends a loop with this at its end.
fn loop_end(end_kind: EndKind) -> Call
    ensures { result ≡ loop_end end_kind }
{
    match end_kind {
        EndKind::Wait => Call::LoopEnd,
        EndKind::Nowait => Call::LoopEndNowait,
        EndKind::Cancellable => Call::LoopEndCancel,
    }
}

/// The call that ends a sections construct with this at its end.
fn sections_end(end_kind: EndKind) -> Call
    ensures { result ≡ sections_end end_kind }
{
    match end_kind {
        EndKind::Wait => Call::SectionsEnd,
        EndKind::Nowait => Call::SectionsEndNowait,
        EndKind::Cancellable => Call::SectionsEndCancel,
    }
}

/// The call that ends a construct.
fn call_to_end(construct: &BlockConstruct) -> Call
    ensures { result ≡ call_to_end construct.now }
{
    match construct {
        BlockConstruct::Loop(desc) => loop_end(desc.end_kind),
        BlockConstruct::Sections(end_kind) => sections_end(*end_kind),
        BlockConstruct::Single | BlockConstruct::Copy(_) => Call::Barrier,
        BlockConstruct::Ordered => Call::OrderedEnd,
        BlockConstruct::Critical(name) => Call::CriticalEnd(name.copied()),
        BlockConstruct::Task(_) => Call::TaskEnd,
        BlockConstruct::Group => Call::GroupEnd,
        BlockConstruct::Section | BlockConstruct::Parallel(_) | BlockConstruct::Only(_) =>
            Call::Stop,
    }
}

/// The call by which the executor of a `copy` puts its number.
fn call_to_put(construct: &BlockConstruct) -> Call
    ensures { result ≡ call_to_put construct.now }
{
    match construct {
        BlockConstruct::Copy(number) => {
            let mut words = Payload::new();
            let _ = words.push(number.cast_unsigned());
            Call::SingleCopyEnd(words)
        }
        _ => Call::Stop,
    }
}

/// The call that creates the task of the line with this number, in an iteration of this value.
fn task_create(
    alloc: Global,
    number: u64,
    clauses: &TaskClauses,
    value: i64,
) -> Result<Call, AllocError>
    ensures call { IfOk result (λ call.
        call ≡ TaskCreate (task_of number value clauses.now)) }
    ensures memory { IsErr result → clauses.now.deps ≢ [] }
{
    Ok(Call::TaskCreate(TaskDesc {
        code: number,
        arg: value.cast_unsigned(),
        undeferred: clauses.undeferred,
        final_task: clauses.final_task,
        deps: clauses.deps.copied(alloc)?,
    }))
}

impl Progress {
    /// What it does at the call at which it stands. The error is want of memory, which only a task
    /// with items takes.
    pub(crate) fn act(&self, alloc: Global, script: &Script) -> Result<ScriptAct, AllocError>
        ensures act { IfOk result (λ act.
            act ≡ act_at script.now self.now.line self.now.iteration.value self.now.stage) }
        ensures memory { IsErr result → CreatesWithItems (statement_at script.now self.now.line) }
    {
        match self.stage {
            Stage::Starting => self.act_at_start(alloc, script),
            Stage::EndingRegion => Ok(ScriptAct::Do(Call::RegionEnd)),
            Stage::EndingGroup { .. } => Ok(ScriptAct::Do(Call::GroupEnd)),
            Stage::Unasked
            | Stage::Continuing
            | Stage::Putting
            | Stage::Ending { .. }
            | Stage::Releasing(_) => Ok(ScriptAct::Do(self.call_inside(script))),
        }
    }

    /// The call on the construct at its line, which is begun.
    fn call_inside(&self, script: &Script) -> Call
        ensures { result ≡ call_inside self.now.stage (statement_at script.now self.now.line) }
    {
        let Some(Statement::Begin(construct)) = statement_at(script, self.line) else {
            return Call::Stop;
        };
        match self.stage {
            Stage::Continuing => call_to_continue(construct),
            Stage::Putting => call_to_put(construct),
            Stage::Ending { .. } | Stage::Releasing(_) => call_to_end(construct),
            Stage::Unasked | Stage::Starting | Stage::EndingGroup { .. } | Stage::EndingRegion => {
                Call::Stop
            }
        }
    }

    /// The act that begins the construct at its line, or is that of the statement.
    fn act_at_start(&self, alloc: Global, script: &Script) -> Result<ScriptAct, AllocError>
        ensures act { IfOk result (λ act.
            act ≡ act_at script.now self.now.line self.now.iteration.value Starting) }
        ensures memory { IsErr result → CreatesWithItems (statement_at script.now self.now.line) }
    {
        let Some(line) = script.lines.get(self.line) else {
            return Ok(ScriptAct::Do(Call::Stop));
        };
        match &line.statement {
            Statement::Begin(BlockConstruct::Parallel(members)) => {
                Ok(ScriptAct::Parallel { members: *members })
            }
            Statement::Begin(BlockConstruct::Task(clauses)) => Ok(ScriptAct::Do(task_create(
                alloc,
                line.number,
                clauses,
                self.iteration.value,
            )?)),
            Statement::Begin(construct) => Ok(ScriptAct::Do(self.call_to_begin(script, construct))),
            Statement::Taskwait => Ok(ScriptAct::Do(Call::Taskwait(Deps::new(alloc)))),
            Statement::Barrier => Ok(ScriptAct::Do(Call::Barrier)),
            Statement::Cancel(kind) => Ok(ScriptAct::Do(Call::Cancel {
                kind: *kind,
                clause: true,
            })),
            Statement::Point(kind) => Ok(ScriptAct::Do(Call::Point(*kind))),
            Statement::End(_) | Statement::Add(_) => Ok(ScriptAct::Do(Call::Stop)),
        }
    }

    /// The call that begins the construct at its line, which is none that takes memory.
    fn call_to_begin(&self, script: &Script, construct: &BlockConstruct) -> Call
        ensures { result ≡ call_to_begin (sections_at script.now self.now.line)
            self.now.iteration.value construct.now }
    {
        match construct {
            BlockConstruct::Loop(desc) => Call::LoopStart(*desc),
            BlockConstruct::Sections(end_kind) => Call::SectionsStart {
                count: section_count(script, self.line),
                end_kind: *end_kind,
            },
            BlockConstruct::Single => Call::SingleStart,
            BlockConstruct::Copy(_) => Call::SingleCopyStart,
            BlockConstruct::Ordered => Call::OrderedStart(self.iteration.value),
            BlockConstruct::Critical(name) => Call::CriticalStart(name.copied()),
            BlockConstruct::Group => Call::GroupStart,
            BlockConstruct::Section
            | BlockConstruct::Task(_)
            | BlockConstruct::Parallel(_)
            | BlockConstruct::Only(_) => Call::Stop,
        }
    }
}

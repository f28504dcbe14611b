//! Which calls may be answered to wait, to execute another task, or that the region is cancelled.

ghost use Rattle.std.specs.Prelude.{◌≡◌};
ghost use Rattle.gomp_program.specs.Places.{statement_at};
ghost use Rattle.gomp_program.specs.Waits.{waiting_at, waits_at_end_kind, waits_at_start, waits_to_begin, waits_to_continue, waits_to_end};

use crate::frame::Stage;
use crate::progress::{Progress, statement_at};
use gomp_region::{BlockConstruct, Script, Statement};
use gomp_types::EndKind;

/// For what a call may wait.
#[derive(Clone, Copy, Debug, PartialEq, Eq)]
pub enum WaitsFor {
    /// For nothing.
    ForNothing,
    /// For a critical name.
    ForName,
    /// For its turn, or for room for its share. If the region is cancelled it is cut short.
    ForTurn,
    /// For tasks: the member may be handed one.
    ForTasks,
    /// For all members and for tasks: a barrier. If the region is cancelled it is cut short.
    ForAll,
}

/// For what the only call of a statement, or the one that begins a construct, may wait.
fn waits_at_start(statement: &Statement) -> WaitsFor
    ensures { result ≡ waits_at_start statement.now }
{
    match statement {
        Statement::Begin(construct) => waits_to_begin(construct),
        Statement::Taskwait => WaitsFor::ForTasks,
        Statement::Barrier => WaitsFor::ForAll,
        Statement::End(_) | Statement::Cancel(_) | Statement::Point(_) | Statement::Add(_) => {
            WaitsFor::ForNothing
        }
    }
}

/// For what the call that begins a construct may wait.
fn waits_to_begin(construct: &BlockConstruct) -> WaitsFor
    ensures { result ≡ waits_to_begin construct.now }
{
    match construct {
        BlockConstruct::Loop(_)
        | BlockConstruct::Sections(_)
        | BlockConstruct::Single
        | BlockConstruct::Copy(_)
        | BlockConstruct::Ordered => WaitsFor::ForTurn,
        BlockConstruct::Critical(_) => WaitsFor::ForName,
        BlockConstruct::Task(_) => WaitsFor::ForTasks,
        BlockConstruct::Section
        | BlockConstruct::Group
        | BlockConstruct::Parallel(_)
        | BlockConstruct::Only(_) => { WaitsFor::ForNothing }
    }
}

/// For what the call that asks for the share's next piece may wait.
fn waits_to_continue(construct: &BlockConstruct) -> WaitsFor
    ensures { result ≡ waits_to_continue construct.now }
{
    match construct {
        BlockConstruct::Loop(desc) if desc.ordered => WaitsFor::ForTurn,
        _ => WaitsFor::ForNothing,
    }
}

/// For what stands at the end of a share it may wait.
fn waits_at_end_kind(end_kind: EndKind) -> WaitsFor
    ensures { result ≡ waits_at_end_kind end_kind }
{
    match end_kind {
        EndKind::Nowait => WaitsFor::ForNothing,
        EndKind::Wait | EndKind::Cancellable => WaitsFor::ForAll,
    }
}

/// For what the call that ends a construct may wait.
fn waits_to_end(construct: &BlockConstruct) -> WaitsFor
    ensures { result ≡ waits_to_end construct.now }
{
    match construct {
        BlockConstruct::Loop(desc) => waits_at_end_kind(desc.end_kind),
        BlockConstruct::Sections(end_kind) => waits_at_end_kind(*end_kind),
        BlockConstruct::Single | BlockConstruct::Copy(_) => WaitsFor::ForAll,
        BlockConstruct::Group => WaitsFor::ForTasks,
        _ => WaitsFor::ForNothing,
    }
}

impl Progress {
    /// For what the call at which it stands may wait.
    pub(crate) fn waiting(&self, script: &Script) -> WaitsFor
        ensures { result ≡ waiting_at self.now.stage (statement_at script.now self.now.line) }
    {
        match (self.stage, statement_at(script, self.line)) {
            (Stage::EndingRegion | Stage::EndingGroup { .. }, _) => WaitsFor::ForTasks,
            (Stage::Starting, Some(statement)) => waits_at_start(statement),
            (Stage::Continuing, Some(Statement::Begin(construct))) => waits_to_continue(construct),
            (Stage::Ending { .. }, Some(Statement::Begin(construct))) => waits_to_end(construct),
            _ => WaitsFor::ForNothing,
        }
    }
}

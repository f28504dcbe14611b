//! What stands on a line of a script.

ghost use Rattle.std.specs.Prelude.{◌≡◌};
ghost use Rattle.gomp_region.specs.ScriptText.{end_word_of, nesting_of};

use gomp_types::{CancelKind, CriticalName, Deps, EndKind, LoopDesc};

/// The clauses of a `task` construct. The task's code and argument come from the line and the
/// iteration in which it is created.
#[derive(Debug, Drop, PartialEq, Eq)]
pub struct TaskClauses {
    /// `if0`: an `if` clause that is false (OpenMP API 5.2, section 12.5).
    pub undeferred: bool,
    /// `final`: a `final` clause that is true (OpenMP API 5.2, section 12.3).
    pub final_task: bool,
    /// `[DEP ADDR]..`: the items of its `depend` clause.
    pub deps: Deps,
}

/// A construct with a block, by the line that begins the block.
#[derive(Debug, Drop, PartialEq, Eq)]
pub enum BlockConstruct {
    /// `for`: a worksharing loop, whose block each iteration executes.
    Loop(LoopDesc),
    /// `sections`, with what stands at its end; its block has sections alone.
    Sections(EndKind),
    /// `section`: the next section of the construct around it.
    Section,
    /// `single`: one member executes the block, and a barrier of all follows.
    Single,
    /// `copy`: as `single`, and the number is broadcast: every member adds it to its total.
    Copy(i64),
    /// `ordered`: an ordered part of the iteration.
    Ordered,
    /// `critical`, with its name, which is empty if none stands there.
    Critical(CriticalName),
    /// `task`: an explicit task, whose body is the block.
    Task(TaskClauses),
    /// `group`: a taskgroup.
    Group,
    /// `parallel`: a nested region of a team of this size, 1 to 2^32 - 1.
    Parallel(u32),
    /// `only`: the member of this number, from 0, executes the block alone (own).
    Only(u16),
}

impl BlockConstruct {
    /// The word that ends its block.
    pub fn end_word(&self) -> EndWord
        ensures { result ≡ end_word_of self.now }
    {
        match self {
            BlockConstruct::Loop(_) => EndWord::EndFor,
            BlockConstruct::Sections(_) => EndWord::EndSections,
            BlockConstruct::Section => EndWord::EndSection,
            BlockConstruct::Single => EndWord::EndSingle,
            BlockConstruct::Copy(_) => EndWord::EndCopy,
            BlockConstruct::Ordered => EndWord::EndOrdered,
            BlockConstruct::Critical(_) => EndWord::EndCritical,
            BlockConstruct::Task(_) => EndWord::EndTask,
            BlockConstruct::Group => EndWord::EndGroup,
            BlockConstruct::Parallel(_) => EndWord::EndParallel,
            BlockConstruct::Only(_) => EndWord::EndOnly,
        }
    }
}

/// A word that ends a block: `endfor` and so on.
#[derive(Clone, Copy, Debug, Default, PartialEq, Eq)]
pub enum EndWord {
    /// `endfor`
    #[default]
    EndFor,
    /// `endsections`
    EndSections,
    /// `endsection`
    EndSection,
    /// `endsingle`
    EndSingle,
    /// `endcopy`
    EndCopy,
    /// `endordered`
    EndOrdered,
    /// `endcritical`
    EndCritical,
    /// `endtask`
    EndTask,
    /// `endgroup`
    EndGroup,
    /// `endparallel`
    EndParallel,
    /// `endonly`
    EndOnly,
}

/// What `add` adds to the total of the member that executes it.
#[derive(Clone, Copy, Debug, PartialEq, Eq)]
pub enum Addend {
    /// `add K`: this number.
    Number(i64),
    /// `add it`: the value of the iteration, 0 outside of a loop.
    Iteration,
}

/// A statement of a script, which is a line of its text.
#[derive(Debug, Drop, PartialEq, Eq)]
pub enum Statement {
    /// The block of this construct begins.
    Begin(BlockConstruct),
    /// The innermost block ends, by its word.
    End(EndWord),
    /// `taskwait`, without a `depend` clause.
    Taskwait,
    /// `barrier`
    Barrier,
    /// `cancel`, with an `if` clause that is true.
    Cancel(CancelKind),
    /// `point`: a cancellation point.
    Point(CancelKind),
    /// `add`: a sum of the script's own, by which its run is told (own).
    Add(Addend),
}

/// What a statement does to the blocks around it.
#[derive(Clone, Copy, Debug, PartialEq, Eq)]
pub enum Nesting {
    /// It begins one that this word ends.
    Begins(EndWord),
    /// It ends one by this word.
    Ends(EndWord),
    /// It stands in them.
    Stands,
}

impl Statement {
    /// What it does to the blocks around it.
    pub fn nesting(&self) -> Nesting
        ensures { result ≡ nesting_of self.now }
    {
        match self {
            Statement::Begin(construct) => Nesting::Begins(construct.end_word()),
            Statement::End(word) => Nesting::Ends(*word),
            Statement::Taskwait
            | Statement::Barrier
            | Statement::Cancel(_)
            | Statement::Point(_)
            | Statement::Add(_) => Nesting::Stands,
        }
    }
}

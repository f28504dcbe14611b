//! What the reply to a call leads to.

ghost use Rattle.std.specs.Prelude.{◌≡◌, ◌<◌, ◌+◌, drop, true, Ok, Some, IfOk, IsSome, OnErr};
ghost use Rattle.gomp_types.specs.declared.refusal.Refusal.{Refusal};
ghost use Rattle.gomp_types.specs.declared.reply.Reply.TheVariants.{Passed, Refused, Wait};
ghost use Rattle.gomp_program.specs.declared.replies.Sequel.TheVariants.{ItsCall, Statements, Stopping};
ghost use Rattle.gomp_region.specs.declared.statement.Statement.TheVariants.{Begin};
ghost use Rattle.gomp_program.specs.declared.frame.Stage.TheVariants.{Continuing, Ending, Starting};
ghost use Rattle.gomp_program.specs.Answers.{GoesOn, begins_by, ends_by_kind, is_answer};
ghost use Rattle.gomp_program.specs.Moves.{IsLed, IsLedBy, behind_answer, behind_begin, behind_block, behind_cancelled, behind_groups, behind_handed, behind_line, behind_pass, behind_share, behind_task, behind_wait, into_chunk, into_found, into_once, into_section, into_task, lead_of, line_numbered, out_of, to_end, waiting_in};
ghost use Rattle.gomp_program.specs.Places.{StandsAtEnd, StaysPut, block_line, innermost, outer_blocks, place_in, statement_at};
ghost use Rattle.gomp_program.specs.Totals.{addition_at};
ghost use Rattle.gomp_program.specs.Waits.{wait_sequel, waiting_at};

use crate::frame::{Block, Exit, Iteration, Stage};
use crate::leaving::{exit_of, region_exit};
use crate::progress::{Progress, line_behind, statement_at};
use crate::sections::section_line;
use crate::waiting::WaitsFor;
use gomp_region::{BlockConstruct, Script, Statement};
use gomp_types::{EndKind, Reply};
use std::alloc::AllocError;

/// What comes behind a reply.
#[derive(Clone, Copy, Debug, PartialEq, Eq)]
pub enum Sequel {
    /// The statements from its line on.
    Statements,
    /// The call at which it stands.
    ItsCall,
    /// The same call once more, by a resume.
    SameCall,
    /// A stop: the call was refused, or cannot be answered so.
    Stopping,
}

/// The index of the line with this number, if the script has it.
fn line_numbered(script: &Script, number: u64) -> Option<usize>
    ensures { result ≡ line_numbered script.now number }
{
    script.lines.iter().position(|line| line.number == number)
}

impl Progress {
    /// What this reply to the call at which it stands adds to the member's total.
    pub(crate) fn addition(&self, script: &Script, reply: &Reply) -> Option<i64>
        ensures { result ≡
            addition_at self.now.stage (statement_at script.now self.now.line) reply.now }
    {
        let Some(Statement::Begin(BlockConstruct::Copy(number))) = statement_at(script, self.line)
        else {
            return None;
        };
        match (self.stage, reply) {
            (Stage::Starting, Reply::Copied(payload)) => match payload.as_slice() {
                [word] => Some(word.cast_signed()),
                _ => None,
            },
            (Stage::Putting, Reply::Finished) => Some(*number),
            _ => None,
        }
    }

    /// What comes behind this reply to the call at which it stands. If memory is refused nothing
    /// changes.
    pub(crate) fn take_reply(
        &mut self,
        script: &Script,
        reply: &Reply,
    ) -> Result<Sequel, AllocError>
        ensures refused { (refusal : Refusal) → reply.now ≡ Refused refusal →
            (result ≡ Ok Stopping) × StaysPut self.old self.new }
        ensures wait { reply.now ≡ Wait → (result ≡ Ok (wait_sequel
            (waiting_at self.old.stage (statement_at script.now self.old.line)))) ×
            StaysPut self.old self.new }
        ensures goes { is_answer self.old.stage (statement_at script.now self.old.line)
            reply.now ≡ true → IfOk result GoesOn }
        ensures adds { IsSome (addition_at self.old.stage
            (statement_at script.now self.old.line) reply.now) →
            IfOk result (λ sequel. StandsAtEnd sequel self.old self.new) }
        ensures led { IsLedBy (lead_of script.now (place_in self.old) reply.now)
            result self.old self.new }
        ensures memory { OnErr result (StaysPut self.old self.new) }
    {
        match reply {
            Reply::Refused(_) => Ok(Sequel::Stopping),
            Reply::Wait => Ok(self.take_wait(script)),
            Reply::Cancelled => Ok(self.take_cancelled(script)),
            Reply::Run {
                code,
                arg,
                own: false,
                ..
            } => self.take_task(script, *code, *arg),
            _ => self.take_answer(script, reply),
        }
    }

    /// The call waits.
    fn take_wait(&self, script: &Script) -> Sequel
        ensures sequel { result ≡ wait_sequel
            (waiting_at self.now.stage (statement_at script.now self.now.line)) }
        ensures led { IsLed (behind_wait (place_in self.now)
            (waiting_in script.now (place_in self.now))) result self.now self.now }
    {
        match self.waiting(script) {
            WaitsFor::ForNothing => Sequel::Stopping,
            WaitsFor::ForName | WaitsFor::ForTurn | WaitsFor::ForTasks | WaitsFor::ForAll => {
                Sequel::SameCall
            }
        }
    }

    /// The region is cancelled, and the call cut short.
    fn take_cancelled(&mut self, script: &Script) -> Sequel
        ensures { IsLed (behind_cancelled script.now (place_in self.old)
            (waiting_in script.now (place_in self.old))) result self.old self.new }
    {
        match self.waiting(script) {
            WaitsFor::ForTurn | WaitsFor::ForAll => {
                let exit = region_exit(self.frames.as_slice());
                self.take_exit(script, exit)
            }
            WaitsFor::ForNothing | WaitsFor::ForName | WaitsFor::ForTasks => Sequel::Stopping,
        }
    }

    /// The member leaves what is cancelled, if it is in that.
    fn take_exit(&mut self, script: &Script, exit: Option<Exit>) -> Sequel
        ensures goes { IsSome exit → result ≡ ItsCall }
        ensures led { IsLed (out_of script.now exit) result self.old self.new }
    {
        let Some(exit) = exit else {
            return Sequel::Stopping;
        };
        self.leave(script, exit);
        Sequel::ItsCall
    }

    /// The member is handed a task at a wait.
    fn take_task(&mut self, script: &Script, code: u64, arg: u64) -> Result<Sequel, AllocError>
        ensures led { IsLedBy (behind_handed script.now (place_in self.old) code arg
            (waiting_in script.now (place_in self.old))) result self.old self.new }
        ensures memory { OnErr result (StaysPut self.old self.new) }
    {
        match self.waiting(script) {
            WaitsFor::ForTasks | WaitsFor::ForAll => {
                self.enter_found(line_numbered(script, code), arg)
            }
            WaitsFor::ForNothing | WaitsFor::ForName | WaitsFor::ForTurn => Ok(Sequel::Stopping),
        }
    }

    /// Executes the task of this line with this argument, if there is one.
    fn enter_found(&mut self, line: Option<usize>, arg: u64) -> Result<Sequel, AllocError>
        ensures led { IsLedBy (into_found line arg (place_in self.old))
            result self.old self.new }
        ensures memory { OnErr result (StaysPut self.old self.new) }
    {
        match line {
            Some(line) => self.enter_task(line, arg),
            None => Ok(Sequel::Stopping),
        }
    }

    /// Executes the task of this line, with this argument.
    fn enter_task(&mut self, line: usize, arg: u64) -> Result<Sequel, AllocError>
        ensures goes { IfOk result (λ sequel. sequel ≡ Statements) }
        ensures led { IsLedBy (into_task line arg (place_in self.old))
            result self.old self.new }
        ensures memory { OnErr result (StaysPut self.old self.new) }
    {
        let block = Block::OfTask {
            line: self.line,
            stage: self.stage,
        };
        let iteration = Iteration {
            value: arg.cast_signed(),
            left: 0,
        };
        self.enter(line, block, iteration, line)?;
        Ok(Sequel::Statements)
    }

    /// The call is answered.
    fn take_answer(&mut self, script: &Script, reply: &Reply) -> Result<Sequel, AllocError>
        ensures goes { is_answer self.old.stage (statement_at script.now self.old.line)
            reply.now ≡ true → IfOk result GoesOn }
        ensures adds { IsSome (addition_at self.old.stage
            (statement_at script.now self.old.line) reply.now) →
            IfOk result (λ sequel. StandsAtEnd sequel self.old self.new) }
        ensures led { IsLedBy (behind_answer script.now (place_in self.old) self.old.stage
            (statement_at script.now self.old.line) reply.now) result self.old self.new }
        ensures memory { OnErr result (StaysPut self.old self.new) }
    {
        match (self.stage, reply) {
            (Stage::Unasked, Reply::Finished) => Ok(Sequel::Statements),
            (Stage::Starting, _) => self.take_start(script, reply),
            (Stage::Continuing, _) => self.take_share(script, reply),
            (Stage::Putting, Reply::Finished) => Ok(self.end_construct()),
            (Stage::Ending { groups }, _) => Ok(self.take_end(script, groups, reply)),
            (Stage::EndingGroup { groups }, Reply::Passed) => Ok(self.end_groups(script, groups)),
            (Stage::Releasing(exit), Reply::Finished) => Ok(self.take_exit(script, Some(exit))),
            _ => Ok(Sequel::Stopping),
        }
    }

    /// The only call of a statement, or the one that begins a construct, is answered.
    fn take_start(&mut self, script: &Script, reply: &Reply) -> Result<Sequel, AllocError>
        ensures goes { is_answer Starting (statement_at script.now self.old.line) reply.now
            ≡ true → IfOk result GoesOn }
        ensures adds { IsSome (addition_at Starting
            (statement_at script.now self.old.line) reply.now) →
            IfOk result (λ sequel. StandsAtEnd sequel self.old self.new) }
        ensures led { IsLedBy (behind_answer script.now (place_in self.old) Starting
            (statement_at script.now self.old.line) reply.now) result self.old self.new }
        ensures memory { OnErr result (StaysPut self.old self.new) }
    {
        match statement_at(script, self.line) {
            Some(Statement::Begin(construct)) => self.take_begin(script, construct, reply),
            Some(Statement::Taskwait | Statement::Barrier) => Ok(self.take_pass(reply)),
            Some(Statement::Cancel(kind) | Statement::Point(kind)) => match reply {
                Reply::Cancelling(false) => Ok(self.go_on()),
                Reply::Cancelling(true) => {
                    let exit = exit_of(script, self.frames.as_slice(), *kind);
                    Ok(self.take_exit(script, exit))
                }
                _ => Ok(Sequel::Stopping),
            },
            Some(Statement::End(_) | Statement::Add(_)) | None => Ok(Sequel::Stopping),
        }
    }

    /// A wait is over.
    fn take_pass(&mut self, reply: &Reply) -> Sequel
        ensures goes { reply.now ≡ Passed → result ≡ Statements }
        ensures led { IsLed (behind_pass (place_in self.old) reply.now)
            result self.old self.new }
    {
        match reply {
            Reply::Passed => self.go_on(),
            _ => Sequel::Stopping,
        }
    }

    /// Goes on with the next line.
    fn go_on(&mut self) -> Sequel
        ensures goes { result ≡ Statements }
        ensures led { IsLed (behind_line (place_in self.old)) result self.old self.new }
    {
        self.line = self.line.saturating_add(1);
        Sequel::Statements
    }

    /// Goes on behind the block at its line.
    fn pass_block(&mut self, script: &Script) -> Sequel
        ensures goes { result ≡ Statements }
        ensures led { IsLed (behind_block script.now (place_in self.old))
            result self.old self.new }
    {
        self.line = line_behind(script, self.line);
        Sequel::Statements
    }

    /// Stands at the end of the construct at its line.
    fn end_construct(&mut self) -> Sequel
        ensures goes { result ≡ ItsCall }
        ensures stage { self.new.stage ≡ Ending 0 }
        ensures line { self.new.line ≡ self.old.line }
        ensures led { IsLed (to_end (place_in self.old)) result self.old self.new }
    {
        self.stage = Stage::Ending { groups: 0 };
        Sequel::ItsCall
    }

    /// The call that begins a construct is answered.
    fn take_begin(
        &mut self,
        script: &Script,
        construct: &BlockConstruct,
        reply: &Reply,
    ) -> Result<Sequel, AllocError>
        ensures goes { statement_at script.now self.old.line ≡ Some (Begin construct.now) →
            begins_by construct.now reply.now ≡ true → IfOk result GoesOn }
        ensures adds { statement_at script.now self.old.line ≡ Some (Begin construct.now) →
            IsSome (addition_at Starting (Some (Begin construct.now)) reply.now) →
            IfOk result (λ sequel. StandsAtEnd sequel self.old self.new) }
        ensures led { statement_at script.now self.old.line ≡ Some (Begin construct.now) →
            IsLedBy (behind_begin script.now (place_in self.old) construct.now reply.now)
            result self.old self.new }
        ensures memory { OnErr result (StaysPut self.old self.new) }
    {
        match (construct, reply) {
            (BlockConstruct::Loop(_) | BlockConstruct::Sections(_), _) => self.take_share(
                script, reply,
            ),
            (BlockConstruct::Single, Reply::Executor(false)) => Ok(self.end_construct()),
            (BlockConstruct::Copy(_), Reply::Copied(words)) if words.as_slice().len() == 1 => {
                Ok(self.end_construct())
            }
            (BlockConstruct::Single | BlockConstruct::Copy(_), Reply::Executor(true))
            | (
                BlockConstruct::Ordered | BlockConstruct::Critical(_) | BlockConstruct::Group,
                Reply::Finished,
            ) => self.enter_once(),
            (BlockConstruct::Task(_), Reply::Created(_) | Reply::Dropped)
            | (BlockConstruct::Parallel(_), Reply::Finished) => Ok(self.pass_block(script)),
            (BlockConstruct::Task(_), Reply::Run { arg, own: true, .. }) => {
                self.enter_task(self.line, *arg)
            }
            _ => Ok(Sequel::Stopping),
        }
    }

    /// Executes the block at its line, once.
    fn enter_once(&mut self) -> Result<Sequel, AllocError>
        ensures goes { IfOk result (λ sequel. sequel ≡ Statements) }
        ensures led { IsLedBy (into_once (place_in self.old)) result self.old self.new }
        ensures memory { OnErr result (StaysPut self.old self.new) }
    {
        self.enter(self.line, Block::Once, self.iteration, self.line)?;
        Ok(Sequel::Statements)
    }

    /// The share is asked for a piece.
    fn take_share(&mut self, script: &Script, reply: &Reply) -> Result<Sequel, AllocError>
        ensures goes { is_answer Continuing (statement_at script.now self.old.line) reply.now
            ≡ true → IfOk result GoesOn }
        ensures led { IsLedBy (behind_answer script.now (place_in self.old) Continuing
            (statement_at script.now self.old.line) reply.now) result self.old self.new }
        ensures memory { OnErr result (StaysPut self.old self.new) }
    {
        match (statement_at(script, self.line), reply) {
            (Some(Statement::Begin(BlockConstruct::Loop(_))), Reply::Chunk { first, count }) => {
                self.enter_chunk(*first, *count)
            }
            (Some(Statement::Begin(BlockConstruct::Loop(_))), Reply::NoChunk)
            | (Some(Statement::Begin(BlockConstruct::Sections(_))), Reply::Section(0)) => {
                Ok(self.end_construct())
            }
            (Some(Statement::Begin(BlockConstruct::Sections(_))), Reply::Section(number)) => {
                self.enter_section(script, *number)
            }
            _ => Ok(Sequel::Stopping),
        }
    }

    /// Executes the first of these iterations.
    fn enter_chunk(&mut self, first: i64, count: u64) -> Result<Sequel, AllocError>
        ensures goes { 0 < count → IfOk result (λ sequel. sequel ≡ Statements) }
        ensures led { IsLedBy (into_chunk first count (place_in self.old))
            result self.old self.new }
        ensures memory { OnErr result (StaysPut self.old self.new) }
    {
        if count == 0 {
            return Ok(Sequel::Stopping);
        }
        let iteration = Iteration {
            value: first,
            left: count - 1,
        };
        self.enter(self.line, Block::OfLoop, iteration, self.line)?;
        Ok(Sequel::Statements)
    }

    /// Executes the section with this number.
    fn enter_section(&mut self, script: &Script, number: u64) -> Result<Sequel, AllocError>
        ensures led { IsLedBy (into_section (block_line number 0 (self.old.line + 1)
            (drop (self.old.line + 1) script.now.lines.items)) (place_in self.old))
            result self.old self.new }
        ensures memory { OnErr result (StaysPut self.old self.new) }
    {
        let Some(section) = section_line(script, self.line, number) else {
            return Ok(Sequel::Stopping);
        };
        self.enter(self.line, Block::OfSections, self.iteration, section)?;
        Ok(Sequel::Statements)
    }

    /// The end of a construct is answered; so many groups are to be ended behind it.
    fn take_end(&mut self, script: &Script, groups: usize, reply: &Reply) -> Sequel
        ensures goes { is_answer (Ending groups) (statement_at script.now self.old.line)
            reply.now ≡ true → GoesOn result }
        ensures led { IsLed (behind_answer script.now (place_in self.old) (Ending groups)
            (statement_at script.now self.old.line) reply.now) result self.old self.new }
    {
        let Some(Statement::Begin(construct)) = statement_at(script, self.line) else {
            return Sequel::Stopping;
        };
        match (construct, reply) {
            (BlockConstruct::Loop(desc), _) => self.take_share_end(
                script,
                desc.end_kind,
                groups,
                reply,
            ),
            (BlockConstruct::Sections(end_kind), _) => {
                self.take_share_end(script, *end_kind, groups, reply)
            }
            (
                BlockConstruct::Single | BlockConstruct::Copy(_) | BlockConstruct::Group,
                Reply::Passed,
            )
            | (BlockConstruct::Ordered | BlockConstruct::Critical(_), Reply::Finished) => {
                self.pass_block(script)
            }
            (BlockConstruct::Task(_), Reply::TaskDone { waiting, .. }) => {
                self.take_task_done(script, *waiting)
            }
            _ => Sequel::Stopping,
        }
    }

    /// The end of a share is answered.
    fn take_share_end(
        &mut self,
        script: &Script,
        end_kind: EndKind,
        groups: usize,
        reply: &Reply,
    ) -> Sequel
        ensures goes { ends_by_kind end_kind reply.now ≡ true → GoesOn result }
        ensures led { IsLed (behind_share script.now groups (place_in self.old) end_kind
            reply.now) result self.old self.new }
    {
        match (end_kind, reply) {
            (EndKind::Nowait, Reply::Finished)
            | (EndKind::Wait | EndKind::Cancellable, Reply::Passed) => {
                self.end_groups(script, groups)
            }
            _ => Sequel::Stopping,
        }
    }

    /// So many groups are to be ended before it goes on behind the share.
    fn end_groups(&mut self, script: &Script, groups: usize) -> Sequel
        ensures goes { GoesOn result }
        ensures led { IsLed (behind_groups script.now groups (place_in self.old))
            result self.old self.new }
    {
        if groups == 0 {
            return self.pass_block(script);
        }
        self.stage = Stage::EndingGroup { groups: groups - 1 };
        Sequel::ItsCall
    }

    /// The task is ended. The wait at which it was started is open again, or the task was
    /// undeferred.
    fn take_task_done(&mut self, script: &Script, waiting: bool) -> Sequel
        ensures { IsLed (behind_task script.now waiting (outer_blocks self.old.frames.items)
            (innermost self.old.frames.items)) result self.old self.new }
    {
        let Some(Block::OfTask { line, stage }) = self.frames.last().map(|frame| frame.block) else {
            return Sequel::Stopping;
        };
        let _ = self.leave_block();
        self.stand(line, stage);
        if waiting {
            return Sequel::SameCall;
        }
        self.pass_block(script)
    }
}

//! The statements between two calls.

ghost use Rattle.std.specs.Prelude.{ℤ, ◌≡◌, ◌<◌, if◌then◌else◌, false, Some, None, IsTrue};
ghost use Rattle.gomp_program.specs.Passing.{ComesTo, addend_in, at_block_end, behind_point, next_iteration, place_at, point_in, stage_behind};
ghost use Rattle.gomp_program.specs.Places.{innermost, lines_ahead, place_in, statement_at};

use crate::frame::{Block, Stage};
use crate::progress::{Progress, line_behind, statement_at};
use gomp_region::{Addend, BlockConstruct, EndWord, Script, Statement};

impl Progress {
    /// Executes statements, from the line at which it stands, up to one that makes a call, and stands
    /// there.
    pub(crate) fn advance(&mut self, script: &Script, member: u16, total: &mut i128)
        ensures { ComesTo script.now member (point_in self.old total.old)
            (place_in self.new) total.new }
    {
        while self.pass(script, member, total) {}
        self.arrive(script);
    }

    /// Executes the statement at its line, if that makes no call: whether it did.
    fn pass(&mut self, script: &Script, member: u16, total: &mut i128) -> bool
        ensures ahead { IsTrue result →
            lines_ahead script.now self.new < lines_ahead script.now self.old }
        ensures point { behind_point script.now member (point_in self.old total.old) ≡
            (if result then Some (point_in self.new total.new) else None) }
        ensures stays { result ≡ false →
            (point_in self.new total.new) ≡ (point_in self.old total.old) }
    {
        match statement_at(script, self.line) {
            Some(Statement::Add(addend)) => {
                *total = total.wrapping_add(i128::from(self.addend(addend)));
                self.line = self.line.saturating_add(1);
                true
            }
            Some(Statement::Begin(BlockConstruct::Only(number))) => {
                self.line = if *number == member {
                    self.line.saturating_add(1)
                } else {
                    line_behind(script, self.line)
                };
                true
            }
            Some(Statement::Begin(BlockConstruct::Section)) => {
                self.line = line_behind(script, self.line);
                true
            }
            Some(Statement::End(EndWord::EndOnly)) => {
                self.line = self.line.saturating_add(1);
                true
            }
            Some(Statement::End(EndWord::EndFor)) => self.iterate(script),
            _ => false,
        }
    }

    /// What is added.
    fn addend(&self, addend: &Addend) -> i64
        ensures { result ≡ addend_in self.now.iteration addend.now }
    {
        match addend {
            Addend::Number(number) => *number,
            Addend::Iteration => self.iteration.value,
        }
    }

    /// Begins the next iteration of the chunk, if the innermost block is an iteration and the chunk
    /// has one more: whether it did.
    fn iterate(&mut self, script: &Script) -> bool
        ensures ahead { IsTrue result →
            lines_ahead script.now self.new < lines_ahead script.now self.old }
        ensures point { (total : ℤ) → next_iteration script.now (point_in self.old total)
            (innermost self.old.frames.items) ≡
            (if result then Some (point_in self.new total) else None) }
        ensures stays { result ≡ false → place_in self.new ≡ place_in self.old }
    {
        let Some(frame) = self.frames.last() else {
            return false;
        };
        let Some(Statement::Begin(BlockConstruct::Loop(desc))) = statement_at(script, frame.line)
        else {
            return false;
        };
        if frame.block != Block::OfLoop || self.iteration.left == 0 {
            return false;
        }
        self.line = frame.line.saturating_add(1);
        self.iteration.value = self.iteration.value.wrapping_add(desc.incr);
        self.iteration.left -= 1;
        true
    }

    /// Stands at the call of the statement at its line, which is that of the innermost block if it
    /// ends one, and at the region's end if there is neither.
    fn arrive(&mut self, script: &Script)
        ensures { (total : ℤ) →
            place_in self.new ≡ place_at script.now (point_in self.old total) }
    {
        match statement_at(script, self.line) {
            Some(Statement::End(_)) => self.end_block(script),
            Some(_) => self.stage = Stage::Starting,
            None => self.stage = Stage::EndingRegion,
        }
    }

    /// Stands at the call that comes behind the innermost block, and at the region's end if it is in
    /// none. A task's frame stays until its end is answered.
    fn end_block(&mut self, script: &Script)
        ensures { (total : ℤ) →
            place_in self.new ≡ at_block_end script.now (point_in self.old total)
            (innermost self.old.frames.items) }
    {
        let Some(frame) = self.frames.last().copied() else {
            self.stage = Stage::EndingRegion;
            return;
        };
        let stage = match frame.block {
            Block::OfTask { .. } => {
                self.stand(frame.line, Stage::Ending { groups: 0 });
                return;
            }
            Block::OfLoop | Block::OfSections => Stage::Continuing,
            Block::Once => stage_behind(script, frame.line),
        };
        let _ = self.leave_block();
        self.stand(frame.line, stage);
    }
}

/// The call that comes behind the block of a construct which is executed once.
fn stage_behind(script: &Script, line: usize) -> Stage
    ensures { result ≡ stage_behind (statement_at script.now line) }
{
    match statement_at(script, line) {
        Some(Statement::Begin(BlockConstruct::Copy(_))) => Stage::Putting,
        _ => Stage::Ending { groups: 0 },
    }
}

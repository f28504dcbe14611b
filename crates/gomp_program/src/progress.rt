//! How far a member has come in its script.

ghost use Rattle.std.specs.Prelude.{◌≡◌, ◌<◌, ◌++◌, ◌∷◌, [], length, IfNone, IfSome, OnOk, OnErr, option_copied};
ghost use Rattle.gomp_program.specs.Places.{StaysPut, innermost, line_behind, next_line, outer_blocks, statement_at};

use crate::frame::{Block, Frame, Iteration, Stage};
use gomp_region::{Script, Statement};
use std::alloc::AllocError;

/// How far a member has come.
#[derive(Debug, Drop)]
pub struct Progress {
    /// The index of the line at which it stands.
    pub line: usize,
    /// Which call it makes there.
    pub stage: Stage,
    /// The iteration that it executes.
    pub iteration: Iteration,
    /// The blocks that it is in, the innermost last.
    pub frames: Vec<Frame>,
}

/// The statement of the line with this index.
pub(crate) fn statement_at(script: &Script, line: usize) -> Option<&Statement>
    ensures { option_copied result ≡ statement_at script.now line }
{
    let found = script.lines.get(line)?;
    Some(&found.statement)
}

/// The index of the line behind the block that begins at this line, and behind this line if none
/// begins there.
pub(crate) fn line_behind(script: &Script, line: usize) -> usize
    ensures line { result ≡ line_behind script.now line }
    ensures ahead { line < length script.now.lines.items → line < result }
{
    match script.ends.get(line) {
        Some(end) if line < *end && *end < script.lines.len() => *end + 1,
        _ => line.saturating_add(1),
    }
}

impl Progress {
    /// Enters a block of the construct at this line, and goes on behind the line `before`. If memory
    /// is refused nothing changes.
    pub(crate) fn enter(
        &mut self,
        line: usize,
        block: Block,
        iteration: Iteration,
        before: usize,
    ) -> Result<(), AllocError>
        ensures frames { OnOk result (self.new.frames.items ≡ self.old.frames.items ++
            record { line = line; block = block; around = self.old.iteration } ∷ []) }
        ensures iteration { OnOk result (self.new.iteration ≡ iteration) }
        ensures line { OnOk result (self.new.line ≡ next_line before) }
        ensures memory { OnErr result (StaysPut self.old self.new) }
    {
        self.frames.push(Frame {
            line,
            block,
            around: self.iteration,
        })?;
        self.iteration = iteration;
        self.line = before.saturating_add(1);
        Ok(())
    }

    /// Stands at this call of the construct at this line.
    pub(crate) fn stand(&mut self, line: usize, stage: Stage)
        ensures line { self.new.line ≡ line }
        ensures stage { self.new.stage ≡ stage }
        ensures iteration { self.new.iteration ≡ self.old.iteration }
        ensures frames { self.new.frames ≡ self.old.frames }
    {
        self.line = line;
        self.stage = stage;
    }

    /// Leaves the innermost block, whose frame is handed back.
    pub(crate) fn leave_block(&mut self) -> Option<Frame>
        ensures last { IfSome result (λ frame.
            self.old.frames.items ≡ self.new.frames.items ++ frame ∷ []) }
        ensures around { IfSome result (λ frame. self.new.iteration ≡ frame.around) }
        ensures innermost { result ≡ innermost self.old.frames.items }
        ensures outer { self.new.frames.items ≡ outer_blocks self.old.frames.items }
        ensures none { IfNone result (self.old.frames.items ≡ []) }
        ensures line { self.new.line ≡ self.old.line }
        ensures stage { self.new.stage ≡ self.old.stage }
    {
        let frame = self.frames.pop()?;
        self.iteration = frame.around;
        Some(frame)
    }
}

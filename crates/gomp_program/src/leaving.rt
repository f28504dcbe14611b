//! Leaving what is cancelled.

ghost use Rattle.std.specs.Prelude.{◌≡◌};
ghost use Rattle.std.specs.List.{list_any};
ghost use Rattle.gomp_program.specs.Leaving.{LeavesBlock, exit_of, groups_in, is_critical, is_group, is_of_share, is_once, is_task_body, region_exit, share_exit, task_exit};
ghost use Rattle.gomp_program.specs.Places.{place_in, statement_at};

use crate::frame::{Block, Exit, Frame, Stage};
use crate::progress::{Progress, statement_at};
use gomp_region::{BlockConstruct, Script, Statement};
use gomp_types::CancelKind;

/// Whether a group begins at this line.
fn is_group(script: &Script, line: usize) -> bool
    ensures { result ≡ is_group (statement_at script.now line) }
{
    matches!(
        statement_at(script, line),
        Some(Statement::Begin(BlockConstruct::Group))
    )
}

/// How many groups are open by these frames.
fn groups_in(script: &Script, frames: &[Frame]) -> usize
    ensures { result ≡ groups_in script.now frames.now }
{
    frames
        .iter()
        .filter(|frame| is_group(script, frame.line))
        .count()
}

/// Whether this is the body of a task.
fn is_body(frame: &Frame) -> bool
    ensures { result ≡ is_task_body frame.now.block }
{
    matches!(frame.block, Block::OfTask { .. })
}

/// Whether this block is executed once.
fn is_once(block: Block) -> bool
    ensures { result ≡ is_once block }
{
    matches!(block, Block::Once)
}

/// Whether this block is one of the share.
fn is_of_share(share: Block, block: Block) -> bool
    ensures { result ≡ is_of_share share block }
{
    matches!(
        (share, block),
        (Block::OfLoop, Block::OfLoop) | (Block::OfSections, Block::OfSections)
    )
}

/// Whether the body of a task is among these blocks.
fn is_in_task(frames: &[Frame]) -> bool
    ensures { result ≡ list_any (λ (frame : Frame). is_task_body frame.block) frames.now }
{
    frames.iter().any(|frame| is_body(frame))
}

/// How a member in these blocks leaves the region; it can't inside a task.
pub(crate) fn region_exit(frames: &[Frame]) -> Option<Exit>
    ensures { result ≡ region_exit frames.now }
{
    if is_in_task(frames) {
        return None;
    }
    Some(Exit::FromRegion)
}

/// How a member in these blocks leaves the share whose block this is, if it is in one outside of any
/// task in it.
fn share_exit(script: &Script, frames: &[Frame], share: Block) -> Option<Exit>
    ensures { result ≡ share_exit script.now share 0 frames.now }
{
    let mut keep = frames.len();
    while keep > 0 {
        keep -= 1;
        let frame = frames[keep];
        if is_of_share(share, frame.block) {
            return Some(Exit::FromConstruct {
                line: frame.line,
                keep,
                groups: groups_in(script, &frames[keep..]),
            });
        }
        if !is_once(frame.block) {
            return None;
        }
    }
    None
}

/// How a member in these blocks leaves the task that it executes, if it executes one. The task's
/// frame stays.
fn task_exit(frames: &[Frame]) -> Option<Exit>
    ensures { result ≡ task_exit 0 frames.now }
{
    let mut keep = frames.len();
    while keep > 0 {
        let frame = frames[keep - 1];
        if is_body(&frame) {
            return Some(Exit::FromConstruct {
                line: frame.line,
                keep,
                groups: 0,
            });
        }
        keep -= 1;
    }
    None
}

/// How a member in these blocks leaves what a construct of this kind cancels.
pub(crate) fn exit_of(script: &Script, frames: &[Frame], kind: CancelKind) -> Option<Exit>
    ensures { result ≡ exit_of script.now frames.now kind }
{
    match kind {
        CancelKind::Parallel => region_exit(frames),
        CancelKind::Loop => share_exit(script, frames, Block::OfLoop),
        CancelKind::Sections => share_exit(script, frames, Block::OfSections),
        CancelKind::Taskgroup => task_exit(frames),
    }
}

impl Progress {
    /// Leaves blocks, up to the first critical one, whose name is to be released, or to the end of
    /// what is left.
    pub(crate) fn leave(&mut self, script: &Script, exit: Exit)
        ensures { LeavesBlock script.now exit (place_in self.old) (place_in self.new) }
    {
        let keep = match exit {
            Exit::FromRegion => 0,
            Exit::FromConstruct { keep, .. } => keep,
        };
        while self.frames.len() > keep {
            if let Some(frame) = self.leave_block()
                && is_critical(script, frame.line)
            {
                self.stand(frame.line, Stage::Releasing(exit));
                return;
            }
        }
        match exit {
            Exit::FromRegion => self.stage = Stage::EndingRegion,
            Exit::FromConstruct { line, groups, .. } => self.stand(line, Stage::Ending { groups }),
        }
    }
}

/// Whether a critical region begins at this line.
fn is_critical(script: &Script, line: usize) -> bool
    ensures { result ≡ is_critical (statement_at script.now line) }
{
    matches!(
        statement_at(script, line),
        Some(Statement::Begin(BlockConstruct::Critical(_)))
    )
}

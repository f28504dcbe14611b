//! The open blocks of a text, as it is read line by line.

ghost use Rattle.std.specs.Prelude.{◌≡◌, [], drop};
ghost use Rattle.gomp_region.specs.declared.statement.Nesting.TheVariants.{Begins};
ghost use Rattle.gomp_region.specs.ScriptText.{Nests, end_of_text, ends_innermost, innermost, may_stand, nested, open_behind, without_lines};

use crate::script::{BadScript, ScriptWhy};
use crate::statement::{EndWord, Nesting};
use arrayvec::ArrayVec;
use std::marker::Model;

/// How many blocks nest at most (own).
pub const MAX_BLOCKS: usize = 32;

/// A block that is not ended yet.
#[derive(Clone, Copy, Debug, Default, PartialEq, Eq)]
pub struct OpenBlock {
    /// The word that ends it.
    pub end: EndWord,
    /// The number of the line that begins it.
    pub line: u64,
}

/// The open blocks, the innermost first. They take no memory.
#[derive(Debug, Drop)]
pub(crate) struct OpenBlocks {
    blocks: ArrayVec<OpenBlock, MAX_BLOCKS>,
}

impl Model for OpenBlocks {
    ghost use Rattle.std.specs.Prelude.{List, length, reverse, ◌≤◌};
    ghost use Rattle.gomp_region.specs.declared.nesting.OpenBlock.{OpenBlock};
    ghost use Rattle.gomp_region.specs.declared.nesting.TheConstants.{MAX_BLOCKS};

    ghost Value = { List OpenBlock };

    ghost view = { λ nest. reverse nest.blocks.items };

    ghost invariant = { λ nest. length nest.blocks.items ≤ MAX_BLOCKS };
}

impl OpenBlocks {
    /// No block.
    pub(crate) fn new() -> OpenBlocks
        ensures { result ≡ [] }
    {
        OpenBlocks {
            blocks: ArrayVec::new(),
        }
    }

    /// The innermost block.
    fn innermost(&self) -> Option<OpenBlock>
        ensures { result ≡ innermost self.now }
    {
        self.blocks.last().copied()
    }

    /// Whether this word ends the innermost block.
    fn ends_innermost(&self, word: EndWord) -> bool
        ensures { result ≡ ends_innermost word self.now }
    {
        match self.innermost() {
            Some(block) => word == block.end,
            None => false,
        }
    }

    /// Whether a statement that nests so may stand in these blocks.
    fn may_stand(&self, nesting: Nesting) -> bool
        ensures { result ≡ may_stand nesting self.now }
    {
        match nesting {
            Nesting::Begins(EndWord::EndSection) => self.ends_innermost(EndWord::EndSections),
            Nesting::Ends(word) => self.ends_innermost(word),
            Nesting::Begins(_) | Nesting::Stands => !self.ends_innermost(EndWord::EndSections),
        }
    }

    /// Begins a block on this line, if there are fewer than 32.
    fn begin(&mut self, end: EndWord, line: u64) -> Result<(), ScriptWhy>
        ensures { Nests result (open_behind line (Begins end) self.old) self.new }
    {
        if self.blocks.is_full() {
            return Err(ScriptWhy::TooDeep);
        }
        self.blocks.push(OpenBlock { end, line });
        Ok(())
    }

    /// Ends the innermost block.
    fn end(&mut self)
        ensures { self.new ≡ drop 1 self.old }
    {
        let _ = self.blocks.pop();
    }

    /// Goes past a statement on this line that nests so. The error says why it may not stand here.
    pub(crate) fn pass(&mut self, number: u64, nesting: Nesting) -> Result<(), ScriptWhy>
        ensures { Nests result (nested number nesting self.old) self.new }
    {
        if !self.may_stand(nesting) {
            return Err(ScriptWhy::NoOpenBlock);
        }
        match nesting {
            Nesting::Begins(word) => self.begin(word, number)?,
            Nesting::Ends(_) => self.end(),
            Nesting::Stands => {}
        }
        Ok(())
    }

    /// That no block is open where the text ends; else the line that begins the innermost one.
    pub(crate) fn finish(&self) -> Result<(), BadScript>
        ensures { result ≡ without_lines (end_of_text self.now) }
    {
        match self.innermost() {
            Some(block) => Err(BadScript {
                line: block.line,
                why: ScriptWhy::NotClosed,
            }),
            None => Ok(()),
        }
    }
}

//! A script as it is parsed, and why a text is none.

use crate::statement::Statement;
use gomp_script::Why;

/// How many members the team of a script's region is to have.
#[derive(Clone, Copy, Debug, PartialEq, Eq)]
pub enum AskedSize {
    /// `region`: as many as the control variable nthreads-var says (OpenMP API 5.2, section 10.1.1).
    Unstated,
    /// `region N`: this many, 1 to 2^32 - 1. Whether a team may be as large is not asked here.
    Stated(u32),
}

/// A statement and where it stands.
#[derive(Debug, Drop, PartialEq, Eq)]
pub struct ScriptLine {
    /// The number of its line in the text, from 1; skipped lines count.
    pub number: u64,
    /// The statement.
    pub statement: Statement,
}

/// A script: the text of a region. Its blocks nest.
#[derive(Debug, Drop, PartialEq, Eq)]
pub struct Script {
    /// The size of the region's team.
    pub team: AskedSize,
    /// The statements, in their order.
    pub lines: Vec<ScriptLine>,
    /// For each statement that begins a block, the index in `lines` of the one that ends it; for each
    /// other one its own index.
    pub ends: Vec<usize>,
}

/// Why a line of a script is bad. A line is tested for these in this order.
#[derive(Clone, Copy, Debug, PartialEq, Eq)]
pub enum ScriptWhy {
    /// Its words are, wherever it stands.
    Words(Why),
    /// It may not stand here: an end word that the innermost block does not end by, `section` outside
    /// of `sections`, or another statement directly in it.
    NoOpenBlock,
    /// It begins a block inside 32 others.
    TooDeep,
    /// The block that it begins is still open at the end of the text, and no later one is. It is told
    /// only if no line has another fault.
    NotClosed,
}

/// The first line of a text that is bad.
#[derive(Clone, Copy, Debug, PartialEq, Eq)]
pub struct BadScript {
    /// Its number, from 1; skipped lines count.
    pub line: u64,
    /// The first of its faults.
    pub why: ScriptWhy,
}

/// Why a text was not read.
#[derive(Clone, Copy, Debug, PartialEq, Eq)]
pub enum ScriptError {
    /// Memory was refused.
    Memory,
    /// This line is bad.
    Bad(BadScript),
}

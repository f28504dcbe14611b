//! The tool of a member nobody asks about.

ghost use Rattle.std.specs.Prelude.{◌≡◌, false, length};

use gomp_ompt::{Record, Tool};
use std::alloc::{AllocError, Global};

/// A tool that keeps no record (OpenMP API 5.2, chapter 19). It takes no memory.
#[derive(Clone, Copy, Debug, PartialEq, Eq)]
pub struct NoTool;

impl Tool for NoTool {
    ghost on_gives = { λ old event new. new ≡ old };

    ghost fork_gives = { λ tool count tools. length tools ≡ count };

    ghost join_gives = { λ old tools new. new ≡ old };

    /// Nobody asks about it.
    fn listens(&self) -> bool
        ensures { result ≡ false }
    {
        false
    }

    /// Nothing is kept of it.
    fn on(&mut self, _event: &Record) {}

    /// The same for each.
    fn fork(&self, alloc: Global, count: u16) -> Result<Vec<NoTool>, AllocError> {
        let mut tools = Vec::new(alloc);
        for _member in 0..count {
            tools.push(NoTool)?;
        }
        Ok(tools)
    }

    /// Nothing is taken of them.
    fn join(&mut self, children: Vec<NoTool>)
        ensures { self.new ≡ self.old }
    {
        let _ = children;
    }
}

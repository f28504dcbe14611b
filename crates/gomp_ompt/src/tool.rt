//! Tools: what takes the records of a member.
//!
//! OpenMP API 5.2, chapter 19 (OMPT).

ghost use Rattle.std.specs.Prelude.{◌≡◌, ℕ, List, IfOk, IsOk, false, vec_len};
ghost use Rattle.gomp_ompt.specs.declared.record.Record.{Record};
ghost use Rattle.gomp_ompt.specs.Table.{records_of};
ghost use Rattle.gomp_ompt.specs.Tools.{AfterEach};

use crate::record::Record;
use crate::table::records;
use gomp_types::{Call, Reply};
use std::alloc::{AllocError, Global};

/// What takes the records of one member. Each member of a team has a tool of its own: a member that
/// forks a team makes one for each member of that team, and takes them back when it joins.
pub trait Tool: Drop {
    /// The tool before and after one record.
    ghost on_gives: { Self → Record → Self → Type 0 };

    /// A tool, how many others it makes, and these.
    ghost fork_gives: { Self → ℕ → List Self → Type 0 };

    /// The tool before and after it takes others back.
    ghost join_gives: { Self → List Self → Self → Type 0 };

    /// Whether it takes note of records. One that does not is given none, and need not be.
    fn listens(&self) -> bool
        ensures unmoved { result ≡ false → (event : Record) → on_gives self.now event self.now };

    /// The member's next record.
    fn on(&mut self, event: &Record)
        ensures { on_gives self.old event.now self.new };

    /// A tool for each of `count` members of a new team, in their order. The error is want of memory.
    fn fork(&self, alloc: Global, count: u16) -> Result<Vec<Self>, AllocError>
        // None are made without memory.
        ensures none { count ≡ 0 → IsOk result }
        ensures one_each { IfOk result (λ tools. vec_len tools ≡ count) }
        ensures tools { IfOk result (λ tools. fork_gives self.now count tools.items) };

    /// Takes back the tools of the members of that team, in their order, when all have returned.
    fn join(&mut self, children: Vec<Self>)
        ensures { join_gives self.old children.items self.new };
}

/// Gives a member's tool the records of its call, in their order: those of [`records`]. A tool that does not listen is given none,
/// and none are made.
#[inline(always)]
pub fn give_records<T: Tool>(tool: &mut T, call: &Call, first: bool, reply: &Reply)
    ensures { AfterEach T.on_gives tool.old (records_of call.now first reply.now) tool.new }
{
    if !tool.listens() {
        return;
    }
    let events = records(call, first, reply);
    for event in events.as_slice() {
        tool.on(event);
    }
}

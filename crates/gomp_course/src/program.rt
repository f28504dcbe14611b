//! What a member runs.

ghost use Rattle.std.specs.Prelude.{◌≡◌, ℕ, List, Option, IfOk, vec_len};
ghost use Rattle.gomp_types.specs.declared.reply.Reply.{Reply};
ghost use Rattle.gomp_course.specs.declared.program.Act.{Act};
ghost use Rattle.gomp_course.specs.Exchanges.{act_found};

use gomp_types::{Call, Reply};
use std::alloc::{AllocError, Global};

/// What a member does next.
#[derive(Debug, Drop, PartialEq, Eq)]
pub enum Act {
    /// It makes this call of its team, and goes on with it until it is answered otherwise than to wait.
    Do(Call),
    /// It forks a nested region, and waits until that has ended (OpenMP API 5.2, section 10.1). The reply
    /// is `Finished` if its members have all passed its end, else the refusal by which it has ended, or
    /// for which there was none.
    Parallel {
        /// The number of its `num_threads` clause, if it has one; 0 counts as 1.
        num_threads: Option<u32>,
        /// Its `if` clause; true without one.
        if_clause: bool,
    },
}

/// The program of one member of a team: what its thread does between its calls, and which call comes
/// next.
///
/// A region asks that it can be sent to another thread. Only the functions that start threads say so.
pub trait Program: Drop {
    /// The program before and after it is handed a reply, and what it asks for then: nothing if it found
    /// no memory.
    ghost next_gives: { Self → Reply → Option Act → Self → Type 0 };

    /// A program, how many others it makes, and these.
    ghost fork_gives: { Self → ℕ → List Self → Type 0 };

    /// The program before and after it takes others back.
    ghost join_gives: { Self → List Self → Self → Type 0 };

    /// What the member does next, by the reply to its last act, which is `Finished` at first. It is asked
    /// no more behind the reply by which it has passed the region's end, a stop, or a refusal of its own
    /// team by `Broken` (E3).
    ///
    /// The error is want of memory. It breaks the team, and the program is asked no more.
    fn next(&mut self, alloc: Global, last: &Reply) -> Result<Act, AllocError>
        ensures { next_gives self.old last.now (act_found result) self.new };

    /// A program for each of `count` members of a nested region, 1 to 64, in their order. The error is
    /// want of memory.
    fn fork(&self, alloc: Global, count: u16) -> Result<Vec<Self>, AllocError>
        ensures one_each { IfOk result (λ programs. vec_len programs ≡ count) }
        ensures programs { IfOk result (λ programs. fork_gives self.now count programs.items) };

    /// Takes back the programs of the members of that region, in their order, when all have returned. It
    /// takes no memory.
    fn join(&mut self, children: Vec<Self>)
        ensures { join_gives self.old children.items self.new };
}

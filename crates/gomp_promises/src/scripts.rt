//! What a member that runs a script does next, and where it then stands; nested regions of scripts.

ghost use Rattle.std.specs.Prelude.{◌≡◌, ◌+◌, IfOk};
ghost use Rattle.std.specs.Arc.{arc_value};
ghost use Rattle.gomp_types.specs.Limits.{shown_number};
ghost use Rattle.gomp_program.specs.Next.{ActsThere, AddsCopied, GoesOnBehind, LacksMemory, MakesOwed, StandsBehind, StopsRefused, WaitsAgain};
ghost use Rattle.gomp_program.specs.Programs.{is_last_reply, programs_from, totals_of};
ghost use Rattle.gomp_program.specs.Totals.{joined_total};

use gomp_program::{ScriptAct, ScriptProgram};
use gomp_region::Script;
use gomp_types::Reply;
use std::alloc::{AllocError, Global};
use std::sync::Arc;

/// The programs of the members of a team.
pub fn programs(
    alloc: Global,
    script: Arc<Script>,
    count: u16,
) -> Result<Vec<ScriptProgram>, AllocError>
    ensures { IfOk result (λ team. team.items ≡ programs_from (arc_value script) 0 0 count) }
{
    ScriptProgram::programs(alloc, script, count)
}

/// What the member does next.
pub fn next(this: &mut ScriptProgram, alloc: Global, last: &Reply) -> Result<ScriptAct, AllocError>
    ensures stands { StandsBehind last.now this.old result this.new }
    ensures act { ActsThere result this.new }
    ensures goes { GoesOnBehind last.now this.old result this.new }
    ensures refused { StopsRefused last.now this.old result this.new }
    ensures wait { WaitsAgain last.now this.old result this.new }
    ensures adds { AddsCopied last.now this.old result this.new }
    ensures owed { MakesOwed this.old result this.new }
    ensures memory { LacksMemory this.old result this.new }
    ensures script { this.new.script ≡ this.old.script }
    ensures member { this.new.member ≡ this.old.member }
{
    this.next(alloc, last)
}

/// Whether a reply is its last one.
pub fn is_last(this: &ScriptProgram, reply: &Reply) -> bool
    ensures { result ≡ is_last_reply this.now.stage reply.now }
{
    this.is_last(reply)
}

/// The programs of the members of a nested region.
pub fn fork(
    this: &ScriptProgram,
    alloc: Global,
    count: u16,
) -> Result<Vec<ScriptProgram>, AllocError>
    ensures { IfOk result (λ team.
        team.items ≡ programs_from this.now.script (shown_number (this.now.line + 1)) 0 count) }
{
    this.fork(alloc, count)
}

/// Adds what they have added.
pub fn join(this: &mut ScriptProgram, children: Vec<ScriptProgram>)
    ensures { this.new ≡ record this.old {
      total = joined_total this.old.total (totals_of children.items);
    } }
{
    this.join(children)
}

//! Copies of calls, which are kept while a step is made.

ghost use Rattle.std.specs.Prelude.{◌≡◌, ◌≢◌, [], IfOk, IsErr};
ghost use Rattle.gomp_types.specs.Copies.{CopyTakesMemory, HasNoItems, HasOnePart};

use crate::call::Call;
use crate::task::TaskDesc;
use std::alloc::{AllocError, Global};

impl Call {
    /// A copy of a call. The error is want of memory, which only the items of a `depend` clause take.
    pub fn copied(&self, alloc: Global) -> Result<Call, AllocError>
        ensures call { IfOk result (λ copy. copy ≡ self.now) }
        ensures memory { IsErr result → CopyTakesMemory self.now }
    {
        match self {
            Call::TaskCreate(desc) => Ok(Call::TaskCreate(desc.copied(alloc)?)),
            Call::Taskwait(deps) => Ok(Call::Taskwait(deps.copied(alloc)?)),
            Call::SectionsStart { count, end_kind } => Ok(Call::SectionsStart {
                count: *count,
                end_kind: *end_kind,
            }),
            Call::Cancel { kind, clause } => Ok(Call::Cancel {
                kind: *kind,
                clause: *clause,
            }),
            call => Ok(copied_plain(call)),
        }
    }
}

impl TaskDesc {
    /// A copy of what is asked of a task. The error is want of memory, of which no items take none.
    pub fn copied(&self, alloc: Global) -> Result<TaskDesc, AllocError>
        ensures task { IfOk result (λ copy. copy ≡ self.now) }
        ensures memory { IsErr result → self.now.deps ≢ [] }
    {
        Ok(TaskDesc {
            code: self.code,
            arg: self.arg,
            undeferred: self.undeferred,
            final_task: self.final_task,
            deps: self.deps.copied(alloc)?,
        })
    }
}

/// A copy of a call that has one part at most, and no items.
fn copied_plain(call: &Call) -> Call
    requires items { HasNoItems call.now }
    requires parts { HasOnePart call.now }
    ensures { result ≡ call.now }
{
    match call {
        Call::LoopStart(desc) => Call::LoopStart(*desc),
        Call::LoopNext => Call::LoopNext,
        Call::LoopEnd => Call::LoopEnd,
        Call::LoopEndNowait => Call::LoopEndNowait,
        Call::LoopEndCancel => Call::LoopEndCancel,
        Call::SectionsNext => Call::SectionsNext,
        Call::SectionsEnd => Call::SectionsEnd,
        Call::SectionsEndNowait => Call::SectionsEndNowait,
        Call::SectionsEndCancel => Call::SectionsEndCancel,
        Call::SingleStart => Call::SingleStart,
        Call::SingleCopyStart => Call::SingleCopyStart,
        Call::SingleCopyEnd(words) => Call::SingleCopyEnd(words.copied()),
        Call::OrderedStart(value) => Call::OrderedStart(*value),
        Call::OrderedEnd => Call::OrderedEnd,
        Call::Barrier => Call::Barrier,
        Call::RegionEnd => Call::RegionEnd,
        Call::CriticalStart(name) => Call::CriticalStart(name.copied()),
        Call::CriticalEnd(name) => Call::CriticalEnd(name.copied()),
        Call::LockInit => Call::LockInit,
        Call::NestInit => Call::NestInit,
        Call::LockDestroy(lock) => Call::LockDestroy(*lock),
        Call::Set(lock) => Call::Set(*lock),
        Call::Test(lock) => Call::Test(*lock),
        Call::Unset(lock) => Call::Unset(*lock),
        Call::SetNest(lock) => Call::SetNest(*lock),
        Call::TestNest(lock) => Call::TestNest(*lock),
        Call::UnsetNest(lock) => Call::UnsetNest(*lock),
        Call::TaskCreate(_) | Call::Taskwait(_) => unreachable!(),
        Call::SectionsStart { .. } | Call::Cancel { .. } => unreachable!(),
        Call::TaskEnd => Call::TaskEnd,
        Call::GroupStart => Call::GroupStart,
        Call::GroupEnd => Call::GroupEnd,
        Call::Point(kind) => Call::Point(*kind),
        Call::Resume => Call::Resume,
        Call::Stop => Call::Stop,
    }
}

//! The control variables, one by one, and as the words of the environment give them.

ghost use Rattle.std.specs.Prelude.{◌≡◌, ◌≤◌, pos, int_lt, false, [], IfOk, IsOk};
ghost use Rattle.gomp_types.specs.Iterations.{is_runtime, max_chunk};
ghost use Rattle.gomp_icv.specs.Variables.{IsNumThreads, max_number};
ghost use Rattle.gomp_icv.specs.EnvWords.{read_env, pairs};

use gomp_icv::{Icv, NumThreads};
use gomp_types::{Refusal, Sched};
use std::alloc::{AllocError, Global};

/// dyn-var.
pub fn dynamic(this: &Icv) -> bool
    ensures { result ≡ this.now.dynamic }
{
    this.dynamic()
}

/// nthreads-var.
pub fn nthreads(this: &Icv) -> &NumThreads
    ensures sizes { result.now ≡ this.now.nthreads }
    ensures range { IsNumThreads result.now }
{
    this.nthreads()
}

/// The kind of run-sched-var.
pub fn sched(this: &Icv) -> Sched
    ensures schedule { result ≡ this.now.sched }
    ensures range { is_runtime result ≡ false }
{
    this.sched()
}

/// Its chunk.
pub fn chunk(this: &Icv) -> i64
    ensures chunk { result ≡ this.now.chunk }
    ensures range { (int_lt result (pos 0) ≡ false) × (int_lt (pos max_chunk) result ≡ false) }
{
    this.chunk()
}

/// max-active-levels-var.
pub fn max_active_levels(this: &Icv) -> u32
    ensures levels { result ≡ this.now.max_active_levels }
    ensures range { result ≤ max_number }
{
    this.max_active_levels()
}

/// thread-limit-var.
pub fn thread_limit(this: &Icv) -> u32
    ensures limit { result ≡ this.now.thread_limit }
    ensures range { (1 ≤ result) × (result ≤ max_number) }
{
    this.thread_limit()
}

/// active-levels-var.
pub fn active(this: &Icv) -> u32
    ensures { result ≡ this.now.active }
{
    this.active()
}

/// Reads the words of the environment.
pub fn read_env(alloc: Global, words: &[(&str, &str)]) -> Result<(Icv, Vec<Refusal>), AllocError>
    ensures value { IfOk result (λ read. (read.0, read.1.items) ≡ read_env (pairs words.now)) }
    ensures none_ignored { (read_env (pairs words.now)).1 ≡ [] → IsOk result }
{
    gomp_icv::read_env(alloc, words)
}

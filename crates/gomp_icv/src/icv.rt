//! The control variables of one data environment.
//!
//! OpenMP API 5.2, chapter 2.

ghost use Rattle.std.specs.Prelude.{◌≡◌, ◌≤◌, pos, int_lt, false};
ghost use Rattle.gomp_types.specs.Iterations.{is_runtime, max_chunk};
ghost use Rattle.gomp_icv.specs.Variables.{IsNumThreads, max_number, initial};
ghost use Rattle.gomp_icv.specs.Teams.{child};
ghost use Rattle.gomp_icv.specs.EnvWords.{IsSetting, with_setting};

use crate::env::Setting;
use crate::num_threads::NumThreads;
use gomp_types::Sched;
use std::marker::Model;

/// The control variables of a data environment.
///
/// Each value keeps its ranges: there are one to four team sizes, each from 1 to 2,147,483,647, the
/// schedule is never `Runtime`, the chunk is 0 (none) to 2^39, the levels are 0 to 2,147,483,647 and
/// the limit of threads is 1 to 2,147,483,647.
#[derive(Debug, Drop)]
pub struct Icv {
    /// dyn-var: whether a team may have fewer threads than are asked for.
    dynamic: bool,
    /// nthreads-var: how many threads a region asks for, level by level, the outermost first.
    nthreads: NumThreads,
    /// run-sched-var: the schedule of a loop that leaves it to the control variables.
    sched: Sched,
    /// Its chunk, 0 if none is given.
    chunk: i64,
    /// max-active-levels-var: how many active regions may lie in one another.
    max_active_levels: u32,
    /// thread-limit-var: how many threads the program may have, 1 at least.
    thread_limit: u32,
    /// cancel-var: whether constructs cancel.
    cancellation: bool,
    /// active-levels-var: how many active regions lie around.
    active: u32,
}

impl Model for Icv {
    ghost use Rattle.gomp_icv.specs.Variables.{Variables, InRange};

    ghost Value = { Variables };

    ghost view = { λ icv. record { dynamic = icv.dynamic; nthreads = icv.nthreads; sched = icv.sched; chunk = icv.chunk; max_active_levels = icv.max_active_levels; thread_limit = icv.thread_limit; cancellation = icv.cancellation; active = icv.active } };

    ghost invariant = { λ icv. InRange (record { dynamic = icv.dynamic; nthreads = icv.nthreads; sched = icv.sched; chunk = icv.chunk; max_active_levels = icv.max_active_levels; thread_limit = icv.thread_limit; cancellation = icv.cancellation; active = icv.active }) };
}

impl Icv {
    /// What a program begins with, before any word of its environment is read (own).
    pub fn initial() -> Icv
        ensures { result ≡ initial }
    {
        Icv {
            dynamic: false,
            nthreads: NumThreads::initial(),
            sched: Sched::Dynamic,
            chunk: 0,
            max_active_levels: 1,
            thread_limit: 64,
            cancellation: false,
            active: 0,
        }
    }

    /// dyn-var: whether the number of threads may be adjusted. It changes nothing (own).
    pub fn dynamic(&self) -> bool
        ensures { result ≡ self.now.dynamic }
    {
        self.dynamic
    }

    /// nthreads-var: the sizes of teams, the one for the next team first.
    pub fn nthreads(&self) -> &NumThreads
        ensures sizes { result.now ≡ self.now.nthreads }
        ensures range { IsNumThreads result.now }
    {
        &self.nthreads
    }

    /// run-sched-var: the schedule of a runtime loop, which is never `Runtime`.
    pub fn sched(&self) -> Sched
        ensures schedule { result ≡ self.now.sched }
        ensures range { is_runtime result ≡ false }
    {
        self.sched
    }

    /// run-sched-var: the chunk of a runtime loop, in iterations, 0 to 2^39; 0 is none.
    pub fn chunk(&self) -> i64
        ensures chunk { result ≡ self.now.chunk }
        ensures range { (int_lt result (pos 0) ≡ false) × (int_lt (pos max_chunk) result ≡ false) }
    {
        self.chunk
    }

    /// max-active-levels-var: how many teams of more than one member may lie in one another.
    pub fn max_active_levels(&self) -> u32
        ensures levels { result ≡ self.now.max_active_levels }
        ensures range { result ≤ max_number }
    {
        self.max_active_levels
    }

    /// thread-limit-var: how many threads may be busy at once, from 1.
    pub fn thread_limit(&self) -> u32
        ensures limit { result ≡ self.now.thread_limit }
        ensures range { (1 ≤ result) × (result ≤ max_number) }
    {
        self.thread_limit
    }

    /// cancel-var: whether a region can be cancelled.
    pub fn cancellation(&self) -> bool
        ensures { result ≡ self.now.cancellation }
    {
        self.cancellation
    }

    /// active-levels-var: how many teams of more than one member are around the encountering task.
    pub fn active(&self) -> u32
        ensures { result ≡ self.now.active }
    {
        self.active
    }

    /// The same variables again. It takes no memory.
    pub fn copied(&self) -> Icv
        ensures { result ≡ self.now }
    {
        Icv {
            dynamic: self.dynamic,
            nthreads: self.nthreads.copied(),
            sched: self.sched,
            chunk: self.chunk,
            max_active_levels: self.max_active_levels,
            thread_limit: self.thread_limit,
            cancellation: self.cancellation,
            active: self.active,
        }
    }

    /// The variables for the members of a new team of this size.
    pub(crate) fn child(&self, size: u32) -> Icv
        ensures { result ≡ child self.now size }
    {
        let active = if size > 1 {
            self.active.saturating_add(1)
        } else {
            self.active
        };
        Icv {
            dynamic: self.dynamic,
            nthreads: self.nthreads.without_first(),
            sched: self.sched,
            chunk: self.chunk,
            max_active_levels: self.max_active_levels,
            thread_limit: self.thread_limit,
            cancellation: self.cancellation,
            active,
        }
    }

    /// The variables once a word of the environment has set one of them.
    pub(crate) fn with(self, setting: Setting) -> Icv
        requires { IsSetting setting }
        ensures { result ≡ with_setting setting self }
    {
        match setting {
            Setting::NumThreads(nthreads) => Icv { nthreads, ..self },
            Setting::Dynamic(dynamic) => Icv { dynamic, ..self },
            Setting::Schedule(sched, chunk) => Icv {
                sched,
                chunk,
                ..self
            },
            Setting::MaxActiveLevels(max_active_levels) => Icv {
                max_active_levels,
                ..self
            },
            Setting::ThreadLimit(thread_limit) => Icv {
                thread_limit,
                ..self
            },
            Setting::Cancellation(cancellation) => Icv {
                cancellation,
                ..self
            },
        }
    }
}

//! What a crew is used for, and what it runs on.

use std::sync::Wait;
use std::thread::Threads;

/// What a thread needs of the runtime to start others and to wait for them: a handle of its own.
pub trait Host: Threads + Wait + Copy + Send + Sync + 'static {}

impl<R: Threads + Wait + Copy + Send + Sync + 'static> Host for R {}

/// What is promised of the outcome of a job. The closure that a crew is given has to keep it, and the
/// caller of [`crate::Crew::run_all`] knows it of each job and its outcome.
pub trait Work<J, O> {
    /// The outcome is promised of the job.
    ghost kept: { J → O → Type 0 };
}

//! What a task can hold: a critical name or a lock.
//!
//! OpenMP API 5.2, sections 15.2 and 18.9.

use crate::critical_name::CriticalName;

/// A critical name, or a lock with its kind and number. Simple and nestable locks have their numbers
/// from one row, so no two locks have one number.
#[derive(Debug, Drop, PartialEq, Eq)]
pub enum Key {
    /// The critical name, compared whole.
    Critical(CriticalName),
    /// The simple lock of this number, from 0.
    Lock(u32),
    /// The nestable lock of this number, from 0.
    NestLock(u32),
}

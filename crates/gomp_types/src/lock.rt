//! Critical names and locks: of each there is at most one owner at a time.
//!
//! OpenMP API 5.2, sections 15.2 (the `critical` construct) and 18.9 (the lock routines).

use crate::task::Owner;

/// The most times that its owner may have set a nestable lock at once (own).
pub const MAX_COUNT: u32 = 65_535;

/// The most locks that are ever made, 2^32 - 1 (own).
pub const MAX_LOCKS: u32 = 4_294_967_295;

/// What kind of lock it is (OpenMP API 5.2, section 18.9).
#[derive(Clone, Copy, Debug, PartialEq, Eq)]
pub enum LockKind {
    /// Set by its owner once at a time.
    Simple,
    /// Set by its owner any number of times, and free once it was unset as often.
    Nest,
}

/// That a name or a lock is held.
#[derive(Clone, Copy, Debug, PartialEq, Eq)]
pub struct Held {
    /// By whom.
    pub owner: Owner,
    /// How often: 1 for a name and a simple lock, 1 to 65,535 for a nestable lock.
    pub count: u32,
}

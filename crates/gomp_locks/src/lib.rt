//! Critical names and locks: who holds which, in all teams that share them.
//!
//! [`LockBook`] keeps of each critical name and each lock whether it is held, by which task of which
//! member, and how often; a call by another owner leaves what is held as it is. It knows nothing of
//! what was asked before, and serves any owner at any time: so it may lie under a lock of its own.
//! OpenMP API 5.2, sections 15.2 (the `critical` construct) and 18.9 (the lock routines); libgomp's
//! critical.c and lock.c.
#![tactic(auto)]

pub mod book;
mod critical;
pub mod lock;
mod nest_lock;
mod simple_lock;

pub use book::LockBook;
pub use lock::Lock;

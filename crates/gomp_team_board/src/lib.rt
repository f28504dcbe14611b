//! The board of a team as it lies under a lock, with a ledger of its events, and the part of that
//! ledger that each member holds.
//!
//! Members on threads of their own share one [`LockedBoard`]. Whenever its lock is free, the stored
//! events keep the laws of tasks, barriers, groups and cancellation, whoever made the calls, and the
//! ledger has as many events as they are, discards aside. Each member holds a [`Part`] of the ledger,
//! which every call moves by the events that it gives: so an event that no call gave, or one that was
//! dropped, is seen when the parts are put together. While no team has the ledger it is an
//! [`EventLedger`], which goes from one team to the next. OpenMP API 5.2, chapter 12, sections 15.3 to 15.5.
#![tactic(auto)]

pub mod counts;
pub mod ledger;
pub mod lock;
pub mod locked;
pub mod part;
pub mod shared;

pub use counts::counts_of;
pub use ledger::EventLedger;
pub use lock::try_step;
pub use locked::LockedBoard;
pub use part::{Part, PartCounts};
pub use shared::SharedBoard;

//! A parallel region on threads, from its fork to its join (OpenMP API 5.2, section 10.1): each member of the
//! team runs its program on a thread of a crew.
//!
//! [`on_crew`] starts the threads that the crew lacks, makes the team, hands each member to its thread, and
//! settles the region when all have returned. What it leaves is a [`Report`] or a [`RegionFault`]. What serves
//! the regions that its members fork, the caller says.
#![tactic(auto)]

pub mod fork;
pub mod inner;
pub mod ledgers;
pub mod region;
pub mod report;
mod returned;
pub mod runs;
mod threads;

pub use fork::{Forked, Ground};
pub use inner::{InnerParts, REGION_PARTS};
pub use ledgers::{Named, NamedHolds};
pub use region::{EndedRegion, RegionCrew, not_begun, on_crew};
pub use report::{RegionFault, RegionRefusal, Report};
pub use runs::{Forking, Round};

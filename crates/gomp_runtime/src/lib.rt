//! Parallel regions on threads: each member of a team runs a program of its own, member 0 on the calling thread.
//!
//! [`Runtime::parallel`] forks a team of as many members as there are programs, or of fewer if the control
//! variables allow no more, has each run its program, and joins them. What it hands
//! out is a [`Report`]: the region's history, and the programs and tools in their order. OpenMP API 5.2,
//! section 10.1.
#![tactic(auto)]

pub mod kept;
mod numbers;
pub mod runtime;
mod sized;
mod told;
mod with_book;

pub use gomp_course::{Act, CallGate, NoGate, NoTool, Program};
pub use gomp_fork::{Named, NamedHolds, RegionFault, RegionRefusal, Report};
pub use gomp_nested::Blanks;
pub use kept::Kept;
pub use runtime::Runtime;

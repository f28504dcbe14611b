//! A member of a team that runs a program: it asks the program what to do next, does it, and hands on the
//! reply, until the program is asked no more (OpenMP API 5.2, section 10.1).
//!
//! [`drive`] does so on the thread of the member. What serves the regions that the
//! program forks, a [`Site`] says, so nothing here knows of the threads of a team.
#![tactic(auto)]

pub mod asked;
pub mod course;
pub mod forking;
pub mod gate;
pub mod job;
pub mod no_tool;
pub mod program;
mod replies;
pub mod runner;
pub mod running;
pub mod site;

pub use asked::Asked;
pub use forking::{Forker, Nest, Nested, RegionAsked};
pub use gate::{CallGate, NoGate};
pub use job::{Job, Outcome};
pub use no_tool::NoTool;
pub use program::{Act, Program};
pub use runner::Runner;
pub use running::drive;
pub use site::Site;

//! The team of one parallel region, from its fork to its join.
//!
//! [`RegionTeam::new`] makes the team and its members, which go to threads of their own.
//! [`RegionTeam::settle`] takes them back when they have returned, and hands out the history of the
//! region: only if each member passed the region's end there, and created, passed and started as often
//! as it was answered. The ledger of the team's events goes to the next team. OpenMP API 5.2, section
//! 10.1.
#![tactic(auto)]

pub mod book_share;
pub mod history;
mod opening;
pub mod outcome;
pub mod region_team;
mod returned;
pub mod settle;

pub use book_share::BookShare;
pub use history::region_history;
pub use outcome::{RefusedTeam, RegionWork, SettledTeam};
pub use region_team::RegionTeam;
pub use settle::SettleError;

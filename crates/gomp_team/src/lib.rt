//! A team of OpenMP members on threads of their own.
//!
//! [`SharedTeam::new`] gives what the members of a team share, and their seats; each becomes a [`Member`], which a thread owns. On the
//! work-shares a member acts by its seat, with no lock; its calls take the lock of the team's board, or that of the book of names and
//! locks, never both. What no other member changes a member keeps itself.
//! Of the team's ledgers each member holds a part, which its calls move by what they give: so when all
//! members have returned, the parts show that nothing was dropped. OpenMP API 5.2, chapters 10 to 12, 15 to 18.
#![tactic(auto)]

pub mod alone;
mod board;
mod book;
pub mod claims;
pub mod loops;
pub mod member;
mod ops;
pub mod parts;
mod shares;
pub mod team;
mod waits;

pub use member::Member;
pub use parts::MemberParts;
pub use team::{NewTeam, SharedTeam, TeamTerms};

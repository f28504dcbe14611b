//! What a member of a team knows of itself, without asking its team.
//!
//! A member on a thread of its own shares the board, the work-shares and the book of its team with the
//! other members. Some of what its calls are tested for no other member changes: whether one of its calls
//! waits, which task it executes, what it leaves since it has seen a cancellation. A [`MemberState`]
//! keeps that, and moves it by each call and its reply. OpenMP API 5.2, chapters 12, 15 and 16.
#![tactic(auto)]

pub mod refusals;
pub mod state;

pub use state::MemberState;

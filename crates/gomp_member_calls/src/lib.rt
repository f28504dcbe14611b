//! The calls of a member of a team, each under a name of its own.
//!
//! [`MemberCalls`] has a plain form of each call, which goes on until it is answered, and of each that can be
//! answered `Wait` a `try_` form. A [`Member`](gomp_team::Member) has these. OpenMP API 5.2, chapters 10 to
//! 12, 15, 16 and 18.
#![tactic(auto)]

pub mod calls;
mod member;

pub use calls::MemberCalls;

//! What a member on a thread asks of its team's work-shares, as values: the start of a construct, and
//! a call on the share that the member is in.
//!
//! The crate has no function. Which refusals a call is tested for stands in `specs/`, after the tests
//! of gomp_shares; that the definitions tell right from wrong is said by the lemmas of `proofs/`.
//! OpenMP API 5.2, chapter 11 and sections 5.7.2, 15.10.2, 16.1, 16.2.
#![tactic(auto)]

pub mod inside;
pub mod start;

pub use inside::InsideCall;
pub use start::ShareStart;

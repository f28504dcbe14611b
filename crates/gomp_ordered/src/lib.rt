//! The calls of a member on the ordered parts of its team's loops.
//!
//! The pieces of an ordered loop are handed on in their order: a member begins the part of an
//! iteration of its piece once every piece before it was handed on, and hands its own on when it
//! asks for the next (`gomp_loops`). Each call that libgomp has makes the tests of its own
//! (specs/OrderedParts.antt of gomp_shares), so it has no premise but a member of the team, and
//! answers what is defined there if none of them holds; [`ordered_start_admitted`] and [`ordered_end_admitted`] perform
//! a call without these tests, and ask their caller (gomp_dispatch) to have made them. Whether the
//! team is broken, the member has left the region or has a wait open is tested by gomp_core.
//!
//! OpenMP API 5.2, section 15.10.2. The calls have the form of libgomp's `GOMP_ordered_start` and
//! `GOMP_ordered_end` (libgomp manual, the ABI chapter); that the call names the iteration's value
//! is this project's choice.
#![tactic(auto)]

pub mod admission;
pub mod calls;

pub use calls::{ordered_end, ordered_end_admitted, ordered_start, ordered_start_admitted};

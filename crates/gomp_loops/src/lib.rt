//! The calls of a member on the loops of its team.
//!
//! A loop is one work-share. Each call that libgomp has makes the tests of its own
//! (specs/Loops.antt of gomp_shares), so it has no premise but a member of the team, and answers
//! what is defined there if none of them holds. [`loop_start_admitted`] and [`loop_next_admitted`] perform a call
//! without these tests, and ask their caller to have made them: gomp_dispatch makes the tests of all
//! layers first, and calls these two; the ends are those of gomp_shares. Whether the team is broken,
//! the member has left the region or has a wait open, and how it arrives at a barrier, is tested by
//! gomp_core and gomp_dispatch.
//!
//! The pieces of an ordered loop are handed on in their order: a member that asks for its next
//! chunk waits until every piece before its own was handed on, and hands its own on first. The
//! ordered parts themselves are in `gomp_ordered`.
//!
//! [`admission`] has what does not ask the shares: a member's own tests, and the reply that a piece
//! gives. The tests of a next chunk and of an end are those of `gomp_shares::admission`, which
//! sections have in common; a call here on a member in sections finds it outside of every loop.
//!
//! OpenMP API 5.2, section 11.5. The calls have the form of libgomp's `GOMP_loop_*_start`, `_next`,
//! `GOMP_loop_end`, `GOMP_loop_end_cancel` and `GOMP_loop_end_nowait` (libgomp manual, the ABI chapter).
#![tactic(auto)]

pub mod admission;
pub mod calls;

pub use calls::{
    loop_end, loop_end_cancel, loop_end_nowait, loop_next, loop_next_admitted, loop_start,
    loop_start_admitted,
};

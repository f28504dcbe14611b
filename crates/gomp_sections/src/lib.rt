//! The calls of a member on the sections and `single` constructs of its team.
//!
//! Each construct is one work-share: sections are its pieces, one each, and a `single` has one
//! piece, whose taker executes it. Each call that libgomp has makes the tests of its own
//! (specs/Sections.antt and specs/Singles.antt of gomp_shares) and asks for a member of the team
//! alone; those named `.._admitted` perform a call without these tests, and ask their caller
//! (gomp_dispatch) to have made them. If no test holds, a call answers what is defined
//! there, but for three calls: `single_copy_start` does so if the words that it is handed are those
//! that were put, and the two ends of which the caller does a part (`sections_end`, whose arrival
//! it compares, and `single_copy_end`, whose words it keeps) answer that the member has left.
//!
//! Whether the team is broken, the member has left the region or has a wait open, and how it
//! arrives at a barrier, is tested by gomp_core and gomp_dispatch, which also keeps the words of a
//! `single` with `copyprivate`.
//!
//! OpenMP API 5.2, sections 11.1, 11.3 and 5.7.2. The calls have the form of libgomp's
//! `GOMP_sections_*`, `GOMP_single_start`, `GOMP_single_copy_start` and `GOMP_single_copy_end`
//! (libgomp manual, the ABI chapter).
#![tactic(auto)]

pub mod admission;
pub mod sections;
pub mod single;

pub use sections::{
    sections_end, sections_end_cancel, sections_end_nowait, sections_next, sections_next_admitted,
    sections_start, sections_start_admitted,
};
pub use single::{
    single_copy_end, single_copy_start, single_copy_start_admitted, single_start,
    single_start_admitted,
};

//! The calls of a member on the work-shares of its team, by a seat of its own (gomp_ring): loops, sections, singles, their ends,
//! ordered parts, and the cancellation of a loop or of sections.
//!
//! A call takes no lock, waits for no other member and takes no memory: it is a few steps on the words of the team's ring, each
//! of them one atomic operation, and it tests first what it is refused for. What it tells is a fact of lists of the team's events
//! (`gomp_events`): there is one, of which the seat knew the part of its member, and which kept the rule of the work-shares
//! (`gomp_shares`) with the event that the call adds. Between two steps of a call other members act.
//!
//! What a member is refused for by its tasks, its wait, the team's break and critical names is tested above, and so is its arrival
//! at a barrier. OpenMP API 5.2, chapter 11 and sections 5.7.2, 15.10.2, 16.1 and 16.2.
#![tactic(auto)]

pub mod alone;
pub mod cancels;
pub mod chunk;
pub mod ends;
pub mod inside;
pub mod next;
pub mod parts;
pub mod singles;
pub mod starts;

pub use alone::{
    begin_part_alone, claim_ordered_chunk, claim_section, end_alone, end_part_alone,
    may_claim_section, single_alone, start_loop_alone, start_sections_alone,
};
pub use cancels::{cancel_share, point_share};
pub use chunk::{Chunk, claim_chunk, may_claim_chunk};
pub use ends::{end_refusal, leave_share, loop_end_nowait, sections_end_nowait};
pub use inside::{ask_end_refusal, call_inside, call_inside_refusal};
pub use next::{claim_next, loop_next, sections_next};
pub use parts::{ordered_end, ordered_start};
pub use singles::{awaits_payload, single_copy_end_refusal};
pub use starts::{compared_shape, start_admitted, start_shape};

//! The ends of loops and sections that have a barrier.
//!
//! OpenMP API 5.2, sections 11.3, 11.5 and 15.3.2; libgomp's `GOMP_loop_end`, `GOMP_sections_end` and
//! their `_cancel` forms.

use gomp_shares::Construct;
use gomp_types::EndKind;

/// The end of a loop or of sections with a barrier.
#[derive(Clone, Copy, Debug, PartialEq, Eq)]
pub struct ShareEnd {
    /// Which of the two ends.
    pub construct: Construct,
    /// What stands at its end, by the call: `Wait`, or `Cancellable` of one that may be cancelled.
    pub end_kind: EndKind,
}

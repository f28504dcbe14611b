//! The starts of constructs that are shares.

use gomp_types::{EndKind, LoopDesc};

/// The start of a construct that is a share.
#[derive(Clone, Copy, Debug, PartialEq, Eq)]
pub enum ShareStart {
    /// A worksharing loop (OpenMP API 5.2, section 11.5).
    Loop(LoopDesc),
    /// A construct of `count` sections, 0 to 65,536 (OpenMP API 5.2, section 11.3).
    Sections { count: u32, end_kind: EndKind },
    /// A `single` construct (OpenMP API 5.2, section 11.1).
    Single,
    /// A `single` construct with words for the other members (the `copyprivate` clause, OpenMP API
    /// 5.2, section 5.7.2).
    SingleCopy,
}

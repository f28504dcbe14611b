//! For how many stored events a call asks room before they come (own).

/// A task: it is created, started and ended.
pub const TASK_ROOM: u32 = 3;

/// A group: it is opened and ended.
pub const GROUP_ROOM: u32 = 2;

/// An arrival: the arrival and the pass.
pub const ARRIVAL_ROOM: u32 = 2;

/// The words of a single, when they are put and when they are given to a member.
pub const PAYLOAD_ROOM: u32 = 1;

/// A cancellation of the region or of a group; one of a share is stored nowhere.
pub const CANCEL_ROOM: u32 = 1;

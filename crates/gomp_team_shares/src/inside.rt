//! The calls on the share that a member is in.

use gomp_shares::Construct;

/// A call on the share that a member is in, which neither starts a share nor arrives at a barrier.
#[derive(Clone, Copy, Debug, PartialEq, Eq)]
pub enum InsideCall {
    /// Asks for the next chunk of its loop, or for its next section (OpenMP API 5.2, sections 11.3
    /// and 11.5).
    Next(Construct),
    /// Ends its loop or sections, which has no barrier at its end (the `nowait` clause, OpenMP API
    /// 5.2, section 15.6).
    EndNowait(Construct),
    /// Begins the ordered part of the iteration with this value (OpenMP API 5.2, section 15.10.2).
    BeginPart(i64),
    /// Ends its ordered part.
    EndPart,
    /// A `cancel` construct that names its loop or sections, with the value of its clause; a
    /// cancellation point is one with a false clause. `allowed` tells whether the control variable
    /// `cancel-var` allows cancellation (OpenMP API 5.2, sections 16.1 and 16.2).
    Cancel {
        construct: Construct,
        clause: bool,
        allowed: bool,
    },
}

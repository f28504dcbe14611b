//! Cancellation: what a `cancel` construct names, and what its cancellation reaches.
//!
//! OpenMP API 5.2, chapter 16; libgomp's `GOMP_cancel` and `GOMP_cancellation_point`.

ghost use Rattle.std.specs.Prelude.{◌≡◌};
ghost use Rattle.gomp_types.specs.Servers.{kind_served_by};

use crate::call::Server;

/// Which kind of region a `cancel` or `cancellation point` construct names (OpenMP API 5.2, sections
/// 16.1 and 16.2).
#[derive(Clone, Copy, Debug, PartialEq, Eq)]
pub enum CancelKind {
    /// The parallel region.
    Parallel,
    /// The worksharing loop that the member is in.
    Loop,
    /// The sections construct that the member is in.
    Sections,
    /// The last opened group of those whose ends wait for the member's task.
    Taskgroup,
}

impl CancelKind {
    /// Which part of a team answers a construct of this kind: its shares if it names one, and else its
    /// board.
    pub fn served_by(self) -> Server
        ensures { result ≡ kind_served_by self }
    {
        match self {
            CancelKind::Loop | CancelKind::Sections => Server::Shares,
            CancelKind::Parallel | CancelKind::Taskgroup => Server::Board,
        }
    }
}

/// What one cancellation reaches. Shares and groups are numbered from 0.
#[derive(Clone, Copy, Debug, PartialEq, Eq)]
pub enum Scope {
    /// The whole region: every member, and every task.
    Region,
    /// This work-share; no task.
    OneShare(u64),
    /// This group of tasks, and every group within it.
    OneGroup(u64),
}

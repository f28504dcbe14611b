//! What comes of a region.

ghost use Rattle.std.specs.Prelude.{Some};
ghost use Rattle.gomp_fork.specs.Reports.{refusal_text};

use gomp_events::Event;
use gomp_types::Refusal;
use std::fmt;
use thiserror::Error;

/// What a region leaves, once all its members have passed its end.
#[derive(Drop)]
pub struct Report<P: Drop, T: Drop> {
    /// How many members its team had, 1 to 64. Member m ran program m with tool m.
    pub size: u16,
    /// How many iterations of loops each member took, by its number.
    pub taken: Vec<u128>,
    /// The stored events, the oldest first.
    pub history: Vec<Event>,
    /// The programs in the order in which they were given: those that ran, and behind them any others.
    pub progs: Vec<P>,
    /// Their tools.
    pub tools: Vec<T>,
}

/// Why there is no report.
#[derive(Drop)]
pub struct RegionFault<P: Drop, T: Drop> {
    /// The member that broke the team, or that lacked its thread; 0 if none did.
    pub member: u16,
    /// The refusal that it last got, `Broken` (E3) if it got none; or why there was no region.
    pub refusal: RegionRefusal,
    /// The programs in the order in which they were given.
    pub progs: Vec<P>,
    /// Their tools.
    pub tools: Vec<T>,
}

/// Why a region gives no report. It prints as its number and name.
#[derive(Debug, Drop, PartialEq, Eq, Error)]
pub enum RegionRefusal {
    /// A refusal of a member, or of the region itself: `CountTooLarge` (E33), `NoMemory` (E37), `BadTeam`
    /// (E38).
    Refused(Refusal),
    /// E42: a member has not passed the region's end, or was answered otherwise than the history has it; or, in a region that nobody
    /// cancelled, one arrived at a barrier after a work-share that not all have left.
    Unsettled,
}

impl fmt::Display for RegionRefusal {
    ghost output = { λ refusal. Some (refusal_text refusal) };

    fn fmt<W: fmt::Write>(&self, f: &mut fmt::Formatter<W>) -> fmt::Result {
        match self {
            RegionRefusal::Refused(refusal) => write!(f, "{refusal}"),
            RegionRefusal::Unsettled => write!(f, "E42 Unsettled"),
        }
    }
}

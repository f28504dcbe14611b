//! Why a call is refused.
//!
//! Of the tests of a call that hold, the refusal with the least number is the answer.

ghost use Rattle.std.specs.Prelude.{◌≡◌, ◌∷◌, ◌++◌, Some};
ghost use Rattle.gomp_types.specs.RefusalTexts.{number_of, name_of, text_of, clash_text, place_text};

use crate::name::Name;
use std::fmt;
use thiserror::Error;

/// Where a team broke. Shares and barriers are numbered from 0.
#[derive(Clone, Copy, Debug, PartialEq, Eq)]
pub enum Place {
    /// At the start of this work-share, which differs from the team's.
    Share(u64),
    /// At the arrival at this barrier, which differs from the other members'.
    Barrier(u64),
    /// Nowhere: a member stopped the team.
    Stopped,
}

/// The first cause by which a team broke.
#[derive(Clone, Copy, Debug, PartialEq, Eq)]
pub struct Clash {
    /// The member that broke the team: its construct differed, or it stopped the team.
    pub member: u16,
    /// Where it did so.
    pub place: Place,
}

/// Why a call is not served, or a word of the environment is ignored. Each prints as its number and
/// name, as in `E35 Mismatch`.
#[derive(Debug, Drop, PartialEq, Eq, Error)]
pub enum Refusal {
    /// E1: the member's number is not below the team's size.
    BadMember,
    /// E2: the member has passed the region's end.
    Ended,
    /// E3: the team is broken, by this first cause.
    Broken(Clash),
    /// E4: the member's wait is open, and the call is neither `resume` nor `stop`.
    Waiting,
    /// E5: the member has seen a cancellation, and leaves what was cancelled.
    Leaving,
    /// E6: the member executes an explicit task.
    InsideTask,
    /// E7: the member executes no explicit task.
    NotInTask,
    /// E8: the member is in a work-share.
    InsideShare,
    /// E9: the member is in no work-share of the call's kind.
    OutsideShare,
    /// E10: the member is in an ordered part.
    InOrdered,
    /// E11: the member's current task holds a critical name.
    HoldsCritical,
    /// E12: the loop's step is 0.
    ZeroStep,
    /// E13: the chunk is negative, above 2^39, or given with a runtime schedule.
    BadChunk,
    /// E14: the loop has more than 2^39 iterations.
    LoopTooLong,
    /// E15: the construct has more than 65,536 sections.
    BadSections,
    /// E16: the loop is ordered, and may be cancelled.
    OrderedLoop,
    /// E17: the share ends otherwise.
    EndDiffers,
    /// E18: the member has not been told that nothing is left.
    NotDrained,
    /// E19: the member has been told that nothing is left.
    Drained,
    /// E20: the loop is not ordered.
    NotOrdered,
    /// E21: the iteration is not in the member's piece, or not after its last ordered one.
    OrderedBackwards,
    /// E22: no such part is open, or `resume` with no wait open.
    NotInside,
    /// E23: the construct's end is not that of one that may be cancelled.
    NotCancellable,
    /// E24: the current task has opened no group that it has not ended; at a cancellation, no group's
    /// end waits for it.
    NoGroup,
    /// E25: the current task has opened a group and not ended it.
    GroupOpen,
    /// E26: the new task would lie deeper than 64 in the tree of tasks.
    TooDeep,
    /// E27: the region has had as many tasks as the limit.
    TooManyTasks,
    /// E28: the `depend` clause of a task or a taskwait has more than 16 items.
    TooManyDepends,
    /// E29: the critical name has more than 32 bytes, or is not ASCII.
    NameTooLong,
    /// E30: the member holds this critical name; its task owns this simple lock; the lock to be
    /// destroyed is set.
    AlreadyHeld,
    /// E31: the member's current task does not hold it.
    NotHolder,
    /// E32: there is no lock of this number and kind.
    NoLock,
    /// E33: the nestable lock is set 65,535 times by its owner, or 2^32 - 1 locks were made.
    CountTooLarge,
    /// E34: the member has started as many shares as the limit.
    TooManyShares,
    /// E35: the construct differs from the team's.
    Mismatch,
    /// E36: there is no room left for the events that the call may give.
    TraceFull,
    /// E37: memory was refused.
    NoMemory,
    /// E38: a team has 1 to 64 members.
    BadTeam,
    /// E39: the new team would lie deeper than the levels that may be nested.
    TooManyLevels,
    /// E41: this word of the environment is ignored: no variable has its name, or its value is bad.
    BadEnv(Name),
}

impl Refusal {
    /// The number, as in the table of refusals.
    pub fn number(&self) -> u8
        ensures { result ≡ number_of self.now }
    {
        match self {
            Refusal::BadMember => 1,
            Refusal::Ended => 2,
            Refusal::Broken(_) => 3,
            Refusal::Waiting => 4,
            Refusal::Leaving => 5,
            Refusal::InsideTask => 6,
            Refusal::NotInTask => 7,
            Refusal::InsideShare => 8,
            Refusal::OutsideShare => 9,
            Refusal::InOrdered => 10,
            Refusal::HoldsCritical => 11,
            Refusal::ZeroStep => 12,
            Refusal::BadChunk => 13,
            Refusal::LoopTooLong => 14,
            Refusal::BadSections => 15,
            Refusal::OrderedLoop => 16,
            Refusal::EndDiffers => 17,
            Refusal::NotDrained => 18,
            Refusal::Drained => 19,
            Refusal::NotOrdered => 20,
            Refusal::OrderedBackwards => 21,
            Refusal::NotInside => 22,
            Refusal::NotCancellable => 23,
            Refusal::NoGroup => 24,
            Refusal::GroupOpen => 25,
            Refusal::TooDeep => 26,
            Refusal::TooManyTasks => 27,
            Refusal::TooManyDepends => 28,
            Refusal::NameTooLong => 29,
            Refusal::AlreadyHeld => 30,
            Refusal::NotHolder => 31,
            Refusal::NoLock => 32,
            Refusal::CountTooLarge => 33,
            Refusal::TooManyShares => 34,
            Refusal::Mismatch => 35,
            Refusal::TraceFull => 36,
            Refusal::NoMemory => 37,
            Refusal::BadTeam => 38,
            Refusal::TooManyLevels => 39,
            Refusal::BadEnv(_) => 41,
        }
    }

    /// The name, as in the table of refusals.
    pub fn name(&self) -> &'static str
        ensures { result.now ≡ name_of self.now }
    {
        match self {
            Refusal::BadMember => "BadMember",
            Refusal::Ended => "Ended",
            Refusal::Broken(_) => "Broken",
            Refusal::Waiting => "Waiting",
            Refusal::Leaving => "Leaving",
            Refusal::InsideTask => "InsideTask",
            Refusal::NotInTask => "NotInTask",
            Refusal::InsideShare => "InsideShare",
            Refusal::OutsideShare => "OutsideShare",
            Refusal::InOrdered => "InOrdered",
            Refusal::HoldsCritical => "HoldsCritical",
            Refusal::ZeroStep => "ZeroStep",
            Refusal::BadChunk => "BadChunk",
            Refusal::LoopTooLong => "LoopTooLong",
            Refusal::BadSections => "BadSections",
            Refusal::OrderedLoop => "OrderedLoop",
            Refusal::EndDiffers => "EndDiffers",
            Refusal::NotDrained => "NotDrained",
            Refusal::Drained => "Drained",
            Refusal::NotOrdered => "NotOrdered",
            Refusal::OrderedBackwards => "OrderedBackwards",
            Refusal::NotInside => "NotInside",
            Refusal::NotCancellable => "NotCancellable",
            Refusal::NoGroup => "NoGroup",
            Refusal::GroupOpen => "GroupOpen",
            Refusal::TooDeep => "TooDeep",
            Refusal::TooManyTasks => "TooManyTasks",
            Refusal::TooManyDepends => "TooManyDepends",
            Refusal::NameTooLong => "NameTooLong",
            Refusal::AlreadyHeld => "AlreadyHeld",
            Refusal::NotHolder => "NotHolder",
            Refusal::NoLock => "NoLock",
            Refusal::CountTooLarge => "CountTooLarge",
            Refusal::TooManyShares => "TooManyShares",
            Refusal::Mismatch => "Mismatch",
            Refusal::TraceFull => "TraceFull",
            Refusal::NoMemory => "NoMemory",
            Refusal::BadTeam => "BadTeam",
            Refusal::TooManyLevels => "TooManyLevels",
            Refusal::BadEnv(_) => "BadEnv",
        }
    }
}

impl fmt::Display for Place {
    ghost output = { λ place. Some (place_text place) };

    fn fmt<W: fmt::Write>(&self, f: &mut fmt::Formatter<W>) -> fmt::Result {
        match self {
            Place::Share(number) => write!(f, "share {number}"),
            Place::Barrier(number) => write!(f, "barrier {number}"),
            Place::Stopped => write!(f, "stopped"),
        }
    }
}

impl fmt::Display for Clash {
    ghost output = { λ clash. Some (clash_text clash) };

    fn fmt<W: fmt::Write>(&self, f: &mut fmt::Formatter<W>) -> fmt::Result {
        write!(f, "{} {}", self.member, self.place)
    }
}

impl fmt::Display for Refusal {
    ghost output = { λ refusal. Some (text_of refusal) };

    fn fmt<W: fmt::Write>(&self, f: &mut fmt::Formatter<W>) -> fmt::Result {
        match self {
            Refusal::Broken(clash) => write!(f, "E3 Broken {clash}"),
            refusal => write!(f, "E{} {}", refusal.number(), refusal.name()),
        }
    }
}

//! One record: which event, and whether it begins or ends something.
//!
//! OpenMP API 5.2, section 19.5.2 (the events and their callbacks).

ghost use Rattle.std.specs.Prelude.{◌≡◌, ◌<◌};
ghost use Rattle.gomp_ompt.specs.Points.{point_index};
ghost use Rattle.gomp_ompt.specs.Records.{begin_record, end_record, single_record};
ghost use Rattle.gomp_ompt.specs.declared.record.TheConstants.{POINTS};

/// How many kinds of events there are.
pub const POINTS: usize = 14;

/// An event of the OMPT interface, by the name of its callback (OpenMP API 5.2, section 19.5.2).
#[derive(Clone, Copy, Debug, Default, PartialEq, Eq)]
pub enum Point {
    /// `parallel_begin`: a member forks a team. The id is the team's size.
    #[default]
    ParallelBegin,
    /// `parallel_end`: the member has joined the team. The id is the team's size.
    ParallelEnd,
    /// `work`: a member is in a work-share. The id is 0 for a loop or sections, 1 for a single; in a
    /// single the extra number is 1 for the executor.
    Work,
    /// `dispatch`: a member begins a chunk or a section. The id is the first iteration's value, as
    /// the bits of a signed number, or the section's number; the extra number how many there are.
    Dispatch,
    /// `task_create`: a member creates a task. The id is its number, the extra number its code.
    TaskCreate,
    /// `dependences`: the task has items of `depend`. The extra number is how many are written.
    Dependences,
    /// `task_schedule`: a member begins or ends a task. The id is its number.
    TaskSchedule,
    /// `implicit_task`: a member begins or ends its part of the region. At the begin the id is its
    /// number, the extra number the team's size.
    ImplicitTask,
    /// `sync_region`: a member waits. The id is 1 at a barrier, 2 at the end of a work-share, 3 at a
    /// taskwait, 4 in a group of tasks, 5 at the region's end.
    SyncRegion,
    /// `mutex_acquire`: a member asks for what one task holds. The id is 1 for a critical name, 2
    /// for a simple lock, 3 for an ordered part, 4 for a nestable lock, whose number is the extra
    /// one.
    MutexAcquire,
    /// `mutex_acquired`: it has it. The numbers are those of `MutexAcquire`.
    MutexAcquired,
    /// `mutex_released`: it has given it back. The numbers are those of `MutexAcquire`.
    MutexReleased,
    /// `nest_lock`: a task sets a nestable lock that it holds once more, or unsets it and holds it
    /// still. The id is the lock's number, the extra number how often it is set now.
    NestLock,
    /// `cancel`: what a construct names is cancelled. The id is 1 for the region, 2 for a loop, 4
    /// for sections, 8 for a group of tasks.
    Cancel,
}

impl Point {
    /// Its place among all of them, from 0, in the order of the standard's section 19.5.2.
    pub fn index(self) -> usize
        ensures place { result ≡ point_index self }
        ensures small { result < POINTS }
    {
        match self {
            Point::ParallelBegin => 0,
            Point::ParallelEnd => 1,
            Point::Work => 2,
            Point::Dispatch => 3,
            Point::TaskCreate => 4,
            Point::Dependences => 5,
            Point::TaskSchedule => 6,
            Point::ImplicitTask => 7,
            Point::SyncRegion => 8,
            Point::MutexAcquire => 9,
            Point::MutexAcquired => 10,
            Point::MutexReleased => 11,
            Point::NestLock => 12,
            Point::Cancel => 13,
        }
    }
}

/// Whether an event begins something, ends it, or does neither (OpenMP API 5.2, section 19.4.4,
/// `ompt_scope_endpoint_t`).
#[derive(Clone, Copy, Debug, Default, PartialEq, Eq)]
pub enum Endpoint {
    /// It begins here.
    Begin,
    /// It ends here.
    End,
    /// It is of one moment.
    #[default]
    Single,
}

/// What a tool gets of one event. The numbers are this project's own.
#[derive(Clone, Copy, Debug, Default, PartialEq, Eq)]
pub struct Record {
    /// Which event.
    pub point: Point,
    /// Whether it begins or ends something.
    pub scope: Endpoint,
    /// A number that the point gives its meaning.
    pub id: u64,
    /// Another one.
    pub extra: u64,
}

impl Record {
    /// The record of what begins.
    pub fn begin(point: Point, id: u64, extra: u64) -> Record
        ensures { result ≡ begin_record point id extra }
    {
        Record {
            point,
            scope: Endpoint::Begin,
            id,
            extra,
        }
    }

    /// The record of what ends.
    pub fn end(point: Point, id: u64, extra: u64) -> Record
        ensures { result ≡ end_record point id extra }
    {
        Record {
            point,
            scope: Endpoint::End,
            id,
            extra,
        }
    }

    /// The record of a moment.
    pub fn single(point: Point, id: u64, extra: u64) -> Record
        ensures { result ≡ single_record point id extra }
    {
        Record {
            point,
            scope: Endpoint::Single,
            id,
            extra,
        }
    }
}

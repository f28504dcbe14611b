//! What a reader of a lane sees: the name of an event, and its category.

ghost use Rattle.std.specs.Prelude.{◌≡◌, Some};
ghost use Rattle.gomp_trace.specs.Names.{share_word, wait_word, construct_word, mutex_words, event_name, category};

use gomp_ompt::{Point, Record};
use std::fmt;

/// The name of a record's event.
#[derive(Clone, Copy)]
pub(crate) struct Name(pub(crate) Record);

#[tactic(auto, unfolding(crate::specs::Names::event_name))]
impl fmt::Display for Name {
    ghost output = { λ name. Some (event_name name.0) };

    fn fmt<W: fmt::Write>(&self, f: &mut fmt::Formatter<W>) -> fmt::Result {
        let Record { id, extra, .. } = self.0;
        match self.0.point {
            Point::ParallelBegin => write!(f, "parallel region begins"),
            Point::ParallelEnd => write!(f, "parallel region ends"),
            Point::Work => write!(f, "{}", share_word(id)),
            Point::Dispatch => write!(f, "dispatch"),
            Point::TaskCreate => write!(f, "create task {id}"),
            Point::Dependences => write!(f, "dependences of task {id}"),
            Point::TaskSchedule => write!(f, "task {id}"),
            Point::ImplicitTask => write!(f, "implicit task"),
            Point::SyncRegion => write!(f, "{}", wait_word(id)),
            Point::MutexAcquire => write!(f, "acquire {}", Mutex(id, extra)),
            Point::MutexAcquired => write!(f, "{} acquired", Mutex(id, extra)),
            Point::MutexReleased => write!(f, "{} released", Mutex(id, extra)),
            Point::NestLock => write!(f, "nestable lock {id} set {extra} times"),
            Point::Cancel => write!(f, "cancel {}", construct_word(id)),
        }
    }
}

/// What one task holds at a time, by the number of its kind, and the number of a nestable lock.
#[derive(Clone, Copy)]
struct Mutex(u64, u64);

impl fmt::Display for Mutex {
    ghost output = { λ mutex. Some (mutex_words mutex.0 mutex.1) };

    fn fmt<W: fmt::Write>(&self, f: &mut fmt::Formatter<W>) -> fmt::Result {
        let lock = self.1;
        match self.0 {
            1 => write!(f, "critical"),
            2 => write!(f, "lock"),
            3 => write!(f, "ordered"),
            _ => write!(f, "nestable lock {lock}"),
        }
    }
}

/// The work-share with this number.
fn share_word(id: u64) -> &'static str
    ensures { result.now ≡ share_word id }
{
    match id {
        0 => "loop or sections",
        _ => "single",
    }
}

/// What is waited at, by its number.
fn wait_word(id: u64) -> &'static str
    ensures { result.now ≡ wait_word id }
{
    match id {
        1 => "barrier",
        2 => "end of work-share",
        3 => "taskwait",
        4 => "taskgroup",
        _ => "end of region",
    }
}

/// What is cancelled, by its number.
fn construct_word(id: u64) -> &'static str
    ensures { result.now ≡ construct_word id }
{
    match id {
        1 => "parallel",
        2 => "loop",
        4 => "sections",
        _ => "taskgroup",
    }
}

/// The name of the callback of OMPT that gets such records (OpenMP API 5.2, section 19.5.2).
#[tactic(auto, unfolding(crate::specs::Names::category))]
pub(crate) fn category(point: Point) -> &'static str
    ensures { result.now ≡ category point }
{
    match point {
        Point::ParallelBegin => "parallel_begin",
        Point::ParallelEnd => "parallel_end",
        Point::Work => "work",
        Point::Dispatch => "dispatch",
        Point::TaskCreate => "task_create",
        Point::Dependences => "dependences",
        Point::TaskSchedule => "task_schedule",
        Point::ImplicitTask => "implicit_task",
        Point::SyncRegion => "sync_region",
        Point::MutexAcquire => "mutex_acquire",
        Point::MutexAcquired => "mutex_acquired",
        Point::MutexReleased => "mutex_released",
        Point::NestLock => "nest_lock",
        Point::Cancel => "cancel",
    }
}

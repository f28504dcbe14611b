//! An event of a trace.

ghost use Rattle.std.specs.Prelude.{◌≡◌};
ghost use Rattle.gomp_trace.specs.Lanes.{is_span, is_task, ends, ended, moment};

use gomp_ompt::{Point, Record};

/// A record of a member, with its time. Its scope says what is written: a slice begins, a slice ends,
/// or something is of a moment.
#[derive(Clone, Copy, Debug, PartialEq, Eq)]
pub struct TraceEvent {
    /// The number of the step that gave it, from 1; 0 is before all steps.
    pub time: u64,
    /// The member's number, from 0.
    pub member: u16,
    /// What begins, ends or is of a moment.
    pub event: Record,
}

/// Whether what begins and ends at this point is shown as a slice: a work-share, a task, an implicit
/// task, a wait. That a nestable lock is set once more is not, since it need not nest with these.
pub(crate) fn is_span(point: Point) -> bool
    ensures { result ≡ is_span point }
{
    matches!(
        point,
        Point::Work | Point::TaskSchedule | Point::ImplicitTask | Point::SyncRegion
    )
}

/// Whether it is a task: with it ends all that has begun in it.
pub(crate) fn is_task(point: Point) -> bool
    ensures { result ≡ is_task point }
{
    matches!(point, Point::TaskSchedule | Point::ImplicitTask)
}

/// Whether this end ends what has begun: it is of the same kind and number. A lane has one implicit
/// task.
pub(crate) fn ends(end: &Record, begun: &Record) -> bool
    ensures { result ≡ ends end.now begun.now }
{
    let same = end.id == begun.id || matches!(end.point, Point::ImplicitTask);
    same && end.point.index() == begun.point.index()
}

/// The end of what has begun.
pub(crate) fn ended(begun: &Record) -> Record
    ensures { result ≡ ended begun.now }
{
    Record::end(begun.point, begun.id, begun.extra)
}

/// The same as of a moment.
pub(crate) fn moment(event: &Record) -> Record
    ensures { result ≡ moment event.now }
{
    Record::single(event.point, event.id, event.extra)
}

//! The lane of a member: what has begun on it and not ended, so that what is written of it nests.

ghost use Rattle.std.specs.Prelude.{◌≡◌, ◌<◌, ◌++◌, ◌∷◌, [], length, IfSome, OnOk};
ghost use Rattle.gomp_trace.specs.Lanes.{innermost, all_ended, lane_records, lane_after, end_records, after_end, at_time, all_at};
ghost use Rattle.gomp_trace.specs.Runs.{is_idle};

use crate::event::{TraceEvent, ended, ends, is_span, is_task, moment};
use gomp_ompt::{Endpoint, Record};
use std::alloc::{AllocError, Global};
use std::marker::Model;

/// What has begun on a lane and not ended, the outermost first.
#[derive(Drop)]
pub(crate) struct Lane {
    begun: Vec<Record>,
}

impl Model for Lane {
    ghost use Rattle.std.specs.Prelude.{List};
    ghost use Rattle.gomp_ompt.specs.declared.record.Record.{Record};

    ghost Value = { List Record };

    ghost view = { λ lane. lane.begun.items };
}

impl Lane {
    /// Nothing has begun. It takes no memory.
    pub(crate) fn new(alloc: Global) -> Lane
        ensures { result ≡ [] }
    {
        Lane {
            begun: Vec::new(alloc),
        }
    }

    /// Whether nothing goes on.
    pub(crate) fn is_idle(&self) -> bool
        ensures { result ≡ is_idle self.now }
    {
        self.begun.is_empty()
    }

    /// Appends what is written of the member's next record to the events of the trace.
    pub(crate) fn take(
        &mut self,
        time: u64,
        member: u16,
        event: &Record,
        events: &mut Vec<TraceEvent>,
    ) -> Result<(), AllocError>
        ensures lane { OnOk result (self.new ≡ lane_after event.now self.old) }
        ensures events { OnOk result (events.new.items ≡
            events.old.items ++ all_at time member (lane_records event.now self.old)) }
    {
        if !is_span(event.point) {
            return push_event(time, member, moment(event), events);
        }
        match event.scope {
            Endpoint::Begin => {
                self.begun.push(*event)?;
                push_event(time, member, *event, events)
            }
            Endpoint::End => self.end(time, member, event, events),
            Endpoint::Single => push_event(time, member, moment(event), events),
        }
    }

    /// The same of the end of a slice.
    fn end(
        &mut self,
        time: u64,
        member: u16,
        end: &Record,
        events: &mut Vec<TraceEvent>,
    ) -> Result<(), AllocError>
        ensures lane { OnOk result
            (self.new ≡ after_end end.now (innermost end.now self.old) self.old) }
        ensures events { OnOk result (events.new.items ≡ events.old.items ++
            all_at time member (end_records end.now (innermost end.now self.old) self.old)) }
    {
        let Some(place) = innermost(self.begun.as_slice(), end) else {
            return push_event(time, member, moment(end), events);
        };
        end_all(time, member, &self.begun[place..], events)?;
        if is_task(end.point) {
            self.begun.truncate(place);
            return Ok(());
        }
        let _ended = self.begun.remove(place);
        begin_again(time, member, &self.begun[place..], events)
    }

    /// Appends the ends of all that goes on, the innermost first.
    pub(crate) fn close(
        &self,
        time: u64,
        member: u16,
        events: &mut Vec<TraceEvent>,
    ) -> Result<(), AllocError>
        ensures { OnOk result (events.new.items ≡
            events.old.items ++ all_at time member (all_ended self.now)) }
    {
        end_all(time, member, self.begun.as_slice(), events)
    }
}

/// The place of the innermost that this end ends, if one has begun.
fn innermost(begun: &[Record], end: &Record) -> Option<usize>
    ensures place { result ≡ innermost end.now begun.now }
    ensures within { IfSome result (λ place. place < length begun.now) }
{
    let mut left = begun.len();
    while left > 0 {
        left -= 1;
        if ends(end, &begun[left]) {
            return Some(left);
        }
    }
    None
}

/// Appends the ends of these, the last first.
fn end_all(
    time: u64,
    member: u16,
    begun: &[Record],
    events: &mut Vec<TraceEvent>,
) -> Result<(), AllocError>
    ensures { OnOk result (events.new.items ≡
        events.old.items ++ all_at time member (all_ended begun.now)) }
{
    let mut left = begun.len();
    while left > 0 {
        left -= 1;
        push_event(time, member, ended(&begun[left]), events)?;
    }
    Ok(())
}

/// Appends the begins of these again, in their order.
fn begin_again(
    time: u64,
    member: u16,
    begun: &[Record],
    events: &mut Vec<TraceEvent>,
) -> Result<(), AllocError>
    ensures { OnOk result (events.new.items ≡
        events.old.items ++ all_at time member begun.now) }
{
    for event in begun {
        push_event(time, member, *event, events)?;
    }
    Ok(())
}

/// Appends one event.
fn push_event(
    time: u64,
    member: u16,
    event: Record,
    events: &mut Vec<TraceEvent>,
) -> Result<(), AllocError>
    ensures { OnOk result (events.new.items ≡ events.old.items ++ at_time time member event ∷ []) }
{
    events.push(TraceEvent {
        time,
        member,
        event,
    })?;
    Ok(())
}

//! The lanes of a team, and the events of its run.

ghost use Rattle.std.specs.Prelude.{◌≡◌, ◌<◌, ◌≤◌, length, IfOk, OnOk};
ghost use Rattle.std.specs.List.{list_all};
ghost use Rattle.gomp_trace.specs.Runs.{begun, closed, is_idle, with_record, with_records};

use crate::event::TraceEvent;
use crate::lane::Lane;
use gomp_ompt::{Point, Record};
use std::alloc::{AllocError, Global};
use std::marker::Model;

/// What a run has traced so far.
#[derive(Drop)]
pub(crate) struct Tracing {
    lanes: Vec<Lane>,
    events: Vec<TraceEvent>,
}

impl Model for Tracing {
    ghost use Rattle.gomp_trace.specs.Runs.{Traced};

    ghost Value = { Traced };

    ghost view = { λ t. record { lanes = t.lanes.items; events = t.events.items } };
}

impl Tracing {
    /// A team of this many members, 1 to 65,535, begins: its region, and the implicit task of each.
    pub(crate) fn begin(alloc: Global, members: u16) -> Result<Tracing, AllocError>
        ensures traced { IfOk result (λ tracing. tracing ≡ begun members members) }
        ensures lanes { IfOk result (λ tracing. length tracing.lanes ≡ members) }
    {
        let mut tracing = Tracing::with_lanes(alloc, members)?;
        for member in 0..members {
            let id = u64::from(member);
            let task = Record::begin(Point::ImplicitTask, id, u64::from(members));
            tracing.take(0, member, &task)?;
        }
        Ok(tracing)
    }

    /// The region of a team begins. Nothing goes on on its lanes.
    fn with_lanes(alloc: Global, members: u16) -> Result<Tracing, AllocError>
        ensures { IfOk result (λ tracing. tracing ≡ begun members 0) }
    {
        let mut lanes = Vec::with_capacity(alloc, members as usize)?;
        for _ in 0..members {
            lanes.push_reserved(Lane::new(alloc));
        }
        let mut events = Vec::new(alloc);
        events.push(TraceEvent {
            time: 0,
            member: 0,
            event: Record::single(Point::ParallelBegin, u64::from(members), 0),
        })?;
        Ok(Tracing { lanes, events })
    }

    /// Takes the records of a step, in their order.
    pub(crate) fn take_all(
        &mut self,
        time: u64,
        member: u16,
        events: &[Record],
    ) -> Result<(), AllocError>
        requires lane { 0 < length events.now → member < length self.old.lanes }
        ensures traced { OnOk result (self.new ≡ with_records time member events.now self.old) }
        ensures lanes { OnOk result (length self.new.lanes ≡ length self.old.lanes) }
    {
        for event in events {
            self.take(time, member, event)?;
        }
        Ok(())
    }

    /// Takes the member's next record. If nothing goes on on any lane behind it, the region has ended.
    fn take(&mut self, time: u64, member: u16, event: &Record) -> Result<(), AllocError>
        requires lane { member < length self.old.lanes }
        ensures traced { OnOk result (self.new ≡ with_record time member event.now self.old) }
        ensures lanes { OnOk result (length self.new.lanes ≡ length self.old.lanes) }
    {
        self.lanes[member as usize].take(time, member, event, &mut self.events)?;
        if all_idle(&self.lanes) {
            self.events.push(TraceEvent {
                time,
                member: 0,
                event: Record::single(Point::ParallelEnd, self.lanes.len() as u64, 0),
            })?;
        }
        Ok(())
    }

    /// The events, and behind them the ends of all that goes on, at this time, lane by lane.
    pub(crate) fn finish(self, time: u64) -> Result<Vec<TraceEvent>, AllocError>
        requires few { length self.lanes ≤ 65535 }
        ensures { IfOk result (λ events. events.items ≡ closed time self) }
    {
        let Tracing { lanes, mut events } = self;
        for (member, lane) in lanes.iter().enumerate() {
            lane.close(time, member as u16, &mut events)?;
        }
        Ok(events)
    }
}

/// Whether nothing goes on on any of these lanes.
fn all_idle(lanes: &[Lane]) -> bool
    ensures { result ≡ list_all is_idle lanes.now }
{
    lanes.iter().all(|lane| lane.is_idle())
}

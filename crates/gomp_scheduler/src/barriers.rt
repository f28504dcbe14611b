//! Barriers. OpenMP API 5.2, section 15.3.

ghost use Rattle.std.specs.Prelude.{◌≡◌, ◌<◌, ◌||◌, ◌&&◌, not, List, false};
ghost use Rattle.gomp_events.specs.declared.event.Event.{Event};
ghost use Rattle.gomp_events.specs.Tags.{tag_differs};
ghost use Rattle.gomp_types.specs.Limits.{shown_number};
ghost use Rattle.gomp_events.specs.Events.{barriers_passed, has_left_region, tag_at, at_barrier, at_region_end, is_region_end, was_region_end};
ghost use Rattle.gomp_events.specs.Tasks.{in_task};
ghost use Rattle.gomp_events.specs.Cancels.{is_cancelled};
ghost use Rattle.gomp_events.specs.Goals.{may_pass};
ghost use Rattle.gomp_barrier.specs.Calls.{accepts_arrival, arrived_after, turn_after};
ghost use Rattle.gomp_barrier.specs.Stands.{barrier_members};
ghost use Rattle.gomp_scheduler.specs.Schedulers.{Stands, SchedulerHasMembers, scheduler_members};

use crate::scheduler::Scheduler;
use gomp_barrier::{AtBarrier, Barriers};
use gomp_events::{Arrival, Tag};

impl Scheduler {
    /// The member, numbered from 0, arrives at its next barrier with this tag, unless someone arrived
    /// there with another one: then nothing changes, and the answer is false. In a cancelled region it
    /// arrives at the region's end alone.
    #[inline(always)]
    pub fn arrive(&mut self, member: u16, tag: Tag) -> bool
        requires member { member < scheduler_members self.old }
        ensures answer { (h : List Event) → Stands self.old h →
            result ≡ accepts_arrival member tag h }
        ensures kept { result ≡ false → self.new ≡ self.old }
        ensures members { SchedulerHasMembers (scheduler_members self.old) self.new }
        ensures stands { (h : List Event) → Stands self.old h →
            Stands self.new (arrived_after result member tag h) }
    {
        self.barriers.arrive(member, tag)
    }

    /// The member, numbered from 0, passes the barrier at which it waits, if it may: every member has
    /// arrived there, and every task that is bound to it is complete. Else nothing changes, and the
    /// answer is false. It costs a step for each member.
    #[inline(always)]
    pub fn pass(&mut self, member: u16) -> bool
        requires member { member < scheduler_members self.old }
        ensures answer { (h : List Event) → Stands self.old h →
            result ≡ may_pass (scheduler_members self.old) member h }
        ensures kept { result ≡ false → self.new ≡ self.old }
        ensures members { SchedulerHasMembers (scheduler_members self.old) self.new }
        ensures stands { (h : List Event) → Stands self.old h →
            Stands self.new (turn_after result member h) }
    {
        self.barriers.turn(member)
    }

    /// The team's barriers: who has arrived where.
    #[inline(always)]
    pub fn barriers(&self) -> &Barriers
        ensures value { result.now ≡ self.now.barriers }
        ensures members { barrier_members result.now ≡ scheduler_members self.now }
    {
        &self.barriers
    }

    /// The number of the next barrier of the member, numbered from 0; it stays at the largest one of its type.
    #[inline(always)]
    pub fn barrier_number(&self, member: u16) -> u64
        requires member { member < scheduler_members self.now }
        ensures value { (h : List Event) → Stands self.now h →
            result ≡ shown_number (barriers_passed member h) }
    {
        self.barriers.number(member)
    }

    /// Whether the member, numbered from 0, has passed the region's end.
    #[inline(always)]
    pub fn has_left(&self, member: u16) -> bool
        requires member { member < scheduler_members self.now }
        ensures value { (h : List Event) → Stands self.now h →
            result ≡ has_left_region member h }
    {
        self.barriers.has_left(member)
    }

    /// Whether the member waits at a barrier itself, and does not execute a task there.
    #[inline(always)]
    pub fn awaits_barrier(&self, member: u16) -> bool
        requires member { member < scheduler_members self.now }
        ensures value { (h : List Event) → Stands self.now h →
            result ≡ (at_barrier member h && not (in_task member h)) }
    {
        let waits = self.barriers.at_barrier(member);
        waits && !self.in_task(member)
    }

    /// Whether a cancelled region has the member arrive nowhere but at its end, or wait there (OpenMP
    /// API 5.2, section 16.1).
    #[inline(always)]
    pub fn is_cut_short(&self, member: u16) -> bool
        requires member { member < scheduler_members self.now }
        ensures value { (h : List Event) → Stands self.now h →
            result ≡ (is_cancelled h && not (at_region_end member h)) }
    {
        let cancelled = self.cancelled.is_cancelled();
        cancelled && !self.has_come_to_end(member)
    }

    /// Whether the member waits at a barrier itself, and is to wait on: in a cancelled region it waits
    /// at the region's end alone.
    pub fn is_busy(&self, member: u16) -> bool
        requires member { member < scheduler_members self.now }
        ensures value { (h : List Event) → Stands self.now h →
            result ≡ ((at_barrier member h && not (in_task member h))
            && not (is_cancelled h && not (at_region_end member h))) }
    {
        let waits = self.awaits_barrier(member);
        waits && !self.is_cut_short(member)
    }

    /// Whether a member has arrived at this one's next barrier with another tag, in a region that is
    /// not cancelled.
    pub fn differs(&self, member: u16, tag: Tag) -> bool
        requires member { member < scheduler_members self.now }
        ensures value { (h : List Event) → Stands self.now h → result ≡
            (not (is_cancelled h) && tag_differs tag (tag_at (barriers_passed member h) h)) }
    {
        let cancelled = self.cancelled.is_cancelled();
        !cancelled && self.is_another_tag(member, tag)
    }

    /// Whether an arrival of this kind is none: the region is cancelled, and it is not at its end.
    #[inline(always)]
    pub fn arrives_nowhere(&self, kind: Arrival) -> bool
        ensures value { (h : List Event) → Stands self.now h →
            result ≡ (is_cancelled h && not (is_region_end kind)) }
    {
        let cancelled = self.cancelled.is_cancelled();
        cancelled && !ends_region(kind)
    }

    /// Whether the member has arrived at the region's end.
    fn has_come_to_end(&self, member: u16) -> bool
        requires member { member < scheduler_members self.now }
        ensures value { (h : List Event) → Stands self.now h → result ≡ at_region_end member h }
    {
        is_at_end(self.barriers.look(member))
    }

    /// Whether a member has arrived at this one's next barrier with another tag.
    fn is_another_tag(&self, member: u16, tag: Tag) -> bool
        requires member { member < scheduler_members self.now }
        ensures value { (h : List Event) → Stands self.now h →
            result ≡ tag_differs tag (tag_at (barriers_passed member h) h) }
    {
        match self.barriers.look(member).tag {
            Some(other) => !other.is_same(&tag),
            None => false,
        }
    }
}

/// Whether a member that sees this has arrived at the region's end: it has passed it, or is there.
fn is_at_end(seen: AtBarrier) -> bool
    ensures { result ≡ (seen.left || was_region_end seen.arrived) }
{
    if seen.left {
        return true;
    }
    match seen.arrived {
        Some(tag) => ends_region(tag.kind),
        None => false,
    }
}

/// Whether an arrival of this kind is at the region's end.
#[inline(always)]
fn ends_region(kind: Arrival) -> bool
    ensures { result ≡ is_region_end kind }
{
    match kind {
        Arrival::RegionEnd => true,
        Arrival::Barrier => false,
        Arrival::ShareEnd => false,
    }
}

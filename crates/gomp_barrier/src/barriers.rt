//! The barriers of a team that one thread steps.

ghost use Rattle.std.specs.Prelude.{◌≡◌, ◌<◌, ◌↔◌, ℕ, List, [], ◌∷◌, IfOk, IsTrue, false};
ghost use Rattle.gomp_types.specs.declared.task.Task.{Task};
ghost use Rattle.gomp_types.specs.declared.task.TaskDesc.{TaskDesc};
ghost use Rattle.gomp_events.specs.declared.event.Event.{Event};
ghost use Rattle.gomp_events.specs.declared.event.Event.TheVariants.{Create, Done, Cancel, Discard};
ghost use Rattle.gomp_types.specs.declared.cancel.Scope.TheVariants.{Region};
ghost use Rattle.gomp_events.specs.Events.{barriers_passed, at_barrier, has_left_region};
ghost use Rattle.gomp_types.specs.Limits.{shown_number};
ghost use Rattle.gomp_events.specs.Cancels.{is_cancelled};
ghost use Rattle.gomp_events.specs.Tasks.{tasks_created, is_odd};
ghost use Rattle.gomp_events.specs.Goals.{may_pass};
ghost use Rattle.gomp_events.specs.Tags.{tag_differs};
ghost use Rattle.gomp_barrier.specs.Calls.{barrier_seen, accepts_arrival, arrived_after, turn_after, MayBind, MayRelease};
ghost use Rattle.gomp_barrier.specs.Seats.{AllCome, seat_accepts};
ghost use Rattle.gomp_barrier.specs.Stands.{BarriersView, Stands, MayTurn, MayLeave, barrier_members, uncancelled};

use crate::bound::BoundTasks;
use crate::front::{
    BarrierSeat, Front, all_there, arrived_at, ends_region, front_after, gone_from,
    has_come_to_end, has_odd_number, is_ahead, number_for, passed_by, tag_for,
};
use gomp_events::Tag;
use std::alloc::{AllocError, Global};
use std::marker::Model;

/// What a member sees of its next barrier.
#[derive(Clone, Copy, Debug, PartialEq, Eq)]
pub struct AtBarrier {
    /// The barrier's number, from 0; it stays at the largest one of its type.
    pub number: u64,
    /// With which tag members have arrived there.
    pub tag: Option<Tag>,
    /// With which tag this member has.
    pub arrived: Option<Tag>,
    /// Whether the member has passed the region's end.
    pub left: bool,
}

/// The barriers of one team, and how many open tasks are bound to them. After `new` no call takes
/// memory.
#[derive(Debug, Drop)]
pub struct Barriers {
    /// Where each member is, by its number.
    seats: Vec<BarrierSeat>,
    /// The barrier that the slowest members come to next.
    front: Front,
    /// How many open tasks are bound to it, and to the one after it.
    tasks: BoundTasks,
    /// Whether the region is cancelled.
    cancelled: bool,
}

impl Model for Barriers {
    ghost use Rattle.std.specs.Prelude.{List};
    ghost use Rattle.gomp_events.specs.declared.event.Event.{Event};
    ghost use Rattle.gomp_barrier.specs.Stands.{BarriersView, Stands};

    ghost Value = { BarriersView };

    ghost view = { λ b. record {
      seats = b.seats.items;
      front = b.front;
      tasks = b.tasks;
      cancelled = b.cancelled;
    } };

    ghost invariant = { λ b. (h : List Event) × Stands (record {
      seats = b.seats.items;
      front = b.front;
      tasks = b.tasks;
      cancelled = b.cancelled;
    }) h };
}

impl Barriers {
    /// The barriers of a new team of `count` members, at least 1 (a team has 1 to 64). It fails
    /// if their memory is refused.
    pub fn new(alloc: Global, count: u16) -> Result<Barriers, AllocError>
        requires some { 0 < count }
        ensures members { IfOk result (λ barriers. barrier_members barriers ≡ count) }
        ensures stands { IfOk result (λ barriers. Stands barriers []) }
    {
        let seat = BarrierSeat {
            odd: false,
            arrived: None,
            left: false,
            gone: false,
        };
        Ok(Barriers {
            seats: vec![in alloc; seat; count as usize]?,
            front: Front {
                odd: false,
                number: 0,
                tag: None,
                next: None,
            },
            tasks: BoundTasks { even: 0, odd: 0 },
            cancelled: false,
        })
    }

    /// What the member, numbered from 0, sees of its next barrier.
    #[inline(always)]
    pub fn look(&self, member: u16) -> AtBarrier
        requires member { member < barrier_members self.now }
        ensures known { (h : List Event) × Stands self.now h }
        ensures value { (h : List Event) → Stands self.now h → result ≡ barrier_seen member h }
    {
        let seat = &self.seats[member as usize];
        AtBarrier {
            number: number_for(&self.front, seat),
            tag: tag_for(&self.front, seat),
            arrived: seat.arrived,
            left: seat.left,
        }
    }

    /// The number of the member's next barrier, as `look` has it; members are numbered from 0.
    #[inline(always)]
    pub fn number(&self, member: u16) -> u64
        requires member { member < barrier_members self.now }
        ensures known { (h : List Event) × Stands self.now h }
        ensures value { (h : List Event) → Stands self.now h →
            result ≡ shown_number (barriers_passed member h) }
    {
        number_for(&self.front, &self.seats[member as usize])
    }

    /// Whether the member, numbered from 0, has passed the region's end.
    #[inline(always)]
    pub fn has_left(&self, member: u16) -> bool
        requires member { member < barrier_members self.now }
        ensures known { (h : List Event) × Stands self.now h }
        ensures value { (h : List Event) → Stands self.now h →
            result ≡ has_left_region member h }
    {
        self.seats[member as usize].left
    }

    /// The member, numbered from 0, arrives at its next barrier with this tag, unless someone
    /// arrived there with another one: then nothing changes, and the answer is false. It is asked
    /// once for each barrier, and not after the region's end: `look` tells both. In a cancelled
    /// region it arrives at the region's end alone, whatever others did, and also if it waits at
    /// another barrier; not once it has passed that end. OpenMP API 5.2, section 16.1.
    pub fn arrive(&mut self, member: u16, tag: Tag) -> bool
        requires member { member < barrier_members self.old }
        ensures members { barrier_members self.new ≡ barrier_members self.old }
        ensures known { (h : List Event) × Stands self.old h }
        ensures answer { (h : List Event) → Stands self.old h →
            result ≡ accepts_arrival member tag h }
        ensures kept { result ≡ false → self.new ≡ self.old }
        ensures stands { (h : List Event) → Stands self.old h →
            Stands self.new (arrived_after result member tag h) }
    {
        let seat = self.seats[member as usize];
        if !accepts(self.cancelled, &self.front, &seat, tag) {
            return false;
        }
        self.seats[member as usize] = BarrierSeat {
            odd: seat.odd,
            arrived: Some(tag),
            left: seat.left,
            gone: seat.gone,
        };
        self.front = arrived_at(&self.front, &seat, tag);
        true
    }

    /// Whether the member, numbered from 0, has passed an odd number of barriers: so whether a task
    /// that is created in its implicit task is bound to a barrier of an odd number.
    pub fn is_odd(&self, member: u16) -> bool
        requires member { member < barrier_members self.now }
        ensures known { (h : List Event) × Stands self.now h }
        ensures value { (h : List Event) → Stands self.now h →
            result ≡ is_odd (barriers_passed member h) }
    {
        has_odd_number(&self.seats[member as usize])
    }

    /// Whether the member, numbered from 0, waits at a barrier: it has arrived there, and has not
    /// passed it.
    #[inline(always)]
    pub fn at_barrier(&self, member: u16) -> bool
        requires member { member < barrier_members self.now }
        ensures known { (h : List Event) × Stands self.now h }
        ensures value { (h : List Event) → Stands self.now h → result ≡ at_barrier member h }
    {
        self.seats[member as usize].arrived.is_some()
    }

    /// The member, numbered from 0, passes its next barrier if every member has arrived there and
    /// every task that is bound to it is complete; at the region's end, if every task is. In a
    /// cancelled region it passes the region's end alone, and that once. Else nothing changes, and
    /// the answer is false.
    pub fn turn(&mut self, member: u16) -> bool
        requires member { member < barrier_members self.old }
        ensures members { barrier_members self.new ≡ barrier_members self.old }
        ensures known { (h : List Event) × Stands self.old h }
        ensures answer { (h : List Event) → Stands self.old h →
            result ≡ may_pass (barrier_members self.old) member h }
        ensures kept { result ≡ false → self.new ≡ self.old }
        ensures stands { (h : List Event) → Stands self.old h →
            Stands self.new (turn_after result member h) }
    {
        let seat = &self.seats[member as usize];
        if self.cancelled {
            if !may_leave(&self.seats, &self.tasks, seat) {
                return false;
            }
            let gone = gone_from(seat);
            self.seats[member as usize] = gone;
            return true;
        }
        if !may_turn(&self.seats, &self.front, &self.tasks, seat) {
            return false;
        }
        let passed = passed_by(seat, ends_region(seat.arrived));
        self.seats[member as usize] = passed;
        self.front = front_after(&self.front, &self.seats);
        true
    }

    /// A task was created, bound to a barrier whose number has this parity (`odd`): the next one of
    /// the member in whose implicit task its tree begins. `is_odd` tells that of a child of an
    /// implicit task; a child of an explicit task has its parent's.
    pub fn bind(&mut self, odd: bool)
        requires may { (h : List Event) × (task : ℕ) × (parent : Task) × Stands self.old h ×
            MayBind (barrier_members self.old) task parent odd h }
        requires room { (h : List Event) × Stands self.old h × (tasks_created h < u32.MAX) }
        ensures members { barrier_members self.new ≡ barrier_members self.old }
        ensures stands { (h : List Event) (task member : ℕ) (parent : Task) (desc : TaskDesc) →
            Stands self.old h → MayBind (barrier_members self.old) task parent odd h →
            Stands self.new (Create task member parent desc ∷ h) }
    {
        self.tasks = self.tasks.one_more(odd);
    }

    /// A task was ended that was bound to a barrier whose number has this parity (`odd`).
    pub fn release(&mut self, odd: bool)
        requires may { (h : List Event) × (task : ℕ) × Stands self.old h × MayRelease task odd h }
        ensures members { barrier_members self.new ≡ barrier_members self.old }
        ensures stands { (h : List Event) (task member : ℕ) → Stands self.old h →
            MayRelease task odd h → Stands self.new (Done task member ∷ h) }
    {
        self.tasks = self.tasks.one_less(odd);
    }

    /// A task was discarded, by a cancellation, that was bound to a barrier whose number has this
    /// parity (`odd`). OpenMP API 5.2, section 16.1.
    pub fn discard(&mut self, odd: bool)
        requires may { (h : List Event) × (task : ℕ) × Stands self.old h × MayRelease task odd h }
        ensures members { barrier_members self.new ≡ barrier_members self.old }
        ensures stands { (h : List Event) (task member : ℕ) → Stands self.old h →
            MayRelease task odd h → Stands self.new (Discard task member ∷ h) }
    {
        let others = self.tasks.one_less(odd);
        self.tasks = others;
    }

    /// Whether some member has cancelled the region. OpenMP API 5.2, section 16.1.
    #[inline(always)]
    pub fn is_cancelled(&self) -> bool
        ensures known { (h : List Event) × Stands self.now h }
        ensures value { (h : List Event) → Stands self.now h → result ≡ is_cancelled h }
    {
        let Barriers { cancelled, .. } = self;
        *cancelled
    }

    /// Some member cancelled the region: from now on members arrive at the region's end alone. It
    /// changes nothing if the region is cancelled already. OpenMP API 5.2, section 16.1.
    pub fn cancel(&mut self)
        ensures members { barrier_members self.new ≡ barrier_members self.old }
        ensures known { (h : List Event) × Stands self.old h }
        ensures stands { (h : List Event) (member : ℕ) → Stands self.old h →
            Stands self.new (Cancel member Region ∷ h) }
    {
        self.cancelled = true;
    }
}

/// Whether an arrival of the member with this tag is accepted.
fn accepts(cancelled: bool, front: &Front, member: &BarrierSeat, tag: Tag) -> bool
    ensures value { result ≡ seat_accepts cancelled front.now member.now tag }
{
    if cancelled {
        ends_region(Some(tag)) && !member.left
    } else {
        !differs(tag, tag_for(front, member))
    }
}

/// Whether every member has arrived at the region's end, or has passed it.
fn all_come_to_end(members: &[BarrierSeat]) -> bool
    ensures { IsTrue result ↔ AllCome members.now }
{
    members.iter().all(|member| has_come_to_end(member))
}

/// Whether the member may pass the end of a cancelled region.
fn may_leave(seats: &[BarrierSeat], tasks: &BoundTasks, member: &BarrierSeat) -> bool
    ensures { IsTrue result ↔ MayLeave seats.now tasks.now member.now }
{
    !member.left && tasks.even == 0 && tasks.odd == 0 && all_come_to_end(seats)
}

/// Whether the member may pass its next barrier, in a region that is not cancelled.
fn may_turn(seats: &[BarrierSeat], front: &Front, tasks: &BoundTasks, member: &BarrierSeat) -> bool
    ensures { IsTrue result ↔ MayTurn (uncancelled seats.now front.now tasks.now) member.now }
{
    // The tasks first: to ask them takes no step for each member.
    !is_ahead(front, member)
        && tasks.count(front.odd) == 0
        && (!has_come_to_end(member) || tasks.count(!front.odd) == 0)
        && all_there(front, seats)
}

/// Whether some member arrived with another tag.
fn differs(tag: Tag, others: Option<Tag>) -> bool
    ensures value { result ≡ tag_differs tag others }
{
    match others {
        Some(other) => !other.is_same(&tag),
        None => false,
    }
}

//! What a team asks its board before it makes a call: its barriers, why it is broken, and which of
//! the tests of a call hold. OpenMP API 5.2, chapter 12 and sections 15.3 to 15.5.

ghost use Rattle.std.specs.Prelude.{◌≡◌, ◌<◌, List};
ghost use Rattle.gomp_events.specs.declared.event.Event.{Event};
ghost use Rattle.gomp_types.specs.Least.{least};
ghost use Rattle.gomp_events.specs.Cancels.{is_cancelled};
ghost use Rattle.gomp_events.specs.CancelCalls.{cancel_tests, creates_covered};
ghost use Rattle.gomp_events.specs.TaskCalls.{outside_tasks_tests, group_open_tests, items_tests, create_tests, end_task_tests, end_region_tests, end_group_tests, room_tests};
ghost use Rattle.gomp_barrier.specs.Stands.{barrier_members};
ghost use Rattle.gomp_board.specs.Ops.{named_kind};
ghost use Rattle.gomp_board.specs.Boards.{Stands, HasMembers, members_of};

use crate::board::Board;
use crate::op::TeamCancel;
use crate::refusals::{first, has_too_many};
use gomp_barrier::Barriers;
use gomp_types::{Clash, Dep, Limits, Refusal};

impl Board {
    /// The team's barriers: who has arrived where.
    #[inline(always)]
    pub fn barriers(&self) -> &Barriers
        ensures value { result.now ≡ self.now.scheduler.barriers }
        ensures members { barrier_members result.now ≡ members_of self.now }
    {
        self.scheduler.barriers()
    }

    /// By whom and where the team was broken, if it was.
    pub fn clash(&self) -> Option<Clash>
        ensures value { result ≡ self.now.clash }
    {
        self.clash
    }

    /// The team's limits, none above the standard one.
    pub fn limits(&self) -> Limits
        ensures value { result ≡ self.now.limits }
    {
        self.limits
    }

    /// Why the member, numbered from 0, does not make a call that no explicit task makes:
    /// `InsideTask` if it executes one (OpenMP API 5.2, section 17.1).
    #[inline(always)]
    pub fn inside_task_refusal(&self, member: u16) -> Option<Refusal>
        requires member { member < members_of self.now }
        ensures value { (h : List Event) → Stands self.now h →
            result ≡ least (outside_tasks_tests member h) }
    {
        first(self.scheduler.in_task(member), Refusal::InsideTask, None)
    }

    /// Why the member leaves no group open: `GroupOpen` if the task that it executes has one open.
    pub fn group_open_refusal(&self, member: u16) -> Option<Refusal>
        requires member { member < members_of self.now }
        ensures value { (h : List Event) → Stands self.now h →
            result ≡ least (group_open_tests member h) }
    {
        first(
            self.scheduler.has_group_open(member),
            Refusal::GroupOpen,
            None,
        )
    }

    /// Why the member does not create a task: `TooDeep` if the task that it executes lies as deep as a task
    /// may, `TooManyTasks` if the team has created as many as its limits allow, `TooManyDepends` if it
    /// has more than 16 items (section 12.5).
    pub fn create_place_refusal(&self, member: u16, items: &[Dep]) -> Option<Refusal>
        requires member { member < members_of self.now }
        ensures value { (h : List Event) → Stands self.now h →
            result ≡ least (create_tests self.now.limits items.now member h) }
    {
        let named = items_refusal(items);
        let many = first(
            self.scheduler.has_created(self.limits.tasks),
            Refusal::TooManyTasks,
            named,
        );
        first(self.scheduler.is_deepest(member), Refusal::TooDeep, many)
    }

    /// Whether a cancellation would reach a task that the member creates now: then none is created, and the
    /// answer is `Dropped` (section 16.1).
    pub fn drops_creation(&self, member: u16) -> bool
        requires member { member < members_of self.now }
        ensures members { HasMembers self.now }
        ensures value { (h : List Event) → Stands self.now h → result ≡ creates_covered member h }
    {
        self.scheduler.drops_creation(member)
    }

    /// Why the member does not end a task: `NotInTask` if it executes none, `GroupOpen` if that has a group
    /// open. `leaving` says that the member leaves the task, and gives up its groups (section 16.1).
    pub fn end_task_place_refusal(&self, member: u16, leaving: bool) -> Option<Refusal>
        requires member { member < members_of self.now }
        ensures value { (h : List Event) → Stands self.now h →
            result ≡ least (end_task_tests leaving member h) }
    {
        let open = first(
            self.scheduler.keeps_group_open(member, leaving),
            Refusal::GroupOpen,
            None,
        );
        first(!self.scheduler.in_task(member), Refusal::NotInTask, open)
    }

    /// Why the member does not end the region: `InsideTask` if it executes a task, `GroupOpen` if a group is
    /// open. `leaving` says that the member leaves the region, and gives up its groups (section 16.1).
    pub fn region_end_place_refusal(&self, member: u16, leaving: bool) -> Option<Refusal>
        requires member { member < members_of self.now }
        ensures value { (h : List Event) → Stands self.now h →
            result ≡ least (end_region_tests leaving member h) }
    {
        let open = first(
            self.scheduler.keeps_group_open(member, leaving),
            Refusal::GroupOpen,
            None,
        );
        first(self.scheduler.in_task(member), Refusal::InsideTask, open)
    }

    /// Why a cancel or a cancellation point construct of it does not name this: `InsideTask` if it
    /// names the region in a task; `NotInTask` if it names a group in none, `NoGroup` if the end of no
    /// group waits for the task, `GroupOpen` if the task has a group open (sections 16.1 and 16.2).
    pub fn cancel_place_refusal(&self, member: u16, named: TeamCancel) -> Option<Refusal>
        requires member { member < members_of self.now }
        ensures value { (h : List Event) → Stands self.now h →
            result ≡ least (cancel_tests (named_kind named) member h) }
    {
        self.cancel_place_or(member, named, None)
    }

    /// Whether the region is cancelled (section 16.1).
    pub fn is_cancelled(&self) -> bool
        ensures value { (h : List Event) → Stands self.now h → result ≡ is_cancelled h }
    {
        self.scheduler.is_cancelled()
    }

    /// Why the member does not end a group: `NoGroup` if the task that it executes has none open (section
    /// 15.4).
    pub fn end_group_place_refusal(&self, member: u16) -> Option<Refusal>
        requires member { member < members_of self.now }
        ensures value { (h : List Event) → Stands self.now h →
            result ≡ least (end_group_tests member h) }
    {
        first(
            !self.scheduler.has_group_open(member),
            Refusal::NoGroup,
            None,
        )
    }

    /// Why no room is asked for so many events more: `TraceFull` if the team's limit does not allow
    /// it. There is always room for none.
    #[inline(always)]
    pub fn room_refusal(&self, more: u32) -> Option<Refusal>
        ensures value { result ≡ least (room_tests self.now.limits self.now.room more) }
    {
        first(self.lacks_room(more), Refusal::TraceFull, None)
    }
}

/// Why no `depend` clause has these items: `TooManyDepends` if there are more than 16, counted as
/// they are written (own).
pub fn items_refusal(items: &[Dep]) -> Option<Refusal>
    ensures { result ≡ least (items_tests items.now) }
{
    first(has_too_many(items), Refusal::TooManyDepends, None)
}

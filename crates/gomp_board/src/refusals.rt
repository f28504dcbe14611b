//! Why an operation is refused.

ghost use Rattle.std.specs.Prelude.{◌≡◌, ◌<◌, List, ◌++◌, ◌&&◌, not, Option, Some, None, if◌then◌else◌, nat_lt, length, reverse};
ghost use Rattle.gomp_events.specs.declared.event.Event.{Event};
ghost use Rattle.gomp_types.specs.declared.depend.Dep.{Dep};
ghost use Rattle.gomp_types.specs.declared.limits.TheConstants.{MAX_DEPENDS};
ghost use Rattle.gomp_types.specs.declared.refusal.Refusal.TheVariants.{Mismatch};
ghost use Rattle.gomp_events.specs.CancelCalls.{cancel_tests, cancel_room, creates_covered};
ghost use Rattle.gomp_events.specs.Tasks.{in_task};
ghost use Rattle.gomp_types.specs.Tests.{Test, first_holding};
ghost use Rattle.gomp_events.specs.TaskCalls.{lacks_room, create_tests, end_task_tests, end_group_tests, outside_tasks_tests, room_tests};
ghost use Rattle.gomp_events.specs.declared.room.TheConstants.{GROUP_ROOM, TASK_ROOM};
ghost use Rattle.gomp_board.specs.declared.op.Op.TheVariants.{Arrive};
ghost use Rattle.gomp_board.specs.Ops.{op_refusal, op_tests, op_member_tests, busy_tests, region_end_tests, creation_room_tests, arrival_asks, words_ask, awaits_barrier, named_kind};
ghost use Rattle.gomp_board.specs.Boards.{Stands, members_of, kept_by};

use crate::arrivals::arrival_asks;
use crate::board::Board;
use crate::op::{Op, TeamCancel};
use crate::words::words_ask;
use gomp_events::{Arrival, CANCEL_ROOM, GROUP_ROOM, TASK_ROOM, Tag};
use gomp_types::{Dep, MAX_DEPENDS, Place, Refusal};

impl Board {
    /// Why the operation of the member, numbered from 0, is refused, want of memory aside: of the
    /// tests that hold the one whose refusal has the least number. `Ended` and `Broken` may refuse
    /// any; `Waiting`, `InsideTask`, `NotInTask`, `NotInside`, `NoGroup`, `GroupOpen`, `TooDeep`,
    /// `TooManyTasks`, `TooManyDepends`, `Mismatch` and `TraceFull` those that have such a test (`op_tests` in
    /// specs/Ops.antt).
    pub fn first_refusal(&self, member: u16, op: &Op) -> Option<Refusal>
        requires member { member < members_of self.now }
        ensures known { Stands self.now (reverse self.now.history) }
        ensures value { (h : List Event) → Stands self.now h → result ≡ op_refusal
            self.now.limits self.now.room (kept_by member self.now) member op.now h }
    {
        match self.member_refusal(member) {
            Some(refusal) => Some(refusal),
            None => self.op_tests_refusal(member, op),
        }
    }

    /// Why any operation of the member is refused: it has passed the region's end, or the team is
    /// broken.
    fn member_refusal(&self, member: u16) -> Option<Refusal>
        requires member { member < members_of self.now }
        ensures known { Stands self.now (reverse self.now.history) }
        ensures value { (h : List Event) → Stands self.now h →
            result ≡ first_holding (op_member_tests member h) }
    {
        if self.scheduler.has_left(member) {
            return Some(Refusal::Ended);
        }
        match self.clash {
            Some(clash) => Some(Refusal::Broken(clash)),
            None => None,
        }
    }

    /// Why the tests of the operation itself refuse it.
    fn op_tests_refusal(&self, member: u16, op: &Op) -> Option<Refusal>
        requires member { member < members_of self.now }
        ensures value { (h : List Event) → Stands self.now h → result ≡ first_holding
            (op_tests self.now.limits self.now.room (kept_by member self.now) member op.now h) }
    {
        match op {
            Op::Create(desc) => self.create_refusal(member, desc.deps.as_slice()),
            Op::AwaitOwn => first(self.scheduler.is_busy(member), Refusal::Waiting, None),
            Op::EndTask(leaving) => self.end_task_refusal(member, *leaving),
            Op::Taskwait(items) => {
                let many = has_too_many(items.as_slice());
                let counted = first(many, Refusal::TooManyDepends, None);
                first(self.scheduler.is_busy(member), Refusal::Waiting, counted)
            }
            Op::AwaitChildren(_) => first(self.scheduler.is_busy(member), Refusal::Waiting, None),
            Op::OpenGroup => self.growth_refusal(member, GROUP_ROOM),
            Op::EndGroup => self.end_group_refusal(member),
            Op::AwaitGroup => first(self.scheduler.is_busy(member), Refusal::Waiting, None),
            Op::Arrive { tag, leaving } => self.arrive_refusal(member, *tag, *leaving),
            Op::AwaitBarrier => first(
                !self.scheduler.awaits_barrier(member),
                Refusal::NotInside,
                None,
            ),
            Op::Reserve(more) => self.reserve_refusal(member, *more),
            Op::Put { .. } => self.reserve_refusal(member, self.words_room(member)),
            Op::Got { .. } => self.growth_refusal(member, self.words_room(member)),
            Op::Cancel { named, .. } => self.cancel_refusal(member, *named),
            Op::Point { named, .. } => self.point_refusal(member, *named),
            Op::Break { place, .. } => first(
                !matches!(place, Place::Stopped),
                Refusal::Mismatch,
                None,
            ),
        }
    }

    /// Why a task with these items is not created.
    fn create_refusal(&self, member: u16, items: &[Dep]) -> Option<Refusal>
        requires member { member < members_of self.now }
        ensures value { (h : List Event) → Stands self.now h → result ≡ first_holding
            (busy_tests member h ++ (create_tests self.now.limits items.now member h
            ++ creation_room_tests (creates_covered member h) self.now.limits self.now.room)) }
    {
        if self.scheduler.is_busy(member) {
            return Some(Refusal::Waiting);
        }
        if self.scheduler.is_deepest(member) {
            return Some(Refusal::TooDeep);
        }
        if self.scheduler.has_created(self.limits.tasks) {
            return Some(Refusal::TooManyTasks);
        }
        let full = first(self.lacks_task_room(member), Refusal::TraceFull, None);
        first(has_too_many(items), Refusal::TooManyDepends, full)
    }

    /// Whether no room is left for a task that the member creates; one that is dropped asks for none.
    fn lacks_task_room(&self, member: u16) -> bool
        requires member { member < members_of self.now }
        ensures value { (h : List Event) → Stands self.now h → result
            ≡ (lacks_room self.now.limits.events self.now.room TASK_ROOM
            && not (creates_covered member h)) }
    {
        self.lacks_room(TASK_ROOM) && !self.drops_creation(member)
    }

    /// Why a task is not ended.
    fn end_task_refusal(&self, member: u16, leaving: bool) -> Option<Refusal>
        requires member { member < members_of self.now }
        ensures value { (h : List Event) → Stands self.now h →
            result ≡ first_holding (busy_tests member h ++ end_task_tests leaving member h) }
    {
        if self.scheduler.is_busy(member) {
            return Some(Refusal::Waiting);
        }
        if !self.scheduler.in_task(member) {
            return Some(Refusal::NotInTask);
        }
        first(
            self.scheduler.keeps_group_open(member, leaving),
            Refusal::GroupOpen,
            None,
        )
    }

    /// Why no room is made for so many events of a member, which may be in a task: those of a group, or
    /// of the words that it is given, since it was let into its single when it came to that.
    fn growth_refusal(&self, member: u16, more: u32) -> Option<Refusal>
        requires member { member < members_of self.now }
        ensures value { (h : List Event) → Stands self.now h → result ≡ first_holding
            (busy_tests member h ++ room_tests self.now.limits self.now.room more) }
    {
        let full = first(self.lacks_room(more), Refusal::TraceFull, None);
        first(self.scheduler.is_busy(member), Refusal::Waiting, full)
    }

    /// Why a group is not ended.
    fn end_group_refusal(&self, member: u16) -> Option<Refusal>
        requires member { member < members_of self.now }
        ensures value { (h : List Event) → Stands self.now h →
            result ≡ first_holding (busy_tests member h ++ end_group_tests member h) }
    {
        let closed = first(
            !self.scheduler.has_group_open(member),
            Refusal::NoGroup,
            None,
        );
        first(self.scheduler.is_busy(member), Refusal::Waiting, closed)
    }

    /// Why an arrival is not accepted.
    fn arrive_refusal(&self, member: u16, tag: Tag, leaving: bool) -> Option<Refusal>
        requires member { member < members_of self.now }
        ensures value { (h : List Event) → Stands self.now h →
            result ≡ first_holding (op_tests self.now.limits self.now.room
            (kept_by member self.now) member (Arrive tag leaving) h) }
    {
        if self.scheduler.is_busy(member) {
            return Some(Refusal::Waiting);
        }
        if self.scheduler.in_task(member) {
            return Some(Refusal::InsideTask);
        }
        let asked = arrival_asks(tag.kind, self.kept[member as usize]);
        let full = first(self.lacks_room(asked), Refusal::TraceFull, None);
        let other = first(self.scheduler.differs(member, tag), Refusal::Mismatch, full);
        self.region_end_or(member, tag.kind, leaving, other)
    }

    /// Why a member does not arrive at the region's end, and else the other refusal.
    fn region_end_or(
        &self,
        member: u16,
        kind: Arrival,
        leaving: bool,
        other: Option<Refusal>,
    ) -> Option<Refusal>
        requires member { member < members_of self.now }
        ensures value { (h : List Event) (tests : List Test) → Stands self.now h →
            other ≡ first_holding tests →
            result ≡ first_holding (region_end_tests kind leaving member h ++ tests) }
    {
        match kind {
            Arrival::RegionEnd => {
                first(
                    self.scheduler.keeps_group_open(member, leaving),
                    Refusal::GroupOpen,
                    other,
                )
            }
            Arrival::Barrier => other,
            Arrival::ShareEnd => other,
        }
    }

    /// Why no room is kept.
    fn reserve_refusal(&self, member: u16, more: u32) -> Option<Refusal>
        requires member { member < members_of self.now }
        ensures value { (h : List Event) → Stands self.now h → result ≡ first_holding
            (busy_tests member h ++ (outside_tasks_tests member h
            ++ room_tests self.now.limits self.now.room more)) }
    {
        let full = first(self.lacks_room(more), Refusal::TraceFull, None);
        let inside = first(self.scheduler.in_task(member), Refusal::InsideTask, full);
        first(self.scheduler.is_busy(member), Refusal::Waiting, inside)
    }

    /// Why nothing is cancelled.
    fn cancel_refusal(&self, member: u16, named: TeamCancel) -> Option<Refusal>
        requires member { member < members_of self.now }
        ensures value { (h : List Event) → Stands self.now h → result ≡ first_holding
            (busy_tests member h ++ (cancel_tests (named_kind named) member h
            ++ room_tests self.now.limits self.now.room (cancel_room (named_kind named)))) }
    {
        let full = first(self.lacks_room(CANCEL_ROOM), Refusal::TraceFull, None);
        let placed = self.cancel_place_or(member, named, full);
        first(self.scheduler.is_busy(member), Refusal::Waiting, placed)
    }

    /// Why a cancellation point is not answered.
    fn point_refusal(&self, member: u16, named: TeamCancel) -> Option<Refusal>
        requires member { member < members_of self.now }
        ensures value { (h : List Event) → Stands self.now h → result ≡ first_holding
            (busy_tests member h ++ cancel_tests (named_kind named) member h) }
    {
        let placed = self.cancel_place_or(member, named, None);
        first(self.scheduler.is_busy(member), Refusal::Waiting, placed)
    }

    /// Why a construct does not name this where the member is, and else the other refusal.
    pub(crate) fn cancel_place_or(
        &self,
        member: u16,
        named: TeamCancel,
        other: Option<Refusal>,
    ) -> Option<Refusal>
        requires member { member < members_of self.now }
        ensures value { (h : List Event) (tests : List Test) → Stands self.now h →
            other ≡ first_holding tests →
            result ≡ first_holding (cancel_tests (named_kind named) member h ++ tests) }
    {
        match named {
            TeamCancel::Parallel => first(
                self.scheduler.in_task(member),
                Refusal::InsideTask,
                other,
            ),
            TeamCancel::Taskgroup => {
                let open = first(
                    self.scheduler.has_group_open(member),
                    Refusal::GroupOpen,
                    other,
                );
                let around = first(!self.scheduler.is_in_group(member), Refusal::NoGroup, open);
                first(!self.scheduler.in_task(member), Refusal::NotInTask, around)
            }
        }
    }

    /// The room that words of the member ask for.
    fn words_room(&self, member: u16) -> u32
        requires member { member < members_of self.now }
        ensures { result ≡ words_ask (kept_by member self.now) }
    {
        words_ask(self.kept[member as usize])
    }

    /// Whether so much more room is asked for than the limit allows.
    #[inline(always)]
    pub(crate) fn lacks_room(&self, more: u32) -> bool
        ensures { result ≡ lacks_room self.now.limits.events self.now.room more }
    {
        let limit = self.limits.events as u64;
        let wanted = self.room as u64 + more as u64;
        more > 0 && limit < wanted
    }
}

/// Whether both hold.
pub(crate) fn both(one: bool, other: bool) -> bool
    ensures { result ≡ (one && other) }
{
    one && other
}

/// Whether a `depend` clause has more items than it may have.
pub(crate) fn has_too_many(items: &[Dep]) -> bool
    ensures { result ≡ nat_lt MAX_DEPENDS (length items.now) }
{
    MAX_DEPENDS < items.len()
}

/// The refusal if the test holds, and else the other one.
#[inline(always)]
pub(crate) fn first(holds: bool, refusal: Refusal, other: Option<Refusal>) -> Option<Refusal>
    ensures { result ≡ (if holds then Some refusal else other) }
{
    if holds { Some(refusal) } else { other }
}

//! Groups of tasks. OpenMP API 5.2, section 15.4.

ghost use Rattle.std.specs.Prelude.{◌≡◌, ◌<◌, ◌∷◌, ◌&&◌, not, List, true, Some, IfSome, length};
ghost use Rattle.gomp_events.specs.declared.event.Event.{Event};
ghost use Rattle.gomp_events.specs.declared.event.Event.TheVariants.{Group, GroupEnd};
ghost use Rattle.gomp_events.specs.Tasks.{executed_task};
ghost use Rattle.gomp_events.specs.Groups.{groups_opened, open_groups};
ghost use Rattle.gomp_events.specs.Cancels.{first_in, groups_over};
ghost use Rattle.gomp_events.specs.TaskCalls.{group_is_open, has_some, last_complete};
ghost use Rattle.gomp_scheduler.specs.Schedulers.{Stands, HasGroupRoom, SchedulerHasMembers, scheduler_members};

use crate::scheduler::Scheduler;

impl Scheduler {
    /// The member, numbered from 0, opens the next group in the task that it executes. There has to be
    /// memory for it (`reserve_group`). The answer is its number, from 0.
    pub fn open_group(&mut self, member: u16) -> u64
        requires member { member < scheduler_members self.old }
        requires room { HasGroupRoom self.old }
        ensures number { (h : List Event) → Stands self.old h → result ≡ groups_opened h }
        ensures members { SchedulerHasMembers (scheduler_members self.old) self.new }
        ensures stands { (h : List Event) → Stands self.old h →
            Stands self.new (Group result member ∷ h) }
    {
        let task = self.tasks.current(member);
        let group = self.groups.open(task);
        self.cancelled.open();
        group
    }

    /// The member ends the last open group of the task that it executes, whose tasks are complete. The
    /// answer is its number.
    pub fn close_group(&mut self, member: u16) -> u64
        requires member { member < scheduler_members self.old }
        requires done { (h : List Event) × Stands self.old h ×
            (last_complete (open_groups (executed_task member h) h) h ≡ true) }
        ensures group { (h : List Event) → Stands self.old h →
            first_in (open_groups (executed_task member h) h) ≡ Some result }
        ensures members { SchedulerHasMembers (scheduler_members self.old) self.new }
        ensures stands { (h : List Event) → Stands self.old h →
            last_complete (open_groups (executed_task member h) h) h ≡ true →
            Stands self.new (GroupEnd result member ∷ h) }
    {
        let task = self.tasks.current(member);
        let Some(group) = self.groups.last_open(task) else {
            unreachable!()
        };
        self.groups.close(task);
        group
    }

    /// Whether all tasks of the last open group of the task that the member executes are complete;
    /// false if none is open.
    pub fn last_group_is_done(&self, member: u16) -> bool
        requires member { member < scheduler_members self.now }
        ensures value { (h : List Event) → Stands self.now h →
            result ≡ last_complete (open_groups (executed_task member h) h) h }
    {
        match self.groups.last_open(self.tasks.current(member)) {
            Some(group) => self.groups.is_done(group),
            None => false,
        }
    }

    /// Whether that task has opened a group and not ended it.
    pub fn has_group_open(&self, member: u16) -> bool
        requires member { member < scheduler_members self.now }
        ensures value { (h : List Event) → Stands self.now h → result ≡ group_is_open member h }
    {
        let task = self.tasks.current(member);
        match self.groups.last_open(task) {
            Some(_) => true,
            None => false,
        }
    }

    /// Whether the member leaves a group of its task open: it has one, and does not give it up.
    pub fn keeps_group_open(&self, member: u16, leaving: bool) -> bool
        requires member { member < scheduler_members self.now }
        ensures value { (h : List Event) → Stands self.now h →
            result ≡ (not leaving && group_is_open member h) }
    {
        !leaving && self.has_group_open(member)
    }

    /// The innermost of the groups whose ends wait for the task that the member executes: what a
    /// construct names that cancels a group there (section 16.1).
    pub fn innermost_group(&self, member: u16) -> Option<u64>
        requires member { member < scheduler_members self.now }
        ensures value { (h : List Event) → Stands self.now h →
            result ≡ first_in (groups_over (executed_task member h) h) }
        ensures opened { IfSome result (λ group. group < length self.now.cancelled.marks) }
    {
        self.groups.innermost_around(self.tasks.current(member))
    }

    /// Whether a group's end waits for the task that the member executes.
    pub fn is_in_group(&self, member: u16) -> bool
        requires member { member < scheduler_members self.now }
        ensures value { (h : List Event) → Stands self.now h →
            result ≡ has_some (groups_over (executed_task member h) h) }
    {
        match self.groups.innermost_around(self.tasks.current(member)) {
            Some(_) => true,
            None => false,
        }
    }
}

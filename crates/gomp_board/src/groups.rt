//! Groups of tasks. OpenMP API 5.2, section 15.4.

ghost use Rattle.std.specs.Prelude.{◌≡◌, ◌<◌, ◌≤◌, ◌+◌, ◌++◌, List, true, OnOk, reverse};
ghost use Rattle.gomp_events.specs.declared.event.Event.{Event};
ghost use Rattle.gomp_types.specs.declared.reply.Reply.TheVariants.{Wait};
ghost use Rattle.gomp_events.specs.Tasks.{executed_task};
ghost use Rattle.gomp_events.specs.Groups.{open_groups};
ghost use Rattle.gomp_events.specs.TaskCalls.{last_complete, ends_first, AwaitsGroup, ends_group};
ghost use Rattle.gomp_scheduler.specs.Schedulers.{HasGrown, HasGroupRoom};
ghost use Rattle.gomp_board.specs.Boards.{IsOpAdmitted, Performs, Stands, members_of};
ghost use Rattle.gomp_board.specs.declared.op.Op.TheVariants.{OpenGroup};

use crate::answer::{Answer, FINISHED, NO_MEMORY, PASSED};
use crate::board::Board;
use gomp_events::{Event, GROUP_ROOM};
use gomp_history::History;
use gomp_scheduler::Scheduler;
use std::alloc::AllocError;

impl Board {
    /// The member opens a group in the task that it executes.
    pub(crate) fn open_group(&mut self, member: u16) -> Answer
        requires member { member < members_of self.old }
        requires admitted { IsOpAdmitted OpenGroup member self.old }
        ensures performs { Performs OpenGroup member self.old self.new result }
    {
        let room = self.room + GROUP_ROOM;
        if reserve_group(&mut self.history, room, &mut self.scheduler).is_err() {
            return Answer(NO_MEMORY);
        }
        let group = self.scheduler.open_group(member);
        self.history.push(Event::Group { group, member });
        self.room += GROUP_ROOM;
        Answer(FINISHED)
    }

    /// The member ends its last open group if the group's tasks are complete; else it executes a
    /// task, or waits.
    pub(crate) fn end_group_admitted(&mut self, member: u16) -> Answer
        requires member { member < members_of self.old }
        ensures known { Stands self.old (reverse self.old.history) }
        ensures answer { (h : List Event) → Stands self.old h → AwaitsGroup member h result }
        ensures stands { (h : List Event) → Stands self.old h →
            Stands self.new (ends_group member h result ++ h) }
        ensures limits { self.new.limits ≡ self.old.limits }
        ensures room { self.new.room ≡ self.old.room }
        ensures kept { self.new.kept ≡ self.old.kept }
        ensures waits { result ≡ Wait → self.new ≡ self.old }
    {
        if self.scheduler.last_group_is_done(member) {
            self.close_group(member);
            Answer(PASSED)
        } else {
            self.run_or_wait(member)
        }
    }

    /// The member ends that group, whose tasks are complete.
    fn close_group(&mut self, member: u16)
        requires member { member < members_of self.old }
        requires done { (h : List Event) → Stands self.old h →
            last_complete (open_groups (executed_task member h) h) h ≡ true }
        ensures stands { (h : List Event) → Stands self.old h →
            Stands self.new (ends_first (open_groups (executed_task member h) h) member ++ h) }
        ensures limits { self.new.limits ≡ self.old.limits }
        ensures room { self.new.room ≡ self.old.room }
        ensures kept { self.new.kept ≡ self.old.kept }
    {
        let group = self.scheduler.close_group(member);
        self.history.push(Event::GroupEnd { group, member });
    }
}

/// Makes memory for one more group, and for so many events in all.
fn reserve_group(
    history: &mut History,
    room: u32,
    scheduler: &mut Scheduler,
) -> Result<(), AllocError>
    ensures history { history.new.events ≡ history.old.events }
    ensures grows { history.old.capacity ≤ history.new.capacity }
    ensures space { OnOk result (room ≤ history.new.capacity) }
    ensures scheduler { HasGrown scheduler.old scheduler.new }
    ensures group_room { OnOk result (HasGroupRoom scheduler.new) }
{
    scheduler.reserve_group()?;
    history.reserve(room)
}

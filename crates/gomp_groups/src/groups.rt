//! The groups of a team that one thread steps.

ghost use Rattle.std.specs.Prelude.{◌≡◌, ◌<◌, ◌≤◌, ◌+◌, ◌-◌, ◌∷◌, ℕ, List, [], false, length, min, IfOk, IfSome, OnOk, OnErr, IsOk};
ghost use Rattle.std.proofs.Common.{suc};
ghost use Rattle.gomp_types.specs.declared.task.TaskDesc.{TaskDesc};
ghost use Rattle.gomp_events.specs.declared.event.Event.{Event};
ghost use Rattle.gomp_events.specs.declared.event.Event.TheVariants.{Create, Done, Discard, Group, GroupEnd};
ghost use Rattle.gomp_events.specs.Tasks.{tasks_created};
ghost use Rattle.gomp_events.specs.Groups.{groups_opened, in_group, group_complete};
ghost use Rattle.gomp_events.specs.Goals.{children_complete};
ghost use Rattle.gomp_events.specs.Cancels.{first_in, groups_over, groups_within};
ghost use Rattle.gomp_events.specs.TaskRules.{MayEnd, MayDiscard};
ghost use Rattle.gomp_growth.specs.Growth.{growth_of, room_made};
ghost use Rattle.gomp_rows.specs.declared.rows.TheConstants.{MAX_ROWS};
ghost use Rattle.gomp_groups.specs.declared.links.TheConstants.{MAX_GROUPS};
ghost use Rattle.gomp_groups.specs.Rows.{some_marked};
ghost use Rattle.gomp_groups.specs.Stands.{Stands, IsSeated, group_members};
ghost use Rattle.gomp_groups.specs.Calls.{last_open, tasks_before, IsLastOf, Executes, MayClose, MayCreateIn, MayComplete};

use crate::links::{GroupLink, MAX_GROUPS};
use crate::rows::{
    GroupRow, GroupSeat, SeatedTask, add_child, add_task, end_child, end_row, has_mark, open_group,
    put_seat, remove_task, seat_of,
};
use gomp_growth::reserve_one;
use gomp_rows::Rows;
use gomp_types::Task;
use std::alloc::{AllocError, Global};
use std::marker::Model;

/// The groups of one team's tasks, numbered from 0 in the order in which they are opened. An explicit
/// task has a row until it is complete and no child of it is open. A call that asks for a task of the
/// team takes one that has a row, or a member's implicit task. Only `new`, `reserve_task` and
/// `reserve_group` take memory (OpenMP API 5.2, section 15.4).
#[derive(Drop)]
pub struct Groups {
    /// The groups, by their numbers.
    groups: Vec<GroupRow>,
    /// What is kept of each explicit task, under its number.
    tasks: Rows<SeatedTask>,
    /// What is kept of each member's implicit task.
    members: Vec<GroupSeat>,
}

impl Model for Groups {
    ghost use Rattle.std.specs.Prelude.{List, ◌-◌, min, vec_len, vec_capacity};
    ghost use Rattle.gomp_events.specs.declared.event.Event.{Event};
    ghost use Rattle.gomp_groups.specs.declared.links.TheConstants.{MAX_GROUPS};
    ghost use Rattle.gomp_groups.specs.Stands.{GroupsView, GroupsStand};

    ghost Value = { GroupsView };

    ghost view = { λ g. record {
      groups = g.groups.items;
      tasks = g.tasks.rows;
      members = g.members.items;
      task_room = g.tasks.room;
      group_room = min (vec_capacity g.groups - vec_len g.groups) (MAX_GROUPS - vec_len g.groups);
    } };

    ghost invariant = { λ g. (h : List Event) × GroupsStand g.groups.items g.tasks.rows g.members.items h };
}

impl Groups {
    /// The groups of a new team of `count` members: none is open, and no task was created. It fails
    /// if their memory is refused.
    pub fn new(alloc: Global, count: u16) -> Result<Groups, AllocError>
        ensures members { IfOk result (λ groups. group_members groups ≡ count) }
        ensures stands { IfOk result (λ groups. Stands groups []) }
    {
        let seat = GroupSeat {
            children: 0,
            around: GroupLink::none(),
            last: GroupLink::none(),
        };
        Ok(Groups {
            groups: Vec::new(alloc),
            tasks: Rows::new(alloc),
            members: vec![in alloc; seat; count as usize]?,
        })
    }

    /// Makes room for one more task. The room grows in steps. It fails, and nothing changes, if the
    /// memory is refused.
    pub fn reserve_task(&mut self) -> Result<(), AllocError>
        ensures room { OnOk result (0 < self.new.task_room) }
        ensures kept { OnOk result
            (self.new ≡ record self.old { task_room = self.new.task_room }) }
        ensures grows { self.old.task_room ≤ self.new.task_room }
        ensures there { 0 < self.old.task_room → IsOk result }
        ensures err { OnErr result (self.new ≡ self.old) }
    {
        self.tasks.reserve()
    }

    /// Makes room for one more group. The room grows in steps. It fails, and nothing changes, if the
    /// memory is refused, or if no number is left: a team opens `MAX_GROUPS` groups at most.
    pub fn reserve_group(&mut self) -> Result<(), AllocError>
        ensures room { OnOk result (0 < self.new.group_room) }
        ensures memory { OnOk result
            (self.new.group_room ≡ min (room_made 1 (growth_of 16 (length self.old.groups))
            self.old.group_room) (MAX_GROUPS - length self.old.groups)) }
        ensures kept { OnOk result
            (self.new ≡ record self.old { group_room = self.new.group_room }) }
        ensures grows { self.old.group_room ≤ self.new.group_room }
        ensures there { 0 < self.old.group_room → IsOk result }
        ensures err { OnErr result (self.new ≡ self.old) }
    {
        if self.groups.len() >= MAX_GROUPS as usize {
            return Err(AllocError);
        }
        reserve_one(&mut self.groups)
    }

    /// The last group that the task, of this team, has opened and not ended.
    pub fn last_open(&self, task: Task) -> Option<u64>
        requires seated { IsSeated self.now task }
        ensures known { (h : List Event) × Stands self.now h }
        ensures value { (h : List Event) → Stands self.now h → result ≡ last_open task h }
        ensures opened { IfSome result (λ group. group < length self.now.groups) }
    {
        // Where no group was opened no row is looked up.
        if self.groups.as_slice().is_empty() {
            return None;
        }
        open_group(&seat_of(&self.tasks, &self.members, task)).group()
    }

    /// Whether all tasks in the group are complete. Groups are numbered from 0 in the order in which
    /// they were opened.
    pub fn is_done(&self, group: u64) -> bool
        requires opened { group < length self.now.groups }
        ensures known { (h : List Event) × Stands self.now h }
        ensures value { (h : List Event) → Stands self.now h → result ≡ group_complete group h }
    {
        self.groups[group as usize].pending == 0
    }

    /// So many tasks were created before the group was opened: none of them is in it. Groups are
    /// numbered from 0 in the order in which they were opened, tasks from 1.
    pub fn opened_after(&self, group: u64) -> u32
        requires opened { group < length self.now.groups }
        ensures known { (h : List Event) × Stands self.now h }
        ensures value { (h : List Event) → Stands self.now h → result ≡ tasks_before group h }
        ensures few { result ≤ length self.now.tasks }
        ensures older { (h : List Event) → Stands self.now h → (t : ℕ) → t ≤ result →
            in_group group t h ≡ false }
    {
        self.groups[group as usize].since
    }

    /// Whether all children of the task, which is one of this team, are complete.
    pub fn children_done(&self, task: Task) -> bool
        requires seated { IsSeated self.now task }
        ensures known { (h : List Event) × Stands self.now h }
        ensures value { (h : List Event) → Stands self.now h → result ≡ children_complete task h }
    {
        seat_of(&self.tasks, &self.members, task).children == 0
    }

    /// The innermost of the groups whose ends wait for the task, which is one of this team: the one
    /// among them that was opened last. It is the group that `cancel taskgroup` names in this task
    /// (OpenMP API 5.2, section 16.1).
    pub fn innermost_around(&self, task: Task) -> Option<u64>
        requires seated { IsSeated self.now task }
        ensures known { (h : List Event) × Stands self.now h }
        ensures value { (h : List Event) → Stands self.now h →
            result ≡ first_in (groups_over task h) }
        ensures last { (h : List Event) → Stands self.now h →
            IfSome result (IsLastOf (groups_over task h)) }
        ensures opened { IfSome result (λ group. group < length self.now.groups) }
    {
        seat_of(&self.tasks, &self.members, task).around.group()
    }

    /// Whether one of the groups whose ends wait for the task, which is one of this team, has its
    /// mark. There is a mark for each group opened. It takes a step for each of those groups.
    pub fn is_marked_around(&self, task: Task, marks: &[bool]) -> bool
        requires seated { IsSeated self.now task }
        requires marks { length marks.now ≡ length self.now.groups }
        ensures known { (h : List Event) × Stands self.now h }
        ensures value { (h : List Event) → Stands self.now h →
            result ≡ some_marked marks.now (groups_over task h) }
    {
        let seat = seat_of(&self.tasks, &self.members, task);
        has_mark(&self.groups, seat.around, marks)
    }

    /// Whether one of the groups whose ends will wait for a task that is created in this one now,
    /// which is one of this team, has its mark. There is a mark for each group opened. It takes a
    /// step for each of those groups.
    pub fn is_marked_within(&self, task: Task, marks: &[bool]) -> bool
        requires seated { IsSeated self.now task }
        requires marks { length marks.now ≡ length self.now.groups }
        ensures known { (h : List Event) × Stands self.now h }
        ensures value { (h : List Event) → Stands self.now h →
            result ≡ some_marked marks.now (groups_within task h) }
    {
        let seat = seat_of(&self.tasks, &self.members, task);
        has_mark(&self.groups, seat.last, marks)
    }

    /// A member opens a group in the task, which it executes. The answer is the group's number, from 0.
    pub fn open(&mut self, task: Task) -> u64
        requires room { 0 < self.old.group_room }
        requires may { (h : List Event) × (m : ℕ) × Stands self.old h ×
            Executes (group_members self.old) m task h }
        ensures members { group_members self.new ≡ group_members self.old }
        ensures group_room { self.new.group_room + 1 ≡ self.old.group_room }
        ensures task_room { self.new.task_room ≡ self.old.task_room }
        ensures number { (h : List Event) → Stands self.old h → result ≡ groups_opened h }
        ensures stands { (h : List Event) (m : ℕ) → Stands self.old h →
            Executes (group_members self.old) m task h → Stands self.new (Group result m ∷ h) }
    {
        let group = self.groups.len() as u64;
        let seat = seat_of(&self.tasks, &self.members, task);
        self.groups.push_reserved(GroupRow {
            outer: seat.last,
            pending: 0,
            since: self.tasks.count(),
        });
        let opened = GroupSeat {
            children: seat.children,
            around: seat.around,
            last: GroupLink::to(group),
        };
        put_seat(&mut self.tasks, &mut self.members, task, opened);
        group
    }

    /// A member ends the last open group of the task, which it executes. All tasks in the group are
    /// complete.
    pub fn close(&mut self, task: Task)
        requires may { (h : List Event) × (q : ℕ) × (m : ℕ) × Stands self.old h ×
            MayClose (group_members self.old) q m task h }
        ensures members { group_members self.new ≡ group_members self.old }
        ensures group_room { self.new.group_room ≡ self.old.group_room }
        ensures task_room { self.new.task_room ≡ self.old.task_room }
        ensures stands { (h : List Event) (q m : ℕ) → Stands self.old h →
            MayClose (group_members self.old) q m task h → Stands self.new (GroupEnd q m ∷ h) }
    {
        let seat = seat_of(&self.tasks, &self.members, task);
        match seat.last.group() {
            None => unreachable!(),
            Some(group) => {
                let closed = GroupSeat {
                    children: seat.children,
                    around: seat.around,
                    last: self.groups[group as usize].outer,
                };
                put_seat(&mut self.tasks, &mut self.members, task, closed);
            }
        }
    }

    /// A member creates the next task in this one, which it executes. There has to be room for it
    /// (`reserve_task`), and a number.
    pub fn create(&mut self, parent: Task)
        requires room { 0 < self.old.task_room }
        requires few { length self.old.tasks < MAX_ROWS }
        requires may { (h : List Event) × (m : ℕ) × Stands self.old h ×
            MayCreateIn (group_members self.old) m parent h }
        ensures members { group_members self.new ≡ group_members self.old }
        ensures group_room { self.new.group_room ≡ self.old.group_room }
        ensures task_room { self.new.task_room + 1 ≡ self.old.task_room }
        ensures stands { (h : List Event) (m : ℕ) (desc : TaskDesc) → Stands self.old h →
            MayCreateIn (group_members self.old) m parent h →
            Stands self.new (Create (suc (tasks_created h)) m parent desc ∷ h) }
    {
        let group = add_child(&mut self.tasks, &mut self.members, parent);
        add_task(&mut self.groups, group);
        self.tasks.push(SeatedTask {
            parent,
            seat: GroupSeat {
                children: 0,
                around: group,
                last: group,
            },
            complete: false,
        });
    }

    /// A member ends the explicit task with this number, from 1, which it executes.
    pub fn complete(&mut self, task: u32)
        requires may { (h : List Event) × (m : ℕ) × Stands self.old h ×
            MayEnd (group_members self.old) task m h }
        ensures members { group_members self.new ≡ group_members self.old }
        ensures group_room { self.new.group_room ≡ self.old.group_room }
        ensures task_room { self.old.task_room ≤ self.new.task_room }
        ensures stands { (h : List Event) (m : ℕ) → Stands self.old h →
            MayEnd (group_members self.old) task m h → Stands self.new (Done task m ∷ h) }
    {
        self.finish_task(task);
    }

    /// A cancellation discards the explicit task with this number, from 1, which nobody has
    /// started: it is complete (OpenMP API 5.2, section 16.1).
    pub fn discard(&mut self, task: u32)
        requires may { (h : List Event) × (m : ℕ) × Stands self.old h ×
            MayDiscard (group_members self.old) task m h }
        ensures members { group_members self.new ≡ group_members self.old }
        ensures group_room { self.new.group_room ≡ self.old.group_room }
        ensures task_room { self.old.task_room ≤ self.new.task_room }
        ensures stands { (h : List Event) (m : ℕ) → Stands self.old h →
            MayDiscard (group_members self.old) task m h → Stands self.new (Discard task m ∷ h) }
    {
        self.finish_task(task);
    }

    /// The task is complete: it counts no more in its groups and for its parent. Each of the two keeps
    /// its row only as long as it is needed.
    fn finish_task(&mut self, task: u32)
        requires may { (h : List Event) × (event : Event) × Stands self.old h ×
            MayComplete (group_members self.old) task event h }
        ensures members { group_members self.new ≡ group_members self.old }
        ensures group_room { self.new.group_room ≡ self.old.group_room }
        ensures task_room { self.old.task_room ≤ self.new.task_room }
        ensures stands { (h : List Event) (event : Event) → Stands self.old h →
            MayComplete (group_members self.old) task event h → Stands self.new (event ∷ h) }
    {
        let row = self.tasks.row(task);
        let parent = row.parent;
        let children = row.seat.children;
        remove_task(&mut self.groups, row.seat.around);
        end_row(&mut self.tasks, task, children);
        end_child(&mut self.tasks, &mut self.members, parent);
    }
}

//! What is kept of a group, of a task and of a member's implicit task.

ghost use Rattle.std.specs.Prelude.{◌≡◌, ◌<◌, ◌≤◌, ◌+◌, ◌-◌, ◌^◌, ℕ, List, length, if◌then◌else◌};
ghost use Rattle.gomp_events.specs.Tasks.{contains};
ghost use Rattle.gomp_rows.specs.Rows.{HasRow, with_row};
ghost use Rattle.gomp_groups.specs.Rows.{task_at, seat_at, pending_at, IsSeatedIn, IsChain, own_group, some_marked, CountsOneMore, IsNested, with_seat, members_with_seat, is_over as row_is_over, needed_row, ended_row, one_child_more, after_child, members_after_child};

use crate::links::GroupLink;
use gomp_rows::Rows;
use gomp_types::Task;

/// A group of tasks.
#[derive(Clone, Copy, Debug, PartialEq, Eq)]
pub struct GroupRow {
    /// The group around it: the innermost one that its task's children were in before.
    pub outer: GroupLink,
    /// How many tasks in it are open: created, and not complete.
    pub pending: u32,
    /// How many tasks were created before it was opened.
    pub since: u32,
}

// A team keeps one for each group that was opened.
const _: () = prove!(size_of::<GroupRow>() <= 12);

/// What is kept of any task, implicit or explicit.
#[derive(Clone, Copy, Debug, PartialEq, Eq)]
pub struct GroupSeat {
    /// How many of its children are open.
    pub children: u32,
    /// The innermost group that the task is in: none for an implicit task.
    pub around: GroupLink,
    /// The innermost group that its children are in: the last one that it has opened and not ended,
    /// else the group that it is in itself.
    pub last: GroupLink,
}

/// An explicit task.
#[derive(Clone, Copy, Debug, PartialEq, Eq)]
pub struct SeatedTask {
    /// The task that it was created in.
    pub parent: Task,
    /// Its groups and children.
    pub seat: GroupSeat,
    /// Whether it is complete: then it has a row only as long as a child of it is open.
    pub complete: bool,
}

// A team keeps one for each task that is open, or has an open child.
const _: () = prove!(size_of::<SeatedTask>() <= 24);

/// What is kept of the task.
pub(crate) fn seat_of(tasks: &Rows<SeatedTask>, members: &[GroupSeat], task: Task) -> GroupSeat
    requires seated { IsSeatedIn tasks.now.rows members.now task }
    ensures value { result ≡ seat_at tasks.now.rows members.now task }
{
    match task {
        Task::Implicit(member) => members[member as usize],
        Task::Explicit(number) => tasks.row(number).seat,
    }
}

/// Keeps this of the task.
pub(crate) fn put_seat(
    tasks: &mut Rows<SeatedTask>,
    members: &mut [GroupSeat],
    task: Task,
    seat: GroupSeat,
)
    requires seated { IsSeatedIn tasks.old.rows members.old task }
    ensures rows { tasks.new.rows ≡ with_seat tasks.old.rows task seat }
    ensures seats { members.new ≡ members_with_seat members.old task seat }
    ensures room { tasks.new.room ≡ tasks.old.room }
{
    match task {
        Task::Implicit(member) => members[member as usize] = seat,
        Task::Explicit(number) => tasks.row_mut(number).seat = seat,
    }
}

/// One child more of the task is open. The answer is the innermost group that the child is in.
pub(crate) fn add_child(
    tasks: &mut Rows<SeatedTask>,
    members: &mut [GroupSeat],
    parent: Task,
) -> GroupLink
    requires seated { IsSeatedIn tasks.old.rows members.old parent }
    requires few { (seat_at tasks.old.rows members.old parent).children + 1 < 2 ^ 32 }
    ensures group { result ≡ (seat_at tasks.old.rows members.old parent).last }
    ensures rows { tasks.new.rows ≡ with_seat tasks.old.rows parent
        (one_child_more (seat_at tasks.old.rows members.old parent)) }
    ensures seats { members.new ≡ members_with_seat members.old parent
        (one_child_more (seat_at tasks.old.rows members.old parent)) }
    ensures room { tasks.new.room ≡ tasks.old.room }
{
    match parent {
        Task::Implicit(member) => {
            let seat = &mut members[member as usize];
            seat.children += 1;
            seat.last
        }
        Task::Explicit(number) => {
            let row = tasks.row_mut(number);
            row.seat.children += 1;
            row.seat.last
        }
    }
}

/// Whether the row's task is complete and no child of it is open: then nobody needs the row.
fn is_over(row: &SeatedTask) -> bool
    ensures { result ≡ row_is_over row.now }
{
    row.complete && row.seat.children == 0
}

/// The task with this number is complete, and so many of its children are open: its row says so, or
/// is taken out if it has none.
pub(crate) fn end_row(tasks: &mut Rows<SeatedTask>, number: u32, children: u32)
    requires there { HasRow tasks.old.rows number }
    requires children { children ≡ (task_at tasks.old.rows number).seat.children }
    ensures rows { tasks.new.rows ≡ with_row tasks.old.rows number
        (needed_row (ended_row (task_at tasks.old.rows number))) }
    ensures room { tasks.old.room ≤ tasks.new.room }
{
    if children == 0 {
        tasks.remove(number);
    } else {
        tasks.row_mut(number).complete = true;
    }
}

/// One child less of the task is open. If the task is complete and that was the last, its row is taken
/// out.
pub(crate) fn end_child(tasks: &mut Rows<SeatedTask>, members: &mut [GroupSeat], parent: Task)
    requires seated { IsSeatedIn tasks.old.rows members.old parent }
    requires some { 0 < (seat_at tasks.old.rows members.old parent).children }
    ensures rows { tasks.new.rows ≡ after_child tasks.old.rows parent }
    ensures seats { members.new ≡ members_after_child members.old parent }
    ensures room { tasks.old.room ≤ tasks.new.room }
{
    match parent {
        Task::Implicit(member) => members[member as usize].children -= 1,
        Task::Explicit(number) => {
            let row = tasks.row_mut(number);
            row.seat.children -= 1;
            let over = is_over(row);
            if over {
                tasks.remove(number);
            }
        }
    }
}

/// The last group that the task has opened and not ended: the one that its children are in, unless
/// it is in that itself.
pub(crate) fn open_group(seat: &GroupSeat) -> GroupLink
    ensures { result ≡ own_group seat.now }
{
    if seat.last == seat.around {
        GroupLink::none()
    } else {
        seat.last
    }
}

/// One more task is open in this group and in each one around it.
pub(crate) fn add_task(groups: &mut [GroupRow], first: GroupLink)
    requires chain { (qs : List ℕ) × IsChain groups.old first qs }
    requires nested { IsNested groups.old }
    requires room { (q : ℕ) → pending_at groups.old q + 1 < 2 ^ 32 }
    ensures counts { (qs : List ℕ) → IsChain groups.old first qs →
        CountsOneMore qs groups.old groups.new }
{
    let mut next = first;
    while let Some(group) = next.group() {
        let row = &mut groups[group as usize];
        row.pending += 1;
        next = row.outer;
    }
}

/// One task less is open in this group and in each one around it.
pub(crate) fn remove_task(groups: &mut [GroupRow], first: GroupLink)
    requires chain { (qs : List ℕ) × IsChain groups.old first qs }
    requires nested { IsNested groups.old }
    requires some { (qs : List ℕ) → IsChain groups.old first qs → (q : ℕ) →
        (if contains q qs then 1 else 0) ≤ pending_at groups.old q }
    ensures counts { (qs : List ℕ) → IsChain groups.old first qs →
        CountsOneMore qs groups.new groups.old }
{
    let mut next = first;
    while let Some(group) = next.group() {
        let row = &mut groups[group as usize];
        row.pending -= 1;
        next = row.outer;
    }
}

/// Whether this group, or one around it, has its mark.
pub(crate) fn has_mark(groups: &[GroupRow], first: GroupLink, marks: &[bool]) -> bool
    requires chain { (qs : List ℕ) × IsChain groups.now first qs }
    requires nested { IsNested groups.now }
    requires marks { length marks.now ≡ length groups.now }
    ensures value { (qs : List ℕ) → IsChain groups.now first qs →
        result ≡ some_marked marks.now qs }
{
    let mut next = first;
    while let Some(group) = next.group() {
        if marks[group as usize] {
            return true;
        }
        next = groups[group as usize].outer;
    }
    false
}

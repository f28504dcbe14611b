//! The explicit tasks of a team that one thread steps.

ghost use Rattle.std.specs.Prelude.{◌≡◌, ◌<◌, ◌≤◌, ◌+◌, ◌-◌, ℕ, List, [], ◌∷◌, Some, None, ◌⊎◌, true, false, IfOk, OnOk, OnErr, IfSome, length, replicate};
ghost use Rattle.gomp_events.specs.declared.event.Event.{Event};
ghost use Rattle.gomp_events.specs.declared.event.Event.TheVariants.{Create, Start, Done, Discard};
ghost use Rattle.gomp_types.specs.declared.task.Task.TheVariants.{Implicit, Explicit};
ghost use Rattle.gomp_types.specs.declared.limits.TheConstants.{MAX_TASK_DEPTH};
ghost use Rattle.gomp_events.specs.Events.{at_barrier as waits_at_barrier};
ghost use Rattle.gomp_events.specs.Tasks.{tasks_created, task_stack, executed_task, depth_of, epoch, is_odd, is_ancestor, of_explicit, is_final, is_undeferred};
ghost use Rattle.gomp_events.specs.Goals.{is_unstarted};
ghost use Rattle.gomp_events.specs.TaskRules.{MayStart, MayDiscard};
ghost use Rattle.gomp_tasks.specs.Rows.{IsParent, NewestIs, RowStands, no_newest, newest_of, unstarted_row, in_state, with_child, without_child};
ghost use Rattle.gomp_rows.specs.Rows.{row_no, HasRow, with_row};
ghost use Rattle.gomp_tasks.specs.Stands.{TablesStand, TablesStandBut, StandBelow, Stands, AreSame, task_members, count_of, IsNumber, IsKept, IsTask};
ghost use Rattle.gomp_tasks.specs.Calls.{MayCreateNext, task_or_implicit, ended_task, is_within, may_run};

use crate::rows::{Newest, TaskRow, TaskState};
use crate::stack::Stack;
use gomp_rows::Rows;
use gomp_types::{Task, TaskDesc};
use std::alloc::{AllocError, Global};
use std::marker::Model;

/// The largest number of a task. A team refuses more than its limits allow, at most 1,048,576, before.
pub const MAX_TASKS: u32 = 4_294_967_295;

/// A task that has ended.
#[derive(Clone, Copy, Debug, PartialEq, Eq)]
pub struct Ended {
    /// Its number, from 1.
    pub task: u32,
    /// Whether the number of the barrier to which it was bound is odd.
    pub odd: bool,
    /// Whether it was undeferred.
    pub undeferred: bool,
}

/// The explicit tasks of one team, numbered from 1 in the order in which they are created: a task is a
/// number from 1 to `count`. A task has a row until it is complete and no child of it has one; one
/// without a row is complete. Only `new` and `reserve` take memory (OpenMP API 5.2, section 12.5).
#[derive(Drop)]
pub struct Tasks {
    /// What is kept of each task, under its number.
    rows: Rows<TaskRow>,
    /// For each member the tasks that it has started and not ended.
    stacks: Vec<Stack>,
    /// The task that was created last in each member's implicit task.
    roots: Vec<Newest>,
}

impl Model for Tasks {
    ghost use Rattle.gomp_tasks.specs.Stands.{TasksView, AreTasks};

    ghost Value = { TasksView };

    ghost view = { λ t. record { rows = t.rows.rows; stacks = t.stacks.items; roots = t.roots.items; room = t.rows.room } };

    ghost invariant = { λ t. AreTasks (record { rows = t.rows.rows; stacks = t.stacks.items; roots = t.roots.items; room = t.rows.room }) };
}

impl Tasks {
    /// The tasks of a new team of `count` members: none. It fails if their memory is refused.
    pub fn new(alloc: Global, count: u16) -> Result<Tasks, AllocError>
        ensures members { IfOk result (λ tasks. task_members tasks ≡ count) }
        ensures stands { IfOk result (λ tasks. Stands tasks []) }
    {
        Ok(Tasks {
            rows: Rows::new(alloc),
            stacks: empty_stacks(alloc, count)?,
            roots: empty_roots(alloc, count)?,
        })
    }

    /// How many tasks were created.
    pub fn count(&self) -> u32
        ensures known { (h : List Event) × Stands self.now h }
        ensures rows { result ≡ count_of self.now }
        ensures value { (h : List Event) → Stands self.now h → result ≡ tasks_created h }
    {
        self.rows.count()
    }

    /// So many tasks, the oldest, have no row: they are complete. The next one has, if there is one.
    pub fn oldest(&self) -> u32
        ensures few { result ≤ count_of self.now }
        ensures complete { (h : List Event) → Stands self.now h → (t : ℕ) → t ≤ result →
            is_unstarted t h ≡ false }
        ensures none { (t : ℕ) → t ≤ result → IsKept t self.now → ⊥ }
        ensures next { result < count_of self.now → IsKept (result + 1) self.now }
    {
        self.rows.gone()
    }

    /// The task that the member, numbered from 0, executes: the explicit one that it has started
    /// last and not ended, or its implicit one.
    #[inline(always)]
    pub fn current(&self, member: u16) -> Task
        requires member { member < task_members self.now }
        ensures known { (h : List Event) × Stands self.now h }
        ensures value { (h : List Event) → Stands self.now h → result ≡ executed_task member h }
        ensures task { IsTask result self.now }
    {
        match self.innermost(member) {
            Some(task) => Task::Explicit(task),
            None => Task::Implicit(member),
        }
    }

    /// How many tasks the member, numbered from 0, has started and not ended: at most 64.
    pub fn started(&self, member: u16) -> u8
        requires member { member < task_members self.now }
        ensures value { (h : List Event) → Stands self.now h →
            result ≡ length (task_stack member h) }
        ensures few { result ≤ MAX_TASK_DEPTH }
    {
        self.stacks[member as usize].count()
    }

    /// How deep the task lies in the tree of tasks: 0 for an implicit one, from 1 for an explicit one.
    pub fn depth(&self, task: Task) -> u8
        requires task { IsTask task self.now }
        ensures known { (h : List Event) × Stands self.now h }
        ensures value { (h : List Event) → Stands self.now h → result ≡ depth_of task h }
    {
        let _ = &self.rows; // opens self
        match task {
            Task::Implicit(_) => 0,
            Task::Explicit(number) => self.row(number).depth,
        }
    }

    /// Whether the number of the barrier to which the task is bound is odd.
    pub fn is_odd(&self, task: u32) -> bool
        requires task { IsKept task self.now }
        ensures known { (h : List Event) × Stands self.now h }
        ensures value { (h : List Event) → Stands self.now h → result ≡ is_odd (epoch task h) }
    {
        self.row(task).odd
    }

    /// Whether the task is undeferred: its creator does not go on before it is done (OpenMP API 5.2,
    /// section 12.5).
    pub fn is_undeferred(&self, task: u32) -> bool
        requires task { IsKept task self.now }
        ensures known { (h : List Event) × Stands self.now h }
        ensures value { (h : List Event) → Stands self.now h → result ≡ is_undeferred task h }
    {
        self.row(task).undeferred
    }

    /// Whether the task is a final one, so that a task created in it is undeferred and final (OpenMP
    /// API 5.2, section 12.3). An implicit task is not.
    pub fn is_final(&self, task: Task) -> bool
        requires task { IsTask task self.now }
        ensures known { (h : List Event) × Stands self.now h }
        ensures value { (h : List Event) → Stands self.now h →
            result ≡ of_explicit (λ t. is_final t h) task }
    {
        let _ = &self.rows; // opens self
        match task {
            Task::Implicit(_) => false,
            Task::Explicit(number) => self.row(number).final_task,
        }
    }

    /// The task that was created last in this one: its number is 0, and it is not undeferred, if none
    /// was.
    pub fn newest(&self, parent: Task) -> Newest
        requires parent { IsTask parent self.now }
        ensures known { (h : List Event) × Stands self.now h }
        ensures number { (result.task ≡ 0) ⊎ IsNumber result.task self.now }
        ensures value { (h : List Event) → Stands self.now h → NewestIs parent result h }
    {
        self.newest_in(parent)
    }

    /// Whether nobody has started the task, and no cancellation has discarded it.
    pub fn is_unstarted(&self, task: u32) -> bool
        ensures known { (h : List Event) × Stands self.now h }
        ensures value { (h : List Event) → Stands self.now h → result ≡ is_unstarted task h }
    {
        match self.rows.get(task) {
            Some(row) => row.state.is_unstarted(),
            None => false,
        }
    }

    /// Whether the task descends from the one above: that is its parent, or the parent of its
    /// parent, and so on. If that is an implicit one, the answer comes in one step.
    pub fn is_under(&self, above: Task, task: u32) -> bool
        requires task { IsKept task self.now }
        ensures known { (h : List Event) × Stands self.now h }
        ensures value { (h : List Event) → Stands self.now h → result ≡ is_ancestor above task h }
    {
        let row = self.row(task);
        match above {
            Task::Implicit(member) => row.root == member,
            Task::Explicit(number) => self.is_within(number, row.parent),
        }
    }

    /// Whether the member, numbered from 0, may start the task at a wait, which is at a barrier or
    /// elsewhere, if the task waits for no other and no cancellation reaches it: nobody has started
    /// it, and it descends from all tasks that the member has started and not ended, and from its
    /// implicit one unless it waits at a barrier (own).
    pub fn may_run(&self, member: u16, at_barrier: bool, task: u32) -> bool
        requires member { member < task_members self.now }
        ensures known { (h : List Event) × Stands self.now h }
        ensures value { (h : List Event) → Stands self.now h →
            at_barrier ≡ waits_at_barrier member h →
            result ≡ may_run member task h }
    {
        match self.rows.get(task) {
            Some(row) => {
                row.state.is_unstarted()
                    && (at_barrier || row.root == member)
                    && self.is_within_started(member, row.parent)
            }
            None => false,
        }
    }

    /// Makes room for one more task. The room grows in steps, so that the rows are seldom moved. It
    /// fails, and nothing changes, if there is none and its memory is refused.
    pub fn reserve(&mut self) -> Result<(), AllocError>
        ensures room { OnOk result (0 < self.new.room) }
        ensures grown { self.old.room ≤ self.new.room }
        ensures tasks { AreSame self.new self.old }
        ensures known { (h : List Event) × Stands self.old h }
        ensures stands { (h : List Event) → Stands self.old h → Stands self.new h }
        ensures kept { OnErr result (self.new ≡ self.old) }
        ensures full { OnErr result (self.old.room ≡ 0) }
    {
        self.rows.reserve()
    }

    /// The member, numbered from 0, creates a task in the one that it executes. `odd` says whether
    /// the number of the barrier to which the new task is bound is odd. There has to be room for it
    /// (`reserve`), and the rule of tasks has to let the member create it. The answer is its number.
    pub fn create(&mut self, member: u16, odd: bool, desc: &TaskDesc) -> u32
        requires room { 0 < self.old.room }
        requires few { count_of self.old < MAX_TASKS }
        requires may { (h : List Event) × Stands self.old h ×
            MayCreateNext self.old member odd h }
        ensures number { result ≡ count_of self.new }
        ensures count { count_of self.new ≡ count_of self.old + 1 }
        ensures room { self.new.room + 1 ≡ self.old.room }
        ensures members { task_members self.new ≡ task_members self.old }
        ensures stands { (h : List Event) → Stands self.old h →
            MayCreateNext self.old member odd h →
            Stands self.new (Create result member (executed_task member h) desc.now ∷ h) }
    {
        let parent = self.current(member);
        let task = self.count() + 1;
        match parent {
            Task::Implicit(root) => {
                let row = TaskRow::unstarted(desc, parent, root, 1, odd, false);
                self.roots[root as usize] = row.as_newest(task);
                self.rows.push(row);
            }
            Task::Explicit(number) => {
                let row = add_child(&mut self.rows, number, task, odd, desc);
                self.rows.push(row);
            }
        }
        task
    }

    /// The member, numbered from 0, starts the task, which it may start: the caller knows by
    /// `may_run`, and that the task waits for no other and no cancellation reaches it; an undeferred
    /// one is started by the member that created it, in the task that it executes.
    pub fn start(&mut self, member: u16, task: u32)
        requires may { (h : List Event) × Stands self.old h ×
            MayStart (task_members self.old) task member h }
        ensures room { self.new.room ≡ self.old.room }
        ensures count { count_of self.new ≡ count_of self.old }
        ensures members { task_members self.new ≡ task_members self.old }
        ensures there { IsKept task self.new }
        ensures stands { (h : List Event) → Stands self.old h →
            MayStart (task_members self.old) task member h →
            Stands self.new (Start task member ∷ h) }
    {
        let _ = set_state(&mut self.rows, task, TaskState::Running(member));
        self.stacks[member as usize].push(task);
    }

    /// The member, numbered from 0, ends the task that it executes, and the answer says which that
    /// was. If that is its implicit one, nothing changes, and the answer is none.
    pub fn finish(&mut self, member: u16) -> Option<Ended>
        requires member { member < task_members self.old }
        ensures room { self.old.room ≤ self.new.room }
        ensures count { count_of self.new ≡ count_of self.old }
        ensures members { task_members self.new ≡ task_members self.old }
        ensures known { (h : List Event) × Stands self.old h }
        ensures answer { (h : List Event) → Stands self.old h →
            executed_task member h ≡ task_or_implicit member (ended_task result) }
        ensures number { IfSome result (λ ended. IsNumber ended.task self.new) }
        ensures odd { IfSome result (λ ended. (h : List Event) → Stands self.old h →
            ended.odd ≡ is_odd (epoch ended.task h)) }
        ensures undeferred { IfSome result (λ ended. (h : List Event) → Stands self.old h →
            ended.undeferred ≡ is_undeferred ended.task h) }
        ensures kept { result ≡ None → self.new ≡ self.old }
        ensures stands { (h : List Event) (ended : Ended) → result ≡ Some ended →
            Stands self.old h → Stands self.new (Done ended.task member ∷ h) }
    {
        let Some(task) = self.innermost(member) else {
            return None;
        };
        let row = set_state(&mut self.rows, task, TaskState::Done(member));
        self.stacks[member as usize].pop();
        release(&mut self.rows, task, row);
        Some(Ended {
            task,
            odd: row.odd,
            undeferred: row.undeferred,
        })
    }

    /// The task is discarded: nobody has started it, and a cancellation reaches it, as the caller
    /// knows. It is complete from now on (OpenMP API 5.2, section 16.1).
    pub fn discard(&mut self, task: u32)
        requires may { (h : List Event) × (m : ℕ) × Stands self.old h ×
            MayDiscard (task_members self.old) task m h }
        ensures room { self.old.room ≤ self.new.room }
        ensures count { count_of self.new ≡ count_of self.old }
        ensures members { task_members self.new ≡ task_members self.old }
        ensures stands { (h : List Event) (m : ℕ) → Stands self.old h →
            MayDiscard (task_members self.old) task m h → Stands self.new (Discard task m ∷ h) }
    {
        let row = set_state(&mut self.rows, task, TaskState::Discarded);
        release(&mut self.rows, task, row);
    }

    /// What is kept of the task with this number.
    fn row(&self, task: u32) -> &TaskRow
        requires task { IsKept task self.now }
        ensures known { (h : List Event) × Stands self.now h }
        ensures at { row_no self.now.rows task ≡ Some result.now }
        ensures value { (h : List Event) → Stands self.now h → RowStands task result.now h }
    {
        self.rows.row(task)
    }

    /// The task that was created last in this one.
    fn newest_in(&self, parent: Task) -> Newest
        requires parent { IsTask parent self.now }
        ensures known { (h : List Event) × Stands self.now h }
        ensures value { (h : List Event) → Stands self.now h → NewestIs parent result h }
    {
        let _ = &self.rows; // opens self
        match parent {
            Task::Implicit(member) => match self.roots.get(member as usize) {
                Some(newest) => *newest,
                None => Newest::none(),
            },
            Task::Explicit(number) => self.row(number).newest(),
        }
    }

    /// The task in which the task was created.
    fn parent(&self, task: u32) -> Task
        requires task { IsKept task self.now }
        ensures known { (h : List Event) × Stands self.now h }
        ensures value { (h : List Event) → Stands self.now h → IsParent task result h }
        ensures task { IsTask result self.now }
    {
        self.row(task).parent
    }

    /// Whether the task is the explicit one above, or descends from it. What is above a task is older,
    /// so the climb ends at the first that is not younger than the one above.
    fn is_within(&self, above: u32, task: Task) -> bool
        requires task { IsTask task self.now }
        ensures known { (h : List Event) × Stands self.now h }
        ensures value { (h : List Event) → Stands self.now h →
            result ≡ is_within (Explicit above) task h }
    {
        let _ = &self.rows; // opens self
        match task {
            Task::Explicit(number) if number > above => self.is_within(above, self.parent(number)),
            Task::Explicit(number) => number == above,
            Task::Implicit(_) => false,
        }
    }

    /// The innermost task that the member has started and not ended, if there is one.
    #[inline(always)]
    fn innermost(&self, member: u16) -> Option<u32>
        requires member { member < task_members self.now }
        ensures known { (h : List Event) × Stands self.now h }
        ensures value { (h : List Event) → Stands self.now h →
            executed_task member h ≡ task_or_implicit member result }
        ensures task { IfSome result (λ t. IsKept t self.now) }
    {
        self.stacks[member as usize].innermost()
    }

    /// Whether the task is the innermost one that the member has started and not ended, or descends
    /// from it; each does if there is none. The started ones lie one above another, so it tells of all.
    fn is_within_started(&self, member: u16, task: Task) -> bool
        requires member { member < task_members self.now }
        requires task { IsTask task self.now }
        ensures none { (h : List Event) → Stands self.now h →
            executed_task member h ≡ Implicit member → result ≡ true }
        ensures value { (h : List Event) (innermost : ℕ) → Stands self.now h →
            executed_task member h ≡ Explicit innermost →
            result ≡ is_within (Explicit innermost) task h }
    {
        match self.innermost(member) {
            Some(innermost) => self.is_within(innermost, task),
            None => true,
        }
    }
}

/// No task for each of `count` members.
fn empty_stacks(alloc: Global, count: u16) -> Result<Vec<Stack>, AllocError>
    ensures { IfOk result (λ stacks. stacks.items ≡ replicate count []) }
{
    let mut stacks = Vec::with_capacity(alloc, count as usize)?;
    for _ in 0..count {
        stacks.push_reserved(Stack::new());
    }
    Ok(stacks)
}

/// No task was created in any of `count` implicit tasks.
fn empty_roots(alloc: Global, count: u16) -> Result<Vec<Newest>, AllocError>
    ensures { IfOk result (λ roots. roots.items ≡ replicate count no_newest) }
{
    let mut roots = Vec::with_capacity(alloc, count as usize)?;
    for _ in 0..count {
        roots.push_reserved(Newest::none());
    }
    Ok(roots)
}

/// Keeps of the task with this number that it is in this state. Answers its row.
fn set_state(rows: &mut Rows<TaskRow>, task: u32, state: TaskState) -> TaskRow
    requires there { HasRow rows.old.rows task }
    ensures rows { (row : TaskRow) → row_no rows.old.rows task ≡ Some row →
        rows.new.rows ≡ with_row rows.old.rows task (Some (in_state state row)) }
    ensures room { rows.new.room ≡ rows.old.room }
    ensures row { row_no rows.new.rows task ≡ Some result }
{
    let row = rows.row_mut(task);
    // Read before it is written: a wide read after a narrow write waits for that.
    let mut kept = *row;
    kept.state = state;
    row.state = state;
    kept
}

/// Keeps of the parent, the explicit task with that number, that this task was created in it. Answers
/// the row of the task, which has to be put in then; `odd` and `desc` are as `create` has them.
fn add_child(
    rows: &mut Rows<TaskRow>,
    parent: u32,
    task: u32,
    odd: bool,
    desc: &TaskDesc,
) -> TaskRow
    requires there { HasRow rows.old.rows parent }
    requires few { IfSome (row_no rows.old.rows parent) (λ row. row.kept_children < MAX_TASKS) }
    requires shallow { IfSome (row_no rows.old.rows parent) (λ row. row.depth < MAX_TASK_DEPTH) }
    ensures rows { (row : TaskRow) → row_no rows.old.rows parent ≡ Some row → rows.new.rows ≡
        with_row rows.old.rows parent (Some (with_child (newest_of task result) row)) }
    ensures room { rows.new.room ≡ rows.old.room }
    ensures row { (row : TaskRow) → row_no rows.old.rows parent ≡ Some row → result ≡
        unstarted_row desc.now (Explicit parent) row.root (row.depth + 1) odd row.final_task }
{
    let above = rows.row_mut(parent);
    let depth = above.depth + 1;
    let in_final = above.final_task;
    let row = TaskRow::unstarted(
        desc,
        Task::Explicit(parent),
        above.root,
        depth,
        odd,
        in_final,
    );
    above.newest = task;
    above.newest_undeferred = row.undeferred;
    above.kept_children += 1;
    row
}

/// Keeps of the task with this number that the row of a child of it was taken out. Answers its row.
fn remove_child(rows: &mut Rows<TaskRow>, task: u32) -> TaskRow
    requires there { HasRow rows.old.rows task }
    requires some { IfSome (row_no rows.old.rows task) (λ row. 0 < row.kept_children) }
    ensures rows { (row : TaskRow) → row_no rows.old.rows task ≡ Some row →
        rows.new.rows ≡ with_row rows.old.rows task (Some (without_child row)) }
    ensures room { rows.new.room ≡ rows.old.room }
    ensures row { row_no rows.new.rows task ≡ Some result }
{
    let row = rows.row_mut(task);
    row.kept_children -= 1;
    *row
}

/// Takes this row of the task out if the task is complete and no child of it has a row, and then
/// perhaps that of its parent, and so on.
#[cycle(release)]
#[inline]
fn release(rows: &mut Rows<TaskRow>, task: u32, row: TaskRow)
    requires there { row_no rows.old.rows task ≡ Some row }
    requires known { (h : List Event) × (stacks : List (List ℕ)) × (roots : List Newest) ×
        TablesStandBut task rows.old.rows stacks roots h }
    ensures count { length rows.new.rows ≡ length rows.old.rows }
    ensures room { rows.old.room ≤ rows.new.room }
    ensures stand { (h : List Event) (stacks : List (List ℕ)) (roots : List Newest) →
        TablesStandBut task rows.old.rows stacks roots h →
        TablesStand rows.new.rows stacks roots h }
{
    if row.is_needed() {
        return;
    }
    rows.remove(task);
    match row.parent {
        Task::Implicit(_) => {}
        Task::Explicit(parent) => release_parent(rows, parent),
    }
}

/// Keeps of the parent, the explicit task with that number, that the row of a child of it was taken
/// out, and then perhaps takes out that of the parent, as `release` does.
// Never inlined: so `release` does not call itself, and its callers have it inlined.
#[cycle(release)]
#[inline(never)]
fn release_parent(rows: &mut Rows<TaskRow>, parent: u32)
    requires there { HasRow rows.old.rows parent }
    requires some { IfSome (row_no rows.old.rows parent) (λ row. 0 < row.kept_children) }
    requires known { (h : List Event) × (stacks : List (List ℕ)) × (roots : List Newest) ×
        StandBelow parent rows.old.rows stacks roots h }
    ensures count { length rows.new.rows ≡ length rows.old.rows }
    ensures room { rows.old.room ≤ rows.new.room }
    ensures stand { (h : List Event) (stacks : List (List ℕ)) (roots : List Newest) →
        StandBelow parent rows.old.rows stacks roots h →
        TablesStand rows.new.rows stacks roots h }
{
    let above = remove_child(rows, parent);
    release(rows, parent, above);
}

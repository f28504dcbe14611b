//! Boards called as a library: at every size an operation that asks for memory gets it, and one that was refused for want
//! of memory is answered, when it is asked again, as if nothing had happened.

ghost use Rattle.std.specs.Prelude.{◌≡◌, ◌<◌, IfOk};
ghost use Rattle.gomp_types.specs.Limits.{IsTeamSize};
ghost use Rattle.gomp_board.specs.Boards.{members_of};

use crate::checks::{AMPLE, same};
use gomp_board::{Board, Op, TeamCancel};
use gomp_cancel::Cancellation;
use gomp_depend::Depends;
use gomp_events::{Arrival, Event, Tag};
use gomp_groups::Groups;
use gomp_ready::Ready;
use gomp_tasks::Tasks;
use gomp_test_data::{SIZES, items_of};
use gomp_types::{Dep, DepKind, Deps, Limits, Payload, Refusal, Reply, Task, TaskDesc};
use std::alloc::{AllocError, Global};
use std::process::Abort;

/// What a member asks of its board, and is answered.
#[derive(Clone, Copy)]
enum Ask {
    /// It creates a task, the next one by its number.
    Create,
    /// One that writes at the address.
    CreateWriter,
    /// One that reads there, which is undeferred and has nothing to wait for.
    CreateOwn,
    /// It waits for its children, and is given one of them to execute.
    Run,
    /// It waits for those that write at the address, and is given one of them.
    RunWriter,
    /// It ends this one.
    End,
    /// It ends its undeferred task.
    EndOwn,
    /// It ends one that it leaves.
    Leave,
    /// It waits for its children, which are complete.
    Children,
    /// It waits for those that write at the address, which are complete.
    Writers,
    /// It opens a group.
    Open,
    /// It ends a group.
    Close,
    /// It ends a group, and is given a task to execute.
    CloseRun,
    /// It waits on for that group, and ends it.
    Closed,
    /// It puts the words of a single.
    Put,
    /// It is given them.
    Got,
    /// It keeps room for words.
    Reserve,
    /// It arrives, with this tag and before another member.
    Arrive(Arrival),
    /// It arrives, with this tag and after all others.
    ArriveLast(Arrival),
    /// It waits on, and passes.
    WaitOn,
    /// It cancels this.
    Cancel(TeamCancel),
    /// It does not, since its clause is false, and sees whether that is cancelled.
    Decline(TeamCancel, bool),
    /// It does not, since its team allows no cancellation.
    Forbidden(TeamCancel),
    /// It comes to a cancellation point of this, and sees whether that is cancelled.
    Point(TeamCancel, bool),
    /// It creates a task where that is cancelled.
    Drop,
    /// It arrives at a barrier there.
    Cut,
    /// It arrives at the region's end, which it leaves, before another member.
    Depart,
    /// It does so after all others.
    DepartLast,
}

const CODE: u64 = 7;

/// A cancel construct with this clause in a team that allows cancellation, or does not.
fn cancel(named: TeamCancel, clause: bool, allowed: bool) -> Op {
    Op::Cancel {
        named,
        clause,
        allowed,
    }
}

/// An arrival with this tag, of a member that leaves the region or does not.
fn arrival(kind: Arrival, leaving: bool) -> Op {
    Op::Arrive {
        tag: Tag { kind, shares: 0 },
        leaving,
    }
}

/// The creation of the task with this number.
fn creation(next: u32, undeferred: bool, deps: Deps) -> Op {
    Op::Create(TaskDesc {
        code: CODE,
        arg: next as u64,
        undeferred,
        final_task: false,
        deps,
    })
}

impl Ask {
    /// The operation; `next` is the number of the next task.
    fn op(self, alloc: Global, next: u32) -> Result<Op, AllocError> {
        Ok(match self {
            Ask::Create | Ask::Drop => creation(next, false, Deps::new(alloc)),
            Ask::CreateWriter => creation(next, false, items_of(alloc, DepKind::DepOut, 1)?),
            Ask::CreateOwn => creation(next, true, items_of(alloc, DepKind::DepIn, 1)?),
            Ask::Run | Ask::Children => Op::Taskwait(Deps::new(alloc)),
            Ask::RunWriter | Ask::Writers => Op::Taskwait(items_of(alloc, DepKind::DepIn, 1)?),
            Ask::End | Ask::EndOwn => Op::EndTask(false),
            Ask::Leave => Op::EndTask(true),
            Ask::Open => Op::OpenGroup,
            Ask::Close | Ask::CloseRun => Op::EndGroup,
            Ask::Closed => Op::AwaitGroup,
            Ask::Put => Op::Put {
                share: 0,
                words: Payload::new(),
            },
            Ask::Got => Op::Got {
                share: 0,
                words: Payload::new(),
            },
            Ask::Reserve => Op::Reserve(1),
            Ask::Arrive(kind) | Ask::ArriveLast(kind) => arrival(kind, false),
            Ask::Cut => arrival(Arrival::Barrier, false),
            Ask::Depart | Ask::DepartLast => arrival(Arrival::RegionEnd, true),
            Ask::WaitOn => Op::AwaitBarrier,
            Ask::Cancel(named) => cancel(named, true, true),
            Ask::Decline(named, _) => cancel(named, false, true),
            Ask::Forbidden(named) => cancel(named, true, false),
            Ask::Point(named, _) => Op::Point {
                named,
                allowed: true,
            },
        })
    }

    /// The reply, without the number of a task that is run or ended: no rule says which of several is run.
    fn reply(self, next: u32) -> Reply {
        match self {
            Ask::Create | Ask::CreateWriter => Reply::Created(next),
            Ask::Run | Ask::RunWriter | Ask::CloseRun | Ask::CreateOwn => Reply::Run {
                task: 0,
                code: CODE,
                arg: 0,
                own: matches!(self, Ask::CreateOwn),
            },
            Ask::End | Ask::EndOwn | Ask::Leave => Reply::TaskDone {
                task: 0,
                waiting: !matches!(self, Ask::EndOwn),
            },
            Ask::Open | Ask::Put | Ask::Got | Ask::Reserve => Reply::Finished,
            Ask::Arrive(_) | Ask::Depart => Reply::Wait,
            Ask::Children | Ask::Writers | Ask::Close | Ask::Closed => Reply::Passed,
            Ask::ArriveLast(_) | Ask::DepartLast | Ask::WaitOn => Reply::Passed,
            Ask::Cancel(_) => Reply::Cancelling(true),
            Ask::Decline(_, cancelled) | Ask::Point(_, cancelled) => Reply::Cancelling(cancelled),
            Ask::Forbidden(_) => Reply::Cancelling(false),
            Ask::Drop => Reply::Dropped,
            Ask::Cut => Reply::Cancelled,
        }
    }
}

/// A reply without the number of a task that is run or ended. A task was created with its number as what it works on.
fn without_number(reply: Reply) -> Reply {
    match reply {
        Reply::Run {
            task,
            code,
            arg,
            own,
        } if arg == task as u64 => Reply::Run {
            task: 0,
            code,
            arg: 0,
            own,
        },
        Reply::TaskDone { waiting, .. } => Reply::TaskDone { task: 0, waiting },
        reply => reply,
    }
}

/// A board, the number of its next task, and how many refusals for want of memory it is forgiven.
#[derive(Drop)]
struct Trial {
    /// Where the board's memory comes from.
    alloc: Global,
    /// The board.
    board: Board,
    /// How many members its team has.
    members: u16,
    /// The number of its next task.
    next: u32,
    /// How many refusals for want of memory are forgiven yet.
    forgiven: u32,
    ghost size: { members_of board ≡ members },
    ghost some: { 0 < members },
}

/// A new board. It is asked for again if it is forgiven that it had no memory.
fn board_of(alloc: Global, members: u16, forgiven: u32) -> Result<Board, AllocError>
    requires size { IsTeamSize members }
    ensures members { IfOk result (λ board. members_of board ≡ members) }
{
    match Board::new(alloc, members, Limits::STANDARD) {
        Err(_) if forgiven > 0 => Board::new(alloc, members, Limits::STANDARD),
        board => board,
    }
}

/// A new board of which nothing was asked yet.
fn trial_of(rt: &impl Abort, alloc: Global, members: u16, forgiven: u32) -> Trial
    requires size { IsTeamSize members }
{
    Trial {
        alloc,
        board: board_of(alloc, members, forgiven).expect(rt, AMPLE),
        members,
        next: 1,
        forgiven,
    }
}

impl Trial {
    /// The operation that is asked. It is asked for again if it is forgiven that it had no memory.
    fn op(&self, rt: &impl Abort, ask: Ask) -> Op {
        let op = match ask.op(self.alloc, self.next) {
            Err(_) if self.forgiven > 0 => ask.op(self.alloc, self.next),
            op => op,
        };
        op.expect(rt, AMPLE)
    }

    /// What the board answers, and answers again if it is forgiven that it had no memory: nothing has changed then.
    fn answer(&mut self, rt: &impl Abort, member: u16, op: &Op) -> Reply {
        let member = member.min(self.members - 1);
        let before = (self.board.current(member), self.board.history().len());
        let reply = self.board.step(member, op);
        if self.forgiven == 0 || !matches!(&reply, Reply::Refused(Refusal::NoMemory)) {
            return reply;
        }
        drop(reply);
        self.forgiven -= 1;
        let after = (self.board.current(member), self.board.history().len());
        same(rt, after, before, "no memory for member", member as u64);
        self.board.step(member, op)
    }

    /// That the member asks this so many times, and is answered.
    fn is_answered(&mut self, rt: &impl Abort, member: u16, asks: &[Ask], count: usize) {
        for _ in 0..count {
            for ask in asks {
                let op = self.op(rt, *ask);
                let found = without_number(self.answer(rt, member, &op));
                drop(op);
                let expected = ask.reply(self.next);
                same(rt, found, expected, "answer to member", member as u64);
                if matches!(ask, Ask::Create | Ask::CreateWriter | Ask::CreateOwn) {
                    self.next = self.next.wrapping_add(1);
                }
            }
        }
    }

    /// That all members arrive, and pass.
    fn meet(&mut self, rt: &impl Abort, kind: Arrival) {
        for member in 1..self.members {
            self.is_answered(rt, member, &[Ask::Arrive(kind)], 1);
        }
        self.is_answered(rt, 0, &[Ask::ArriveLast(kind)], 1);
        for member in 1..self.members {
            self.is_answered(rt, member, &[Ask::WaitOn], 1);
        }
    }

    /// That the member, which executes a task of its group, cancels the group, with so many tasks that nobody has started.
    fn cancels_group(&mut self, rt: &impl Abort, member: u16, count: usize) {
        self.is_answered(rt, member, &[Ask::Open, Ask::Create, Ask::CloseRun], 1);
        self.is_answered(rt, member, &[Ask::Create], count);
        self.is_answered(rt, member, GROUP_CANCELLED, 1);
    }

    /// That the first member cancels the region, with so many tasks of each member that nobody has started, and that all
    /// leave it.
    fn cancels_region(&mut self, rt: &impl Abort, count: usize) {
        for member in 0..self.members {
            self.is_answered(rt, member, &[Ask::Open, Ask::CreateWriter], 1);
            self.is_answered(rt, member, &[Ask::Create], count);
        }
        self.is_answered(rt, 0, REGION_CANCELLED, 1);
        for member in 1..self.members {
            self.is_answered(rt, member, CANCELLED_BY_ANOTHER, 1);
        }
        self.is_answered(rt, 0, &[Ask::DepartLast], 1);
        for member in 1..self.members {
            self.is_answered(rt, member, &[Ask::WaitOn], 1);
        }
    }
}

/// What a member asks that cancels the group of its task.
const GROUP_CANCELLED: &[Ask] = &[
    Ask::CreateWriter,
    Ask::Forbidden(TeamCancel::Taskgroup),
    Ask::Decline(TeamCancel::Taskgroup, false),
    Ask::Point(TeamCancel::Taskgroup, false),
    Ask::Cancel(TeamCancel::Taskgroup),
    Ask::Decline(TeamCancel::Taskgroup, true),
    Ask::Point(TeamCancel::Taskgroup, true),
    Ask::Drop,
    Ask::Leave,
    Ask::Closed,
];

/// What a member asks that cancels the region.
const REGION_CANCELLED: &[Ask] = &[
    Ask::Forbidden(TeamCancel::Parallel),
    Ask::Decline(TeamCancel::Parallel, false),
    Ask::Point(TeamCancel::Parallel, false),
    Ask::Cancel(TeamCancel::Parallel),
];

/// What another asks then.
const CANCELLED_BY_ANOTHER: &[Ask] = &[
    Ask::Drop,
    Ask::Cut,
    Ask::Decline(TeamCancel::Parallel, true),
    Ask::Point(TeamCancel::Parallel, true),
    Ask::Depart,
];

/// What each member asks so many times, one member after another.
const ASKS: &[&[Ask]] = &[
    &[Ask::Create],
    &[Ask::Run, Ask::End],
    &[Ask::Children],
    &[Ask::CreateWriter, Ask::RunWriter, Ask::End, Ask::Writers],
    &[Ask::CreateOwn, Ask::EndOwn],
    &[Ask::Open],
    &[Ask::Close],
    &[Ask::Put],
    &[Ask::Got],
    &[Ask::Reserve],
    &[Ask::Put],
];

impl Trial {
    /// That the team asks all this so many times, meets at as many barriers and ends of shares, and leaves its region.
    fn goes_through(&mut self, rt: &impl Abort, count: usize) {
        for asks in ASKS {
            for member in 0..self.members {
                self.is_answered(rt, member, *asks, count);
            }
        }
        for _ in 0..count {
            self.meet(rt, Arrival::Barrier);
            self.meet(rt, Arrival::ShareEnd);
        }
        self.meet(rt, Arrival::RegionEnd);
        // of three tasks three each, of a group two, of words three, two at each meeting, and those at the region's end
        let of_member = count.wrapping_mul(18).wrapping_add(2);
        let stored = self.board.history().len();
        let expected = of_member.wrapping_mul(self.members as usize);
        same(rt, stored, expected, "events of", count as u64);
    }

    /// That each member cancels a group, and one of them the region, each with so many tasks and after so many groups.
    fn is_cancelled(&mut self, rt: &impl Abort, count: usize) {
        let tasks = count.min(MOST_DISCARDED);
        for member in 0..self.members {
            self.is_answered(rt, member, &[Ask::Open, Ask::Close], count);
            self.cancels_group(rt, member, tasks);
        }
        self.cancels_region(rt, tasks);
        // of each group two, of the task that cancels one three, and its cancellation; of the group that is given up one, two
        // at the region's end, and of each task that is discarded two
        let of_groups = count.wrapping_mul(2);
        let of_member = of_groups.wrapping_add(tasks * 4).wrapping_add(13);
        let stored = self.board.history().len();
        let expected = of_member.wrapping_mul(self.members as usize);
        let expected = expected.wrapping_add(1);
        same(rt, stored, expected, "events of cancelled", count as u64);
    }
}

/// So many tasks at most are discarded at once: for each the list of tasks that are ready is moved.
const MOST_DISCARDED: usize = 1_001;

/// The board of a team of this size that has gone through its region, or whose region was cancelled.
fn region(
    rt: &impl Abort,
    alloc: Global,
    members: u16,
    count: usize,
    forgiven: u32,
    cancelled: bool,
) -> Trial
    requires size { IsTeamSize members }
{
    let mut trial = trial_of(rt, alloc, members, forgiven);
    if cancelled {
        trial.is_cancelled(rt, count);
    } else {
        trial.goes_through(rt, count);
    }
    trial
}

/// That the parts of a board for so many members, and lists of so many ready tasks and of the marks of groups, are made.
fn parts(rt: &impl Abort, alloc: Global, members: u16, count: usize) {
    let mut tasks = Tasks::new(alloc, members).expect(rt, AMPLE);
    tasks.reserve().expect(rt, AMPLE);
    drop(tasks);
    let mut groups = Groups::new(alloc, members).expect(rt, AMPLE);
    groups.reserve_task().expect(rt, AMPLE);
    groups.reserve_group().expect(rt, AMPLE);
    drop(groups);
    depends_and_marks(rt, alloc, count);
    ready_tasks(rt, alloc, members, count);
}

/// That the items of so many tasks are listed, and the marks of so many groups.
fn depends_and_marks(rt: &impl Abort, alloc: Global, count: usize) {
    let mut depends = Depends::new(alloc);
    for addr in 0..count as u64 {
        let items = [Dep {
            kind: DepKind::DepInout,
            addr,
        }];
        depends
            .reserve(1, Task::Implicit(0), &items)
            .expect(rt, AMPLE);
    }
    same(rt, depends.waiting(), 0, "waiting tasks", 0);
    drop(depends);
    let mut cancelled = Cancellation::new(alloc);
    for _ in 0..count {
        cancelled.reserve().expect(rt, AMPLE);
        cancelled.open();
    }
    same(rt, cancelled.is_cancelled(), false, "cancelled", 0);
    drop(cancelled);
}

/// That room is made for so many ready tasks of a team, and that one is put there by its first member and taken by its last.
fn ready_tasks(rt: &impl Abort, alloc: Global, members: u16, count: usize) {
    let mut ready = Ready::new(alloc, members).expect(rt, AMPLE);
    ready.reserve(count).expect(rt, AMPLE);
    if members > 0 && count > 0 {
        ready.put(0, 1);
        let taken = ready.take(members - 1, None, |_| true);
        same(rt, taken, Some(1), "ready task", members as u64);
    }
    drop(ready);
}

/// The answer to an operation of so many items: this one, if they are not too many.
fn reply_to_items(count: usize, reply: Reply) -> Reply {
    if count <= 16 {
        return reply;
    }
    drop(reply);
    Reply::Refused(Refusal::TooManyDepends)
}

/// The answer to a member that waits, when one task was created: it is given that.
const RUN: Reply = Reply::Run {
    task: 1,
    code: CODE,
    arg: 1,
    own: false,
};

/// That a board creates a task with so many items, if they are not too many, and that a member then waits for it by as
/// many; that a wait goes on with any number of them. They are copied whole.
fn counts_items(rt: &impl Abort, alloc: Global, board: &mut Board, kind: DepKind, count: usize)
    requires member { 0 < members_of board.old }
{
    let case = count as u64;
    let op = creation(1, false, items_of(alloc, kind, count).expect(rt, AMPLE));
    let expected = reply_to_items(count, Reply::Created(1));
    answers(rt, board, op, expected, "creation by items", case);
    let items = items_of(alloc, DepKind::DepOut, count).expect(rt, AMPLE);
    let copy = items.copied(alloc).expect(rt, AMPLE);
    same(rt, &copy, &items, "copied items", case);
    let expected = reply_to_items(count, RUN);
    answers(
        rt,
        board,
        Op::Taskwait(copy),
        expected,
        "taskwait by items",
        case,
    );
    let op = Op::AwaitChildren(items);
    answers(rt, board, op, Reply::Passed, "wait by items", case);
}

/// That a new board does.
fn new_board_counts_items(rt: &impl Abort, alloc: Global, kind: DepKind, count: usize) {
    let mut board = board_of(alloc, 1, 0).expect(rt, AMPLE);
    counts_items(rt, alloc, &mut board, kind, count);
    drop(board);
}

/// That a team of this size goes through a region, and through one that is cancelled.
fn both_regions(rt: &impl Abort, alloc: Global, members: u16, count: usize)
    requires size { IsTeamSize members }
{
    drop(region(rt, alloc, members, count, 0, false));
    drop(region(rt, alloc, members, count, 0, true));
}

const KINDS: &[DepKind] = &[
    DepKind::DepIn,
    DepKind::DepOut,
    DepKind::DepInout,
    DepKind::DepInoutset,
    DepKind::DepMutex,
];

#[test]
fn boards_give_up_nothing(rt: HostRuntime) {
    for count in SIZES {
        both_regions(&rt, rt.alloc(), 1, *count);
        parts(&rt, rt.alloc(), 1, *count);
    }
    for members in 1..=64 {
        for count in 0..3 {
            both_regions(&rt, rt.alloc(), members, count);
        }
        parts(&rt, rt.alloc(), members, 2);
    }
    for members in &[0, 65, 255, 256, 65_535] {
        parts(&rt, rt.alloc(), *members, 0);
    }
    for kind in KINDS {
        for count in 0..=18 {
            new_board_counts_items(&rt, rt.alloc(), *kind, count);
        }
        for count in SIZES {
            new_board_counts_items(&rt, rt.alloc(), *kind, *count);
        }
    }
}

/// That two boards on which an operation is asked again, if memory is refused, come to the same events.
fn asked_again(rt: &impl Abort, alloc: Global, members: u16, count: usize, cancelled: bool)
    requires size { IsTeamSize members }
{
    let one = region(rt, alloc, members, count, 1, cancelled);
    asked_once_more(rt, &one, members, count, cancelled);
    drop(one);
}

/// That another board comes to the events of this one.
fn asked_once_more(rt: &impl Abort, one: &Trial, members: u16, count: usize, cancelled: bool)
    requires size { IsTeamSize members }
{
    let other = region(rt, one.alloc, members, count, 1, cancelled);
    let name = if cancelled {
        "histories of cancelled"
    } else {
        "histories of"
    };
    same(
        rt,
        one.board.history(),
        other.board.history(),
        name,
        count as u64,
    );
    drop(other);
}

/// An operation that was refused memory is asked again, and at the end the board has the events that it has if no memory
/// is refused. Here none is: the script `refuse-allocations` refuses each allocation in turn, in a run of its own.
#[test]
fn refused_memory_is_asked_for_again(rt: HostRuntime) {
    for count in &[1, 70] {
        for members in [1, 3] {
            asked_again(&rt, rt.alloc(), members, *count, false);
            asked_again(&rt, rt.alloc(), members, *count, true);
        }
    }
}

/// That the board answers its first member's operation so; `case` is the operation's number, or that of its items.
fn answers(rt: &impl Abort, board: &mut Board, op: Op, expected: Reply, name: &str, case: u64)
    requires member { 0 < members_of board.old }
    ensures members { members_of board.new ≡ members_of board.old }
{
    let found = board.step(0, &op);
    drop(op);
    same(rt, found, expected, name, case);
}

/// The events that a region of one member stores, which creates a task and executes it at the region's end.
fn region_events(alloc: Global) -> [Event; 5] {
    [
        Event::Create {
            task: 1,
            member: 0,
            parent: Task::Implicit(0),
            desc: TaskDesc {
                code: CODE,
                arg: 1,
                undeferred: false,
                final_task: false,
                deps: Deps::new(alloc),
            },
        },
        Event::Arrive {
            barrier: 0,
            member: 0,
            tag: Tag {
                kind: Arrival::RegionEnd,
                shares: 0,
            },
        },
        Event::Start { task: 1, member: 0 },
        Event::Done { task: 1, member: 0 },
        Event::Pass {
            barrier: 0,
            member: 0,
        },
    ]
}

/// That such a region, with a limit of one task and of so many events beyond six, asks for room for six events and
/// stores five.
fn asks_for_six(rt: &impl Abort, alloc: Global, more: u16) {
    let limits = Limits {
        shares: 1,
        tasks: 1,
        events: 6 + more as u32,
    };
    let mut board = Board::new(alloc, 1, limits).expect(rt, AMPLE);
    stores_five(rt, alloc, &mut board, more);
    drop(board);
}

/// That this board does so, on which nothing was asked yet.
fn stores_five(rt: &impl Abort, alloc: Global, board: &mut Board, more: u16)
    requires member { 0 < members_of board.old }
{
    let more = more as u32;
    let done = Reply::TaskDone {
        task: 1,
        waiting: true,
    };
    let many = Reply::Refused(Refusal::TooManyTasks);
    let full = Reply::Refused(Refusal::TraceFull);
    let name = "answer to operation";
    let first = creation(1, false, Deps::new(alloc));
    answers(rt, board, first, Reply::Created(1), name, 1);
    let second = creation(2, false, Deps::new(alloc));
    answers(rt, board, second, many, name, 2);
    answers(rt, board, arrival(Arrival::Barrier, false), full, name, 3);
    answers(rt, board, arrival(Arrival::RegionEnd, false), RUN, name, 4);
    answers(rt, board, Op::EndTask(false), done, name, 5);
    answers(rt, board, Op::AwaitBarrier, Reply::Passed, name, 6);
    let events = region_events(alloc);
    same(rt, board.history(), events.as_slice(), "events of", 6);
    drop(events);
    same(rt, board.room_refusal(more), None, "room left of", 6);
    let refusal = board.room_refusal(more + 1);
    same(rt, refusal, Some(Refusal::TraceFull), "room beyond", 6);
}

/// It is so with a limit of six events and with one of seven, since a barrier asks for two.
#[test]
fn events_are_stored_within_their_room(rt: HostRuntime) {
    asks_for_six(&rt, rt.alloc(), 0);
    asks_for_six(&rt, rt.alloc(), 1);
}

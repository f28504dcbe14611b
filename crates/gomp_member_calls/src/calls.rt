//! The calls of a member, each under a name of its own.

ghost use Rattle.std.specs.Prelude.{◌≢◌};
ghost use Rattle.gomp_types.specs.declared.call.Call.{Call};
ghost use Rattle.gomp_types.specs.declared.call.Call.TheVariants as calls;
ghost use Rattle.gomp_types.specs.declared.reply.Reply.{Reply};
ghost use Rattle.gomp_types.specs.declared.reply.Reply.TheVariants.{Wait as Waits};

use gomp_types::{Call, CancelKind, CriticalName, Deps, EndKind, Payload, Reply, TaskDesc};
use std::sync::Wait;

/// The calls of a member of a team, each under a name of its own.
///
/// A plain form goes on with its call until it is answered otherwise than `Wait`; its `try_` form makes one
/// try. If that is answered `Wait`, the call stands, and [`try_resume`](gomp_team::Member::try_resume) or
/// [`resume`](gomp_team::Member::resume) goes on with it. A call that is never answered `Wait`
/// (docs/FORMATS.md) has one form, which makes one try. The start of a loop, whose schedule may be left to
/// the control variables, is [`Member`](gomp_team::Member)'s own: `loop_start` and `try_loop_start`.
///
/// Each method names what answers it if nothing is refused. Beside that:
///
/// - `Refused` changes nothing, save that `Mismatch` breaks the team (docs/FORMATS.md has the refusals of
///   each call).
/// - `Run` is answered where tasks are waited for: the member executes that task and ends it by `task_end`.
///   If that says that the wait is open again, the member goes on with its call by `resume`.
/// - `Cancelled` is answered in a cancelled region, to a `barrier`, to the end of a loop or of sections
///   with a barrier, and to a start, a `loop_next` or an `ordered_start` that would wait: the member goes to
///   the region's end (OpenMP API 5.2, section 16.1).
///
/// It is a trait since gomp_team, with these names, would have more functions than a crate may: another crate
/// can add methods to its `Member` by a trait alone. Whoever calls by these names imports it. That a call
/// was made is said by its relations `called` and `called_whole`: for a `Member` they are `Called` and
/// `CalledWhole` of gomp_team.
pub trait MemberCalls {
    /// The member before and after one try of a call that had this reply.
    ghost called: { Call → Reply → Self → Self → Type 0 };

    /// The member before and after a call, made and gone on with until it had this reply.
    ghost called_whole: { Call → Reply → Self → Self → Type 0 };

    /// One try of a call.
    fn try_once<R: Wait>(&mut self, rt: &R, call: Call) -> Reply
        ensures { called call result self.old self.new };

    /// A call, until it is answered otherwise than `Wait`.
    fn call_whole<R: Wait>(&mut self, rt: &R, call: Call) -> Reply
        ensures over { result ≢ Waits }
        ensures called { called_whole call result self.old self.new };

    /// Asks for the next chunk of the member's loop: `Chunk`, or `NoChunk` if none is left for it. In an
    /// ordered loop it waits for every earlier piece, and hands its own on (OpenMP API 5.2, sections 4.4.4 and
    /// 11.5; libgomp's `GOMP_loop_dynamic_next` and its kin).
    final fn loop_next<R: Wait>(&mut self, rt: &R) -> Reply
        ensures over { result ≢ Waits }
        ensures called { called_whole calls.LoopNext result self.old self.new }
    {
        self.call_whole(rt, Call::LoopNext)
    }

    /// One try of [`loop_next`](MemberCalls::loop_next).
    final fn try_loop_next<R: Wait>(&mut self, rt: &R) -> Reply
        ensures { called calls.LoopNext result self.old self.new }
    {
        self.try_once(rt, Call::LoopNext)
    }

    /// Ends the member's loop: `Passed` once all members are at its barrier (OpenMP API 5.2, sections 11.5 and
    /// 15.3.2; `GOMP_loop_end`).
    final fn loop_end<R: Wait>(&mut self, rt: &R) -> Reply
        ensures over { result ≢ Waits }
        ensures called { called_whole calls.LoopEnd result self.old self.new }
    {
        self.call_whole(rt, Call::LoopEnd)
    }

    /// One try of [`loop_end`](MemberCalls::loop_end).
    final fn try_loop_end<R: Wait>(&mut self, rt: &R) -> Reply
        ensures { called calls.LoopEnd result self.old self.new }
    {
        self.try_once(rt, Call::LoopEnd)
    }

    /// Ends the member's loop, which has no barrier: `Finished` (OpenMP API 5.2, section 15.6;
    /// `GOMP_loop_end_nowait`).
    final fn loop_end_nowait<R: Wait>(&mut self, rt: &R) -> Reply
        ensures { called calls.LoopEndNowait result self.old self.new }
    {
        self.try_once(rt, Call::LoopEndNowait)
    }

    /// Ends the member's loop, which may be cancelled: `Passed` once all members are at its barrier (OpenMP API
    /// 5.2, section 16.1; `GOMP_loop_end_cancel`).
    final fn loop_end_cancel<R: Wait>(&mut self, rt: &R) -> Reply
        ensures over { result ≢ Waits }
        ensures called { called_whole calls.LoopEndCancel result self.old self.new }
    {
        self.call_whole(rt, Call::LoopEndCancel)
    }

    /// One try of [`loop_end_cancel`](MemberCalls::loop_end_cancel).
    final fn try_loop_end_cancel<R: Wait>(&mut self, rt: &R) -> Reply
        ensures { called calls.LoopEndCancel result self.old self.new }
    {
        self.try_once(rt, Call::LoopEndCancel)
    }

    /// Begins a construct of `count` sections, 0 to 65,536, with this end, and asks for the first one:
    /// `Section`, numbered from 1, or 0 if none is left (OpenMP API 5.2, section 11.3; `GOMP_sections_start`).
    final fn sections_start<R: Wait>(&mut self, rt: &R, count: u32, end_kind: EndKind) -> Reply
        ensures over { result ≢ Waits }
        ensures called { called_whole (calls.SectionsStart count end_kind)
            result self.old self.new }
    {
        self.call_whole(rt, Call::SectionsStart { count, end_kind })
    }

    /// One try of [`sections_start`](MemberCalls::sections_start).
    final fn try_sections_start<R: Wait>(&mut self, rt: &R, count: u32, end_kind: EndKind) -> Reply
        ensures { called (calls.SectionsStart count end_kind) result self.old self.new }
    {
        self.try_once(rt, Call::SectionsStart { count, end_kind })
    }

    /// Asks for the next section of the member's construct: `Section`, numbered from 1, or 0 if none is left
    /// (OpenMP API 5.2, section 11.3; `GOMP_sections_next`).
    final fn sections_next<R: Wait>(&mut self, rt: &R) -> Reply
        ensures { called calls.SectionsNext result self.old self.new }
    {
        self.try_once(rt, Call::SectionsNext)
    }

    /// Ends the member's sections construct: `Passed` once all members are at its barrier (OpenMP API 5.2,
    /// sections 11.3 and 15.3.2; `GOMP_sections_end`).
    final fn sections_end<R: Wait>(&mut self, rt: &R) -> Reply
        ensures over { result ≢ Waits }
        ensures called { called_whole calls.SectionsEnd result self.old self.new }
    {
        self.call_whole(rt, Call::SectionsEnd)
    }

    /// One try of [`sections_end`](MemberCalls::sections_end).
    final fn try_sections_end<R: Wait>(&mut self, rt: &R) -> Reply
        ensures { called calls.SectionsEnd result self.old self.new }
    {
        self.try_once(rt, Call::SectionsEnd)
    }

    /// Ends the member's sections construct, which has no barrier: `Finished` (OpenMP API 5.2, section 15.6;
    /// `GOMP_sections_end_nowait`).
    final fn sections_end_nowait<R: Wait>(&mut self, rt: &R) -> Reply
        ensures { called calls.SectionsEndNowait result self.old self.new }
    {
        self.try_once(rt, Call::SectionsEndNowait)
    }

    /// Ends the member's sections construct, which may be cancelled: `Passed` once all members are at its
    /// barrier (OpenMP API 5.2, section 16.1; `GOMP_sections_end_cancel`).
    final fn sections_end_cancel<R: Wait>(&mut self, rt: &R) -> Reply
        ensures over { result ≢ Waits }
        ensures called { called_whole calls.SectionsEndCancel result self.old self.new }
    {
        self.call_whole(rt, Call::SectionsEndCancel)
    }

    /// One try of [`sections_end_cancel`](MemberCalls::sections_end_cancel).
    final fn try_sections_end_cancel<R: Wait>(&mut self, rt: &R) -> Reply
        ensures { called calls.SectionsEndCancel result self.old self.new }
    {
        self.try_once(rt, Call::SectionsEndCancel)
    }

    /// Goes through a `single` construct: `Executor`, whether this member executes its body (OpenMP API 5.2,
    /// section 11.1; `GOMP_single_start`).
    final fn single_start<R: Wait>(&mut self, rt: &R) -> Reply
        ensures over { result ≢ Waits }
        ensures called { called_whole calls.SingleStart result self.old self.new }
    {
        self.call_whole(rt, Call::SingleStart)
    }

    /// One try of [`single_start`](MemberCalls::single_start).
    final fn try_single_start<R: Wait>(&mut self, rt: &R) -> Reply
        ensures { called calls.SingleStart result self.old self.new }
    {
        self.try_once(rt, Call::SingleStart)
    }

    /// Begins a `single` construct with a `copyprivate` clause: `Executor` (yes) for one member, which puts
    /// words by `single_copy_end`, and these words, `Copied`, for each other (OpenMP API 5.2, section 5.7.2;
    /// `GOMP_single_copy_start`).
    final fn single_copy_start<R: Wait>(&mut self, rt: &R) -> Reply
        ensures over { result ≢ Waits }
        ensures called { called_whole calls.SingleCopyStart result self.old self.new }
    {
        self.call_whole(rt, Call::SingleCopyStart)
    }

    /// One try of [`single_copy_start`](MemberCalls::single_copy_start).
    final fn try_single_copy_start<R: Wait>(&mut self, rt: &R) -> Reply
        ensures { called calls.SingleCopyStart result self.old self.new }
    {
        self.try_once(rt, Call::SingleCopyStart)
    }

    /// Gives the words, 0 to 8, to every other member at the executor's construct: `Finished` (OpenMP API 5.2,
    /// section 5.7.2; `GOMP_single_copy_end`).
    final fn single_copy_end<R: Wait>(&mut self, rt: &R, words: Payload) -> Reply
        ensures { called (calls.SingleCopyEnd words) result self.old self.new }
    {
        self.try_once(rt, Call::SingleCopyEnd(words))
    }

    /// Begins the ordered part of the iteration with this value, in the member's ordered loop: `Finished` once
    /// every earlier piece is handed on (OpenMP API 5.2, section 15.10.2; `GOMP_ordered_start`).
    final fn ordered_start<R: Wait>(&mut self, rt: &R, iteration: i64) -> Reply
        ensures over { result ≢ Waits }
        ensures called { called_whole (calls.OrderedStart iteration) result self.old self.new }
    {
        self.call_whole(rt, Call::OrderedStart(iteration))
    }

    /// One try of [`ordered_start`](MemberCalls::ordered_start).
    final fn try_ordered_start<R: Wait>(&mut self, rt: &R, iteration: i64) -> Reply
        ensures { called (calls.OrderedStart iteration) result self.old self.new }
    {
        self.try_once(rt, Call::OrderedStart(iteration))
    }

    /// Ends the member's ordered part: `Finished` (OpenMP API 5.2, section 15.10.2; `GOMP_ordered_end`).
    final fn ordered_end<R: Wait>(&mut self, rt: &R) -> Reply
        ensures { called calls.OrderedEnd result self.old self.new }
    {
        self.try_once(rt, Call::OrderedEnd)
    }

    /// Waits for all members: `Passed` once all have arrived and the tasks bound to the barrier are complete
    /// (OpenMP API 5.2, section 15.3.1; `GOMP_barrier`).
    final fn barrier<R: Wait>(&mut self, rt: &R) -> Reply
        ensures over { result ≢ Waits }
        ensures called { called_whole calls.Barrier result self.old self.new }
    {
        self.call_whole(rt, Call::Barrier)
    }

    /// One try of [`barrier`](MemberCalls::barrier).
    final fn try_barrier<R: Wait>(&mut self, rt: &R) -> Reply
        ensures { called calls.Barrier result self.old self.new }
    {
        self.try_once(rt, Call::Barrier)
    }

    /// Ends the parallel region for this member: `Passed` once all have arrived and all tasks are complete, and
    /// it has left the region (OpenMP API 5.2, section 10.1; `GOMP_parallel_end`).
    final fn region_end<R: Wait>(&mut self, rt: &R) -> Reply
        ensures over { result ≢ Waits }
        ensures called { called_whole calls.RegionEnd result self.old self.new }
    {
        self.call_whole(rt, Call::RegionEnd)
    }

    /// One try of [`region_end`](MemberCalls::region_end).
    final fn try_region_end<R: Wait>(&mut self, rt: &R) -> Reply
        ensures { called calls.RegionEnd result self.old self.new }
    {
        self.try_once(rt, Call::RegionEnd)
    }

    /// Enters the `critical` construct of this name, ASCII of at most 32 bytes; the empty name is that of a
    /// construct without one: `Finished` once the name is free (OpenMP API 5.2, section 15.2;
    /// `GOMP_critical_name_start`).
    final fn critical_start<R: Wait>(&mut self, rt: &R, name: CriticalName) -> Reply
        ensures over { result ≢ Waits }
        ensures called { called_whole (calls.CriticalStart name) result self.old self.new }
    {
        self.call_whole(rt, Call::CriticalStart(name))
    }

    /// One try of [`critical_start`](MemberCalls::critical_start).
    final fn try_critical_start<R: Wait>(&mut self, rt: &R, name: CriticalName) -> Reply
        ensures { called (calls.CriticalStart name) result self.old self.new }
    {
        self.try_once(rt, Call::CriticalStart(name))
    }

    /// Leaves the `critical` construct of this name, which the member's task holds: `Finished` (OpenMP API 5.2,
    /// section 15.2; `GOMP_critical_name_end`).
    final fn critical_end<R: Wait>(&mut self, rt: &R, name: CriticalName) -> Reply
        ensures { called (calls.CriticalEnd name) result self.old self.new }
    {
        self.try_once(rt, Call::CriticalEnd(name))
    }

    /// Makes a simple lock, which is not set: `Lock`, its number, from 0 (OpenMP API 5.2, section 18.9.1;
    /// `omp_init_lock`).
    final fn lock_init<R: Wait>(&mut self, rt: &R) -> Reply
        ensures { called calls.LockInit result self.old self.new }
    {
        self.try_once(rt, Call::LockInit)
    }

    /// Makes a nestable lock, which is not set: `Lock`, its number, from 0 (OpenMP API 5.2, section 18.9.1;
    /// `omp_init_nest_lock`).
    final fn nest_init<R: Wait>(&mut self, rt: &R) -> Reply
        ensures { called calls.NestInit result self.old self.new }
    {
        self.try_once(rt, Call::NestInit)
    }

    /// Destroys the lock of this number, of either kind, which no task holds: `Finished` (OpenMP API 5.2,
    /// section 18.9.3; `omp_destroy_lock`, `omp_destroy_nest_lock`).
    final fn lock_destroy<R: Wait>(&mut self, rt: &R, number: u32) -> Reply
        ensures { called (calls.LockDestroy number) result self.old self.new }
    {
        self.try_once(rt, Call::LockDestroy(number))
    }

    /// Sets the simple lock of this number: `Finished` once no task holds it (OpenMP API 5.2, section 18.9.4;
    /// `omp_set_lock`).
    final fn set<R: Wait>(&mut self, rt: &R, number: u32) -> Reply
        ensures over { result ≢ Waits }
        ensures called { called_whole (calls.Set number) result self.old self.new }
    {
        self.call_whole(rt, Call::Set(number))
    }

    /// One try of [`set`](MemberCalls::set).
    final fn try_set<R: Wait>(&mut self, rt: &R, number: u32) -> Reply
        ensures { called (calls.Set number) result self.old self.new }
    {
        self.try_once(rt, Call::Set(number))
    }

    /// Sets the simple lock of this number if no task holds it: `Got`, whether it did (OpenMP API 5.2, section
    /// 18.9.6; `omp_test_lock`).
    final fn test<R: Wait>(&mut self, rt: &R, number: u32) -> Reply
        ensures { called (calls.Test number) result self.old self.new }
    {
        self.try_once(rt, Call::Test(number))
    }

    /// Unsets the simple lock of this number, which the member's task holds: `Finished` (OpenMP API 5.2,
    /// section 18.9.5; `omp_unset_lock`).
    final fn unset<R: Wait>(&mut self, rt: &R, number: u32) -> Reply
        ensures { called (calls.Unset number) result self.old self.new }
    {
        self.try_once(rt, Call::Unset(number))
    }

    /// Sets the nestable lock of this number once more, once no other task holds it: `Count`, how often its
    /// task has set it (OpenMP API 5.2, section 18.9.4; `omp_set_nest_lock`).
    final fn set_nest<R: Wait>(&mut self, rt: &R, number: u32) -> Reply
        ensures over { result ≢ Waits }
        ensures called { called_whole (calls.SetNest number) result self.old self.new }
    {
        self.call_whole(rt, Call::SetNest(number))
    }

    /// One try of [`set_nest`](MemberCalls::set_nest).
    final fn try_set_nest<R: Wait>(&mut self, rt: &R, number: u32) -> Reply
        ensures { called (calls.SetNest number) result self.old self.new }
    {
        self.try_once(rt, Call::SetNest(number))
    }

    /// Sets the nestable lock of this number once more if no other task holds it: `Count`, how often its task
    /// has set it, or 0 (OpenMP API 5.2, section 18.9.6; `omp_test_nest_lock`).
    final fn test_nest<R: Wait>(&mut self, rt: &R, number: u32) -> Reply
        ensures { called (calls.TestNest number) result self.old self.new }
    {
        self.try_once(rt, Call::TestNest(number))
    }

    /// Unsets the nestable lock of this number, which the member's task holds, once: `Count`, how often it is
    /// set still (OpenMP API 5.2, section 18.9.5; `omp_unset_nest_lock`).
    final fn unset_nest<R: Wait>(&mut self, rt: &R, number: u32) -> Reply
        ensures { called (calls.UnsetNest number) result self.old self.new }
    {
        self.try_once(rt, Call::UnsetNest(number))
    }

    /// Creates a task in the task that the member executes, with at most 16 items: `Created`, its number, from
    /// 1; of an undeferred one `Run`, which says that it is the creation's own, and whose end is the
    /// creation's; `Dropped` if the region or a group is cancelled (OpenMP API 5.2, sections 12.5 and 15.9.5;
    /// `GOMP_task`).
    final fn task_create<R: Wait>(&mut self, rt: &R, desc: TaskDesc) -> Reply
        ensures over { result ≢ Waits }
        ensures called { called_whole (calls.TaskCreate desc) result self.old self.new }
    {
        self.call_whole(rt, Call::TaskCreate(desc))
    }

    /// One try of [`task_create`](MemberCalls::task_create).
    final fn try_task_create<R: Wait>(&mut self, rt: &R, desc: TaskDesc) -> Reply
        ensures { called (calls.TaskCreate desc) result self.old self.new }
    {
        self.try_once(rt, Call::TaskCreate(desc))
    }

    /// Ends the explicit task that the member executes: `TaskDone`, which task, and whether the wait at which
    /// it was started is open again (OpenMP API 5.2, section 12.5).
    final fn task_end<R: Wait>(&mut self, rt: &R) -> Reply
        ensures { called calls.TaskEnd result self.old self.new }
    {
        self.try_once(rt, Call::TaskEnd)
    }

    /// Waits for the children of the task that the member executes, with items, at most 16, for those of them
    /// that a child with these items would wait for: `Passed` (OpenMP API 5.2, section 15.5; `GOMP_taskwait`,
    /// `GOMP_taskwait_depend`).
    final fn taskwait<R: Wait>(&mut self, rt: &R, items: Deps) -> Reply
        ensures over { result ≢ Waits }
        ensures called { called_whole (calls.Taskwait items) result self.old self.new }
    {
        self.call_whole(rt, Call::Taskwait(items))
    }

    /// One try of [`taskwait`](MemberCalls::taskwait).
    final fn try_taskwait<R: Wait>(&mut self, rt: &R, items: Deps) -> Reply
        ensures { called (calls.Taskwait items) result self.old self.new }
    {
        self.try_once(rt, Call::Taskwait(items))
    }

    /// Opens a group of tasks in the task that the member executes: `Finished` (OpenMP API 5.2, section 15.4;
    /// `GOMP_taskgroup_start`).
    final fn group_start<R: Wait>(&mut self, rt: &R) -> Reply
        ensures { called calls.GroupStart result self.old self.new }
    {
        self.try_once(rt, Call::GroupStart)
    }

    /// Ends the last open group of the task that the member executes: `Passed` once the tasks in it, and all
    /// that descend from these, are complete (OpenMP API 5.2, section 15.4; `GOMP_taskgroup_end`).
    final fn group_end<R: Wait>(&mut self, rt: &R) -> Reply
        ensures over { result ≢ Waits }
        ensures called { called_whole calls.GroupEnd result self.old self.new }
    {
        self.call_whole(rt, Call::GroupEnd)
    }

    /// One try of [`group_end`](MemberCalls::group_end).
    final fn try_group_end<R: Wait>(&mut self, rt: &R) -> Reply
        ensures { called calls.GroupEnd result self.old self.new }
    {
        self.try_once(rt, Call::GroupEnd)
    }

    /// Cancels what the construct names, if its `if` clause is true: `Cancelling`, whether that is cancelled
    /// (OpenMP API 5.2, section 16.1; `GOMP_cancel`).
    final fn cancel<R: Wait>(&mut self, rt: &R, kind: CancelKind, clause: bool) -> Reply
        ensures { called (calls.Cancel kind clause) result self.old self.new }
    {
        self.try_once(rt, Call::Cancel { kind, clause })
    }

    /// A cancellation point: `Cancelling`, whether what it names is cancelled (OpenMP API 5.2, section 16.2;
    /// `GOMP_cancellation_point`).
    final fn point<R: Wait>(&mut self, rt: &R, kind: CancelKind) -> Reply
        ensures { called (calls.Point kind) result self.old self.new }
    {
        self.try_once(rt, Call::Point(kind))
    }

    /// Stops the team, whatever its members are doing: `Stopped`. Each later call is refused with `Broken`
    /// (own).
    final fn stop<R: Wait>(&mut self, rt: &R) -> Reply
        ensures { called calls.Stop result self.old self.new }
    {
        self.try_once(rt, Call::Stop)
    }
}

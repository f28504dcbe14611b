//! Barriers, and breaks of the team. OpenMP API 5.2, section 15.3.

ghost use Rattle.std.specs.Prelude.{◌≡◌, ◌<◌, ◌-◌, ◌++◌, List, ◌∷◌, Some, None, reverse, slice_set};
ghost use Rattle.gomp_events.specs.declared.event.Event.{Event};
ghost use Rattle.gomp_events.specs.declared.event.Event.TheVariants.{Arrive as ArriveEvent, Break as BreakEvent};
ghost use Rattle.gomp_types.specs.declared.refusal.Refusal.TheVariants.{Mismatch};
ghost use Rattle.gomp_types.specs.declared.reply.Reply.TheVariants.{Wait};
ghost use Rattle.gomp_events.specs.Events.{barriers_passed, clash_of};
ghost use Rattle.gomp_events.specs.Goals.{may_pass};
ghost use Rattle.gomp_events.specs.TaskCalls.{AwaitsTasks};
ghost use Rattle.gomp_board.specs.Ops.{arrival_asks, arrival_keeps, given_back, op_refusal, passes_barrier};
ghost use Rattle.gomp_board.specs.Boards.{HasSpare, ArrivesFirst, IsOpAdmitted, Performs, Stands, members_of, kept_by, with_kept_used};
ghost use Rattle.gomp_board.specs.declared.op.Op.TheVariants.{Arrive, AwaitBarrier, Break};

use crate::answer::{Answer, CANCELLED, NO_MEMORY, PASSED, STOPPED};
use crate::board::Board;
use crate::op::Op;
use gomp_events::{ARRIVAL_ROOM, Arrival, Event, Tag};
use gomp_types::{Clash, Place, Refusal, Reply};

impl Board {
    /// The member arrives at its next barrier.
    pub(crate) fn arrive_admitted(&mut self, member: u16, tag: Tag, leaving: bool) -> Answer
        requires member { member < members_of self.old }
        requires admitted { IsOpAdmitted (Arrive tag leaving) member self.old }
        ensures performs { Performs (Arrive tag leaving) member self.old self.new result }
    {
        let asked = arrival_asks(tag.kind, self.kept[member as usize]);
        let Ok(()) = self.make_room(asked) else {
            return Answer(NO_MEMORY);
        };
        if self.scheduler.arrives_nowhere(tag.kind) {
            self.use_kept(member, tag.kind);
            return Answer(CANCELLED);
        }
        self.note_arrival(member, tag);
        self.await_pass(member)
    }

    /// The member waits on at the barrier at which it has arrived. In a cancelled region it waits at
    /// the region's end alone (OpenMP API 5.2, section 16.1).
    pub(crate) fn await_barrier(&mut self, member: u16) -> Answer
        requires member { member < members_of self.old }
        requires admitted { IsOpAdmitted AwaitBarrier member self.old }
        ensures performs { Performs AwaitBarrier member self.old self.new result }
    {
        if self.scheduler.is_cut_short(member) {
            return Answer(CANCELLED);
        }
        self.await_pass(member)
    }

    /// The member stops the team, and keeps its room.
    pub(crate) fn stop(&mut self, member: u16, place: Place, back: u32) -> Answer
        requires member { member < members_of self.old }
        requires admitted { IsOpAdmitted (Break place back) member self.old }
        ensures performs { Performs (Break place back) member self.old self.new result }
    {
        self.note_break(member, place, 0);
        Answer(STOPPED)
    }

    /// Answers an operation of the member that is refused: nothing changes, unless its construct
    /// differs.
    pub(crate) fn refuse(&mut self, member: u16, op: &Op, refusal: Refusal) -> Reply
        requires member { member < members_of self.old }
        requires refused { (h : List Event) → Stands self.old h →
            op_refusal self.old.limits self.old.room (kept_by member self.old) member op.now h
            ≡ Some refusal }
        ensures performs { Performs op.now member self.old self.new result }
    {
        match refusal {
            Refusal::Mismatch => self.break_at(member, op),
            refusal => Reply::Refused(refusal),
        }
    }

    /// The member breaks the team: its construct differs.
    pub(crate) fn break_at(&mut self, member: u16, op: &Op) -> Reply
        requires member { member < members_of self.old }
        requires differs { (h : List Event) → Stands self.old h →
            op_refusal self.old.limits self.old.room (kept_by member self.old) member op.now h
            ≡ Some Mismatch }
        ensures performs { Performs op.now member self.old self.new result }
    {
        let (place, back) = match op {
            Op::Break { place, back } => (*place, *back),
            _ => (Place::Barrier(self.scheduler.barrier_number(member)), 0),
        };
        self.note_break(member, place, back);
        Reply::Refused(Refusal::Mismatch)
    }

    /// The member uses what it has kept for an arrival of this kind.
    fn use_kept(&mut self, member: u16, kind: Arrival)
        requires member { member < members_of self.old }
        ensures value { self.new ≡ with_kept_used kind member self.old }
    {
        let place = member as usize;
        self.kept[place] = arrival_keeps(kind, self.kept[place]);
    }

    /// The member's arrival comes to the history.
    #[inline(always)]
    fn note_arrival(&mut self, member: u16, tag: Tag)
        requires member { member < members_of self.old }
        requires first { (h : List Event) → Stands self.old h → ArrivesFirst member tag h }
        requires spare { HasSpare (arrival_asks tag.kind (kept_by member self.old)) self.old }
        ensures stands { (h : List Event) → Stands self.old h →
            Stands self.new (ArriveEvent (barriers_passed member h) member tag ∷ h) }
        ensures limits { self.new.limits ≡ self.old.limits }
        ensures room { self.new.room ≡ self.old.room }
        ensures kept { self.new.kept ≡
            slice_set self.old.kept member (arrival_keeps tag.kind (kept_by member self.old)) }
    {
        let barrier = self.scheduler.barrier_number(member);
        // The barriers compare the tag once more: they ask for no order of their calls.
        if !self.scheduler.arrive(member, tag) {
            unreachable!();
        }
        let place = member as usize;
        self.kept[place] = arrival_keeps(tag.kind, self.kept[place]);
        self.history.push(Event::Arrive {
            barrier,
            member,
            tag,
        });
    }

    /// The member passes the barrier at which it waits if it may; else it executes a task, or waits.
    #[inline(always)]
    fn await_pass(&mut self, member: u16) -> Answer
        requires member { member < members_of self.old }
        ensures known { Stands self.old (reverse self.old.history) }
        ensures answer { (h : List Event) → Stands self.old h →
            AwaitsTasks member (may_pass (members_of self.old) member h) h result }
        ensures stands { (h : List Event) → Stands self.old h →
            Stands self.new (passes_barrier member h result ++ h) }
        ensures limits { self.new.limits ≡ self.old.limits }
        ensures room { self.new.room ≡ self.old.room }
        ensures kept { self.new.kept ≡ self.old.kept }
        ensures waits { result ≡ Wait → self.new ≡ self.old }
    {
        let barrier = self.scheduler.barrier_number(member);
        if !self.scheduler.pass(member) {
            return self.run_or_wait(member);
        }
        self.history.push(Event::Pass { barrier, member });
        Answer(PASSED)
    }

    /// The team, which was not broken, is broken there by the member, and so much of the room that it
    /// keeps goes back, or all of it.
    fn note_break(&mut self, member: u16, place: Place, back: u32)
        requires member { member < members_of self.old }
        requires whole { (h : List Event) → Stands self.old h → clash_of h ≡ None }
        ensures stands { (h : List Event) → Stands self.old h →
            Stands self.new (BreakEvent member place ∷ h) }
        ensures limits { self.new.limits ≡ self.old.limits }
        ensures room { self.new.room ≡ self.old.room - given_back back (kept_by member self.old) }
        ensures kept { self.new.kept ≡ slice_set self.old.kept member
            (kept_by member self.old - given_back back (kept_by member self.old)) }
    {
        let own = member as usize;
        let given = given_back(back, self.kept[own]);
        self.kept[own] = self.kept[own] - given;
        self.room = self.room - given;
        self.clash = Some(Clash { member, place });
        self.history.push(Event::Break { member, place });
    }
}

/// The room that an arrival asks for if its member has kept so much: none at the region's end, and
/// none at the end of a share that has kept it.
#[inline(always)]
pub(crate) fn arrival_asks(kind: Arrival, kept: u32) -> u32
    ensures { result ≡ arrival_asks kind kept }
{
    match kind {
        Arrival::Barrier => ARRIVAL_ROOM,
        Arrival::ShareEnd if kept >= ARRIVAL_ROOM => 0,
        Arrival::ShareEnd => ARRIVAL_ROOM,
        Arrival::RegionEnd => 0,
    }
}

/// Of so much that a member keeps, what goes back if this much is to.
fn given_back(back: u32, kept: u32) -> u32
    ensures { result ≡ given_back back kept }
{
    if back <= kept { back } else { kept }
}

/// What its member keeps after it: the end of a share uses what was kept.
#[inline(always)]
fn arrival_keeps(kind: Arrival, kept: u32) -> u32
    ensures { result ≡ arrival_keeps kind kept }
{
    match kind {
        Arrival::ShareEnd if kept >= ARRIVAL_ROOM => kept - ARRIVAL_ROOM,
        _ => kept,
    }
}

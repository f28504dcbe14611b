//! What a member keeps of itself.

ghost use Rattle.std.specs.Prelude.{◌≡◌, true, nat_lt, IsOk, IfOk, option_copied, Some, None};
ghost use Rattle.std.specs.Prelude.{◌∷◌, ◌||◌};
ghost use Rattle.gomp_types.specs.declared.call.Call.TheVariants.{Resume};
ghost use Rattle.gomp_types.specs.declared.reply.Reply.TheVariants.{Run, Wait, TaskDone};
ghost use Rattle.gomp_model.specs.Calls.{row_of};
ghost use Rattle.gomp_model.specs.Team.{waits_after};
ghost use Rattle.gomp_dispatch.specs.Leaves.{named_by};
ghost use Rattle.gomp_member.specs.Rooms.{StartsTask};
ghost use Rattle.gomp_member.specs.Own.{new_member, own_task, own_owner, own_after, is_next_reply, without_first, names_after, names_share, leaves_share_after, passes_end, left_after, with_waits, with_tasks, with_open};

use gomp_dispatch::Leaving;
use gomp_growth::reserve_one;
use gomp_types::{
    Call, CancelKind, MAX_TASK_DEPTH, Owner, Reply, Task, call_meant, into_call_meant,
};
use std::alloc::{AllocError, Global};
use std::marker::Model;

/// What a member of a team knows of itself. It moves with each reply to a call of the member
/// ([`note`](MemberState::note)).
#[derive(Drop)]
pub struct MemberState {
    /// Its team's number.
    team: u32,
    /// Its own number.
    number: u16,
    /// Whether it has passed the region's end.
    ended: bool,
    /// The call whose answer was to wait, if one is open.
    open_call: Option<Call>,
    /// The calls at which it started the tasks that it has not ended, the innermost last.
    beneath: Vec<Call>,
    /// These tasks, and those of its own creations.
    tasks: Vec<u32>,
    /// What it leaves, its share aside.
    leaving: Leaving,
    /// Whether it leaves its loop or sections construct.
    leaves_share: bool,
    /// How many critical names its tasks have entered and not left.
    names: u64,
}

impl Model for MemberState {
    ghost use Rattle.std.specs.Prelude.{reverse, nat_lt, ◌&&◌, vec_capacity, length};
    ghost use Rattle.gomp_member.specs.Rooms.{StateView};

    ghost Value = { StateView };

    ghost view = { λ s. record {
      own = record { team = s.team; number = s.number; ended = s.ended; waits = record { open_call = s.open_call; beneath = reverse s.beneath.items }; tasks = reverse s.tasks.items; leaving = s.leaving; leaves_share = s.leaves_share; names = s.names };
      room = nat_lt (length s.beneath.items) (vec_capacity s.beneath) && nat_lt (length s.tasks.items) (vec_capacity s.tasks);
    } };
}

impl MemberState {
    /// A member of this number of the team of this number, both from 0, of which nothing was asked. It
    /// fails if its memory is refused.
    pub fn new(alloc: Global, team: u32, number: u16) -> Result<MemberState, AllocError>
        ensures own { IfOk result (λ made. made.own ≡ new_member team number) }
        ensures room { IfOk result (λ made. made.room ≡ true) }
    {
        Ok(MemberState {
            team,
            number,
            ended: false,
            open_call: None,
            beneath: Vec::with_capacity(alloc, MAX_TASK_DEPTH as usize)?,
            tasks: Vec::with_capacity(alloc, MAX_TASK_DEPTH as usize)?,
            leaving: Leaving::NONE,
            leaves_share: false,
            names: 0,
        })
    }

    /// Its number in its team, from 0.
    pub fn number(&self) -> u16
        ensures { result ≡ self.now.own.number }
    {
        self.number
    }

    /// Whether it has passed the region's end.
    pub fn has_ended(&self) -> bool
        ensures { result ≡ self.now.own.ended }
    {
        let MemberState { ended, .. } = self;
        *ended
    }

    /// The task that it executes.
    pub fn task(&self) -> Task
        ensures { result ≡ own_task self.now.own }
    {
        match self.tasks.last() {
            Some(task) => Task::Explicit(*task),
            None => Task::Implicit(self.number),
        }
    }

    /// As whom it holds critical names and locks: its task does (OpenMP API 5.2, section 18.9).
    pub fn owner(&self) -> Owner
        ensures { result ≡ own_owner self.now.own }
    {
        let task = match self.task() {
            Task::Implicit(_) => 0,
            Task::Explicit(number) => number,
        };
        Owner {
            team: self.team,
            member: self.number,
            task,
        }
    }

    /// What it leaves since it has seen a cancellation, its share aside.
    pub fn leaving(&self) -> Leaving
        ensures { result ≡ self.now.own.leaving }
    {
        let MemberState { leaving, .. } = self;
        *leaving
    }

    /// Whether it leaves its loop or sections construct.
    pub fn leaves_share(&self) -> bool
        ensures { result ≡ self.now.own.leaves_share }
    {
        let MemberState { leaves_share, .. } = self;
        *leaves_share
    }

    /// Whether one of its tasks has entered a critical name and not left it. So who asks what its task holds need not ask the book
    /// about a member that is in none.
    #[inline(always)]
    pub fn is_in_names(&self) -> bool
        ensures { result ≡ nat_lt 0 self.now.own.names }
    {
        self.names > 0
    }

    /// The call that waits, if one does.
    pub fn open_call(&self) -> Option<&Call>
        ensures { option_copied result ≡ self.now.own.waits.open_call }
    {
        self.open_call.as_ref()
    }

    /// Lends the call that waits: none waits until [`put_open`](MemberState::put_open) gives it back.
    pub fn take_open(&mut self) -> Option<Call>
        ensures call { result ≡ self.old.own.waits.open_call }
        ensures own { self.new.own ≡ with_open None self.old.own }
        ensures room { self.new.room ≡ self.old.room }
    {
        self.open_call.take()
    }

    /// The call waits, in place of whatever waited.
    pub fn put_open(&mut self, call: Call)
        ensures own { self.new.own ≡ with_open (Some call) self.old.own }
        ensures room { self.new.room ≡ self.old.room }
    {
        self.open_call = Some(call);
    }

    /// Has room for one more task that the member starts. It fails if memory is refused; it takes
    /// some only if the member has started 64 tasks that it has not ended.
    pub fn make_room(&mut self) -> Result<(), AllocError>
        ensures own { self.new.own ≡ self.old.own }
        ensures made { IsOk result → self.new.room ≡ true }
        ensures there { self.old.room ≡ true → IsOk result }
    {
        reserve_one(&mut self.beneath)?;
        reserve_one(&mut self.tasks)
    }

    /// Takes note of the reply to a call of the member, in which a resume stands for the call that waits.
    #[inline(always)]
    pub fn note(&mut self, reply: &Reply, call: Call)
        requires room { StartsTask reply.now → self.old.room ≡ true }
        ensures { self.new.own ≡ own_after reply.now call self.old.own }
    {
        if is_next_reply(reply) && self.is_free() {
            return; // nothing moves
        }
        self.note_leaving(reply, &call);
        match reply {
            Reply::Refused(_) => (),
            Reply::Wait => self.wait(call),
            Reply::Run { task, own, .. } => self.start(*task, *own, call),
            Reply::TaskDone { waiting, .. } => self.come_back(*waiting),
            _ => self.open_call = None,
        }
    }

    /// What the member has left and leaves after the reply, and how many names it is in.
    #[inline(always)]
    fn note_leaving(&mut self, reply: &Reply, call: &Call)
        ensures own { self.new.own ≡ left_after reply.now call.now self.old.own }
        ensures room { self.new.room ≡ self.old.room }
    {
        let meant = call_meant(call, self.open_call.as_ref());
        let ended = self.ended || passes_end(meant, reply);
        let leaving = self.leaving.after(reply, meant);
        let leaves_share = leaves_share_after(reply, meant, self.leaves_share);
        let names = names_after(reply, meant, self.names);
        self.ended = ended;
        self.leaving = leaving;
        self.leaves_share = leaves_share;
        self.names = names;
    }

    /// The call waits, or that which it repeats.
    fn wait(&mut self, call: Call)
        ensures { self.new.own ≡
            with_waits (waits_after Wait call self.old.own.waits) self.old.own }
    {
        let waited = self.open_call.take();
        self.open_call = Some(into_call_meant(call, waited));
    }

    /// A task is started at the call, or at that which it repeats: its creator waits for its own
    /// (`own`), and repeats no call when it has ended.
    fn start(&mut self, task: u32, own: bool, call: Call)
        requires room { self.old.room ≡ true }
        ensures { self.new.own ≡ with_tasks (task ∷ self.old.own.tasks)
            (with_waits (waits_after (Run task 0 0 own) call self.old.own.waits) self.old.own) }
    {
        self.tasks.push_reserved(task);
        let waited = self.open_call.take();
        if !own {
            self.beneath.push_reserved(into_call_meant(call, waited));
        }
    }

    /// The innermost task has ended; the call at which it was started waits again (`waiting`).
    fn come_back(&mut self, waiting: bool)
        ensures { self.new.own ≡ with_tasks (without_first self.old.own.tasks)
            (with_waits (waits_after (TaskDone 0 waiting) Resume self.old.own.waits) self.old.own) }
    {
        let _ended = self.tasks.pop();
        self.open_call = if waiting { self.beneath.pop() } else { None };
    }
}

/// Whether the reply is one to a call for the next piece of a loop or of sections: that, or that none is left.
#[inline(always)]
fn is_next_reply(reply: &Reply) -> bool
    ensures { result ≡ is_next_reply reply.now }
{
    matches!(
        reply,
        Reply::Chunk { .. } | Reply::NoChunk | Reply::Section(_)
    )
}

/// Whether the member passes the region's end by this reply.
#[inline(always)]
fn passes_end(call: &Call, reply: &Reply) -> bool
    ensures { result ≡ passes_end call.now reply.now }
{
    matches!(call, Call::RegionEnd) && matches!(reply, Reply::Passed)
}

/// How many critical names a member is in after this reply, if it was in so many before.
#[inline(always)]
fn names_after(reply: &Reply, call: &Call, names: u64) -> u64
    ensures { result ≡ names_after reply.now call.now names }
{
    match (reply, call) {
        (Reply::Finished, Call::CriticalStart(_)) => names.saturating_add(1),
        (Reply::Finished, Call::CriticalEnd(_)) => names.saturating_sub(1),
        _ => names,
    }
}

/// Whether it leaves its share after this reply, if it did before, or did not (`leaves`).
#[inline(always)]
fn leaves_share_after(reply: &Reply, call: &Call, leaves: bool) -> bool
    ensures { result ≡ leaves_share_after reply.now call.now leaves }
{
    match reply {
        Reply::Refused(_) => leaves,
        Reply::Cancelling(true) => leaves || names_share(call),
        _ => leaves && !ends_construct(call),
    }
}

/// Whether the call names the member's loop or sections construct.
#[inline(always)]
fn names_share(call: &Call) -> bool
    ensures { result ≡ names_share (named_by call.now) }
{
    match call {
        Call::Cancel { kind, .. } => is_of_share(*kind),
        Call::Point(kind) => is_of_share(*kind),
        _ => false,
    }
}

/// Whether this is a loop or a sections construct.
#[inline(always)]
fn is_of_share(kind: CancelKind) -> bool
    ensures { result ≡ names_share (Some kind) }
{
    matches!(kind, CancelKind::Loop | CancelKind::Sections)
}

/// Whether the call ends a loop or a sections construct.
#[inline(always)]
fn ends_construct(call: &Call) -> bool
    ensures { result ≡ (row_of call.now).drains }
{
    matches!(
        call,
        Call::LoopEnd
            | Call::LoopEndNowait
            | Call::LoopEndCancel
            | Call::SectionsEnd
            | Call::SectionsEndNowait
            | Call::SectionsEndCancel
    )
}

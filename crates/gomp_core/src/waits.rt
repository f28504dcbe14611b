//! The calls of one member that are not answered whole: the one that waits, and those at which it
//! started the tasks that it has not ended.

ghost use Rattle.std.specs.Prelude.{◌≡◌, ◌<◌, ℕ, false, length, option_copied, IfOk, None, Some};
ghost use Rattle.gomp_types.specs.declared.limits.TheConstants.{MAX_TASK_DEPTH};
ghost use Rattle.gomp_types.specs.declared.reply.Reply.TheVariants.{Run, Wait};
ghost use Rattle.gomp_model.specs.Past.{no_waits};
ghost use Rattle.gomp_model.specs.Team.{open_first, waits_after};
ghost use Rattle.gomp_core.specs.Stands.{suspended_at};

use gomp_types::{Call, MAX_TASK_DEPTH, Reply, into_call_meant};
use std::alloc::{AllocError, Global};
use std::marker::Model;

/// The calls of a member that are not answered whole. It takes memory when it is made, and none
/// later: a member has started, and not ended, at most 64 tasks.
#[derive(Drop)]
pub struct Waits {
    /// The call whose answer was to wait, if one is open.
    open: Option<Call>,
    /// The calls at which the member started the tasks that it has not ended, the innermost last.
    beneath: Vec<Call>,
}

impl Model for Waits {
    ghost use Rattle.std.specs.Prelude.{◌≤◌, reverse, vec_capacity};
    ghost use Rattle.gomp_types.specs.declared.limits.TheConstants.{MAX_TASK_DEPTH};
    ghost use Rattle.gomp_model.specs.Past.{Waits as WaitsView};

    ghost Value = { WaitsView };

    ghost view = { λ w. record { open_call = w.open; beneath = reverse w.beneath.items } };

    ghost invariant = { λ w. MAX_TASK_DEPTH ≤ vec_capacity w.beneath };
}

impl Waits {
    /// No call. It fails if its memory is refused.
    pub fn new(alloc: Global) -> Result<Waits, AllocError>
        ensures none { IfOk result (λ waits. waits ≡ no_waits) }
    {
        Ok(Waits {
            open: None,
            beneath: Vec::with_capacity(alloc, MAX_TASK_DEPTH as usize)?,
        })
    }

    /// The call that waits, if one does.
    pub fn open_call(&self) -> Option<&Call>
        ensures { option_copied result ≡ self.now.open_call }
    {
        self.open.as_ref()
    }

    /// Takes note of the reply to the member's call, in which a resume stands for the call that waits:
    /// `Wait` leaves that open; at `Run` the member starts a task above it; at `TaskDone` the call at
    /// which the task was started waits again; a refusal changes nothing, and any other reply closes
    /// the wait.
    #[inline(always)]
    pub fn note(&mut self, reply: &Reply, call: Call)
        requires room { (task code arg : ℕ) → reply.now ≡ Run task code arg false →
            length self.old.beneath < MAX_TASK_DEPTH }
        ensures { self.new ≡ waits_after reply.now call self.old }
    {
        match reply {
            Reply::Refused(_) => (),
            Reply::Wait => self.wait(call),
            Reply::Run { own: false, .. } => self.suspend(call),
            Reply::TaskDone { waiting: true, .. } => self.open_innermost(),
            _ => self.close(),
        }
    }

    /// No call waits from now on.
    #[inline(always)]
    fn close(&mut self)
        ensures { self.new ≡ record self.old { open_call = None } }
    {
        // Most often none does, and to write that costs the size of a call.
        if self.open.is_some() {
            self.open = None;
        }
    }

    /// The call waits, or that which it repeats.
    fn wait(&mut self, call: Call)
        ensures { self.new ≡ waits_after Wait call self.old }
    {
        let open = self.open.take();
        self.open = Some(into_call_meant(call, open));
    }

    /// A task is started at the call, or at that which it repeats.
    fn suspend(&mut self, call: Call)
        requires room { length self.old.beneath < MAX_TASK_DEPTH }
        ensures { self.new ≡ suspended_at call self.old }
    {
        let open = self.open.take();
        self.beneath.push_reserved(into_call_meant(call, open));
    }

    /// The call at which the innermost task was started waits again.
    fn open_innermost(&mut self)
        ensures { self.new ≡ open_first self.old.beneath }
    {
        self.open = self.beneath.pop();
    }
}

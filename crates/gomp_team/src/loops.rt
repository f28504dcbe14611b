//! The start of a loop whose schedule may be left to the control variables.

ghost use Rattle.gomp_types.specs.declared.call.Call.TheVariants as calls;
ghost use Rattle.std.specs.Prelude.{◌≡◌};
ghost use Rattle.gomp_types.specs.Pieces.{resolved_loop};
ghost use Rattle.gomp_team.specs.Members.{Called, CalledWhole};

use crate::member::Member;
use gomp_ompt::Tool;
use gomp_team_book::HoldLedger;
use gomp_types::{Call, LoopDesc, Reply};
use std::sync::Wait;
use std::sync::ledger::Ledger;

impl<L: Ledger, H: HoldLedger, F: Ledger, T: Tool> Member<L, H, F, T> {
    /// Begins a loop and asks for the first chunk, as [`try_call`](Member::try_call) with `LoopStart`. A
    /// schedule that is left to the control variables is theirs (OpenMP API 5.2, section 11.5.3).
    pub fn try_loop_start<R: Wait>(&mut self, rt: &R, desc: LoopDesc) -> Reply
        ensures { Called T.on_gives
            (calls.LoopStart (resolved_loop self.old.icv.sched self.old.icv.chunk desc))
            result self.old self.new }
    {
        let desc = self.scheduled(desc);
        self.try_call(rt, Call::LoopStart(desc))
    }

    /// The same, until it is answered, as [`call`](Member::call).
    pub fn loop_start<R: Wait>(&mut self, rt: &R, desc: LoopDesc) -> Reply
        ensures { CalledWhole T.on_gives
            (calls.LoopStart (resolved_loop self.old.icv.sched self.old.icv.chunk desc))
            result self.old self.new }
    {
        let desc = self.scheduled(desc);
        self.call(rt, Call::LoopStart(desc))
    }

    /// The loop with the schedule that counts.
    pub(crate) fn scheduled(&self, desc: LoopDesc) -> LoopDesc
        ensures { result ≡ resolved_loop self.now.icv.sched self.now.icv.chunk desc }
    {
        let icv = &self.team.icv;
        desc.resolved_loop(icv.sched(), icv.chunk())
    }
}

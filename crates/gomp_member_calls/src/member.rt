//! A member of a team on threads has these calls.

ghost use Rattle.gomp_team.specs.Members.{Called, CalledWhole};

use crate::calls::MemberCalls;
use gomp_ompt::Tool;
use gomp_team::Member;
use gomp_team_book::HoldLedger;
use gomp_types::{Call, Reply};
use std::sync::Wait;
use std::sync::ledger::Ledger;

impl<L: Ledger, H: HoldLedger, F: Ledger, T: Tool> MemberCalls for Member<L, H, F, T> {
    ghost called = { Called T.on_gives };

    ghost called_whole = { CalledWhole T.on_gives };

    /// As [`Member::try_call`].
    fn try_once<R: Wait>(&mut self, rt: &R, call: Call) -> Reply {
        self.try_call(rt, call)
    }

    /// As [`Member::call`].
    fn call_whole<R: Wait>(&mut self, rt: &R, call: Call) -> Reply {
        self.call(rt, call)
    }
}

//! The calls on critical names and locks.
//!
//! OpenMP API 5.2, sections 15.2 and 18.9.

ghost use Rattle.std.specs.Prelude.{◌≡◌, false, true, Option, IfSome};
ghost use Rattle.gomp_types.specs.declared.refusal.Refusal.{Refusal};
ghost use Rattle.gomp_types.specs.Least.{lesser};
ghost use Rattle.gomp_types.specs.declared.call.Server.TheVariants.{Book};
ghost use Rattle.gomp_types.specs.Servers.{served_by};
ghost use Rattle.gomp_team.specs.Members.{HoldsKey, FreesKey};
ghost use Rattle.gomp_member.specs.Own.{own_owner};
ghost use Rattle.gomp_team.specs.Answers.{IsNoneOrBroken, TeamAnswers, made_refusal};
ghost use Rattle.gomp_team_book.specs.Others.{IsAnswered};
ghost use Rattle.gomp_team.specs.Moves.{book_call, events_part, holds_part, releases_part};

use crate::parts::MemberParts;
use crate::team::SharedTeam;
use gomp_member::MemberState;
use gomp_team_book::HoldLedger;
use gomp_team_book::under_lock::{
    try_await_critical, try_await_lock, try_await_nest, try_critical_end, try_critical_start,
    try_lock_destroy, try_lock_init, try_nest_init, try_set, try_set_nest, try_test, try_test_nest,
    try_unset, try_unset_nest,
};
use gomp_team_calls::lesser;
use gomp_types::{Call, Refusal, Reply};
use std::sync::Wait;
use std::sync::ledger::Ledger;

impl<L: Ledger, H: HoldLedger, F: Ledger> SharedTeam<L, H, F> {
    /// One try of a call on a name or a lock. Whether the member may call at all is tested first, and
    /// whether the team is broken; then the book is asked, whose own tests come later by number.
    pub(crate) fn answer_by_book<R: Wait>(
        &self,
        rt: &R,
        state: &MemberState,
        parts: &mut MemberParts<L, H, F>,
        call: &Call,
        repeated: bool,
    ) -> Reply
        requires served { served_by call.now ≡ Book }
        ensures board { parts.new.board ≡ events_part repeated call.now result parts.old.board }
        ensures held { parts.new.held ≡ holds_part repeated call.now result parts.old.held }
        ensures freed { parts.new.freed ≡ releases_part repeated call.now result parts.old.freed }
        ensures seat { parts.new.seat ≡ parts.old.seat }
        ensures answers { TeamAnswers self.now.team.icv.cancellation repeated state.now.own call.now
            parts.old.seat result }
    {
        if let Some(refusal) = self.early_refusal(rt, state, call, repeated) {
            return Reply::Refused(refusal);
        }
        match call {
            Call::LockInit => try_lock_init(rt, &self.book),
            Call::NestInit => try_nest_init(rt, &self.book),
            Call::LockDestroy(number) => try_lock_destroy(rt, &self.book, *number),
            Call::CriticalEnd(_) | Call::Unset(_) | Call::UnsetNest(_) => {
                self.release(rt, state, parts, call, repeated)
            }
            _ if repeated => self.hold_again(rt, state, parts, call),
            _ => self.hold(rt, state, parts, call),
        }
    }

    /// Why neither the member's own knowledge nor the team lets it call: `Ended`, `Broken`, `Waiting` or
    /// `Leaving`.
    fn early_refusal<R: Wait>(
        &self,
        rt: &R,
        state: &MemberState,
        call: &Call,
        repeated: bool,
    ) -> Option<Refusal>
        ensures early { (team : Option Refusal) × IsNoneOrBroken team ×
            (result ≡ lesser (made_refusal repeated state.now.own call.now) team) }
    {
        let own = if repeated {
            None
        } else {
            state.own_refusal(call, false)
        };
        lesser(own, self.any_call_refusal(rt))
    }

    /// One try to hold a name or a lock.
    fn hold<R: Wait>(
        &self,
        rt: &R,
        state: &MemberState,
        parts: &mut MemberParts<L, H, F>,
        call: &Call,
    ) -> Reply
        requires holds { HoldsKey call.now }
        ensures board { parts.new.board ≡ parts.old.board }
        ensures held { parts.new.held ≡ holds_part false call.now result parts.old.held }
        ensures freed { parts.new.freed ≡ releases_part false call.now result parts.old.freed }
        ensures seat { parts.new.seat ≡ parts.old.seat }
        ensures answer { IfSome (book_call false call.now) (λ asked.
            IsAnswered (own_owner state.now.own) asked result) }
    {
        let owner = state.owner();
        let held = &mut parts.held;
        match call {
            Call::CriticalStart(name) => try_critical_start(rt, &self.book, held, owner, name),
            Call::Set(number) => try_set(rt, &self.book, held, owner, *number),
            Call::Test(number) => try_test(rt, &self.book, held, owner, *number),
            Call::SetNest(number) => try_set_nest(rt, &self.book, held, owner, *number),
            Call::TestNest(number) => try_test_nest(rt, &self.book, held, owner, *number),
            _ => unreachable!(),
        }
    }

    /// One try to go on with a call that waits to hold one.
    fn hold_again<R: Wait>(
        &self,
        rt: &R,
        state: &MemberState,
        parts: &mut MemberParts<L, H, F>,
        call: &Call,
    ) -> Reply
        requires holds { HoldsKey call.now }
        ensures board { parts.new.board ≡ parts.old.board }
        ensures held { parts.new.held ≡ holds_part true call.now result parts.old.held }
        ensures freed { parts.new.freed ≡ releases_part true call.now result parts.old.freed }
        ensures seat { parts.new.seat ≡ parts.old.seat }
        ensures answer { IfSome (book_call true call.now) (λ asked.
            IsAnswered (own_owner state.now.own) asked result) }
    {
        let owner = state.owner();
        let held = &mut parts.held;
        match call {
            Call::CriticalStart(name) => try_await_critical(rt, &self.book, held, owner, name),
            Call::Set(number) => try_await_lock(rt, &self.book, held, owner, *number),
            Call::SetNest(number) => try_await_nest(rt, &self.book, held, owner, *number),
            // The tests of locks never wait; asked again they are what they were.
            Call::Test(number) => try_test(rt, &self.book, held, owner, *number),
            Call::TestNest(number) => try_test_nest(rt, &self.book, held, owner, *number),
            _ => unreachable!(),
        }
    }

    /// The release of a name or a lock.
    fn release<R: Wait>(
        &self,
        rt: &R,
        state: &MemberState,
        parts: &mut MemberParts<L, H, F>,
        call: &Call,
        repeated: bool,
    ) -> Reply
        requires frees { FreesKey call.now }
        ensures board { parts.new.board ≡ parts.old.board }
        ensures held { parts.new.held ≡ holds_part repeated call.now result parts.old.held }
        ensures freed { parts.new.freed ≡ releases_part repeated call.now result parts.old.freed }
        ensures seat { parts.new.seat ≡ parts.old.seat }
        ensures answer { IfSome (book_call repeated call.now) (λ asked.
            IsAnswered (own_owner state.now.own) asked result) }
    {
        let owner = state.owner();
        let freed = &mut parts.freed;
        match call {
            Call::CriticalEnd(name) => try_critical_end(rt, &self.book, freed, owner, name),
            Call::Unset(number) => try_unset(rt, &self.book, freed, owner, *number),
            Call::UnsetNest(number) => try_unset_nest(rt, &self.book, freed, owner, *number),
            _ => unreachable!(),
        }
    }
}

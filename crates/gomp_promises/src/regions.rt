//! Regions: the size of a team, the control variables of its members; teams with lower limits or with the locks of another.

ghost use Rattle.std.specs.Prelude.{◌≡◌, ◌≤◌, ◌<◌, ◌↔◌, ◌⊎◌, [], IfOk, Err, option_copied};
ghost use Rattle.gomp_types.specs.declared.limits.TheConstants.{MAX_MEMBERS};
ghost use Rattle.gomp_icv.specs.Teams.{team_size, child};
ghost use Rattle.gomp_types.specs.declared.refusal.Refusal.{Refusal};
ghost use Rattle.gomp_types.specs.declared.refusal.Refusal.TheVariants.{BadTeam, NoMemory};
ghost use Rattle.gomp_types.specs.Limits.{capped_limits, standard, IsTeamSize};
ghost use Rattle.gomp_model.specs.Team.{Record};
ghost use Rattle.gomp_core.specs.Stands.{Stands, open_call_of, past, members_of};
ghost use Rattle.gomp_core.specs.LocksMade.{lock_kinds_of, locks_made};

use gomp_core::Team;
use gomp_icv::Icv;
use gomp_locks::LockBook;
use gomp_shares::Shares;
use gomp_types::{Call, Limits, Refusal};
use std::alloc::Global;

/// The size of a team of a region.
pub fn team_size(icv: &Icv, requested: Option<u32>, if_clause: bool, busy: u32) -> u32
    ensures size { result ≡ team_size icv.now requested if_clause busy }
    ensures within { (1 ≤ result) × (result ≤ MAX_MEMBERS) }
    ensures limit { 1 ≤ busy → result ≤ icv.now.thread_limit }
{
    gomp_icv::team_size(icv, requested, if_clause, busy)
}

/// The control variables of its members.
pub fn child_icv(icv: &Icv, size: u32) -> Icv
    ensures { result ≡ child icv.now size }
{
    gomp_icv::child_icv(icv, size)
}

/// A team with lower limits.
pub fn with_limits<S: Shares + Drop>(
    alloc: Global,
    count: u16,
    icv: Icv,
    limits: Limits,
) -> Result<Team<S>, Refusal>
    ensures size { result ≡ Err BadTeam ↔ (IsTeamSize count → ⊥) }
    ensures refused { (refusal : Refusal) → result ≡ Err refusal →
        (refusal ≡ BadTeam) ⊎ (refusal ≡ NoMemory) }
    ensures members { IfOk result (λ team. members_of team ≡ count) }
    ensures icv { IfOk result (λ team. team.icv ≡ icv) }
    ensures limits { IfOk result (λ team. team.board.limits ≡ capped_limits limits) }
    ensures stands { IfOk result (λ team. Stands S.stands S.members team []) }
{
    Team::<S>::with_limits(alloc, count, icv, limits)
}

/// A team with the locks of another book.
pub fn with_book<S: Shares + Drop>(
    alloc: Global,
    count: u16,
    icv: Icv,
    book: LockBook,
) -> Result<Team<S>, Refusal>
    ensures size { result ≡ Err BadTeam ↔ (IsTeamSize count → ⊥) }
    ensures refused { (refusal : Refusal) → result ≡ Err refusal →
        (refusal ≡ BadTeam) ⊎ (refusal ≡ NoMemory) }
    ensures members { IfOk result (λ team. members_of team ≡ count) }
    ensures icv { IfOk result (λ team. team.icv ≡ icv) }
    ensures limits { IfOk result (λ team. team.board.limits ≡ standard) }
    ensures stands { IfOk result (λ team.
        Stands S.stands S.members team (locks_made (lock_kinds_of book.locks))) }
{
    Team::<S>::with_book(alloc, count, icv, book)
}

/// The call of a member that waits.
pub fn open_call<S: Shares + Drop>(this: &Team<S>, member: u16) -> Option<&Call>
    ensures waits { option_copied result ≡ open_call_of this.now member }
    ensures stands { (before : Record) → Stands S.stands S.members this.now before →
        member < members_of this.now →
        option_copied result ≡ ((past this.now before).waits member).open_call }
{
    this.open_call(member)
}

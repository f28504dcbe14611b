//! The size of a new team, and the control variables of its members.
//!
//! OpenMP API 5.2, section 10.1.1 (how many threads a team has) and section 2.4 (what the data
//! environment of its members inherits).

ghost use Rattle.std.specs.Prelude.{◌≡◌, ◌≤◌};
ghost use Rattle.gomp_types.specs.declared.limits.TheConstants.{MAX_MEMBERS};
ghost use Rattle.gomp_icv.specs.Teams.{team_size, child};

use crate::icv::Icv;
use gomp_types::MAX_MEMBERS;

/// How many members the next team has, 1 to 64.
///
/// `requested` is the number of the `num_threads` clause, 0 counting as 1 (own); without a clause the
/// first size of nthreads-var counts. `busy` is how many threads of the program are busy, from 1,
/// since the encountering one counts; with 0, which no caller has, one thread above thread-limit-var
/// may be given. The size is 1 if the `if` clause is false, or if as many active levels are
/// around as max-active-levels-var allows; else it is the least of what is requested, of what
/// thread-limit-var leaves, at least 1, and of 64. dyn-var changes nothing (own).
pub fn team_size(icv: &Icv, requested: Option<u32>, if_clause: bool, busy: u32) -> u32
    ensures size { result ≡ team_size icv.now requested if_clause busy }
    ensures within { (1 ≤ result) × (result ≤ MAX_MEMBERS) }
    ensures limit { 1 ≤ busy → result ≤ icv.now.thread_limit }
{
    let available = (icv.thread_limit() + 1).saturating_sub(busy).max(1);
    if !if_clause || icv.active() >= icv.max_active_levels() {
        return 1;
    }
    let wanted = match requested {
        Some(number) => number.max(1),
        None => icv.nthreads().first(),
    };
    wanted.min(available).min(MAX_MEMBERS as u32)
}

/// The control variables of the members of a new team of `size` members, 1 to 64: nthreads-var has
/// lost its first size, if it has more than one, and active-levels-var is one more if the team
/// has more than one member; it stays at the largest number of its type (own). It takes no memory.
pub fn child_icv(icv: &Icv, size: u32) -> Icv
    ensures { result ≡ child icv.now size }
{
    icv.child(size)
}

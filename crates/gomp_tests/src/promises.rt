//! What a caller of [`make_calls`] builds on: each promise of its contract is got here from that contract alone, so one that
//! said less would not do.

ghost use Rattle.std.specs.Prelude.{◌≡◌, [], length, IfOk, vec_len};
ghost use Rattle.gomp_types.specs.Deals.{schedule};
ghost use Rattle.gomp_types.specs.Limits.{IsTeamSize};
ghost use Rattle.gomp_shares.specs.Laws.{OrderedLaws, ShareLaws};
ghost use Rattle.gomp_shares.specs.Runs.{AreAnswers, events_of_run};

use gomp_shares::{ShareAnswer, ShareStep, Shares, make_calls};
use std::alloc::{AllocError, Global};

/// The answers to these calls, and the shares after them.
pub(crate) fn answers_of<S: Shares>(
    alloc: Global,
    count: u16,
    steps: &[ShareStep],
) -> Result<(S, Vec<ShareAnswer>), AllocError>
    requires team { IsTeamSize count }
    ensures members { IfOk result (λ made. S.members made.0 ≡ count) }
    ensures each { IfOk result (λ made. vec_len made.1 ≡ length steps.now) }
    ensures answers { IfOk result (λ made. AreAnswers count steps.now made.1.items []) }
    ensures stands { IfOk result (λ made.
        S.stands made.0 (events_of_run count steps.now made.1.items [])) }
    ensures laws { IfOk result (λ made.
        ShareLaws (schedule count) count (events_of_run count steps.now made.1.items [])) }
    ensures ordered { IfOk result (λ made.
        OrderedLaws count (events_of_run count steps.now made.1.items [])) }
{
    make_calls(alloc, count, steps)
}

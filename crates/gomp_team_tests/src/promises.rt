//! What a caller of [`run`] builds on: each promise of its contract is got here from that contract alone, so one that said
//! less would not do.

ghost use Rattle.std.specs.Prelude.{◌≡◌, ◌↔◌, ◌⊎◌, length, IfOk, Err, vec_len};
ghost use Rattle.gomp_types.specs.declared.refusal.Refusal.{Refusal};
ghost use Rattle.gomp_types.specs.declared.refusal.Refusal.TheVariants.{BadTeam, NoMemory};
ghost use Rattle.gomp_types.specs.Limits.{IsTeamSize};
ghost use Rattle.gomp_model.specs.Team.{events, Caused};
ghost use Rattle.gomp_laws.specs.Headline.{Headline};
ghost use Rattle.gomp_laws.specs.Replies.{HoldReplies, TaskReplies, CancelReplies};
ghost use Rattle.gomp_core.specs.Stands.{Stands, terms_of, standard_terms};
ghost use Rattle.gomp_core.specs.Resolved.{record_of};

use crate::checks::{AMPLE, same};
use gomp_core::{Team, run};
use gomp_icv::Icv;
use gomp_share_ring::RingAll;
use gomp_shares::Shares;
use gomp_types::{Call, Refusal, Reply, Step};
use std::alloc::Global;
use std::process::Abort;

/// The replies of a run, and the team after it.
fn replies_of<S: Shares + Drop>(
    alloc: Global,
    count: u16,
    icv: Icv,
    steps: Vec<Step>,
) -> Result<(Team<S>, Vec<Reply>), Refusal>
    ensures size { result ≡ Err BadTeam ↔ (IsTeamSize count → ⊥) }
    ensures refused { (refusal : Refusal) → result ≡ Err refusal →
        (refusal ≡ BadTeam) ⊎ (refusal ≡ NoMemory) }
    ensures one_reply_each { IfOk result (λ ran. vec_len ran.1 ≡ length steps.items) }
    ensures terms { IfOk result (λ ran. terms_of ran.0 ≡ standard_terms count icv) }
    ensures icv { IfOk result (λ ran. ran.0.icv ≡ icv) }
    ensures caused { IfOk result (λ ran.
        Caused (standard_terms count icv) (record_of icv steps.items ran.1.items)) }
    ensures stands { IfOk result (λ ran.
        Stands S.stands S.members ran.0 (record_of icv steps.items ran.1.items)) }
    ensures headline { IfOk result (λ ran. Headline count
        (events (standard_terms count icv) (record_of icv steps.items ran.1.items))) }
    ensures replies { IfOk result (λ ran.
        HoldReplies (standard_terms count icv) (record_of icv steps.items ran.1.items)) }
    ensures tasks { IfOk result (λ ran.
        TaskReplies (standard_terms count icv) (record_of icv steps.items ran.1.items)) }
    ensures cancels { IfOk result (λ ran.
        CancelReplies (standard_terms count icv) (record_of icv steps.items ran.1.items)) }
{
    run(alloc, count, icv, steps)
}

/// What two members are answered that meet at a barrier.
fn barrier_of_two(rt: &impl Abort, alloc: Global) -> Vec<Reply> {
    let mut steps = Vec::new(alloc);
    for member in [0, 1, 0] {
        let call = if steps.len() < 2 {
            Call::Barrier
        } else {
            Call::Resume
        };
        steps.push(Step { member, call }).expect(rt, AMPLE);
    }
    let (team, replies) = replies_of::<RingAll>(alloc, 2, Icv::initial(), steps).expect(rt, AMPLE);
    drop(team);
    replies
}

#[test]
fn run_as_promised(rt: HostRuntime) {
    let replies = barrier_of_two(&rt, rt.alloc());
    let expected: &[Reply] = &[Reply::Wait, Reply::Passed, Reply::Passed];
    same(&rt, replies.as_slice(), expected, "a barrier of", 2);
    drop(replies);
}

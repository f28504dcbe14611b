//! A list of steps, answered by a new team.

ghost use Rattle.std.specs.Prelude.{◌≡◌, ◌↔◌, ◌⊎◌, length, IfOk, Err, vec_len};
ghost use Rattle.gomp_types.specs.declared.refusal.Refusal.{Refusal};
ghost use Rattle.gomp_types.specs.declared.refusal.Refusal.TheVariants.{BadTeam, NoMemory};
ghost use Rattle.gomp_model.specs.Team.{events, Caused};
ghost use Rattle.gomp_laws.specs.Headline.{Headline};
ghost use Rattle.gomp_laws.specs.Replies.{HoldReplies, TaskReplies, CancelReplies};
ghost use Rattle.gomp_core.specs.Stands.{Stands, terms_of, standard_terms};
ghost use Rattle.gomp_types.specs.Limits.{IsTeamSize};
ghost use Rattle.gomp_core.specs.Resolved.{record_of};

use crate::team::Team;
use gomp_icv::Icv;
use gomp_shares::Shares;
use gomp_types::{Refusal, Reply, Step};
use std::alloc::Global;

/// The replies of a new team of `count` members, by these control variables, to these steps, in
/// order, one for each, and the team after them. The steps are dropped. In the record of the run the
/// control variables have replaced each runtime schedule.
///
/// **The headline**, of all that these steps and replies give: for every team size and list of steps
/// no iteration, section or single is taken twice, and of a static loop a member takes only its own
/// pieces; a loop or sections construct that all members left, and none cancelled, had every iteration
/// or section taken, and a single that all members left was executed by one of them; ordered parts run in
/// the order of its iterations, and an ordered loop that all members left had each of its pieces
/// handed on; the words that a member copies are those that the executor of the single put; all
/// members go through the same constructs in the same order; in a region that is not cancelled no member
/// passes a barrier before all arrived, and have left the constructs before it, and in any none passes the
/// region's end before all arrived there; a critical name and a lock have at most one owner
/// at a time, which alone releases it; no member passes a barrier while it holds a critical name; no
/// task is started twice, or before it is created, or before the tasks that its `depend` clause names
/// are complete, or by a member that may not start it; an undeferred task is started by its creator
/// alone; and each wait ends only after its tasks: those bound to it at a barrier, all of them at the
/// region's end, the children at a taskwait, or those that its items name, those of a group and their
/// descendants at the group's end. After a cancellation of the region or of a group no task that it
/// reaches is created or started; one that runs goes on.
///
/// A member waits for a name or a lock only while another owner holds it, and a count that is
/// answered is the number of open holds of the lock (`HoldReplies`). A task is run with the code and
/// the argument with which it was created; a creation and its resume run as their own the task that
/// they created, and no other; the call at which a deferred task was started waits again when that has
/// ended, and no call after an undeferred one (`TaskReplies`). A member is told that the region is
/// cancelled only if it is, and a task is dropped only if a cancellation reaches it; if the control
/// variables allow no cancellation, nothing is cancelled (`CancelReplies`).
///
/// Refused with `BadTeam` (E38) if the size is not 1 to 64, and with `NoMemory` (E37) if the
/// memory of the team or of the replies is refused; then the steps are dropped and nothing is kept.
pub fn run<S: Shares + Drop>(
    alloc: Global,
    count: u16,
    icv: Icv,
    steps: Vec<Step>,
) -> Result<(Team<S>, Vec<Reply>), Refusal>
    ensures size { result ≡ Err BadTeam ↔ (IsTeamSize count → ⊥) }
    ensures refused { (refusal : Refusal) → result ≡ Err refusal →
        (refusal ≡ BadTeam) ⊎ (refusal ≡ NoMemory) }
    ensures one_reply_each { IfOk result (λ ran. vec_len ran.1 ≡ length steps.items) }
    ensures terms { IfOk result (λ ran. terms_of ran.0 ≡ standard_terms count icv) }
    ensures icv { IfOk result (λ ran. ran.0.icv ≡ icv) }
    ensures caused { IfOk result (λ ran.
        Caused (standard_terms count icv) (record_of icv steps.items ran.1.items)) }
    ensures stands { IfOk result (λ ran.
        Stands S.stands S.members ran.0 (record_of icv steps.items ran.1.items)) }
    ensures headline { IfOk result (λ ran. Headline count
        (events (standard_terms count icv) (record_of icv steps.items ran.1.items))) }
    ensures replies { IfOk result (λ ran.
        HoldReplies (standard_terms count icv) (record_of icv steps.items ran.1.items)) }
    ensures tasks { IfOk result (λ ran.
        TaskReplies (standard_terms count icv) (record_of icv steps.items ran.1.items)) }
    ensures cancels { IfOk result (λ ran.
        CancelReplies (standard_terms count icv) (record_of icv steps.items ran.1.items)) }
{
    let mut team = Team::new(alloc, count, icv)?;
    match Vec::with_capacity(alloc, steps.len()) {
        Ok(mut replies) => {
            for step in steps {
                replies.push_reserved(team.step(step.member, step.call));
            }
            Ok((team, replies))
        }
        Err(_) => Err(Refusal::NoMemory),
    }
}

//! A list of steps, made by a new team and traced.

ghost use Rattle.std.specs.Prelude.{◌≡◌, ◌↔◌, ◌⊎◌, [], length, if◌then◌else◌, IfOk, Err};
ghost use Rattle.gomp_types.specs.declared.refusal.Refusal.{Refusal};
ghost use Rattle.gomp_types.specs.declared.refusal.Refusal.TheVariants.{BadTeam, NoMemory};
ghost use Rattle.gomp_types.specs.Limits.{IsTeamSize, standard};
ghost use Rattle.gomp_core.specs.Stands.{Stands, members_of};
ghost use Rattle.gomp_service.specs.Statuses.{lacks};
ghost use Rattle.gomp_trace.specs.Runs.{Ran, StepMade, tracked};

use crate::event::TraceEvent;
use crate::meant::copied_call;
use crate::tracing::Tracing;
use gomp_core::Team;
use gomp_icv::Icv;
use gomp_ompt::records;
use gomp_service::answer::lacks;
use gomp_shares::Shares;
use gomp_types::{Refusal, Reply, Step};
use std::alloc::{AllocError, Global};

/// What a run gives.
#[derive(Drop)]
pub(crate) struct Outcome {
    /// The events of its trace, in their order.
    pub(crate) events: Vec<TraceEvent>,
    /// The exit status: 0 if the steps were answered, 3 if one of them with want of memory (E37).
    pub(crate) code: u8,
}

/// Has a new team of this many members, by these control variables, make these steps, and traces them.
///
/// Refused with `BadTeam` (E38) if the size is not 1 to 64, and with `NoMemory` (E37) for want of
/// memory outside of the steps.
pub(crate) fn trace_run<S: Shares + Drop>(
    alloc: Global,
    members: u16,
    icv: Icv,
    steps: Vec<Step>,
) -> Result<Outcome, Refusal>
    ensures size { result ≡ Err BadTeam ↔ (IsTeamSize members → ⊥) }
    ensures refused { (refusal : Refusal) → result ≡ Err refusal →
        (refusal ≡ BadTeam) ⊎ (refusal ≡ NoMemory) }
    ensures ran { IfOk result (λ outcome.
        Ran icv members steps.items outcome.events.items outcome.code) }
{
    let made = {
        let mut team: Team<S> = Team::new(alloc, members, icv)?;
        make_steps(alloc, &mut team, members, steps)
    };
    match made {
        Ok(outcome) => Ok(outcome),
        Err(_) => Err(Refusal::NoMemory),
    }
}

/// Has this new team, of this many members, make these steps, and traces them.
fn make_steps<S: Shares>(
    alloc: Global,
    team: &mut Team<S>,
    members: u16,
    steps: Vec<Step>,
) -> Result<Outcome, AllocError>
    requires size { members_of team.old ≡ members }
    requires limits { team.old.board.limits ≡ standard }
    requires begins { Stands S.stands S.members team.old [] }
    ensures { IfOk result (λ outcome.
        Ran team.old.icv members steps.items outcome.events.items outcome.code) }
{
    let mut traced = Tracing::begin(alloc, members)?;
    let mut time = 0;
    let mut code = 0;
    for step in steps {
        time += 1;
        code = make_step(alloc, team, &mut traced, time, step, code)?;
    }
    let events = traced.finish(time)?;
    Ok(Outcome { events, code })
}

/// Has the team make a step, and takes the records of its reply. `time` is the step's number, from 1;
/// the answer is the exit status, which was `code` before the step.
fn make_step<S: Shares>(
    alloc: Global,
    team: &mut Team<S>,
    traced: &mut Tracing,
    time: u64,
    step: Step,
    code: u8,
) -> Result<u8, AllocError>
    requires lanes { length traced.old.lanes ≡ members_of team.old }
    ensures { IfOk result (λ code_after. StepMade
        (record { stands = S.stands; members = S.members; time = time; step = step })
        (tracked team.old traced.old code) (tracked team.new traced.new code_after)) }
{
    let first = !step.call.is_resume();
    let call = copied_call(alloc, team, &step)?;
    let Step { member, call: made } = step;
    let reply = team.step(member, made);
    traced.take_all(time, member, records(&call, first, &reply).as_slice())?;
    Ok(code_with(code, &reply))
}

/// The exit status with one more reply: 3 if that is want of memory.
fn code_with(code: u8, reply: &Reply) -> u8
    ensures { result ≡ (if lacks reply.now then 3 else code) }
{
    if lacks(reply) {
        return 3;
    }
    code
}

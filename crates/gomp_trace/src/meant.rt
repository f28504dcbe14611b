//! The call that a step makes or repeats.

ghost use Rattle.std.specs.Prelude.{◌≡◌, IfOk};
ghost use Rattle.gomp_types.specs.Resumes.{call_meant};
ghost use Rattle.gomp_core.specs.Stands.{open_call_of};

use gomp_core::Team;
use gomp_shares::Shares;
use gomp_types::{Call, Step, call_meant};
use std::alloc::{AllocError, Global};

/// A copy of the call that this step makes, or repeats if it is a resume.
pub(crate) fn copied_call<S: Shares>(
    alloc: Global,
    team: &Team<S>,
    step: &Step,
) -> Result<Call, AllocError>
    ensures { IfOk result (λ call.
        call ≡ call_meant step.now.call (open_call_of team.now step.now.member)) }
{
    call_meant(&step.call, team.open_call(step.member)).copied(alloc)
}

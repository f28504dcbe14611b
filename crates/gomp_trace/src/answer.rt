//! From a text of steps to the trace of its run, and the exit status.

ghost use Rattle.std.specs.Prelude.{IfOk, string_bytes};
ghost use Rattle.gomp_service.specs.Statuses.{is_size};
ghost use Rattle.gomp_trace.specs.Serving.{IsTraced, TeamTrace};

use crate::json::trace_text;
use crate::run::trace_run;
use gomp_icv::Icv;
use gomp_script::{ParseError, parse_steps, print_bad_line, print_refusal};
use gomp_service::answer::{Answer, team_size};
use gomp_shares::Shares;
use gomp_types::{Refusal, Step};
use std::alloc::{AllocError, Global};

/// The trace of a text of steps, run by a team by these control variables; or why the text or its team
/// is refused. The error is want of memory outside of the steps.
pub(crate) fn trace_answer<S: Shares + Drop>(
    alloc: Global,
    icv: Icv,
    text: &[u8],
) -> Result<Answer, AllocError>
    ensures { IfOk result (IsTraced icv text.now) }
{
    match parse_steps(alloc, text) {
        Ok((count, steps)) => trace_team::<S>(alloc, icv, count, steps),
        Err(ParseError::Bad(bad)) => Ok(Answer {
            text: print_bad_line(alloc, &bad)?,
            code: 1,
        }),
        Err(ParseError::Memory) => Err(AllocError),
    }
}

/// The trace of these steps, run by a team of this many members; or why the team is refused.
fn trace_team<S: Shares + Drop>(
    alloc: Global,
    icv: Icv,
    count: u32,
    steps: Vec<Step>,
) -> Result<Answer, AllocError>
    ensures { IfOk result (λ answer. TeamTrace icv
        (is_size count) count steps.items (string_bytes answer.text) answer.code) }
{
    let members = team_size(count);
    match trace_run::<S>(alloc, members, icv, steps) {
        Ok(outcome) => Ok(Answer {
            text: trace_text(alloc, members, outcome.events.as_slice())?,
            code: outcome.code,
        }),
        Err(Refusal::BadTeam) => Ok(Answer {
            text: print_refusal(alloc, &Refusal::BadTeam)?,
            code: 2,
        }),
        Err(_) => Err(AllocError),
    }
}

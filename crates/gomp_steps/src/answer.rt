//! From a text of steps to the text of their replies, line by line, and the exit status.

ghost use Rattle.std.specs.Prelude.{◌≡◌, ◌++◌, [], false, option_copied, string_bytes, IfOk, OnOk};
ghost use Rattle.gomp_types.specs.declared.call.Call.TheVariants.{LoopNext};
ghost use Rattle.gomp_types.specs.Limits.{standard};
ghost use Rattle.gomp_icv.specs.Variables.{Variables};
ghost use Rattle.gomp_core.specs.Resolved.{step_by};
ghost use Rattle.gomp_core.specs.Stands.{Stands, members_of};
ghost use Rattle.gomp_script.specs.StepText.{read_line, step_of, steps_left};
ghost use Rattle.gomp_script.specs.Printing.{reply_line};
ghost use Rattle.gomp_service.specs.Statuses.{is_size};
ghost use Rattle.gomp_steps.specs.Output.{AnswersLine, AnswersStep, AnswerToLines, AnswerToSteps, IsAnswer, IsBadLine, TellsLine, code_after};

use gomp_core::Team;
use gomp_icv::Icv;
use gomp_script::{
    BadLine, LineError, ParseError, TeamLine, first_fault, next_member, parse_team, print_bad_line,
    print_refusal, print_reply, read_step,
};
use gomp_service::answer::{Answer, lacks, team_size};
use gomp_shares::Shares;
use gomp_text::cut_at;
use gomp_types::{Call, Refusal, Reply};
use std::alloc::{AllocError, Global};

/// The replies to a text of steps, a line for each, of a team by these control variables; or why the
/// text or its team is refused. The error is want of memory outside of the steps.
pub(crate) fn answer_steps<S: Shares + Drop>(
    alloc: Global,
    icv: Icv,
    text: &[u8],
) -> Result<Answer, AllocError>
    ensures { IfOk result (IsAnswer icv text.now) }
{
    match parse_team(text) {
        Ok(line) => answer_team::<S>(alloc, icv, line),
        Err(bad) => answer_bad_line(alloc, &bad),
    }
}

/// The replies of the team that this line asks for to the steps behind it; or why one of these lines or the team is refused.
fn answer_team<S: Shares + Drop>(
    alloc: Global,
    icv: Icv,
    line: TeamLine<'_>,
) -> Result<Answer, AllocError>
    ensures { IfOk result (λ answer. AnswerToLines icv line.entry.count
        (steps_left line.entry.first (option_copied line.entry.lines))
        (string_bytes answer.text) answer.code) }
{
    match Team::<S>::new(alloc, team_size(line.count), icv) {
        Ok(team) => answer_lines(alloc, team, line.lines, line.first),
        Err(Refusal::BadTeam) => refuse_team(alloc, line),
        Err(_) => Err(AllocError),
    }
}

/// The replies of a new team to the steps of these lines, of which the first has this number, a line for each; or the first
/// bad one. A step is answered before the next line is read, so neither steps nor replies are kept, and the answers go if a line is bad.
fn answer_lines<S: Shares + Drop>(
    alloc: Global,
    team: Team<S>,
    lines: Option<&[u8]>,
    first: u64,
) -> Result<Answer, AllocError>
    requires new { Stands S.stands S.members team [] }
    requires limits { team.board.limits ≡ standard }
    ensures { IfOk result (λ answer. AnswerToSteps team.icv (members_of team)
        (steps_left first (option_copied lines.entry)) (string_bytes answer.text) answer.code) }
{
    let mut team = team;
    let mut answer = Answer {
        text: String::new(alloc),
        code: 0,
    };
    let mut rest = lines;
    let mut number = first;
    while let Some(lines) = rest {
        let (line, after) = cut_at(lines, b'\n');
        match answer_line(alloc, &mut team, line, &mut answer) {
            Ok(()) => {}
            Err(error) => return refuse_line(alloc, number, error),
        }
        rest = after;
        number = number.saturating_add(1);
    }
    Ok(answer)
}

/// Refuses the line of this number, which is bad. The error is want of memory, be it of the line's.
fn refuse_line(alloc: Global, number: u64, error: LineError) -> Result<Answer, AllocError>
    ensures { IfOk result (λ answer. TellsLine number error
        (string_bytes answer.text) answer.code) }
{
    match error {
        LineError::Fault(why) => answer_bad_line(alloc, &BadLine { line: number, why }),
        LineError::NoMemory => Err(AllocError),
    }
}

/// Puts the reply to the step of this line behind an answer, if the line has a step. The error is its first fault, or want of memory.
fn answer_line<S: Shares + Drop>(
    alloc: Global,
    team: &mut Team<S>,
    line: &[u8],
    answer: &mut Answer,
) -> Result<(), LineError>
    ensures { AnswersLine S.stands S.members
        (team.old, team.new) (answer.old, answer.new) (read_line step_of line.now) result }
{
    match next_member(line) {
        Some(member) => Ok(answer_next(team, member, answer)?),
        None => answer_any_line(alloc, team, line, answer),
    }
}

/// The same of any line.
// A frame of its own: that of a next chunk stays small.
#[inline(never)]
fn answer_any_line<S: Shares + Drop>(
    alloc: Global,
    team: &mut Team<S>,
    line: &[u8],
    answer: &mut Answer,
) -> Result<(), LineError>
    ensures { AnswersLine S.stands S.members
        (team.old, team.new) (answer.old, answer.new) (read_line step_of line.now) result }
{
    match read_step(alloc, line)? {
        Some(step) => Ok(answer_step(team, step.member, step.call, answer)?),
        None => Ok(()),
    }
}

/// Has the team answer a member that asks for its next chunk, and puts the line of the reply behind an answer.
// A frame of its own too: neither has the other's.
#[inline(never)]
fn answer_next<S: Shares + Drop>(
    team: &mut Team<S>,
    member: u16,
    answer: &mut Answer,
) -> Result<(), AllocError>
    ensures { OnOk result (AnswersStep S.stands S.members
        (team.old, team.new) (answer.old, answer.new) (step_by member LoopNext)) }
{
    answer_step(team, member, Call::LoopNext, answer)
}

/// Has the team answer a step, and puts the line of the reply behind an answer.
#[inline(always)]
fn answer_step<S: Shares + Drop>(
    team: &mut Team<S>,
    member: u16,
    call: Call,
    answer: &mut Answer,
) -> Result<(), AllocError>
    ensures { OnOk result (AnswersStep S.stands S.members
        (team.old, team.new) (answer.old, answer.new) (step_by member call)) }
{
    let reply = team.step(member, call);
    tell(&reply, answer)
}

/// Puts the line of this reply behind an answer, and its status to that.
fn tell(reply: &Reply, answer: &mut Answer) -> Result<(), AllocError>
    ensures text { OnOk result (string_bytes answer.new.text ≡
        string_bytes answer.old.text ++ reply_line reply.now) }
    ensures code { OnOk result (answer.new.code ≡ code_after reply.now answer.old.code) }
{
    print_reply(reply, &mut answer.text)?;
    if lacks(reply) {
        answer.code = 3;
    }
    Ok(())
}

/// Refuses a team of this size, which no team may have, unless one of the lines is bad.
fn refuse_team(alloc: Global, line: TeamLine<'_>) -> Result<Answer, AllocError>
    requires size { is_size line.count ≡ false }
    ensures { (icv : Variables) → IfOk result (λ answer. AnswerToLines icv line.entry.count
        (steps_left line.entry.first (option_copied line.entry.lines))
        (string_bytes answer.text) answer.code) }
{
    match first_fault(alloc, line.lines, line.first) {
        ParseError::Bad(bad) => answer_bad_line(alloc, &bad),
        ParseError::Memory => Ok(Answer {
            text: print_refusal(alloc, &Refusal::BadTeam)?,
            code: 2,
        }),
    }
}

/// Tells of a bad line.
fn answer_bad_line(alloc: Global, bad: &BadLine) -> Result<Answer, AllocError>
    ensures { IfOk result (λ answer. IsBadLine bad.now (string_bytes answer.text) answer.code) }
{
    Ok(Answer {
        text: print_bad_line(alloc, bad)?,
        code: 1,
    })
}

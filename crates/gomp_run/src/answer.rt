//! From the text of a script to what its region comes to, and the exit status.

ghost use Rattle.std.specs.Prelude.{◌≡◌, IfOk, min, pos, string_bytes};
ghost use Rattle.gomp_program.specs.Programs.{totals_of};
ghost use Rattle.gomp_program.specs.Totals.{joined_total};
ghost use Rattle.gomp_nested.specs.Ledgers.{IsLedger};
ghost use Rattle.gomp_runtime.specs.Regions.{ForksRegion};
ghost use Rattle.gomp_run.specs.Asks.{no_tool, script_program};
ghost use Rattle.gomp_run.specs.Output.{IsAnswer, RunsScript, fault_status, program_count, refusal_line, report_text, taken_sum};

use crate::program::RegionProgram;
use gomp_crew::Host;
use gomp_icv::Icv;
use gomp_ompt::Tool;
use gomp_region::{AskedSize, Script, ScriptError, parse_script, print_bad_script};
use gomp_runtime::{Blanks, Kept, Named, NamedHolds, NoTool, RegionFault, RegionRefusal, Report};
use gomp_service::answer::Answer;
use gomp_types::{MAX_MEMBERS, Refusal};
use std::alloc::{AllocError, Global};
use std::marker::Brand;
use std::sync::Arc;

/// What the region of a script leaves.
type Left = Result<Report<RegionProgram, NoTool>, RegionFault<RegionProgram, NoTool>>;

/// Runs the region of the script that a text is, on threads, and says what it comes to: how many
/// members there were, the sum of what they added, and how many iterations of loops they took. A text
/// that is no script has its first bad line, status 1. A region that ends by a refusal has that, status 2,
/// or 3 if it is `NoMemory` (E37).
///
/// The error is want of memory outside of the region. Each call of a member has ended by then.
pub fn run_text<R: Host>(rt: &R, alloc: Global, icv: Icv, text: &[u8]) -> Result<Answer, AllocError>
    ensures { IfOk result (IsAnswer icv text.now) }
{
    match parse_script(alloc, text) {
        Ok(script) => run_script(rt, alloc, icv, script),
        Err(ScriptError::Bad(bad)) => Ok(Answer {
            text: print_bad_script(alloc, &bad)?,
            code: 1,
        }),
        Err(ScriptError::Memory) => Err(AllocError),
    }
}

/// The same of a script.
fn run_script<R: Host>(
    rt: &R,
    alloc: Global,
    icv: Icv,
    script: Script,
) -> Result<Answer, AllocError>
    ensures { IfOk result (λ answer.
        RunsScript icv script (string_bytes answer.text) answer.code) }
{
    let count = program_count(&icv, script.team);
    let progs = RegionProgram::programs(alloc, Arc::new(alloc, script)?, count)?;
    let tools = NoTool.fork(alloc, count)?;
    let blanks = Blanks::new();
    match run_region::<Brand, Brand, Brand, R>(rt, alloc, icv, blanks, progs, tools)? {
        Ok(report) => answer_of(alloc, &report),
        Err(fault) => answer_refused(alloc, &fault.refusal),
    }
}

/// What the first region of a runtime with these control variables leaves, whose ledgers are these, and whose threads end behind it.
/// The error is want of memory before it.
fn run_region<L: Named, H: NamedHolds, F: Named, R: Host>(
    rt: &R,
    alloc: Global,
    icv: Icv,
    blanks: Blanks,
    progs: Vec<RegionProgram>,
    tools: Vec<NoTool>,
) -> Result<Left, AllocError>
    requires events { IsLedger L.name L.parts 65 blanks.events.name blanks.events.parts }
    requires held { IsLedger H.name H.parts 34353345 blanks.held.name blanks.held.parts }
    requires freed { IsLedger F.name F.parts 34353345 blanks.freed.name blanks.freed.parts }
    requires before { H.before ≡ 0 }
    ensures region { IfOk result (ForksRegion script_program no_tool
        (record { icv = icv; regions = 0 }) progs.items tools.items) }
{
    let mut kept = Kept::<L, H, F, RegionProgram, NoTool>::new(alloc, icv, blanks)?;
    let left = kept.parallel(rt, progs, tools);
    kept.stop(rt);
    Ok(left)
}

/// How many programs a script's region has: as many as its first line asks for, or nthreads-var if that has no
/// number; 64 at most (OpenMP API 5.2, section 10.1.1).
fn program_count(icv: &Icv, team: AskedSize) -> u16
    ensures { result ≡ program_count icv.now team }
{
    let asked = match team {
        AskedSize::Stated(count) => count,
        AskedSize::Unstated => icv.nthreads().first(),
    };
    asked.min(MAX_MEMBERS as u32) as u16
}

/// What is printed of a region that has ended.
fn answer_of(alloc: Global, report: &Report<RegionProgram, NoTool>) -> Result<Answer, AllocError>
    ensures text { IfOk result (λ answer. string_bytes answer.text ≡ report_text report.now.size
        (joined_total (pos 0) (totals_of report.now.progs.items))
        (taken_sum report.now.taken.items)) }
    ensures code { IfOk result (λ answer. answer.code ≡ 0) }
{
    let size = report.size;
    let total = total_of(&report.progs);
    let taken = taken_sum(&report.taken);
    let text = format!(in alloc; "threads {size}\ntotal {total}\ntaken {taken}\n")?;
    Ok(Answer { text, code: 0 })
}

/// What these programs have added, in all. It wraps at 128 bits.
fn total_of(programs: &[RegionProgram]) -> i128
    ensures { result ≡ joined_total (pos 0) (totals_of programs.now) }
{
    let mut total = 0_i128;
    let mut rest = programs;
    while let [program, later @ ..] = rest {
        total = total.wrapping_add(program.total());
        rest = later;
    }
    total
}

/// How many iterations there were, in all. The sum stays at 2^128 - 1.
fn taken_sum(taken: &[u128]) -> u128
    ensures { result ≡ taken_sum taken.now }
{
    let mut sum = 0_u128;
    for iterations in taken {
        sum = sum.saturating_add(*iterations);
    }
    sum
}

/// What is printed of a region that this refusal has ended.
fn answer_refused(alloc: Global, refusal: &RegionRefusal) -> Result<Answer, AllocError>
    ensures text { IfOk result (λ answer. string_bytes answer.text ≡ refusal_line refusal.now) }
    ensures code { IfOk result (λ answer. answer.code ≡ fault_status refusal.now) }
{
    let text = format!(in alloc; "refused {refusal}\n")?;
    let code = match refusal {
        RegionRefusal::Refused(Refusal::NoMemory) => 3,
        _ => 2,
    };
    Ok(Answer { text, code })
}

//! The words of the environment, `NAME=VALUE`.
//!
//! OpenMP API 5.2, chapter 21.

ghost use Rattle.std.specs.Prelude.{◌≡◌, [], IfOk, IfSome, IsOk};
ghost use Rattle.gomp_icv.specs.EnvWords.{IsSetting, variable_of, value_for, setting_of, read_env, pairs};

use crate::icv::Icv;
use crate::num_threads::NumThreads;
use crate::values::{MAX_NUMBER, number_of, schedule_of, switch_of};
use gomp_text::is_word;
use gomp_types::{Name, Refusal, Sched};
use std::alloc::{AllocError, Global};

/// The variables that words of the environment set.
pub enum Variable {
    /// nthreads-var, by `OMP_NUM_THREADS`.
    NumThreads,
    /// dyn-var, by `OMP_DYNAMIC`.
    Dynamic,
    /// run-sched-var, by `OMP_SCHEDULE`.
    Schedule,
    /// max-active-levels-var, by `OMP_MAX_ACTIVE_LEVELS`.
    MaxActiveLevels,
    /// thread-limit-var, by `OMP_THREAD_LIMIT`.
    ThreadLimit,
    /// cancel-var, by `OMP_CANCELLATION`.
    Cancellation,
}

/// What a word of the environment sets.
pub enum Setting {
    /// nthreads-var.
    NumThreads(NumThreads),
    /// dyn-var.
    Dynamic(bool),
    /// run-sched-var: the schedule, and the chunk or 0.
    Schedule(Sched, i64),
    /// max-active-levels-var.
    MaxActiveLevels(u32),
    /// thread-limit-var.
    ThreadLimit(u32),
    /// cancel-var.
    Cancellation(bool),
}

/// The control variables that these words give, each a name and its value, and a refusal for each
/// word that is ignored, in the order of the words.
///
/// A word is ignored, with `BadEnv` (E41), if its name is that of no variable that is read or its
/// value is bad; the case of a name counts. Of two good values of a variable the last counts.
///
/// The error is want of memory. Only an ignored word takes memory.
pub fn read_env(alloc: Global, words: &[(&str, &str)]) -> Result<(Icv, Vec<Refusal>), AllocError>
    ensures value { IfOk result (λ read. (read.0, read.1.items) ≡ read_env (pairs words.now)) }
    ensures none_ignored { (read_env (pairs words.now)).1 ≡ [] → IsOk result }
{
    let mut icv = Icv::initial();
    let mut ignored = Vec::new(alloc);
    for (name, value) in words {
        match setting_of(name.as_bytes(), value.as_bytes()) {
            Some(setting) => icv = icv.with(setting),
            None => ignored.push(Refusal::BadEnv(Name::new(alloc, name)?))?,
        }
    }
    Ok((icv, ignored))
}

/// What this word sets. None if it is ignored.
fn setting_of(name: &[u8], value: &[u8]) -> Option<Setting>
    ensures value { result ≡ setting_of name.now value.now }
    ensures range { IfSome result IsSetting }
{
    match variable_of(name) {
        Some(variable) => value_for(variable, value),
        None => None,
    }
}

/// The variable of this name. None if it is that of no variable that is read.
fn variable_of(name: &[u8]) -> Option<Variable>
    ensures { result ≡ variable_of name.now }
{
    if is_word(name, b"OMP_NUM_THREADS") {
        return Some(Variable::NumThreads);
    }
    if is_word(name, b"OMP_DYNAMIC") {
        return Some(Variable::Dynamic);
    }
    if is_word(name, b"OMP_SCHEDULE") {
        return Some(Variable::Schedule);
    }
    if is_word(name, b"OMP_MAX_ACTIVE_LEVELS") {
        return Some(Variable::MaxActiveLevels);
    }
    if is_word(name, b"OMP_THREAD_LIMIT") {
        return Some(Variable::ThreadLimit);
    }
    if is_word(name, b"OMP_CANCELLATION") {
        return Some(Variable::Cancellation);
    }
    None
}

/// What this value makes of a variable. None if the value is bad.
fn value_for(variable: Variable, value: &[u8]) -> Option<Setting>
    ensures value { result ≡ value_for variable value.now }
    ensures range { IfSome result IsSetting }
{
    Some(match variable {
        Variable::NumThreads => Setting::NumThreads(NumThreads::read(value)?),
        Variable::Dynamic => Setting::Dynamic(switch_of(value)?),
        Variable::Schedule => {
            let (sched, chunk) = schedule_of(value)?;
            Setting::Schedule(sched, chunk)
        }
        Variable::MaxActiveLevels => {
            Setting::MaxActiveLevels(number_of(value, 0, MAX_NUMBER)? as u32)
        }
        Variable::ThreadLimit => Setting::ThreadLimit(number_of(value, 1, MAX_NUMBER)? as u32),
        Variable::Cancellation => Setting::Cancellation(switch_of(value)?),
    })
}

//! What words ask of an engine.

ghost use Rattle.std.specs.Prelude.{ℕ, ◌≡◌, ◌<◌, ◌^◌, ◌↔◌, [], ◌∷◌, IfOk, IfSome, IsErr, IsSome};
ghost use Rattle.gomp_words.specs.StepWords.{HasItems};
ghost use Rattle.gomp_words.specs.declared.step.StepRead.TheVariants as asks;
ghost use Rattle.gomp_engine.specs.declared.call.EngineCall.TheVariants.{TeamStep};
ghost use Rattle.gomp_engine.specs.Calls.{IsFrequent, own_call_of, engine_call_of};

use gomp_types::{Call, Step};
use gomp_words::{StepRead, read_step};
use std::alloc::{AllocError, Global};

/// What a list of words asks of an engine.
#[derive(Debug, Drop, PartialEq, Eq)]
pub enum EngineCall {
    /// A new team of this many members.
    NewTeam(u64),
    /// A byte of the name of a setting that was ignored; both are numbered from 0.
    NameByte { setting: u64, byte: u64 },
    /// A step of the team that stands, or no call at all.
    TeamStep(StepRead),
}

/// What these words ask: 0 and a size for a new team; 38, a setting and a byte for a name; any others
/// are a step, as gomp_words reads them. The error is want of memory, which only the items of a
/// `depend` clause take.
pub fn read_engine_call(alloc: Global, words: &[u64]) -> Result<EngineCall, AllocError>
    ensures call { IfOk result (λ call. call ≡ engine_call_of words.now) }
    ensures memory { IsErr result → HasItems words.now }
{
    match frequent_step(words) {
        Some(step) => Ok(EngineCall::TeamStep(StepRead::Step(step))),
        None => read_any(alloc, words),
    }
}

/// The step by which a member asks for its next chunk, arrives at a barrier or at the region's end, or asks again, if these
/// words ask for that. A program makes these again and again, so they are looked for first.
fn frequent_step(words: &[u64]) -> Option<Step>
    ensures told { IfSome result (λ step. engine_call_of words.now ≡ TeamStep (asks.Step step)) }
    ensures finds { (kind member : ℕ) → member < 2 ^ 16 → words.now ≡ kind ∷ member ∷ [] →
        IsFrequent kind → IsSome result }
{
    match words {
        [2, member] => step_by(*member, Call::LoopNext),
        [16, member] => step_by(*member, Call::Barrier),
        [17, member] => step_by(*member, Call::RegionEnd),
        [36, member] => step_by(*member, Call::Resume),
        _ => None,
    }
}

/// The step in which this member makes the call. None if no team has a member of this number.
fn step_by(member: u64, call: Call) -> Option<Step>
    ensures made { IfSome result (λ step.
        step ≡ record { member = member; call = call }) }
    ensures below { IsSome result ↔ (member < 2 ^ 16) }
{
    match u16::try_from(member) {
        Ok(member) => Some(Step { member, call }),
        Err(_) => None,
    }
}

/// What any words ask.
fn read_any(alloc: Global, words: &[u64]) -> Result<EngineCall, AllocError>
    ensures call { IfOk result (λ call. call ≡ engine_call_of words.now) }
    ensures memory { IsErr result → HasItems words.now }
{
    match own_call(words) {
        Some(call) => Ok(call),
        None => Ok(EngineCall::TeamStep(read_step(alloc, words)?)),
    }
}

/// What these words ask of the engine itself. None if they do not.
fn own_call(words: &[u64]) -> Option<EngineCall>
    ensures { result ≡ own_call_of words.now }
{
    match words {
        [0, size] => Some(EngineCall::NewTeam(*size)),
        [38, setting, byte] => Some(EngineCall::NameByte {
            setting: *setting,
            byte: *byte,
        }),
        _ => None,
    }
}

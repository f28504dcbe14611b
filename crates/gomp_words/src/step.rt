//! What words ask of a team.

ghost use Rattle.std.specs.Prelude.{◌≡◌, IfOk, IsErr};
ghost use Rattle.gomp_words.specs.StepWords.{step_of, HasItems, IsSayableStep};

use crate::call::read_call;
use gomp_types::Step;
use std::alloc::{AllocError, Global};

/// What a list of words asks of a team.
#[derive(Debug, Drop, PartialEq, Eq)]
pub enum StepRead {
    /// A call of the member with this number.
    Step(Step),
    /// A call, but of a number that no member has: it is above 65,535.
    NoMember,
    /// Nothing: the words are no call.
    NoCall,
}

/// What these words ask: the number of a call, the member's, and the call's arguments, as the table of
/// the README has them. The error is want of memory, which only the items of a `depend` clause take.
pub fn read_step(alloc: Global, words: &[u64]) -> Result<StepRead, AllocError>
    ensures step { IfOk result (λ step. step ≡ step_of words.now) }
    ensures sayable { IfOk result IsSayableStep }
    ensures memory { IsErr result → HasItems words.now }
{
    let [number, member, arguments @ ..] = words else {
        return Ok(StepRead::NoCall);
    };
    match read_call(alloc, *number, arguments)? {
        Some(call) => match u16::try_from(*member) {
            Ok(member) => Ok(StepRead::Step(Step { member, call })),
            Err(_) => Ok(StepRead::NoMember),
        },
        None => Ok(StepRead::NoCall),
    }
}

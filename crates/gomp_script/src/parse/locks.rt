//! The steps on a lock: `MEMBER CALL L`.

ghost use Rattle.std.specs.Prelude.{◌≡◌, option_map};
ghost use Rattle.gomp_text.specs.Words.{words_of};
ghost use Rattle.gomp_script.specs.StepText.{call_on, lock_call_of, lock_step};

use crate::parse::Why;
use crate::parse::words::{count_of, finish, member_of, take_word};
use gomp_text::is_word;
use gomp_types::{Call, Step};

/// A call on a lock, whose number is not read yet.
#[derive(Clone, Copy)]
pub(crate) enum LockCall {
    Destroys,
    Sets,
    Tests,
    Unsets,
    SetsNest,
    TestsNest,
    UnsetsNest,
}

impl LockCall {
    /// The call on the lock of this number.
    fn call_on(self, lock: u32) -> Call
        ensures { result ≡ call_on self lock }
    {
        match self {
            LockCall::Destroys => Call::LockDestroy(lock),
            LockCall::Sets => Call::Set(lock),
            LockCall::Tests => Call::Test(lock),
            LockCall::Unsets => Call::Unset(lock),
            LockCall::SetsNest => Call::SetNest(lock),
            LockCall::TestsNest => Call::TestNest(lock),
            LockCall::UnsetsNest => Call::UnsetNest(lock),
        }
    }
}

/// The call on a lock that this word names.
pub(crate) fn lock_call_of(word: &[u8]) -> Option<LockCall>
    ensures { option_map call_on result ≡ lock_call_of word.now }
{
    if is_word(word, b"lock_destroy") {
        return Some(LockCall::Destroys);
    }
    if is_word(word, b"set") {
        return Some(LockCall::Sets);
    }
    if is_word(word, b"test") {
        return Some(LockCall::Tests);
    }
    if is_word(word, b"unset") {
        return Some(LockCall::Unsets);
    }
    if is_word(word, b"set_nest") {
        return Some(LockCall::SetsNest);
    }
    if is_word(word, b"test_nest") {
        return Some(LockCall::TestsNest);
    }
    if is_word(word, b"unset_nest") {
        return Some(LockCall::UnsetsNest);
    }
    None
}

/// The step of this member by which it makes this call, by the rest of its line.
#[tactic(auto, unfolding(crate::specs::StepText::lock_step))]
pub(crate) fn lock_step(call: LockCall, member: &[u8], rest: &[u8]) -> Result<Step, Why>
    ensures { result ≡ lock_step (call_on call) member.now (words_of rest.now) }
{
    let (lock, rest) = take_word(rest)?;
    let member = member_of(member)?;
    let lock = count_of(lock)?;
    finish(rest)?;
    Ok(Step {
        member,
        call: call.call_on(lock),
    })
}

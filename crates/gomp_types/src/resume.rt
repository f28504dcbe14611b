//! Which call a step makes: its own, or the one that waits, which a resume repeats.

ghost use Rattle.std.specs.Prelude.{◌≡◌, option_copied};
ghost use Rattle.gomp_types.specs.Resumes.{call_meant, is_resume};

use crate::call::Call;

impl Call {
    /// Whether it asks again what waits.
    pub fn is_resume(&self) -> bool
        ensures { result ≡ is_resume self.now }
    {
        matches!(self, Call::Resume)
    }
}

/// The call that a member makes with this one, while that one of its calls waits, if one does: a resume
/// repeats the one that waits.
pub fn call_meant<'a>(call: &'a Call, waiting: Option<&'a Call>) -> &'a Call
    ensures { result.now ≡ call_meant call.now (option_copied waiting.entry) }
{
    match (call, waiting) {
        (Call::Resume, Some(open)) => open,
        _ => call,
    }
}

/// The same of calls that are handed over.
pub fn into_call_meant(call: Call, waiting: Option<Call>) -> Call
    ensures { result ≡ call_meant call waiting }
{
    match (call, waiting) {
        (Call::Resume, Some(open)) => open,
        (call, _) => call,
    }
}

//! What a call asks of its team, as far as the end of its region is concerned.

ghost use Rattle.std.specs.Prelude.{◌≡◌};
ghost use Rattle.gomp_course.specs.Exchanges.{asked_by_call};

use gomp_types::Call;

/// What a call asks, as far as the region's end is concerned.
#[derive(Clone, Copy, Debug, PartialEq, Eq)]
pub enum Asked {
    /// To pass it.
    End,
    /// What waits, once more.
    Again,
    /// Something else.
    Other,
}

/// What a call asks, as far as the region's end is concerned.
pub(crate) fn asked_by_call(call: &Call) -> Asked
    ensures { result ≡ asked_by_call call.now }
{
    match call {
        Call::RegionEnd => Asked::End,
        Call::Resume => Asked::Again,
        _ => Asked::Other,
    }
}

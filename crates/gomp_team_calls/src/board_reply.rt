//! What a call asked of the board, and was answered.

ghost use Rattle.std.specs.Prelude.{◌≡◌, ◌≢◌, Some};
ghost use Rattle.gomp_types.specs.declared.refusal.Refusal.TheVariants.{Mismatch};
ghost use Rattle.gomp_types.specs.Least.{lesser};

use gomp_board::Op;
use gomp_types::{Refusal, Reply};
use gomp_waits::lesser_refusal;

/// The operation by which a call asked the board, and the reply to the call. Whoever let the locks go
/// says by these two which members it woke.
#[derive(Drop)]
pub struct BoardReply {
    /// The operation.
    pub op: Op,
    /// The reply to the call.
    pub reply: Reply,
}

/// Of two refusals, if there are any, the one with the lesser number.
#[inline(always)]
pub fn lesser(one: Option<Refusal>, other: Option<Refusal>) -> Option<Refusal>
    ensures value { result ≡ lesser one other }
    ensures own { one ≢ Some Mismatch → other ≢ Some Mismatch → result ≢ Some Mismatch }
{
    match one {
        None => other,
        Some(one) => Some(lesser_refusal(one, other)),
    }
}

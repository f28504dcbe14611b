//! A member's own tests, by what it sees of its place among the shares, and the reply that a piece
//! gives. Nothing here asks the shares, so members on threads can use it with a seat of their own.

ghost use Rattle.std.specs.Prelude.{◌≡◌, ◌<◌, ◌≤◌, IfOk};
ghost use Rattle.std.specs.Option.{ForSome};
ghost use Rattle.gomp_types.specs.Tests.{first_holding, outcome};
ghost use Rattle.gomp_types.specs.Values.{IsShape};
ghost use Rattle.gomp_types.specs.Iterations.{loop_tests};
ghost use Rattle.gomp_types.specs.Pieces.{shape_of};
ghost use Rattle.gomp_shares.specs.Calls.{MayOpenAs};
ghost use Rattle.gomp_shares.specs.Starts.{start_tests};
ghost use Rattle.gomp_loops.specs.Answers.{reply_of_piece};

use gomp_events::Seen;
use gomp_types::{Limits, LoopDesc, Refusal, Reply, Shape};

/// The shape of the share that this loop gives a member which may start it, or why it may not:
/// `InsideShare`, `ZeroStep`, `BadChunk`, `LoopTooLong` or `TooManyShares`.
pub fn loop_start_shape(seen: &Seen, limits: &Limits, desc: &LoopDesc) -> Result<Shape, Refusal>
    ensures first { result ≡ outcome
        (first_holding (start_tests (loop_tests desc.now) limits.now seen.now))
        (shape_of desc.now) }
    ensures place { IfOk result (MayOpenAs seen.now) }
{
    if seen.current.is_some() {
        return Err(Refusal::InsideShare);
    }
    match desc.shape() {
        Ok(_) if seen.entered >= limits.shares as u64 => Err(Refusal::TooManyShares),
        Ok(shape) => Ok(shape),
        Err(refusal) => Err(refusal),
    }
}

/// Why a member may not start this loop, as [`loop_start_shape`] says.
pub fn loop_start_refusal(seen: &Seen, limits: &Limits, desc: &LoopDesc) -> Option<Refusal>
    ensures first { result ≡ first_holding (start_tests (loop_tests desc.now) limits.now seen.now) }
{
    loop_start_shape(seen, limits, desc).err()
}

/// The reply to a member that was given this piece of its share, from iteration `low` on, `high`
/// excluded: the value of the first iteration and how many there are. `NoChunk` if it was given
/// none.
#[inline(always)]
pub fn piece_reply(shape: &Shape, piece: Option<(u64, u64)>) -> Reply
    requires shape { IsShape shape.now }
    requires within { ForSome piece (λ p. (p.0 < p.1) × (p.1 ≤ shape.now.trips)) }
    ensures answer { result ≡ reply_of_piece shape.now piece }
{
    match piece {
        Some((low, high)) => Reply::Chunk {
            first: shape.value_at(low),
            count: high - low,
        },
        None => Reply::NoChunk,
    }
}

//! By how much memory grows.

ghost use Rattle.std.specs.Prelude.{◌≡◌, ◌<◌, ◌≤◌, ◌-◌, OnOk, OnErr, IsOk};
ghost use Rattle.std.specs.Vec.{vec_len, vec_capacity};
ghost use Rattle.gomp_growth.specs.Growth.{growth_of, room_made};

use std::alloc::AllocError;

/// The part by which most lists grow: with a larger one more memory lies idle, with a smaller one what
/// they hold is moved more often.
pub const SIXTEENTH: usize = 16;

/// A list grows by so many places at least: a short one would else be moved at nearly every call.
const LEAST_GROWTH: usize = 64;

/// By how many places a list that holds so many grows, besides those that are asked for: by one for
/// each `part` of them, and by 64 at least.
// Inlined, so that the part is known and nothing is divided.
#[inline]
pub fn growth_of(part: usize, held: usize) -> usize
    requires part { 0 < part }
    ensures { result ≡ growth_of part held }
{
    (held / part).max(LEAST_GROWTH)
}

/// Makes room for one more item: if there is none, for it and, besides, for a sixteenth of those that
/// there are, 64 at least. It fails, and nothing changes, if the memory is refused.
// Inlined, so that a caller whose list has room makes one comparison and no call.
#[inline(always)]
pub fn reserve_one<T>(items: &mut Vec<T>) -> Result<(), AllocError>
    ensures items { items.new.items ≡ items.old.items }
    ensures len { vec_len items.new ≡ vec_len items.old }
    ensures memory { OnOk result (vec_capacity items.new - vec_len items.new ≡ room_made 1
        (growth_of 16 (vec_len items.old)) (vec_capacity items.old - vec_len items.old)) }
    ensures enough { OnOk result (vec_len items.new < vec_capacity items.new) }
    ensures grows { vec_capacity items.old ≤ vec_capacity items.new }
    ensures err { OnErr result (vec_capacity items.new ≡ vec_capacity items.old) }
    ensures there { vec_len items.old < vec_capacity items.old → IsOk result }
{
    let count = items.len();
    if count < items.capacity() {
        return Ok(());
    }
    items.reserve_exact(growth_of(SIXTEENTH, count) + 1)
}

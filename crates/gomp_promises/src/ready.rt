//! The room of the tasks that may be taken.

ghost use Rattle.std.specs.Prelude.{◌≡◌, ◌<◌, ◌≤◌, ◌+◌, length, max, OnOk, OnErr, IsOk, IfOk, IfSome};
ghost use Rattle.gomp_growth.specs.Growth.{growth_of, room_made};

use gomp_ready::Ready;
use std::alloc::{AllocError, Global};

/// A new team's have none.
pub fn new(alloc: Global, count: u16) -> Result<Ready, AllocError>
    ensures room { IfOk result (λ ready. ready.room ≡ 0) }
{
    Ready::new(alloc, count)
}

/// Room for so many more is made in steps, and if there is less.
pub fn reserve(this: &mut Ready, more: usize) -> Result<(), AllocError>
    ensures memory { OnOk result
        (this.new.room ≡ room_made more (growth_of 16 (max (length this.old.ids) more))
        this.old.room) }
    ensures there { more ≤ this.old.room → IsOk result }
    ensures err { OnErr result (this.new ≡ this.old) }
{
    this.reserve(more)
}

/// A task that is taken leaves its room.
pub fn take_any(this: &mut Ready, member: u16) -> Option<u32>
    requires member { member < this.old.members }
    ensures room { IfSome result (λ t. this.new.room ≡ this.old.room + 1) }
{
    this.take(member, None, |_| true)
}

//! The items of a `depend` clause.

ghost use Rattle.std.specs.Prelude.{◌≡◌, [], ◌++◌, ◌∷◌, OnOk, OnErr};

use gomp_types::{Dep, Deps};
use std::alloc::AllocError;

/// Appends an item, if there is memory.
pub fn push(this: &mut Deps, item: Dep) -> Result<(), AllocError>
    ensures items { OnOk result (this.new ≡ this.old ++ item ∷ []) }
    ensures kept { OnErr result (this.new ≡ this.old) }
{
    this.push(item)
}

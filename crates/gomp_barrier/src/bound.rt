//! How many open tasks are bound to the barriers: those that a barrier waits for.
//!
//! A task is open from its creation to its end. The barriers to which open tasks are bound are the
//! front and the one after it, so it is enough to count by the parity of a barrier's number.

ghost use Rattle.std.specs.Prelude.{◌≡◌, ◌<◌};
ghost use Rattle.gomp_barrier.specs.Bound.{bound_count, one_more, one_less};

/// How many open tasks are bound to barriers, by the parity of the barrier's number.
#[derive(Clone, Copy, Debug, PartialEq, Eq)]
pub struct BoundTasks {
    /// To barriers of an even number.
    pub even: u32,
    /// To barriers of an odd number.
    pub odd: u32,
}

impl BoundTasks {
    /// How many are bound to barriers of this parity.
    pub fn count(&self, odd: bool) -> u32
        ensures { result ≡ bound_count self.now odd }
    {
        if odd { self.odd } else { self.even }
    }

    /// The counts with one task more that is bound to a barrier of this parity.
    pub fn one_more(self, odd: bool) -> BoundTasks
        requires { bound_count self odd < u32.MAX }
        ensures { result ≡ one_more self odd }
    {
        if odd {
            BoundTasks {
                even: self.even,
                odd: self.odd + 1,
            }
        } else {
            BoundTasks {
                even: self.even + 1,
                odd: self.odd,
            }
        }
    }

    /// The counts with one task less that is bound to a barrier of this parity.
    pub fn one_less(self, odd: bool) -> BoundTasks
        requires { 0 < bound_count self odd }
        ensures { result ≡ one_less self odd }
    {
        if odd {
            BoundTasks {
                even: self.even,
                odd: self.odd - 1,
            }
        } else {
            BoundTasks {
                even: self.even - 1,
                odd: self.odd,
            }
        }
    }
}

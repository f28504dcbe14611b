//! What the members of a region have round them.

ghost use Rattle.gomp_types.specs.declared.reply.Reply.{Reply};
ghost use Rattle.gomp_course.specs.declared.forking.RegionAsked.{RegionAsked};
ghost use Rattle.gomp_course.specs.Forkers.{ForkerView};

use crate::forking::{Nest, Nested};
use crate::gate::CallGate;

/// What the members of a region have round them: the gate of their calls, and what serves the regions that
/// they fork. `I` is what a member has for these.
pub trait Site<I: Drop, P: Drop, T: Drop>: CallGate {
    /// Nested regions can be forked here.
    ghost ready: { Self → Type 0 };

    /// What comes of one: its clauses, what its member has before it, the reply, and what the member has
    /// behind it.
    ghost forks: { RegionAsked → ForkerView I P T → Reply → ForkerView I P T → Type 0 };

    /// Forks a nested region, and waits until that has ended.
    fn nest(&self, nest: Nest<I, P, T>) -> Nested<I, P, T>
        requires ready { ready self.now }
        ensures { forks nest.asked nest.forker result.reply result.forker };
}

//! The levels of parallel regions: what the members of a region have round them.

ghost use Rattle.std.specs.Prelude.{⊤};
ghost use Rattle.gomp_levels.specs.Levels.{Forks, ForksOne, ForksTwo, NoneForked};
ghost use Rattle.gomp_levels.specs.Serving.{IsServed};

use gomp_course::{CallGate, Nest, Nested, Program, Site};
use gomp_fork::{Forking, InnerParts};
use gomp_nested::Shared;
use gomp_ompt::Tool;
use gomp_team_book::HoldLedger;
use gomp_types::{Refusal, Reply};
use std::alloc::AllocError;
use std::marker::PhantomData;
use std::sync::Arc;
use std::sync::ledger::Ledger;

/// What the members of a region at the last level have round them: the gate of their calls. No region is
/// served within it (`TooManyLevels`, E39).
#[derive(Drop)]
pub struct LastLevel<G: Drop> {
    /// The gate of their calls.
    pub gate: Arc<G>,
}

impl<G: CallGate> CallGate for LastLevel<G> {
    fn before(&self, member: u16, call: u64) {
        self.gate.before(member, call);
    }

    fn after(&self, member: u16, call: u64) {
        self.gate.after(member, call);
    }
}

impl<H, F, P, T, G> Site<InnerParts<H, F>, P, T> for LastLevel<G>
where
    H: HoldLedger,
    F: Ledger,
    P: Program,
    T: Tool,
    G: CallGate,
{
    ghost ready = { λ level. ⊤ };

    ghost forks = { NoneForked };

    fn nest(&self, nest: Nest<InnerParts<H, F>, P, T>) -> Nested<InnerParts<H, F>, P, T>
        requires ready { ⊤ }
        ensures { NoneForked nest.asked nest.forker result.reply result.forker }
    {
        let Nest { forker, .. } = nest;
        Nested {
            reply: Reply::Refused(Refusal::TooManyLevels),
            forker,
        }
    }
}

/// With what the regions are forked that lie within another one.
#[derive(Drop)]
pub struct NestGround<B: Ledger, H: HoldLedger, F: Ledger, S: Drop, G: Drop> {
    /// What their teams share with those round them.
    pub(crate) shared: Arc<Shared<B, H, F>>,
    /// With what their threads are started, and wait.
    pub(crate) rt: S,
    /// What stands round each call of their members.
    pub(crate) gate: Arc<G>,
}

impl<B, H, F, S, G> NestGround<B, H, F, S, G>
where
    B: Ledger,
    H: HoldLedger,
    F: Ledger,
    S: Copy + Drop,
    G: Drop,
{
    /// The same for another level. The error is want of memory.
    pub(crate) fn again(&self) -> Result<NestGround<B, H, F, S, G>, AllocError> {
        Ok(NestGround {
            shared: Arc::try_clone(&self.shared)?,
            rt: self.rt,
            gate: Arc::try_clone(&self.gate)?,
        })
    }
}

impl<B, H, F, S, G> CallGate for NestGround<B, H, F, S, G>
where
    B: Ledger,
    H: HoldLedger,
    F: Ledger,
    S: Drop,
    G: CallGate,
{
    fn before(&self, member: u16, call: u64) {
        let around = &self.gate;
        around.before(member, call);
    }

    fn after(&self, member: u16, call: u64) {
        let around = &self.gate;
        around.after(member, call);
    }
}

/// Within regions of the third level lie those of the fourth, which is the last.
pub struct OneLevel;

impl<H: HoldLedger, F: Ledger, P: Program, T: Tool> Forking<InnerParts<H, F>, P, T> for OneLevel {
    ghost forks = { ForksOne P.Program T.Tool };
}

/// Within regions of the second level lie those of two others.
pub struct TwoLevels;

impl<H: HoldLedger, F: Ledger, P: Program, T: Tool> Forking<InnerParts<H, F>, P, T> for TwoLevels {
    ghost forks = { ForksTwo P.Program T.Tool };
}

/// Within an outermost region lie those of three levels.
pub struct ThreeLevels;

impl<H: HoldLedger, F: Ledger, P: Program, T: Tool> Forking<InnerParts<H, F>, P, T>
    for ThreeLevels {
    ghost forks = { Forks P.Program T.Tool };
}

/// What the members of a region have round them within which others are served: on how many levels, with
/// what these are forked, and the function that forks one.
#[derive(Drop)]
pub struct Around<M, K: Drop, N: Drop> {
    /// The levels within.
    pub(crate) levels: PhantomData<M>,
    /// With what regions are forked.
    pub(crate) ground: K,
    /// Forks one.
    pub(crate) fork: N,
}

impl<M, K: CallGate, N: Drop> CallGate for Around<M, K, N> {
    fn before(&self, member: u16, call: u64) {
        self.ground.before(member, call);
    }

    fn after(&self, member: u16, call: u64) {
        self.ground.after(member, call);
    }
}

impl<I, P, T, M, K, N> Site<I, P, T> for Around<M, K, N>
where
    I: Drop,
    P: Program,
    T: Tool,
    M: Forking<I, P, T>,
    K: CallGate,
    N: Fn(&K, Nest<I, P, T>) -> Nested<I, P, T> + Drop,
{
    ghost use Rattle.gomp_levels.specs.Serving.{IsServed};

    ghost ready = { λ level. IsServed (N.pre level.fork) (N.post level.fork) M.forks };

    ghost forks = { M.forks };

    fn nest(&self, nest: Nest<I, P, T>) -> Nested<I, P, T>
        requires ready { IsServed (N.pre self.now.fork) (N.post self.now.fork) M.forks }
        ensures { M.forks nest.asked nest.forker result.reply result.forker }
    {
        (self.fork)(&self.ground, nest)
    }
}

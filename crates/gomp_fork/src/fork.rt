//! What a region is forked with.

ghost use Rattle.std.specs.Prelude.{◌≡◌};
ghost use Rattle.gomp_fork.specs.declared.report.RegionRefusal.TheVariants.{Refused};

use crate::report::{RegionFault, RegionRefusal};
use gomp_team::TeamTerms;
use gomp_types::Refusal;
use std::alloc::Global;
use std::sync::Arc;

/// What a region is forked with, beside its programs and tools.
#[derive(Drop)]
pub struct Ground<C: Drop> {
    /// Where its memory comes from.
    pub alloc: Global,
    /// What its members have round them.
    pub site: Arc<C>,
    /// With what its team is made.
    pub terms: TeamTerms,
}

/// The programs of a region, and a tool for each: 1 to 64, where a region is to begin with all of them.
#[derive(Drop)]
pub struct Forked<P: Drop, T: Drop> {
    /// Programs.
    pub progs: Vec<P>,
    /// Tools.
    pub tools: Vec<T>,
}

impl<P: Drop, T: Drop> Forked<P, T> {
    /// No region, by this refusal of a member: programs and tools as they are.
    pub fn refused(self, member: u16, refusal: Refusal) -> RegionFault<P, T>
        ensures progs { result.progs.items ≡ self.progs.items }
        ensures tools { result.tools.items ≡ self.tools.items }
        ensures member { result.member ≡ member }
        ensures refusal { result.refusal ≡ Refused refusal }
    {
        let Forked { progs, tools } = self;
        RegionFault {
            member,
            refusal: RegionRefusal::Refused(refusal),
            progs,
            tools,
        }
    }
}

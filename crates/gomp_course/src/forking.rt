//! What a member hands on as it forks a nested region, and what comes of that.

use gomp_icv::Icv;
use gomp_types::Reply;
use std::marker::Model;

/// The clauses of a nested region (OpenMP API 5.2, section 10.1).
#[derive(Clone, Copy, Debug, PartialEq, Eq)]
pub struct RegionAsked {
    /// The number of its `num_threads` clause, if it has one; 0 counts as 1.
    pub num_threads: Option<u32>,
    /// Its `if` clause; true without one.
    pub if_clause: bool,
}

/// What a member has of its own as it forks a nested region.
#[derive(Drop)]
pub struct Forker<I: Drop, P: Drop, T: Drop> {
    /// Its program.
    pub prog: P,
    /// Its tool.
    pub tool: T,
    /// The control variables of its region.
    pub icv: Icv,
    /// What it has for the regions that it forks.
    pub inner: I,
}

impl<I: Drop, P: Drop, T: Drop> Model for Forker<I, P, T> {
    ghost use Rattle.gomp_course.specs.Forkers.{ForkerView};

    ghost Value = { ForkerView I P T };

    ghost view = { λ f. record { prog = f.prog; tool = f.tool; icv = f.icv; inner = f.inner } };
}

/// A nested region that a member forks. No test of each call refuses it.
#[derive(Drop)]
pub struct Nest<I: Drop, P: Drop, T: Drop> {
    /// Its clauses.
    pub asked: RegionAsked,
    /// What the member has.
    pub forker: Forker<I, P, T>,
}

/// What has come of it.
#[derive(Drop)]
pub struct Nested<I: Drop, P: Drop, T: Drop> {
    /// What the member's program is handed: `Finished`, or a refusal.
    pub reply: Reply,
    /// What the member has again.
    pub forker: Forker<I, P, T>,
}

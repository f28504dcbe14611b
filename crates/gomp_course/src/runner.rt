//! A member with the program that it runs.

ghost use Rattle.std.specs.Prelude.{◌≡◌};
ghost use Rattle.gomp_course.specs.Exchanges.{act_found};

use crate::program::{Act, Program};
use gomp_ompt::Tool;
use gomp_team::Member;
use gomp_team_book::HoldLedger;
use gomp_types::Reply;
use std::alloc::{AllocError, Global};
use std::marker::Model;
use std::sync::ledger::Ledger;

/// A member with the program that it runs, and what it has for the regions that it forks.
#[derive(Drop)]
pub struct Runner<L: Ledger, H: HoldLedger, F: Ledger, I: Drop, P: Program, T: Tool> {
    /// Its program.
    pub prog: P,
    /// The member, with its tool.
    pub member: Member<L, H, F, T>,
    /// What it has for the regions that it forks.
    pub inner: I,
}

impl<L: Ledger, H: HoldLedger, F: Ledger, I: Drop, P: Program, T: Tool> Model
    for Runner<L, H, F, I, P, T> {
    ghost use Rattle.gomp_course.specs.Forkers.{RunnerView};

    ghost Value = { RunnerView I P T };

    ghost view = { λ r. record { prog = r.prog; member = r.member; inner = r.inner } };
}

impl<L: Ledger, H: HoldLedger, F: Ledger, I: Drop, P: Program, T: Tool> Runner<L, H, F, I, P, T> {
    /// What the program asks for behind this reply. The error is want of memory.
    pub(crate) fn ask(&mut self, alloc: Global, last: &Reply) -> Result<Act, AllocError>
        ensures asked { P.next_gives self.old.prog last.now (act_found result) self.new.prog }
        ensures else_same { self.new ≡ record self.old { prog = self.new.prog } }
    {
        self.prog.next(alloc, last)
    }
}

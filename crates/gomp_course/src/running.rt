//! What the thread of a member does.

ghost use Rattle.gomp_course.specs.Forkers.{KeepsVariables};
ghost use Rattle.gomp_course.specs.Runs.{HasRun};

use crate::course::{Came, Course};
use crate::job::{Job, Outcome};
use crate::program::Program;
use crate::site::Site;
use gomp_ompt::Tool;
use gomp_team_book::HoldLedger;
use std::alloc::Global;
use std::sync::Wait;
use std::sync::ledger::Ledger;

/// Asks the program of a member, and has the member do what it asks, until it is asked no more.
pub fn drive<L, H, F, I, P, T, C, R>(
    rt: &R,
    alloc: Global,
    site: &C,
    job: Job<L, H, F, I, P, T>,
) -> Outcome<L, H, F, I, P, T>
where
    L: Ledger,
    H: HoldLedger,
    F: Ledger,
    I: Drop,
    P: Program,
    T: Tool,
    C: Site<I, P, T>,
    R: Wait,
    requires ready { C.ready site.now }
    requires icv { KeepsVariables C.forks }
    ensures { HasRun P.Program T.Tool C.forks job.runner result.runner result.taken }
{
    let mut course = Course::new(job);
    for _ in rt.forever() {
        match course.go_on(rt, alloc, site) {
            Came::On => {}
            Came::Over => return course.outcome(),
            Came::Fork(asked) => {
                course = course.fork(site, asked);
            }
        }
    }
    unreachable!()
}

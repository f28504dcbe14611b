//! A tool that counts the records.

ghost use Rattle.std.specs.Prelude.{◌≡◌, ◌+◌, ◌<◌, slice_index, sum_by};
ghost use Rattle.gomp_ompt.specs.declared.record.TheConstants.{POINTS};
ghost use Rattle.gomp_ompt.specs.Counts.{count_of, no_counts, with_record, AddsCounts, capped};

use crate::record::{POINTS, Point, Record};
use crate::tool::Tool;
use std::alloc::{AllocError, Global};
use std::marker::Model;

/// How many records of each event there were. A count stays at 2^64 - 1. To count takes no memory.
#[derive(Debug, Drop)]
pub struct Counts {
    counts: [u64; POINTS],
}

impl Model for Counts {
    ghost use Rattle.std.specs.Prelude.{ℕ, List};

    ghost Value = { List ℕ };

    ghost view = { λ all. all.counts };
}

impl Counts {
    /// No record is counted.
    pub fn new() -> Counts
        ensures { result ≡ no_counts }
    {
        Counts {
            counts: [0; POINTS],
        }
    }

    /// How many records of this event are counted, 0 to 2^64 - 1.
    pub fn count(&self, point: Point) -> u64
        ensures { result ≡ count_of self.now point }
    {
        self.counts[point.index()]
    }
}

impl Tool for Counts {
    ghost use Rattle.std.specs.Prelude.{replicate};

    ghost on_gives = { λ old event new. new ≡ with_record old event };

    ghost fork_gives = { λ counts count tools. tools ≡ replicate count no_counts };

    ghost join_gives = { AddsCounts };

    /// It counts each.
    fn listens(&self) -> bool {
        true
    }

    /// One more of its event.
    fn on(&mut self, event: &Record) {
        let index = event.point.index();
        self.counts[index] = self.counts[index].saturating_add(1);
    }

    /// Each has counted nothing.
    fn fork(&self, alloc: Global, count: u16) -> Result<Vec<Counts>, AllocError> {
        let mut tools = Vec::new(alloc);
        for _member in 0..count {
            tools.push(Counts::new())?;
        }
        Ok(tools)
    }

    /// Adds the counts of each.
    fn join(&mut self, children: Vec<Counts>)
        ensures { AddsCounts self.old children.items self.new }
    {
        for index in 0..POINTS {
            self.counts[index] = total(self.counts[index], &children, index);
        }
    }
}

/// A count and those of others for the event at this place, 0 to 13.
fn total(count: u64, others: &[Counts], index: usize) -> u64
    requires { index < POINTS }
    ensures { result ≡ capped (count + sum_by (λ other. slice_index other index) others.now) }
{
    let mut sum = count;
    for other in others {
        sum = sum.saturating_add(other.counts[index]);
    }
    sum
}

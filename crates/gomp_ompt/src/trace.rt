//! A tool that keeps the records.

ghost use Rattle.std.specs.Prelude.{◌≡◌};
ghost use Rattle.gomp_ompt.specs.Traces.{TakesRecords, TakesRecord, TakesTraces, empty_trace, with_lost};

use crate::record::Record;
use crate::tool::Tool;
use std::alloc::{AllocError, Global};
use std::marker::Model;

/// The records of a member in their order, as far as there was memory for them, and how many were
/// lost for want of it.
#[derive(Debug, Drop)]
pub struct Trace {
    records: Vec<Record>,
    lost: u64,
}

impl Model for Trace {
    ghost use Rattle.std.specs.Prelude.{◌-◌, vec_len, vec_capacity};
    ghost use Rattle.gomp_ompt.specs.Traces.{TraceView};

    ghost Value = { TraceView };

    ghost view = { λ trace. record {
      records = trace.records.items;
      lost = trace.lost;
      room = vec_capacity trace.records - vec_len trace.records;
    } };
}

impl Trace {
    /// No records. It takes no memory.
    pub fn new(alloc: Global) -> Trace
        ensures { result ≡ empty_trace }
    {
        Trace {
            records: Vec::new(alloc),
            lost: 0,
        }
    }

    /// The records that are kept, the oldest first.
    pub fn as_slice(&self) -> &[Record]
        ensures { result.now ≡ self.now.records }
    {
        self.records.as_slice()
    }

    /// How many records are lost, at most 2^64 - 1: if more are, it stays there.
    pub fn lost(&self) -> u64
        ensures { result ≡ self.now.lost }
    {
        self.lost
    }

    /// Takes the records of another trace behind its own, all or none.
    fn take(&mut self, other: Trace)
        ensures { TakesRecords (with_lost self.old other.lost) other.records self.new }
    {
        let Trace { mut records, lost } = other;
        let count = records.len() as u64;
        self.lost = self.lost.saturating_add(lost);
        if self.records.append(&mut records).is_err() {
            self.lost = self.lost.saturating_add(count);
        }
    }
}

impl Tool for Trace {
    ghost on_gives = { TakesRecord };

    ghost use Rattle.std.specs.Prelude.{replicate};

    ghost fork_gives = { λ trace count tools. tools ≡ replicate count empty_trace };

    ghost join_gives = { TakesTraces };

    /// It keeps each.
    fn listens(&self) -> bool {
        true
    }

    /// Keeps the record; counts it as lost if there is no memory for it.
    fn on(&mut self, event: &Record) {
        if self.records.push(*event).is_err() {
            self.lost = self.lost.saturating_add(1);
        }
    }

    /// Each has no records.
    fn fork(&self, alloc: Global, count: u16) -> Result<Vec<Trace>, AllocError> {
        let mut tools = Vec::new(alloc);
        for _member in 0..count {
            tools.push(Trace::new(alloc))?;
        }
        Ok(tools)
    }

    /// Takes the records of each, in their order, behind its own. Those of one for which there is no
    /// memory count as lost.
    fn join(&mut self, children: Vec<Trace>)
        ensures { TakesTraces self.old children.items self.new }
    {
        for child in children {
            self.take(child);
        }
    }
}

//! The records that tools take, what they tell of them, and the tools of a nested region.

ghost use Rattle.std.specs.Prelude.{◌≡◌, IfOk, IsOk, replicate, vec_len};
ghost use Rattle.gomp_ompt.specs.Counts.{AddsCounts, count_of, no_counts, with_record};
ghost use Rattle.gomp_ompt.specs.Traces.{TakesRecord, TakesTraces, empty_trace};
ghost use Rattle.gomp_ompt.specs.Table.{records_of};
ghost use Rattle.gomp_ompt.specs.Tools.{AfterEach};

use gomp_ompt::{Counts, Point, Record, Tool, Trace};
use gomp_types::{Call, Reply};
use std::alloc::{AllocError, Global};

/// Gives a tool the records of a call.
pub fn give_records<T: Tool>(tool: &mut T, call: &Call, first: bool, reply: &Reply)
    ensures { AfterEach T.on_gives tool.old (records_of call.now first reply.now) tool.new }
{
    gomp_ompt::give_records(tool, call, first, reply)
}

/// Counts a record.
pub fn count(tool: &mut Counts, event: &Record)
    ensures { tool.new ≡ with_record tool.old event.now }
{
    tool.on(event);
}

/// Keeps a record, or counts it as lost.
pub fn keep(tool: &mut Trace, event: &Record)
    ensures { TakesRecord tool.old event.now tool.new }
{
    tool.on(event);
}

/// How many records of an event are counted.
pub fn counted(tool: &Counts, point: Point) -> u64
    ensures { result ≡ count_of tool.now point }
{
    tool.count(point)
}

/// The records that are kept.
pub fn kept(tool: &Trace) -> &[Record]
    ensures { result.now ≡ tool.now.records }
{
    tool.as_slice()
}

/// How many are lost.
pub fn lost(tool: &Trace) -> u64
    ensures { result ≡ tool.now.lost }
{
    tool.lost()
}

/// Counters of the members of a nested region, each at no counts.
pub fn fork_counts(counts: &Counts, alloc: Global, count: u16) -> Result<Vec<Counts>, AllocError>
    ensures none { count ≡ 0 → IsOk result }
    ensures one_each { IfOk result (λ tools. vec_len tools ≡ count) }
    ensures tools { IfOk result (λ tools. tools.items ≡ replicate count no_counts) }
{
    counts.fork(alloc, count)
}

/// Adds what they have counted.
pub fn join_counts(counts: &mut Counts, children: Vec<Counts>)
    ensures { AddsCounts counts.old children.items counts.new }
{
    counts.join(children);
}

/// Traces of the members of a nested region, each with no records.
pub fn fork_traces(trace: &Trace, alloc: Global, count: u16) -> Result<Vec<Trace>, AllocError>
    ensures none { count ≡ 0 → IsOk result }
    ensures one_each { IfOk result (λ tools. vec_len tools ≡ count) }
    ensures tools { IfOk result (λ tools. tools.items ≡ replicate count empty_trace) }
{
    trace.fork(alloc, count)
}

/// Takes what they have kept.
pub fn join_traces(trace: &mut Trace, children: Vec<Trace>)
    ensures { TakesTraces trace.old children.items trace.new }
{
    trace.join(children);
}

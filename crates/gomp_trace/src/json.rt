//! The text of a trace: one JSON object, an event a line, in the Chrome Trace Event format.

ghost use Rattle.std.specs.Prelude.{◌≡◌, ◌++◌, string_bytes, IfOk, OnOk};
ghost use Rattle.serde_json.specs.View.{view};
ghost use Rattle.serde_json.specs.Written.{compact_text};
ghost use Rattle.gomp_trace.specs.Json.{args_data, event_data, moment_data, name_data, names_text, next_text, slice_data, trace_text};

use crate::event::TraceEvent;
use crate::name::{Name, category};
use gomp_ompt::Endpoint;
use serde_json::{Value, json};
use std::alloc::{AllocError, Global};

/// The text of a trace of a team of this many members: the names of the team and of its lanes, and
/// these events.
pub(crate) fn trace_text(
    alloc: Global,
    members: u16,
    events: &[TraceEvent],
) -> Result<String, AllocError>
    ensures { IfOk result (λ text. string_bytes text ≡ trace_text members events.now) }
{
    let mut text = String::from_str(alloc, "{\"traceEvents\":[\n")?;
    push_names(alloc, members, &mut text)?;
    for event in events {
        push_line(event_text(alloc, event)?.as_str(), &mut text)?;
    }
    text.push_str("\n]}\n")?;
    Ok(text)
}

/// Appends the names of the team and of its lanes.
fn push_names(alloc: Global, members: u16, text: &mut String) -> Result<(), AllocError>
    ensures { OnOk result
        (string_bytes text.new ≡ string_bytes text.old ++ names_text members members) }
{
    let team = format!(in alloc; "team of {members}")?;
    text.push_str(name_text(alloc, team.as_str(), "process_name", 0)?.as_str())?;
    for member in 0..members {
        let name = format!(in alloc; "member {member}")?;
        push_line(
            name_text(alloc, name.as_str(), "thread_name", member)?.as_str(),
            text,
        )?;
    }
    Ok(())
}

/// Appends a line behind others.
fn push_line(line: &str, text: &mut String) -> Result<(), AllocError>
    ensures { OnOk result (string_bytes text.new ≡ string_bytes text.old ++ next_text line.now) }
{
    text.push_str(",\n")?;
    text.push_str(line)
}

/// The text of what names the team or a lane.
#[tactic(auto, unfolding(crate::specs::Json::name_data))]
fn name_text(alloc: Global, name: &str, of: &str, lane: u16) -> Result<String, AllocError>
    ensures { IfOk result (λ text.
        string_bytes text ≡ compact_text (name_data name.now of.now lane)) }
{
    name_value(alloc, name, of, lane)?.to_string(alloc)
}

/// What names the team or a lane.
#[tactic(auto, unfolding(crate::specs::Json::name_data))]
fn name_value(alloc: Global, name: &str, of: &str, lane: u16) -> Result<Value, AllocError>
    ensures { IfOk result (λ value. view value ≡ name_data name.now of.now lane) }
{
    json!(in alloc; {
        "args": {"name": name},
        "name": of,
        "ph": "M",
        "pid": 0u64,
        "tid": u64::from(lane)
    })
}

/// The text of an event.
#[tactic(auto, unfolding(crate::specs::Json::slice_data, crate::specs::Json::moment_data))]
fn event_text(alloc: Global, event: &TraceEvent) -> Result<String, AllocError>
    ensures { IfOk result (λ text. string_bytes text ≡ compact_text (event_data event.now)) }
{
    match event.event.scope {
        Endpoint::Begin => slice_value(alloc, event, "B")?.to_string(alloc),
        Endpoint::End => slice_value(alloc, event, "E")?.to_string(alloc),
        Endpoint::Single => moment_value(alloc, event)?.to_string(alloc),
    }
}

/// The begin or the end of a slice, by its letter.
#[tactic(auto, unfolding(crate::specs::Json::slice_data))]
fn slice_value(alloc: Global, event: &TraceEvent, phase: &str) -> Result<Value, AllocError>
    ensures { IfOk result (λ value. view value ≡ slice_data phase.now event.now) }
{
    let name = format!(in alloc; "{}", Name(event.event))?;
    let args = args_value(alloc, event)?;
    json!(in alloc; {
        "args": args,
        "cat": category(event.event.point),
        "name": name,
        "ph": phase,
        "pid": 0u64,
        "tid": u64::from(event.member),
        "ts": event.time
    })
}

/// What is of a moment, on its lane alone.
#[tactic(auto, unfolding(crate::specs::Json::moment_data))]
fn moment_value(alloc: Global, event: &TraceEvent) -> Result<Value, AllocError>
    ensures { IfOk result (λ value. view value ≡ moment_data event.now) }
{
    let name = format!(in alloc; "{}", Name(event.event))?;
    let args = args_value(alloc, event)?;
    json!(in alloc; {
        "args": args,
        "cat": category(event.event.point),
        "name": name,
        "ph": "i",
        "pid": 0u64,
        "s": "t",
        "tid": u64::from(event.member),
        "ts": event.time
    })
}

/// The numbers of an event.
fn args_value(alloc: Global, event: &TraceEvent) -> Result<Value, AllocError>
    ensures { IfOk result (λ value. view value ≡ args_data event.now) }
{
    json!(in alloc; {
        "extra": event.event.extra,
        "id": event.event.id,
        "step": event.time
    })
}

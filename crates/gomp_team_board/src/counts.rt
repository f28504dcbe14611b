//! Which events the ledger counts, and how many an operation and its reply give.

ghost use Rattle.std.specs.Prelude.{◌≡◌, ◌≤◌};
ghost use Rattle.std.specs.List.{count_by};
ghost use Rattle.gomp_team_board.specs.Counts.{is_counted, counted_events, creations_given, starts_given, ends_given, arrivals_given, passes_given, groups_given, words_given, cancels_given, stops_given, task_events, team_events, events_given};
ghost use Rattle.gomp_team_board.specs.Parts.{is_creation, is_pass, is_start, counts_in};

use crate::part::PartCounts;
use gomp_board::Op;
use gomp_events::Event;
use gomp_types::{Refusal, Reply, Scope};

// In a history

/// How often the member, numbered from 0, has created a task, passed a barrier and started a task in
/// this history.
pub fn counts_of(history: &[Event], member: u16) -> PartCounts
    ensures counts { result ≡ counts_in member history.now }
{
    let creates = creations(history, member) as u64;
    let passes = passes(history, member) as u64;
    let starts = starts(history, member) as u64;
    PartCounts {
        creates,
        passes,
        starts,
    }
}

/// How many events of the history the ledger counts.
pub(crate) fn counted_events(history: &[Event]) -> u64
    ensures { result ≡ counted_events history.now }
{
    number_of_counted(history) as u64
}

/// The same, as a length.
fn number_of_counted(history: &[Event]) -> usize
    ensures { result ≡ count_by is_counted history.now }
{
    history.iter().filter(|event| is_counted(event)).count()
}

/// How many tasks the member created.
fn creations(history: &[Event], member: u16) -> usize
    ensures { result ≡ count_by (is_creation member) history.now }
{
    history
        .iter()
        .filter(|event| is_creation(event, member))
        .count()
}

/// How many barriers it passed.
fn passes(history: &[Event], member: u16) -> usize
    ensures { result ≡ count_by (is_pass member) history.now }
{
    history
        .iter()
        .filter(|event| is_pass(event, member))
        .count()
}

/// How many tasks it started.
fn starts(history: &[Event], member: u16) -> usize
    ensures { result ≡ count_by (is_start member) history.now }
{
    history
        .iter()
        .filter(|event| is_start(event, member))
        .count()
}

/// Whether the ledger counts the event.
fn is_counted(event: &Event) -> bool
    ensures { result ≡ is_counted event.now }
{
    match event {
        Event::Cancel { scope, .. } => !matches!(scope, Scope::OneShare(_)),
        Event::Put { .. }
        | Event::Got { .. }
        | Event::Arrive { .. }
        | Event::Pass { .. }
        | Event::Create { .. }
        | Event::Start { .. }
        | Event::Done { .. }
        | Event::Group { .. }
        | Event::GroupEnd { .. }
        | Event::Break { .. } => true,
        _ => false,
    }
}

fn is_creation(event: &Event, member: u16) -> bool
    ensures { result ≡ is_creation member event.now }
{
    matches!(event, Event::Create { member: by, .. } if *by == member)
}

fn is_pass(event: &Event, member: u16) -> bool
    ensures { result ≡ is_pass member event.now }
{
    matches!(event, Event::Pass { member: by, .. } if *by == member)
}

fn is_start(event: &Event, member: u16) -> bool
    ensures { result ≡ is_start member event.now }
{
    matches!(event, Event::Start { member: by, .. } if *by == member)
}

// Of an operation and its reply

/// How many events the ledger counts of the operation and its reply.
pub(crate) fn events_given(op: &Op, reply: &Reply) -> u64
    ensures { result ≡ events_given op.now reply.now }
{
    match reply {
        Reply::Refused(Refusal::Mismatch) => 1,
        Reply::Refused(_) => 0,
        _ => task_events(op, reply) + team_events(op, reply),
    }
}

/// How many come of tasks.
fn task_events(op: &Op, reply: &Reply) -> u64
    ensures { result ≡ task_events op.now reply.now }
{
    creations_given(op, reply) + starts_given(reply) + ends_given(op, reply)
}

/// How many come of all else.
fn team_events(op: &Op, reply: &Reply) -> u64
    ensures { result ≡ team_events op.now reply.now }
{
    arrivals_given(op, reply)
        + passes_given(op, reply)
        + groups_given(op, reply)
        + words_given(op, reply)
        + cancels_given(op, reply)
        + stops_given(op, reply)
}

/// One if the member created a task.
pub(crate) fn creations_given(op: &Op, reply: &Reply) -> u64
    ensures value { result ≡ creations_given op.now reply.now }
    ensures bound { result ≤ 1 }
{
    match op {
        Op::Create(_) => match reply {
            Reply::Refused(_) | Reply::Dropped => 0,
            _ => 1,
        },
        _ => 0,
    }
}

/// One if it started a task.
pub(crate) fn starts_given(reply: &Reply) -> u64
    ensures value { result ≡ starts_given reply.now }
    ensures bound { result ≤ 1 }
{
    match reply {
        Reply::Run { .. } => 1,
        _ => 0,
    }
}

/// One if it ended a task.
fn ends_given(op: &Op, reply: &Reply) -> u64
    ensures value { result ≡ ends_given op.now reply.now }
    ensures bound { result ≤ 1 }
{
    match (op, reply) {
        (Op::EndTask(_), Reply::TaskDone { .. }) => 1,
        _ => 0,
    }
}

/// One if it arrived at a barrier.
fn arrivals_given(op: &Op, reply: &Reply) -> u64
    ensures value { result ≡ arrivals_given op.now reply.now }
    ensures bound { result ≤ 1 }
{
    match op {
        Op::Arrive { .. } => match reply {
            Reply::Refused(_) | Reply::Cancelled => 0,
            _ => 1,
        },
        _ => 0,
    }
}

/// One if it passed a barrier.
pub(crate) fn passes_given(op: &Op, reply: &Reply) -> u64
    ensures value { result ≡ passes_given op.now reply.now }
    ensures bound { result ≤ 1 }
{
    match (op, reply) {
        (Op::Arrive { .. } | Op::AwaitBarrier, Reply::Passed) => 1,
        _ => 0,
    }
}

/// One if it opened a group, or ended one.
fn groups_given(op: &Op, reply: &Reply) -> u64
    ensures value { result ≡ groups_given op.now reply.now }
    ensures bound { result ≤ 1 }
{
    match (op, reply) {
        (Op::OpenGroup, Reply::Finished) => 1,
        (Op::EndGroup | Op::AwaitGroup, Reply::Passed) => 1,
        _ => 0,
    }
}

/// One if it put words, or was given them.
fn words_given(op: &Op, reply: &Reply) -> u64
    ensures value { result ≡ words_given op.now reply.now }
    ensures bound { result ≤ 1 }
{
    match (op, reply) {
        (Op::Put { .. } | Op::Got { .. }, Reply::Finished) => 1,
        _ => 0,
    }
}

/// One if it cancelled the region or a group.
fn cancels_given(op: &Op, reply: &Reply) -> u64
    ensures value { result ≡ cancels_given op.now reply.now }
    ensures bound { result ≤ 1 }
{
    match (op, reply) {
        (Op::Cancel { clause: true, .. }, Reply::Cancelling(true)) => 1,
        _ => 0,
    }
}

/// One if it stopped the team.
fn stops_given(op: &Op, reply: &Reply) -> u64
    ensures value { result ≡ stops_given op.now reply.now }
    ensures bound { result ≤ 1 }
{
    match (op, reply) {
        (Op::Break { .. }, Reply::Stopped) => 1,
        _ => 0,
    }
}

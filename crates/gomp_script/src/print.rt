//! How replies are printed.

ghost use Rattle.std.specs.Prelude.{◌≡◌, ◌≢◌, ◌++◌, [], Some, string_bytes, IfOk, IfErr, OnOk, flat_map};
ghost use Rattle.gomp_script.specs.Printing.{yes_text, waiting_text, reply_text, reply_line, word_text, refusal_line, why_text, bad_line_text};

use crate::parse::{BadLine, Why};
use gomp_types::{Refusal, Reply};
use std::alloc::{AllocError, Global};
use std::fmt;

/// The word of a truth.
fn yes_or_no(truth: bool) -> &'static str
    ensures { result.now ≡ yes_text truth }
{
    if truth { "yes" } else { "no" }
}

/// The word that says whether the wait beneath a task is open again.
fn waiting_or_free(waiting: bool) -> &'static str
    ensures { result.now ≡ waiting_text waiting }
{
    if waiting { "waiting" } else { "free" }
}

/// A reply as it is printed, without the line feed.
#[derive(Clone, Copy)]
struct Printed<'a>(&'a Reply);

impl fmt::Display for Printed<'_> {
    ghost output = { λ printed. Some (reply_text printed.0.now) };

    fn fmt<W: fmt::Write>(&self, f: &mut fmt::Formatter<W>) -> fmt::Result {
        match self.0 {
            Reply::Chunk { first, count } => write!(f, "chunk {first} {count}"),
            Reply::NoChunk => write!(f, "none"),
            Reply::Section(number) => write!(f, "section {number}"),
            Reply::Executor(executes) => write!(f, "executor {}", yes_or_no(*executes)),
            Reply::Copied(payload) => write!(f, "copied{}", Words(payload.as_slice())),
            Reply::Finished => write!(f, "ok"),
            Reply::Passed => write!(f, "passed"),
            Reply::Cancelled => write!(f, "cancelled"),
            Reply::Wait => write!(f, "wait"),
            Reply::Created(task) => write!(f, "created {task}"),
            Reply::Dropped => write!(f, "dropped"),
            Reply::Cancelling(cancelled) => write!(f, "cancel {}", yes_or_no(*cancelled)),
            Reply::Run {
                task,
                code,
                arg,
                own: false,
            } => write!(f, "run {task} {code} {arg}"),
            Reply::Run {
                task,
                code,
                arg,
                own: true,
            } => write!(f, "run {task} {code} {arg} own"),
            Reply::TaskDone { task, waiting } => {
                write!(f, "task_done {task} {}", waiting_or_free(*waiting))
            }
            Reply::Lock(number) => write!(f, "lock {number}"),
            Reply::Got(free) => write!(f, "got {}", yes_or_no(*free)),
            Reply::Count(count) => write!(f, "count {count}"),
            Reply::Stopped => write!(f, "stopped"),
            Reply::Refused(refusal) => write!(f, "refused {refusal}"),
        }
    }
}

/// The words of a payload, each after a space.
#[derive(Clone, Copy)]
struct Words<'a>(&'a [u64]);

impl fmt::Display for Words<'_> {
    ghost output = { λ words. Some (flat_map word_text words.0.now) };

    fn fmt<W: fmt::Write>(&self, f: &mut fmt::Formatter<W>) -> fmt::Result {
        for word in self.0 {
            write!(f, " {word}")?;
        }
        Ok(())
    }
}

impl fmt::Display for Why {
    ghost output = { λ why. Some (why_text why) };

    fn fmt<W: fmt::Write>(&self, f: &mut fmt::Formatter<W>) -> fmt::Result {
        match self {
            Why::NotAscii => write!(f, "not ascii"),
            Why::FirstLine => write!(f, "first line"),
            Why::UnknownWord => write!(f, "unknown word"),
            Why::MissingWord => write!(f, "missing word"),
            Why::BadNumber => write!(f, "bad number"),
            Why::ExtraWord => write!(f, "extra word"),
        }
    }
}

/// The line that refuses a text.
pub fn print_bad_line(alloc: Global, bad: &BadLine) -> Result<String, AllocError>
    ensures { IfOk result (λ text. string_bytes text ≡ bad_line_text bad.now) }
{
    format!(in alloc; "bad line {}: {}\n", bad.line, bad.why)
}

/// The line that refuses a team.
pub fn print_refusal(alloc: Global, refusal: &Refusal) -> Result<String, AllocError>
    ensures { IfOk result (λ text. string_bytes text ≡ refusal_line refusal.now) }
{
    format!(in alloc; "refused {refusal}\n")
}

/// The lines of these replies. The error is want of memory, and no reply takes none.
pub fn print_replies(alloc: Global, replies: &[Reply]) -> Result<String, AllocError>
    ensures lines { IfOk result (λ text. string_bytes text ≡ flat_map reply_line replies.now) }
    ensures memory { IfErr result (λ _. replies.now ≢ []) }
{
    let mut text = String::new(alloc);
    for reply in replies {
        print_reply(reply, &mut text)?;
    }
    Ok(text)
}

/// Appends the line of this reply to a text. On want of memory the text may have a part of it.
pub fn print_reply(reply: &Reply, text: &mut String) -> Result<(), AllocError>
    ensures { OnOk result (string_bytes text.new ≡ string_bytes text.old ++ reply_line reply.now) }
{
    writeln!(text, "{}", Printed(reply))
}

//! Talks: the answers to the lines of an input, also where a read or a write fails.

use crate::checks::{AMPLE, same};
use crate::faults::{FailingReader, writer_of};
use gomp_icv::Icv;
use gomp_live::serve::serve_live;
use gomp_service::read::Ending;
use gomp_share_ring::RingAll;
use std::alloc::Global;
use std::io::{BufReader, ErrorKind};
use std::process::Abort;

/// Lines of a talk, each with its answer.
const LINES: &[(&str, &str)] = &[
    ("team 65\n", "refused E38 BadTeam\n"),
    ("\n", ""),
    ("0 barrier\n", "bad line 3: first line\n"),
    ("team 1\n", "ok\n"),
    ("# 0 stop\n", ""),
    ("0 barrier\n", "passed\n"),
    ("foo\n", "bad line 7: missing word\n"),
    ("team 2\n", "ok\n"),
    ("0 cancel parallel 1\n", "cancel no\n"),
    ("0 barrier\n", "wait\n"),
    ("team 0\n", "refused E38 BadTeam\n"),
    ("1 barrier\n", "passed\n"),
    ("0 resume\n", "passed\n"),
];

/// These, by a function of their own: a constant is in each step of the function that names it.
fn lines() -> &'static [(&'static str, &'static str)] {
    LINES
}

/// The lines, or the answers to those that end within the first so many bytes.
fn text_of(rt: &impl Abort, alloc: Global, read: usize, answers: bool) -> String {
    let mut text = String::new(alloc);
    let mut end: usize = 0;
    for (line, answer) in lines() {
        end = end.saturating_add(line.len());
        if end <= read {
            let part = if answers { answer } else { line };
            text.push_str(part).expect(rt, AMPLE);
        }
    }
    text
}

fn name_of(ending: Ending) -> &'static str {
    match ending {
        Ending::Answered(0) => "answered",
        Ending::Answered(_) => "answered with a status",
        Ending::NoMemory => "no memory",
        Ending::InputFault => "input fault",
        Ending::TooLong => "too long",
        Ending::OutputFault => "output fault",
    }
}

/// That a talk of which so many reads and writes go well ends so, and writes these bytes.
fn talks(
    rt: &impl Abort,
    alloc: Global,
    (text, reads, writes): (&str, usize, usize),
    (ending, output): (&str, &[u8]),
) {
    let reader = FailingReader {
        text: text.as_bytes(),
        reads,
        kind: ErrorKind::TimedOut,
    };
    let mut writer = writer_of(alloc, writes, false);
    let reader = BufReader::new(alloc, reader).expect(rt, AMPLE);
    let ended = serve_live::<RingAll, _, _>(alloc, Icv::initial(), reader, &mut writer);
    let found = (name_of(ended), writer.written.as_slice());
    same(rt, &found, &(ending, output), "talk", reads as u64);
}

/// Where each read fails in turn, the lines that were read before have their answers.
fn fail_reads(rt: &impl Abort, alloc: Global, text: &str) {
    for read in 0..text.len() + 1 {
        let answered = text_of(rt, alloc, read, true);
        let cut = ("input fault", answered.as_bytes());
        talks(rt, alloc, (text, read, usize::MAX), cut);
    }
}

/// Where each write fails in turn, the answers are written up to there.
fn fail_writes(rt: &impl Abort, alloc: Global, text: &str, answers: &[u8]) {
    for written in 0..answers.len() {
        let cut = answers.get(..written).unwrap_or(b"");
        talks(
            rt,
            alloc,
            (text, usize::MAX, written),
            ("output fault", cut),
        );
    }
}

/// Each line has its answer; and where each read and each write fails in turn, the lines that were read before have theirs.
#[test]
fn talks_that_fail(rt: HostRuntime) {
    let alloc = rt.alloc();
    let text = text_of(&rt, alloc, usize::MAX, false);
    let answers = text_of(&rt, alloc, usize::MAX, true);
    let (text, answers) = (text.as_str(), answers.as_bytes());
    let whole = (text, text.len() + 1, answers.len());
    talks(&rt, alloc, whole, ("answered", answers));
    talks(&rt, alloc, ("team 1", 8, 3), ("answered", b"ok\n"));
    fail_reads(&rt, alloc, text);
    fail_writes(&rt, alloc, text, answers);
}

//! Streams that fail: the process `ompteam` over readers and writers that fail at each read and each write in turn.

use crate::checks::{AMPLE, same};
use Fault::{Note, Output, Reading};
use gomp_crew::Host;
use gomp_serve::run_process;
use gomp_share_ring::RingAll;
use std::alloc::Global;
use std::io::{self, ErrorKind, Read, Write};
use std::process::{Abort, ExitCode};

/// A reader that gives a byte a read, and fails once as many reads are done as it may do.
#[derive(Drop)]
pub(crate) struct FailingReader<'a> {
    pub(crate) text: &'a [u8],
    pub(crate) reads: usize,
    pub(crate) kind: ErrorKind,
}

impl Read for FailingReader<'_> {
    fn read(&mut self, buf: &mut [u8]) -> io::Result<usize> {
        if self.reads == 0 {
            return Err(io::Error::from(self.kind));
        }
        self.reads -= 1;
        match (self.text, buf) {
            ([first, rest @ ..], [place, ..]) => {
                *place = *first;
                self.text = rest;
                Ok(1)
            }
            _ => Ok(0),
        }
    }
}

/// A writer that takes a byte a write, and fails once as many writes are done as it may do: from then on, or
/// only then.
#[derive(Drop)]
pub(crate) struct FailingWriter {
    pub(crate) written: Vec<u8>,
    writes: usize,
    recovers: bool,
}

impl Write for FailingWriter {
    fn write(&mut self, buf: &[u8]) -> io::Result<usize> {
        let [first, ..] = buf else {
            return Ok(0);
        };
        if self.writes == 0 {
            if self.recovers {
                self.writes = usize::MAX;
            }
            return Err(io::Error::from(ErrorKind::BrokenPipe));
        }
        self.writes -= 1;
        self.written.push(*first)?;
        Ok(1)
    }

    fn flush(&mut self) -> io::Result<()> {
        Ok(())
    }
}

/// A run of the process: its words, and how many reads and writes go well.
#[derive(Clone, Copy)]
struct Run {
    /// The words of the command line.
    words: &'static [&'static str],
    /// What is read.
    text: &'static [u8],
    /// How many reads go well.
    reads: usize,
    /// How the next one fails.
    kind: ErrorKind,
    /// How many writes of the output go well.
    writes: usize,
    /// How many writes of standard error go well.
    error_writes: usize,
    /// Whether what failed once goes well again.
    recovers: bool,
}

/// What has to follow: the number with which the process ends, which is none where a note cannot be written, and what
/// its output and standard error get.
#[derive(Clone, Copy)]
struct Outcome {
    code: Option<u8>,
    output: &'static [u8],
    errors: &'static [u8],
}

const TEXT: &[u8] = b"team 1\n0 loop dynamic 1 0 0 1 nowait\n0 end_nowait\n";

/// The replies to its steps.
const OUTPUT: &[u8] = b"none\nok\n";

/// The trace of its run: the loop has no iteration, and the member does not come to the region's end.
const TRACE: &[u8] = b"{\"traceEvents\":[
{\"args\":{\"name\":\"team of 1\"},\"name\":\"process_name\",\"ph\":\"M\",\"pid\":0,\"tid\":0},
{\"args\":{\"name\":\"member 0\"},\"name\":\"thread_name\",\"ph\":\"M\",\"pid\":0,\"tid\":0},
{\"args\":{\"extra\":0,\"id\":1,\"step\":0},\"cat\":\"parallel_begin\",\"name\":\"parallel region begins\",\"ph\":\"i\",\"pid\":0,\"s\":\"t\",\"tid\":0,\"ts\":0},
{\"args\":{\"extra\":1,\"id\":0,\"step\":0},\"cat\":\"implicit_task\",\"name\":\"implicit task\",\"ph\":\"B\",\"pid\":0,\"tid\":0,\"ts\":0},
{\"args\":{\"extra\":0,\"id\":0,\"step\":1},\"cat\":\"work\",\"name\":\"loop or sections\",\"ph\":\"B\",\"pid\":0,\"tid\":0,\"ts\":1},
{\"args\":{\"extra\":0,\"id\":0,\"step\":2},\"cat\":\"work\",\"name\":\"loop or sections\",\"ph\":\"E\",\"pid\":0,\"tid\":0,\"ts\":2},
{\"args\":{\"extra\":1,\"id\":0,\"step\":2},\"cat\":\"implicit_task\",\"name\":\"implicit task\",\"ph\":\"E\",\"pid\":0,\"tid\":0,\"ts\":2}
]}
";

/// A script whose members add 0 to 4.
const SCRIPT: &[u8] = b"region 2\nfor static 0 0 5 1 wait\nadd it\nendfor\n";

const NOTE: &[u8] = b"ignored FOO\n";

/// A run in which every read and write goes well.
const FAULTLESS: Run = Run {
    words: &[],
    text: TEXT,
    reads: usize::MAX,
    kind: ErrorKind::TimedOut,
    writes: usize::MAX,
    error_writes: usize::MAX,
    recovers: false,
};

/// Runs whose words cannot be read.
const NO_WORDS: &[(Run, Outcome)] = &[
    (
        Run {
            words: &[],
            reads: TEXT.len() + 1,
            kind: ErrorKind::OutOfMemory,
            writes: 0,
            error_writes: 10,
            ..FAULTLESS
        },
        Outcome {
            code: Some(3),
            output: b"",
            errors: b"no memory\n",
        },
    ),
    (
        Run {
            words: &[],
            reads: TEXT.len() + 1,
            kind: ErrorKind::InvalidData,
            writes: 0,
            error_writes: 47,
            ..FAULTLESS
        },
        Outcome {
            code: Some(1),
            output: b"",
            errors: b"error: a word of the command line is not UTF-8\n",
        },
    ),
];

/// What fails in a run: a read, in this way, and the number and the message that follow; a write of the output; or a
/// write of the note on an ignored word.
#[derive(Clone, Copy)]
enum Fault {
    Reading(ErrorKind, u8, &'static [u8]),
    Output,
    Note,
}

const LATE: Fault = Reading(ErrorKind::TimedOut, 1, b"input fault\n");

const NO_MEMORY: Fault = Reading(ErrorKind::OutOfMemory, 3, b"no memory\n");

/// A service that reads the whole text: its words, with an ignored one or without, the text, and its output.
struct Service {
    /// The words of the command line.
    words: &'static [&'static str],
    /// The same, and one that is ignored.
    with_ignored: &'static [&'static str],
    /// What is read.
    text: &'static [u8],
    /// What is written.
    output: &'static [u8],
}

const SERVICES: &[Service] = &[
    Service {
        words: &["ompteam", "steps"],
        with_ignored: &["ompteam", "steps", "FOO=1"],
        text: TEXT,
        output: OUTPUT,
    },
    Service {
        words: &["ompteam", "check"],
        with_ignored: &["ompteam", "check", "FOO=1"],
        text: TEXT,
        output: b"steps 2\n",
    },
    Service {
        words: &["ompteam", "trace"],
        with_ignored: &["ompteam", "trace", "FOO=1"],
        text: TEXT,
        output: TRACE,
    },
    Service {
        words: &["ompteam", "run"],
        with_ignored: &["ompteam", "run", "FOO=1"],
        text: SCRIPT,
        output: b"threads 2\ntotal 10\ntaken 5\n",
    },
];

/// The words of a process, or the error that stands in their place where there are none.
fn given(rt: &impl Abort, alloc: Global, run: &Run) -> io::Result<std::env::Args> {
    if run.words.is_empty() {
        return Err(io::Error::from(run.kind));
    }
    let mut words = Vec::new(alloc);
    for word in run.words {
        let word = String::from_str(alloc, word).expect(rt, AMPLE);
        words.push(word).expect(rt, AMPLE);
    }
    Ok(words.into_iter())
}

/// An empty writer of this many good writes.
pub(crate) fn writer_of(alloc: Global, writes: usize, recovers: bool) -> FailingWriter {
    FailingWriter {
        written: Vec::new(alloc),
        writes,
        recovers,
    }
}

/// That a run has this outcome.
fn has_outcome<H: Abort + Host>(
    rt: &H,
    alloc: Global,
    (run, outcome): &(Run, Outcome),
    name: &str,
    case: u64,
) {
    let reader = FailingReader {
        text: run.text,
        reads: run.reads,
        kind: run.kind,
    };
    let mut writer = writer_of(alloc, run.writes, run.recovers);
    let mut errors = writer_of(alloc, run.error_writes, run.recovers);
    let words = given(rt, alloc, run);
    let code = run_process::<RingAll, _, _, _, _>(
        rt,
        alloc,
        words,
        reader,
        &mut writer,
        &mut errors,
    ).ok();
    let expected = outcome.code.map(|code| ExitCode::from(code));
    same(rt, &code, &expected, name, case);
    let found = (writer.written.as_slice(), errors.written.as_slice());
    same(rt, &found, &(outcome.output, outcome.errors), name, case);
}

/// A run of a service in which this fails after so many good reads or writes, and what has to follow.
fn faulty(service: &Service, fault: Fault, good: usize, recovers: bool) -> (Run, Outcome) {
    let mut run = Run {
        words: service.words,
        text: service.text,
        recovers,
        ..FAULTLESS
    };
    let mut outcome = Outcome {
        code: None,
        output: service.output,
        errors: b"output fault\n",
    };
    match fault {
        Reading(kind, code, errors) => {
            run.kind = kind;
            run.reads = good;
            outcome = Outcome {
                code: Some(code),
                output: b"",
                errors,
            };
        }
        Output => {
            run.writes = good;
            outcome.code = Some(1);
            outcome.output = service.output.get(..good).unwrap_or(b"");
        }
        Note => {
            run.error_writes = good;
            outcome.errors = NOTE.get(..good).unwrap_or(NOTE);
        }
    }
    (run, outcome)
}

/// Before how many good reads or writes this fails at most. The text is read a byte a time, and of the last read the
/// reader says that nothing is left. Bytes are written one a time.
fn most(service: &Service, fault: Fault) -> usize {
    match fault {
        Reading(..) => service.text.len() + 1,
        Output => service.output.len(),
        Note => NOTE.len(),
    }
}

/// That what fails after so many good reads or writes leads to its outcome: it fails from then on, or only then (`recovers`). A word
/// of the run is ignored (`ignores`), or none is.
fn fails<H: Abort + Host>(
    rt: &H,
    alloc: Global,
    service: &Service,
    (fault, ignores, name): (Fault, bool, &str),
    (good, recovers): (usize, bool),
) {
    let (mut run, outcome) = faulty(service, fault, good, recovers);
    if ignores {
        run.words = service.with_ignored;
    }
    has_outcome(rt, alloc, &(run, outcome), name, good as u64);
}

/// That what fails leads to its outcome, after however many good reads or writes.
fn have_outcomes<H: Abort + Host>(
    rt: &H,
    alloc: Global,
    service: &Service,
    (fault, ignores, name): (Fault, bool, &str),
) {
    for good in 0..most(service, fault) {
        fails(rt, alloc, service, (fault, ignores, name), (good, false));
        fails(rt, alloc, service, (fault, ignores, name), (good, true));
    }
}

/// That a service with these words has its output and these errors, if as many reads and writes go well as there are bytes, and no
/// more are made.
fn serves<H: Abort + Host>(
    rt: &H,
    alloc: Global,
    service: &Service,
    words: &'static [&'static str],
    errors: &'static [u8],
) {
    let run = Run {
        words,
        text: service.text,
        reads: service.text.len() + 1,
        writes: service.output.len(),
        error_writes: errors.len(),
        ..FAULTLESS
    };
    let outcome = Outcome {
        code: Some(0),
        output: service.output,
        errors,
    };
    has_outcome(rt, alloc, &(run, outcome), "service", 0);
}

/// What fails in a run of a service, whether a word of it is ignored, and what the case is called.
const FAULTS: &[(Fault, bool, &str)] = &[
    (Output, false, "write"),
    (LATE, false, "read"),
    (NO_MEMORY, false, "read without memory"),
    (Output, true, "write"),
    (LATE, true, "read"),
    (NO_MEMORY, true, "read without memory"),
    (Note, true, "write of a note"),
];

/// These, by functions of their own: a constant is in each step of the function that names it.
fn faults() -> &'static [(Fault, bool, &'static str)] {
    FAULTS
}

fn services() -> &'static [Service] {
    SERVICES
}

fn no_words() -> &'static [(Run, Outcome)] {
    NO_WORDS
}

/// As many reads and writes of this service go well as there are bytes, and nothing fails; and then each fails in turn.
fn try_service<H: Abort + Host>(rt: &H, alloc: Global, service: &Service) {
    serves(rt, alloc, service, service.words, b"");
    serves(rt, alloc, service, service.with_ignored, NOTE);
    for fault in faults() {
        have_outcomes(rt, alloc, service, *fault);
    }
}

/// Runs whose words cannot be read, and each service.
#[test]
fn streams_that_fail(rt: HostRuntime) {
    for (number, run) in no_words().iter().enumerate() {
        has_outcome(&rt, rt.alloc(), run, "run", number as u64);
    }
    for service in services() {
        try_service(&rt, rt.alloc(), service);
    }
}

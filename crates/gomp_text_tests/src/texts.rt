//! Texts of steps with items, and printed replies and faults, called as a library: want of memory is not feigned.

use crate::checks::{AMPLE, joined, same};
use gomp_region::{BadScript, ScriptWhy, print_bad_script};
use gomp_script::{BadLine, Why, parse_steps, print_bad_line, print_replies, print_reply};
use gomp_test_data::{SIZES, items_of, text_of};
use gomp_types::{Call, Clash, DepKind, Deps, Payload, Place, Refusal, Reply, Step, TaskDesc};
use std::alloc::Global;
use std::process::Abort;

/// Numbers, as they are written.
const NUMBERS: &[(u64, &str)] = &[
    (0, "0"),
    (9, "9"),
    (10, "10"),
    (255, "255"),
    (256, "256"),
    (65_535, "65535"),
    (65_536, "65536"),
    (1 << 32, "4294967296"),
    ((1 << 63) - 1, "9223372036854775807"),
    (1 << 63, "9223372036854775808"),
    (u64::MAX - 1, "18446744073709551614"),
    (u64::MAX, "18446744073709551615"),
];

/// Signed numbers, as they are written.
pub(crate) const VALUES: &[(i64, &str)] = &[
    (0, "0"),
    (9, "9"),
    (10, "10"),
    (255, "255"),
    (256, "256"),
    (65_535, "65535"),
    (65_536, "65536"),
    (1 << 32, "4294967296"),
    (i64::MAX, "9223372036854775807"),
    (-1, "-1"),
    (-10, "-10"),
    (-256, "-256"),
    (-65_536, "-65536"),
    (i64::MIN, "-9223372036854775808"),
];

/// The faults of a line, as they are written.
const FAULTS: &[(Why, &str)] = &[
    (Why::NotAscii, "not ascii"),
    (Why::FirstLine, "first line"),
    (Why::UnknownWord, "unknown word"),
    (Why::MissingWord, "missing word"),
    (Why::BadNumber, "bad number"),
    (Why::ExtraWord, "extra word"),
];

/// So many items, each of this word and its number, as they are written.
pub(crate) fn written_items(rt: &impl Abort, alloc: Global, word: &str, count: usize) -> String {
    let mut items = String::new(alloc);
    for addr in 0..count {
        write!(items, " {word} {addr}").expect(rt, AMPLE);
    }
    items
}

/// A task and a taskwait with these items each.
fn steps_of(task: Deps, taskwait: Deps) -> [Step; 2] {
    let task = TaskDesc {
        code: 5,
        arg: 6,
        undeferred: true,
        final_task: true,
        deps: task,
    };
    [
        Step {
            member: 65_535,
            call: Call::TaskCreate(task),
        },
        Step {
            member: 64,
            call: Call::Taskwait(taskwait),
        },
    ]
}

/// The steps with so many items.
fn steps_of_items(rt: &impl Abort, alloc: Global, count: usize) -> [Step; 2] {
    let task = items_of(alloc, DepKind::DepInoutset, count).expect(rt, AMPLE);
    let taskwait = items_of(alloc, DepKind::DepInoutset, count).expect(rt, AMPLE);
    steps_of(task, taskwait)
}

/// These steps, as they are written, with these items.
fn steps_text(rt: &impl Abort, alloc: Global, items: &str) -> String {
    let front = "team 4294967295\n65535 task 5 6 if0 final";
    joined(rt, alloc, &[front, items, "\n64 taskwait", items, "\n"])
}

/// That so many items of a task and of a taskwait are read.
fn reads_items(rt: &impl Abort, alloc: Global, count: usize) {
    let items = written_items(rt, alloc, "inoutset", count);
    let text = steps_text(rt, alloc, items.as_str());
    let (team, steps) = parse_steps(alloc, text.as_bytes()).expect(rt, AMPLE);
    same(rt, team, u32::MAX, "team of items", count as u64);
    let expected = steps_of_items(rt, alloc, count);
    same(
        rt,
        steps.as_slice(),
        expected.as_slice(),
        "items",
        count as u64,
    );
    drop(items);
    drop(text);
    drop(steps);
    drop(expected);
}

/// Texts of steps of members whose numbers are large, with items of every number, are read.
#[test]
fn items_are_read(rt: HostRuntime) {
    for count in SIZES {
        reads_items(&rt, rt.alloc(), *count);
    }
}

/// The faults of a script that no line of steps has, as they are written.
const SCRIPT_FAULTS: &[(ScriptWhy, &str)] = &[
    (ScriptWhy::NoOpenBlock, "no open block"),
    (ScriptWhy::TooDeep, "too deep"),
    (ScriptWhy::NotClosed, "block not closed"),
];

/// That these replies are printed so, one by one and together.
fn print_so(rt: &impl Abort, alloc: Global, replies: &[Reply], expected: &str, case: u64) {
    let mut text = String::new(alloc);
    for reply in replies {
        print_reply(reply, &mut text).expect(rt, AMPLE);
    }
    same(rt, text.as_str(), expected, "printed one by one", case);
    let together = print_replies(alloc, replies).expect(rt, AMPLE);
    same(rt, together.as_str(), expected, "printed together", case);
    drop(text);
    drop(together);
}

/// That so many replies are printed.
fn prints_sections(rt: &impl Abort, alloc: Global, count: usize) {
    let mut replies = Vec::new(alloc);
    for _ in 0..count {
        replies.push(Reply::Section(10)).expect(rt, AMPLE);
    }
    let expected = text_of(alloc, "", "section 10\n", count, "").expect(rt, AMPLE);
    print_so(
        rt,
        alloc,
        replies.as_slice(),
        expected.as_str(),
        count as u64,
    );
    drop(replies);
    drop(expected);
}

/// That a section of this number is printed, a copy of it twice, and a refusal at it.
fn prints_number(rt: &impl Abort, alloc: Global, number: u64, written: &str) {
    let mut payload = Payload::new();
    payload.push(number);
    payload.push(number);
    let clash = Clash {
        member: u16::MAX,
        place: Place::Share(number),
    };
    let replies = [
        Reply::Section(number),
        Reply::Copied(payload),
        Reply::Refused(Refusal::Broken(clash)),
    ];
    let expected = joined(
        rt,
        alloc,
        &[
            "section ",
            written,
            "\ncopied ",
            written,
            " ",
            written,
            "\nrefused E3 Broken 65535 share ",
            written,
            "\n",
        ],
    );
    print_so(rt, alloc, &replies, expected.as_str(), number);
    drop(replies);
    drop(expected);
}

/// That chunks of so many iterations are printed, with each first one.
fn prints_chunks(rt: &impl Abort, alloc: Global, count: u64, written: &str) {
    for (first, value) in VALUES {
        let expected = joined(rt, alloc, &["chunk ", *value, " ", written, "\n"]);
        let first = *first;
        let replies = [Reply::Chunk { first, count }];
        print_so(rt, alloc, &replies, expected.as_str(), count);
        drop(replies);
        drop(expected);
    }
}

/// The replies on locks, tasks and cancellation, with the least numbers and the largest, as they are printed.
const EXTREMES: &str = "lock 0\nlock 4294967295\ngot yes\ngot no\ncount 0\ncount 4294967295\n\
created 1\ncreated 4294967295\nrun 1 0 18446744073709551615\nrun 4294967295 18446744073709551615 0 own\n\
task_done 1 waiting\ntask_done 4294967295 free\ncancel yes\ncancel no\ncancelled\ndropped\n";

/// That these are printed so.
fn prints_extremes(rt: &impl Abort, alloc: Global) {
    let replies = [
        Reply::Lock(0),
        Reply::Lock(u32::MAX),
        Reply::Got(true),
        Reply::Got(false),
        Reply::Count(0),
        Reply::Count(u32::MAX),
        Reply::Created(1),
        Reply::Created(u32::MAX),
        Reply::Run {
            task: 1,
            code: 0,
            arg: u64::MAX,
            own: false,
        },
        Reply::Run {
            task: u32::MAX,
            code: u64::MAX,
            arg: 0,
            own: true,
        },
        Reply::TaskDone {
            task: 1,
            waiting: true,
        },
        Reply::TaskDone {
            task: u32::MAX,
            waiting: false,
        },
        Reply::Cancelling(true),
        Reply::Cancelling(false),
        Reply::Cancelled,
        Reply::Dropped,
    ];
    print_so(rt, alloc, &replies, EXTREMES, 0);
    drop(replies);
}

/// That a bad line of this number is printed with this fault, of a script.
fn prints_bad_script(
    rt: &impl Abort,
    alloc: Global,
    (line, written): (u64, &str),
    (why, fault): (ScriptWhy, &str),
) {
    let found = print_bad_script(alloc, &BadScript { line, why }).expect(rt, AMPLE);
    let expected = joined(rt, alloc, &["bad line ", written, ": ", fault, "\n"]);
    same(rt, found, expected, "bad line of a script", line);
}

/// That a bad line of this number is printed with this fault, of a line of steps and of a script.
fn prints_bad_line(
    rt: &impl Abort,
    alloc: Global,
    (line, written): (u64, &str),
    (why, fault): (Why, &str),
) {
    let found = print_bad_line(alloc, &BadLine { line, why }).expect(rt, AMPLE);
    let expected = joined(rt, alloc, &["bad line ", written, ": ", fault, "\n"]);
    same(rt, found, expected, "bad line", line);
    prints_bad_script(rt, alloc, (line, written), (ScriptWhy::Words(why), fault));
}

/// That bad lines of this number are printed, with each fault.
fn prints_faults(rt: &impl Abort, alloc: Global, line: (u64, &str)) {
    for fault in FAULTS {
        prints_bad_line(rt, alloc, line, *fault);
    }
    for fault in SCRIPT_FAULTS {
        prints_bad_script(rt, alloc, line, *fault);
    }
}

/// Replies of every number, and numbers of every size, are printed.
#[test]
fn replies_and_faults_print(rt: HostRuntime) {
    let alloc = rt.alloc();
    prints_extremes(&rt, alloc);
    for count in SIZES {
        prints_sections(&rt, alloc, *count);
    }
    for (number, written) in NUMBERS {
        prints_number(&rt, alloc, *number, *written);
        prints_chunks(&rt, alloc, *number, *written);
        prints_faults(&rt, alloc, (*number, *written));
    }
}

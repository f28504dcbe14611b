//! The control variables and the words of the environment, called as a library.

use crate::checks::{AMPLE, same};
use gomp_icv::{Icv, child_icv, read_env, team_size};
use gomp_test_data::{SIZES, text_of};
use gomp_types::{Refusal, Sched};
use std::alloc::Global;
use std::process::Abort;

/// Words that set each variable, some of which are ignored.
const WORDS: &[(&str, &str)] = &[
    ("OMP_NUM_THREADS", "3"),
    ("OMP_OTHER", "1"),
    ("OMP_NUM_THREADS", "4,2"),
    ("OMP_THREAD_LIMIT", "8"),
    ("OMP_THREAD_LIMIT", "0"),
    ("OMP_SCHEDULE", "auto,x"),
    ("OMP_SCHEDULE", "guided,7"),
    ("OMP_DYNAMIC", "true"),
    ("OMP_CANCELLATION", "true"),
    ("omp_cancellation", "false"),
    ("OMP_MAX_ACTIVE_LEVELS", "5"),
];

/// The names of those that are ignored.
const IGNORED: &[&str] = &[
    "OMP_OTHER",
    "OMP_THREAD_LIMIT",
    "OMP_SCHEDULE",
    "omp_cancellation",
];

// What a region asks for, its `if` clause, the busy threads, and the size of its team.
type SizeRow = (Option<u32>, bool, u32, u32);

const TEAM_SIZES: &[SizeRow] = &[
    (None, true, 1, 4),
    (None, false, 1, 1),
    (Some(100), true, 1, 8),
    (Some(0), true, 1, 1),
    (Some(100), true, 6, 3),
    (Some(100), true, u32::MAX, 1),
];

/// The name of an ignored word.
fn name_of(refusal: &Refusal) -> &str {
    match refusal {
        Refusal::BadEnv(name) => name.as_str(),
        _ => "no ignored word",
    }
}

/// That these words are ignored, in order, and no other.
fn are_ignored(rt: &impl Abort, ignored: &[Refusal], names: &[&str], name: &str, case: u64) {
    same(rt, ignored.len(), names.len(), name, case);
    let mut index = 0;
    for refusal in ignored {
        same(rt, Some(&name_of(refusal)), names.get(index), name, case);
        index = index.wrapping_add(1);
    }
}

/// That the variables have what the words set.
fn has_values(rt: &impl Abort, icv: &Icv) {
    let nthreads = icv.nthreads().as_slice();
    same(rt, nthreads, [4, 2].as_slice(), "nthreads", 0);
    let flags = (icv.dynamic(), icv.cancellation());
    same(rt, flags, (true, true), "dynamic and cancellation", 0);
    let schedule = (icv.sched(), icv.chunk());
    same(rt, schedule, (Sched::Guided, 7), "schedule and chunk", 0);
    let limits = (icv.thread_limit(), icv.max_active_levels(), icv.active());
    same(
        rt,
        limits,
        (8, 5, 0),
        "thread limit, levels, active ones",
        0,
    );
}

/// That the variables of a region inside of a team of four, and of one alone in there, are right.
fn has_inner_values(rt: &impl Abort, icv: &Icv) {
    let inner = child_icv(&icv.copied(), 4);
    let nthreads = inner.nthreads().as_slice();
    same(rt, nthreads, [2].as_slice(), "inner nthreads", 0);
    let innermost = child_icv(&inner, 1);
    let active = (inner.active(), innermost.active());
    same(rt, active, (1, 1), "inner active levels", 4);
    drop(inner);
    drop(innermost);
}

/// Each variable is set by a word of its own, and read by its call.
#[test]
fn each_variable(rt: HostRuntime) {
    let (icv, ignored) = read_env(rt.alloc(), WORDS).expect(&rt, AMPLE);
    has_values(&rt, &icv);
    for (requested, if_clause, busy, size) in TEAM_SIZES {
        let found = team_size(&icv, *requested, *if_clause, *busy);
        same(&rt, found, *size, "busy threads", *busy as u64);
    }
    has_inner_values(&rt, &icv);
    are_ignored(&rt, ignored.as_slice(), IGNORED, "ignored words", 0);
    drop(icv);
    drop(ignored);
}

/// A word: its name and its value.
type Word = (&'static str, &'static str);

/// The sizes of teams, whether their number may be adjusted, and the limit of threads: what a program begins with.
const INITIAL: (&[u32], bool, u32) = (&[4], false, 64);

// A name, a word that is repeated, the words behind it, the variables, and whether the word is ignored.
type ListRow = (
    &'static str,
    Word,
    &'static [Word],
    (&'static [u32], bool, u32),
    bool,
);

/// Of many good words the last counts. Many bad words are all ignored and named, and a good one behind them counts.
/// Words without a name and a value are ignored too.
const LISTS: &[ListRow] = &[
    (
        "good words",
        ("OMP_NUM_THREADS", "3"),
        &[("OMP_NUM_THREADS", "4,2")],
        (&[4, 2], false, 64),
        false,
    ),
    (
        "bad words",
        ("OMP_DYNAMIC", "yes"),
        &[("OMP_DYNAMIC", "true")],
        (&[4], true, 64),
        true,
    ),
    ("unnamed words", ("", ""), &[], INITIAL, true),
];

/// That these words give these variables, and these of them are ignored.
fn reads(
    rt: &impl Abort,
    alloc: Global,
    words: &[(&str, &str)],
    expected: (&[u32], bool, u32),
    names: &[&str],
    name: &str,
    case: u64,
) {
    let (icv, ignored) = read_env(alloc, words).expect(rt, AMPLE);
    let found = (icv.nthreads().as_slice(), icv.dynamic(), icv.thread_limit());
    same(rt, found, expected, name, case);
    are_ignored(rt, ignored.as_slice(), names, name, case);
    drop(icv);
    drop(ignored);
}

/// That the words of a row are read, the first so many times.
fn reads_list(rt: &impl Abort, alloc: Global, row: &ListRow, count: usize) {
    let mut words = vec![in alloc; row.1; count].expect(rt, AMPLE);
    words.extend_from_slice(row.2).expect(rt, AMPLE);
    let ignored = if row.4 { count } else { 0 };
    let names = vec![in alloc; row.1.0; ignored].expect(rt, AMPLE);
    reads(
        rt,
        alloc,
        words.as_slice(),
        row.3,
        names.as_slice(),
        row.0,
        count as u64,
    );
    drop(words);
    drop(names);
}

// A name; a word, by the letter and the end of its name, and those of its value; the variables, and whether it is ignored.
type LongRow = (&'static str, Word, Word, (&'static [u32], bool, u32), bool);

/// A number with many zeros in front, and a value with many blanks, are read whole. A word whose name has many letters,
/// and whose value is as long, is ignored and named, and so is one with a bad value of many letters.
const LONG_WORDS: &[LongRow] = &[
    (
        "zeros",
        ("", "OMP_THREAD_LIMIT"),
        ("0", "3"),
        (&[4], false, 3),
        false,
    ),
    (
        "blanks",
        ("", "OMP_DYNAMIC"),
        (" ", "true"),
        (&[4], true, 64),
        false,
    ),
    ("letters of a name", ("X", "OMP"), ("0", "3"), INITIAL, true),
    ("letters", ("", "OMP_SCHEDULE"), ("x", "y"), INITIAL, true),
];

/// That a word of so many letters is read.
fn reads_long(rt: &impl Abort, alloc: Global, row: &LongRow, count: usize) {
    let name = text_of(alloc, "", row.1.0, count, row.1.1).expect(rt, AMPLE);
    let value = text_of(alloc, "", row.2.0, count, row.2.1).expect(rt, AMPLE);
    let word = [(name.as_str(), value.as_str())];
    let ignored = if row.4 { 1 } else { 0 };
    let names = vec![in alloc; name.as_str(); ignored].expect(rt, AMPLE);
    reads(
        rt,
        alloc,
        &word,
        row.3,
        names.as_slice(),
        row.0,
        count as u64,
    );
    drop(names);
    drop(name);
    drop(value);
}

/// However many words there are, each counts, or is ignored and named; and however long one is, it is read whole.
#[test]
fn words_of_every_size(rt: HostRuntime) {
    for row in LISTS {
        for count in 0..301 {
            reads_list(&rt, rt.alloc(), row, count);
        }
        for count in SIZES {
            reads_list(&rt, rt.alloc(), row, *count);
        }
    }
    for row in LONG_WORDS {
        for count in SIZES {
            reads_long(&rt, rt.alloc(), row, *count);
        }
    }
}

//! What scripts add up to, worked out by hand. A total does not depend on the order of the members' turns.

use crate::checks::AMPLE;
use crate::regions::{ORDERS, ends_so};
use gomp_test_data::{SIZES, text_of};
use std::alloc::{AllocError, Global};
use std::process::Abort;

/// Scripts and their totals.
const SCRIPTS: &[(&str, i128)] = &[
    // 0 to 999, once each
    (
        "region 4\nfor guided 7 0 1000 1 wait\nadd it\nendfor\n",
        499_500,
    ),
    (
        "region 4\nfor static 0 0 1000 1 nowait\nadd it\nendfor\n",
        499_500,
    ),
    (
        "region 4\nfor static 7 0 1000 1 wait\nadd it\nendfor\n",
        499_500,
    ),
    (
        "region 3\nfor dynamic 3 0 1000 1 cancellable\nadd it\nendfor\n",
        499_500,
    ),
    (
        "region 64\nfor guided 0 0 1000 1 wait\nadd it\nendfor\n",
        499_500,
    ),
    (
        "region 4\nfor runtime 0 0 1000 1 wait\nadd it\nendfor\n",
        499_500,
    ),
    // each member once, and nothing
    ("region 64\nadd 3\n", 192),
    ("region 1", 0),
    // 10, 13, .. 37; 5, 3, 1, -1, -3; no iteration; -2^63 and 2^63 - 1
    (
        "region 4\nfor dynamic 2 10 40 3 wait\nadd it\nendfor\n",
        235,
    ),
    ("region 4\nfor static 0 5 -5 -2 wait\nadd it\nendfor\n", 5),
    ("region 4\nfor guided 1 5 5 1 wait\nadd it\nendfor\n", 0),
    (
        "region 2\nfor dynamic 1 -9223372036854775808 -9223372036854775807 1 wait\nadd it\nendfor\nadd 1",
        -9_223_372_036_854_775_806,
    ),
    (
        "region 4\nadd 9223372036854775807\nadd 9223372036854775807\n",
        73_786_976_294_838_206_456,
    ),
    // `it` is 0 outside of a loop: 4 times 5
    ("region 4\nadd it\nadd 5\n", 20),
    // the statements of an iteration, in each of 6: 0 + .. + 5, and 6 times 10 and -3
    (
        "region 4\nfor dynamic 1 0 6 1 wait\nadd it\nadd 10\nadd -3\nendfor\n",
        57,
    ),
    // two loops, one behind the other: 0 + .. + 9, twice
    (
        "region 4\nfor dynamic 1 0 10 1 nowait\nadd it\nendfor\nfor static 0 0 10 1 wait\nadd it\nendfor\n",
        90,
    ),
    // sections, once each
    (
        "region 4\nsections wait\nsection\nadd 1\nendsection\nsection\nadd 10\nendsection\nsection\nadd 100\nendsection\nendsections\n",
        111,
    ),
    (
        "region 2\nsections nowait\nsection\nendsection\nsection\nadd 10\nadd 10\nendsection\nendsections\nadd 1\n",
        22,
    ),
    ("region 2\nsections cancellable\nendsections\nadd 1\n", 2),
    // a single is left as it is entered, so that another may stand in it
    ("region 1\nsingle\nsingle\nadd 1\nendsingle\nendsingle\n", 1),
    // one member executes a single; of a copy every member adds the number, the executor too: 100 + 4 * 7, 4 * -5
    ("region 4\nsingle\nadd 1000\nendsingle\n", 1_000),
    ("region 4\ncopy 7\nadd 100\nendcopy\n", 128),
    ("region 4\ncopy -5\nendcopy\ncopy 1\nadd 2\nendcopy\n", -14),
    // ordered parts: 0 + .. + 9, and in each of 10 a 1 before and behind
    (
        "region 4\nfor dynamic 1 0 10 1 wait ordered\nadd 1\nordered\nadd it\nendordered\nadd 1\nendfor\n",
        65,
    ),
    (
        "region 3\nfor static 2 9 -1 -1 wait ordered\nordered\nadd it\nendordered\nendfor\n",
        45,
    ),
    // critical regions are of every member: 4 * (1 + 10 + 100)
    (
        "region 4\ncritical\nadd 1\nendcritical\ncritical a\nadd 10\ncritical b\nadd 100\nendcritical\nendcritical\n",
        444,
    ),
    // one member alone; none has this number
    (
        "region 4\nonly 2\nadd 5\nendonly\nonly 0\nadd 1\nendonly\nonly 4\nadd 7\nendonly\nonly 65535\nadd 7\nendonly\n",
        6,
    ),
    // tasks are of every member: 4 * 3, in a group, before a taskwait, and at the region's end
    ("region 4\ngroup\ntask\nadd 3\nendtask\nendgroup\n", 12),
    ("region 4\ntask\nadd 3\nendtask\ntaskwait\nadd 1\n", 16),
    ("region 4\ntask\nadd 3\nendtask\n", 12),
    (
        "region 4\ntask if0\nadd 3\nendtask\ntask final\nadd 4\nendtask\ntask if0 final\nadd 5\nendtask\n",
        48,
    ),
    // a task has the value of the iteration that creates it, in a task of a task too: 1 + 2 + 3, twice; outside 0
    (
        "region 2\nfor dynamic 1 1 4 1 wait\ntask\nadd it\ntask\nadd it\nendtask\nendtask\nendfor\n",
        12,
    ),
    ("region 2\ntask\nadd it\nadd 1\nendtask\n", 2),
    // in each iteration a task, and the value again behind it: twice 1 + 2 + 3; three times 10, and 1 + 2 + 3; -3 + -2 + -1
    (
        "region 1\nfor static 0 1 4 1 wait\ntask if0\nadd it\nendtask\nadd it\nendfor\n",
        12,
    ),
    (
        "region 1\nfor static 0 1 4 1 wait\ngroup\ntask\nadd 10\nendtask\nendgroup\nadd it\nendfor\n",
        36,
    ),
    (
        "region 1\nfor static 0 -3 0 1 wait\ntask\nadd it\nendtask\nendfor\n",
        -6,
    ),
    // a task's task, before the barrier behind: 4 * (1 + 10)
    (
        "region 4\ntask\nadd 1\ntask\nadd 10\nendtask\ntaskwait\nendtask\nbarrier\n",
        44,
    ),
    // tasks that depend on one another: 1 + 2 + 4 + 8 + 16 + 32
    (
        "region 4\nsingle\ntask out 1\nadd 1\nendtask\ntask inout 1 in 2\nadd 2\nendtask\ntask in 1\nadd 4\nendtask\ntask inoutset 1\nadd 8\nendtask\ntask inoutset 1\nadd 16\nendtask\ntask mutexinoutset 1\nadd 32\nendtask\nendsingle\n",
        63,
    ),
    (
        "region 4\nonly 1\ntask out 1\nadd 1\nendtask\ntask if0 in 1\nadd 2\nendtask\nendonly\n",
        3,
    ),
    // nested regions, of each member: 2 * 3 * 1, 2 * 3 * 4, of one member alone, of the 5 iterations of a loop 2 each
    ("region 2\nparallel 3\nadd 1\nendparallel\n", 6),
    (
        "region 2\nparallel 3\nparallel 4\nadd 1\nendparallel\nendparallel\n",
        24,
    ),
    (
        "region 4\nonly 3\nparallel 64\nadd 1\nendparallel\nendonly\nadd 1\n",
        68,
    ),
    (
        "region 4\nfor dynamic 1 0 5 1 wait\nparallel 2\nadd it\nadd 1\nendparallel\nendfor\n",
        10,
    ),
    (
        "region 2\nparallel 2\nfor static 0 0 10 1 wait\nadd it\nendfor\nbarrier\nsingle\nadd 1\nendsingle\nendparallel\nadd 100\n",
        292,
    ),
    // nothing is cancelled unless the control variable allows it, whose initial value is false
    (
        "region 4\ncancel parallel\npoint parallel\nadd 1\nbarrier\nadd 1\n",
        8,
    ),
    (
        "region 4\nfor dynamic 1 0 10 1 cancellable\ncancel loop\npoint loop\nadd it\nendfor\n",
        45,
    ),
    (
        "region 4\nsections cancellable\nsection\ncancel sections\npoint sections\nadd 1\nendsection\nendsections\n",
        1,
    ),
    (
        "region 4\ngroup\ntask\ncancel taskgroup\npoint taskgroup\nadd 1\nendtask\nendgroup\n",
        4,
    ),
];

/// Constructs that start a ninth share, with the totals behind eight loops of two members that add one each.
const NINTH: &[(&str, i128)] = &[
    ("for static 0 0 2 1 nowait\nadd 1\nendfor\n", 18),
    (
        "sections nowait\nsection\nadd 1\nendsection\nendsections\n",
        17,
    ),
    ("single\nadd 1\nendsingle\n", 17),
    ("copy 1\nendcopy\n", 18),
];

/// A text of these two parts.
fn text_of_two(
    rt: &impl Abort,
    alloc: Global,
    front: Result<String, AllocError>,
    end: Result<String, AllocError>,
) -> String {
    let mut text = front.expect(rt, AMPLE);
    let end = end.expect(rt, AMPLE);
    text.push_str(end.as_str()).expect(rt, AMPLE);
    drop(end);
    text
}

/// That a member's ninth share waits for room, while another member, which comes late, is in none yet.
fn waits_for_room(rt: &impl Abort, alloc: Global, ninth: &str, total: i128) {
    let late = text_of(
        alloc,
        "region 2\nonly 1\n",
        "critical\nendcritical\n",
        64,
        "endonly\n",
    );
    let share = "for static 0 0 2 1 nowait\nadd 1\nendfor\n";
    let text = text_of_two(rt, alloc, late, text_of(alloc, "", share, 8, ninth));
    ends_so(rt, alloc, text.as_str(), &[], (total, ""), ORDERS);
    drop(text);
}

/// That blocks of this line, 32 inside each other, are left as they are entered, and add one.
fn adds_in_blocks(rt: &impl Abort, alloc: Global, begin: &str, end: &str) {
    let begins = text_of(alloc, "region 1\n", begin, 32, "add 1\n");
    let text = text_of_two(rt, alloc, begins, text_of(alloc, "", end, 32, "add 10\n"));
    ends_so(rt, alloc, text.as_str(), &[], (11, ""), 1);
    drop(text);
}

/// The blocks that may stand in one another in a region.
const BLOCKS: &[(&str, &str)] = &[
    ("task\n", "endtask\n"),
    ("task if0\n", "endtask\n"),
    ("group\n", "endgroup\n"),
    ("only 0\n", "endonly\n"),
    ("parallel 1\n", "endparallel\n"),
];

/// Each script has its total, whoever takes the next turn.
#[test]
fn totals_of_scripts(rt: HostRuntime) {
    for (text, total) in SCRIPTS {
        ends_so(&rt, rt.alloc(), *text, &[], (*total, ""), ORDERS);
    }
    // by nthreads-var: 4 members, or as many as its word says; a runtime loop as its word says
    ends_so(&rt, rt.alloc(), "region\nadd 1\n", &[], (4, ""), ORDERS);
    let words = &[("OMP_NUM_THREADS", "3,2"), ("OMP_SCHEDULE", "static,2")];
    let text = "region\nfor runtime 0 0 10 1 wait\nadd it\nendfor\nadd 1\n";
    ends_so(&rt, rt.alloc(), text, words, (48, ""), ORDERS);
    for (begin, end) in BLOCKS {
        adds_in_blocks(&rt, rt.alloc(), *begin, *end);
    }
    for (ninth, total) in NINTH {
        waits_for_room(&rt, rt.alloc(), *ninth, *total);
    }
}

/// That a script of so many lines, of two members, adds up to twice as much.
fn adds_lines(rt: &impl Abort, alloc: Global, count: usize) {
    let text = text_of(alloc, "region 2\n", "add 1\n", count, "").expect(rt, AMPLE);
    ends_so(rt, alloc, text.as_str(), &[], (count as i128 * 2, ""), 1);
    drop(text);
}

/// That a loop of a team of this size adds its iterations up, and each member one more.
fn adds_members(rt: &impl Abort, alloc: Global, size: u32) {
    let text = format!(in alloc;
        "region {size}\nfor dynamic 1 0 100 1 wait\nadd it\nendfor\nbarrier\nadd 1\n"
    ).expect(rt, AMPLE);
    let total = 4_950 + i128::from(size);
    ends_so(rt, alloc, text.as_str(), &[], (total, ""), 2);
    drop(text);
}

/// A script of every size, and a team of every size, has its total.
#[test]
fn totals_of_every_size(rt: HostRuntime) {
    for count in SIZES {
        adds_lines(&rt, rt.alloc(), *count);
    }
    for size in 1..=64u32 {
        adds_members(&rt, rt.alloc(), size);
    }
}

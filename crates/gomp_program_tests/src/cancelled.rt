//! Scripts that cancel: what is cancelled is left, and adds nothing.

use crate::regions::{ORDERS, ends_so};

/// Scripts that cancel, with their totals if cancellation is allowed.
const SCRIPTS: &[(&str, i128)] = &[
    // the region, by one behind a barrier and before another one: all have added 10, and nobody passes the second
    (
        "region 4\nadd 10\nbarrier\nonly 0\ncancel parallel\nendonly\nbarrier\nadd 1\n",
        40,
    ),
    // by each member, which comes no further
    ("region 4\ncancel parallel\nadd 1\n", 0),
    // from inside of a loop that is not cancellable, and of a critical region, whose name is given back
    (
        "region 4\nadd 1\nfor static 0 0 4 1 wait\ncritical a\ncancel parallel\nadd it\nendcritical\nendfor\nadd 10\n",
        4,
    ),
    // a cancelled region's members create no task, and those that nobody has started add nothing
    (
        "region 1\ntask\nadd 1\nendtask\ncancel parallel\nadd 10\n",
        0,
    ),
    // a nested region alone: its two members add nothing, and the two around it go on
    (
        "region 2\nparallel 2\ncancel parallel\nadd 1\nendparallel\nadd 100\n",
        200,
    ),
    // a loop, at each member's first iteration; it goes on behind the loop
    (
        "region 4\nfor dynamic 1 0 100 1 cancellable\ncancel loop\nadd it\nendfor\nadd 1\n",
        4,
    ),
    // one member: the iteration of 5 is done, and none behind it
    (
        "region 1\nfor static 0 5 100 1 cancellable\nadd it\ncancel loop\nadd 1000\nendfor\nadd 1\n",
        6,
    ),
    (
        "region 1\nfor static 0 5 100 1 cancellable\nadd it\ncritical a\ncritical b\ncancel loop\nendcritical\nendcritical\nendfor\ncritical a\nadd 1\nendcritical\n",
        6,
    ),
    // the second loop is not cancelled with the first: 0 + .. + 9
    (
        "region 4\nfor dynamic 1 0 100 1 cancellable\ncancel loop\nadd it\nendfor\nfor dynamic 1 0 10 1 cancellable\nadd it\nendfor\n",
        45,
    ),
    // sections, in each of them
    (
        "region 4\nsections cancellable\nsection\ncancel sections\nadd 1\nendsection\nsection\ncancel sections\nadd 10\nendsection\nendsections\nadd 100\n",
        400,
    ),
    // a taskgroup, by a task of it: the task that cancels leaves, and the one created behind it is none
    (
        "region 4\ngroup\ntask if0\nadd 1\ncancel taskgroup\nadd 10\nendtask\ntask\nadd 100\nendtask\nendgroup\nadd 1000\n",
        4_004,
    ),
    // a task sees at a point that its group is cancelled
    (
        "region 4\ngroup\ntask if0\nadd 1\ntask if0\ncancel taskgroup\nendtask\npoint taskgroup\nadd 10\nendtask\nendgroup\n",
        4,
    ),
    // the group around is not cancelled
    (
        "region 4\ngroup\ngroup\ntask if0\ncancel taskgroup\nendtask\nendgroup\ntask\nadd 1\nendtask\nendgroup\n",
        4,
    ),
    // groups that were opened inside of a share that is left are ended behind it, with their tasks
    (
        "region 1\nfor dynamic 1 0 4 1 cancellable\ngroup\ngroup\ncancel loop\nadd 1\nendgroup\nendgroup\nendfor\nadd 10\n",
        10,
    ),
    (
        "region 1\nfor dynamic 1 0 4 1 cancellable\ngroup\ngroup\ntask\nadd 100\nendtask\ncancel loop\nadd 1\nendgroup\nendgroup\nendfor\nadd 10\n",
        110,
    ),
    (
        "region 1\nsections cancellable\nsection\ngroup\ncancel sections\nendgroup\nendsection\nendsections\nadd 10\n",
        10,
    ),
    // a task of a final task is executed at once, so the one around sees at its point what that has cancelled
    (
        "region 1\ngroup\ntask final\ntask\ncancel taskgroup\nendtask\npoint taskgroup\nadd 10\nendtask\nendgroup\n",
        0,
    ),
    // others wait at the end of a single, for the words of a copy, at the end of a loop, for a turn, and for the next
    // piece of a loop with ordered parts: all leave the region
    (
        "region 4\nsingle\ncancel parallel\nadd 1\nendsingle\nadd 10\n",
        0,
    ),
    ("region 4\ncopy 1\ncancel parallel\nendcopy\nadd 10\n", 0),
    (
        "region 2\nfor static 1 0 1 1 wait\ncancel parallel\nendfor\nadd 10\n",
        0,
    ),
    (
        "region 2\nfor static 1 0 2 1 wait ordered\nonly 0\ncancel parallel\nendonly\nordered\nadd 1\nendordered\nendfor\nadd 10\n",
        0,
    ),
    (
        "region 2\nfor static 1 0 2 1 wait ordered\nonly 0\ncancel parallel\nendonly\nendfor\nadd 10\n",
        0,
    ),
    // points without a cancellation: nothing is left
    (
        "region 4\npoint parallel\nfor dynamic 1 0 10 1 cancellable\npoint loop\nadd it\nendfor\nsections cancellable\nsection\npoint sections\nadd 1\nendsection\nendsections\ngroup\ntask\npoint taskgroup\nadd 1\nendtask\nendgroup\n",
        50,
    ),
];

#[test]
fn cancelled_scripts(rt: HostRuntime) {
    for (text, total) in SCRIPTS {
        let words = &[("OMP_CANCELLATION", "true")];
        ends_so(&rt, rt.alloc(), *text, words, (*total, ""), ORDERS);
    }
}

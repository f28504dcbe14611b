//! Scripts that are refused: they stop, and add nothing behind.

use crate::checks::AMPLE;
use crate::regions::{ORDERS, ends_so};
use gomp_test_data::text_of;

/// Scripts, each with its first refusal.
const SCRIPTS: &[(&str, &str)] = &[
    (
        "region 4\ntask\nfor static 0 0 10 1 wait\nadd 1\nendfor\nendtask\n",
        "E6 InsideTask",
    ),
    ("region 4\ncancel taskgroup\nadd 1\n", "E7 NotInTask"),
    (
        "region 1\nfor dynamic 1 0 4 1 wait\nbarrier\nadd 1\nendfor\n",
        "E8 InsideShare",
    ),
    (
        "region 1\ncopy 1\nsingle\nadd 1\nendsingle\nendcopy\n",
        "E8 InsideShare",
    ),
    (
        "region 1\ncopy 1\nbarrier\nadd 1\nendcopy\n",
        "E8 InsideShare",
    ),
    ("region 4\npoint loop\nadd 1\n", "E9 OutsideShare"),
    ("region 4\nordered\nadd 1\nendordered\n", "E9 OutsideShare"),
    (
        "region 4\ncritical\nbarrier\nadd 1\nendcritical\n",
        "E11 HoldsCritical",
    ),
    (
        "region 4\nfor static 0 0 10 0 wait\nadd 1\nendfor\n",
        "E12 ZeroStep",
    ),
    (
        "region 4\nfor static -1 0 10 1 wait\nadd 1\nendfor\n",
        "E13 BadChunk",
    ),
    (
        "region 4\nfor runtime 1 0 10 1 wait\nadd 1\nendfor\n",
        "E13 BadChunk",
    ),
    (
        "region 4\nfor static 0 0 549755813889 1 wait\nadd 1\nendfor\n",
        "E14 LoopTooLong",
    ),
    (
        "region 4\nfor static 0 0 10 1 cancellable ordered\nadd 1\nendfor\n",
        "E16 OrderedLoop",
    ),
    (
        "region 4\nfor static 0 0 10 1 wait\nordered\nadd 1\nendordered\nendfor\n",
        "E20 NotOrdered",
    ),
    (
        "region 1\nfor static 0 0 10 1 wait ordered\nordered\nendordered\nordered\nadd 1\nendordered\nendfor\n",
        "E21 OrderedBackwards",
    ),
    (
        "region 4\nfor static 0 0 10 1 wait\ncancel loop\nadd 1\nendfor\n",
        "E23 NotCancellable",
    ),
    (
        "region 4\nsections nowait\nsection\npoint sections\nadd 1\nendsection\nendsections\n",
        "E23 NotCancellable",
    ),
    (
        "region 4\ntask\ncancel taskgroup\nadd 1\nendtask\n",
        "E24 NoGroup",
    ),
    (
        "region 1\ntask if0 in 0 in 1 in 2 in 3 in 4 in 5 in 6 in 7 in 8 in 9 in 10 in 11 in 12 in 13 in 14 in 15 in 16\nadd 1\nendtask\n",
        "E28 TooManyDepends",
    ),
    (
        "region 4\ncritical aaaaaaaaaaaaaaaaaaaaaaaaaaaaaaaaa\nadd 1\nendcritical\n",
        "E29 NameTooLong",
    ),
    (
        "region 4\ncritical a\ncritical a\nadd 1\nendcritical\nendcritical\n",
        "E30 AlreadyHeld",
    ),
    (
        "region 2\nonly 0\nbarrier\nadd 1\nendonly\n",
        "E35 Mismatch",
    ),
    (
        "region 2\nonly 1\nfor static 0 0 10 1 wait\nendfor\nendonly\nonly 0\nsingle\nendsingle\nendonly\n",
        "E35 Mismatch",
    ),
    (
        "region 2\nparallel 65\nadd 1\nendparallel\nadd 1\n",
        "E38 BadTeam",
    ),
    (
        "region 2\nparallel 4294967295\nadd 1\nendparallel\nadd 1\n",
        "E38 BadTeam",
    ),
];

#[test]
fn refused_scripts(rt: HostRuntime) {
    for (text, refusal) in SCRIPTS {
        ends_so(&rt, rt.alloc(), *text, &[], (0, *refusal), ORDERS);
    }
    // one section too many
    let front = "region 1\nsections wait\n";
    let section = "section\nendsection\n";
    let text = text_of(rt.alloc(), front, section, 65_537, "endsections\nadd 1\n").expect(
        &rt, AMPLE,
    );
    let ending = (0, "E15 BadSections");
    ends_so(&rt, rt.alloc(), text.as_str(), &[], ending, 1);
    drop(text);
}

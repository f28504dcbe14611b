//! Comparisons of the tests. A comparison is a function of its own, which is proved once: an assertion costs the proof
//! of the function that it stands in. Each crate of tests has its own, since no library may end the process.

use gomp_ompt::Counts;
use gomp_runtime::Report;
use gomp_test_programs::planned::Planned;
use gomp_test_programs::regions::RegionResult;
use gomp_types::Reply;
use std::alloc::Global;
use std::fmt::Debug;
use std::process::Abort;

/// What a test expects of each call that may want memory.
pub(crate) const AMPLE: &str = "memory for nested regions";

/// That these are equal; `case` is the number of the case, or the size that is tried.
pub(crate) fn same<T: PartialEq + Debug>(
    rt: &impl Abort,
    found: &T,
    expected: &T,
    name: &str,
    case: u64,
) {
    assert_eq!(rt; found, expected, "{name} {case}");
}

/// That a program was answered this, and nothing else; it kept its replies as they print. A case is the number of a reply.
pub(crate) fn same_replies(
    rt: &impl Abort,
    alloc: Global,
    heard: &[String],
    expected: &[Reply],
    name: &str,
) {
    for (number, (found, reply)) in heard.iter().zip(expected).enumerate() {
        let text = format!(in alloc; "{reply:?}").expect(rt, AMPLE);
        same(rt, found, &text, name, number as u64);
    }
    same(rt, &heard.len(), &expected.len(), name, 0);
}

/// The report of a region.
pub(crate) fn report_of(rt: &impl Abort, outcome: RegionResult) -> Report<Planned, Counts> {
    outcome.ok().expect(rt, "a report")
}

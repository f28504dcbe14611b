//! Comparisons of the tests. A comparison is a function of its own, which is proved once: an assertion costs the proof
//! of the function that it stands in. Each crate of tests has its own, since no library may end the process.

use std::fmt::Debug;
use std::process::Abort;

/// What a test expects of each call that may want memory.
pub(crate) const AMPLE: &str = "memory for a region";

/// That these are equal; `case` is the number of the case, or the size that is tried.
pub(crate) fn same<T: PartialEq + Debug>(
    rt: &impl Abort,
    found: &T,
    expected: &T,
    name: &str,
    case: u64,
) {
    assert_eq!(rt; found, expected, "{name} {case}");
}

//! The names of `critical` constructs.
//!
//! OpenMP API 5.2, section 15.2 (the `critical` construct).

ghost use Rattle.std.specs.Prelude.{◌≡◌, ◌≤◌, length, take, Some, refl, bytes_eq};
ghost use Rattle.std.specs.Ordering.{nat_cmp};
ghost use Rattle.std.specs.Cmp.{partial_equiv_from_equiv};
ghost use Rattle.std.specs.Cmp.Lexicographic.{slice_cmp, nat_list_eq_equiv, nat_list_cmp_total, texts_ties, texts_po};
ghost use Rattle.gomp_types.specs.declared.critical_name.TheConstants.{KEPT_BYTES};

use arrayvec::ArrayVec;
use std::cmp::Ordering;
use std::marker::Model;

/// The most bytes of a critical name, which are ASCII; the empty name is the unnamed critical (own).
pub const MAX_NAME: usize = 32;

/// How many bytes of a name are kept: one more than a name may have, so that a longer one is too long
/// as it is kept.
pub const KEPT_BYTES: usize = 33;

/// A critical name: the first 33 bytes of what its caller wrote. It takes no memory. Names are
/// ordered byte by byte.
#[derive(Debug, Drop)]
pub struct CriticalName {
    bytes: ArrayVec<u8, KEPT_BYTES>,
}

impl Model for CriticalName {
    ghost use Rattle.std.specs.Prelude.{ℕ, List, length, ◌≤◌};
    ghost use Rattle.gomp_types.specs.declared.critical_name.TheConstants.{KEPT_BYTES};

    ghost Value = { List ℕ };

    ghost view = { λ name. name.bytes.items };

    ghost invariant = { λ name. length name.bytes.items ≤ KEPT_BYTES };
}

impl CriticalName {
    /// The name that is written so.
    pub fn new(text: &[u8]) -> CriticalName
        ensures { result ≡ take KEPT_BYTES text.now }
    {
        let mut bytes = ArrayVec::new();
        let _ = bytes.try_extend_from_slice(kept_bytes(text));
        CriticalName { bytes }
    }

    /// The bytes that are kept of it.
    pub fn as_slice(&self) -> &[u8]
        ensures bytes { result.now ≡ self.now }
        ensures few { length result.now ≤ KEPT_BYTES }
    {
        self.bytes.as_slice()
    }

    /// The same name again.
    pub fn copied(&self) -> CriticalName
        ensures { result ≡ self.now }
    {
        let mut bytes = ArrayVec::new();
        let _ = bytes.try_extend_from_slice(self.as_slice());
        CriticalName { bytes }
    }
}

impl PartialEq for CriticalName {
    ghost eq = { bytes_eq };

    ghost laws = { partial_equiv_from_equiv nat_list_eq_equiv };

    fn eq(&self, other: &CriticalName) -> bool {
        self.as_slice() == other.as_slice()
    }
}

impl Eq for CriticalName {
    ghost laws = { nat_list_eq_equiv };
}

impl PartialOrd for CriticalName {
    ghost partial_cmp = { λ one other. Some (slice_cmp nat_cmp one other) };

    ghost laws = { texts_po };

    fn partial_cmp(&self, other: &CriticalName) -> Option<Ordering> {
        Some(self.cmp(other))
    }
}

impl Ord for CriticalName {
    ghost cmp = { slice_cmp nat_cmp };

    ghost total = { nat_list_cmp_total };

    ghost matches_partial_cmp = { λ one other. refl };

    ghost matches_eq = { texts_ties };

    fn cmp(&self, other: &CriticalName) -> Ordering {
        self.as_slice().cmp(other.as_slice())
    }
}

/// The bytes that are kept of a text.
fn kept_bytes(text: &[u8]) -> &[u8]
    ensures bytes { result.now ≡ take KEPT_BYTES text.now }
    ensures few { length result.now ≤ KEPT_BYTES }
{
    if text.len() <= KEPT_BYTES {
        return text;
    }
    &text[..KEPT_BYTES]
}

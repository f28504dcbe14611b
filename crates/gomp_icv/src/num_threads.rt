//! The list of team sizes, one for each level of nesting.
//!
//! OpenMP API 5.2, sections 2.4 (nthreads-var) and 21.1.2 (`OMP_NUM_THREADS`).

ghost use Rattle.std.specs.Prelude.{◌≡◌, ◌≤◌, ◌==◌, ◌∷◌, [], bytes_eq};
ghost use Rattle.std.specs.Cmp.{partial_equiv_from_equiv};
ghost use Rattle.std.specs.Cmp.Lexicographic.{nat_list_eq_equiv};
ghost use Rattle.gomp_icv.specs.Variables.{IsNumThreads, outermost_size, without_first};
ghost use Rattle.gomp_icv.specs.EnvValues.{threads_of};

use crate::values::{MAX_NUMBER, number_of};
use arrayvec::ArrayVec;
use gomp_text::cut_at;
use std::marker::Model;

/// How many sizes are kept; what a list has beyond them is dropped (own).
const MAX_SIZES: usize = 4;

/// One to four sizes of teams, each from 1 to 2,147,483,647: the first for the next team, the second
/// for a team in that one.
#[derive(Debug, Drop)]
pub struct NumThreads {
    sizes: ArrayVec<u32, MAX_SIZES>,
}

impl Model for NumThreads {
    ghost use Rattle.std.specs.Prelude.{ℕ, List};
    ghost use Rattle.gomp_icv.specs.Variables.{IsNumThreads};

    ghost Value = { List ℕ };

    ghost view = { λ numbers. numbers.sizes.items };

    ghost invariant = { λ numbers. IsNumThreads numbers.sizes.items };
}

impl NumThreads {
    /// What a program begins with: 4 (own).
    pub fn initial() -> NumThreads
        ensures { result ≡ 4 ∷ [] }
    {
        NumThreads::of(&[4])
    }

    /// The list of these sizes.
    fn of(sizes: &[u32]) -> NumThreads
        requires { IsNumThreads sizes.now }
        ensures { result ≡ sizes.now }
    {
        let mut kept = ArrayVec::new();
        let _ = kept.try_extend_from_slice(sizes);
        NumThreads { sizes: kept }
    }

    /// The sizes, the one for the next team first.
    pub fn as_slice(&self) -> &[u32]
        ensures sizes { result.now ≡ self.now }
        ensures range { IsNumThreads result.now }
    {
        self.sizes.as_slice()
    }

    /// The size for the next team.
    pub fn first(&self) -> u32
        ensures size { result ≡ outermost_size self.now }
        ensures range { 1 ≤ result }
    {
        self.as_slice()[0]
    }

    /// The same list again. It takes no memory.
    pub fn copied(&self) -> NumThreads
        ensures { result ≡ self.now }
    {
        NumThreads::of(self.as_slice())
    }

    /// The list for the members of the next team: without its first size, if it has more than one
    /// (OpenMP API 5.2, section 2.4).
    pub fn without_first(&self) -> NumThreads
        ensures { result ≡ without_first self.now }
    {
        match self.as_slice() {
            [_, rest @ ..] if !rest.is_empty() => NumThreads::of(rest),
            sizes => NumThreads::of(sizes),
        }
    }

    /// The list that a value of the environment gives: positive numbers, parted by commas, each with
    /// blanks around it or none. Those after the fourth are read and dropped. None if a part is
    /// no such number.
    pub fn read(value: &[u8]) -> Option<NumThreads>
        ensures { result ≡ threads_of value.now }
    {
        let mut sizes: ArrayVec<u32, MAX_SIZES> = ArrayVec::new();
        let mut rest = Some(value);
        while let Some(parts) = rest {
            let (part, after) = cut_at(parts, b',');
            let number = number_of(part, 1, MAX_NUMBER)? as u32;
            if !sizes.is_full() {
                sizes.push(number);
            }
            rest = after;
        }
        Some(NumThreads { sizes })
    }
}

impl PartialEq for NumThreads {
    ghost eq = { bytes_eq };

    ghost laws = { partial_equiv_from_equiv nat_list_eq_equiv };

    fn eq(&self, other: &NumThreads) -> bool {
        self.as_slice() == other.as_slice()
    }
}

impl Eq for NumThreads {
    ghost laws = { nat_list_eq_equiv };
}

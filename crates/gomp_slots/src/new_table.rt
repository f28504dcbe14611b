//! The slots of a new team.

ghost use Rattle.std.specs.Prelude.{◌≡◌, [], IfOk};
ghost use Rattle.gomp_types.specs.Limits.{IsTeamSize};
ghost use Rattle.gomp_slots.specs.Rule.{first_view};
ghost use Rattle.gomp_slots.specs.Premises.{IsSeatOf, slots_members};

use crate::slots::Slots;
use crate::view::{TeamSize, View};
use atomic_table::{Seat, Table};
use gomp_types::Shape;
use std::alloc::{AllocError, Global};

/// So many words the table has: the number of members, and eight slots of six words.
const WORDS: usize = 49;

/// The slots of a new team of 1 to 64 members, which are empty. The seat acts for all members.
pub fn new_table(alloc: Global, members: u16) -> Result<(Slots, Seat<Shape, View>), AllocError>
    requires team { IsTeamSize members }
    ensures slots { IfOk result (λ made. slots_members made.0 ≡ members) }
    ensures seat { IfOk result (λ made. IsSeatOf made.0 made.1 ×
        (made.1.me ≡ (first_view (record { members = members }), []))) }
{
    let size = TeamSize {
        members: members as u64,
    };
    let mut words = [0u64; WORDS];
    words[0] = members as u64;
    let (table, seat) = Table::of_words(alloc, &words, &size)?;
    Ok((Slots { table }, seat))
}

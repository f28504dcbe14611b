//! The slots of a team's ring: their words, the rule that these keep, and what a step on them is about.
//!
//! Word 0 is the number of members. Behind it lie the eight slots, six words each: the gate, the four words that tell the shape
//! of the share, and its turn. `gomp_gate` has their meaning.

ghost use Rattle.std.specs.Prelude.{◌≡◌, ◌<◌, ◌+◌, ℕ};
ghost use Rattle.gomp_slots.specs.Rule.{IsKept, first_view};
ghost use Rattle.gomp_slots.specs.Words.{gate_at};

use crate::view::{TeamSize, View};
use atomic_table::{Table, TableRule};
use gomp_types::{OPEN_SHARES, Shape};
use std::alloc::Global;
use std::marker::Brand;

/// So many words a slot has.
const SLOT_WORDS: usize = 6;

/// The rule between any two steps: the words are those that the team's events leave, these kept the rule of the work-shares, and
/// each seat knows the events of its members (`IsKept` of `specs/Rule.antt`).
pub struct SlotsRule;

impl TableRule<Shape, View, TeamSize> for SlotsRule {
    ghost holds = { IsKept };

    ghost first = { first_view };
}

/// What a step is about. A caller takes `Brand` for it, and picks the numbers from the arguments of its call.
pub trait Chosen {
    /// How many members the team has.
    ghost members: { ℕ };

    /// The member that acts.
    ghost member: { ℕ };

    /// The share on whose slot the step is made.
    ghost share: { ℕ };

    /// The number of the member's piece, of a step on the turn.
    ghost piece: { ℕ };

    /// The iteration whose part begins.
    ghost iteration: { ℕ };
}

impl Chosen for Brand {
    ghost members = { 0 };

    ghost member = { 0 };

    ghost share = { 0 };

    ghost piece = { 0 };

    ghost iteration = { 0 };
}

/// The words of a team's slots, on which the seats of its members make their steps.
#[derive(Drop)]
pub struct Slots {
    pub(crate) table: Table<Shape, View, TeamSize, SlotsRule, Global>,
    ghost words: { table.shared.table_id.words ≡ 49 },
    ghost some_member: { 0 < table.shared.key.members },
}

/// The place of the gate of the share of this number; the four words that tell its shape lie behind it, and its turn behind these.
pub fn gate_index(share: u64) -> usize
    ensures word { result ≡ gate_at share }
    ensures within { result + 5 < 49 }
{
    1 + SLOT_WORDS * (share % OPEN_SHARES) as usize
}

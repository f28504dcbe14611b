//! How far each member has looked through the list in vain.

ghost use Rattle.std.specs.Prelude.{◌≡◌, ◌≢◌, ◌≤◌, ◌<◌, ◌-◌, ◌^◌, ℕ, Some, None, IfOk, false, length, slice_index_or, slice_set, ◌⊎◌, map, replicate};
ghost use Rattle.gomp_types.specs.declared.limits.TheConstants.{MAX_TASK_DEPTH};
ghost use Rattle.gomp_ready.specs.Marks.{lowered, mark_at, without};

use gomp_types::MAX_TASK_DEPTH;
use std::alloc::{AllocError, Global};
use std::marker::Model;

/// A member has so many levels: its implicit task, and the tasks that it has started and not ended.
const LEVELS: usize = MAX_TASK_DEPTH as usize + 1;

/// So many tasks at most, 2^62, are counted that have gone out of the list.
const MOST_GONE: usize = 1 << 62;

/// A number for each level of one member.
#[derive(Drop)]
struct MemberMarks {
    levels: [usize; LEVELS],
}

impl Model for MemberMarks {
    ghost use Rattle.std.specs.Prelude.{List, ℕ, ◌≡◌, length};

    ghost Value = { List ℕ };

    ghost view = { λ marks. marks.levels };

    ghost invariant = { λ marks. length marks.levels ≡ 65 };
}

impl MemberMarks {
    /// 0 at each.
    fn zero() -> MemberMarks
        ensures { result ≡ replicate 65 0 }
    {
        MemberMarks {
            levels: [0; LEVELS],
        }
    }

    /// The number at this level; 0 past the last one.
    fn at(&self, level: u8) -> usize
        ensures { result ≡ slice_index_or self.now level 0 }
    {
        self.levels.get(level as usize).copied().unwrap_or(0)
    }

    /// Writes the number at this level, if there is such a one.
    fn set(&mut self, level: u8, number: usize)
        ensures value { self.new ≡ slice_set self.old level number }
        ensures there { level ≤ MAX_TASK_DEPTH → level < length self.old }
        ensures past { MAX_TASK_DEPTH < level → length self.old ≤ level }
    {
        if level <= MAX_TASK_DEPTH {
            self.levels[level as usize] = number;
        }
    }

    /// Lowers each number by so many.
    fn lower(&mut self, gone: usize)
        ensures { self.new ≡ map (λ mark. mark - gone) self.old }
    {
        for level in 0..LEVELS {
            self.levels[level] = self.levels[level].saturating_sub(gone);
        }
    }
}

/// A mark for each member and each of its levels: so many tasks at the front of the list it has looked
/// at there in vain. Only `new` takes memory.
#[derive(Drop)]
pub(crate) struct Marks {
    /// Each mark, and besides how many tasks had gone out of the list when it was set.
    members: Vec<MemberMarks>,
    /// How many have gone out of it.
    gone: usize,
}

impl Model for Marks {
    ghost use Rattle.std.specs.Prelude.{List, ℕ, ◌≤◌, ◌^◌};
    ghost use Rattle.gomp_ready.specs.Marks.{without};

    ghost Value = { List (List ℕ) };

    ghost view = { λ marks. without marks.gone marks.members.items };

    ghost invariant = { λ marks. marks.gone ≤ 2 ^ 62 };
}

impl Marks {
    /// All marks are 0, for each of `count` members. It fails if their memory is refused.
    pub(crate) fn new(alloc: Global, count: u16) -> Result<Marks, AllocError>
        ensures members { IfOk result (λ marks. length marks ≡ count) }
        ensures zero { IfOk result (λ marks. (m l : ℕ) → mark_at m l marks ≡ 0) }
    {
        let mut members = Vec::with_capacity(alloc, count as usize)?;
        for _ in 0..count {
            members.push_reserved(MemberMarks::zero());
        }
        Ok(Marks { members, gone: 0 })
    }

    /// The mark of a member at a level; 0 past the last one, and if there is no level.
    pub(crate) fn at(&self, member: u16, level: Option<u8>) -> usize
        requires member { member < length self.now }
        ensures value { (l : ℕ) → level ≡ Some l → result ≡ mark_at member l self.now }
        ensures none { level ≡ None → result ≡ 0 }
    {
        match level {
            Some(level) => self.members[member as usize]
                .at(level)
                .saturating_sub(self.gone),
            None => 0,
        }
    }

    /// Sets the mark of a member at a level, if there is such a one: it has passed so many tasks there.
    pub(crate) fn set(&mut self, member: u16, level: u8, passed: usize)
        requires member { member < length self.old }
        requires few { passed < 2 ^ 63 }
        ensures members { length self.new ≡ length self.old }
        ensures mark { level ≤ MAX_TASK_DEPTH → mark_at member level self.new ≡ passed }
        ensures past { MAX_TASK_DEPTH < level →
            (mark_at member level self.old ≡ 0) × (mark_at member level self.new ≡ 0) }
        ensures others { (m l : ℕ) → (m ≢ member) ⊎ (l ≢ level) →
            mark_at m l self.new ≡ mark_at m l self.old }
    {
        self.members[member as usize].set(level, self.gone + passed);
    }

    /// Lowers all marks by one if a task has gone out of the list, and sets the mark of the member at its
    /// level, if there is one, to as many as it has looked at in vain.
    pub(crate) fn note(&mut self, member: u16, level: Option<u8>, listed: bool, passed: usize)
        requires member { member < length self.old }
        requires few { passed < 2 ^ 63 }
        ensures members { length self.new ≡ length self.old }
        ensures mark { (l : ℕ) → level ≡ Some l → l ≤ MAX_TASK_DEPTH →
            mark_at member l self.new ≡ passed }
        ensures each { (m l : ℕ) → (mark_at m l self.new ≡ lowered listed (mark_at m l self.old))
            ⊎ ((m ≡ member) × (level ≡ Some l) × (mark_at m l self.new ≡ passed)) }
        ensures same { listed ≡ false → level ≡ None → self.new ≡ self.old }
    {
        if listed {
            self.lower();
        }
        if let Some(level) = level {
            self.set(member, level, passed);
        }
    }

    /// A task has gone out of the list: each mark is lowered by one.
    fn lower(&mut self)
        ensures members { length self.new ≡ length self.old }
        ensures lower { (m l : ℕ) → mark_at m l self.new ≡ mark_at m l self.old - 1 }
    {
        if self.gone < MOST_GONE {
            self.gone += 1;
            return;
        }
        lower_each(&mut self.members, self.gone);
        self.gone = 1;
    }

    /// All marks are 0.
    pub(crate) fn clear(&mut self)
        ensures members { length self.new ≡ length self.old }
        ensures zero { (m l : ℕ) → mark_at m l self.new ≡ 0 }
    {
        for member in 0..self.members.len() {
            self.members[member] = MemberMarks::zero();
        }
        self.gone = 0;
    }
}

/// Lowers the numbers of all members by so many.
fn lower_each(members: &mut Vec<MemberMarks>, gone: usize)
    ensures { members.new.items ≡ without gone members.old.items }
{
    for member in 0..members.len() {
        members[member].lower(gone);
    }
}

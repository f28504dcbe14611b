//! Critical names: entered by one task at a time, in all teams that share the book.
//!
//! OpenMP API 5.2, section 15.2; libgomp's `GOMP_critical_start`, `GOMP_critical_name_start` and
//! their ends.

ghost use Rattle.std.specs.Prelude.{◌≡◌, [], ◌+◌, ◌<◌, ◌≤◌, length, vec_capacity, slice_index_or, IfSome, IfNone, None, Some, IsSome, true, if◌then◌else◌, OnOk, OnErr, bytes_eq};
ghost use Rattle.std.specs.Map.{lookup};
ghost use Rattle.std.specs.BTreeMap.{insert_entry, IsOrdered};
ghost use Rattle.std.specs.Ordering.{nat_cmp};
ghost use Rattle.std.specs.Cmp.Lexicographic.{slice_cmp};
ghost use Rattle.gomp_types.specs.declared.task.Owner.{Owner};
ghost use Rattle.gomp_types.specs.Owners.{same_owner};
ghost use Rattle.gomp_types.specs.Least.{Answers, least};
ghost use Rattle.gomp_types.specs.declared.reply.Reply.TheVariants.{Finished, Refused};
ghost use Rattle.gomp_types.specs.declared.refusal.Refusal.TheVariants.{NoMemory};
ghost use Rattle.gomp_locks.specs.Book.{AnswersOrLacks, name_at, name_owner, with_name, owned_by};
ghost use Rattle.gomp_locks.specs.Counts.{times_in};
ghost use Rattle.gomp_locks.specs.CriticalNames.{is_too_long, critical_start_tests, EntersCritical, after_critical_start, critical_end_tests, after_critical_end};

use crate::book::LockBook;
use gomp_text::is_ascii;
use gomp_types::{CriticalName, MAX_NAME, Owner, Refusal, Reply};
use std::alloc::AllocError;
use std::collections::BTreeMap;

impl LockBook {
    /// Enters the `critical` construct of this name if nobody holds the name; if another member does,
    /// the answer is to wait. The empty name is that of a `critical` without one.
    ///
    /// Refused with `NameTooLong` (E29) if the name has more than 32 bytes or is not ASCII, with
    /// `AlreadyHeld` (E30) if this member holds it in any of its tasks, and with `NoMemory` (E37) if
    /// memory is refused, which the first start of a name takes.
    pub fn critical_start(&mut self, owner: Owner, name: &CriticalName) -> Reply
        ensures answer { AnswersOrLacks
            (critical_start_tests owner name.now (name_owner name.now self.old))
            (EntersCritical (name_owner name.now self.old)) result }
        ensures memory { result ≡ Refused NoMemory → name_at name.now self.old ≡ None }
        ensures book { self.new ≡ after_critical_start owner name.now result self.old }
    {
        if let Some(refusal) = self.critical_start_refusal(owner, name) {
            return Reply::Refused(refusal);
        }
        self.critical_start_admitted(owner, name)
    }

    /// Leaves the `critical` construct of this name, which this task holds.
    ///
    /// Refused with `NameTooLong` (E29) if the name has more than 32 bytes or is not ASCII, and with
    /// `NotHolder` (E31) if this task does not hold it.
    pub fn critical_end(&mut self, owner: Owner, name: &CriticalName) -> Reply
        ensures answer { Answers (critical_end_tests owner name.now (name_owner name.now self.old))
            (λ reply. reply ≡ Finished) result }
        ensures book { self.new ≡ after_critical_end name.now result self.old }
    {
        if let Some(refusal) = self.critical_end_refusal(owner, name) {
            return Reply::Refused(refusal);
        }
        self.critical_end_admitted(owner, name)
    }

    /// With what [`critical_start`](LockBook::critical_start) is refused, want of memory aside.
    pub fn critical_start_refusal(&self, owner: Owner, name: &CriticalName) -> Option<Refusal>
        ensures { result ≡
            least (critical_start_tests owner name.now (name_owner name.now self.now)) }
    {
        if is_too_long(name) {
            return Some(Refusal::NameTooLong);
        }
        match self.owner_of(name) {
            Some(other) if other.is_same_member(&owner) => Some(Refusal::AlreadyHeld),
            _ => None,
        }
    }

    /// With what [`critical_end`](LockBook::critical_end) is refused.
    pub fn critical_end_refusal(&self, owner: Owner, name: &CriticalName) -> Option<Refusal>
        ensures { result ≡
            least (critical_end_tests owner name.now (name_owner name.now self.now)) }
    {
        if is_too_long(name) {
            return Some(Refusal::NameTooLong);
        }
        match self.owner_of(name) {
            Some(other) if other.is_same(&owner) => None,
            _ => Some(Refusal::NotHolder),
        }
    }

    /// What [`critical_start`](LockBook::critical_start) does once its tests are made: the name is
    /// entered if nobody holds it, else the answer is to wait. It makes no test; the only refusal is
    /// `NoMemory` (E37).
    pub fn critical_start_admitted(&mut self, owner: Owner, name: &CriticalName) -> Reply
        ensures answer { AnswersOrLacks [] (EntersCritical (name_owner name.now self.old)) result }
        ensures memory { result ≡ Refused NoMemory → name_at name.now self.old ≡ None }
        ensures book { self.new ≡ after_critical_start owner name.now result self.old }
    {
        match self.owner_of(name) {
            Some(_) => Reply::Wait,
            None => match self.hold_name(owner, name) {
                Ok(()) => Reply::Finished,
                Err(_) => Reply::Refused(Refusal::NoMemory),
            },
        }
    }

    /// What [`critical_end`](LockBook::critical_end) does once its tests are made: the name, which
    /// this task has to hold, is left.
    pub fn critical_end_admitted(&mut self, owner: Owner, name: &CriticalName) -> Reply
        requires held { owned_by owner (name_owner name.now self.old) ≡ true }
        ensures answer { result ≡ Finished }
        ensures book { self.new ≡ after_critical_end name.now result self.old }
    {
        self.free_name(owner, name);
        Reply::Finished
    }

    /// The owner holds this name, which nobody holds, from now on. On want of memory nothing changes.
    fn hold_name(&mut self, owner: Owner, name: &CriticalName) -> Result<(), AllocError>
        requires free { name_owner name.now self.old ≡ None }
        ensures held { OnOk result (self.new ≡ with_name name.now (Some owner) self.old) }
        ensures kept { OnErr result (self.new ≡ self.old) }
        ensures new { OnErr result (name_at name.now self.old ≡ None) }
    {
        put_name(&mut self.names, &mut self.holders, name, owner)?;
        self.holders.push_reserved(owner);
        Ok(())
    }

    /// Nobody holds this name, which the owner holds, from now on.
    fn free_name(&mut self, owner: Owner, name: &CriticalName)
        requires held { owned_by owner (name_owner name.now self.old) ≡ true }
        ensures { self.new ≡ with_name name.now None self.old }
    {
        leave_name(&mut self.names, name);
        take_out(&mut self.holders, owner);
    }

    /// The owner of this name, if it is held.
    pub fn owner_of(&self, name: &CriticalName) -> Option<Owner>
        ensures { result ≡ name_owner name.now self.now }
    {
        match self.names.get(name) {
            Some(owner) => *owner,
            None => None,
        }
    }
}

/// This owner is that of the name from now on, if the memory of a new name is there; then there is
/// also room for one more holder.
fn put_name(
    names: &mut BTreeMap<CriticalName, Option<Owner>>,
    holders: &mut Vec<Owner>,
    name: &CriticalName,
    owner: Owner,
) -> Result<(), AllocError>
    requires fewer { length holders.old.items ≤ length names.old.entries }
    requires room { length names.old.entries ≤ vec_capacity holders.old }
    ensures put { OnOk result (names.new.entries ≡
        insert_entry (slice_cmp nat_cmp) names.old.entries name.now (Some owner)) }
    ensures kept { OnErr result (names.new.entries ≡ names.old.entries) }
    ensures new { OnErr result (lookup (bytes_eq name.now) names.old.entries ≡ None) }
    ensures holders { holders.new.items ≡ holders.old.items }
    ensures room { length names.new.entries ≤ vec_capacity holders.new }
    ensures ordered { IsOrdered (slice_cmp nat_cmp) names.old }
{
    match names.get_mut(name) {
        Some(place) => *place = Some(owner),
        None => {
            holders.reserve(names.len() + 1 - holders.len())?;
            names.insert(name.copied(), Some(owner))?;
        }
    }
    Ok(())
}

/// The name, which is there, has no owner from now on.
fn leave_name(names: &mut BTreeMap<CriticalName, Option<Owner>>, name: &CriticalName)
    requires known { IsSome (lookup (bytes_eq name.now) names.old.entries) }
    ensures left { names.new.entries ≡
        insert_entry (slice_cmp nat_cmp) names.old.entries name.now None }
    ensures len { length names.new.entries ≡ length names.old.entries }
    ensures ordered { IsOrdered (slice_cmp nat_cmp) names.old }
{
    match names.get_mut(name) {
        Some(place) => *place = None,
        None => unreachable!(),
    }
}

/// The owner, which is in the list, is there once less from now on.
fn take_out(holders: &mut Vec<Owner>, owner: Owner)
    requires there { 0 < times_in owner holders.old.items }
    ensures times { (other : Owner) →
        times_in other holders.new.items + (if same_owner owner other then 1 else 0) ≡
        times_in other holders.old.items }
    ensures len { length holders.new.items + 1 ≡ length holders.old.items }
    ensures room { vec_capacity holders.new ≡ vec_capacity holders.old }
{
    match place_of(holders, owner) {
        Some(place) => {
            holders.swap_remove(place);
        }
        None => unreachable!(),
    }
}

/// The last place of the owner in the list.
pub(crate) fn place_of(holders: &[Owner], owner: Owner) -> Option<usize>
    ensures within { IfSome result (λ place. place < length holders.now) }
    ensures found { IfSome result (λ place. (d : Owner) →
        same_owner (slice_index_or holders.now place d) owner ≡ true) }
    ensures none { IfNone result (times_in owner holders.now ≡ 0) }
{
    holders.iter().rposition(|other| other.is_same(&owner))
}

/// Whether a name has more than 32 bytes, or is not ASCII.
fn is_too_long(name: &CriticalName) -> bool
    ensures { result ≡ is_too_long name.now }
{
    let bytes = name.as_slice();
    !(bytes.len() <= MAX_NAME && is_ascii(bytes))
}

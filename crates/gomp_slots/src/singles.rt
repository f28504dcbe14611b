//! A `single` construct whose executor hands no words to the others, as a member goes through it: one step enters the share,
//! claims its one piece and leaves the share. OpenMP API 5.2, section 11.1.

ghost use Rattle.std.specs.Prelude.{◌≡◌, ◌≤◌, false, true, None, Some};
ghost use Rattle.gomp_events.specs.Seen.{seen_of};
ghost use Rattle.gomp_types.specs.Singles.{single_shape};
ghost use Rattle.gomp_shares.specs.Calls.{CanOpen};
ghost use Rattle.gomp_gate.specs.Gates.{is_free_for};
ghost use Rattle.gomp_slots.specs.Words.{passed_by_all};
ghost use Rattle.gomp_slots.specs.Calls.{GoesThrough, TriesSingle, PassesNext};
ghost use Rattle.gomp_slots.specs.Plays.{PassStep, TakeSingleStep};
ghost use Rattle.gomp_slots.specs.Premises.{IsSeatOf, IsSameSeat, IsAbout, IsBeforeShare};

use crate::opening::{Delay, delay_by, look_at_next};
use crate::slots::{Chosen, Slots, gate_index};
use crate::view::View;
use atomic_table::{Play, Seat};
use gomp_gate::{all_passed, holds_share, is_bare, is_free_for, passed};
use gomp_types::{OPEN_SHARES, Shape};
use std::marker::PhantomData;

/// The answer to a member whose next share is a `single` without words for the others.
#[derive(Clone, Copy, Debug, PartialEq, Eq)]
pub enum Passage {
    /// The member has gone through it; whether it executes the construct's body.
    Passed(bool),
    /// It has not, and may ask again.
    NotYet(Delay),
    /// Others entered the share in another shape.
    Differs,
}

/// What a member that goes through a single adds to the gate, as `gomp_gate::claimed` and `gomp_gate::left` at once: 2^40 + 1.
const PASSED: u64 = 0x100_0000_0001;
/// So many numbers a ticket has: 2^40. The fields of the gate above it begin there.
const TICKETS: u64 = 0x100_0000_0000;
/// One round, as the gate has it: 2^50. A round is one of 2^14.
const ROUND: u64 = 0x4_0000_0000_0000;

const ROUNDS: u64 = 0x4000;

struct Pass<C> {
    chosen: PhantomData<C>,
}

impl<C: Chosen> Play<Shape, View> for Pass<C> {
    ghost then = { PassStep C.members C.member C.share };
}

struct TakeSingle<C> {
    chosen: PhantomData<C>,
}

impl<C: Chosen> Play<Shape, View> for TakeSingle<C> {
    ghost then = { TakeSingleStep C.members C.member C.share };
}

/// The member goes through the single that the seat has found. The answer is whether it executes the body: nobody claimed the one
/// piece before it. One addition to the gate.
fn pass_found<C: Chosen>(
    slots: &Slots,
    seat: &mut Seat<Shape, View>,
    member: u16,
    share: u64,
) -> bool
    requires seat { IsSeatOf slots.now seat.old }
    requires chosen { IsAbout C.members C.member C.share slots.now member share }
    requires next { IsBeforeShare C.members C.member C.share seat.old.me.0 }
    requires idle { seat.old.me.0.opening ≡ None }
    requires looks { (seat.old.me.0.found ≡ Some (single_shape false)) ×
        (seat.old.me.0.share ≡ C.share) }
    requires may { CanOpen C.members C.member (single_shape false)
        (seen_of C.member seat.old.me.0.did) }
    ensures seat { IsSameSeat seat.old seat.new }
    ensures passed { GoesThrough C.members C.member C.share result
        seat.old.me.0 seat.new.me.0 }
{
    let gate = gate_index(share);
    slots.table.shared.fetch_add::<Pass<C>>(seat, gate, PASSED) % TICKETS == 0
}

/// Takes the slot for the member's next share, a single, and goes through that, all by one exchange, if the gate still is `word`,
/// by which it is free for the share. The answer is the gate as it was: `word` if the member went through, and executes the body;
/// else another seat was first and nothing changes.
fn take_single<C: Chosen>(
    slots: &Slots,
    seat: &mut Seat<Shape, View>,
    member: u16,
    share: u64,
    word: u64,
) -> u64
    requires seat { IsSeatOf slots.now seat.old }
    requires chosen { IsAbout C.members C.member C.share slots.now member share }
    requires next { IsBeforeShare C.members C.member C.share seat.old.me.0 }
    requires idle { seat.old.me.0.opening ≡ None }
    requires free { is_free_for C.members C.share word ≡ true }
    requires may { CanOpen C.members C.member (single_shape false)
        (seen_of C.member seat.old.me.0.did) }
    ensures seat { IsSameSeat seat.old seat.new }
    ensures tried { TriesSingle (record { members = C.members; m = C.member }) C.share word
        seat.old.me.0 result seat.new.me.0 }
{
    let gate = gate_index(share);
    let new = passed(share);
    slots
        .table
        .shared
        .compare_exchange::<TakeSingle<C>>(seat, gate, word, new)
}

/// What a single without words leaves in its gate once all of so many members went through it, without its round: `pass_again`
/// takes it, so that a seat works it out once.
///
/// `members` is the size of the team, at most 64.
pub fn passed_by_all(members: u64) -> u64
    requires few { members ≤ 64 }
    ensures word { result ≡ passed_by_all members }
{
    all_passed(0, members)
}

/// Goes through the member's next share, a `single`, if its slot has the single eight before and all members went through that: then
/// the member executes the body. Else the answer is false, and nothing changes. One exchange, and no load before it: so it serves a
/// member to whom other shares than singles are long past, and who came first to the last one.
///
/// `share` is the number of the member's next share, 8 or more, `passed` what `passed_by_all` answers for the size of the team.
#[inline(always)]
pub fn pass_again<C: Chosen>(
    slots: &Slots,
    seat: &mut Seat<Shape, View>,
    member: u16,
    share: u64,
    passed: u64,
) -> bool
    requires seat { IsSeatOf slots.now seat.old }
    requires chosen { IsAbout C.members C.member C.share slots.now member share }
    requires size { (passed ≡ passed_by_all C.members) × (C.members ≤ 64) }
    requires late { 8 ≤ C.share }
    requires next { IsBeforeShare C.members C.member C.share seat.old.me.0 }
    requires idle { seat.old.me.0.opening ≡ None }
    requires may { CanOpen C.members C.member (single_shape false)
        (seen_of C.member seat.old.me.0.did) }
    ensures seat { IsSameSeat seat.old seat.new }
    ensures passed { result ≡ true →
        GoesThrough C.members C.member C.share true seat.old.me.0 seat.new.me.0 }
    ensures stays { result ≡ false → seat.new.me ≡ seat.old.me }
{
    let word = passed + share / OPEN_SHARES % ROUNDS * ROUND;
    take_single::<C>(slots, seat, member, share, word) == word
}

/// Goes through the member's next share, a `single` whose executor hands no words to the others: if no other member has come to it,
/// the member executes its body, else it does not. It answers `NotYet` if some member has not left the share eight before, or
/// another seat is opening the share at this moment, and says which; `Differs` if the share is open in another shape. If it is not
/// `Passed`, the events do not change. One locked step.
///
/// `share` is the number of the member's next share, `members` the size of the team. The member is in no share.
pub fn pass_single<C: Chosen>(
    slots: &Slots,
    seat: &mut Seat<Shape, View>,
    member: u16,
    share: u64,
    members: u64,
) -> Passage
    requires seat { IsSeatOf slots.now seat.old }
    requires chosen { IsAbout C.members C.member C.share slots.now member share }
    requires size { members ≡ C.members }
    requires next { IsBeforeShare C.members C.member C.share seat.old.me.0 }
    requires idle { seat.old.me.0.opening ≡ None }
    requires may { CanOpen C.members C.member (single_shape false)
        (seen_of C.member seat.old.me.0.did) }
    ensures seat { IsSameSeat seat.old seat.new }
    ensures answer { PassesNext C.members C.member C.share result
        seat.old.me.0 seat.new.me.0 }
{
    let word = look_at_next::<C>(slots, seat, member, share);
    if holds_share(word, share) {
        if !is_bare(word) {
            return Passage::Differs;
        }
        return Passage::Passed(pass_found::<C>(slots, seat, member, share));
    }
    if !is_free_for(word, share, members) {
        return Passage::NotYet(delay_by(word));
    }
    if take_single::<C>(slots, seat, member, share, word) != word {
        return Passage::NotYet(Delay::BeingOpened);
    }
    Passage::Passed(true)
}

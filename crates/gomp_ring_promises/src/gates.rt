//! The gate of a slot.

ghost use Rattle.std.specs.Prelude.{◌≡◌, ◌+◌, ◌^◌, ◌<◌, ◌≤◌, ◌==◌, true, IsTrue, ◌↔◌};
ghost use Rattle.gomp_gate.specs.Gates.{ticket_of, left_of, cancelled_of, phase_of, round_of, round_for, phase_number, open_phase, opening_word, open_word, passed_word, all_passed_word, is_bare_single, holds_share, is_free_for, HasFields};

use gomp_gate::Gate;
use gomp_types::Shape;

/// The fields of a gate.
pub fn decode(word: u64) -> Gate
    ensures ticket { result.ticket ≡ ticket_of word }
    ensures left { result.left ≡ left_of word }
    ensures cancelled { IsTrue result.cancelled ↔ (cancelled_of word ≡ 1) }
    ensures phase { phase_number result.phase ≡ phase_of word }
    ensures round { result.round ≡ round_of word }
{
    gomp_gate::decode(word)
}

/// The gate of a slot that was taken.
pub fn opening(share: u64) -> u64
    ensures word { result ≡ opening_word share }
    ensures fields { HasFields result 0 0 0 1 (round_for share) }
{
    gomp_gate::opening(share)
}

/// The gate of a share that is opened.
pub fn opened(share: u64, bare: bool) -> u64
    ensures word { result ≡ open_word bare share }
    ensures fields { HasFields result 0 0 0 (open_phase bare) (round_for share) }
{
    gomp_gate::opened(share, bare)
}

/// The gate of a bare single through which its first member went.
pub fn passed(share: u64) -> u64
    ensures word { result ≡ passed_word share }
    ensures fields { HasFields result 1 1 0 3 (round_for share) }
{
    gomp_gate::passed(share)
}

/// The gate of a slot in which all went through a bare single.
pub fn all_passed(share: u64, members: u64) -> u64
    requires few { members < 2 ^ 7 }
    ensures word { result ≡ all_passed_word members share }
    ensures free { 8 ≤ share → is_free_for members share result ≡ true }
{
    gomp_gate::all_passed(share, members)
}

/// Whether the slot has a bare single.
pub fn is_bare(word: u64) -> bool
    ensures answer { result ≡ (phase_of word == 3) }
{
    gomp_gate::is_bare(word)
}

/// Whether this is the shape of one.
pub fn is_bare_single(shape: &Shape) -> bool
    ensures answer { result ≡ is_bare_single shape.now }
{
    gomp_gate::is_bare_single(shape)
}

/// The gate after a claim.
pub fn claimed(word: u64) -> u64
    requires room { ticket_of word + 1 < 2 ^ 40 }
    ensures fields { HasFields result (ticket_of word + 1) (left_of word)
        (cancelled_of word) (phase_of word) (round_of word) }
{
    gomp_gate::claimed(word)
}

/// The gate after a member has left.
pub fn left(word: u64) -> u64
    requires room { left_of word + 1 < 2 ^ 7 }
    ensures fields { HasFields result (ticket_of word) (left_of word + 1)
        (cancelled_of word) (phase_of word) (round_of word) }
{
    gomp_gate::left(word)
}

/// The gate after a cancellation.
pub fn cancelled(word: u64) -> u64
    ensures fields { HasFields result (ticket_of word) (left_of word)
        1 (phase_of word) (round_of word) }
{
    gomp_gate::cancelled(word)
}

/// Whether all have left.
pub fn retired(word: u64, members: u64) -> bool
    ensures answer { result ≡ (left_of word == members) }
{
    gomp_gate::retired(word, members)
}

/// Whether the slot has a share.
pub fn holds_share(word: u64, share: u64) -> bool
    ensures answer { result ≡ holds_share share word }
{
    gomp_gate::holds_share(word, share)
}

/// Whether it may be taken for one.
pub fn is_free_for(word: u64, share: u64, members: u64) -> bool
    ensures answer { result ≡ is_free_for members share word }
{
    gomp_gate::is_free_for(word, share, members)
}

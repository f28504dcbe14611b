//! The gate of a slot: how many claims were made of its share, how many members left it, whether it is cancelled, and which
//! share the slot has.
//!
//! From the low end a gate word has the number of claims (40 bits), how many members left (7 bits), whether the share is
//! cancelled (1 bit), the phase (2 bits) and the round (14 bits), which is `share / 8 + 1` modulo 2^14.

ghost use Rattle.std.specs.Prelude.{◌≡◌, ◌+◌, ◌^◌, ◌<◌, ◌≤◌, ◌==◌, true, IsTrue, ◌↔◌};
ghost use Rattle.gomp_gate.specs.Gates.{ticket_of, left_of, cancelled_of, phase_of, round_of, round_for, phase_number, open_phase, opening_word, open_word, passed_word, all_passed_word, is_bare_single, holds_share, is_free_for, HasFields};

use gomp_types::{OPEN_SHARES, Shape, ShareKind, single_shape};

/// One claim.
const TICKET: u64 = 1;
/// One member that left: 2^40.
const LEFT: u64 = 0x100_0000_0000;
/// So many numbers of members that left there are: 2^7.
const LEFT_VALUES: u64 = 0x80;
/// The share is cancelled: 2^47.
const CANCELLED: u64 = 0x8000_0000_0000;
/// One phase: 2^48.
const PHASE: u64 = 0x1_0000_0000_0000;
/// So many phases there are.
const PHASE_VALUES: u64 = 4;
/// One round: 2^50.
const ROUND: u64 = 0x4_0000_0000_0000;
/// So many rounds there are, before they begin again: 2^14.
const ROUND_VALUES: u64 = 0x4000;

/// The phase of a slot.
#[derive(Clone, Copy, PartialEq, Eq, Debug)]
pub enum Phase {
    /// No share was ever in it.
    Empty,
    /// A member has taken it for a share, and stores the words of that.
    Opening,
    /// It has a share, whose shape the four words behind the gate tell.
    Open,
    /// It has a bare single: a `single` construct whose executor hands no words to the others.
    OpenSingle,
}

/// The fields of a gate.
#[derive(Clone, Copy, PartialEq, Eq, Debug)]
pub struct Gate {
    /// How many claims were made, 0 to 2^40 - 1.
    pub ticket: u64,
    /// How many members have left the share, 0 to 127.
    pub left: u64,
    /// Whether the share is cancelled.
    pub cancelled: bool,
    /// The phase of the slot.
    pub phase: Phase,
    /// The round of the share, 0 to 2^14 - 1.
    pub round: u64,
}

/// The phase with this number, 0 to 3.
fn phase_from(number: u64) -> Phase
    requires { number < 4 }
    ensures { phase_number result ≡ number }
{
    match number {
        0 => Phase::Empty,
        1 => Phase::Opening,
        2 => Phase::Open,
        _ => Phase::OpenSingle,
    }
}

/// The fields of a gate word.
pub fn decode(word: u64) -> Gate
    ensures ticket { result.ticket ≡ ticket_of word }
    ensures left { result.left ≡ left_of word }
    ensures cancelled { IsTrue result.cancelled ↔ (cancelled_of word ≡ 1) }
    ensures phase { phase_number result.phase ≡ phase_of word }
    ensures round { result.round ≡ round_of word }
{
    Gate {
        ticket: word % LEFT,
        left: (word / LEFT) % LEFT_VALUES,
        cancelled: (word / CANCELLED) % 2 == 1,
        phase: phase_from((word / PHASE) % PHASE_VALUES),
        round: word / ROUND,
    }
}

/// The gate of a slot that a member has taken for this share: nobody has claimed or left.
pub fn opening(share: u64) -> u64
    ensures word { result ≡ opening_word share }
    ensures fields { HasFields result 0 0 0 1 (round_for share) }
{
    PHASE + ((share / OPEN_SHARES + 1) % ROUND_VALUES) * ROUND
}

/// The gate of this share, a bare single or another one, as it is opened: nobody has claimed or left.
pub fn opened(share: u64, bare: bool) -> u64
    ensures word { result ≡ open_word bare share }
    ensures fields { HasFields result 0 0 0 (open_phase bare) (round_for share) }
{
    let phase = if bare { 3 * PHASE } else { 2 * PHASE };
    phase + ((share / OPEN_SHARES + 1) % ROUND_VALUES) * ROUND
}

/// The gate of this share, a bare single, through which its first member went: that has claimed the one piece, and left.
pub fn passed(share: u64) -> u64
    ensures word { result ≡ passed_word share }
    ensures fields { HasFields result 1 1 0 3 (round_for share) }
{
    TICKET + LEFT + 3 * PHASE + ((share / OPEN_SHARES + 1) % ROUND_VALUES) * ROUND
}

/// The gate of the slot of this share while it has the share eight before, a bare single, through which all of so many members,
/// at most 127, went: each has claimed, and left. By it the slot is free for this share.
pub fn all_passed(share: u64, members: u64) -> u64
    requires few { members < 2 ^ 7 }
    ensures word { result ≡ all_passed_word members share }
    ensures free { 8 ≤ share → is_free_for members share result ≡ true }
{
    members * (LEFT + TICKET) + 3 * PHASE + ((share / OPEN_SHARES) % ROUND_VALUES) * ROUND
}

/// Whether the slot has a bare single.
pub fn is_bare(word: u64) -> bool
    ensures answer { result ≡ (phase_of word == 3) }
{
    (word / PHASE) % PHASE_VALUES == 3
}

/// Whether a share of this shape is a bare single: a `single` construct whose executor hands no words to the others. OpenMP API
/// 5.2, section 11.1.
pub fn is_bare_single(shape: &Shape) -> bool
    ensures answer { result ≡ is_bare_single shape.now }
{
    shape.kind == ShareKind::Single && *shape == single_shape(false)
}

/// The gate after one more claim. It has room for the claim: fewer than 2^40 - 1 were made.
pub fn claimed(word: u64) -> u64
    requires room { ticket_of word + 1 < 2 ^ 40 }
    ensures fields { HasFields result (ticket_of word + 1) (left_of word)
        (cancelled_of word) (phase_of word) (round_of word) }
{
    word + TICKET
}

/// The gate after one more member has left. Fewer than 127 have.
pub fn left(word: u64) -> u64
    requires room { left_of word + 1 < 2 ^ 7 }
    ensures fields { HasFields result (ticket_of word) (left_of word + 1)
        (cancelled_of word) (phase_of word) (round_of word) }
{
    word + LEFT
}

/// The gate after a cancellation of the share. A share that is cancelled stays so.
pub fn cancelled(word: u64) -> u64
    ensures fields { HasFields result (ticket_of word) (left_of word)
        1 (phase_of word) (round_of word) }
{
    word | CANCELLED
}

/// Whether so many members have left the share.
pub fn retired(word: u64, members: u64) -> bool
    ensures answer { result ≡ (left_of word == members) }
{
    (word / LEFT) % LEFT_VALUES == members
}

/// Whether the slot is open in the round of this share. Asked of the share's own slot, it says that the share is open there, as
/// long as the shares that a team has open lie less than 2^14 rounds apart.
pub fn holds_share(word: u64, share: u64) -> bool
    ensures answer { result ≡ holds_share share word }
{
    (word / PHASE) % PHASE_VALUES > 1 && word / ROUND == (share / OPEN_SHARES + 1) % ROUND_VALUES
}

/// Whether a member may take the share's own slot for it: no share was ever in the slot, or it is open in the round before, and
/// all `members` have left.
pub fn is_free_for(word: u64, share: u64, members: u64) -> bool
    ensures answer { result ≡ is_free_for members share word }
{
    if share < OPEN_SHARES {
        word == 0
    } else {
        (word / PHASE) % PHASE_VALUES > 1
            && word / ROUND == (share / OPEN_SHARES) % ROUND_VALUES
            && retired(word, members)
    }
}

//! A member's seat among the shares of a team that one thread steps.

ghost use Rattle.std.specs.Prelude.{◌≡◌, ◌<◌, ◌+◌, ◌^◌, ◌↔◌, IsTrue, All};
ghost use Rattle.gomp_types.specs.declared.limits.TheConstants.{OPEN_SHARES};
ghost use Rattle.gomp_share_plain.specs.Plain.{ended_of, seat_in_share};

use gomp_events::Seen;
use gomp_types::{OPEN_SHARES, Shape};

/// Where a member is among the shares.
#[derive(Clone, Copy, Debug)]
pub struct PlainSeat {
    /// What the member sees of its place.
    pub seen: Seen,
    /// How many pieces it took of the share that it entered last; the count stays at the largest
    /// number.
    pub taken: u64,
    /// The number of its piece among the pieces of that share.
    pub number: u64,
}

impl PlainSeat {
    /// A member that has entered no share.
    pub const NEW: PlainSeat = PlainSeat {
        seen: Seen {
            entered: 0,
            current: None,
            drained: false,
            piece: None,
            next_part: 0,
            in_part: false,
            leaving: false,
        },
        taken: 0,
        number: 0,
    };

    /// A member that has just entered the share of this number, in this shape.
    pub fn in_share(number: u64, shape: &Shape) -> PlainSeat
        requires few { number < 2 ^ 48 }
        ensures seat { result ≡ seat_in_share number shape.now }
    {
        PlainSeat {
            seen: Seen {
                entered: number + 1,
                current: Some((number, *shape)),
                ..PlainSeat::NEW.seen
            },
            ..PlainSeat::NEW
        }
    }
}

/// How many shares the member has left; the one that it is in has this number.
pub fn ended_shares(seat: &PlainSeat) -> u64
    ensures { result ≡ ended_of seat.now }
{
    match seat.seen.current {
        Some((number, _)) => number,
        None => seat.seen.entered,
    }
}

/// Whether every member has left the share eight before this one.
pub fn has_room(seats: &[PlainSeat], number: u64) -> bool
    ensures { IsTrue result ↔ All (λ seat. number < ended_of seat + OPEN_SHARES) seats.now }
{
    seats.iter().all(|seat| number < OPEN_SHARES || number - OPEN_SHARES < ended_shares(seat))
}

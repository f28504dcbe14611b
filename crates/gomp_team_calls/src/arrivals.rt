//! The arrival at a barrier, at the end of the region or at that of a share.
//!
//! OpenMP API 5.2, sections 10.1 and 15.3.1; libgomp's `GOMP_barrier` and `GOMP_parallel_end`.

ghost use Rattle.std.specs.Prelude.{◌≡◌};
ghost use Rattle.gomp_team_calls.specs.Arrivals.{arrival_with};

use gomp_board::Op;
use gomp_events::{Arrival, Tag};

/// An arrival of a member that has entered so many shares.
pub fn arrival(kind: Arrival, leaving: bool, entered: u64) -> Op
    ensures { result ≡ arrival_with kind leaving entered }
{
    Op::Arrive {
        tag: Tag {
            kind,
            shares: entered,
        },
        leaving,
    }
}

//! What a board is asked.

ghost use Rattle.std.specs.Prelude.{◌≡◌, ◌<◌, List};
ghost use Rattle.gomp_events.specs.declared.event.Event.{Event};
ghost use Rattle.gomp_types.specs.Least.{least};
ghost use Rattle.gomp_events.specs.TaskCalls.{group_open_tests};
ghost use Rattle.gomp_board.specs.Boards.{Stands, members_of};

use gomp_board::Board;
use gomp_types::Refusal;

/// Why a member leaves no group open.
pub fn group_open_refusal(this: &Board, member: u16) -> Option<Refusal>
    requires member { member < members_of this.now }
    ensures value { (h : List Event) → Stands this.now h →
        result ≡ least (group_open_tests member h) }
{
    this.group_open_refusal(member)
}

//! The board's lock: how a member takes it, and one operation under it.

ghost use Rattle.std.specs.Prelude.{◌≡◌};
ghost use Rattle.gomp_team_board.specs.Parts.{part_after};
ghost use Rattle.gomp_team_board.specs.Locked.{IsAnsweredUnderLock};

use crate::locked::LockedBoard;
use crate::part::Part;
use gomp_board::Op;
use gomp_types::Reply;
use std::hint;
use std::sync::ledger::Ledger;
use std::sync::{Mutex, MutexGuard, Wait};

/// How often a member that finds the lock taken tries it again before it sleeps. Under the lock a member takes less than a
/// microsecond; to wake one that sleeps takes several.
const TRIES: u32 = 200;

/// How many turns it lets go by between two tries, which take the lock's word from the member that has it.
const TURNS: u32 = 4;

/// Takes the lock. A member that finds it taken looks for it for some microseconds, and then sleeps. That it gets it is not promised.
pub(crate) fn take<'b, L: Ledger, R: Wait>(
    rt: &R,
    board: &'b Mutex<LockedBoard<L>>,
) -> MutexGuard<'b, LockedBoard<L>> {
    for _ in 0..TRIES {
        if let Some(guard) = board.try_lock() {
            return guard;
        }
        pause();
    }
    board.lock(rt)
}

/// Lets some turns go by.
fn pause() {
    for _ in 0..TURNS {
        hint::spin_loop();
    }
}

/// An operation of the member, numbered from 0, which takes the lock: it is answered as
/// [`LockedBoard::step`] has it on the board that lies there then, whichever that is. The member's part
/// moves by the events that it gives.
pub fn try_step<L: Ledger, R: Wait>(
    rt: &R,
    board: &Mutex<LockedBoard<L>>,
    part: &mut Part<L>,
    member: u16,
    op: &Op,
) -> Reply
    ensures answer { IsAnsweredUnderLock op.now member result }
    ensures part { part.new ≡ part_after op.now result part.old }
{
    take(rt, board).step(part, member, op)
}

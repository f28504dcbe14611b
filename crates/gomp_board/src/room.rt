//! Room for stored events: it is asked for before they come, so that no call that owes one takes
//! memory.

ghost use Rattle.std.specs.Prelude.{◌≡◌, ◌<◌, ◌+◌, ◌^◌, OnOk, OnErr, IsOk};
ghost use Rattle.gomp_board.specs.Boards.{HasSpare, IsOpAdmitted, Performs, members_of};
ghost use Rattle.gomp_board.specs.declared.op.Op.TheVariants.{Reserve};

use crate::answer::{Answer, FINISHED, NO_MEMORY};
use crate::board::Board;
use std::alloc::AllocError;

impl Board {
    /// Keeps room for so many events of the member.
    pub(crate) fn reserve_admitted(&mut self, member: u16, more: u32) -> Answer
        requires member { member < members_of self.old }
        requires admitted { IsOpAdmitted (Reserve more) member self.old }
        ensures performs { Performs (Reserve more) member self.old self.new result }
    {
        let kept = self.kept[member as usize];
        match self.make_room(more) {
            Err(_) => Answer(NO_MEMORY),
            Ok(()) => {
                self.kept[member as usize] = kept + more;
                Answer(FINISHED)
            }
        }
    }

    /// Asks for room for so many events more than before. It fails, and nothing changes, if their
    /// memory is refused.
    #[inline(always)]
    pub(crate) fn make_room(&mut self, more: u32) -> Result<(), AllocError>
        requires few { self.old.room + more < 2 ^ 32 }
        ensures room { OnOk result (self.new ≡ record self.old { room = self.old.room + more }) }
        ensures spare { OnOk result (HasSpare more self.new) }
        ensures err { OnErr result (self.new ≡ self.old) }
        ensures there { more ≡ 0 → IsOk result }
    {
        let room = self.room + more;
        self.history.reserve(room)?;
        self.room = room;
        Ok(())
    }
}

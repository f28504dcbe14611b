//! The words that executors of singles hand to the other members. OpenMP API 5.2, section 5.7.2.

ghost use Rattle.std.specs.Prelude.{◌≡◌, ◌<◌, ◌+◌, ◌%◌, List, ◌∷◌, false, OnOk, OnErr, IsOk, option_copied, reverse, slice_set};
ghost use Rattle.gomp_events.specs.declared.event.Event.{Event};
ghost use Rattle.gomp_events.specs.declared.event.Event.TheVariants.{Put as PutEvent, Got as GotEvent};
ghost use Rattle.gomp_events.specs.TaskCalls.{lacks_room};
ghost use Rattle.gomp_board.specs.declared.op.Op.TheVariants.{Put, Got};
ghost use Rattle.gomp_board.specs.Ops.{words_ask, words_keep};
ghost use Rattle.gomp_board.specs.KeptPayload.{HasPayload};
ghost use Rattle.gomp_board.specs.Payloads.{newest_put, share_of};
ghost use Rattle.gomp_types.specs.declared.limits.TheConstants.{OPEN_SHARES};
ghost use Rattle.gomp_board.specs.Boards.{HasSpare, IsOpAdmitted, Performs, Stands, members_of, kept_by};

use crate::answer::{Answer, FINISHED, NO_MEMORY};
use crate::board::Board;
use gomp_events::{Event, PAYLOAD_ROOM};
use gomp_types::Payload;
use std::alloc::AllocError;

impl Board {
    /// The words that were put in this share, numbered from 0. None if none were, or if words were put
    /// later in another share whose number leaves the same rest by OPEN_SHARES (section 5.7.2).
    pub fn payload(&self, share: u64) -> Option<&Payload>
        ensures known { Stands self.now (reverse self.now.history) }
        ensures value { HasPayload self.now share (option_copied result) }
    {
        self.payloads.at(share)
    }

    /// The share in which words were put last, of those whose numbers leave the same rest by
    /// OPEN_SHARES as this one; shares are numbered from 0. None if there is none (section 5.7.2).
    pub fn newest_put(&self, share: u64) -> Option<u64>
        ensures known { Stands self.now (reverse self.now.history) }
        ensures value { (h : List Event) → Stands self.now h →
            result ≡ share_of (newest_put (share % OPEN_SHARES) h) }
    {
        self.payloads.newest_share(share)
    }

    /// The member, which executes this single, puts its words.
    pub(crate) fn put_words(&mut self, member: u16, share: u64, words: &Payload) -> Answer
        requires member { member < members_of self.old }
        requires admitted { IsOpAdmitted (Put share words.now) member self.old }
        ensures performs { Performs (Put share words.now) member self.old self.new result }
    {
        match self.make_words_room(member) {
            Err(_) => Answer(NO_MEMORY),
            Ok(()) => {
                self.note_put(member, share, words.copied());
                Answer(FINISHED)
            }
        }
    }

    /// The member is given the words of this single.
    pub(crate) fn give_words(&mut self, member: u16, share: u64, words: &Payload) -> Answer
        requires member { member < members_of self.old }
        requires admitted { IsOpAdmitted (Got share words.now) member self.old }
        ensures performs { Performs (Got share words.now) member self.old self.new result }
    {
        match self.make_words_room(member) {
            Err(_) => Answer(NO_MEMORY),
            Ok(()) => {
                self.note_gift(member, share, words.copied());
                Answer(FINISHED)
            }
        }
    }

    /// Asks for the room of words, unless the member has kept it. It fails, and nothing changes, if
    /// its memory is refused.
    fn make_words_room(&mut self, member: u16) -> Result<(), AllocError>
        requires member { member < members_of self.old }
        requires fits { (h : List Event) → Stands self.old h →
            lacks_room self.old.limits.events self.old.room
            (words_ask (kept_by member self.old)) ≡ false }
        ensures room { OnOk result (self.new ≡ record self.old {
          room = self.old.room + words_ask (kept_by member self.old);
        }) }
        ensures spare { OnOk result (HasSpare (words_ask (kept_by member self.old)) self.new) }
        ensures err { OnErr result (self.new ≡ self.old) }
        ensures there { words_ask (kept_by member self.old) ≡ 0 → IsOk result }
    {
        let asked = words_ask(self.kept[member as usize]);
        self.make_room(asked)
    }

    /// The executor's words come to the history, and lie ready for the other members.
    fn note_put(&mut self, member: u16, share: u64, words: Payload)
        requires member { member < members_of self.old }
        requires spare { HasSpare (words_ask (kept_by member self.old)) self.old }
        ensures stands { (h : List Event) → Stands self.old h →
            Stands self.new (PutEvent share member words ∷ h) }
        ensures limits { self.new.limits ≡ self.old.limits }
        ensures room { self.new.room ≡ self.old.room }
        ensures kept { self.new.kept ≡
            slice_set self.old.kept member (words_keep (kept_by member self.old)) }
    {
        let place = member as usize;
        self.kept[place] = words_keep(self.kept[place]);
        self.payloads.put(share, words.copied());
        self.history.push(Event::Put {
            share,
            member,
            payload: words,
        });
    }

    /// That the member is given words comes to the history.
    fn note_gift(&mut self, member: u16, share: u64, words: Payload)
        requires member { member < members_of self.old }
        requires spare { HasSpare (words_ask (kept_by member self.old)) self.old }
        ensures stands { (h : List Event) → Stands self.old h →
            Stands self.new (GotEvent share member words ∷ h) }
        ensures limits { self.new.limits ≡ self.old.limits }
        ensures room { self.new.room ≡ self.old.room }
        ensures kept { self.new.kept ≡
            slice_set self.old.kept member (words_keep (kept_by member self.old)) }
    {
        let place = member as usize;
        self.kept[place] = words_keep(self.kept[place]);
        self.history.push(Event::Got {
            share,
            member,
            payload: words,
        });
    }
}

/// The room that words ask for if their member has kept so much: none if it has kept it.
pub(crate) fn words_ask(kept: u32) -> u32
    ensures { result ≡ words_ask kept }
{
    if kept >= PAYLOAD_ROOM {
        0
    } else {
        PAYLOAD_ROOM
    }
}

/// What the member keeps after it.
fn words_keep(kept: u32) -> u32
    ensures { result ≡ words_keep kept }
{
    if kept >= PAYLOAD_ROOM {
        kept - PAYLOAD_ROOM
    } else {
        kept
    }
}

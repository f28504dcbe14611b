//! The board under a lock.

ghost use Rattle.std.specs.Prelude.{◌≡◌, ◌≢◌, ◌<◌, ◌≤◌, ◌+◌, List, Option, Some, None, option_copied, reverse};
ghost use Rattle.gomp_types.specs.declared.refusal.Refusal.TheVariants.{BadMember, Mismatch};
ghost use Rattle.gomp_types.specs.Limits.{IsTeamSize};
ghost use Rattle.gomp_events.specs.declared.event.Event.{Event};
ghost use Rattle.gomp_events.specs.Cancels.{is_cancelled};
ghost use Rattle.gomp_events.specs.Events.{clash_of};
ghost use Rattle.gomp_events.specs.Laws.{Always};
ghost use Rattle.gomp_events.specs.Tasks.{executed_task};
ghost use Rattle.gomp_board.specs.Boards.{Stands};
ghost use Rattle.gomp_board.specs.KeptPayload.{HasPayload};
ghost use Rattle.gomp_waits.specs.Waits.{is_waiting, PerformsOrWaits};
ghost use Rattle.gomp_waits.specs.Words.{payload_refusal, WordsRule};
ghost use Rattle.gomp_team_board.specs.Counts.{counted_events, events_given};
ghost use Rattle.gomp_team_board.specs.Parts.{new_part, part_after};
ghost use Rattle.gomp_team_board.specs.Locked.{team_size, locked_refusal, comes_first, AnswersMember, AnswersNumber, AnswersUnless, RefusesWords, MovesCounts, KeptLaws};

use crate::counts::{counted_events, events_given};
use crate::ledger::EventLedger;
use crate::part::{Part, PartCounts};
use gomp_board::Op;
use gomp_events::Event;
use gomp_types::{Clash, Payload, Refusal, Reply, Task};
use gomp_waits::{WaitBoard, lesser_refusal};
use std::marker::Model;
use std::sync::ledger::{Book, Ledger, Share};

/// The board of a team with the open waits of its members, and the ledger of its events. Members share
/// it under a lock, each with its own [`Part`] of the ledger.
#[derive(Drop)]
pub struct LockedBoard<L: Ledger> {
    board: WaitBoard,
    /// As many as the stored events, discards aside.
    happened: Book<L>,
}

impl<L: Ledger> Model for LockedBoard<L> {
    ghost use Rattle.std.specs.Coded.{codes};
    ghost use Rattle.gomp_waits.specs.contracts.wait_board.WaitBoard.{the_row as wait_board_row};
    ghost use Rattle.gomp_waits.specs.Waits.{WaitBoardView};
    ghost use Rattle.gomp_team_board.specs.Locked.{IsGuarded};

    ghost Value = { WaitBoardView };

    ghost coded = { Prim.hlevel (codes, wait_board_row.coded) };

    ghost view = { λ locked. locked.board };

    ghost invariant = { λ locked. IsGuarded locked.happened.total locked.board };
}

impl<L: Ledger> LockedBoard<L> {
    /// Puts a board under a ledger that no team has: the whole of it is one part, with the events that
    /// the board has stored. A new board has none, so no words.
    pub fn new(board: WaitBoard, ledger: EventLedger<L>) -> (LockedBoard<L>, Part<L>)
        requires words { Always WordsRule (reverse board.board.history) }
        requires ledger { ledger ≡ L.parts }
        ensures board { result.0 ≡ board }
        ensures whole { result.1 ≡ new_part L.parts (counted_events board.board.history) }
    {
        let EventLedger {
            mut happened,
            mut share,
        } = ledger;
        happened.add(&mut share, counted_events(board.history()));
        let part = Part {
            share,
            counts: PartCounts::none(),
        };
        (LockedBoard { board, happened }, part)
    }

    /// Answers an operation of the member, numbered from 0, and moves its part of the ledger by the
    /// events that it gives. `BadMember` (E1) comes first, and changes nothing. Words that come late, and
    /// a note of words that do not lie in their share, are refused as
    /// [`payload_refusal`](gomp_waits::WaitBoard::payload_refusal) has it, or by a test with a lesser number.
    /// All else is answered as [`WaitBoard::step`](gomp_waits::WaitBoard::step) has it.
    pub fn step(&mut self, part: &mut Part<L>, member: u16, op: &Op) -> Reply
        ensures known { Stands self.old.board (reverse self.old.board.history) }
        ensures answer { AnswersNumber op.now member self.old self.new result }
        ensures counts { MovesCounts op.now member self.old self.new result }
        ensures part { part.new ≡ part_after op.now result part.old }
    {
        self.step_unless(part, member, op, None)
    }

    /// The same for an operation that its caller may refuse by a test of its own, which found
    /// `found`; that is not `Mismatch`, which the board alone finds. `BadMember` (E1) comes first. If
    /// no test of the board, of the member's wait or of the words has a refusal with a lesser number,
    /// the operation is refused as `found`, and nothing changes. Else it is answered as
    /// [`step`](LockedBoard::step) has it: so it is refused by the test with the lesser number, or
    /// performed if nothing was found.
    pub fn step_unless(
        &mut self,
        part: &mut Part<L>,
        member: u16,
        op: &Op,
        found: Option<Refusal>,
    ) -> Reply
        requires own { found ≢ Some Mismatch }
        ensures known { Stands self.old.board (reverse self.old.board.history) }
        ensures answer { AnswersUnless found op.now member self.old self.new result }
        ensures counts { MovesCounts op.now member self.old self.new result }
        ensures part { part.new ≡ part_after op.now result part.old }
    {
        let _ = self.history(); // for clause known
        if member >= self.members() {
            return Reply::Refused(Refusal::BadMember);
        }
        match found {
            // `first_refusal`, which this asks, tests the number again: others call it too, and it is one comparison.
            Some(refusal) if self.comes_first(member, op, &refusal) => Reply::Refused(refusal),
            _ => self.step_member(part, member, op),
        }
    }

    /// Why the operation of the member, numbered from 0, is refused, want of memory aside: as
    /// `BadMember`, or by the least of the tests of its words, its wait and the board.
    pub fn first_refusal(&self, member: u16, op: &Op) -> Option<Refusal>
        ensures bad_member { team_size self.now ≤ member → result ≡ Some BadMember }
        ensures value { (h : List Event) → member < team_size self.now → Stands self.now.board h →
            result ≡ locked_refusal member self.now op.now h }
    {
        if member >= self.members() {
            return Some(Refusal::BadMember);
        }
        let found = self.board.first_refusal(member, op);
        match self.board.payload_refusal(op) {
            None => found,
            Some(refusal) => Some(lesser_refusal(refusal, found)),
        }
    }

    /// How many members the team has, 1 to 64.
    pub fn members(&self) -> u16
        ensures value { result ≡ team_size self.now }
        ensures size { IsTeamSize result }
    {
        self.board.members()
    }

    /// Whether the wait of the member, numbered from 0, is open; nothing of a number that no member
    /// has.
    pub fn is_waiting(&self, member: u16) -> Option<bool>
        ensures bad_member { team_size self.now ≤ member → result ≡ None }
        ensures value { member < team_size self.now → result ≡ Some (is_waiting member self.now) }
    {
        if member >= self.members() {
            return None;
        }
        Some(self.board.is_waiting(member))
    }

    /// The task that the member, numbered from 0, executes; nothing of a number that no member has.
    pub fn current(&self, member: u16) -> Option<Task>
        ensures known { Stands self.now.board (reverse self.now.board.history) }
        ensures bad_member { team_size self.now ≤ member → result ≡ None }
        ensures value { (h : List Event) → member < team_size self.now → Stands self.now.board h →
            result ≡ Some (executed_task member h) }
    {
        let _ = self.history(); // for clause known
        if member >= self.members() {
            return None;
        }
        Some(self.board.current(member))
    }

    /// By whom and where the team was broken first, if it was.
    pub fn clash(&self) -> Option<Clash>
        ensures known { Stands self.now.board (reverse self.now.board.history) }
        ensures value { (h : List Event) → Stands self.now.board h → result ≡ clash_of h }
    {
        let _ = self.history(); // for clause known
        self.board.clash()
    }

    /// Whether the region is cancelled (section 16.1).
    pub fn is_cancelled(&self) -> bool
        ensures known { Stands self.now.board (reverse self.now.board.history) }
        ensures value { (h : List Event) → Stands self.now.board h → result ≡ is_cancelled h }
    {
        let _ = self.history(); // for clause known
        self.board.is_cancelled()
    }

    /// The words that were put in this share, numbered from 0. None if none were, or if words were put
    /// later in another share whose number leaves the same rest by OPEN_SHARES (section 5.7.2).
    pub fn payload(&self, share: u64) -> Option<&Payload>
        ensures known { Stands self.now.board (reverse self.now.board.history) }
        ensures value { HasPayload self.now.board share (option_copied result) }
    {
        self.board.payload(share)
    }

    /// The stored events, the oldest first. They keep the laws, whoever made the calls.
    pub fn history(&self) -> &[Event]
        ensures value { result.now ≡ self.now.board.history }
        ensures known { Stands self.now.board (reverse result.now) }
        ensures laws { KeptLaws (team_size self.now) (reverse result.now) }
    {
        self.board.history()
    }

    /// Holds a part against the history, and changes nothing: of the stored events, discards aside,
    /// there are at least as many as are on it, and as many if it is the whole.
    pub fn audit(&mut self, part: &mut Part<L>)
        ensures least { part.old.amount ≤ counted_events self.old.board.history }
        ensures whole { part.old.parts ≡ L.parts →
            part.old.amount ≡ counted_events self.old.board.history }
        ensures board { self.new ≡ self.old }
        ensures part { part.new ≡ part.old }
    {
        let Part { share, .. } = part;
        self.happened.audit(share);
    }

    /// Takes the board and its ledger apart once the region is over. The part is the whole, so each of
    /// its events, discards aside, is on the board: a call gave it, and none was dropped. The ledger
    /// has none of them any more.
    pub fn close(self, part: Part<L>) -> (WaitBoard, EventLedger<L>)
        requires whole { part.parts ≡ L.parts }
        ensures board { result.0 ≡ self }
        ensures counted { part.amount ≡ counted_events result.0.board.history }
        ensures laws { KeptLaws (team_size result.0) (reverse result.0.board.history) }
        ensures words { Always WordsRule (reverse result.0.board.history) }
        ensures ledger { result.1 ≡ L.parts }
    {
        let LockedBoard {
            board,
            mut happened,
        } = self;
        let Part {
            mut share,
            counts: _,
        } = part;
        happened.audit(&mut share);
        let count = counted_events(board.history());
        happened.sub(&mut share, count);
        (board, EventLedger { happened, share })
    }

    /// Answers an operation of a member of the team.
    fn step_member(&mut self, part: &mut Part<L>, member: u16, op: &Op) -> Reply
        requires member { member < team_size self.old }
        ensures answer { AnswersMember op.now member self.old self.new result }
        ensures counts { MovesCounts op.now member self.old self.new result }
        ensures part { part.new ≡ part_after op.now result part.old }
    {
        let _ = self.history(); // the board stands for it
        match self.board.payload_refusal(op) {
            None => self.perform(part, member, op),
            Some(refusal) => self.refuse_words(member, op, refusal),
        }
    }

    /// Whether the number of a refusal that was found is not above that of any test of the operation
    /// that holds.
    fn comes_first(&self, member: u16, op: &Op, found: &Refusal) -> bool
        requires member { member < team_size self.now }
        ensures value { (h : List Event) → Stands self.now.board h →
            result ≡ comes_first (Some found.now) (locked_refusal member self.now op.now h) }
    {
        match self.first_refusal(member, op) {
            None => true,
            Some(other) => found.number() <= other.number(),
        }
    }

    /// Refuses the words of an operation, by that or by a test with a lesser number.
    fn refuse_words(&self, member: u16, op: &Op, refusal: Refusal) -> Reply
        requires member { member < team_size self.now }
        requires words { (h : List Event) → Stands self.now.board h →
            payload_refusal op.now h ≡ Some refusal }
        ensures refuses { (h : List Event) → Stands self.now.board h →
            RefusesWords op.now member self.now self.now h result }
    {
        let other = self.board.first_refusal(member, op);
        Reply::Refused(lesser_refusal(refusal, other))
    }

    /// Answers an operation of a member of the team whose words are not refused.
    fn perform(&mut self, part: &mut Part<L>, member: u16, op: &Op) -> Reply
        requires member { member < team_size self.old }
        requires words { (h : List Event) → Stands self.old.board h →
            payload_refusal op.now h ≡ None }
        ensures performs { PerformsOrWaits op.now member self.old self.new result }
        ensures counts { MovesCounts op.now member self.old self.new result }
        ensures part { part.new ≡ part_after op.now result part.old }
    {
        let Part { share, counts } = part;
        let reply = self.answer(share, member, op);
        let most = self.most(share);
        counts.note(op, &reply, most);
        reply
    }

    /// Answers it, and moves the share by the events that it gives.
    fn answer(&mut self, share: &mut Share<L>, member: u16, op: &Op) -> Reply
        requires member { member < team_size self.old }
        requires words { (h : List Event) → Stands self.old.board h →
            payload_refusal op.now h ≡ None }
        requires some { 0 < share.old.parts }
        ensures performs { PerformsOrWaits op.now member self.old self.new result }
        ensures counts { MovesCounts op.now member self.old self.new result }
        ensures moved { share.new.amount ≡ share.old.amount + events_given op.now result }
        ensures parts { share.new.parts ≡ share.old.parts }
    {
        let LockedBoard { board, happened } = self;
        let _ = board.history(); // its rules
        let reply = board.step(member, op);
        happened.add(share, events_given(op, &reply));
        reply
    }

    /// A number that the share's amount is not above: that of the stored events.
    fn most(&mut self, share: &mut Share<L>) -> u64
        ensures most { share.old.amount ≤ result }
        ensures board { self.new ≡ self.old }
        ensures amount { share.new.amount ≡ share.old.amount }
        ensures parts { share.new.parts ≡ share.old.parts }
    {
        let LockedBoard { board, happened } = self;
        happened.audit(share);
        board.history().len() as u64
    }
}

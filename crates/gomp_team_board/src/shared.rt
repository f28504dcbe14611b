//! The board as members on threads share it: one try of an operation, and waits.

ghost use Rattle.std.specs.Prelude.{true, ◌≡◌, ◌≢◌, ◌<◌, Some, reverse};
ghost use Rattle.gomp_types.specs.declared.refusal.Refusal.TheVariants.{Mismatch};
ghost use Rattle.gomp_types.specs.declared.reply.Reply.TheVariants.{Wait};
ghost use Rattle.gomp_events.specs.Laws.{Always};
ghost use Rattle.gomp_waits.specs.Waits.{resumes_wait};
ghost use Rattle.gomp_waits.specs.Words.{WordsRule};
ghost use Rattle.gomp_team_board.specs.Counts.{counted_events};
ghost use Rattle.gomp_team_board.specs.Parts.{new_part, part_after};
ghost use Rattle.gomp_team_board.specs.Locked.{team_size, IsAnsweredUnderLock, IsAnsweredUnless, KeptLaws};
ghost use Rattle.gomp_team_board.specs.Shared.{wakes};

use crate::ledger::EventLedger;
use crate::lock::{take, try_step};
use crate::locked::LockedBoard;
use crate::part::Part;
use gomp_board::Op;
use gomp_types::{Limits, Refusal, Reply};
use gomp_waits::WaitBoard;
use std::hint;
use std::marker::Model;
use std::sync::ledger::Ledger;
use std::sync::{Condvar, Mutex, MutexGuard, Wait};

/// How many turns the members of a team that wait look for a notification before they sleep, all together: a larger team has more
/// members that want a processor meanwhile.
const TURNS: u32 = 80_000;

/// A team's board as its members on threads share it: each calls it with its own [`Part`].
#[derive(Drop)]
pub struct SharedBoard<L: Ledger> {
    /// The board, under its lock.
    board: Mutex<LockedBoard<L>>,
    /// Notified whenever members that wait may go on.
    moved: Condvar,
    /// How many turns one of them looks for a notification before it sleeps.
    turns: u32,
    /// How many members the team has, 1 to 64.
    members: u16,
    /// The team's limits.
    limits: Limits,
}

impl<L: Ledger> Model for SharedBoard<L> {
    ghost use Rattle.gomp_team_board.specs.Shared.{SharedBoardView};

    ghost Value = { SharedBoardView };

    ghost view = { λ shared. record { members = shared.members; limits = shared.limits } };
}

impl<L: Ledger> SharedBoard<L> {
    /// Puts a board under a lock that is free, with a ledger that no team has: the whole of it is one
    /// part, with the events that the board has stored. No member waits for the lock.
    pub fn new(board: WaitBoard, ledger: EventLedger<L>) -> (SharedBoard<L>, Part<L>)
        requires words { Always WordsRule (reverse board.board.history) }
        requires ledger { ledger ≡ L.parts }
        ensures members { result.0.members ≡ team_size board }
        ensures limits { result.0.limits ≡ board.board.limits }
        ensures whole { result.1 ≡ new_part L.parts (counted_events board.board.history) }
    {
        let members = board.members();
        let limits = board.limits();
        let turns = TURNS / members as u32;
        let (board, part) = LockedBoard::new(board, ledger);
        let shared = SharedBoard {
            board: Mutex::new(board),
            moved: Condvar::new(),
            turns,
            members,
            limits,
        };
        (shared, part)
    }

    /// Takes the board out of its lock once no member shares it and its region is over, and the ledger
    /// from it. The part is the whole, so each of its events, discards aside, is on the board: a call
    /// gave it, and none was dropped. The ledger has none of them any more.
    pub fn close(self, part: Part<L>) -> (WaitBoard, EventLedger<L>)
        requires whole { part.parts ≡ L.parts }
        ensures counted { part.amount ≡ counted_events result.0.board.history }
        ensures laws { KeptLaws (team_size result.0) (reverse result.0.board.history) }
        ensures words { Always WordsRule (reverse result.0.board.history) }
        ensures ledger { result.1 ≡ L.parts }
    {
        let SharedBoard { board, .. } = self;
        board.into_inner().close(part)
    }

    /// Takes the lock, for a caller that asks several things of the board before it lets go. It then says
    /// by [`notify`](SharedBoard::notify) what was answered. While it has the lock it calls nothing else
    /// of the shared board that takes it: that would wait for ever.
    pub fn lock<R: Wait>(&self, rt: &R) -> MutexGuard<'_, LockedBoard<L>> {
        take(rt, &self.board)
    }

    /// Wakes the members that sleep, if the operation and its reply let one of them go on: see the
    /// private `wakes`. It is called once the lock is free.
    pub fn notify(&self, op: &Op, reply: &Reply) {
        if wakes(op, reply) {
            self.moved.notify_all();
        }
    }

    /// How many notifications there were, to be asked before a look at what the caller waits for:
    /// [`has_moved`](SharedBoard::has_moved) then says whether to look again.
    pub fn notifications(&self) -> u64 {
        self.moved.notifications()
    }

    /// Whether a notification came after the first `seen`, within 80,000 turns by the number of members. No clause can speak of
    /// their number, which other threads change.
    pub fn has_moved(&self, seen: u64) -> bool {
        for _ in 0..self.turns {
            if self.notifications() != seen {
                return true;
            }
            hint::spin_loop();
        }
        false
    }

    /// One try of an operation of the member, numbered from 0, under the lock: it is answered as
    /// [`LockedBoard::step`] has it on the board that lies there then, whichever that is. The member's
    /// part moves by the events that it gives. If the reply lets others go on, the members that sleep
    /// are woken. That they go on is not promised.
    pub fn try_op<R: Wait>(&self, rt: &R, part: &mut Part<L>, member: u16, op: &Op) -> Reply
        ensures answer { IsAnsweredUnderLock op.now member result }
        ensures part { part.new ≡ part_after op.now result part.old }
    {
        let reply = try_step(rt, &self.board, part, member, op);
        self.notify(op, &reply);
        reply
    }

    /// The same for an operation that its caller may refuse by a test of its own, which found `found`:
    /// it is answered as [`LockedBoard::step_unless`] has it.
    pub fn try_unless<R: Wait>(
        &self,
        rt: &R,
        part: &mut Part<L>,
        member: u16,
        op: &Op,
        found: Option<Refusal>,
    ) -> Reply
        requires own { found ≢ Some Mismatch }
        ensures answer { IsAnsweredUnless found op.now member result }
        ensures part { part.new ≡ part_after op.now result part.old }
    {
        let reply = self.lock(rt).step_unless(part, member, op, found);
        self.notify(op, &reply);
        reply
    }

    /// Goes on with a wait of the member, numbered from 0, until its answer is another than to wait.
    /// The last try alone moves the part. Between two tries the member looks for a notification as
    /// [`has_moved`](SharedBoard::has_moved) does, then sleeps until the next one. That the wait ends is not promised.
    #[tactic(auto, using(crate::proofs::Moved::wait_moves_nothing))]
    pub fn await_op<R: Wait>(&self, rt: &R, part: &mut Part<L>, member: u16, op: &Op) -> Reply
        requires resumes { resumes_wait op.now ≡ true }
        ensures answer { IsAnsweredUnderLock op.now member result }
        ensures over { result ≢ Wait }
        ensures part { part.new ≡ part_after op.now result part.old }
    {
        for _ in rt.forever() {
            let seen = self.notifications();
            match self.try_op(rt, part, member, op) {
                Reply::Wait => {}
                reply => return reply,
            }
            if !self.has_moved(seen) {
                match self.try_or_sleep(rt, part, member, op) {
                    Reply::Wait => {}
                    reply => return reply,
                }
            }
        }
        unreachable!()
    }

    /// One try. If its answer is to wait, the member sleeps until the next notification: the lock stays
    /// taken from the try on, so none falls between.
    fn try_or_sleep<R: Wait>(&self, rt: &R, part: &mut Part<L>, member: u16, op: &Op) -> Reply
        ensures answer { IsAnsweredUnderLock op.now member result }
        ensures part { part.new ≡ part_after op.now result part.old }
    {
        let mut guard = self.lock(rt);
        let reply = guard.step(part, member, op);
        if matches!(reply, Reply::Wait) {
            drop(self.moved.wait(rt, guard));
        } else {
            drop(guard);
            self.notify(op, &reply);
        }
        reply
    }
}

/// Whether the operation and its reply wake the members that sleep.
///
/// A member sleeps if it was answered to wait: what it waits for was not there, it could start no task,
/// and nothing that would end its wait was cancelled or broken. What others do changes that in these
/// ways alone:
///
/// - the team is broken, by a difference (`Mismatch`) or a stop;
/// - the region or a group is cancelled, and tasks are discarded;
/// - a task is done: it was waited for, or another waited for it by its `depend` clause;
/// - a task is created that others may execute: the reply is `Created`, since an undeferred task is
///   executed by its creator alone, and more tasks only keep others waiting;
/// - all members have arrived at the barrier, and the tasks bound to it are complete. If an arrival
///   does this, its member passes, since it waits for the same as the others there: one that is
///   answered to wait, or to execute a task, lets nobody go on.
///
/// So the start of a task, the pass of a barrier after a wait, a taskwait, and groups that are opened
/// or ended let nobody go on. `unwoken_waits_on` and `unwoken_by_a_creation` of proofs/Unwoken.antt
/// have this of every operation but arrivals, for which the last point stands alone. Words that are
/// put wake too, for who looks for them by [`has_moved`](SharedBoard::has_moved).
fn wakes(op: &Op, reply: &Reply) -> bool
    ensures { result ≡ wakes op.now reply.now }
{
    matches!(
        (op, reply),
        (_, Reply::Refused(Refusal::Mismatch))
            | (Op::Create(_), Reply::Created(_))
            | (Op::EndTask(_), Reply::TaskDone { .. })
            | (Op::Arrive { .. }, Reply::Passed)
            | (Op::Put { .. }, Reply::Finished)
            | (Op::Cancel { clause: true, .. }, Reply::Cancelling(true))
            | (Op::Break { .. }, Reply::Stopped)
    )
}

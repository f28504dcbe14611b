//! What the members of a team share.

ghost use Rattle.std.specs.Prelude.{◌≡◌, ◌≢◌, ◌↔◌, ◌⊎◌, Bool, IfOk, IfErr, Some, None, length, reverse};
ghost use Rattle.gomp_types.specs.Limits.{IsTeamSize, capped_limits};
ghost use Rattle.gomp_team_board.specs.Counts.{counted_events};
ghost use Rattle.gomp_team_board.specs.Locked.{team_size, KeptLaws};
ghost use Rattle.gomp_team_board.specs.Parts.{new_part};
ghost use Rattle.gomp_types.specs.declared.call.Server.TheVariants.{Book};
ghost use Rattle.gomp_types.specs.declared.refusal.Refusal.TheVariants.{BadTeam, NoMemory, Mismatch};
ghost use Rattle.gomp_types.specs.Servers.{served_by};
ghost use Rattle.gomp_ring.specs.Rings.{ring_members};
ghost use Rattle.gomp_ring.specs.RingSeats.{AreAllSeats, Gathers, IsOnRing};
ghost use Rattle.gomp_seats.specs.NewSeats.{AreNewSeats};
ghost use Rattle.gomp_seat_calls.specs.Stays.{StaysSeat};
ghost use Rattle.gomp_member.specs.Refused.{own_refusal};
ghost use Rattle.gomp_team.specs.Answers.{FindsItself, FindsOwnOrName, IsNoneOrBroken, LetsEndBy, TeamAnswers, made_by};
ghost use Rattle.gomp_team.specs.Moves.{events_part, holds_part, releases_part};
ghost use Rattle.gomp_team.specs.Seats.{AsksSeat, end_of, seat_ask};
ghost use Rattle.gomp_team.specs.Members.{AsksNoItems, cuts};

use crate::ops::share_end;
use crate::parts::MemberParts;
use gomp_dispatch::Manner;
use gomp_icv::Icv;
use gomp_member::MemberState;
use gomp_member::refusals::tests_critical;
use gomp_ring::{Gathered, Ring, RingSeat, gather_in};
use gomp_seat_calls::ask_end_refusal;
use gomp_seats::SeatedRing;
use gomp_team_board::{EventLedger, Part, SharedBoard};
use gomp_team_book::{HoldLedger, LockedBook};
use gomp_team_calls::{ShareEnd, lesser};
use gomp_types::{Call, Limits, Refusal, Reply, Server, is_team_size};
use gomp_waits::WaitBoard;
use std::alloc::Global;
use std::marker::Model;
use std::sync::atomic::{AtomicBool, Ordering};
use std::sync::ledger::Ledger;
use std::sync::{Arc, Mutex, Wait};

/// What the members of a team share: the ring of its work-shares, on which each member acts by a seat of its own with no lock, its
/// board under a lock, and the book of names and locks under another, which other teams share too.
///
/// A call takes the lock of the board alone, and that of the book alone.
#[derive(Drop)]
pub struct SharedTeam<L: Ledger, H: HoldLedger, F: Ledger> {
    /// Its number among the teams that share names and locks.
    pub(crate) number: u32,
    /// The control variables of the region.
    pub(crate) icv: Icv,
    /// How much it may hold.
    pub(crate) limits: Limits,
    /// Tasks, groups, barriers, words, the stored events.
    pub(crate) board: SharedBoard<L>,
    /// Work-shares.
    pub(crate) ring: Ring,
    /// Critical names and locks.
    pub(crate) book: Arc<Mutex<LockedBook<H, F>>, Global>,
    /// Whether some member was answered that the team is broken or stopped, or that something of it is cancelled. Before that a call
    /// on the work-shares need not ask the board whether that is so.
    may_be_cut: AtomicBool,
}

impl<L: Ledger, H: HoldLedger, F: Ledger> Model for SharedTeam<L, H, F> {
    ghost use Rattle.std.specs.Prelude.{◌≡◌};
    ghost use Rattle.gomp_team.specs.Members.{SharedView};

    ghost Value = { SharedView };

    ghost view = { λ team. record {
      team = record { number = team.number; icv = team.icv };
      members = team.board.members;
      limits = team.board.limits;
      ring = team.ring;
    } };

    ghost invariant = { λ team. team.limits ≡ team.board.limits };
}

/// What a team is made with, beside its size.
#[derive(Drop)]
pub struct TeamTerms {
    /// Its number among the teams that share names and locks, from 0.
    pub number: u32,
    /// The control variables of its region.
    pub icv: Icv,
    /// How much it may hold; each limit counts as the standard one if it is larger.
    pub limits: Limits,
}

/// A new team, and what its members take.
#[derive(Drop)]
pub struct NewTeam<L: Ledger, H: HoldLedger, F: Ledger> {
    /// What the members share.
    pub team: SharedTeam<L, H, F>,
    /// The whole of the ledger of its events, of which each member takes a part.
    pub whole: Part<L>,
    /// The members' seats on the ring of the work-shares, that of member `m` at place `m`.
    pub seats: Vec<RingSeat>,
}

impl<L: Ledger, H: HoldLedger, F: Ledger> SharedTeam<L, H, F> {
    /// What a new team of `count` members, 1 to 64, shares, the whole of its ledger, which no team had, and the members' seats. The
    /// book is that of all teams that share names and locks.
    ///
    /// Refused with `BadTeam` (E38) if the number is not 1 to 64, and with `NoMemory` (E37) if memory is
    /// refused; then the ledger comes back.
    pub fn new(
        alloc: Global,
        count: u16,
        terms: TeamTerms,
        book: Arc<Mutex<LockedBook<H, F>>, Global>,
        ledger: EventLedger<L>,
    ) -> Result<NewTeam<L, H, F>, (Refusal, EventLedger<L>)>
        requires ledger { ledger ≡ L.parts }
        ensures size { IfErr result (λ refused. refused.0 ≡ BadTeam ↔ (IsTeamSize count → ⊥)) }
        ensures refused { IfErr result (λ refused. (refused.0 ≡ BadTeam) ⊎ (refused.0 ≡ NoMemory)) }
        ensures fits { IfOk result (λ made. IsTeamSize count) }
        ensures members { IfOk result (λ made. made.team.members ≡ count) }
        ensures limits { IfOk result (λ made. made.team.limits ≡ capped_limits terms.limits) }
        ensures number { IfOk result (λ made. made.team.team.number ≡ terms.number) }
        ensures icv { IfOk result (λ made. made.team.team.icv ≡ terms.icv) }
        ensures whole { IfOk result (λ made. made.whole ≡ new_part L.parts 0) }
        ensures seats { IfOk result (λ made. AreNewSeats count made.team.ring made.seats.items) }
        ensures back { IfErr result (λ refused. refused.1 ≡ ledger) }
    {
        if !is_team_size(count) {
            return Err((Refusal::BadTeam, ledger));
        }
        match SharedTeam::new_admitted(alloc, count, terms, book, ledger) {
            Ok(made) => Ok(made),
            Err(ledger) => Err((Refusal::NoMemory, ledger)),
        }
    }

    /// The same of a size that a team may have. If memory is refused, the ledger comes back: it is put
    /// under the board last, when all memory is there.
    fn new_admitted(
        alloc: Global,
        count: u16,
        terms: TeamTerms,
        book: Arc<Mutex<LockedBook<H, F>>, Global>,
        ledger: EventLedger<L>,
    ) -> Result<NewTeam<L, H, F>, EventLedger<L>>
        requires size { IsTeamSize count }
        requires ledger { ledger ≡ L.parts }
        ensures members { IfOk result (λ made. made.team.members ≡ count) }
        ensures limits { IfOk result (λ made. made.team.limits ≡ capped_limits terms.limits) }
        ensures number { IfOk result (λ made. made.team.team.number ≡ terms.number) }
        ensures icv { IfOk result (λ made. made.team.team.icv ≡ terms.icv) }
        ensures whole { IfOk result (λ made. made.whole ≡ new_part L.parts 0) }
        ensures seats { IfOk result (λ made. AreNewSeats count made.team.ring made.seats.items) }
        ensures back { IfErr result (λ back. back ≡ ledger) }
    {
        let TeamTerms {
            number,
            icv,
            limits,
        } = terms;
        let limits = limits.capped_limits();
        let Ok(board) = WaitBoard::new(alloc, count, limits) else {
            return Err(ledger);
        };
        let _ = board.history(); // that it is empty
        let Ok(SeatedRing { ring, seats }) = SeatedRing::new(alloc, count) else {
            return Err(ledger);
        };
        let (board, whole) = SharedBoard::new(board, ledger);
        let team = SharedTeam {
            number,
            icv,
            limits,
            board,
            ring,
            book,
            may_be_cut: AtomicBool::new(false),
        };
        Ok(NewTeam { team, whole, seats })
    }

    /// One try of a call of a member, or of the one that its resume repeats (`repeated`). The creation of
    /// a task and a taskwait, which bring items, are asked by their operations.
    #[tactic(auto, using(crate::proofs::SeatMoves::answered_once))]
    pub(crate) fn answer<R: Wait>(
        &self,
        rt: &R,
        state: &MemberState,
        parts: &mut MemberParts<L, H, F>,
        call: &Call,
        repeated: bool,
    ) -> Reply
        requires items { AsksNoItems repeated call.now }
        requires ring { IsOnRing self.now.ring parts.old.seat }
        ensures board { parts.new.board ≡ events_part repeated call.now result parts.old.board }
        ensures held { parts.new.held ≡ holds_part repeated call.now result parts.old.held }
        ensures freed { parts.new.freed ≡ releases_part repeated call.now result parts.old.freed }
        ensures seat { AsksSeat repeated (seat_ask self.now.team.icv.cancellation repeated call.now)
            parts.old.seat result parts.new.seat }
        ensures stays { StaysSeat parts.old.seat parts.new.seat }
        ensures answers { TeamAnswers self.now.team.icv.cancellation repeated state.now.own call.now
            parts.old.seat result }
    {
        match call.served_by() {
            Server::Book => self.answer_by_book(rt, state, parts, call, repeated),
            Server::Board => self.answer_by_board(rt, state, parts, call, repeated),
            Server::Shares => self.answer_by_shares(rt, state, parts, call, repeated),
            Server::Team => self.answer_together(rt, state, parts, call, repeated),
        }
    }

    /// How the member makes a call, or repeats one.
    pub(crate) fn manner(&self, state: &MemberState, repeated: bool) -> Manner
        ensures { result ≡ made_by self.now.team.icv.cancellation repeated state.now.own }
    {
        Manner {
            repeated,
            leaving: state.leaving(),
            allowed: self.icv.cancellation(),
        }
    }

    /// Why the member's own knowledge, or what its task holds, refuses a call that the book does not
    /// answer: `Ended`, `Waiting`, `Leaving` or `HoldsCritical`. A call that is repeated was tested when it was
    /// made.
    pub(crate) fn itself_refusal<R: Wait>(
        &self,
        rt: &R,
        state: &MemberState,
        seat: &mut RingSeat,
        call: &Call,
        repeated: bool,
    ) -> Option<Refusal>
        requires aside { served_by call.now ≢ Book }
        requires ring { IsOnRing self.now.ring seat.old }
        ensures own { result ≢ Some Mismatch }
        ensures finds { FindsItself repeated state.now.own call.now seat.old result }
        ensures same { seat.new ≡ seat.old }
    {
        if repeated {
            return None;
        }
        match self.member_refusal(state, seat, call) {
            None => self.critical_refusal(rt, state, call),
            found => found,
        }
    }

    /// Why the member's own knowledge refuses a call, which takes no lock: `Ended`, `Waiting`, `Leaving`, or `NotInside` of a resume.
    #[inline(always)]
    pub(crate) fn member_refusal(
        &self,
        state: &MemberState,
        seat: &mut RingSeat,
        call: &Call,
    ) -> Option<Refusal>
        requires ring { IsOnRing self.now.ring seat.old }
        ensures own { result ≢ Some Mismatch }
        ensures refuses { (placed : Bool) ×
            LetsEndBy (end_of call.now) state.now.own.leaves_share seat.old placed ×
            (result ≡ own_refusal placed state.now.own call.now) }
        ensures same { seat.new ≡ seat.old }
    {
        let placed = self.lets_end(state, seat, call);
        state.own_refusal(call, placed)
    }

    /// Why a task that holds a critical name does not make the call: `HoldsCritical`. The book is asked, under its lock, only about a
    /// member that is in a name.
    fn critical_refusal<R: Wait>(&self, rt: &R, state: &MemberState, call: &Call) -> Option<Refusal>
        requires aside { served_by call.now ≢ Book }
        ensures own { result ≢ Some Mismatch }
        ensures named { FindsOwnOrName None state.now.own call.now result }
    {
        if !state.is_in_names() || !tests_critical(call) {
            return None;
        }
        if self.book.lock(rt).book().holds_critical(state.owner()) {
            return Some(Refusal::HoldsCritical);
        }
        None
    }

    /// Whether a member that leaves its share may end that by this call. Its seat is asked, with no lock.
    #[inline(always)]
    fn lets_end(&self, state: &MemberState, seat: &mut RingSeat, call: &Call) -> bool
        requires ring { IsOnRing self.now.ring seat.old }
        ensures lets { LetsEndBy (end_of call.now) state.now.own.leaves_share seat.old result }
        ensures same { seat.new ≡ seat.old }
    {
        if !state.leaves_share() {
            return false;
        }
        match share_end(call) {
            Some(
                ShareEnd {
                    construct,
                    end_kind,
                },
            ) => ask_end_refusal(&self.ring, seat, construct, end_kind).is_none(),
            None => false,
        }
    }

    /// Why any call of a member is refused: `Broken`, if the team is.
    pub(crate) fn any_call_refusal<R: Wait>(&self, rt: &R) -> Option<Refusal>
        ensures of_team { IsNoneOrBroken result }
    {
        let (refusal, _) = self.board_says(rt);
        refusal
    }

    /// The same, and whether the region is cancelled. As long as no member was answered that it is, or that the team is broken or
    /// stopped, the board is not asked.
    pub(crate) fn board_says<R: Wait>(&self, rt: &R) -> (Option<Refusal>, bool)
        ensures own { result.0 ≢ Some Mismatch }
        ensures of_team { IsNoneOrBroken result.0 }
    {
        if !self.may_be_cut() {
            return (None, false);
        }
        let board = self.board.lock(rt);
        match board.clash() {
            Some(clash) => (Some(Refusal::Broken(clash)), false),
            None => (None, board.is_cancelled()),
        }
    }
}

impl<L: Ledger, H: HoldLedger, F: Ledger> SharedTeam<L, H, F> {
    /// Whether some member was answered that the team is broken or stopped, or that something of it is cancelled. Such an answer of
    /// another member that comes at the same moment counts as later.
    #[inline(always)]
    pub(crate) fn may_be_cut(&self) -> bool {
        self.may_be_cut.load(Ordering::SeqCst)
    }

    /// Takes note of the reply to a call of a member, if it is such an answer.
    #[inline(always)]
    pub(crate) fn note_cut(&self, reply: &Reply) {
        if cuts(reply) {
            self.may_be_cut.store(true, Ordering::SeqCst);
        }
    }
}

/// Whether the reply says that the team is broken or stopped, or that something of it is cancelled.
#[inline(always)]
fn cuts(reply: &Reply) -> bool
    ensures { result ≡ cuts reply.now }
{
    matches!(
        reply,
        Reply::Refused(Refusal::Mismatch) | Reply::Stopped | Reply::Cancelling(true)
    )
}

impl<L: Ledger, H: HoldLedger, F: Ledger> SharedTeam<L, H, F> {
    /// What the members did with the work-shares together, once all have given up their seats, which stand in the order of their
    /// numbers: how many shares all have left, and how many iterations of loops each took, which is noted in `taken`, a number for each.
    ///
    /// There is one list of events that kept the rule of the work-shares, and of which each seat knows its member's part. Of a share that
    /// all left and none cancelled the members' pieces are its list, in some order. OpenMP API 5.2, chapter 11.
    pub fn gather(&self, seats: Vec<RingSeat>, taken: Vec<u128>) -> Gathered
        requires seats { AreAllSeats self.now.ring seats.items }
        requires taken { length taken.items ≡ length seats.items }
        ensures gathered { Gathers (ring_members self.now.ring) seats.items
            result.shares result.taken.items }
    {
        gather_in(&self.ring, seats, taken)
    }

    /// Takes the board and the ledger of its events apart once no member is left. The stored events, the
    /// oldest first, keep the laws of tasks, groups, barriers, cancellation and words. The part is the
    /// whole, so each event, discards aside, is on the board: a member's call gave it, and none was
    /// dropped. The ledger has none of them any more.
    pub fn close(self, part: Part<L>) -> (WaitBoard, EventLedger<L>)
        requires whole { part.parts ≡ L.parts }
        ensures counted { part.amount ≡ counted_events result.0.board.history }
        ensures laws { KeptLaws (team_size result.0) (reverse result.0.board.history) }
        ensures ledger { result.1 ≡ L.parts }
    {
        let SharedTeam { board, .. } = self;
        board.close(part)
    }
}

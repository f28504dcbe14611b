//! A team that one thread steps.

ghost use Rattle.std.specs.Prelude.{◌≡◌, ◌<◌, ◌↔◌, ◌⊎◌, ◌∷◌, true, List, [], IfOk, Ok, Err, None, Some, option_copied, replicate};
ghost use Rattle.gomp_types.specs.declared.call.Call.TheVariants.{LoopNext, Barrier, RegionEnd, Resume};
ghost use Rattle.std.specs.Result.{result_err};
ghost use Rattle.gomp_types.specs.declared.refusal.Refusal.{Refusal};
ghost use Rattle.gomp_types.specs.declared.refusal.Refusal.TheVariants.{BadTeam, NoMemory, Mismatch};
ghost use Rattle.gomp_types.specs.declared.reply.Reply.TheVariants.{Refused};
ghost use Rattle.gomp_events.specs.declared.event.Event.{Event};
ghost use Rattle.gomp_types.specs.Limits.{capped_limits, standard, IsTeamSize};
ghost use Rattle.gomp_types.specs.Least.{lesser, least};
ghost use Rattle.gomp_model.specs.Past.{no_waits};
ghost use Rattle.gomp_types.specs.Resumes.{call_meant};
ghost use Rattle.gomp_model.specs.Team.{Record, row_at, member_tests, wait_tests, refusal_of, MayAnswer, events};
ghost use Rattle.gomp_board.specs.Boards.{Stands as BoardStands, members_of as board_members};
ghost use Rattle.gomp_dispatch.specs.Answers.{StartsShare};
ghost use Rattle.gomp_dispatch.specs.Leaves.{leaves_nothing};
ghost use Rattle.gomp_core.specs.Stands.{Stands, IsFree, IsUnrefused, WaitsOutside, Begins, EndsDrained, open_call_of, terms_by, Keeps, past, terms_of, members_of};
ghost use Rattle.gomp_core.specs.LocksMade.{lock_kinds_of, locks_made};
ghost use Rattle.gomp_core.specs.Resolved.{resolved_call, resolved_step, step_by};

use crate::reply::team_reply;
use crate::waits::Waits;
use gomp_board::{Board, Op};
use gomp_book_calls::{book_refusal, holds_name};
use gomp_dispatch::lets::{lets_barrier, lets_next, lets_region_end};
use gomp_dispatch::{
    Leaving, Manner, call_shape, leaving_refusal, place_of, task_refusal, unless_refused,
};
use gomp_icv::Icv;
use gomp_locks::LockBook;
use gomp_shares::Shares;
use gomp_types::{Call, Limits, Place, Refusal, Reply, Shape, call_meant, is_team_size};
use std::alloc::{AllocError, Global};
use std::marker::Model;

/// A team of 1 to 64 members, numbered from 0, whose work-shares are kept by `S`.
///
/// Every value stands for some record of steps and replies (its invariant), so a team may lie
/// anywhere, and be stepped with nothing to prove. A record is the list of steps and replies, the
/// newest first (specs/Team.antt of gomp_model); what it means that a team stands for one is
/// `Stands` in specs/Stands.antt. The headline holds of each such record (proofs/Laws.antt).
#[derive(Drop)]
pub struct Team<S: Shares> {
    /// The control variables of its region.
    icv: Icv,
    /// Tasks, barriers, words, the stored events.
    board: Board,
    /// Which of its calls each member waits in, by its number.
    waits: Vec<Waits>,
    /// What each member leaves since it saw a cancellation.
    leaving: Vec<Leaving>,
    /// Critical names and locks.
    book: LockBook,
    /// Work-shares.
    shares: S,
}

impl<S: Shares> Model for Team<S> {
    ghost use Rattle.std.specs.Coded.{codes};
    ghost use Rattle.gomp_board.specs.contracts.board.Board.{the_row as board_row};
    ghost use Rattle.gomp_model.specs.Team.{Record};
    ghost use Rattle.gomp_core.specs.Stands.{TeamView, Stands};

    ghost Value = { TeamView S };

    ghost coded = { Prim.hlevel (codes, S.code, board_row.coded) };

    ghost view = { λ t. record { icv = t.icv; board = t.board; waits = t.waits.items; leaving = t.leaving.items; book = t.book; shares = t.shares } };

    ghost invariant = { λ t. (before : Record) × Stands S.stands S.members (record { icv = t.icv; board = t.board; waits = t.waits.items; leaving = t.leaving.items; book = t.book; shares = t.shares }) before };
}

impl<S: Shares> Team<S> {
    /// A new team of this many members, by these control variables, with the standard limits.
    /// Runtime schedules are those of the variables.
    ///
    /// Refused with `BadTeam` (E38) if the number is not 1 to 64, and with `NoMemory` (E37) if
    /// memory is refused.
    pub fn new(alloc: Global, count: u16, icv: Icv) -> Result<Team<S>, Refusal>
        ensures size { result ≡ Err BadTeam ↔ (IsTeamSize count → ⊥) }
        ensures refused { (refusal : Refusal) → result ≡ Err refusal →
            (refusal ≡ BadTeam) ⊎ (refusal ≡ NoMemory) }
        ensures members { IfOk result (λ team. members_of team ≡ count) }
        ensures icv { IfOk result (λ team. team.icv ≡ icv) }
        ensures limits { IfOk result (λ team. team.board.limits ≡ standard) }
        ensures stands { IfOk result (λ team. Stands S.stands S.members team []) }
    {
        Team::with_limits(alloc, count, icv, Limits::STANDARD)
    }

    /// A new team with these limits, each lowered to the standard one if it is larger.
    ///
    /// Refused as [`new`](Team::new) is.
    pub fn with_limits(
        alloc: Global,
        count: u16,
        icv: Icv,
        limits: Limits,
    ) -> Result<Team<S>, Refusal>
        ensures size { result ≡ Err BadTeam ↔ (IsTeamSize count → ⊥) }
        ensures refused { (refusal : Refusal) → result ≡ Err refusal →
            (refusal ≡ BadTeam) ⊎ (refusal ≡ NoMemory) }
        ensures members { IfOk result (λ team. members_of team ≡ count) }
        ensures icv { IfOk result (λ team. team.icv ≡ icv) }
        ensures limits { IfOk result (λ team. team.board.limits ≡ capped_limits limits) }
        ensures stands { IfOk result (λ team. Stands S.stands S.members team []) }
    {
        Team::new_checked(
            alloc,
            count,
            icv,
            limits.capped_limits(),
            LockBook::new(alloc),
        )
    }

    /// A new team with the standard limits, and with the locks of an older team ([`into_book`]),
    /// which keep their numbers. Nobody holds any of them, nor a critical name. In its record member
    /// 0 has made them, one after another, and has destroyed those that are gone (`locks_made` in
    /// specs/LocksMade.antt).
    ///
    /// Refused as [`new`](Team::new) is; then the book is dropped.
    ///
    /// [`into_book`]: Team::into_book
    pub fn with_book(
        alloc: Global,
        count: u16,
        icv: Icv,
        book: LockBook,
    ) -> Result<Team<S>, Refusal>
        ensures size { result ≡ Err BadTeam ↔ (IsTeamSize count → ⊥) }
        ensures refused { (refusal : Refusal) → result ≡ Err refusal →
            (refusal ≡ BadTeam) ⊎ (refusal ≡ NoMemory) }
        ensures members { IfOk result (λ team. members_of team ≡ count) }
        ensures icv { IfOk result (λ team. team.icv ≡ icv) }
        ensures limits { IfOk result (λ team. team.board.limits ≡ standard) }
        ensures stands { IfOk result (λ team.
            Stands S.stands S.members team (locks_made (lock_kinds_of book.locks))) }
    {
        Team::new_checked(alloc, count, icv, Limits::STANDARD, book.without_holds())
    }

    /// A new team with these limits and this book. Refused as [`new`](Team::new) is.
    fn new_checked(
        alloc: Global,
        count: u16,
        icv: Icv,
        limits: Limits,
        book: LockBook,
    ) -> Result<Team<S>, Refusal>
        requires capped { capped_limits limits ≡ limits }
        requires known { IsTeamSize count →
            (before : Record) × Begins (terms_by count limits icv) book before }
        ensures size { result ≡ Err BadTeam ↔ (IsTeamSize count → ⊥) }
        ensures refused { (refusal : Refusal) → result ≡ Err refusal →
            (refusal ≡ BadTeam) ⊎ (refusal ≡ NoMemory) }
        ensures members { IfOk result (λ team. members_of team ≡ count) }
        ensures icv { IfOk result (λ team. team.icv ≡ icv) }
        ensures limits { IfOk result (λ team. team.board.limits ≡ limits) }
        ensures stands { (before : Record) → Begins (terms_by count limits icv) book before →
            IfOk result (λ team. Stands S.stands S.members team before) }
    {
        if !is_team_size(count) {
            return Err(Refusal::BadTeam);
        }
        match Team::new_admitted(alloc, count, icv, limits, book) {
            Ok(team) => Ok(team),
            Err(_) => Err(Refusal::NoMemory),
        }
    }

    /// A new team with these limits and this book, of a size that a team may have. The error is want
    /// of memory.
    fn new_admitted(
        alloc: Global,
        count: u16,
        icv: Icv,
        limits: Limits,
        book: LockBook,
    ) -> Result<Team<S>, AllocError>
        requires size { IsTeamSize count }
        requires capped { capped_limits limits ≡ limits }
        requires known { (before : Record) × Begins (terms_by count limits icv) book before }
        ensures members { IfOk result (λ team. members_of team ≡ count) }
        ensures icv { IfOk result (λ team. team.icv ≡ icv) }
        ensures limits { IfOk result (λ team. team.board.limits ≡ limits) }
        ensures stands { (before : Record) → Begins (terms_by count limits icv) book before →
            IfOk result (λ team. Stands S.stands S.members team before) }
    {
        Ok(Team {
            icv,
            waits: none_wait(alloc, count)?,
            leaving: none_leave(alloc, count)?,
            board: Board::new(alloc, count, limits)?,
            book,
            shares: S::make(alloc, count)?,
        })
    }

    /// Answers one call of one member, numbered from 0: the definitions allow this reply after what was
    /// asked and answered before, and no other, save that at a wait any task may be executed that the
    /// member may start. [`Call`] says what each call is, [`Refusal`] when each refusal comes; after one
    /// the team is as before, save that `Mismatch` (E35) breaks it. If a `Resume` is answered `Wait`,
    /// nothing changes either.
    ///
    /// A loop whose schedule is left to the control variables counts as one with theirs: the record
    /// has it so (`resolved_step` in specs/Resolved.antt). Before and after the call the team
    /// stands for a record, as `Stands` in specs/Stands.antt says.
    ///
    /// It takes memory at the first start of a critical name, at the making of a lock, and at a call
    /// that asks for room for events (a task's creation that is not dropped, a group's start, a
    /// cancellation of the region or of a group, a barrier, the start of a construct with a barrier at
    /// its end or with words), so `NoMemory` (E37) is an answer to no other call. Which replies have a cause is `MayAnswer` in specs/Team.antt of gomp_model
    /// (OpenMP API 5.2, chapters 11, 12 and 15, section 18.9).
    pub fn step(&mut self, member: u16, call: Call) -> Reply
        ensures known { (before : Record) × Stands S.stands S.members self.old before }
        ensures size { IsTeamSize (members_of self.old) }
        ensures keeps { Keeps self.old self.new call result }
        ensures answer { (before : Record) → Stands S.stands S.members self.old before →
            MayAnswer (past self.old before)
            (resolved_step self.old.icv (step_by member call)) result }
        ensures stands { (before : Record) → Stands S.stands S.members self.old before →
            Stands S.stands S.members self.new
            ((resolved_step self.old.icv (step_by member call), result) ∷ before) }
    {
        let _ = &self.icv; // opens the invariant
        // The calls that a program makes most often, if nothing refuses them: the compiler cuts the answer
        // down to each.
        match call {
            Call::LoopNext if self.lets_next(member) => {
                self.answer_call(member, Call::LoopNext, &None)
            }
            Call::Barrier if self.lets_barrier(member) => {
                self.answer_call(member, Call::Barrier, &None)
            }
            Call::RegionEnd if self.lets_region_end(member) => {
                self.answer_call(member, Call::RegionEnd, &None)
            }
            Call::Resume if self.lets_wait_on(member) => {
                self.answer_call(member, Call::Resume, &None)
            }
            _ => self.any_step(member, call),
        }
    }

    /// The call of this member, numbered from 0, that its resume would repeat: the one that waits, if
    /// one does. None if the team has no such member.
    pub fn open_call(&self, member: u16) -> Option<&Call>
        ensures waits { option_copied result ≡ open_call_of self.now member }
        ensures stands { (before : Record) → Stands S.stands S.members self.now before →
            member < members_of self.now →
            option_copied result ≡ ((past self.now before).waits member).open_call }
    {
        match self.waits.get(member as usize) {
            Some(waits) => waits.open_call(),
            None => None,
        }
    }

    /// The reply to any call.
    #[inline(always)]
    fn any_step(&mut self, member: u16, call: Call) -> Reply
        ensures keeps { Keeps self.old self.new call result }
        ensures answer { (before : Record) → Stands S.stands S.members self.old before →
            MayAnswer (past self.old before)
            (resolved_step self.old.icv (step_by member call)) result }
        ensures stands { (before : Record) → Stands S.stands S.members self.old before →
            Stands S.stands S.members self.new
            ((resolved_step self.old.icv (step_by member call), result) ∷ before) }
    {
        let mut call = call;
        resolve_call(&self.icv, &mut call);
        self.perform(member, call)
    }

    /// The reply to a call that has the schedule which counts.
    fn perform(&mut self, member: u16, call: Call) -> Reply
        ensures keeps { Keeps self.old self.new call result }
        ensures answer { (before : Record) → Stands S.stands S.members self.old before →
            MayAnswer (past self.old before) (step_by member call) result }
        ensures stands { (before : Record) → Stands S.stands S.members self.old before →
            Stands S.stands S.members self.new ((step_by member call, result) ∷ before) }
    {
        let _ = &self.icv; // opens the invariant
        match self.admit(member, &call) {
            Ok(starts) => self.answer_call(member, call, &starts),
            Err(refusal) => match refusal {
                Refusal::Mismatch => self.break_team(member, &call),
                refusal => Reply::Refused(refusal),
            },
        }
    }

    /// The reply to a call that no test refuses, and that starts a share of this shape if it starts
    /// one.
    #[inline(always)]
    fn answer_call(&mut self, member: u16, call: Call, starts: &Option<Shape>) -> Reply
        requires admitted { (before : Record) → Stands S.stands S.members self.old before →
            refusal_of (past self.old before) (step_by member call) ≡ None }
        requires starts { (before : Record) → Stands S.stands S.members self.old before →
            StartsShare (row_at (past self.old before) (step_by member call))
            (S.seen self.old.shares member) starts.now }
        requires drained { (before : Record) → Stands S.stands S.members self.old before →
            EndsDrained S.stands self.old before (step_by member call) }
        ensures keeps { Keeps self.old self.new call result }
        ensures answer { (before : Record) → Stands S.stands S.members self.old before →
            MayAnswer (past self.old before) (step_by member call) result }
        ensures stands { (before : Record) → Stands S.stands S.members self.old before →
            Stands S.stands S.members self.new ((step_by member call, result) ∷ before) }
    {
        // Found once more: `admit` cannot lend it past its own end, since it borrows the team.
        let meant = call_meant(&call, self.waits[member as usize].open_call());
        let leaving = self.leaving[member as usize];
        let manner = Manner {
            repeated: call.is_resume(),
            leaving,
            allowed: self.icv.cancellation(),
        };
        let reply = team_reply(
            &mut self.shares,
            &mut self.board,
            &mut self.book,
            member,
            meant,
            starts,
            manner,
        );
        self.leaving[member as usize] = leaving.after(&reply, meant);
        self.waits[member as usize].note(&reply, call);
        reply
    }

    /// Whether nothing refuses the member its next chunk.
    #[inline(always)]
    fn lets_next(&self, member: u16) -> bool
        ensures { result ≡ true →
            IsUnrefused S.stands S.members self.now (step_by member LoopNext) }
    {
        let _ = &self.icv; // opens the invariant
        if !self.is_free(member) {
            return false;
        }
        let leaving = self.leaving[member as usize];
        lets_next(&self.shares, &self.board, member, leaving)
    }

    /// Whether nothing refuses the member the arrival at a barrier.
    #[inline(always)]
    fn lets_barrier(&self, member: u16) -> bool
        ensures { result ≡ true →
            IsUnrefused S.stands S.members self.now (step_by member Barrier) }
    {
        let _ = &self.icv; // opens the invariant
        if !self.is_free(member) {
            return false;
        }
        let leaving = self.leaving[member as usize];
        lets_barrier(&self.shares, &self.board, member, leaving)
    }

    /// Whether the member leaves nothing, and nothing refuses it the region's end.
    #[inline(always)]
    fn lets_region_end(&self, member: u16) -> bool
        ensures { result ≡ true →
            IsUnrefused S.stands S.members self.now (step_by member RegionEnd) }
    {
        let _ = &self.icv; // opens the invariant
        if !self.is_free(member) {
            return false;
        }
        let leaving = self.leaving[member as usize];
        lets_region_end(&self.shares, &self.board, member, leaving)
    }

    /// Whether the member waits at a barrier or at the region's end, and nothing refuses it to wait on.
    #[inline(always)]
    fn lets_wait_on(&self, member: u16) -> bool
        ensures unrefused { result ≡ true →
            IsUnrefused S.stands S.members self.now (step_by member Resume) }
        ensures waits { result ≡ true →
            (before : Record) → Stands S.stands S.members self.now before →
            WaitsOutside ((past self.now before).waits member).open_call }
    {
        let _ = &self.icv; // opens the invariant
        if member as usize >= self.waits.len() {
            return false;
        }
        match self.waits[member as usize].open_call() {
            Some(Call::Barrier) => member_refusal(&self.board, member).is_none(),
            Some(Call::RegionEnd) => member_refusal(&self.board, member).is_none(),
            _ => false,
        }
    }

    /// Whether the member may make a call on the shares or at a barrier, for all that is not asked of
    /// its place: it is one of the team, in the region, and waits nowhere; the team is whole, and the task
    /// that it executes holds no critical name.
    #[inline(always)]
    fn is_free(&self, member: u16) -> bool
        ensures member { result ≡ true → member < members_of self.now }
        ensures free { result ≡ true →
            (before : Record) → Stands S.stands S.members self.now before →
            IsFree member (past self.now before) }
    {
        let _ = &self.icv; // opens the invariant
        if member as usize >= self.waits.len() {
            return false;
        }
        if self.waits[member as usize].open_call().is_some() {
            return false;
        }
        if member_refusal(&self.board, member).is_some() {
            return false;
        }
        !holds_name(&self.book, member, self.board.current(member))
    }

    /// Breaks the team: the member's call is another than other members'.
    #[cold]
    fn break_team(&mut self, member: u16, call: &Call) -> Reply
        requires differs { (before : Record) → Stands S.stands S.members self.old before →
            refusal_of (past self.old before) (step_by member call.now) ≡ Some Mismatch }
        ensures refused { result ≡ Refused Mismatch }
        ensures keeps { Keeps self.old self.new call.now result }
        ensures stands { (before : Record) → Stands S.stands S.members self.old before →
            Stands S.stands S.members self.new ((step_by member call.now, result) ∷ before) }
    {
        let place = self.place(member, call);
        // The board asks once more whether the member has left and the team is whole: it breaks no team
        // that has ended, whoever asks.
        self.board.step(member, &Op::Break { place, back: 0 })
    }

    /// The shape of the share that the step starts, if it starts one; or why it is refused: of its
    /// tests that hold the refusal with the least number.
    fn admit(&mut self, member: u16, call: &Call) -> Result<Option<Shape>, Refusal>
        ensures kept { self.new ≡ self.old }
        ensures least { (before : Record) → Stands S.stands S.members self.old before →
            result_err result ≡ refusal_of (past self.old before) (step_by member call.now) }
        ensures starts { (before : Record) → Stands S.stands S.members self.old before →
            IfOk result (StartsShare (row_at (past self.old before) (step_by member call.now))
            (S.seen self.old.shares member)) }
        ensures drained { (before : Record) → Stands S.stands S.members self.old before →
            IfOk result (λ starts. EndsDrained S.stands self.old before (step_by member call.now)) }
    {
        if member as usize >= self.waits.len() {
            return Err(Refusal::BadMember);
        }
        let waiting = self.waits[member as usize].open_call();
        let meant = call_meant(call, waiting);
        let repeated = call.is_resume();
        let leaving = self.leaving[member as usize];
        let by_member = team_refusal(&self.board, member, call, waiting);
        let by_leaving = leaving_refusal(&self.shares, member, meant, repeated, leaving);
        let by_tasks = task_refusal(&self.board, member, meant, repeated, leaving);
        let task = self.board.current(member);
        let by_book = book_refusal(&self.book, member, task, meant, repeated);
        let limits = self.board.limits();
        let by_place = call_shape(
            &mut self.shares,
            self.board.barriers(),
            &limits,
            member,
            meant,
            repeated,
            leaving,
        );
        unless_any_refused(by_member, by_leaving, by_tasks, by_book, by_place)
    }

    /// Where the team breaks if the call, or the one that it repeats, is another than other
    /// members'.
    fn place(&self, member: u16, call: &Call) -> Place
        requires member { member < members_of self.now }
        ensures { (before : Record) → Stands S.stands S.members self.now before →
            result ≡ (row_at (past self.now before) (step_by member call.now)).place
            member (events (terms_of self.now) before) }
    {
        // Looked for only once a test has found that the team breaks, which tells no place.
        let waiting = self.waits[member as usize].open_call();
        place_of(
            &self.shares,
            self.board.barriers(),
            member,
            call_meant(call, waiting),
        )
    }
}

impl<S: Shares + Drop> Team<S> {
    /// The names and locks of the team, which is dropped, as they are held then.
    pub fn into_book(self) -> LockBook
        ensures { result ≡ self.book }
    {
        self.book
    }
}

/// No member of `count` waits.
fn none_wait(alloc: Global, count: u16) -> Result<Vec<Waits>, AllocError>
    ensures { IfOk result (λ waits. waits.items ≡ replicate count no_waits) }
{
    let mut waits = Vec::with_capacity(alloc, count as usize)?;
    for _ in 0..count {
        waits.push_reserved(Waits::new(alloc)?);
    }
    Ok(waits)
}

/// No member of `count` leaves anything.
fn none_leave(alloc: Global, count: u16) -> Result<Vec<Leaving>, AllocError>
    ensures { IfOk result (λ leaving. leaving.items ≡ replicate count leaves_nothing) }
{
    let mut leaving = Vec::with_capacity(alloc, count as usize)?;
    for _ in 0..count {
        leaving.push_reserved(Leaving::NONE);
    }
    Ok(leaving)
}

/// The share that a call is admitted to by its place, unless it is refused; then the least by number of
/// what refuses it. Most calls are refused by nothing.
fn unless_any_refused(
    by_member: Option<Refusal>,
    by_leaving: Option<Refusal>,
    by_tasks: Option<Refusal>,
    by_book: Option<Refusal>,
    by_place: Result<Option<Shape>, Refusal>,
) -> Result<Option<Shape>, Refusal>
    ensures least { result_err result ≡ lesser by_member
        (lesser (lesser (lesser by_leaving (result_err by_place)) by_tasks) by_book) }
    ensures admitted { IfOk result (λ starts. by_place ≡ Ok starts) }
{
    if by_member.is_none() && by_leaving.is_none() && by_tasks.is_none() && by_book.is_none() {
        return by_place;
    }
    let by_own = unless_refused(by_leaving, by_place);
    let by_parts = unless_also(by_own, by_tasks);
    unless_refused(by_member, unless_also(by_parts, by_book))
}

/// The share that a call is admitted to; or the lesser by number of the refusals, if there is one or
/// both.
fn unless_also(
    admitted: Result<Option<Shape>, Refusal>,
    refusal: Option<Refusal>,
) -> Result<Option<Shape>, Refusal>
    ensures least { result_err result ≡ lesser (result_err admitted) refusal }
    ensures admitted { IfOk result (λ starts. admitted ≡ Ok starts) }
{
    match (admitted, refusal) {
        (admitted, None) => admitted,
        (Ok(_), Some(refusal)) => Err(refusal),
        (Err(one), Some(other)) => unless_refused(Some(one), Err(other)),
    }
}

/// Why the team does not answer this call of its member, whatever its construct: `Ended`, `Broken`,
/// or `Waiting`.
fn team_refusal(board: &Board, member: u16, call: &Call, waiting: Option<&Call>) -> Option<Refusal>
    requires member { member < board_members board.now }
    ensures { (h : List Event) → BoardStands board.now h →
        result ≡ lesser (least (member_tests (board_members board.now) member h))
        (least (wait_tests call.now (option_copied waiting.entry))) }
{
    match member_refusal(board, member) {
        Some(refusal) => Some(refusal),
        None => wait_refusal(call, waiting),
    }
}

/// Why no call of this member of the team is answered: it has passed the region's end, or the team
/// is broken.
fn member_refusal(board: &Board, member: u16) -> Option<Refusal>
    requires member { member < board_members board.now }
    ensures { (h : List Event) → BoardStands board.now h →
        result ≡ least (member_tests (board_members board.now) member h) }
{
    if board.barriers().has_left(member) {
        return Some(Refusal::Ended);
    }
    match board.clash() {
        Some(clash) => Some(Refusal::Broken(clash)),
        None => None,
    }
}

/// Why a member that waits may not make this call: only a resume and a stop are answered then.
fn wait_refusal(call: &Call, waiting: Option<&Call>) -> Option<Refusal>
    ensures { result ≡ least (wait_tests call.now (option_copied waiting.entry)) }
{
    match call {
        Call::Resume | Call::Stop => None,
        _ if waiting.is_some() => Some(Refusal::Waiting),
        _ => None,
    }
}

/// Gives a call the schedule of these control variables, if it is the start of a loop that leaves its
/// schedule to them.
fn resolve_call(icv: &Icv, call: &mut Call)
    ensures { call.new ≡ resolved_call icv.now call.old }
{
    if let Call::LoopStart(desc) = call {
        *desc = desc.resolved_loop(icv.sched(), icv.chunk());
    }
}

//! The work-shares of a team, whatever body they have: the trait that the layers above ask, what its
//! calls mean, and the laws that follow from their rule alone.
//!
//! A share is a loop, a sections construct or a `single`. Each section counts as an iteration, from
//! 0 on, and a `single` as one.
//!
//! The meaning of [`Shares`] is stated over the list of events that its calls gave, and names
//! nothing of how they are kept; `gomp_share_plain` and `gomp_share_ring` are bodies. OpenMP API 5.2,
//! chapter 11.
#![tactic(auto)]

pub mod admission;
pub mod calls;
pub mod cancels;
pub mod ends;
mod places;

ghost use Rattle.std.specs.Prelude.{◌≡◌, ◌<◌, ℕ, List, [], ◌∷◌, IfOk, Some, true, false};
ghost use Rattle.gomp_events.specs.declared.event.Event.{Event};
ghost use Rattle.gomp_events.specs.Laws.{Always};
ghost use Rattle.gomp_shares.specs.Rules.{ShareRule};
ghost use Rattle.gomp_types.specs.Deals.{schedule};
ghost use Rattle.gomp_types.specs.declared.shape.Shape.{Shape};
ghost use Rattle.gomp_types.specs.Values.{IsShape};
ghost use Rattle.gomp_types.specs.Limits.{IsTeamSize};
ghost use Rattle.gomp_events.specs.Events.{shares_entered, open_share, shape_at};
ghost use Rattle.gomp_events.specs.Cancels.{own_cancelled};
ghost use Rattle.gomp_types.specs.Compare.{shape_differs};
ghost use Rattle.gomp_events.specs.Seen.{seen_of};
ghost use Rattle.gomp_shares.specs.Calls.{was_taken, IsSingleAt, CanOpen, MayOpen, events_opened, CanClaim, Claims, events_claimed, CanLeave, events_left, CanCancel, events_cancelled, CanSee, events_seen, CanBeginPart, CanEndPart, CanHandOn, own_turn, part_begun, part_ended, piece_handed, IsNoShareEvent, EachStands};
ghost use Rattle.gomp_events.specs.declared.seen.Seen.{Seen};
ghost use Rattle.gomp_shares.specs.declared.Opening.TheVariants.{Entered};

pub use admission::Construct;
pub use calls::{ShareAnswer, ShareCall, ShareStep, make_call, make_calls};
use gomp_events::Seen;
use gomp_types::Shape;
pub use places::Places;
use std::alloc::{AllocError, Global};

/// The answer to a member that opens its next share.
#[derive(Clone, Copy, Debug, PartialEq, Eq)]
pub enum Opening {
    /// The member is in the share.
    Entered,
    /// There is no room yet: some member has not left the share eight before.
    NotYet,
    /// The share of this number is of another shape.
    Differs,
}

/// The work-shares of one team. Members are numbered from 0, and each member's shares from 0 in
/// the order in which it enters them.
///
/// Every value stands for some list of events, the newest first: each call says what it answers
/// after such a list, and what list its value then stands for. A call's premise on the member is
/// what [`look`](Shares::look) shows.
pub trait Shares: Sized {
    /// How many members the team has.
    ghost members: { Self → ℕ };

    /// What a member sees of its place.
    ghost seen: { Self → ℕ → Seen };

    /// The shares are as these events leave them.
    ghost stands: { Self → List Event → Type 0 };

    /// The shares of a new team of 1 to 64 members. Only this call takes memory.
    fn make(alloc: Global, count: u16) -> Result<Self, AllocError>
        requires team { IsTeamSize count }
        ensures members { IfOk result (λ shares. members shares ≡ count) }
        ensures stands { IfOk result (λ shares. stands shares []) };

    /// What the member sees of its place.
    fn look(&self, member: u16) -> Seen
        requires member { member < members self.now }
        ensures known { (h : List Event) × stands self.now h }
        ensures value { result ≡ seen self.now member };

    /// Whether the share that this member enters next is of another shape, by those that entered it.
    /// Nothing changes.
    fn next_differs(&mut self, member: u16, shape: &Shape) -> bool
        requires member { member < members self.old }
        ensures known { (h : List Event) × stands self.old h }
        ensures answer { EachStands (stands self.old) (λ h.
            result ≡ shape_differs shape.now (shape_at (shares_entered member h) h)) }
        ensures kept { self.new ≡ self.old };

    /// Whether some member took a piece of the share that this member enters next, which is a
    /// `single` if some member entered it. Nothing changes.
    fn next_is_taken(&mut self, member: u16) -> bool
        requires member { member < members self.old }
        requires single { EachStands (stands self.old) (λ h.
            IsSingleAt (shares_entered member h) h) }
        ensures known { (h : List Event) × stands self.old h }
        ensures answer { EachStands (stands self.old) (λ h.
            result ≡ was_taken (shares_entered member h) h) }
        ensures kept { self.new ≡ self.old };

    /// Enters the member's next share, which is opened if no other member has. If it does not,
    /// nothing changes.
    ///
    /// `shape` is that of a construct that is not refused (`LoopDesc::shape`, `sections_shape`,
    /// `single_shape`). The member is in no share, and has entered fewer than 2^48.
    fn try_open(&mut self, member: u16, shape: &Shape) -> Opening
        requires place { CanOpen (members self.old) member shape.now (seen self.old member) }
        ensures members { members self.new ≡ members self.old }
        ensures known { (h : List Event) × stands self.old h }
        ensures answer { EachStands (stands self.old)
            (MayOpen (members self.old) member shape.now result) }
        ensures stands { EachStands (stands self.old) (λ h.
            stands self.new (events_opened member shape.now result h)) }
        ensures kept { (result ≡ Entered → ⊥) → self.new ≡ self.old };

    /// Takes the next piece of the member's share that is its to take: its first iteration and the
    /// one after its last. None if nothing is left for the member.
    ///
    /// The member is in a share, in no ordered part, and was not told that nothing is left.
    fn claim(&mut self, member: u16) -> Option<(u64, u64)>
        requires place { CanClaim (members self.old) member (seen self.old member) }
        ensures members { members self.new ≡ members self.old }
        ensures known { (h : List Event) × stands self.old h }
        ensures answer { EachStands (stands self.old) (Claims (members self.old) member result) }
        ensures stands { EachStands (stands self.old) (λ h.
            stands self.new (events_claimed member result h)) };

    /// Begins the ordered part of this iteration of the member's piece, if every piece before its
    /// own was handed on, and its own was not: whether it did. If it did not, nothing changes.
    ///
    /// The iteration lies in the member's piece, after those whose parts it has begun; the member
    /// is in an ordered loop, and in no part of it.
    fn try_turn(&mut self, member: u16, iteration: u64) -> bool
        requires place { CanBeginPart (members self.old) member iteration (seen self.old member) }
        ensures members { members self.new ≡ members self.old }
        ensures known { (h : List Event) × stands self.old h }
        ensures answer { EachStands (stands self.old) (λ h.
            result ≡ own_turn (members self.old) member h) }
        ensures stands { EachStands (stands self.old) (λ h.
            stands self.new (part_begun member iteration result h)) }
        ensures kept { result ≡ false → self.new ≡ self.old };

    /// Ends the member's ordered part, in which it is.
    fn end_part(&mut self, member: u16)
        requires place { CanEndPart (members self.old) member (seen self.old member) }
        ensures members { members self.new ≡ members self.old }
        ensures known { (h : List Event) × stands self.old h }
        ensures stands { EachStands (stands self.old) (λ h.
            stands self.new (part_ended member h)) };

    /// Hands the member's piece of an ordered loop on, if every piece before it was, and it was not:
    /// whether it did. If it did not, nothing changes.
    ///
    /// The member is in an ordered loop, and in no part of it.
    fn hand_on(&mut self, member: u16) -> bool
        requires place { CanHandOn (members self.old) member (seen self.old member) }
        ensures members { members self.new ≡ members self.old }
        ensures known { (h : List Event) × stands self.old h }
        ensures answer { EachStands (stands self.old) (λ h.
            result ≡ own_turn (members self.old) member h) }
        ensures stands { EachStands (stands self.old) (λ h.
            stands self.new (piece_handed (members self.old) member result h)) }
        ensures kept { result ≡ false → self.new ≡ self.old };

    /// Leaves the member's share. Nothing is left of it for the member, which was told so, or took
    /// the one piece of a `single`; or the member has seen that the share is cancelled.
    ///
    /// The member is in no ordered part.
    fn leave(&mut self, member: u16)
        requires place { CanLeave (members self.old) member (seen self.old member) }
        ensures members { members self.new ≡ members self.old }
        ensures known { (h : List Event) × stands self.old h }
        ensures stands { EachStands (stands self.old)
            (λ h. stands self.new (events_left member h)) };

    /// Cancels the share that the member is in, whose end kind lets it be cancelled (OpenMP API 5.2,
    /// section 16.1). It may be cancelled already.
    fn cancel(&mut self, member: u16)
        requires place { CanCancel (members self.old) member (seen self.old member) }
        ensures members { members self.new ≡ members self.old }
        ensures known { (h : List Event) × stands self.old h }
        ensures stands { EachStands (stands self.old) (λ h.
            stands self.new (events_cancelled member h)) };

    /// Whether the share that the member is in was cancelled; false outside of every share. Nothing
    /// changes.
    fn cancelled(&mut self, member: u16) -> bool
        requires member { member < members self.old }
        ensures known { (h : List Event) × stands self.old h }
        ensures answer { EachStands (stands self.old) (λ h. result ≡ own_cancelled member h) }
        ensures kept { self.new ≡ self.old };

    /// The member sees that the loop or sections construct that it is in is cancelled, and from then
    /// on it may leave that (OpenMP API 5.2, section 16.1).
    fn see(&mut self, member: u16)
        requires place { CanSee (members self.old) member (seen self.old member) }
        requires cancelled { EachStands (stands self.old) (λ h. own_cancelled member h ≡ true) }
        ensures members { members self.new ≡ members self.old }
        ensures known { (h : List Event) × stands self.old h }
        ensures stands { EachStands (stands self.old) (λ h.
            stands self.new (events_seen member h)) };

    /// Arrivals, payloads and the like change nothing.
    ghost aside: { (s : Self) (h : List Event) (event : Event) →
        IsNoShareEvent event → stands s h → stands s (event ∷ h) };

    /// A member sees of its place what the events say.
    ghost agrees: { (s : Self) (h : List Event) (m : ℕ) →
        stands s h → m < members s → seen s m ≡ seen_of m h };

    /// The shape of a share that a member is in is one that a construct has.
    ghost valid: { (s : Self) (h : List Event) (m i : ℕ) (shape : Shape) →
        stands s h → open_share m h ≡ Some (i, shape) → IsShape shape };

    /// Each event keeps the rule of the work-shares.
    ghost ruled: { (s : Self) (h : List Event) →
        stands s h → Always (ShareRule (schedule (members s)) (members s)) h };
}

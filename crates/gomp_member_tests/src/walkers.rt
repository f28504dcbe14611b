//! The members of a test, each with its parts of the ledgers.

ghost use Rattle.std.specs.Prelude.{ℕ, ◌≡◌, ◌+◌, ◌≤◌, All, IfSome, [], vec_capacity, vec_len};
ghost use Rattle.atomic_table.specs.Seated.{TableId};
ghost use Rattle.gomp_team_region.specs.Regions.{HasOneOfEach, seats_of};
ghost use Rattle.gomp_member_tests.specs.Seats.{HasOwnSeat, HaveSeatsFrom};

use gomp_ompt::Counts;
use gomp_team::Member;
use gomp_team_book::HoldLedger;
use gomp_types::{Call, CancelKind, EndKind, LoopDesc, Reply};
use std::marker::{Brand, PhantomData};
use std::sync::Wait;
use std::sync::ledger::Ledger;

/// A member with a tool that counts.
pub(crate) type CountedMember<L, H, F> = Member<L, H, F, Counts>;

/// The ring of the work-shares of the members' team.
pub(crate) trait TeamRing: Send + Sync {
    /// Its table.
    ghost table: { TableId };

    /// How many members it has.
    ghost members: { ℕ };
}

impl TeamRing for Brand {
    ghost table = { record { words = 0; slots = 0; views_name = 0; atom = 0; block = 0; offset = 0; slot_names = [] } };

    ghost members = { 0 };
}

/// A call that a member's seat answers alone.
#[derive(Clone, Copy)]
pub(crate) enum SeatAsk {
    /// `claim_next`.
    Next,
    /// `sections_next`.
    Section,
    /// `loop_end_nowait`.
    LoopEnd,
    /// `sections_end_nowait`.
    SectionsEnd,
    /// `cancel_share`.
    Cancel,
    /// `point_share`.
    Point,
}

/// A call that does all or nothing.
#[derive(Clone, Copy)]
pub(crate) enum AloneAsk {
    /// `loop_start_alone`.
    Loop(LoopDesc),
    /// `sections_start_alone`.
    Sections(u32, EndKind),
    /// `single_start_alone`.
    Single,
    /// `claim_section`, if it may.
    Section,
    /// `ordered_next_alone`.
    Next,
    /// `loop_end_alone`.
    LoopEnd,
    /// `sections_end_alone`.
    SectionsEnd,
    /// `ordered_start_alone`.
    PartStart(i64),
    /// `ordered_end_alone`.
    PartEnd,
}

/// A member of a test. Whatever it is answered, it has the one part of each ledger and the seat that it was made with.
#[derive(Drop)]
pub(crate) struct TestMember<L: Ledger, H: HoldLedger, F: Ledger, S: TeamRing> {
    /// The member.
    member: CountedMember<L, H, F>,
    /// Its number.
    number: u16,
    /// Its team's ring.
    ring: PhantomData<S>,
    ghost one_of_each: { HasOneOfEach member },
    ghost own_seat: { HasOwnSeat S.table S.members number member.seat },
}

impl<L: Ledger, H: HoldLedger, F: Ledger, S: TeamRing> TestMember<L, H, F, S> {
    /// [`Member::call`].
    #[tactic(auto, using(crate::proofs::KeepsParts::whole_call_keeps_one_of_each, crate::proofs::OwnSeats::whole_call_keeps_own_seat))]
    pub(crate) fn call<R: Wait>(&mut self, rt: &R, call: Call) -> Reply {
        self.member.call(rt, call)
    }

    /// [`Member::resume`].
    pub(crate) fn resume<R: Wait>(&mut self, rt: &R) -> Reply {
        self.member.resume(rt)
    }

    /// [`Member::try_call`].
    #[tactic(auto, using(crate::proofs::KeepsParts::call_keeps_one_of_each, crate::proofs::OwnSeats::call_keeps_own_seat))]
    pub(crate) fn try_call<R: Wait>(&mut self, rt: &R, call: Call) -> Reply {
        self.member.try_call(rt, call)
    }

    /// [`Member::try_resume`].
    pub(crate) fn try_resume<R: Wait>(&mut self, rt: &R) -> Reply {
        self.member.try_resume(rt)
    }

    /// A call that its seat answers alone, by its name: a loop's is meant where it cancels a share, or asks whether that is cancelled.
    #[tactic(auto, using(crate::proofs::KeepsParts::call_keeps_one_of_each, crate::proofs::OwnSeats::call_keeps_own_seat))]
    pub(crate) fn ask_seat(&mut self, ask: SeatAsk) -> Reply {
        match ask {
            SeatAsk::Next => self.member.claim_next(),
            SeatAsk::Section => self.member.sections_next(),
            SeatAsk::LoopEnd => self.member.loop_end_nowait(),
            SeatAsk::SectionsEnd => self.member.sections_end_nowait(),
            SeatAsk::Cancel => self.member.cancel_share(CancelKind::Loop),
            SeatAsk::Point => self.member.point_share(CancelKind::Loop),
        }
    }

    /// [`Member::loop_start`].
    #[tactic(auto, using(crate::proofs::KeepsParts::whole_call_keeps_one_of_each, crate::proofs::OwnSeats::whole_call_keeps_own_seat))]
    pub(crate) fn loop_start<R: Wait>(&mut self, rt: &R, desc: LoopDesc) -> Reply {
        self.member.loop_start(rt, desc)
    }

    /// A call that does all or nothing; `Wait` stands for nothing.
    #[tactic(auto, using(crate::proofs::KeepsParts::call_keeps_one_of_each, crate::proofs::OwnSeats::call_keeps_own_seat))]
    pub(crate) fn ask_all_or_nothing(&mut self, ask: AloneAsk) -> Reply {
        match ask {
            AloneAsk::Loop(desc) => match self.member.loop_start_alone(desc) {
                Some(chunk) => chunk.into_reply(),
                None => Reply::Wait,
            },
            AloneAsk::Sections(count, end_kind) => match self
                .member
                .sections_start_alone(count, end_kind)
            {
                Some(number) => Reply::Section(number),
                None => Reply::Wait,
            },
            AloneAsk::Single => match self.member.single_start_alone() {
                Some(executes) => Reply::Executor(executes),
                None => Reply::Wait,
            },
            AloneAsk::Section if self.member.may_claim_section() => {
                Reply::Section(self.member.claim_section())
            }
            AloneAsk::Section => Reply::Wait,
            AloneAsk::Next => match self.member.ordered_next_alone() {
                Some(chunk) => chunk.into_reply(),
                None => Reply::Wait,
            },
            AloneAsk::LoopEnd => done_or_not(self.member.loop_end_alone()),
            AloneAsk::SectionsEnd => done_or_not(self.member.sections_end_alone()),
            AloneAsk::PartStart(value) => done_or_not(self.member.ordered_start_alone(value)),
            AloneAsk::PartEnd => done_or_not(self.member.ordered_end_alone()),
        }
    }
}

/// What a call that is done at once, or not at all, is answered.
fn done_or_not(done: bool) -> Reply {
    if done { Reply::Finished } else { Reply::Wait }
}

/// These members, each to go its way, behind those that lie in `walkers`, where there is room for them. It
/// is as deep as there are members.
pub(crate) fn walkers_of<L: Ledger, H: HoldLedger, F: Ledger, S: TeamRing>(
    mut members: Vec<CountedMember<L, H, F>>,
    walkers: Vec<TestMember<L, H, F, S>>,
) -> Vec<TestMember<L, H, F, S>>
    requires parts { All HasOneOfEach members.items }
    requires seats { HaveSeatsFrom S.table S.members 0 (seats_of members.items) }
    requires few { vec_len members ≤ 64 }
    requires room { vec_len walkers + vec_len members ≤ vec_capacity walkers }
    ensures len { vec_len result ≡ vec_len walkers + vec_len members }
    ensures room { vec_capacity result ≡ vec_capacity walkers }
{
    let Some(member) = members.pop() else {
        return walkers;
    };
    let number = members.len() as u16;
    let mut walkers = walkers_of(members, walkers);
    walkers.push_reserved(TestMember {
        member,
        number,
        ring: PhantomData,
    });
    walkers
}

/// The members that have gone their ways, in `members`, where nothing lies yet and there is room for them. It is as deep as there are
/// members. None if one has not the number of its place: it never has another.
pub(crate) fn members_back<L: Ledger, H: HoldLedger, F: Ledger, S: TeamRing>(
    mut walkers: Vec<TestMember<L, H, F, S>>,
    members: Vec<CountedMember<L, H, F>>,
) -> Option<Vec<CountedMember<L, H, F>>>
    requires none { members.items ≡ [] }
    requires room { vec_len walkers ≤ vec_capacity members }
    ensures parts { IfSome result (λ back. All HasOneOfEach back.items) }
    ensures seats { IfSome result (λ back.
        HaveSeatsFrom S.table S.members 0 (seats_of back.items)) }
    ensures len { IfSome result (λ back. vec_len back ≡ vec_len walkers) }
    ensures room { IfSome result (λ back. vec_capacity back ≡ vec_capacity members) }
{
    let Some(walker) = walkers.pop() else {
        return Some(members);
    };
    let place = walkers.len();
    let mut members = members_back(walkers, members)?;
    let TestMember { member, number, .. } = walker;
    if number as usize != place {
        return None;
    }
    members.push_reserved(member);
    Some(members)
}

//! The calls of one member's seat as values: a test may make any call at any time, so each comes with the tests that it asks for.

ghost use Rattle.std.specs.Prelude.{◌≡◌, None};
ghost use Rattle.gomp_shares.specs.Calls.{CanLeave};
ghost use Rattle.gomp_ring.specs.RingSeats.{IsOnRing};
ghost use Rattle.gomp_seat_calls.specs.Stays.{StaysSeat};

use gomp_ring::{Ring, RingSeat};
use gomp_seat_calls::{
    ask_end_refusal, awaits_payload, call_inside, call_inside_refusal, cancel_share, claim_next,
    compared_shape, end_refusal, leave_share, loop_end_nowait, loop_next, ordered_end,
    ordered_start, point_share, sections_end_nowait, sections_next, single_copy_end_refusal,
    start_admitted, start_shape,
};
use gomp_shares::Construct;
use gomp_team_shares::{InsideCall, ShareStart};
use gomp_types::{EndKind, Limits, Refusal, Reply};

/// What a member asks for.
#[derive(Clone, Copy)]
pub(crate) enum Ask {
    /// It compares the construct with the team's, and starts it.
    Start(ShareStart),
    /// It starts the construct as its own place lets it, and does not compare before.
    StartAtOnce(ShareStart),
    /// It starts the construct in a team whose members may start so many shares each.
    StartOfFew(ShareStart, u32),
    /// The next chunk of its loop, by the call for loops that are not ordered; if its loop is, by the call for all.
    Claim,
    /// A call on the share that it is in. Members of even numbers make it by its own function, the others as a value.
    Inside(InsideCall),
    /// It ends its loop or sections for this end kind, and has left it then.
    End(Construct, EndKind),
    /// It puts the words of a `single`, and has left that then.
    Put,
    /// It takes the words of a `single`, and has left that then. If it waits for none, the answer is that of `Put`.
    Take,
}

/// What a member was answered.
#[derive(Drop)]
pub(crate) struct Heard {
    pub(crate) reply: Reply,
    /// Whether the calls that only look foretold it and changed nothing, and whether a refused call changed nothing.
    pub(crate) is_steady: bool,
}

/// The limits of a team whose members may start so many shares each.
fn limits_of(shares: u32) -> Limits {
    Limits {
        shares,
        ..Limits::STANDARD
    }
}

/// The member compares the construct with the team's, and starts it.
fn start(ring: &Ring, seat: &mut RingSeat, start: &ShareStart, limits: &Limits) -> Reply
    requires ring { IsOnRing ring.now seat.old }
    ensures stays { StaysSeat seat.old seat.new }
{
    match compared_shape(ring, seat, start, limits) {
        Ok(shape) => start_admitted(ring, seat, start, &shape),
        Err(refusal) => Reply::Refused(refusal),
    }
}

/// It starts the construct as its own place lets it.
fn start_at_once(ring: &Ring, seat: &mut RingSeat, start: &ShareStart) -> Reply
    requires ring { IsOnRing ring.now seat.old }
    ensures stays { StaysSeat seat.old seat.new }
{
    match start_shape(seat, start, &Limits::STANDARD) {
        Ok(shape) => start_admitted(ring, seat, start, &shape),
        Err(refusal) => Reply::Refused(refusal),
    }
}

/// It asks for the next chunk of its loop.
fn claim(ring: &Ring, seat: &mut RingSeat) -> Reply
    requires ring { IsOnRing ring.now seat.old }
    ensures stays { StaysSeat seat.old seat.new }
{
    match seat.current() {
        Some((_, shape)) if shape.ordered => loop_next(ring, seat),
        _ => claim_next(ring, seat),
    }
}

/// It makes the call on the share that it is in, by its own function.
fn call_itself(ring: &Ring, seat: &mut RingSeat, call: &InsideCall) -> Reply
    requires ring { IsOnRing ring.now seat.old }
    ensures stays { StaysSeat seat.old seat.new }
{
    match call {
        InsideCall::Cancel {
            construct,
            clause,
            allowed,
        } if *clause => cancel_share(ring, seat, *construct, *allowed),
        InsideCall::Cancel {
            construct,
            allowed,
            ..
        } => point_share(ring, seat, *construct, *allowed),
        InsideCall::BeginPart(value) => ordered_start(ring, seat, *value),
        InsideCall::EndPart => ordered_end(ring, seat),
        InsideCall::Next(Construct::Loop) => loop_next(ring, seat),
        InsideCall::Next(Construct::Sections) => sections_next(ring, seat),
        InsideCall::EndNowait(Construct::Loop) => loop_end_nowait(ring, seat),
        InsideCall::EndNowait(Construct::Sections) => sections_end_nowait(ring, seat),
    }
}

/// It leaves its share, if this refusal is none.
fn leave_unless(ring: &Ring, seat: &mut RingSeat, refusal: Option<Refusal>) -> Reply
    requires ring { IsOnRing ring.now seat.old }
    requires place { refusal ≡ None → CanLeave seat.old.members seat.old.member seat.old.seen }
    ensures stays { StaysSeat seat.old seat.new }
{
    match refusal {
        Some(refusal) => Reply::Refused(refusal),
        None => {
            leave_share(ring, seat);
            Reply::Finished
        }
    }
}

/// Why it takes no words: it waits for none.
fn take_refusal(seat: &RingSeat) -> Option<Refusal>
    ensures place { result ≡ None → CanLeave seat.now.members seat.now.member seat.now.seen }
{
    if awaits_payload(seat) {
        None
    } else {
        Some(Refusal::NotInside)
    }
}

/// The member of this seat asks for this.
pub(crate) fn answer(ring: &Ring, seat: &mut RingSeat, ask: &Ask) -> Reply
    requires ring { IsOnRing ring.now seat.old }
    ensures stays { StaysSeat seat.old seat.new }
{
    match ask {
        Ask::Start(construct) => start(ring, seat, construct, &Limits::STANDARD),
        Ask::StartAtOnce(construct) => start_at_once(ring, seat, construct),
        Ask::StartOfFew(construct, shares) => start(ring, seat, construct, &limits_of(*shares)),
        Ask::Claim => claim(ring, seat),
        Ask::Inside(call) if seat.member() % 2 == 0 => call_itself(ring, seat, call),
        Ask::Inside(call) => call_inside(ring, seat, call),
        Ask::End(construct, end_kind) => {
            let refusal = end_refusal(ring, seat, *construct, *end_kind);
            leave_unless(ring, seat, refusal)
        }
        Ask::Put => {
            let refusal = single_copy_end_refusal(seat);
            leave_unless(ring, seat, refusal)
        }
        Ask::Take => {
            let refusal = take_refusal(seat);
            leave_unless(ring, seat, refusal)
        }
    }
}

/// Why the member would be refused, by the calls that only look.
fn refusal_of(ring: &Ring, seat: &mut RingSeat, ask: &Ask) -> Option<Refusal>
    requires ring { IsOnRing ring.now seat.old }
    ensures same { seat.new ≡ seat.old }
{
    match ask {
        Ask::Start(construct) | Ask::StartAtOnce(construct) => {
            compared_shape(ring, seat, construct, &Limits::STANDARD).err()
        }
        Ask::StartOfFew(construct, shares) => {
            compared_shape(ring, seat, construct, &limits_of(*shares)).err()
        }
        Ask::Claim => call_inside_refusal(ring, seat, &InsideCall::Next(Construct::Loop)),
        Ask::Inside(call) => call_inside_refusal(ring, seat, call),
        Ask::End(construct, end_kind) => ask_end_refusal(ring, seat, *construct, *end_kind),
        Ask::Put => single_copy_end_refusal(seat),
        Ask::Take => take_refusal(seat),
    }
}

/// Whether this reply is what was foretold. If it is a refusal, or a wait outside of a `single` with words, nothing changed.
fn is_foretold(reply: &Reply, refusal: &Option<Refusal>, is_same: bool, awaits: bool) -> bool {
    match (reply, refusal) {
        (Reply::Refused(answered), Some(foretold)) => answered == foretold && is_same,
        (Reply::Refused(_), None) | (_, Some(_)) => false,
        (Reply::Wait, None) => is_same || awaits,
        _ => true,
    }
}

/// The member of this seat looks, and then asks for this.
pub(crate) fn hear(ring: &Ring, seat: &mut RingSeat, ask: &Ask) -> Heard
    requires ring { IsOnRing ring.now seat.old }
    ensures stays { StaysSeat seat.old seat.new }
{
    let before = seat.seen();
    let refusal = refusal_of(ring, seat, ask);
    let looked = seat.seen() == before;
    let reply = answer(ring, seat, ask);
    let is_same = seat.seen() == before;
    let foretold = is_foretold(&reply, &refusal, is_same, awaits_payload(seat));
    Heard {
        reply,
        is_steady: looked && foretold,
    }
}

//! Pieces as two numbers, which a call answers in registers.

ghost use Rattle.std.specs.Prelude.{◌≡◌, ◌<◌, ◌≤◌, ◌+◌, ◌-◌, ◌^◌, ◌==◌, not, IfSome, slice_get};
ghost use Rattle.gomp_types.specs.Values.{IsShape};
ghost use Rattle.gomp_chunks.specs.Plans.{IsPieceWithin, pieces};
ghost use Rattle.gomp_ring.specs.RingSeats.{AreWhole, AreNoneFrom, piece_in};

use gomp_chunks::{Cursor, Plan};
use gomp_types::{Shape, ShareKind};

/// Iterations that a member claimed: from `first` on, and before `end`. There are none if the two are equal: nothing is left of
/// the share for the member.
#[derive(Clone, Copy, Debug, PartialEq, Eq)]
#[repr(C)]
pub struct Piece {
    /// The first iteration, from 0.
    pub first: u64,
    /// The one after the last, at most 2^39.
    pub end: u64,
}

impl Piece {
    /// No iteration.
    pub const NONE: Piece = Piece { first: 0, end: 0 };
}

/// As `settle_piece`, of a share that has no piece of the number `none_from` or a higher one: of those the cursor is not asked.
#[inline(always)]
pub(crate) fn finish_piece(
    cursor: &mut Cursor,
    number: u64,
    chunk: u64,
    none_from: u64,
    here: &mut u64,
    drained: &mut bool,
    asking: &mut bool,
) -> Piece
    requires counted { chunk ≤ here.old }
    requires few { (here.old ≤ 2 ^ 40) × (cursor.old.plan.shape.trips ≤ 2 ^ 39) }
    requires none { AreNoneFrom cursor.old.plan none_from }
    ensures plan { cursor.new.plan ≡ cursor.old.plan }
    ensures piece { piece_in result.first result.end ≡ slice_get (pieces cursor.old.plan) number }
    ensures within { IfSome (piece_in result.first result.end)
        (IsPieceWithin cursor.old.plan.shape.trips) }
    ensures ends { result.first ≤ result.end }
    ensures here { here.new ≡ here.old - chunk + (result.end - result.first) }
    ensures drained { drained.new ≡ (result.first == result.end) }
    ensures asking { asking.new ≡ not drained.new }
{
    if number >= none_from {
        *here -= chunk;
        *drained = true;
        *asking = false;
        return Piece::NONE;
    }
    settle_piece(cursor, number, chunk, here, drained, asking)
}

/// The piece of this number of the cursor's share, or none if it has no more than so many. `chunk` iterations were counted for it
/// ahead: now those that it has are, and it is noted whether there was none, and whether the member may ask for another.
///
/// One call, behind which `claim` has nothing to do: so it saves no register where it doesn't call it.
#[inline(never)]
fn settle_piece(
    cursor: &mut Cursor,
    number: u64,
    chunk: u64,
    here: &mut u64,
    drained: &mut bool,
    asking: &mut bool,
) -> Piece
    requires counted { chunk ≤ here.old }
    requires few { (here.old ≤ 2 ^ 40) × (cursor.old.plan.shape.trips ≤ 2 ^ 39) }
    ensures plan { cursor.new.plan ≡ cursor.old.plan }
    ensures piece { piece_in result.first result.end ≡ slice_get (pieces cursor.old.plan) number }
    ensures within { IfSome (piece_in result.first result.end)
        (IsPieceWithin cursor.old.plan.shape.trips) }
    ensures ends { result.first ≤ result.end }
    ensures here { here.new ≡ here.old - chunk + (result.end - result.first) }
    ensures drained { drained.new ≡ (result.first == result.end) }
    ensures asking { asking.new ≡ not drained.new }
{
    let piece = piece_at(cursor, number);
    *here = *here - chunk + (piece.end - piece.first);
    let is_none = piece.first == piece.end;
    *drained = is_none;
    *asking = !is_none;
    piece
}

/// The piece of this number of the cursor's share, or none if it has no more than so many.
fn piece_at(cursor: &mut Cursor, number: u64) -> Piece
    ensures plan { cursor.new.plan ≡ cursor.old.plan }
    ensures piece { piece_in result.first result.end ≡ slice_get (pieces cursor.old.plan) number }
    ensures within { IfSome (piece_in result.first result.end)
        (IsPieceWithin cursor.old.plan.shape.trips) }
    ensures ends { result.first ≤ result.end }
    ensures few { result.end ≤ cursor.old.plan.shape.trips }
{
    match cursor.advance_to(number) {
        Some((first, end)) => Piece { first, end },
        None => Piece::NONE,
    }
}

/// The piece of this number of the cursor's share, or none if it has no more than so many. The cursor stays where it is.
#[inline(never)]
pub(crate) fn look_up_piece(cursor: &Cursor, number: u64) -> Option<(u64, u64)>
    ensures { result ≡ slice_get (pieces cursor.now.plan) number }
{
    let mut cursor = *cursor;
    cursor.advance_to(number)
}

/// How many of the first pieces of a share have a whole chunk each: all of a dynamic loop but a shorter last one; of others, 0.
fn whole_pieces(shape: &Shape, members: u16) -> u64
    requires shape { IsShape shape.now }
    ensures whole { AreWhole (record { members = members; shape = shape.now }) result }
{
    match shape.kind {
        ShareKind::Dynamic => shape.trips / shape.chunk,
        _ => 0,
    }
}

/// From which number on a share has no pieces: as many as a dynamic loop has; of others 2^64 - 1.
fn pieces_end(shape: &Shape, members: u16) -> u64
    requires shape { IsShape shape.now }
    requires team { 0 < members }
    ensures none { AreNoneFrom (record { members = members; shape = shape.now }) result }
{
    match shape.kind {
        ShareKind::Dynamic => shape.trips.div_ceil(shape.chunk),
        _ => u64::MAX,
    }
}

/// The cursor is over a share of this shape now, whose pieces are counted. If it was, nothing is stored: a loop that is opened again
/// and again costs that once.
#[inline(always)]
pub(crate) fn keep_plan(
    cursor: &mut Cursor,
    planned: &mut Shape,
    whole: &mut u64,
    none_from: &mut u64,
    members: u16,
    shape: &Shape,
)
    requires team { 0 < members }
    requires shape { IsShape shape.now }
    requires kept { cursor.old.plan ≡ record { members = members; shape = planned.old } }
    requires whole { AreWhole cursor.old.plan whole.old }
    requires none { AreNoneFrom cursor.old.plan none_from.old }
    ensures plan { cursor.new.plan ≡ record { members = members; shape = shape.now } }
    ensures planned { planned.new ≡ shape.now }
    ensures whole { AreWhole cursor.new.plan whole.new }
    ensures none { AreNoneFrom cursor.new.plan none_from.new }
{
    if planned.is_same(shape) {
        return;
    }
    *cursor = Cursor::new(Plan::of(shape, members));
    *planned = *shape;
    *whole = whole_pieces(shape, members);
    *none_from = pieces_end(shape, members);
}

//! The part of a team's ledger that a member holds.

ghost use Rattle.std.specs.Prelude.{◌≡◌, ◌<◌, ◌≤◌, ◌+◌};
ghost use Rattle.gomp_team_board.specs.Counts.{creations_given, passes_given, starts_given};
ghost use Rattle.gomp_team_board.specs.Parts.{PartView, IsPart, no_counts, counts_after, new_part, merged_part};

use crate::counts::{creations_given, passes_given, starts_given};
use gomp_board::Op;
use gomp_types::Reply;
use std::marker::Model;
use std::sync::ledger::{Ledger, Share};

/// How often a member was answered that it created a task, passed a barrier, and started a task.
#[derive(Clone, Copy, Debug, PartialEq, Eq)]
pub struct PartCounts {
    /// Tasks that it created.
    pub creates: u64,
    /// Barriers that it passed.
    pub passes: u64,
    /// Tasks that it started.
    pub starts: u64,
}

/// The part of its team's ledger that a member holds: every call moves it by the events that it gives.
/// Beside the counts it takes no bytes.
#[derive(Drop)]
pub struct Part<L: Ledger> {
    pub(crate) share: Share<L>,
    pub(crate) counts: PartCounts,
}

impl<L: Ledger> Model for Part<L> {
    ghost use Rattle.gomp_team_board.specs.Parts.{PartView, IsPart, part_of};

    ghost Value = { PartView };

    ghost view = { λ part. part_of part.share.parts part.share.amount part.counts };

    ghost invariant = { λ part. IsPart (part_of part.share.parts part.share.amount part.counts) };
}

impl<L: Ledger> Part<L> {
    /// What its holder was answered.
    pub fn counts(&self) -> PartCounts
        ensures value { result ≡ self.now.counts }
        ensures fits { result.creates + result.passes + result.starts ≤ self.now.amount }
    {
        self.counts
    }

    /// A part of a member that was answered nothing: `parts` parts of this one, of which some stay,
    /// and no event.
    pub fn split(&mut self, parts: u64) -> Part<L>
        requires some { 0 < parts }
        requires fewer { parts < self.old.parts }
        ensures given { result ≡ new_part parts 0 }
        ensures parts { self.new.parts + parts ≡ self.old.parts }
        ensures amount { self.new.amount ≡ self.old.amount }
        ensures counts { self.new.counts ≡ self.old.counts }
    {
        let share = self.share.split_off(parts, 0);
        Part {
            share,
            counts: PartCounts::none(),
        }
    }

    /// Takes in another part, of the same ledger: its parts and its events. Its counts are let go, so
    /// whoever needs them asks for them first.
    pub fn merge(&mut self, other: Part<L>)
        ensures merged { self.new ≡ merged_part self.old other }
    {
        let Part { share, counts: _ } = other;
        self.share.merge(share);
    }
}

impl PartCounts {
    /// Nothing.
    pub(crate) fn none() -> PartCounts
        ensures { result ≡ no_counts }
    {
        PartCounts {
            creates: 0,
            passes: 0,
            starts: 0,
        }
    }

    /// Counts what the member was answered. There are no more than `most` of these events.
    pub(crate) fn note(&mut self, op: &Op, reply: &Reply, most: u64)
        requires fits { self.old.creates + creations_given op.now reply.now
            + (self.old.passes + passes_given op.now reply.now)
            + (self.old.starts + starts_given reply.now) ≤ most }
        ensures { self.new ≡ counts_after op.now reply.now self.old }
    {
        self.creates += creations_given(op, reply);
        self.passes += passes_given(op, reply);
        self.starts += starts_given(reply);
    }
}

//! The words that the executors of `single` constructs put, kept for the other members.
//!
//! OpenMP API 5.2, section 5.7.2 (the `copyprivate` clause).

ghost use Rattle.std.specs.Prelude.{◌≡◌, ◌%◌, IfOk, Some, None, replicate, slice_get, slice_set, option_copied};
ghost use Rattle.gomp_types.specs.declared.limits.TheConstants.{OPEN_SHARES};
ghost use Rattle.gomp_board.specs.Payloads.{share_at, words_at};
ghost use Rattle.gomp_board.specs.declared.payloads.Put.{Put};

use gomp_shares::Places;
use gomp_types::Payload;
use std::alloc::{AllocError, Global};
use std::marker::Model;

/// The words that were put in a share.
#[derive(Debug, Drop)]
pub struct Put {
    /// The share's number.
    pub share: u64,
    /// What its executor put.
    pub words: Payload,
}

/// The words of a team's singles. Only `new` takes memory: the words of eight singles are many, so
/// they have a block of their own, and a board that moves does not copy them.
#[derive(Debug, Drop)]
pub struct Payloads {
    places: Box<Places<Put>>,
}

impl Model for Payloads {
    ghost use Rattle.std.specs.Prelude.{List, Option};
    ghost use Rattle.std.specs.Box.{box_value};
    ghost use Rattle.gomp_board.specs.declared.payloads.Put.{Put};

    ghost Value = { List (Option Put) };

    ghost view = { λ payloads. box_value payloads.places };
}

impl Payloads {
    /// No words. It fails if its memory is refused.
    pub fn new(alloc: Global) -> Result<Payloads, AllocError>
        ensures { IfOk result (λ payloads. payloads ≡ replicate OPEN_SHARES None) }
    {
        Ok(Payloads {
            places: Box::new(alloc, Places::new())?,
        })
    }

    /// The words put in this share; None if none were, or if words of another share were put over
    /// them.
    pub fn at(&self, share: u64) -> Option<&Payload>
        ensures { option_copied result ≡ words_at share (slice_get self.now (share % OPEN_SHARES)) }
    {
        match self.places.at(share) {
            Some(put) if put.share == share => Some(&put.words),
            _ => None,
        }
    }

    /// The share in which words were put last, of those whose numbers leave the same rest by
    /// OPEN_SHARES as this one. None if there is none.
    pub fn newest_share(&self, share: u64) -> Option<u64>
        ensures { result ≡ share_at (slice_get self.now (share % OPEN_SHARES)) }
    {
        match self.places.at(share) {
            Some(put) => Some(put.share),
            None => None,
        }
    }

    /// Keeps the words put in this share.
    pub fn put(&mut self, share: u64, words: Payload)
        ensures { self.new ≡ slice_set self.old (share % OPEN_SHARES)
            (Some (record { share = share; words = words })) }
    {
        self.places.put(share, Put { share, words });
    }
}

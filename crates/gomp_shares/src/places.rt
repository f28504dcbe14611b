//! What is kept of each share of a team that may be open: a table of eight places.
//!
//! A share is entered only after every member has left the one eight before it (own), so eight
//! places are enough.

ghost use Rattle.std.specs.Prelude.{◌≡◌, ◌%◌, Some, None, replicate, slice_get, slice_set, option_copied};
ghost use Rattle.gomp_types.specs.declared.limits.TheConstants.{OPEN_SHARES};

use gomp_types::OPEN_SHARES;
use std::marker::Model;

/// What is kept of share `i` lies at place `i % 8`, until something of share `i + 8` is put there.
/// It takes no memory.
#[derive(Debug, Drop)]
pub struct Places<T> {
    items: [Option<T>; OPEN_SHARES as usize],
}

impl<T> Model for Places<T> {
    ghost use Rattle.std.specs.Prelude.{List, Option};

    ghost Value = { List (Option T) };

    ghost view = { λ places. places.items };
}

impl<T: Drop> Places<T> {
    /// Places at which nothing lies.
    pub fn new() -> Places<T>
        ensures { result ≡ replicate OPEN_SHARES None }
    {
        Places {
            items: [None, None, None, None, None, None, None, None],
        }
    }

    /// What lies at the place of this share, if anything does.
    pub fn at(&self, share: u64) -> Option<&T>
        ensures there { Some (option_copied result) ≡ slice_get self.now (share % OPEN_SHARES) }
    {
        self.items[(share % OPEN_SHARES) as usize].as_ref()
    }

    /// Puts this at the place of the share, over what lies there.
    pub fn put(&mut self, share: u64, item: T)
        ensures { self.new ≡ slice_set self.old (share % OPEN_SHARES) (Some item) }
    {
        self.items[(share % OPEN_SHARES) as usize] = Some(item);
    }
}

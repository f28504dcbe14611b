//! The items of a `depend` clause, two words each.

ghost use Rattle.std.specs.Prelude.{◌≡◌, ◌≢◌, [], IfOk, IsErr, IsSomeAnd, is_some};
ghost use Rattle.gomp_words.specs.Calls.{items_of};

use crate::arguments::read_dep_kind;
use gomp_types::{Dep, Deps};
use std::alloc::{AllocError, Global};

/// The items that these words say; none if they say no items. The error is want of memory, of which no
/// items take none.
pub fn read_items(alloc: Global, words: &[u64]) -> Result<Option<Deps>, AllocError>
    ensures items { IfOk result (λ items. items ≡ items_of words.now) }
    ensures memory { IsErr result → IsSomeAnd (items_of words.now) (λ items. items ≢ []) }
{
    let mut items = Deps::new(alloc);
    let mut rest = words;
    while let [kind, addr, more @ ..] = rest {
        let Some(kind) = read_dep_kind(*kind) else {
            return Ok(None);
        };
        let item = Dep { kind, addr: *addr };
        if let Err(error) = items.push(item) {
            // Words that say no items are no call, whether there is memory or not.
            if !are_items(more) {
                return Ok(None);
            }
            return Err(error);
        }
        rest = more;
    }
    if rest.is_empty() {
        Ok(Some(items))
    } else {
        Ok(None)
    }
}

/// Whether these words say items.
fn are_items(words: &[u64]) -> bool
    ensures { result ≡ is_some (items_of words.now) }
{
    let mut rest = words;
    while let [kind, _, more @ ..] = rest {
        if read_dep_kind(*kind).is_none() {
            return false;
        }
        rest = more;
    }
    rest.is_empty()
}

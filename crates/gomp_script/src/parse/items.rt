//! The items of a `depend` clause at the end of a line: `[DEP ADDR]..`.

ghost use Rattle.std.specs.Prelude.{◌≡◌, ◌≢◌, [], Ok, IsErrOf};
ghost use Rattle.gomp_text.specs.Words.{words_of};
ghost use Rattle.gomp_script.specs.declared.parse.LineError.TheVariants.{NoMemory};
ghost use Rattle.gomp_script.specs.StepText.{IsBehindItems, IsItem, Reads, items_of, depend_kind_of, without_value};

use crate::parse::words::{take_word, unsigned_of};
use crate::parse::{LineError, Why};
use gomp_text::{is_word, next_word};
use gomp_types::{Dep, DepKind, Deps};
use std::alloc::Global;

/// The words of an item, and what follows it.
#[derive(Clone, Copy)]
struct Item<'a> {
    kind: DepKind,
    addr: &'a [u8],
    rest: &'a [u8],
}

/// The type of a dependence that this word names.
fn kind_of(word: &[u8]) -> Option<DepKind>
    ensures { result ≡ depend_kind_of word.now }
{
    if is_word(word, b"in") {
        return Some(DepKind::DepIn);
    }
    if is_word(word, b"out") {
        return Some(DepKind::DepOut);
    }
    if is_word(word, b"inout") {
        return Some(DepKind::DepInout);
    }
    if is_word(word, b"inoutset") {
        return Some(DepKind::DepInoutset);
    }
    if is_word(word, b"mutexinoutset") {
        return Some(DepKind::DepMutex);
    }
    None
}

/// The item that a line begins with. None if its first word begins none, or it has no word.
fn next_item(line: &[u8]) -> Result<Option<Item<'_>>, Why>
    ensures { IsItem line.now result }
{
    let Some((word, rest)) = next_word(line) else {
        return Ok(None);
    };
    let Some(kind) = kind_of(word) else {
        return Ok(None);
    };
    let (addr, rest) = take_word(rest)?;
    Ok(Some(Item { kind, addr, rest }))
}

/// What follows the items that a line begins with. The error is an item without an address.
pub fn behind_items(line: &[u8]) -> Result<&[u8], Why>
    ensures { IsBehindItems line.now result }
{
    let mut rest = line;
    while let Some(item) = next_item(rest)? {
        rest = item.rest;
    }
    Ok(rest)
}

/// That the items that a line begins with have good addresses.
pub fn test_items(line: &[u8]) -> Result<(), Why>
    ensures { result ≡ without_value (items_of (words_of line.now)) }
{
    let mut rest = line;
    while let Some(item) = next_item(rest)? {
        unsigned_of(item.addr)?;
        rest = item.rest;
    }
    Ok(())
}

/// The items that a line begins with. Only an item takes memory.
pub fn items_of(alloc: Global, line: &[u8]) -> Result<Deps, LineError>
    ensures items { Reads result (items_of (words_of line.now)) }
    ensures memory { IsErrOf result NoMemory → items_of (words_of line.now) ≢ Ok [] }
{
    let mut items = Deps::new(alloc);
    let mut rest = line;
    while let Some(item) = next_item(rest)? {
        let addr = unsigned_of(item.addr)?;
        items.push(Dep {
            kind: item.kind,
            addr,
        })?;
        rest = item.rest;
    }
    Ok(items)
}

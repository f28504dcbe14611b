//! What the cases of several crates of tests are made of. It compares nothing: an assertion is for tests alone.
#![tactic(auto)]

use gomp_types::{Dep, DepKind, Deps, EndKind, LoopDesc, Sched};
use std::alloc::{AllocError, Global};

/// How many elements a text, a list or a word has.
pub const SIZES: &[usize] = &[0, 1, 255, 256, 1_000, 1_001, 65_535, 65_536, 100_000];

/// A loop of no iterations; the loops of the tests differ from it.
pub const LOOP: LoopDesc = LoopDesc {
    start: 0,
    end: 0,
    incr: 1,
    sched: Sched::Dynamic,
    chunk: 0,
    ordered: false,
    end_kind: EndKind::Wait,
};

/// Items of this kind, on so many addresses, from 0.
pub fn items_of(alloc: Global, kind: DepKind, count: usize) -> Result<Deps, AllocError> {
    let mut items = Deps::new(alloc);
    for addr in 0..count {
        items.push(Dep {
            kind,
            addr: addr as u64,
        })?;
    }
    Ok(items)
}

/// A front, a part so many times, and an end.
pub fn text_of(
    alloc: Global,
    front: &str,
    part: &str,
    count: usize,
    end: &str,
) -> Result<String, AllocError> {
    let mut text = String::new(alloc);
    text.push_str(front)?;
    for _ in 0..count {
        text.push_str(part)?;
    }
    text.push_str(end)?;
    Ok(text)
}

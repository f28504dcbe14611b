//! Where the blocks of a script end.

ghost use Rattle.std.specs.Prelude.{◌≡◌, ◌≤◌, [], length, IfOk, IsOk};
ghost use Rattle.gomp_region.specs.ScriptText.{ends_from, lines_inside};

use crate::script::ScriptLine;
use crate::statement::Nesting;
use std::alloc::{AllocError, Global};

/// For each of these lines that begins a block, the index of the one that ends it; for each other one
/// its own. Blocks nest to 32, so each line is looked at 33 times at most.
pub(crate) fn ends_of(alloc: Global, lines: &[ScriptLine]) -> Result<Vec<usize>, AllocError>
    ensures ends { IfOk result (λ ends. ends.items ≡ ends_from 0 lines.now) }
    ensures none { lines.now ≡ [] → IsOk result }
{
    let mut ends = Vec::new(alloc);
    let mut rest = lines;
    let mut index = 0;
    while let [line, later @ ..] = rest {
        let end = match line.statement.nesting() {
            Nesting::Begins(_) => index + 1 + lines_inside(later),
            Nesting::Ends(_) | Nesting::Stands => index,
        };
        ends.push(end)?;
        rest = later;
        index += 1;
    }
    Ok(ends)
}

/// How many of these lines stand in the block around them, before the one that ends it.
fn lines_inside(lines: &[ScriptLine]) -> usize
    ensures count { result ≡ lines_inside 0 lines.now }
    ensures within { result ≤ length lines.now }
{
    let mut rest = lines;
    let mut depth: usize = 0;
    let mut count: usize = 0;
    while let [line, later @ ..] = rest {
        match line.statement.nesting() {
            Nesting::Begins(_) => depth += 1,
            Nesting::Ends(_) if depth == 0 => return count,
            Nesting::Ends(_) => depth -= 1,
            Nesting::Stands => {}
        }
        rest = later;
        count += 1;
    }
    count
}

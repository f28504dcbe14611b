//! The sections of a sections construct: the blocks that stand directly in it.

ghost use Rattle.std.specs.Prelude.{◌≡◌, ◌+◌, ◌-◌, ◌^◌, ◌<◌, length, drop, min};
ghost use Rattle.gomp_program.specs.Places.{block_line, blocks_inside};

use gomp_region::{Nesting, Script, ScriptLine};

/// The lines behind this one.
fn lines_behind(script: &Script, line: usize) -> &[ScriptLine]
    ensures { result.now ≡ drop (line + 1) script.now.lines.items }
{
    match script.lines.as_slice() {
        lines if line < lines.len() => &lines[line + 1..],
        _ => &[],
    }
}

/// How many sections stand directly in the construct that begins at this line; 2^32 - 1 if there are
/// more.
pub(crate) fn section_count(script: &Script, line: usize) -> u32
    ensures { result ≡ min
        (blocks_inside 0 (drop (line + 1) script.now.lines.items)) (2 ^ 32 - 1) }
{
    let count = blocks_inside(lines_behind(script, line));
    count.min(u32::MAX as usize) as u32
}

/// How many blocks stand directly in the block around these lines.
fn blocks_inside(lines: &[ScriptLine]) -> usize
    ensures { result ≡ blocks_inside 0 lines.now }
{
    let mut rest = lines;
    let mut depth: usize = 0;
    let mut count: usize = 0;
    while let [line, later @ ..] = rest {
        match line.statement.nesting() {
            Nesting::Begins(_) => {
                if depth == 0 {
                    count += 1;
                }
                depth += 1;
            }
            Nesting::Ends(_) if depth == 0 => return count,
            Nesting::Ends(_) => depth -= 1,
            Nesting::Stands => {}
        }
        rest = later;
    }
    count
}

/// The index of the line that begins the section with this number, from 1, of the construct that
/// begins at this line.
pub(crate) fn section_line(script: &Script, line: usize, number: u64) -> Option<usize>
    ensures { result ≡ block_line number 0 (line + 1) (drop (line + 1) script.now.lines.items) }
{
    block_line(lines_behind(script, line), line, number)
}

/// The index of the line that begins the block with this number of those that stand directly in the
/// block around these lines, which come behind the line with the index `before`.
fn block_line(lines: &[ScriptLine], before: usize, number: u64) -> Option<usize>
    requires { before + length lines.now < 2 ^ 64 }
    ensures { result ≡ block_line number 0 (before + 1) lines.now }
{
    let mut rest = lines;
    let mut depth: usize = 0;
    let mut left = number;
    let mut index = before;
    while let [line, later @ ..] = rest {
        index += 1;
        match line.statement.nesting() {
            Nesting::Begins(_) => {
                if depth == 0 && left == 1 {
                    return Some(index);
                }
                if depth == 0 {
                    left = left.saturating_sub(1);
                }
                depth += 1;
            }
            Nesting::Ends(_) if depth == 0 => return None,
            Nesting::Ends(_) => depth -= 1,
            Nesting::Stands => {}
        }
        rest = later;
    }
    None
}

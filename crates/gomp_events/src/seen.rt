//! What a member sees of its own place among the work-shares of its team.

use gomp_types::Shape;

/// What a member sees of its own place among the shares.
#[derive(Clone, Copy, Debug, PartialEq, Eq)]
pub struct Seen {
    /// How many shares it has entered; so it is the number of its next one.
    pub entered: u64,
    /// The share that it is in, by number and shape.
    pub current: Option<(u64, Shape)>,
    /// Whether it was told that nothing is left for it of the share that it entered last.
    pub drained: bool,
    /// The piece that it took last of that share, by its first iteration and the one after its last;
    /// none before it took one, and none once it was told that nothing is left.
    pub piece: Option<(u64, u64)>,
    /// The iteration after that of its last ordered part in that share, 0 before its first.
    pub next_part: u64,
    /// Whether it is in an ordered part.
    pub in_part: bool,
    /// Whether it has seen that the share that it is in is cancelled, and so leaves it (OpenMP API
    /// 5.2, section 16.1).
    pub leaving: bool,
}

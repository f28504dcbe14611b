//! What a member is in: the blocks whose bodies it executes, and where it stands at a call.

/// The iteration that a member executes, and those that its chunk still has.
#[derive(Clone, Copy, Debug, PartialEq, Eq)]
pub struct Iteration {
    /// Its value; 0 outside of a loop.
    pub value: i64,
    /// How many iterations of the chunk come behind it.
    pub left: u64,
}

/// What is cancelled and therefore left.
#[derive(Clone, Copy, Debug, PartialEq, Eq)]
pub enum Exit {
    /// The region, which is ended next.
    FromRegion,
    /// A share or a task.
    FromConstruct {
        /// The index of the line that begins it, which is ended next.
        line: usize,
        /// How many frames stay.
        keep: usize,
        /// How many groups were opened inside of the share and are to be ended behind it.
        groups: usize,
    },
}

/// Which call of the construct or statement at its line a member makes, or waits at.
#[derive(Clone, Copy, Debug, PartialEq, Eq)]
pub enum Stage {
    /// None yet.
    Unasked,
    /// That which begins the construct, or the statement's only one.
    Starting,
    /// That which asks for the share's next piece.
    Continuing,
    /// That by which the executor of a `copy` puts its word.
    Putting,
    /// That which ends the construct.
    Ending {
        /// How many groups, opened inside of a share that is left, are to be ended behind it.
        groups: usize,
    },
    /// That which ends a group that was opened inside of the share, which is ended.
    EndingGroup {
        /// How many such groups are to be ended behind it.
        groups: usize,
    },
    /// That which releases the critical name, since the member leaves what is cancelled.
    Releasing(Exit),
    /// That which ends the region.
    EndingRegion,
}

/// Which block a member is in.
#[derive(Clone, Copy, Debug, PartialEq, Eq)]
pub enum Block {
    /// An iteration of the loop.
    OfLoop,
    /// A section of the sections construct.
    OfSections,
    /// The block of a construct that is executed once.
    Once,
    /// The body of the task.
    OfTask {
        /// The index of the line at whose call the task was started.
        line: usize,
        /// Which call that is.
        stage: Stage,
    },
}

/// A block whose body a member executes.
#[derive(Clone, Copy, Debug, PartialEq, Eq)]
pub struct Frame {
    /// The index of the line that begins the construct.
    pub line: usize,
    /// Which of its blocks it is.
    pub block: Block,
    /// The iteration around it.
    pub around: Iteration,
}

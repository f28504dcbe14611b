//! What a team is, as definitions alone: one row for each call, and one step over them.
//!
//! `specs/Row.antt` says what there is to say of a call; a file for each construct gives its calls
//! their rows; `specs/Calls.antt` is the one list of calls. `specs/Team.antt` says what a step of a
//! member is refused for, answered and leaves, by its call's row, and names no call but `Resume`
//! and `Stop`. What follows from all that is proved in `gomp_laws`. That the definitions tell right
//! from wrong is said by the lemmas of `proofs/`: for what each call is refused and how it is never
//! answered (`CallTests`, `CauseRefutations`, `Refutations`), over every member and past; worked
//! runs (`RunsWithCauses`, `LoopLimits`), and a table of each field of a row (`RowExamples`).
//!
//! This crate has definitions and lemmas alone, and no function.
#![tactic(auto)]

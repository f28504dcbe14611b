//! What no clause of the parts of a team says, and a run shows: that calls succeed where memory is ample, at every small size,
//! and what allocations that fail lead to. No library has a test, which would be proved twice.
#![tactic(auto)]

#[cfg(test)]
mod barriers;
#[cfg(test)]
mod boards;
#[cfg(test)]
mod budget;
#[cfg(test)]
mod checks;
#[cfg(test)]
mod pieces;
#[cfg(test)]
mod promises;
#[cfg(test)]
mod shares;
#[cfg(test)]
mod tools;

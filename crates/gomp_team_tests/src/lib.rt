//! What no clause of a whole team says, and a run shows: that its calls succeed where memory is ample, at every small size.
#![tactic(auto)]

#[cfg(test)]
mod checks;
#[cfg(test)]
mod promises;
#[cfg(test)]
mod sizes;
#[cfg(test)]
mod teams;

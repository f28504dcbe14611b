//! What no clause of what reads and prints texts says, and a run shows: that texts of every small size are read and printed
//! where memory is ample, and that a bad one has its fault.
#![tactic(auto)]

#[cfg(test)]
mod checks;
#[cfg(test)]
mod refusals;
#[cfg(test)]
mod script_faults;
#[cfg(test)]
mod scripts;
#[cfg(test)]
mod texts;
#[cfg(test)]
mod variables;

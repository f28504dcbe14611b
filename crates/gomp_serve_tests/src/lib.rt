//! What no clause of the program says, and a run shows: what readers and writers that fail lead to.
#![tactic(auto)]

#[cfg(test)]
mod checks;
#[cfg(test)]
mod faults;
#[cfg(test)]
mod talks;

//! What no contract of a runtime says of nested regions and of threads that are kept, and a run shows: that they come to their
//! end, what their programs are told, what breaks with a nested team and what does not.
#![tactic(auto)]

#[cfg(test)]
mod checks;
#[cfg(test)]
mod holds;
#[cfg(test)]
mod kept;
#[cfg(test)]
mod nested;
#[cfg(test)]
mod nested_faults;

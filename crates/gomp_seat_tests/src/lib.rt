//! What no contract of the calls of a seat says, and a run shows: that they succeed, alone and on threads, and what they answer then.
#![tactic(auto)]

#[cfg(test)]
mod answers;
#[cfg(test)]
mod calls;
#[cfg(test)]
mod checks;
#[cfg(test)]
mod others;
#[cfg(test)]
mod rows;
#[cfg(test)]
mod team;
#[cfg(test)]
mod threads;

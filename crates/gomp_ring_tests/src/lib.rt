//! What no contract of the ring says, and a run shows: that its calls succeed, alone and on threads, and what they answer then.
#![tactic(auto)]

#[cfg(test)]
mod checks;
#[cfg(test)]
mod constructs;
#[cfg(test)]
mod limits;
#[cfg(test)]
mod members;
#[cfg(test)]
mod rows;
#[cfg(test)]
mod singles;
#[cfg(test)]
mod team;
#[cfg(test)]
mod teams;
#[cfg(test)]
mod threads;

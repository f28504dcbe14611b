//! What no contract of a runtime says, and a run shows: that regions come to their end, what their programs are told, what a
//! fault names, that members run at the same time.
#![tactic(auto)]

#[cfg(test)]
mod checks;
#[cfg(test)]
mod faults;
#[cfg(test)]
mod forks;
#[cfg(test)]
mod histories;
#[cfg(test)]
mod limits;
#[cfg(test)]
mod meetings;
#[cfg(test)]
mod records;

//! What no clause of the programs of region scripts says, and a run shows: what scripts add up to, whoever makes the next step,
//! and which of them are refused.
#![tactic(auto)]

#[cfg(test)]
mod cancelled;
#[cfg(test)]
mod checks;
#[cfg(test)]
mod refused;
#[cfg(test)]
mod regions;
#[cfg(test)]
mod totals;

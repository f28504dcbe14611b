//! What no contract of a member and of a region's team says, and a run shows: that its calls succeed, what they answer, on one thread
//! and on threads of their own, and which history they leave.
#![tactic(auto)]

#[cfg(test)]
mod alone;
#[cfg(test)]
mod barriers;
#[cfg(test)]
mod broken;
#[cfg(test)]
mod checks;
#[cfg(test)]
mod claims;
#[cfg(test)]
mod copies;
#[cfg(test)]
mod exclusion;
#[cfg(test)]
mod lines;
#[cfg(test)]
mod regions;
#[cfg(test)]
mod settled;
#[cfg(test)]
mod tasks;
#[cfg(test)]
mod waiters;
#[cfg(test)]
mod walkers;
#[cfg(test)]
mod ways;

//! What gomp_gate, gomp_slots and gomp_ring promise of each of their public calls, asked once more of its contract alone: a promise that said
//! less would not do.
//!
//! No program calls anything here, and no crate stands on it.
#![tactic(auto)]

pub mod gates;
pub mod seats;
pub mod steps;

//! Rows under numbers: each is put in under the next number, from 1, and stays there until it is taken
//! out. A number is given once.
//!
//! [`Rows`] is plain data: what a row means is for the caller to say. It finds a row in one step, and
//! the memory of a row that is taken out serves the rows that come.
#![tactic(auto)]

pub mod rows;

pub use rows::{MAX_ROWS, Rows};

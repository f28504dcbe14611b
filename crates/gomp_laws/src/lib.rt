//! What holds of every team, whatever its members call: the headline, and that the past before a
//! step decides its reply.
//!
//! `proofs/Sound.antt` says what the theorems ask of a call's row, a file for each construct has it
//! for its calls, and `proofs/Calls.antt` is the one list of them. All else, from
//! `proofs/Known.antt` on, is proved of every row, and names no call but `Resume` and `Stop`.
//! `proofs/Laws.antt` states what is proved, and `proofs/Refutations.antt` and `RuleRefutations.antt`
//! what that forbids.
//!
//! This crate has definitions and lemmas alone, and no function.
#![tactic(auto)]

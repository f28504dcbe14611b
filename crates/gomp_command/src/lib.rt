//! The command line of `ompteam`: what its words ask for, and the control variables that they set.
//!
//! [`command::read_words`] reads the words of a process over clap, or says why they are refused; [`command::request_of`] is what
//! they ask for then: a service and its settings. [`settings::read_settings`] has the control variables that the settings give.
#![tactic(auto)]

pub mod command;
pub mod settings;

//! Why a region gives no history.

use gomp_types::Clash;
use std::fmt;
use thiserror::Error;

/// Why a region gives no history when its members have returned. It prints as its number and name.
#[derive(Clone, Copy, Debug, PartialEq, Eq, Error)]
pub enum SettleError {
    /// E3: the team was broken, by this first cause.
    Broken(Clash),
    /// E42: a member has not passed the region's end, or was answered otherwise than the history has it.
    Unsettled,
}

impl fmt::Display for SettleError {
    ghost use Rattle.std.specs.Prelude.{Some};
    ghost use Rattle.gomp_team_region.specs.Settled.{error_text};

    ghost output = { λ error. Some (error_text error) };

    fn fmt<W: fmt::Write>(&self, f: &mut fmt::Formatter<W>) -> fmt::Result {
        match self {
            SettleError::Broken(clash) => write!(f, "E3 Broken {clash}"),
            SettleError::Unsettled => write!(f, "E42 Unsettled"),
        }
    }
}

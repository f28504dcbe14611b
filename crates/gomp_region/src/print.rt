//! How a refused script is printed.

ghost use Rattle.std.specs.Prelude.{◌≡◌, Some, string_bytes, IfOk};
ghost use Rattle.gomp_region.specs.Printing.{bad_script_text, script_why_text};

use crate::script::{BadScript, ScriptWhy};
use std::alloc::{AllocError, Global};
use std::fmt;

impl fmt::Display for ScriptWhy {
    ghost output = { λ why. Some (script_why_text why) };

    fn fmt<W: fmt::Write>(&self, f: &mut fmt::Formatter<W>) -> fmt::Result {
        match self {
            ScriptWhy::Words(why) => write!(f, "{why}"),
            ScriptWhy::NoOpenBlock => write!(f, "no open block"),
            ScriptWhy::TooDeep => write!(f, "too deep"),
            ScriptWhy::NotClosed => write!(f, "block not closed"),
        }
    }
}

/// The line that refuses a script. The error is want of memory.
pub fn print_bad_script(alloc: Global, bad: &BadScript) -> Result<String, AllocError>
    ensures { IfOk result (λ text. string_bytes text ≡ bad_script_text bad.now) }
{
    format!(in alloc; "bad line {}: {}\n", bad.line, bad.why)
}

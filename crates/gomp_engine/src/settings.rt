//! The settings of an engine: the words of the environment, NAME=VALUE, a line each.

ghost use Rattle.std.specs.Prelude.{◌≡◌, IfOk};
ghost use Rattle.std.specs.Option.{option_map};
ghost use Rattle.gomp_text.specs.Words.{lines_of};
ghost use Rattle.gomp_icv.specs.EnvWords.{pairs};
ghost use Rattle.gomp_engine.specs.Settings.{setting_in, settings_in, read_lines};

use gomp_icv::{Icv, read_env};
use gomp_types::Refusal;
use std::alloc::{AllocError, Global};

/// The control variables that the lines of a text give, and a refusal for each setting that is
/// ignored, in their order. A line without `=` is no setting, and is skipped.
///
/// The error is want of memory.
pub fn read_lines(alloc: Global, text: &str) -> Result<(Icv, Vec<Refusal>), AllocError>
    ensures { IfOk result (λ read. (read.0, read.1.items) ≡ read_lines text.now) }
{
    let settings = settings_in(alloc, text)?;
    read_env(alloc, settings.as_slice())
}

/// The name and the value of each line that has an `=`, in their order.
fn settings_in<'a>(alloc: Global, text: &'a str) -> Result<Vec<(&'a str, &'a str)>, AllocError>
    ensures { IfOk result (λ found. pairs found.items ≡ settings_in (lines_of text.now)) }
{
    let mut settings = Vec::new(alloc);
    for line in text.split('\n') {
        if let Some(setting) = setting_in(line) {
            settings.push(setting)?;
        }
    }
    Ok(settings)
}

/// The name and the value of a line, cut at its first `=`. None if it has no `=`.
fn setting_in<'a>(line: &'a str) -> Option<(&'a str, &'a str)>
    ensures { option_map (λ found. (found.0.now, found.1.now)) result ≡ setting_in line.now }
{
    line.split_once('=')
}

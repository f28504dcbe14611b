//! The words `NAME=VALUE` of the command line, which stand for those of the environment (OpenMP API
//! 5.2, chapter 21).

ghost use Rattle.std.specs.Prelude.{◌≡◌, IfOk, IsTrue, None, Some, map};
ghost use Rattle.std.specs.Option.{option_map};
ghost use Rattle.gomp_command.specs.Settings.{first_without, has_equals, pair_of, ArePairsOf, Gives};

use gomp_icv::{Icv, read_env};
use gomp_types::Refusal;
use std::alloc::{AllocError, Global};

/// Why words are not read as settings.
#[derive(Clone, Copy)]
pub enum SettingsError<'a> {
    /// Memory was refused, and each word has an `=`.
    NoMemory,
    /// This word has no `=`, and none before it lacks one.
    NoEquals(&'a str),
}

impl From<AllocError> for SettingsError<'_> {
    ghost use Rattle.gomp_command.specs.declared.settings.SettingsError.TheVariants.{NoMemory};

    ghost from_gives = { λ _ e. e ≡ NoMemory };

    fn from(_: AllocError) -> Self {
        SettingsError::NoMemory
    }
}

/// The control variables that these words give, and a refusal for each word that is ignored.
///
/// The words are looked through before anything takes memory: one without `=` is refused whatever
/// memory does.
pub fn read_settings<'a>(
    alloc: Global,
    words: &[&'a str],
) -> Result<(Icv, Vec<Refusal>), SettingsError<'a>>
    ensures { Gives (λ read. (read.0, read.1.items)) (map (λ word. word.now) words.now) result }
{
    if let Some(word) = first_without(words) {
        return Err(SettingsError::NoEquals(word));
    }
    let pairs = split_all(alloc, words)?;
    let (icv, ignored) = read_env(alloc, pairs.as_slice())?;
    Ok((icv, ignored))
}

/// The first word that has no `=`.
fn first_without<'a>(words: &[&'a str]) -> Option<&'a str>
    ensures { option_map (λ word. word.now) result
        ≡ first_without (map (λ word. word.now) words.now) }
{
    words.iter().find(|word| !has_equals(word)).copied()
}

/// Whether a word has an `=`.
fn has_equals(word: &str) -> bool
    ensures { result ≡ has_equals word.now }
{
    word.contains('=')
}

/// The name and the value of each word, of which each has an `=`, cut at its first one.
fn split_all<'a>(alloc: Global, words: &[&'a str]) -> Result<Vec<(&'a str, &'a str)>, AllocError>
    requires { first_without (map (λ word. word.now) words.now) ≡ None }
    ensures { IfOk result (λ pairs. ArePairsOf words.now pairs.items) }
{
    let mut pairs = Vec::new(alloc);
    for word in words {
        pairs.push(split(word))?;
    }
    Ok(pairs)
}

/// What stands before the first `=` of a word, of which it has one, and what behind it.
fn split<'a>(word: &'a str) -> (&'a str, &'a str)
    requires { IsTrue (has_equals word.now) }
    ensures { pair_of word.now ≡ Some (result.0.now, result.1.now) }
{
    word.split_once('=').unwrap()
}

//! The words of a payload.

ghost use Rattle.std.specs.Prelude.{◌≡◌, ◌≤◌, ◌<◌, ◌↔◌, length, IsTrue};
ghost use Rattle.gomp_types.specs.Singles.{with_word};
ghost use Rattle.gomp_types.specs.declared.payload.TheConstants.{MAX_WORDS};

use gomp_types::Payload;

/// Appends a word, if there is room.
pub fn push(this: &mut Payload, word: u64) -> bool
    ensures room { IsTrue result ↔ (length this.old < MAX_WORDS) }
    ensures words { this.new ≡ with_word this.old word }
{
    this.push(word)
}

/// The words.
pub fn as_slice(this: &Payload) -> &[u64]
    ensures words { result.now ≡ this.now }
    ensures few { length result.now ≤ MAX_WORDS }
{
    this.as_slice()
}

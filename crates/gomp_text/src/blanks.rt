//! Blanks around a text, and words in any case.

ghost use Rattle.std.specs.Prelude.{◌≡◌};
ghost use Rattle.gomp_text.specs.Words.{same_word};
ghost use Rattle.gomp_text.specs.Blanks.{is_blank, past_blanks, before_blanks, without_blanks, in_small_letters};

/// The text without the blanks, which are space and tab, before and behind. Those between other
/// bytes stay.
pub fn without_blanks(text: &[u8]) -> &[u8]
    ensures { result.now ≡ without_blanks text.now }
{
    before_blanks(past_blanks(text))
}

/// The bytes from the first on that is no blank.
fn past_blanks(mut text: &[u8]) -> &[u8]
    ensures { result.now ≡ past_blanks text.entry.now }
{
    while let [first, rest @ ..] = text
        && is_blank(*first)
    {
        text = rest;
    }
    text
}

/// The bytes up to the last that is no blank.
fn before_blanks(mut text: &[u8]) -> &[u8]
    ensures { result.now ≡ before_blanks text.entry.now }
{
    while let [rest @ .., last] = text
        && is_blank(*last)
    {
        text = rest;
    }
    text
}

/// Whether a byte is a space or a tab.
fn is_blank(byte: u8) -> bool
    ensures { result ≡ is_blank byte }
{
    matches!(byte, b' ' | b'\t')
}

/// Whether a word is this one; `A` to `Z` and `a` to `z` count as the same letters.
pub fn is_word_in_any_case(word: &[u8], name: &[u8]) -> bool
    ensures { result ≡ same_word (in_small_letters word.now) (in_small_letters name.now) }
{
    word.eq_ignore_ascii_case(name)
}

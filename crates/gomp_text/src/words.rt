//! The lines and words of a text.

ghost use Rattle.std.specs.Prelude.{◌≡◌, ◌<◌, length, IfSome, option_copied};
ghost use Rattle.gomp_text.specs.Words.{HasParts, IsFirstWord, is_ascii, cut_at, past_spaces, rest_of_cut, same_word};

/// The bytes before the first `separator`, which is any byte, and those after it. None in the place
/// of those if no separator stands in the text.
pub fn cut_at(text: &[u8], separator: u8) -> (&[u8], Option<&[u8]>)
    ensures before { result.0.now ≡ (cut_at separator text.now).0 }
    ensures after { option_copied result.1 ≡ (cut_at separator text.now).1 }
    ensures parts { HasParts separator text.now result.0.now (option_copied result.1) }
    ensures shorter { IfSome result.1 (λ rest. length rest.now < length text.now) }
{
    match text.iter().position(|&byte| byte == separator) {
        Some(at) => (&text[..at], Some(&text[at + 1..])),
        None => (text, None),
    }
}

/// The bytes from the first on that is no space.
fn past_spaces(mut text: &[u8]) -> &[u8]
    ensures { result.now ≡ past_spaces text.entry.now }
{
    while let [b' ', rest @ ..] = text {
        text = rest;
    }
    text
}

/// The first word of a line, and the rest of the line after it. None if there is no word: the
/// line is empty, or has spaces alone.
pub fn next_word(line: &[u8]) -> Option<(&[u8], &[u8])>
    ensures words { IsFirstWord line.now result }
    ensures rest { IfSome result
        (λ found. found.1.now ≡ rest_of_cut (cut_at 32 (past_spaces line.now)).1) }
{
    let line = past_spaces(line);
    if line.is_empty() {
        return None;
    }
    let (word, after) = cut_at(line, b' ');
    match after {
        Some(rest) => Some((word, rest)),
        None => Some((word, b"")),
    }
}

/// Whether all bytes are ASCII, which is 0 to 127.
pub fn is_ascii(line: &[u8]) -> bool
    ensures { result ≡ is_ascii line.now }
{
    line.iter().all(|byte| *byte < 128)
}

/// Whether a word is this one, byte for byte.
pub fn is_word(word: &[u8], name: &[u8]) -> bool
    ensures { result ≡ same_word word.now name.now }
{
    word == name
}

//! The numbers of a text.

ghost use Rattle.std.specs.Prelude.{◌≡◌, ◌≤◌, ◌^◌};
ghost use Rattle.gomp_text.specs.Numbers.{unsigned, signed};

/// The number that these digits write, up to `most`. None if there is no digit, or another byte,
/// or if the number is larger.
pub fn unsigned(word: &[u8], most: u64) -> Option<u64>
    ensures { result ≡ unsigned most word.now }
{
    if word.is_empty() {
        return None;
    }
    let mut number: u64 = 0;
    for byte in word {
        if !byte.is_ascii_digit() {
            return None;
        }
        if number > most / 10 {
            return None;
        }
        let tens = number * 10;
        let digit = (byte - b'0') as u64;
        if digit > most - tens {
            return None;
        }
        number = tens + digit;
    }
    Some(number)
}

/// The number that digits write, before which `-` may stand. None if there is no digit, or
/// another byte, or if the number is no `i64`.
pub fn signed(word: &[u8]) -> Option<i64>
    ensures { result ≡ signed word.now }
{
    if let [b'-', digits @ ..] = word {
        return match unsigned(digits, 1 << 63) {
            Some(number) => Some((-(number as i128)) as i64),
            None => None,
        };
    }
    match unsigned(word, i64::MAX as u64) {
        Some(number) => Some(number as i64),
        None => None,
    }
}

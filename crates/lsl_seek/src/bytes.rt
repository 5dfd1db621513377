//! Lines, words and numbers in bytes.

ghost use Rattle.std.specs.Prelude.{◌≡◌, ◌+◌, ◌*◌, ◌^◌, ◌<◌, ◌≤◌, length};
ghost use Rattle.std.specs.List.{prefix_len};
ghost use Rattle.lsl_seek.specs.Bytes.{Sees, after, before, is_not, is_word, number_at, number_of, word_at};

/// What comes before the first such byte, and what after it. Without one it is the whole text, and nothing.
pub fn cut(text: &[u8], by: u8) -> (&[u8], &[u8])
    ensures front { result.0.now ≡ before by text.now }
    ensures rest { result.1.now ≡ after by text.now }
    ensures shorter { 0 < length text.now → length result.1.now < length text.now }
{
    let end = length_before(text, by);
    if end == text.len() {
        return (text, &text[end..]);
    }
    (&text[..end], &text[end + 1..])
}

// How many bytes come before the first such byte.
fn length_before(text: &[u8], by: u8) -> usize
    ensures count { result ≡ prefix_len (is_not by) text.now }
    ensures within { result ≤ length text.now }
{
    let mut n = 0;
    let mut rest = text;
    'bytes: while let [b, more @ ..] = rest {
        if *b == by {
            break;
        }
        n += 1;
        rest = more;
    }
    n
}

/// The number of decimal digits, if it has at least one digit and is below 2^32.
pub fn number(digits: &[u8]) -> Option<u32>
    ensures { result ≡ number_of digits.now }
{
    if digits.is_empty() {
        return None;
    }
    let mut n: u64 = 0;
    let mut rest = digits;
    'digits: while let [b, more @ ..] = rest {
        if *b < b'0' || b'9' < *b {
            return None;
        }
        n = n * 10 + u64::from(*b - b'0');
        if u64::from(u32::MAX) < n {
            return None;
        }
        rest = more;
    }
    Some(n as u32)
}

/// The number that a text begins with, up to its first space, and what comes after the space.
pub fn take_number(text: &[u8]) -> Option<(u32, &[u8])>
    ensures { Sees (λ x. (x.0, x.1.now)) result (number_at text.now) }
{
    let (word, after) = cut(text, b' ');
    let n = number(word)?;
    Some((n, after))
}

/// The word that a text begins with, up to its first space, and what comes after the space.
pub fn take_word(text: &[u8]) -> Option<(&[u8], &[u8])>
    ensures { Sees (λ x. (x.0.now, x.1.now)) result (word_at text.now) }
{
    let (word, after) = cut(text, b' ');
    if word.is_empty() {
        return None;
    }
    Some((word, after))
}

/// Whether a text is one word: it has no space and isn't empty.
pub fn is_word(text: &[u8]) -> bool
    ensures { result ≡ is_word text.now }
{
    !text.is_empty() && length_before(text, b' ') == text.len()
}

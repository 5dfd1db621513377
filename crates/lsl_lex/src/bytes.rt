//! Kinds of bytes, and how many of a kind are at the front.

ghost use Rattle.std.specs.Prelude.{◌≡◌, ◌≤◌, length};
ghost use Rattle.std.specs.List.{prefix_len};
ghost use Rattle.lsl_text.specs.Number.{is_blank};
ghost use Rattle.lsl_lex.specs.Bytes.{is_letter, is_decimal, is_hexadecimal, is_name_byte, is_in_line};

pub fn is_blank(b: u8) -> bool
    ensures { result ≡ is_blank b }
{
    (9 <= b && b <= 13) || b == b' '
}

pub fn is_letter(b: u8) -> bool
    ensures { result ≡ is_letter b }
{
    b.is_ascii_alphabetic() || b == b'_'
}

pub fn is_decimal(b: u8) -> bool
    ensures { result ≡ is_decimal b }
{
    char::from(b).is_digit(10)
}

pub fn is_hexadecimal(b: u8) -> bool
    ensures { result ≡ is_hexadecimal b }
{
    char::from(b).is_digit(16)
}

pub fn name_length(text: &[u8]) -> usize
    ensures count { result ≡ prefix_len is_name_byte text.now }
    ensures within { result ≤ length text.now }
{
    let mut n = 0;
    let mut rest = text;
    'bytes: while let [b, more @ ..] = rest {
        if !(is_letter(*b) || is_decimal(*b)) {
            break;
        }
        n += 1;
        rest = more;
    }
    n
}

pub fn decimal_length(text: &[u8]) -> usize
    ensures count { result ≡ prefix_len is_decimal text.now }
    ensures within { result ≤ length text.now }
{
    let mut n = 0;
    let mut rest = text;
    'bytes: while let [b, more @ ..] = rest {
        if !is_decimal(*b) {
            break;
        }
        n += 1;
        rest = more;
    }
    n
}

pub fn hexadecimal_length(text: &[u8]) -> usize
    ensures count { result ≡ prefix_len is_hexadecimal text.now }
    ensures within { result ≤ length text.now }
{
    let mut n = 0;
    let mut rest = text;
    'bytes: while let [b, more @ ..] = rest {
        if !is_hexadecimal(*b) {
            break;
        }
        n += 1;
        rest = more;
    }
    n
}

pub fn line_length(text: &[u8]) -> usize
    ensures count { result ≡ prefix_len is_in_line text.now }
    ensures within { result ≤ length text.now }
{
    let mut n = 0;
    let mut rest = text;
    'bytes: while let [b, more @ ..] = rest {
        if *b == b'\n' {
            break;
        }
        n += 1;
        rest = more;
    }
    n
}

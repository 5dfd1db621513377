//! The words of a row.

/// What is before the first sign, and what is after it: all and nothing if there is none.
pub fn parted<'a>(text: &'a str, sign: &str) -> (&'a str, &'a str) {
    text.split_once(sign).unwrap_or((text, ""))
}

/// The number that a word means, or 0: then its row fails by what is shown.
pub fn long(word: &str) -> u64 {
    word.parse::<u64>().unwrap_or(0)
}

pub fn number(word: &str) -> u32 {
    word.parse::<u32>().unwrap_or(0)
}

pub fn signed(word: &str) -> i32 {
    word.parse::<i32>().unwrap_or(0)
}

pub fn short(word: &str) -> usize {
    word.parse::<u16>().unwrap_or(0) as usize
}

pub fn byte(word: &str) -> u8 {
    word.parse::<u8>().unwrap_or(0)
}

//! The words of a request.
ghost use Rattle.std.specs.Prelude.{◌≡◌, IfOk, IsErrOf, string_bytes};
ghost use Rattle.std.specs.Str.{IsUtf8};
ghost use Rattle.lsl_page.specs.declared.words.Refused.TheVariants.{NoMemory as WithoutMemory};

use std::alloc::{AllocError, AllocFailed, Global};
use std::str;

/// Why a request isn't run.
#[derive(Clone, Copy, Debug, PartialEq, Eq)]
pub enum Refused {
    /// It isn't in its form.
    NotInForm,
    /// There was no memory for its words.
    NoMemory,
}

impl From<AllocError> for Refused {
    ghost from_gives = { λ _ refused. refused ≡ WithoutMemory };

    fn from(_: AllocError) -> Refused {
        Refused::NoMemory
    }
}

impl<T: Drop> From<AllocFailed<T>> for Refused {
    ghost from_gives = { λ _ refused. refused ≡ WithoutMemory };

    fn from(_: AllocFailed<T>) -> Refused {
        Refused::NoMemory
    }
}

/// A word from its bytes. It takes memory for a copy.
pub fn read_word(alloc: Global, bytes: &[u8]) -> Result<String, Refused>
    ensures ok { IfOk result (λ word. (string_bytes word ≡ bytes.now) × IsUtf8 bytes.now) }
    ensures form { IsErrOf result Refused.NotInForm → ¬ IsUtf8 bytes.now }
{
    match str::from_utf8(bytes) {
        Ok(word) => Ok(String::from_str(alloc, word)?),
        Err(_) => Err(Refused::NotInForm),
    }
}

/// The words of some lines, each a line. It takes memory for copies.
pub fn read_lines(alloc: Global, bytes: &[u8]) -> Result<Vec<String>, Refused>
    ensures form { IsErrOf result Refused.NotInForm → ¬ IsUtf8 bytes.now }
{
    let mut words = Vec::new(alloc);
    if bytes.is_empty() {
        return Ok(words);
    }
    match str::from_utf8(bytes) {
        Ok(text) => {
            for line in text.split('\n') {
                words.push(String::from_str(alloc, line)?)?;
            }
            Ok(words)
        }
        Err(_) => Err(Refused::NotInForm),
    }
}

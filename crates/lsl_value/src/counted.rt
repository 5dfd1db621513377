//! Strings that know how many characters they have.

ghost use Rattle.std.specs.Prelude.{◌≡◌, ◌+◌, ◌≤◌, ◌++◌, length, if◌then◌else◌, IfOk};
ghost use Rattle.std.specs.Rc.{rc_value};
ghost use Rattle.std.specs.Result.{is_ok};
ghost use Rattle.std.specs.Str.{chars, encode_utf8_all, IsAscii};
ghost use Rattle.std.specs.String.{string_bytes};
ghost use Rattle.lsl_value.specs.Limits.{most_text_bytes};
ghost use Rattle.lsl_value.specs.Text.{IsText};

use lsl_text::NoMemory;
use std::marker::Model;
use std::rc::Rc;

/// A string of at most 1,048,576 bytes, and how many characters it has.
#[derive(Debug, Drop)]
pub struct CountedString {
    string: String,
    characters: usize,
}

impl Model for CountedString {
    ghost use Rattle.std.specs.Prelude.{List, ℕ, ◌≡◌, ◌≤◌, length};
    ghost use Rattle.std.specs.Str.{chars};
    ghost use Rattle.std.specs.String.{string_bytes};
    ghost use Rattle.lsl_value.specs.Limits.{most_text_bytes};

    ghost Value = { List ℕ };

    ghost view = { λ s. chars (string_bytes s.string) };

    ghost invariant = { λ s. (length (string_bytes s.string) ≤ most_text_bytes)
        × (s.characters ≡ length (chars (string_bytes s.string))) };
}

impl CountedString {
    /// This string, walked once where it is ASCII, and else twice.
    pub fn new(string: String) -> CountedString
        requires { length (string_bytes string) ≤ most_text_bytes }
        ensures { result ≡ chars (string_bytes string) }
    {
        let characters = count_characters(string.as_str());
        CountedString { string, characters }
    }

    /// This string of ASCII characters. No walk.
    pub fn from_ascii(string: String) -> CountedString
        requires ascii { IsAscii (string_bytes string) }
        requires short { length (string_bytes string) ≤ most_text_bytes }
        ensures { result ≡ string_bytes string }
    {
        let characters = string.as_str().len();
        CountedString { string, characters }
    }

    /// The string.
    pub fn as_str(&self) -> &str
        ensures value { result.now ≡ encode_utf8_all self.now }
        ensures valid { IsText self.now }
    {
        self.string.as_str()
    }

    /// How many characters there are. No walk.
    pub fn characters(&self) -> usize
        ensures value { result ≡ length self.now }
        ensures within { result ≤ most_text_bytes }
    {
        self.characters
    }

    /// Adds the other string's characters at the end: the two together keep to the limit.
    pub fn push(&mut self, other: &CountedString) -> Result<(), NoMemory>
        requires { length (encode_utf8_all self.old) + length (encode_utf8_all other.now) ≤ most_text_bytes }
        ensures { self.new ≡ (if is_ok result then self.old ++ other.now else self.old) }
    {
        self.string.push_str(other.as_str())?;
        self.characters += other.characters;
        Ok(())
    }

    /// The other string's characters behind this one's, as a new string: the two together keep to the limit.
    pub fn joined(&self, other: &CountedString) -> Result<Rc<CountedString>, NoMemory>
        requires { length (encode_utf8_all self.now) + length (encode_utf8_all other.now) ≤ most_text_bytes }
        ensures { IfOk result (λ held. rc_value held ≡ self.now ++ other.now) }
    {
        let alloc = *self.string.allocator();
        let mut string = String::with_capacity(alloc, self.string.len() + other.string.len())?;
        string.push_str(self.as_str())?;
        string.push_str(other.as_str())?;
        let characters = self.characters + other.characters;
        Ok(Rc::new(alloc, CountedString { string, characters })?)
    }
}

fn count_characters(text: &str) -> usize
    ensures { result ≡ length (chars text.now) }
{
    if text.is_ascii() {
        text.len()
    } else {
        text.chars().count()
    }
}

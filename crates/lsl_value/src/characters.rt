//! Texts: lists of Unicode characters.

ghost use Rattle.std.specs.Prelude.{◌≡◌, ◌+◌, ◌≤◌, ◌<◌, ◌++◌, ◌↔◌, [], length, if◌then◌else◌, nat_eq, IfOk, OnOk, OnErr, MatchOption, ◌⊎◌, IsTrue};
ghost use Rattle.std.specs.Cmp.{partial_equiv_from_equiv};
ghost use Rattle.std.specs.Cmp.Lexicographic.{nat_list_eq_equiv, pointwise};
ghost use Rattle.std.specs.Rc.{rc_value};
ghost use Rattle.std.specs.Result.{is_ok};
ghost use Rattle.std.specs.Str.{chars, encode_utf8_all, IsAscii};
ghost use Rattle.std.specs.String.{string_bytes};
ghost use Rattle.lsl_text.specs.Number.{decimal_of};
ghost use Rattle.lsl_value.specs.Limits.{most_text_bytes};
ghost use Rattle.lsl_value.specs.Text.{IsText, IsTextOf, IsNoText, integer_of_text, text_charge_of};

use crate::charges::TEXT_CHARGE;
use crate::counted::CountedString;
use lsl_text::{NoMemory, leading_integer, push_decimal};
use std::alloc::Global;
use std::marker::Model;
use std::rc::Rc;

/// How many bytes of UTF-8 a text has at most.
pub const MAX_TEXT_BYTES: usize = 1_048_576;

/// A text: a list of characters, of at most 1,048,576 bytes in UTF-8. Copies share it.
#[derive(Debug, Drop)]
pub struct Text {
    held: Option<Rc<CountedString>>,
}

impl Model for Text {
    ghost use Rattle.std.specs.Prelude.{List, ℕ};
    ghost use Rattle.std.specs.Rc.{rc_value};
    ghost use Rattle.lsl_value.specs.Held.{held_items};

    ghost Value = { List ℕ };

    ghost view = { λ t. held_items t.held (λ held. rc_value held) };
}

impl Text {
    /// No character. Takes no memory.
    pub fn new() -> Text
        ensures { result ≡ [] }
    {
        Text { held: None }
    }

    /// The text of these bytes: none where they aren't UTF-8 or are more than 1,048,576. Takes memory for a copy.
    pub fn from_utf8(alloc: Global, bytes: &[u8]) -> Result<Option<Text>, NoMemory>
        ensures ok { IfOk result (λ found. MatchOption found (IsNoText bytes.now) (IsTextOf bytes.now)) }
    {
        if bytes.len() > MAX_TEXT_BYTES {
            return Ok(None);
        }
        match std::str::from_utf8(bytes) {
            Ok(text) => Ok(Some(Text::from_string(String::from_str(alloc, text)?)?)),
            Err(_) => Ok(None),
        }
    }

    /// This string as a text, walked once for its characters. Takes memory to share it, and copies nothing; none for
    /// the empty one.
    pub fn from_string(text: String) -> Result<Text, NoMemory>
        requires { length (string_bytes text) ≤ most_text_bytes }
        ensures { IfOk result (λ made. made ≡ chars (string_bytes text)) }
    {
        if text.as_str().is_empty() {
            return Ok(Text::new());
        }
        Text::shared(*text.allocator(), CountedString::new(text))
    }

    /// The text of these ASCII bytes, in one pass. Takes memory to share them, and copies nothing.
    pub fn from_ascii(bytes: Vec<u8>) -> Result<Text, NoMemory>
        requires ascii { IsAscii bytes.items }
        requires short { length bytes.items ≤ most_text_bytes }
        ensures { IfOk result (λ text. text ≡ bytes.items) }
    {
        match String::from_utf8(bytes) {
            Ok(text) => Text::shared(*text.allocator(), CountedString::from_ascii(text)),
            Err(_) => unreachable!(),
        }
    }

    fn shared(alloc: Global, string: CountedString) -> Result<Text, NoMemory>
        ensures { IfOk result (λ text. text ≡ string) }
    {
        let held = Rc::new(alloc, string)?;
        Ok(Text { held: Some(held) })
    }

    /// The integer's text, in decimal.
    pub fn decimal(alloc: Global, n: i32) -> Result<Text, NoMemory>
        ensures value { IfOk result (λ text. text ≡ decimal_of n) }
        ensures short { IfOk result (λ text. length (encode_utf8_all text) ≤ 11) }
    {
        let mut bytes = Vec::new(alloc);
        push_decimal(&mut bytes, i64::from(n))?;
        Text::from_ascii(bytes)
    }

    /// The text in UTF-8. Takes no memory.
    pub fn bytes(&self) -> &[u8]
        ensures value { result.now ≡ encode_utf8_all self.now }
        ensures valid { IsText self.now }
    {
        self.as_str().as_bytes()
    }

    /// The text as std's. Takes no memory.
    pub fn as_str(&self) -> &str
        ensures value { result.now ≡ encode_utf8_all self.now }
        ensures valid { IsText self.now }
    {
        match &self.held {
            Some(held) => held.as_str(),
            None => "",
        }
    }

    /// How many characters the text has. Takes no memory, and no walk.
    pub fn character_count(&self) -> usize
        ensures value { result ≡ length self.now }
        ensures within { result ≤ most_text_bytes }
    {
        match &self.held {
            Some(held) => held.characters(),
            None => 0,
        }
    }

    /// Whether each character is ASCII, a byte in UTF-8. Takes no memory, and no walk.
    pub fn is_ascii(&self) -> bool
        ensures { IsTrue result ↔ IsAscii self.now }
    {
        self.character_count() == self.bytes().len()
    }

    /// What a text or a key of this text is charged: 16 and its bytes. Takes no memory, and no walk.
    pub fn charge(&self) -> u64
        ensures value { result ≡ text_charge_of self.now }
        ensures within { result ≤ 1048592 }
    {
        TEXT_CHARGE + self.bytes().len() as u64
    }

    /// The integer that the text begins with, as [`leading_integer`] reads it. Takes no memory.
    pub fn integer(&self) -> i32
        ensures { result ≡ integer_of_text self.now }
    {
        leading_integer(self.bytes())
    }

    /// An equal text, which shares this one's characters. Takes no memory, and no walk.
    pub fn copy(&self) -> Result<Text, NoMemory>
        ensures { IfOk result (λ text. text ≡ self.now) }
    {
        match &self.held {
            Some(held) => Ok(Text {
                held: Some(held.clone()?),
            }),
            None => Ok(Text::new()),
        }
    }

    /// Adds the other text's characters at the end: the two together keep to the limit. Copies the text where another
    /// one shares it.
    pub fn push_text(&mut self, other: &Text) -> Result<(), NoMemory>
        requires { length (encode_utf8_all self.old) + length (encode_utf8_all other.now) ≤ most_text_bytes }
        ensures ok { OnOk result (self.new ≡ self.old ++ other.now) }
        ensures unchanged { OnErr result (self.new ≡ self.old) }
    {
        let Some(more) = &other.held else {
            return Ok(());
        };
        match &mut self.held {
            Some(held) => push_held(held, more),
            None => {
                self.held = Some(more.clone()?);
                Ok(())
            }
        }
    }
}

// Adds characters at the end: in place where nobody else holds the string, else to a copy.
fn push_held(held: &mut Rc<CountedString>, more: &CountedString) -> Result<(), NoMemory>
    requires { length (encode_utf8_all (rc_value held.old)) + length (encode_utf8_all more.now) ≤ most_text_bytes }
    ensures { rc_value held.new ≡ (if is_ok result then rc_value held.old ++ more.now else rc_value held.old) }
{
    if let Some(string) = Rc::get_mut(held) {
        return string.push(more);
    }
    *held = held.joined(more)?;
    Ok(())
}

impl PartialEq for Text {
    ghost eq = { pointwise nat_eq };

    ghost laws = { partial_equiv_from_equiv nat_list_eq_equiv };

    fn eq(&self, other: &Text) -> bool {
        self.bytes() == other.bytes()
    }
}

impl Eq for Text {
    ghost laws = { nat_list_eq_equiv };
}

//! A cursor over a text, which keeps the line and the column of its place.

ghost use Rattle.std.specs.Prelude.{◌+◌, ◌≤◌};

use crate::Span;

/// A place in a text: the byte's offset, and its line and column.
///
/// A cursor holds no text: each call takes the text that the cursor moves over. It takes no memory.
#[derive(Clone, Copy, Debug, PartialEq, Eq)]
pub struct Cursor {
    pub offset: u32,
    pub line: u32,
    pub col: u32,
    ghost line_bound: { line ≤ offset + 1 },
    ghost column_bound: { col ≤ offset + 1 },
}

impl Cursor {
    ghost use Rattle.std.specs.Prelude.{◌≡◌, ◌+◌, ◌<◌, ◌≤◌, ◌↔◌, ℕ, List, length, slice_get, IsNone};
    ghost use Rattle.lsl_text.specs.Place.{IsAt};

    /// The start of every text.
    pub fn new() -> Cursor
        ensures start { result.offset ≡ 0 }
        ensures place { (text : List ℕ) → IsAt text result }
    {
        Cursor {
            offset: 0,
            line: 1,
            col: 1,
        }
    }

    /// The byte at the cursor, and `None` exactly at the end of the text.
    pub fn peek(&self, text: &[u8]) -> Option<u8>
        ensures byte { result ≡ slice_get text.now self.now.offset }
        ensures end { IsNone result ↔ (length text.now ≤ self.now.offset) }
    {
        text.get(self.offset as usize).copied()
    }

    /// Moves forward by one byte. After a line feed a new line begins, after any other byte a new column.
    pub fn step(&mut self, text: &[u8])
        requires byte { self.old.offset < length text.now }
        requires room { self.old.offset < 4294967294 }
        ensures next { self.new.offset ≡ self.old.offset + 1 }
        ensures place { IsAt text.now self.old → IsAt text.now self.new }
    {
        *self = self.behind(text[self.offset as usize]);
    }

    /// The part of the text from another cursor's place to this one's.
    pub fn span(&self, from: &Cursor) -> Span
        requires { from.now.offset ≤ self.now.offset }
        ensures { result
            ≡ record { start = from.now.offset; end = self.now.offset; line = from.now.line; col = from.now.col } }
    {
        Span {
            start: from.offset,
            end: self.offset,
            line: from.line,
            col: from.col,
        }
    }

    // The cursor after this byte.
    fn behind(&self, b: u8) -> Cursor
        requires { self.now.offset < 4294967294 }
        ensures next { result.offset ≡ self.now.offset + 1 }
        ensures line { b ≡ 10 → (result.line ≡ self.now.line + 1) × (result.col ≡ 1) }
        ensures column { (b ≡ 10 → ⊥) → (result.line ≡ self.now.line) × (result.col ≡ self.now.col + 1) }
    {
        if b == b'\n' {
            Cursor {
                offset: self.offset + 1,
                line: self.line + 1,
                col: 1,
            }
        } else {
            Cursor {
                offset: self.offset + 1,
                line: self.line,
                col: self.col + 1,
            }
        }
    }
}

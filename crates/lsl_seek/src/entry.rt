//! The entries of a trace, and the values that they set.

ghost use Rattle.std.specs.Prelude.{◌≡◌, ◌==◌, ◌&&◌, not};
ghost use Rattle.lsl_seek.specs.Bytes.{Sees, before};
ghost use Rattle.lsl_seek.specs.Calls.{tells_call};
ghost use Rattle.lsl_seek.specs.Entries.{at_of, entry_of, is_said, is_stop, line, mark_sort, said_of, set_of, set_words, slot_of, sort_of_word, value};

use crate::bytes::{cut, number, take_number, take_word};

/// What an entry is: where a script is at its mark, or what the journal says.
#[derive(Clone, Copy, Debug, PartialEq, Eq, Drop)]
pub enum Sort {
    Enter,
    Statement,
    Again,
    Leave,
    Note,
    Took,
    Done,
    Fault,
    /// `chat` or `owner`.
    Speech,
    /// A line that is no script's, or that none was active for: `home` and `drop`.
    Apart,
    /// Any other line of the journal.
    Other,
}

impl Sort {
    /// Whether one can stop there.
    pub fn is_stop(self) -> bool
        ensures { result ≡ is_stop self }
    {
        matches!(
            self,
            Sort::Statement | Sort::Again | Sort::Leave | Sort::Fault
        )
    }

    /// Whether it is a line of the journal.
    pub fn is_said(self) -> bool
        ensures { result ≡ is_said self }
    {
        matches!(
            self,
            Sort::Took | Sort::Done | Sort::Fault | Sort::Speech | Sort::Apart | Sort::Other
        )
    }

    /// Whether it says which call its script is in after it.
    pub fn tells_call(self) -> bool
        ensures { result ≡ tells_call self }
    {
        !matches!(self, Sort::Took | Sort::Speech | Sort::Apart | Sort::Other)
    }

    /// The sort of a mark, by its word.
    pub fn of_mark(word: &[u8]) -> Option<Sort>
        ensures { result ≡ mark_sort word.now }
    {
        match word {
            b"enter" => Some(Sort::Enter),
            b"stmt" => Some(Sort::Statement),
            b"again" => Some(Sort::Again),
            b"leave" => Some(Sort::Leave),
            b"note" => Some(Sort::Note),
            _ => None,
        }
    }

    // The sort of a line of the journal, by its first word.
    fn of_said(word: &[u8]) -> Sort
        ensures { result ≡ sort_of_word word.now }
    {
        match word {
            b"took" => Sort::Took,
            b"done" => Sort::Done,
            b"fault" => Sort::Fault,
            b"chat" | b"owner" => Sort::Speech,
            b"home" | b"drop" => Sort::Apart,
            _ => Sort::Other,
        }
    }

    /// The word for it.
    pub fn word(self) -> &'static [u8] {
        match self {
            Sort::Enter => b"enter",
            Sort::Statement => b"stmt",
            Sort::Again => b"again",
            Sort::Leave => b"leave",
            Sort::Note => b"note",
            Sort::Took | Sort::Done | Sort::Fault | Sort::Speech | Sort::Apart | Sort::Other =>
                b"said",
        }
    }
}

/// An entry's own line. One of the journal has mark, serial and outer 0.
#[derive(Clone, Copy)]
pub struct Entry<'a> {
    pub step: u32,
    pub segment: u32,
    pub script: u32,
    pub mark: u32,
    pub serial: u32,
    pub outer: u32,
    pub said: &'a [u8],
}

impl<'a> Entry<'a> {
    /// Whether it is one of a call's marks.
    pub fn is_of(&self, serial: u32) -> bool
        ensures { result ≡ (not (self.now.mark == 0) && self.now.serial == serial) }
    {
        self.mark != 0 && self.serial == serial
    }
}

/// The entry of what follows the word `at`.
#[tactic(auto, unfolding(crate::specs::Entries::at_of))]
pub fn parse_at(text: &[u8]) -> Option<Entry>
    ensures { Sees line result (at_of text.now) }
{
    let (step, text) = take_number(text)?;
    let (segment, text) = take_number(text)?;
    let (script, text) = take_number(text)?;
    let (mark, text) = take_number(text)?;
    let (serial, text) = take_number(text)?;
    let outer = number(text)?;
    Some(Entry {
        step,
        segment,
        script,
        mark,
        serial,
        outer,
        said: b"",
    })
}

/// The entry of what follows the word `said`.
#[tactic(auto, unfolding(crate::specs::Entries::said_of))]
pub fn parse_said(text: &[u8]) -> Option<Entry>
    ensures { Sees line result (said_of text.now) }
{
    let (step, text) = take_number(text)?;
    let (segment, said) = take_number(text)?;
    let (first, after) = take_word(said)?;
    let (owner, _) = take_number(after)?;
    let script = match first {
        b"home" => 0,
        _ => owner,
    };
    Some(Entry {
        step,
        segment,
        script,
        mark: 0,
        serial: 0,
        outer: 0,
        said,
    })
}

/// The entry of a line, if it is one of an entry.
#[tactic(auto, unfolding(crate::specs::Entries::entry_of))]
pub fn parse_entry(text: &[u8]) -> Option<Entry>
    ensures { Sees line result (entry_of text.now) }
{
    let (first, after) = cut(text, b' ');
    match first {
        b"at" => parse_at(after),
        b"said" => parse_said(after),
        _ => None,
    }
}

/// The sort of a line of the journal.
pub fn said_sort(said: &[u8]) -> Sort
    ensures { result ≡ sort_of_word (before 32 said.now) }
{
    Sort::of_said(cut(said, b' ').0)
}

/// Which of a call's variables: a number, or the value that is returned.
#[derive(Clone, Copy, Debug, PartialEq, Eq, Hash, Drop)]
pub enum Slot {
    Number(u32),
    Result,
}

/// The slot of a word.
pub fn parse_slot(word: &[u8]) -> Option<Slot>
    ensures { result ≡ slot_of word.now }
{
    if word == b"result".as_slice() {
        return Some(Slot::Result);
    }
    Some(Slot::Number(number(word)?))
}

/// A variable's value at an entry. The serial is 0 for a global.
#[derive(Clone, Copy)]
pub struct Set<'a> {
    pub serial: u32,
    pub slot: Slot,
    pub value: &'a [u8],
}

/// The set of a line, if it is one.
#[tactic(auto, unfolding(crate::specs::Entries::set_of))]
pub fn parse_set(text: &[u8]) -> Option<Set>
    ensures { Sees value result (set_of text.now) }
{
    let (first, after) = cut(text, b' ');
    match first {
        b"set" => parse_set_words(after),
        _ => None,
    }
}

/// The set of what follows the word `set`.
#[tactic(auto, unfolding(crate::specs::Entries::set_words))]
pub fn parse_set_words(text: &[u8]) -> Option<Set>
    ensures { Sees value result (set_words text.now) }
{
    let (serial, text) = take_number(text)?;
    let (slot, value) = take_word(text)?;
    let slot = parse_slot(slot)?;
    Some(Set {
        serial,
        slot,
        value,
    })
}

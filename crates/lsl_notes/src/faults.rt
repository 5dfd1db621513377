//! What can be wrong with a notecard.

/// A fault of a notecard.
#[derive(Clone, Copy, PartialEq, Eq, Drop)]
pub enum CardFault {
    /// It has more than 65,536 bytes.
    TooLong,
    /// Its first line that isn't UTF-8, counted from 1.
    NotText(u32),
}

impl CardFault {
    ghost use Rattle.std.specs.Prelude.{◌≡◌};
    ghost use Rattle.lsl_notes.specs.Faults.{line_of_fault, number_of_fault};

    /// The fault's number, as it is printed.
    pub fn number(&self) -> u8
        ensures { result ≡ number_of_fault self.now }
    {
        match self {
            CardFault::NotText(_) => 60,
            CardFault::TooLong => 61,
        }
    }

    /// Its line: 0 where the card is too long.
    pub fn line(&self) -> u32
        ensures { result ≡ line_of_fault self.now }
    {
        match self {
            CardFault::NotText(line) => *line,
            CardFault::TooLong => 0,
        }
    }
}

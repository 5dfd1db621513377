//! How much a copy reports.

use lsl_value::Kind;

/// What a copy reports, the most first.
#[derive(Clone, Copy, Debug, PartialEq, Eq)]
pub enum Tier {
    /// All values, and each result, for which a variable may be added.
    All,
    /// All values, and the results that an existing variable can hold.
    Held,
    Integers,
    NoValues,
    /// Nothing: the copy is the script itself.
    Nothing,
}

impl Tier {
    /// Its number, from 0.
    pub fn number(&self) -> u8 {
        *self as u8
    }

    /// The next tier, which reports less.
    pub fn next(&self) -> Tier {
        match self {
            Tier::All => Tier::Held,
            Tier::Held => Tier::Integers,
            Tier::Integers => Tier::NoValues,
            _ => Tier::Nothing,
        }
    }

    pub fn tells(&self, kind: Kind) -> bool {
        match self {
            Tier::All | Tier::Held => true,
            Tier::Integers => kind == Kind::Int,
            _ => false,
        }
    }
}

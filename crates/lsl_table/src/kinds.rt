//! Short lists of kinds.

ghost use Rattle.std.specs.Prelude.{◌≡◌, ◌≤◌, length};

use lsl_value::Kind;
use std::marker::Model;

/// A list of at most four kinds, held in place.
#[derive(Drop)]
pub struct Kinds {
    held: [Kind; 4],
    count: usize,
}

impl Model for Kinds {
    ghost use Rattle.std.specs.Prelude.{List, ◌≤◌, take};
    ghost use Rattle.lsl_value.specs.declared.tagged.Kind.{Kind};

    ghost Value = { List Kind };

    ghost view = { λ k. take k.count k.held };

    ghost invariant = { λ k. k.count ≤ 4 };
}

impl Kinds {
    /// These kinds. Takes no memory.
    pub fn new(kinds: &[Kind]) -> Kinds
        requires { length kinds.now ≤ 4 }
        ensures { result ≡ kinds.now }
    {
        let mut held = [Kind::Int; 4];
        held[..kinds.len()].copy_from_slice(kinds);
        Kinds {
            held,
            count: kinds.len(),
        }
    }

    /// The kinds. Takes no memory.
    pub fn as_slice(&self) -> &[Kind]
        ensures value { result.now ≡ self.now }
        ensures within { length self.now ≤ 4 }
    {
        &self.held[..self.count]
    }
}

//! Lists: elements are integers, strings and keys, never lists.

ghost use Rattle.std.specs.Prelude.{◌≡◌, [], ◌++◌, if◌then◌else◌, ◌∷◌, ◌+◌, ◌*◌, ◌≤◌, ◌<◌, ◌↔◌, length, drop, slice_range, OnOk, OnErr, IfOk, IsTrue};
ghost use Rattle.std.specs.Rc.{rc_value};
ghost use Rattle.std.specs.Result.{is_ok};
ghost use Rattle.std.specs.Str.{encode_utf8_all};
ghost use Rattle.std.specs.Cmp.{partial_equiv_from_equiv};
ghost use Rattle.lsl_value.specs.Atoms.{atom_charge_of, integer_of_atom, item_charge_of, list_charge_of, text_of_atom};
ghost use Rattle.lsl_value.specs.Limits.{most_items};
ghost use Rattle.lsl_value.specs.Equality.{same_atom, same_atoms};
ghost use Rattle.lsl_value.specs.EqualityLaws.{same_atom_equiv, same_atoms_equiv};

use crate::characters::Text;
use crate::charges::{ELEMENT_CHARGE, INT_CHARGE, LIST_CHARGE};
use crate::shared::{append_held, copied, kept, one_held, push_front_held, push_held};
use lsl_text::NoMemory;
use std::alloc::Global;
use std::marker::Model;
use std::rc::Rc;

/// How many elements a list has at most.
pub const MAX_ITEMS: usize = 65_536;

/// An element of a list.
#[derive(Debug, Drop)]
pub enum Atom {
    Int(i32),
    Str(Text),
    Key(Text),
}

impl Atom {
    /// What the element's value is charged: 8 for an integer, 16 and the bytes for a text or key. Takes no memory.
    pub fn charge(&self) -> u64
        ensures value { result ≡ atom_charge_of self.now }
        ensures within { result ≤ 1048592 }
    {
        match self {
            Atom::Int(_) => INT_CHARGE,
            Atom::Str(text) | Atom::Key(text) => text.charge(),
        }
    }

    /// The element's text: an integer's is its decimal, and any other is shared.
    pub fn text(&self, alloc: Global) -> Result<Text, NoMemory>
        ensures value { IfOk result (λ text. text ≡ text_of_atom self.now) }
        ensures short { IfOk result (λ text. length (encode_utf8_all text) ≤ item_charge_of self.now) }
    {
        match self {
            Atom::Int(n) => Text::decimal(alloc, *n),
            Atom::Str(text) | Atom::Key(text) => text.copy(),
        }
    }

    /// The integer of an element: an integer itself, the one that a string begins with, and 0 for a key. Takes no
    /// memory.
    pub fn integer(&self) -> i32
        ensures { result ≡ integer_of_atom self.now }
    {
        match self {
            Atom::Int(n) => *n,
            Atom::Str(text) => text.integer(),
            Atom::Key(_) => 0,
        }
    }

    /// An equal element, which shares this one's text. Takes no memory.
    pub fn copy(&self) -> Result<Atom, NoMemory>
        ensures { IfOk result (λ atom. atom ≡ self.now) }
    {
        match self {
            Atom::Int(n) => Ok(Atom::Int(*n)),
            Atom::Str(text) => Ok(Atom::Str(text.copy()?)),
            Atom::Key(text) => Ok(Atom::Key(text.copy()?)),
        }
    }
}

/// A list of at most 65,536 elements. Copies share it, and it knows its charge.
#[derive(Debug, Drop)]
pub struct Items {
    alloc: Global,
    held: Option<Rc<Vec<Atom>>>,
    charge: u64,
}

impl Model for Items {
    ghost use Rattle.std.specs.Prelude.{List};
    ghost use Rattle.std.specs.Rc.{rc_value};
    ghost use Rattle.lsl_value.specs.declared.list.Atom.{Atom};

    ghost Value = { List Atom };

    ghost use Rattle.lsl_value.specs.Atoms.{IsKept};
    ghost use Rattle.lsl_value.specs.Held.{held_items};

    ghost view = { λ a. held_items a.held (λ held. (rc_value held).items) };

    ghost invariant = { λ a. IsKept (held_items a.held (λ held. (rc_value held).items)) a.charge };
}

impl Items {
    /// No element. Takes no memory.
    pub fn new(alloc: Global) -> Items
        ensures { result ≡ [] }
    {
        Items {
            alloc,
            held: None,
            charge: LIST_CHARGE,
        }
    }

    /// These elements, walked once for their charge. Takes memory to share them, and copies none.
    pub fn from_vec(list: Vec<Atom>) -> Result<Items, NoMemory>
        requires { length list.items ≤ most_items }
        ensures { IfOk result (λ items. items ≡ list.items) }
    {
        let charge = list_charge(list.as_slice());
        let alloc = *list.allocator();
        if list.is_empty() {
            return Ok(Items::new(alloc));
        }
        let held = Some(Rc::new(alloc, list)?);
        Ok(Items {
            alloc,
            held,
            charge,
        })
    }

    /// The elements as a vector: moved where nobody else holds them, else copied.
    pub fn into_vec(self) -> Result<Vec<Atom>, NoMemory>
        ensures value { IfOk result (λ list. list.items ≡ self) }
        ensures within { length self ≤ most_items }
    {
        let len = self.len();
        self.cut(0, len)
    }

    /// The elements from one place up to another: moved where nobody else holds the list, else copied.
    pub fn cut(self, start: usize, end: usize) -> Result<Vec<Atom>, NoMemory>
        requires ordered { start ≤ end }
        requires within { end ≤ length self }
        ensures { IfOk result (λ list. list.items ≡ slice_range self start end) }
    {
        let Items {
            alloc,
            held,
            charge: _,
        } = self;
        match held {
            None => Ok(Vec::new(alloc)),
            Some(held) => match Rc::try_unwrap(held) {
                Ok(list) => Ok(kept(list, start, end)),
                Err(shared) => copied(alloc, &shared[start..end], 0),
            },
        }
    }

    /// The elements. Takes no memory.
    pub fn as_slice(&self) -> &[Atom]
        ensures value { result.now ≡ self.now }
        ensures within { length self.now ≤ most_items }
    {
        match &self.held {
            Some(held) => held.as_slice(),
            None => &[],
        }
    }

    /// How many elements there are.
    pub fn len(&self) -> usize
        ensures value { result ≡ length self.now }
        ensures within { result ≤ most_items }
    {
        self.as_slice().len()
    }

    /// Whether there is no element.
    pub fn is_empty(&self) -> bool
        ensures { IsTrue result ↔ (self.now ≡ []) }
    {
        self.as_slice().is_empty()
    }

    /// Whether there is no room for another element.
    pub fn is_full(&self) -> bool
        ensures full { IsTrue result ↔ (length self.now ≡ most_items) }
        ensures within { length self.now ≤ most_items }
    {
        self.len() == MAX_ITEMS
    }

    /// What the list is charged: 16, and for each element 8 and its charge. Takes no memory, and no walk.
    pub fn charge(&self) -> u64
        ensures { result ≡ list_charge_of self.now }
    {
        self.charge
    }

    /// An equal list, which shares this one's elements. Takes no memory, and no walk.
    pub fn copy(&self) -> Result<Items, NoMemory>
        ensures { IfOk result (λ items. items ≡ self.now) }
    {
        let held = match &self.held {
            Some(held) => Some(held.clone()?),
            None => None,
        };
        Ok(Items {
            alloc: self.alloc,
            held,
            charge: self.charge,
        })
    }

    /// Adds an element at the end. Copies the list where another one shares it.
    pub fn push(&mut self, atom: Atom) -> Result<(), NoMemory>
        requires { length self.old < most_items }
        ensures ok { OnOk result (self.new ≡ self.old ++ atom ∷ []) }
        ensures unchanged { OnErr result (self.new ≡ self.old) }
    {
        let charge = self.charge + ELEMENT_CHARGE + atom.charge();
        match &mut self.held {
            Some(held) => push_held(held, atom)?,
            None => self.held = Some(one_held(self.alloc, atom)?),
        }
        self.charge = charge;
        Ok(())
    }

    /// Adds an element before the others: one pass. Copies the list where another one shares it.
    pub fn push_front(&mut self, atom: Atom) -> Result<(), NoMemory>
        requires { length self.old < most_items }
        ensures ok { OnOk result (self.new ≡ atom ∷ self.old) }
        ensures unchanged { OnErr result (self.new ≡ self.old) }
    {
        let charge = self.charge + ELEMENT_CHARGE + atom.charge();
        match &mut self.held {
            Some(held) => push_front_held(held, atom)?,
            None => self.held = Some(one_held(self.alloc, atom)?),
        }
        self.charge = charge;
        Ok(())
    }

    /// Adds the other list's elements at the end. Copies a list where another one shares it.
    pub fn append(&mut self, other: Items) -> Result<(), NoMemory>
        requires { length self.old + length other ≤ most_items }
        ensures ok { OnOk result (self.new ≡ self.old ++ other) }
        ensures unchanged { OnErr result (self.new ≡ self.old) }
    {
        let charge = self.charge + (other.charge - LIST_CHARGE);
        match &mut self.held {
            Some(held) => append_held(held, other.into_vec()?)?,
            None => self.held = other.held,
        }
        self.charge = charge;
        Ok(())
    }
}

impl PartialEq for Atom {
    ghost eq = { same_atom };

    ghost laws = { partial_equiv_from_equiv same_atom_equiv };

    fn eq(&self, other: &Atom) -> bool {
        match (self, other) {
            (Atom::Int(a), Atom::Int(b)) => a == b,
            (Atom::Str(a), Atom::Str(b)) | (Atom::Key(a), Atom::Key(b)) => a == b,
            _ => false,
        }
    }
}

impl Eq for Atom {
    ghost laws = { same_atom_equiv };
}

impl PartialEq for Items {
    ghost eq = { same_atoms };

    ghost laws = { partial_equiv_from_equiv same_atoms_equiv };

    fn eq(&self, other: &Items) -> bool {
        self.as_slice() == other.as_slice()
    }
}

impl Eq for Items {
    ghost laws = { same_atoms_equiv };
}

/// What a list of these elements is charged.
fn list_charge(atoms: &[Atom]) -> u64
    requires { length atoms.now ≤ most_items }
    ensures value { result ≡ list_charge_of atoms.now }
    ensures bounded { result ≤ 16 + 1048600 * length atoms.now }
{
    let mut charge = LIST_CHARGE;
    for atom in atoms {
        charge += ELEMENT_CHARGE + atom.charge();
    }
    charge
}

//! Values with their kinds, and lists of values.

ghost use Rattle.std.specs.Prelude.{◌≡◌, [], ◌++◌, ◌∷◌, length, IfOk, OnOk, OnErr};
ghost use Rattle.std.specs.Cmp.{partial_equiv_from_equiv};
ghost use Rattle.std.specs.Cmp.Lexicographic.{pointwise};
ghost use Rattle.lsl_value.specs.Values.{kind_of, charge_of, truth_of, same_value};
ghost use Rattle.lsl_value.specs.EqualityLaws.{same_value_equiv, same_values_equiv};

use crate::characters::Text;
use crate::charges::INT_CHARGE;
use crate::keys::{is_null_key, valid_key};
use crate::list::Items;
use lsl_text::NoMemory;
use std::alloc::Global;
use std::marker::Model;

/// The four kinds of values.
#[derive(Clone, Copy, Debug, PartialEq, Eq, Hash)]
pub enum Kind {
    Int,
    Str,
    Key,
    List,
}

/// A value.
#[derive(Debug, Drop)]
pub enum Value {
    Int(i32),
    Str(Text),
    Key(Text),
    List(Items),
}

impl Value {
    /// The value's kind. Takes no memory.
    pub fn kind(&self) -> Kind
        ensures { result ≡ kind_of self.now }
    {
        match self {
            Value::Int(_) => Kind::Int,
            Value::Str(_) => Kind::Str,
            Value::Key(_) => Kind::Key,
            Value::List(_) => Kind::List,
        }
    }
}

/// What the value is charged: 8 for an integer, 16 and the bytes of UTF-8 for a text or key, 16 and for each
/// element 8 and its charge for a list. Takes no memory, and walks nothing.
pub fn charge(value: &Value) -> u64
    ensures { result ≡ charge_of value.now }
{
    match value {
        Value::Int(_) => INT_CHARGE,
        Value::Str(text) | Value::Key(text) => text.charge(),
        Value::List(items) => items.charge(),
    }
}

/// Whether the value holds as a condition: an integer but 0, a text or list but the empty one, a valid key but
/// the key of zeros (<https://wiki.secondlife.com/wiki/If>). Takes no memory.
pub fn truth(value: &Value) -> bool
    ensures { result ≡ truth_of value.now }
{
    match value {
        Value::Int(n) => *n != 0,
        Value::Str(text) => !text.bytes().is_empty(),
        Value::Key(text) => valid_key(text) && !is_null_key(text),
        Value::List(items) => !items.is_empty(),
    }
}

/// An equal value, which shares this one's text or list. Takes no memory, and no walk.
pub fn copy(value: &Value) -> Result<Value, NoMemory>
    ensures { IfOk result (λ copied. copied ≡ value.now) }
{
    match value {
        Value::Int(n) => Ok(Value::Int(*n)),
        Value::Str(text) => Ok(Value::Str(text.copy()?)),
        Value::Key(text) => Ok(Value::Key(text.copy()?)),
        Value::List(items) => Ok(Value::List(items.copy()?)),
    }
}

impl PartialEq for Value {
    ghost eq = { same_value };

    ghost laws = { partial_equiv_from_equiv same_value_equiv };

    fn eq(&self, other: &Value) -> bool {
        match (self, other) {
            (Value::Int(a), Value::Int(b)) => a == b,
            (Value::Str(a), Value::Str(b)) | (Value::Key(a), Value::Key(b)) => a == b,
            (Value::List(a), Value::List(b)) => a == b,
            _ => false,
        }
    }
}

impl Eq for Value {
    ghost laws = { same_value_equiv };
}

/// A list of values.
#[derive(Debug, Drop)]
pub struct Values {
    list: Vec<Value>,
}

impl Model for Values {
    ghost use Rattle.std.specs.Prelude.{List};
    ghost use Rattle.lsl_value.specs.declared.tagged.Value.{Value as Tagged};

    ghost Value = { List Tagged };

    ghost view = { λ v. v.list.items };
}

impl Values {
    /// No value. Takes no memory.
    pub fn new(alloc: Global) -> Values
        ensures { result ≡ [] }
    {
        Values {
            list: Vec::new(alloc),
        }
    }

    /// These values. Takes no memory.
    pub fn from_vec(list: Vec<Value>) -> Values
        ensures { result ≡ list.items }
    {
        Values { list }
    }

    /// The values as a vector. Takes no memory.
    pub fn into_vec(self) -> Vec<Value>
        ensures { result.items ≡ self }
    {
        let Values { list } = self;
        list
    }

    /// The values. Takes no memory.
    pub fn as_slice(&self) -> &[Value]
        ensures { result.now ≡ self.now }
    {
        self.list.as_slice()
    }

    /// How many values there are.
    pub fn len(&self) -> usize
        ensures { result ≡ length self.now }
    {
        self.list.len()
    }

    /// Adds a value at the end.
    pub fn push(&mut self, value: Value) -> Result<(), NoMemory>
        ensures ok { OnOk result (self.new ≡ self.old ++ value ∷ []) }
        ensures unchanged { OnErr result (self.new ≡ self.old) }
    {
        self.list.push(value)?;
        Ok(())
    }

    /// Equal values.
    pub fn copy(&self, alloc: Global) -> Result<Values, NoMemory>
        ensures { IfOk result (λ values. values ≡ self.now) }
    {
        let mut list = Vec::with_capacity(alloc, self.list.len())?;
        for value in &self.list {
            list.push(copy(value)?)?;
        }
        Ok(Values { list })
    }
}

impl PartialEq for Values {
    ghost eq = { pointwise same_value };

    ghost laws = { partial_equiv_from_equiv same_values_equiv };

    fn eq(&self, other: &Values) -> bool {
        self.as_slice() == other.as_slice()
    }
}

impl Eq for Values {
    ghost laws = { same_values_equiv };
}

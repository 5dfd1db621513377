//! Calls that the host answers.

ghost use Rattle.std.specs.Option.{option_to_list};
ghost use Rattle.std.specs.Prelude.{◌≡◌, [], IfOk, OnOk};

use crate::ends::Fault;
use lsl_text::NoMemory;
use lsl_value::{BuiltinId, Value};
use std::alloc::Global;
use std::marker::Model;

/// A pending host call. It is one pointer wide, so that it moves at little cost, and its buffer is reused.
#[derive(Debug, Drop)]
pub struct Call {
    asked: Box<Asked>,
}

#[derive(Debug, Drop)]
struct Asked {
    id: BuiltinId,
    args: Vec<Value>,
}

impl Model for Call {
    ghost use Rattle.lsl_running.specs.Asking.{Call};

    ghost Value = { Call };

    ghost view = { λ c. record { id = c.asked.value.id; args = c.asked.value.args.items } };
}

impl Call {
    /// A call with these arguments. Takes memory for its buffer.
    pub fn new(alloc: Global, id: BuiltinId, args: Vec<Value>) -> Result<Call, NoMemory>
        ensures id { IfOk result (λ call. call.id ≡ id) }
        ensures args { IfOk result (λ call. call.args ≡ args.items) }
    {
        Ok(Call {
            asked: Box::new(alloc, Asked { id, args })?,
        })
    }

    /// The built-in call. Takes no memory.
    #[inline(always)]
    pub fn id(&self) -> BuiltinId
        ensures { result ≡ self.now.id }
    {
        self.asked.id
    }

    /// Its arguments. Takes no memory.
    #[inline(always)]
    pub fn args(&self) -> &[Value]
        ensures { result.now ≡ self.now.args }
    {
        self.asked.args.as_slice()
    }

    /// Changes to this call, with this argument if there is one. Takes memory only if its buffer was never this large.
    #[inline(always)]
    pub fn renew(&mut self, id: BuiltinId, arg: Option<Value>) -> Result<(), NoMemory>
        ensures id { OnOk result (self.new.id ≡ id) }
        ensures args { OnOk result (self.new.args ≡ option_to_list arg) }
    {
        self.clear();
        if let Some(arg) = arg {
            self.asked.args.push(arg)?;
        }
        self.asked.id = id;
        Ok(())
    }

    /// Drops its arguments, and keeps their buffer. Takes no memory.
    #[inline(always)]
    pub fn clear(&mut self)
        ensures id { self.new.id ≡ self.old.id }
        ensures args { self.new.args ≡ [] }
    {
        drop_all(&mut self.asked.args);
    }
}

// No call is made for an integer.
#[inline(always)]
fn drop_all(values: &mut Vec<Value>)
    ensures { values.new.items ≡ [] }
{
    'values: while values.len() > 0 {
        match values.pop() {
            Some(Value::Int(_)) | None => {}
            Some(_value) => {}
        }
    }
}

/// The answer to a host call.
#[derive(Drop)]
pub enum Reply {
    /// the call's value, and none where it gives none
    Value(Option<Value>),
    /// the script stops
    Stop(Fault),
}

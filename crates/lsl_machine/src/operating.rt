//! Operators, casts, lists of operands, and pure calls.

ghost use Rattle.std.specs.Prelude.{◌≡◌, ◌+◌, ◌<◌, ◌≤◌, ◌^◌, ◌++◌, pos, List, IfOk, OnOk, length};
ghost use Rattle.std.specs.List.{flat_map};
ghost use Rattle.lsl_value.specs.Limits.{most_charge, most_items};
ghost use Rattle.lsl_ops.specs.Operations.{atoms_of, integer_of};
ghost use Rattle.lsl_running.specs.Charging.{charges_of};
ghost use Rattle.lsl_running.specs.Values.{unary_value as unary_of};
ghost use Rattle.lsl_code.specs.Bodies.{Body};
ghost use Rattle.lsl_code.specs.declared.instructions.Instr.TheVariants as instrs;
ghost use Rattle.lsl_machine.specs.Reservations.{KeepsRoom, Spares};
ghost use Rattle.lsl_machine.specs.Steps.{Able, Performs};

use crate::running::{Running, Step};
use lsl_ops::{OpFault, binary, cast, unary};
use lsl_pure::{PureFault, call};
use lsl_running::Fault;
use lsl_table::BuiltinRow;
use lsl_text::NoMemory;
use lsl_value::{Atom, BinaryOp, BuiltinId, Items, Kind, UnaryOp, Value, Values};
use std::alloc::Global;

impl Running {
    /// Pops an integer, and pushes the operator's value.
    pub fn unary(&mut self, op: UnaryOp) -> Step
        requires { Able (instrs.Unary op) self.old }
        ensures done { (bodies : List Body) → Performs (instrs.Unary op) bodies self.old result self.new }
        ensures memory { Spares (instrs.Unary op) self.old result }
        ensures room { KeepsRoom self.old self.new }
    {
        let Some(value) = self.pop() else {
            return Step::Lost;
        };
        self.give(unary_value(op, &value))
    }

    /// Pops the left operand and the right one, and pushes the operator's value.
    pub fn binary(&mut self, op: BinaryOp) -> Step
        requires { Able (instrs.Binary op) self.old }
        ensures done { (bodies : List Body) → Performs (instrs.Binary op) bodies self.old result self.new }
        ensures memory { Spares (instrs.Binary op) self.old result }
        ensures room { KeepsRoom self.old self.new }
    {
        let Some(left) = self.pop() else {
            return Step::Lost;
        };
        let Some(right) = self.pop() else {
            return Step::Lost;
        };
        match binary(self.alloc, op, left, right) {
            Ok(value) => self.give(value),
            Err(OpFault::MathError) => Step::Faults(Fault::MathError),
            Err(OpFault::NoMemory) => Step::NoMemory,
        }
    }

    /// Pops, and pushes the value as one of this kind.
    pub fn cast(&mut self, kind: Kind) -> Step
        requires { Able (instrs.Cast kind) self.old }
        ensures done { (bodies : List Body) → Performs (instrs.Cast kind) bodies self.old result self.new }
        ensures memory { Spares (instrs.Cast kind) self.old result }
        ensures room { KeepsRoom self.old self.new }
    {
        let Some(value) = self.pop() else {
            return Step::Lost;
        };
        match cast(self.alloc, value, kind) {
            Ok(value) => self.give(value),
            Err(_) => Step::NoMemory,
        }
    }

    /// Pops `count` elements, and pushes their list.
    pub fn make_list(&mut self, count: u32) -> Step
        requires { Able (instrs.MakeList count) self.old }
        ensures done { (bodies : List Body) →
            Performs (instrs.MakeList count) bodies self.old result self.new }
        ensures room { KeepsRoom self.old self.new }
    {
        let Ok(values) = self.take_operands(count as usize) else {
            return Step::NoMemory;
        };
        match list_of(self.alloc, values.as_slice()) {
            Ok(items) => self.give(Value::List(items)),
            Err(_) => Step::NoMemory,
        }
    }

    /// Pops the arguments of a pure call, and pushes its value.
    pub fn pure(&mut self, id: BuiltinId) -> Step
        requires { Able (instrs.Pure id) self.old }
        ensures done { (bodies : List Body) → Performs (instrs.Pure id) bodies self.old result self.new }
        ensures room { KeepsRoom self.old self.new }
    {
        let Ok(args) = self.take_operands(id.row().params.as_slice().len()) else {
            return Step::NoMemory;
        };
        match call(self.alloc, id, Values::from_vec(args)) {
            Ok(value) => self.give(value),
            Err(PureFault::TooBig) => Step::Faults(Fault::StackHeap),
            Err(PureFault::NoMemory) => Step::NoMemory,
        }
    }

    /// Pushes the script's charge.
    pub fn push_used(&mut self) -> Step
        requires { Able instrs.Used self.old }
        ensures done { (bodies : List Body) → Performs instrs.Used bodies self.old result self.new }
        ensures memory { Spares instrs.Used self.old result }
        ensures room { KeepsRoom self.old self.new }
    {
        let used = self.active.charge + self.global_charge;
        self.give(number(used))
    }

    /// Pushes how much more the script may be charged.
    pub fn give_free(&mut self) -> Step
        requires { Able instrs.Free self.old }
        ensures done { (bodies : List Body) → Performs instrs.Free bodies self.old result self.new }
        ensures memory { Spares instrs.Free self.old result }
        ensures room { KeepsRoom self.old self.new }
    {
        let free = self.free();
        self.give(number(free))
    }
}

/// The number as a value.
pub fn number(n: u64) -> Value
    requires { n < 2 ^ 31 }
    ensures { result ≡ Value.Int (pos n) }
{
    Value::Int(n as i32)
}

/// What the operator before a value gives.
fn unary_value(op: UnaryOp, value: &Value) -> Value
    ensures { result ≡ unary_of op value.now }
{
    Value::Int(unary(op, integer(value)))
}

/// The integer as a value.
pub fn integer_value(n: &i32) -> Value
    ensures { result ≡ Value.Int n.now }
{
    Value::Int(*n)
}

/// The integer that a value has: a text's is the one that it begins with, and a key or list has 0.
pub fn integer(value: &Value) -> i32
    ensures { result ≡ integer_of value.now }
{
    match value {
        Value::Int(n) => *n,
        Value::Str(text) => text.integer(),
        Value::Key(_) | Value::List(_) => 0,
    }
}

/// The list of these elements.
pub fn list_of(alloc: Global, values: &[Value]) -> Result<Items, NoMemory>
    requires { charges_of values.now ≤ most_charge }
    ensures { IfOk result (λ items. items ≡ flat_map atoms_of values.now) }
{
    let mut items = Items::new(alloc);
    for value in values {
        push_element(&mut items, value)?;
    }
    Ok(items)
}

fn push_element(items: &mut Items, value: &Value) -> Result<(), NoMemory>
    requires { length items.old + length (atoms_of value.now) ≤ most_items }
    ensures { OnOk result (items.new ≡ items.old ++ atoms_of value.now) }
{
    match value {
        Value::Int(n) => items.push(Atom::Int(*n)),
        Value::Str(text) => items.push(Atom::Str(text.copy()?)),
        Value::Key(text) => items.push(Atom::Key(text.copy()?)),
        Value::List(more) => items.append(more.copy()?),
    }
}

//! A handler that is run from tick to tick, saved and restored.

ghost use Rattle.std.specs.Prelude.{◌≡◌, IfOk, IfSome, option_map};
ghost use Rattle.lsl_value.specs.Values.{kind_of};
ghost use Rattle.lsl_table.specs.Calls.{row_of};
ghost use Rattle.tests_world.specs.Driven.{CanGoOn, IsAtTick, IsParked};

use lsl_code::Woven;
use lsl_machine::{Halt, Machine, Parked};
use lsl_table::BuiltinRow;
use lsl_text::NoMemory;
use lsl_value::{BuiltinId, EventId, Items, Kind, Text, Value, Values};
use std::alloc::{AllocError, Global};

/// The greatest charge of a script.
const LIMIT: u32 = 65_536;

/// The first state's handler of a touch before its first tick, if there is one, with one argument.
pub(crate) fn touched(alloc: Global, unit: &Woven) -> Result<Option<(u16, Machine)>, NoMemory>
    ensures { IfOk result (λ begun. IfSome begun (λ m. CanGoOn unit.now m.0 m.1)) }
{
    let Some(handler) = unit.handler(0, EventId::TouchStart) else {
        return Ok(None);
    };
    let args = Values::from_vec(vec![in alloc; Value::Int(1)]?);
    let globals = unit.globals().copy(alloc)?;
    let machine = Machine::begin(alloc, unit, handler, globals, LIMIT, args)?;
    Ok(Some((handler, machine)))
}

/// Continues to the next tick, and shows what was asked, and how the handler ended. Every host call is answered with an
/// empty value.
pub(crate) fn to_tick(
    alloc: Global,
    unit: &Woven,
    handler: u16,
    machine: Machine,
    told: &mut String,
) -> Result<Option<Machine>, NoMemory>
    requires { CanGoOn unit.now handler machine }
    ensures { IfOk result (λ at. IfSome at (IsAtTick unit.now handler)) }
{
    let mut machine = machine;
    for i in 0..u64::MAX {
        match machine.run(unit) {
            Halt::AtTick => return Ok(Some(machine)),
            Halt::Asks(call) => {
                told.push_str(format!(in alloc; "{call:?}\n")?.as_str())?;
                machine.answer(empty(alloc, call.id()));
            }
            Halt::Ended(way) => {
                let kept = machine.finish();
                told.push_str(format!(in alloc; "{way:?} {kept:?}\n")?.as_str())?;
                return Ok(None);
            }
            Halt::Faulted(fault) => {
                told.push_str(format!(in alloc; "{fault:?}\n")?.as_str())?;
                return Ok(None);
            }
            Halt::NoMemory => return Err(AllocError),
        }
    }
    Ok(None)
}

/// An empty value of the call's result, if it has one.
fn empty(alloc: Global, id: BuiltinId) -> Option<Value>
    ensures { option_map kind_of result ≡ (row_of id).result }
{
    match id.row().result {
        Some(Kind::Int) => Some(Value::Int(0)),
        Some(Kind::Str) => Some(Value::Str(Text::new())),
        Some(Kind::Key) => Some(Value::Key(Text::new())),
        Some(Kind::List) => Some(Value::List(Items::new(alloc))),
        None => None,
    }
}

/// The machine saved.
pub(crate) fn parked(unit: &Woven, handler: u16, machine: Machine) -> Result<Parked, NoMemory>
    requires { IsAtTick unit.now handler machine }
    ensures { IfOk result (IsParked unit.now handler) }
{
    machine.save(unit)
}

/// What was saved restored, and after how many instructions.
pub(crate) fn unparked(
    alloc: Global,
    unit: &Woven,
    handler: u16,
    parked: Parked,
) -> Result<(Machine, u64), NoMemory>
    requires { IsParked unit.now handler parked }
    ensures { IfOk result (λ back. IsAtTick unit.now handler back.0) }
{
    let mut steps = 0;
    let machine = Machine::restore(alloc, unit, handler, parked, &mut steps)?;
    Ok((machine, steps))
}

/// The handler of a touch at a tick after others, if it gets there.
pub(crate) fn behind_ticks(
    alloc: Global,
    unit: &Woven,
    ticks: u32,
) -> Result<Option<(u16, Machine)>, NoMemory>
    ensures { IfOk result (λ at. IfSome at (λ m. IsAtTick unit.now m.0 m.1)) }
{
    let mut told = String::new(alloc);
    let Some((handler, machine)) = touched(alloc, unit)? else {
        return Ok(None);
    };
    let Some(first) = to_tick(alloc, unit, handler, machine, &mut told)? else {
        return Ok(None);
    };
    let mut machine = first;
    for i in 0..ticks {
        let Some(next) = to_tick(alloc, unit, handler, machine, &mut told)? else {
            return Ok(None);
        };
        machine = next;
    }
    Ok(Some((handler, machine)))
}

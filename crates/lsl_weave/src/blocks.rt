//! The parts of woven code.

ghost use Rattle.std.specs.Prelude.{◌≡◌, ◌<◌, ◌++◌, ◌∷◌, [], OnOk, length};
ghost use Rattle.lsl_code.specs.Bodies.{plain_body};
ghost use Rattle.lsl_code.specs.declared.instructions.Instr.TheVariants.{Seal};
ghost use Rattle.lsl_weave.specs.Layout.{back_block, back_end, keep_slots, keep_tops, main, save_block, table};
ghost use Rattle.lsl_code.specs.ModeStacks.{flat};
ghost use Rattle.lsl_weave.specs.Tables.{TablesOf};

use crate::copies::copy_instr;
use crate::numbers::{number, plus};
use crate::tables::{Tables, waiting_of};
use lsl_code::{FunctionCode, Instr, Point, Sequence};
use lsl_text::NoMemory;

/// Adds the plain instructions, with a test after each tick and each call.
pub fn push_mains(
    code: &mut Sequence<Instr>,
    function: &FunctionCode,
    tables: &Tables,
) -> Result<(), NoMemory>
    requires { TablesOf function.now tables.now }
    ensures { OnOk result
        (code.new ≡ code.old ++ flat (main (plain_body function.now)) 0 function.now.code) }
{
    let plain = function.code.as_slice();
    for i in 0..plain.len() {
        let instr = &plain[i];
        push_main(code, function, tables, i, instr)?;
    }
    Ok(())
}

fn push_main(
    code: &mut Sequence<Instr>,
    function: &FunctionCode,
    tables: &Tables,
    place: usize,
    instr: &Instr,
) -> Result<(), NoMemory>
    requires { TablesOf function.now tables.now }
    ensures { OnOk result (code.new ≡ code.old ++ main (plain_body function.now) place instr.now) }
{
    match instr {
        Instr::Tick(p) => {
            code.push(Instr::Tick(*p))?;
            code.push(Instr::TestSave(tables.save_place(function, *p as usize)))
        }
        Instr::Call(f, p) => {
            code.push(Instr::Call(*f, *p))?;
            code.push(Instr::TestSave(tables.save_place(function, *p as usize)))
        }
        Instr::Jump(to) => code.push(Instr::Jump(tables.shift(function, *to as usize))),
        Instr::JumpIf(to) => code.push(Instr::JumpIf(tables.shift(function, *to as usize))),
        Instr::JumpIfNot(to) => code.push(Instr::JumpIfNot(tables.shift(function, *to as usize))),
        _ => code.push(copy_instr(instr)?),
    }
}

/// Adds a block for each point that keeps its values.
pub fn push_saves(code: &mut Sequence<Instr>, function: &FunctionCode) -> Result<(), NoMemory>
    ensures { OnOk result
        (code.new ≡ code.old ++ flat (save_block (plain_body function.now)) 0 function.now.points) }
{
    let slots = function.slots.len();
    let points = function.points.as_slice();
    for i in 0..points.len() {
        let point = &points[i];
        push_save_block(code, slots, waiting_of(slots, point), i)?;
    }
    Ok(())
}

fn push_save_block(
    code: &mut Sequence<Instr>,
    slots: usize,
    waits: usize,
    point: usize,
) -> Result<(), NoMemory>
    ensures { OnOk result (code.new ≡ code.old ++ keep_tops waits (keep_slots slots (Seal point ∷ []))) }
{
    for i in 0..waits {
        code.push(Instr::KeepTop)?;
    }
    for j in 0..slots {
        code.push(Instr::KeepSlot(number(slots - 1 - j)?))?;
    }
    code.push(Instr::Seal(number(point)?))
}

/// Adds a jump to each point's block.
pub fn push_table(
    code: &mut Sequence<Instr>,
    function: &FunctionCode,
    tables: &Tables,
) -> Result<(), NoMemory>
    requires { TablesOf function.now tables.now }
    ensures { OnOk result
        (code.new ≡ code.old ++ flat (table (plain_body function.now)) 0 function.now.points) }
{
    for i in 0..function.points.len() {
        code.push(Instr::Jump(tables.back_place(function, i)))?;
    }
    Ok(())
}

/// Adds a block for each point that puts its values back.
pub fn push_backs(
    code: &mut Sequence<Instr>,
    function: &FunctionCode,
    tables: &Tables,
) -> Result<(), NoMemory>
    requires { TablesOf function.now tables.now }
    ensures { OnOk result
        (code.new ≡ code.old ++ flat (back_block (plain_body function.now)) 0 function.now.points) }
{
    let points = function.points.as_slice();
    for i in 0..points.len() {
        let point = &points[i];
        push_back_block(code, function, tables, i, point)?;
    }
    Ok(())
}

fn push_back_block(
    code: &mut Sequence<Instr>,
    function: &FunctionCode,
    tables: &Tables,
    index: usize,
    point: &Point,
) -> Result<(), NoMemory>
    requires tables { TablesOf function.now tables.now }
    requires point { index < length function.now.points }
    ensures { OnOk result (code.new ≡ code.old ++ back_block (plain_body function.now) index point.now) }
{
    let slots = function.slots.len();
    let waits = waiting_of(slots, point);
    for i in 0..slots {
        code.push(Instr::BackSlot(number(i)?))?;
    }
    for j in 0..waits {
        code.push(Instr::BackTop)?;
    }
    push_end(code, function, tables, index, point.calls)
}

fn push_end(
    code: &mut Sequence<Instr>,
    function: &FunctionCode,
    tables: &Tables,
    point: usize,
    calls: Option<u16>,
) -> Result<(), NoMemory>
    requires tables { TablesOf function.now tables.now }
    requires point { point < length function.now.points }
    ensures { OnOk result (code.new ≡ code.old ++ back_end (plain_body function.now) point calls) }
{
    let place = tables.shift(function, tables.point_place(function, point));
    match calls {
        Some(f) => {
            code.push(Instr::Again(f))?;
            code.push(Instr::Jump(plus(place, 1)?))
        }
        None => {
            code.push(Instr::Awake)?;
            code.push(Instr::Jump(place))
        }
    }
}

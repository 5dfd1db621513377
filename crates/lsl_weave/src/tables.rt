//! The places of the instructions and the blocks of woven code.

ghost use Rattle.std.specs.Prelude.{ℕ, ◌≡◌, ◌<◌, ◌≤◌, ◌+◌, ◌-◌, IfOk, Some, length, slice_get};
ghost use Rattle.lsl_code.specs.Bodies.{plain_body};
ghost use Rattle.lsl_weave.specs.Layout.{back_place, backs_from, place_of, save_place, shift, width};
ghost use Rattle.lsl_weave.specs.Tables.{IsTable, TablesOf, block_width, with_place};

use crate::numbers::plus;
use lsl_code::{FunctionCode, Instr, Point};
use lsl_text::NoMemory;
use std::alloc::Global;

/// The places of the instructions, of the blocks that save and of those that restore, each with its end, and the
/// place of each point in plain code.
#[derive(Drop)]
pub struct Tables {
    pub shifts: Vec<u32>,
    pub saves: Vec<u32>,
    pub backs: Vec<u32>,
    pub places: Vec<u32>,
}

impl Tables {
    /// The new place of the plain instruction at this place.
    pub fn shift(&self, function: &FunctionCode, place: usize) -> u32
        requires { TablesOf function.now self.now }
        ensures { result ≡ shift (plain_body function.now) place }
    {
        look(&self.shifts, place)
    }

    /// The place of the block that saves a point.
    pub fn save_place(&self, function: &FunctionCode, point: usize) -> u32
        requires { TablesOf function.now self.now }
        ensures { result ≡ save_place (plain_body function.now) point }
    {
        look(&self.saves, point)
    }

    /// Where restoring begins.
    pub fn backs_from(&self, function: &FunctionCode) -> u32
        requires { TablesOf function.now self.now }
        ensures { result ≡ backs_from (plain_body function.now) }
    {
        look(&self.saves, function.points.len())
    }

    /// The place of the block that restores a point.
    pub fn back_place(&self, function: &FunctionCode, point: usize) -> u32
        requires { TablesOf function.now self.now }
        ensures { result ≡ back_place (plain_body function.now) point }
    {
        look(&self.backs, point)
    }

    /// The place of a point's tick or call in plain code.
    pub fn point_place(&self, function: &FunctionCode, point: usize) -> usize
        requires tables { TablesOf function.now self.now }
        requires point { point < length function.now.points }
        ensures { result ≡ place_of point function.now.code }
    {
        self.places[point] as usize
    }
}

/// How many operands wait at a point.
pub fn waiting_of(slots: usize, point: &Point) -> usize
    ensures { result ≡ length point.now.kinds - slots }
{
    point.kinds.len().saturating_sub(slots)
}

/// The tables of a function. Out of memory also where its woven code is too long to be numbered.
pub fn tables_of(alloc: Global, function: &FunctionCode) -> Result<Tables, NoMemory>
    ensures { IfOk result (λ t. TablesOf function.now t) }
{
    let slots = function.slots.len();
    let code = function.code.as_slice();
    let points = function.points.as_slice();
    let shifts = shift_table(alloc, code)?;
    let saves_start = look(&shifts, code.len());
    let saves = block_table(alloc, slots, points, saves_start, 1)?;
    let heads_start = look(&saves, points.len());
    let backs_start = plus(plus(heads_start, 2)?, points.len())?;
    let backs = block_table(alloc, slots, points, backs_start, 2)?;
    let places = place_table(alloc, code, points.len())?;
    Ok(Tables {
        shifts,
        saves,
        backs,
        places,
    })
}

// The number of woven instructions for one.
fn width_of(instr: &Instr) -> usize
    ensures { result ≡ width instr.now }
{
    match instr {
        Instr::Tick(_) | Instr::Call(_, _) => 2,
        _ => 1,
    }
}

fn shift_table(alloc: Global, code: &[Instr]) -> Result<Vec<u32>, NoMemory>
    ensures { IfOk result (λ t. IsTable 1 width code.now t.items) }
{
    let mut sum = 1;
    let mut table = vec![in alloc; sum]?;
    for i in 0..code.len() {
        let instr = &code[i];
        sum = plus(sum, width_of(instr))?;
        table.push(sum)?;
    }
    Ok(table)
}

fn block_table(
    alloc: Global,
    slots: usize,
    points: &[Point],
    start: u32,
    extra: usize,
) -> Result<Vec<u32>, NoMemory>
    ensures { IfOk result (λ t. IsTable start (block_width slots extra) points.now t.items) }
{
    let mut sum = start;
    let mut table = vec![in alloc; sum]?;
    for i in 0..points.len() {
        let point = &points[i];
        sum = plus(plus(plus(sum, waiting_of(slots, point))?, slots)?, extra)?;
        table.push(sum)?;
    }
    Ok(table)
}

// The place of each point, found from the code's end, so that the first place stays.
fn place_table(alloc: Global, code: &[Instr], points: usize) -> Result<Vec<u32>, NoMemory>
    ensures { IfOk result (λ t. (p : ℕ) → p < points → slice_get t.items p ≡ Some (place_of p code.now)) }
{
    let end = plus(0, code.len())?;
    let mut places = vec![in alloc; end; points]?;
    for i in 0..code.len() {
        let place = code.len() - 1 - i;
        let instr = &code[place];
        put_place(&mut places, instr, place as u32);
    }
    Ok(places)
}

// Puts the place into the table where the instruction has a point of it.
fn put_place(places: &mut Vec<u32>, instr: &Instr, place: u32)
    ensures { places.new.items ≡ with_place places.old.items instr.now place }
{
    if let Instr::Tick(p) | Instr::Call(_, p) = instr {
        let p = *p as usize;
        if p < places.len() {
            places[p] = place;
        }
    }
}

// What a table has at a place, or at its end.
fn look(table: &[u32], place: usize) -> u32
    requires { 0 < length table.now }
    ensures inside { place < length table.now → slice_get table.now place ≡ Some result }
    ensures past { length table.now ≤ place → slice_get table.now (length table.now - 1) ≡ Some result }
{
    if place < table.len() {
        table[place]
    } else {
        table[table.len() - 1]
    }
}

//! Drafts of functions: code whose points are made, with their lines, as it grows.

ghost use Rattle.std.specs.Prelude.{◌≡◌, [], ◌∷◌, ◌++◌, length, OnOk, OnErr, IfOk, false};
ghost use Rattle.lsl_code.specs.declared.instructions.Instr.TheVariants.{Tick, Call};
ghost use Rattle.lsl_code.specs.Drafts.{carries_point, numbered, lines_of};
ghost use Rattle.lsl_code.specs.Targets.{targeted, retargeted};

use crate::instructions::Instr;
use lsl_text::NoMemory;
use std::alloc::{AllocError, Global};
use std::marker::Model;

/// A draft, which contracts see as its instructions with lines in place of points. Points are numbered in the order of
/// the code, and there are at most 65,536.
#[derive(Drop)]
pub struct Draft {
    code: Vec<Instr>,
    lines: Vec<u32>,
}

impl Model for Draft {
    ghost use Rattle.std.specs.Prelude.{List};
    ghost use Rattle.lsl_code.specs.declared.instructions.Instr.{Instr as Instruction};
    ghost use Rattle.lsl_code.specs.Drafts.{drafted, IsNumbered};

    ghost Value = { List Instruction };

    ghost view = { λ d. drafted d.lines.items d.code.items };

    ghost invariant = { λ d. IsNumbered d.lines.items d.code.items };
}

impl Draft {
    /// No instruction. Takes no memory.
    pub fn new(alloc: Global) -> Draft
        ensures { result ≡ [] }
    {
        Draft {
            code: Vec::new(alloc),
            lines: Vec::new(alloc),
        }
    }

    /// How many instructions there are.
    pub fn len(&self) -> usize
        ensures { result ≡ length self.now }
    {
        self.code.len()
    }

    /// Adds an instruction that has no point.
    pub fn push(&mut self, instr: Instr) -> Result<(), NoMemory>
        requires { carries_point instr ≡ false }
        ensures ok { OnOk result (self.new ≡ self.old ++ instr ∷ []) }
        ensures unchanged { OnErr result (self.new ≡ self.old) }
    {
        self.code.push(instr)?;
        Ok(())
    }

    /// Adds a tick at this line. Out of memory also where there are 65,536 points.
    pub fn push_tick(&mut self, line: u32) -> Result<(), NoMemory>
        ensures ok { OnOk result (self.new ≡ self.old ++ Tick line ∷ []) }
        ensures unchanged { OnErr result (self.new ≡ self.old) }
    {
        let point = number(self.lines.len())?;
        push_both(&mut self.code, &mut self.lines, Instr::Tick(point), line)?;
        Ok(())
    }

    /// Adds a call of this function at this line. Out of memory also where there are 65,536 points.
    pub fn push_call(&mut self, function: u16, line: u32) -> Result<(), NoMemory>
        ensures ok { OnOk result (self.new ≡ self.old ++ Call function line ∷ []) }
        ensures unchanged { OnErr result (self.new ≡ self.old) }
    {
        let point = number(self.lines.len())?;
        let instr = Instr::Call(function, point);
        push_both(&mut self.code, &mut self.lines, instr, line)?;
        Ok(())
    }

    /// Sets the target of the jump at this place, which wasn't known when the jump was added. Changes nothing if no
    /// jump of plain code is there. Takes no memory.
    pub fn set_target(&mut self, place: usize, target: u32)
        ensures { self.new ≡ retargeted self.old place target }
    {
        retarget(&mut self.code, place, target);
    }

    /// The code, and the lines of its points.
    pub fn into_parts(self) -> (Vec<Instr>, Vec<u32>)
        ensures code { result.0.items ≡ numbered self 0 }
        ensures lines { result.1.items ≡ lines_of self }
    {
        let Draft { code, lines } = self;
        (code, lines)
    }
}

// The number of a point after `n` others.
fn number(n: usize) -> Result<u16, NoMemory>
    ensures { IfOk result (λ m. m ≡ n) }
{
    match u16::try_from(n) {
        Ok(m) => Ok(m),
        Err(_) => Err(AllocError),
    }
}

// Sets the target of the jump at this place.
fn retarget(code: &mut Vec<Instr>, place: usize, target: u32)
    ensures { code.new.items ≡ retargeted code.old.items place target }
{
    if place < code.len() {
        lead(&mut code[place], target);
    }
}

// Sets the target of a jump.
fn lead(instr: &mut Instr, target: u32)
    ensures { instr.new ≡ targeted instr.old target }
{
    match instr {
        Instr::Jump(to) => *to = target,
        Instr::JumpIf(to) => *to = target,
        Instr::JumpIfNot(to) => *to = target,
        _ => {}
    }
}

// Adds to both lists, or to none.
fn push_both(
    code: &mut Vec<Instr>,
    lines: &mut Vec<u32>,
    instr: Instr,
    line: u32,
) -> Result<(), NoMemory>
    ensures code { OnOk result (code.new.items ≡ code.old.items ++ instr ∷ []) }
    ensures lines { OnOk result (lines.new.items ≡ lines.old.items ++ line ∷ []) }
    ensures same_code { OnErr result (code.new.items ≡ code.old.items) }
    ensures same_lines { OnErr result (lines.new.items ≡ lines.old.items) }
{
    lines.push(line)?;
    match code.push(instr) {
        Ok(()) => Ok(()),
        Err(_) => {
            lines.pop();
            Err(AllocError)
        }
    }
}

//! Restoring: the code of each frame's function makes the frame a call again.

ghost use Rattle.std.specs.Prelude.{◌≡◌, ◌<◌, ◌≤◌, ◌+◌, ◌-◌, ◌∷◌, ℕ, [], List, IfOk, OnOk, OnErr, Some, false, min, length, slice_get, option_copied, vec_capacity};
ghost use Rattle.lsl_value.specs.declared.tagged.Value.{Value as Tagged};
ghost use Rattle.lsl_running.specs.Charging.{default_limit};
ghost use Rattle.lsl_code.specs.declared.frames.Frame.{Frame as SavedCall};
ghost use Rattle.lsl_code.specs.declared.instructions.Instr.TheVariants as instrs;
ghost use Rattle.lsl_code.specs.Bodies.{Body, instruction_at};
ghost use Rattle.lsl_code.specs.Machine.{Machine as Restored, MachineCall, base, used_in};
ghost use Rattle.lsl_code.specs.Modes.{landing as landing_of};
ghost use Rattle.lsl_code.specs.Restoring.{blank};
ghost use Rattle.lsl_code.specs.Weaves.{bodies_of};
ghost use Rattle.lsl_code.specs.Frames.{AreValid, points_of};
ghost use Rattle.lsl_code.specs.ModeRuns.{BackRun};
ghost use Rattle.lsl_machine.specs.CallsRestored.{Backs, CanBack, IsRestored, IsRestoring, beside};
ghost use Rattle.lsl_machine.specs.Laid.{Lays};

use crate::calls::{above, push_empties};
use crate::layouts::Layout;
use crate::running::{Activation, Running};
use lsl_code::{Instr, Pack, Sack, Woven};
use lsl_running::{CALL_CHARGE, Kept, SCRIPT_CHARGE, charged_with_values};
use lsl_text::NoMemory;
use lsl_value::Value;
use std::alloc::Global;

/// The calls that are restored so far, the current frame's point, and the frames that are left, with the current
/// values. For the innermost call the charge of the calls around it is kept.
#[derive(Drop)]
pub struct Restorer {
    pub alloc: Global,
    pub active: Activation,
    pub callers: Vec<Activation>,
    pub stack: Vec<Value>,
    pub point: u16,
    pub pack: Pack,
}

impl Restorer {
    /// The handler's function, entered to be restored, before these frames.
    pub fn begin(
        alloc: Global,
        unit: &Woven,
        handler: u16,
        sack: Sack,
    ) -> Result<Restorer, NoMemory>
        requires { (body : Body) × (slice_get (bodies_of unit.now) handler ≡ Some body) }
        ensures { IfOk result (λ begun. (body : Body) → slice_get (bodies_of unit.now) handler ≡ Some body →
            IsRestoring (bodies_of unit.now) begun (blank handler body) [] 0 [] sack) }
    {
        let Some(function) = unit.functions.get(handler as usize) else {
            unreachable!();
        };
        let mut stack = Vec::new(alloc);
        push_empties(alloc, &mut stack, function.slots.as_slice(), function.most)?;
        let active = Activation {
            function: handler,
            place: 0,
            base: 0,
            floor: stack.len(),
            charge: SCRIPT_CHARGE,
        };
        let callers = Vec::with_capacity(alloc, sack.len())?;
        let pack = sack.into_pack()?;
        Ok(Restorer {
            alloc,
            active,
            callers,
            stack,
            point: 0,
            pack,
        })
    }

    /// Performs one instruction, and returns whether restoring has ended.
    #[inline(always)]
    pub fn back(&mut self, unit: &Woven, instr: &Instr) -> Result<bool, NoMemory>
        requires { CanBack (bodies_of unit.now) instr.now self.old }
        ensures { IfOk result (λ awake. Backs (bodies_of unit.now) instr.now self.old awake self.new) }
    {
        match instr {
            Instr::TestBack(to) => {
                self.active.place = *to;
                Ok(false)
            }
            Instr::Jump(to) => {
                self.active.place = *to;
                Ok(false)
            }
            Instr::Unpack => {
                self.unpack();
                Ok(false)
            }
            Instr::Branch => {
                self.active.place += 1 + self.point as u32;
                Ok(false)
            }
            Instr::BackSlot(n) => {
                self.back_slot(*n);
                Ok(false)
            }
            Instr::BackTop => {
                self.back_top()?;
                Ok(false)
            }
            Instr::Again(callee) => {
                self.again(unit, *callee)?;
                Ok(false)
            }
            Instr::Awake => {
                self.land(unit);
                Ok(true)
            }
            _ => unreachable!(),
        }
    }

    /// Makes the outermost frame the current one.
    #[inline(always)]
    fn unpack(&mut self)
        requires { (bodies : List Body) × CanBack bodies instrs.Unpack self.old }
        ensures { (bodies : List Body) → Backs bodies instrs.Unpack self.old false self.new }
    {
        let Some(point) = self.pack.unpack() else {
            unreachable!();
        };
        self.point = point;
        self.active.place += 1;
    }

    /// Moves the frame's next value to a slot.
    #[inline(always)]
    fn back_slot(&mut self, n: u16)
        requires { (bodies : List Body) × CanBack bodies (instrs.BackSlot n) self.old }
        ensures { (bodies : List Body) → Backs bodies (instrs.BackSlot n) self.old false self.new }
    {
        let Some(value) = self.pack.take() else {
            unreachable!();
        };
        let place = self.active.base + n as usize;
        self.stack[place] = value;
        self.active.place += 1;
    }

    /// Pushes the frame's next value.
    #[inline(always)]
    fn back_top(&mut self) -> Result<(), NoMemory>
        requires { (bodies : List Body) × CanBack bodies instrs.BackTop self.old }
        ensures { OnOk result ((bodies : List Body) → Backs bodies instrs.BackTop self.old false self.new) }
    {
        let Some(value) = self.pack.take() else {
            unreachable!();
        };
        self.stack.push(value)?;
        self.active.place += 1;
        Ok(())
    }

    /// Enters a function that is to be restored, without arguments.
    fn again(&mut self, unit: &Woven, callee: u16) -> Result<(), NoMemory>
        requires { CanBack (bodies_of unit.now) (instrs.Again callee) self.old }
        ensures { OnOk result (Backs (bodies_of unit.now) (instrs.Again callee) self.old false self.new) }
    {
        let Some(function) = unit.functions.get(callee as usize) else {
            unreachable!();
        };
        self.land(unit);
        let charge = self.charge();
        let base = self.stack.len();
        push_empties(
            self.alloc,
            &mut self.stack,
            function.slots.as_slice(),
            function.most,
        )?;
        self.callers.push(Activation {
            charge,
            ..self.active
        })?;
        self.active = Activation {
            function: callee,
            place: 0,
            base,
            floor: self.stack.len(),
            charge,
        };
        Ok(())
    }

    /// Continues after the instruction, or where the jump there leads.
    #[inline(always)]
    fn land(&mut self, unit: &Woven)
        requires { self.old.active.place + 1 < 4294967296 }
        ensures { self.new ≡ record self.old {
          active = record self.old.active {
            place = landing_of
                (instruction_at (bodies_of unit.now) self.old.active.function (self.old.active.place + 1))
                (self.old.active.place + 1);
          };
        } }
    {
        self.active.place = landing(unit, self.active.function, self.active.place + 1);
    }

    /// The charge of the current call and the calls around it, saturated.
    fn charge(&self) -> u64
        requires { self.now.active.base ≤ length self.now.stack.items }
        ensures { (bodies : List Body) (c : MachineCall) (outer : List MachineCall) (point : ℕ) (hand : List Tagged)
            (sack : List SavedCall) → IsRestoring bodies self.entry.now c outer point hand sack
            → result ≡ min (base (c ∷ outer)) 18446744073709551615 }
    {
        let held = self.active.charge.saturating_add(CALL_CHARGE);
        charged_with_values(held, above(self.stack.as_slice(), self.active.base))
    }

    /// The machine that runs on from there, beside these globals and this limit. Takes no memory.
    pub fn finish(self, kept: Kept) -> Running
        requires { self.active.base ≤ length self.stack.items }
        ensures lays { (bodies : List Body) (c : MachineCall) (outer : List MachineCall) (point : ℕ)
            (hand : List Tagged) (sack : List SavedCall) → IsRestoring bodies self c outer point hand sack
            → kept.limit ≤ default_limit → used_in (c ∷ outer) kept ≤ kept.limit → Lays result kept c outer }
        ensures room { vec_capacity result.stack ≡ vec_capacity self.stack }
    {
        let charge = self.charge();
        let Restorer {
            alloc,
            active,
            callers,
            stack,
            ..
        } = self;
        let Kept { globals, limit } = kept;
        let globals = globals.into_vec();
        let global_charge = charged_with_values(0, globals.as_slice());
        Running {
            alloc,
            globals,
            global_charge,
            limit,
            active: Activation { charge, ..active },
            callers,
            stack,
            spare: None,
        }
    }
}

/// The place, or the one to which the jump there leads.
fn landing(unit: &Woven, function: u16, place: u32) -> u32
    ensures { result ≡ landing_of (instruction_at (bodies_of unit.now) function place) place }
{
    match instruction(unit, function, place) {
        Some(Instr::Jump(to)) => *to,
        _ => place,
    }
}

/// The instruction at this place of this function, if there is one.
pub fn instruction(unit: &Woven, function: u16, place: u32) -> Option<&Instr>
    ensures { option_copied result ≡ instruction_at (bodies_of unit.now) function place }
{
    unit.functions
        .get(function as usize)?
        .code
        .get(place as usize)
}

/// The machine that the unit's own code makes of these frames of the handler's function, beside these globals and this
/// limit. The count of steps grows by one for each instruction.
pub fn restore(
    alloc: Global,
    unit: &Woven,
    handler: u16,
    sack: Sack,
    kept: Kept,
    steps: &mut u64,
) -> Result<Running, NoMemory>
    requires valid { AreValid (points_of (bodies_of unit.now)) handler kept.globals kept.limit sack }
    requires limit { kept.limit ≤ default_limit }
    requires steps { steps.old ≤ 9223372036854775807 }
    ensures restored { IfOk result (λ running.
        IsRestored (bodies_of unit.now) handler sack kept running (steps.new - steps.old)) }
    ensures counted { steps.old ≤ steps.new }
    ensures lacking { OnErr result ((m : Restored) (n : ℕ) →
        BackRun (bodies_of unit.now) handler sack (beside kept) m n → steps.new - steps.old ≤ n) }
{
    match Layout::of(unit, handler, &sack, Vec::new(alloc))? {
        Some(layout) => {
            let count = layout.steps;
            let running = layout.into_running(alloc, sack, kept)?;
            *steps += count;
            Ok(running)
        }
        None => restore_by_code(alloc, unit, handler, sack, kept, steps),
    }
}

/// Like `restore`, instruction by instruction.
pub fn restore_by_code(
    alloc: Global,
    unit: &Woven,
    handler: u16,
    sack: Sack,
    kept: Kept,
    steps: &mut u64,
) -> Result<Running, NoMemory>
    requires valid { AreValid (points_of (bodies_of unit.now)) handler kept.globals kept.limit sack }
    requires limit { kept.limit ≤ default_limit }
    requires steps { steps.old ≤ 9223372036854775807 }
    ensures restored { IfOk result (λ running.
        IsRestored (bodies_of unit.now) handler sack kept running (steps.new - steps.old)) }
    ensures counted { steps.old ≤ steps.new }
    ensures lacking { OnErr result ((m : Restored) (n : ℕ) →
        BackRun (bodies_of unit.now) handler sack (beside kept) m n → steps.new - steps.old ≤ n) }
{
    let mut restorer = Restorer::begin(alloc, unit, handler, sack)?;
    for i in 0..u64::MAX {
        let Some(instr) = instruction(unit, restorer.active.function, restorer.active.place) else {
            unreachable!();
        };
        *steps += 1;
        if restorer.back(unit, instr)? {
            return Ok(restorer.finish(kept));
        }
    }
    unreachable!()
}

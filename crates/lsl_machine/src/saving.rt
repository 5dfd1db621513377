//! Saving: the code of each call's function keeps the call as a frame.

ghost use Rattle.std.specs.Prelude.{◌≡◌, ◌++◌, ◌∷◌, [], ℕ, List, IfOk, OnOk, Some, None, length};
ghost use Rattle.lsl_value.specs.declared.tagged.Value.{Value as Tagged};
ghost use Rattle.lsl_code.specs.Machine.{MachineCall};
ghost use Rattle.lsl_code.specs.Packs.{packed};
ghost use Rattle.lsl_code.specs.Sacks.{EndsWithin, stack_frames};
ghost use Rattle.lsl_code.specs.Saving.{frame_of, save_act};
ghost use Rattle.lsl_code.specs.Weaves.{bodies_of};
ghost use Rattle.lsl_code.specs.declared.instructions.Instr.TheVariants as instrs;
ghost use Rattle.lsl_weave.specs.WovenCalls.{RestAtTick};
ghost use Rattle.lsl_machine.specs.Laid.{Held, kept_of, machine_of};
ghost use Rattle.lsl_machine.specs.CallsSaved.{AreSaved, CanKeep, CanSeal, DidKeep, HasCall, HasSealed, low_of};

use crate::calls::shorten;
use crate::marking::Marks;
use crate::running::{Activation, Running};
use lsl_code::{Instr, Pack, Sack, Woven};
use lsl_running::Kept;
use lsl_text::NoMemory;
use lsl_value::{Value, Values};
use std::mem::replace;

/// A call on its way to a frame, above the calls that wait for it. The values that are kept so far are in the pack,
/// after the frames that are saved.
#[derive(Drop)]
pub struct Saver {
    pub active: Activation,
    pub stack: Vec<Value>,
    pub pack: Pack,
}

impl Saver {
    /// Keeps the current call as its function's code does, and leaves it.
    #[inline(never)]
    fn seal(&mut self, unit: &Woven) -> Result<(), NoMemory>
        requires { CanSeal (bodies_of unit.now) self.old }
        ensures frame { OnOk result (HasSealed (bodies_of unit.now) self.old self.new) }
        ensures left { OnOk result (self.new.stack.items ≡ low_of self.old) }
    {
        let Some(function) = unit.functions.get(self.active.function as usize) else {
            unreachable!();
        };
        let end = function.code.len();
        for i in 0..end {
            let Some(instr) = function.code.get(self.active.place as usize) else {
                unreachable!();
            };
            if let Some(point) = self.keep(instr)? {
                return self.close(point);
            }
        }
        unreachable!()
    }

    /// Performs one instruction. At a seal it returns the point.
    #[inline(always)]
    fn keep(&mut self, instr: &Instr) -> Result<Option<u16>, NoMemory>
        requires { CanKeep instr.now self.old }
        ensures kept { IfOk result (λ point. (low : List Tagged) (c : MachineCall) (hand : List Tagged) →
            HasCall self.old low c hand →
            DidKeep instr.now low c hand (save_act (Some instr.now) c hand) point self.new) }
        ensures frames { self.new.pack.frames ≡ self.old.pack.frames }
    {
        match instr {
            Instr::TestSave(to) => {
                self.active.place = *to;
                Ok(None)
            }
            Instr::Jump(to) => {
                self.active.place = *to;
                Ok(None)
            }
            Instr::KeepSlot(n) => {
                self.keep_slot(*n)?;
                Ok(None)
            }
            Instr::KeepTop => {
                self.keep_top()?;
                Ok(None)
            }
            Instr::Seal(point) => Ok(Some(*point)),
            _ => unreachable!(),
        }
    }

    /// Moves a slot's value to the pack.
    #[inline(always)]
    fn keep_slot(&mut self, n: u16) -> Result<(), NoMemory>
        requires { CanKeep (instrs.KeepSlot n) self.old }
        ensures kept { OnOk result ((low : List Tagged) (c : MachineCall) (hand : List Tagged) →
            HasCall self.old low c hand →
            DidKeep (instrs.KeepSlot n) low c hand (save_act (Some (instrs.KeepSlot n)) c hand) None self.new) }
        ensures frames { self.new.pack.frames ≡ self.old.pack.frames }
    {
        let place = self.active.base + n as usize;
        let value = replace(&mut self.stack[place], Value::Int(0));
        self.pack.keep(value)?;
        self.active.place += 1;
        Ok(())
    }

    /// Moves the topmost operand to the pack.
    #[inline(always)]
    fn keep_top(&mut self) -> Result<(), NoMemory>
        requires { CanKeep instrs.KeepTop self.old }
        ensures kept { OnOk result ((low : List Tagged) (c : MachineCall) (hand : List Tagged) →
            HasCall self.old low c hand →
            DidKeep instrs.KeepTop low c hand (save_act (Some instrs.KeepTop) c hand) None self.new) }
        ensures frames { self.new.pack.frames ≡ self.old.pack.frames }
    {
        let Some(value) = self.stack.pop() else {
            unreachable!();
        };
        self.pack.keep(value)?;
        self.active.place += 1;
        Ok(())
    }

    /// Closes the current frame at this point, and leaves the call.
    fn close(&mut self, point: u16) -> Result<(), NoMemory>
        ensures sealed { OnOk result (self.new.pack ≡ packed
            (self.old.pack.frames ++ frame_of self.old.active.function point self.old.pack.hand ∷ []) []) }
        ensures left { self.new.stack.items ≡ low_of self.old }
    {
        shorten(&mut self.stack, self.active.base);
        self.pack.seal(self.active.function, point)
    }
}

impl Running {
    /// What the unit's own code saves the calls as, and the globals with the limit. If the code of all calls keeps
    /// their values in the order in which they lie, no value moves.
    pub fn save(self, unit: &Woven) -> Result<(Sack, Kept), NoMemory>
        requires laid { Held self }
        requires rests { (handler : ℕ) × RestAtTick (bodies_of unit.now) handler (machine_of self).calls }
        ensures frames { IfOk result (λ parked. AreSaved (bodies_of unit.now) (machine_of self).calls parked.0) }
        ensures kept { IfOk result (λ parked. parked.1 ≡ kept_of self) }
    {
        match self.marks(unit)? {
            Some(marks) => Ok(self.into_sack(marks)),
            None => self.save_by_code(unit),
        }
    }

    // The calls as they lie, if they are saved this way.
    #[inline(always)]
    fn into_sack(self, marks: Marks) -> (Sack, Kept)
        requires { EndsWithin 0 marks.outer.items (length self.stack.items) }
        ensures frames { result.0 ≡ stack_frames self.active.function marks.point marks.outer.items self.stack.items }
        ensures kept { result.1 ≡ kept_of self }
    {
        let Running {
            globals,
            limit,
            active,
            stack,
            ..
        } = self;
        let globals = Values::from_vec(globals);
        let kept = Kept { globals, limit };
        let sack = Sack::from_stack(active.function, marks.point, marks.outer, stack);
        (sack, kept)
    }

    /// Like `save`, instruction by instruction.
    #[inline(never)]
    pub fn save_by_code(self, unit: &Woven) -> Result<(Sack, Kept), NoMemory>
        requires laid { Held self }
        requires rests { (handler : ℕ) × RestAtTick (bodies_of unit.now) handler (machine_of self).calls }
        ensures frames { IfOk result (λ parked. AreSaved (bodies_of unit.now) (machine_of self).calls parked.0) }
        ensures kept { IfOk result (λ parked. parked.1 ≡ kept_of self) }
    {
        let Running {
            alloc,
            globals,
            limit,
            active,
            mut callers,
            stack,
            ..
        } = self;
        let pack = Pack::with_room(alloc, callers.len() + 1, stack.len())?;
        let mut saver = Saver {
            active: Activation {
                place: active.place + 1,
                ..active
            },
            stack,
            pack,
        };
        saver.seal(unit)?;
        while let Some(caller) = callers.pop() {
            saver.active = caller;
            saver.seal(unit)?;
        }
        let globals = Values::from_vec(globals);
        let kept = Kept { globals, limit };
        Ok((Sack::from_pack(saver.pack), kept))
    }
}

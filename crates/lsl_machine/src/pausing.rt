//! A machine that is saved and restored in place.

ghost use Rattle.std.specs.Prelude.{◌≡◌, ◌≤◌, [], ℕ, OnOk, length};
ghost use Rattle.lsl_running.specs.Charging.{default_limit};
ghost use Rattle.lsl_code.specs.Frames.{AreValid, points_of};
ghost use Rattle.lsl_code.specs.Sacks.{EndsWithin, stack_frames, values_of};
ghost use Rattle.lsl_code.specs.Weaves.{bodies_of};
ghost use Rattle.lsl_weave.specs.WovenCalls.{RestAtTick};
ghost use Rattle.lsl_machine.specs.CallsRestored.{IsRestored};
ghost use Rattle.lsl_machine.specs.Laid.{Held, kept_of, machine_of};
ghost use Rattle.lsl_machine.specs.Marked.{AreMarks};
ghost use Rattle.lsl_machine.specs.Paused.{HasSettled, IsPaused, SavesValid};

use crate::calls::reserve_more;
use crate::layouts::Layout;
use crate::marking::Marks;
use crate::restoring::restore_by_code;
use crate::running::{Activation, Running};
use lsl_code::{Sack, Woven};
use lsl_text::NoMemory;
use std::mem::replace;

impl Running {
    /// Saves the calls by the unit's own code, and restores them in their old buffers. If the code of all calls keeps
    /// their values, and puts them back, in the order in which they lie, none moves. After `NoMemory` the machine is
    /// lost.
    pub fn pause(&mut self, unit: &Woven, handler: u16) -> Result<(), NoMemory>
        requires laid { Held self.old }
        requires rests { (handler : ℕ) × RestAtTick (bodies_of unit.now) handler (machine_of self.old).calls }
        requires valid { SavesValid (bodies_of unit.now) handler self.old }
        ensures { OnOk result (IsPaused (bodies_of unit.now) handler self.old self.new) }
    {
        match self.marks(unit)? {
            Some(marks) => self.pause_as_they_lie(unit, handler, marks),
            None => self.pause_by_code(unit, handler),
        }
    }

    // Saves the calls as they lie.
    #[inline(always)]
    fn pause_as_they_lie(
        &mut self,
        unit: &Woven,
        handler: u16,
        marks: Marks,
    ) -> Result<(), NoMemory>
        requires laid { Held self.old }
        requires marks { AreMarks (bodies_of unit.now) self.old marks }
        requires valid { SavesValid (bodies_of unit.now) handler self.old }
        ensures { OnOk result (IsPaused (bodies_of unit.now) handler self.old self.new) }
    {
        let sack = self.take_sack(marks);
        let callers = self.take_callers();
        match Layout::of(unit, handler, &sack, callers)? {
            Some(layout) => self.settle(layout, sack),
            None => self.wake_by_code(unit, handler, sack),
        }
    }

    // The calls as they lie, with their values.
    #[inline(always)]
    fn take_sack(&mut self, marks: Marks) -> Sack
        requires { EndsWithin 0 marks.outer.items (length self.old.stack.items) }
        ensures frames { result ≡ stack_frames self.old.active.function marks.point marks.outer.items
            self.old.stack.items }
        ensures left { self.new ≡ record self.old { stack = self.new.stack } }
    {
        let stack = replace(&mut self.stack, Vec::new(self.alloc));
        Sack::from_stack(self.active.function, marks.point, marks.outer, stack)
    }

    // The vector of the calls around the innermost one, without them.
    #[inline(always)]
    fn take_callers(&mut self) -> Vec<Activation>
        ensures none { result.items ≡ [] }
        ensures left { self.new ≡ record self.old { callers = self.new.callers } }
    {
        let mut callers = replace(&mut self.callers, Vec::new(self.alloc));
        callers.clear();
        callers
    }

    // Gives the machine these calls, and the values of these frames.
    #[inline(always)]
    fn settle(&mut self, layout: Layout, sack: Sack) -> Result<(), NoMemory>
        requires { length (values_of sack) ≤ layout.room }
        ensures { OnOk result (HasSettled layout sack self.old self.new) }
    {
        let Layout {
            callers,
            active,
            room,
            ..
        } = layout;
        let mut stack = sack.into_stack();
        let more = room - stack.len();
        reserve_more(&mut stack, more)?;
        self.stack = stack;
        self.callers = callers;
        self.active = active;
        Ok(())
    }

    // Restores the saved calls instruction by instruction, beside the globals.
    #[inline(never)]
    fn wake_by_code(&mut self, unit: &Woven, handler: u16, sack: Sack) -> Result<(), NoMemory>
        requires valid { AreValid (points_of (bodies_of unit.now)) handler self.old.globals.items self.old.limit sack }
        requires limit { self.old.limit ≤ default_limit }
        ensures { OnOk result ((steps : ℕ) × IsRestored (bodies_of unit.now) handler sack (kept_of self.old) self.new
            steps) }
    {
        let alloc = self.alloc;
        let kept = replace(self, Running::vacant(alloc)).kept();
        let mut steps = 0;
        *self = restore_by_code(alloc, unit, handler, sack, kept, &mut steps)?;
        Ok(())
    }

    // Saves and restores the calls instruction by instruction.
    #[inline(never)]
    fn pause_by_code(&mut self, unit: &Woven, handler: u16) -> Result<(), NoMemory>
        requires laid { Held self.old }
        requires rests { (handler : ℕ) × RestAtTick (bodies_of unit.now) handler (machine_of self.old).calls }
        requires valid { SavesValid (bodies_of unit.now) handler self.old }
        ensures { OnOk result (IsPaused (bodies_of unit.now) handler self.old self.new) }
    {
        let alloc = self.alloc;
        let (sack, kept) = replace(self, Running::vacant(alloc)).save_by_code(unit)?;
        let mut steps = 0;
        *self = restore_by_code(alloc, unit, handler, sack, kept, &mut steps)?;
        Ok(())
    }
}

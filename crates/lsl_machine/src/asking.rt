//! Host calls: asked for with their arguments, and their buffer kept for the next.

ghost use Rattle.std.specs.Prelude.{◌≡◌, List, drop, reverse, take, IfOk, vec_capacity};
ghost use Rattle.lsl_code.specs.Bodies.{Body};
ghost use Rattle.lsl_code.specs.Machine.{call_at};
ghost use Rattle.lsl_code.specs.declared.instructions.Instr.TheVariants as instrs;
ghost use Rattle.lsl_running.specs.Calling.{parameter_count};
ghost use Rattle.lsl_machine.specs.Laid.{Held, IsLaid, Lays, state_of};
ghost use Rattle.lsl_machine.specs.Reservations.{KeepsRoom};
ghost use Rattle.lsl_machine.specs.Steps.{Able, Each, Performs};

use crate::running::{Running, Step};
use crate::standing::Standing;
use lsl_running::Call;
use lsl_table::BuiltinRow;
use lsl_text::NoMemory;
use lsl_value::BuiltinId;

impl Running {
    /// Pops the arguments of a call, and asks for it.
    #[inline(always)]
    pub fn ask(&mut self, id: BuiltinId) -> Step
        requires { Able (instrs.Host id) self.old }
        ensures done { (bodies : List Body) → Performs (instrs.Host id) bodies self.old result self.new }
        ensures room { KeepsRoom self.old self.new }
    {
        let Ok(call) = self.take_call(id) else {
            return Step::NoMemory;
        };
        match self.stack.reserve(1) {
            Ok(()) => {
                self.active.place += 1;
                Step::Asks(call)
            }
            Err(_) => Step::NoMemory,
        }
    }

    // The call with its arguments, which are popped. A single one goes into the buffer that was kept.
    #[inline(always)]
    fn take_call(&mut self, id: BuiltinId) -> Result<Call, NoMemory>
        requires { Held self.old }
        ensures id { IfOk result (λ call. call.id ≡ id) }
        ensures taken { Each self.old (λ g f place sl ops outer. IfOk result (λ call.
            (call.args ≡ reverse (take (parameter_count id) ops))
            × Lays self.new g (call_at f place sl (drop (parameter_count id) ops)) outer)) }
        ensures room { vec_capacity self.new.stack ≡ vec_capacity self.old.stack }
        ensures place { self.new.active.place ≡ self.old.active.place }
    {
        let count = id.row().params.as_slice().len();
        if count == 1 {
            if let Some(room) = self.spare.take() {
                return self.take_argument(id, room);
            }
        }
        let args = self.take_operands(count)?;
        Call::new(self.alloc, id, args)
    }

    // The call with the top operand, which is popped, in this buffer.
    #[inline(always)]
    fn take_argument(&mut self, id: BuiltinId, room: Call) -> Result<Call, NoMemory>
        requires { Held self.old }
        ensures id { IfOk result (λ call. call.id ≡ id) }
        ensures taken { Each self.old (λ g f place sl ops outer. IfOk result (λ call.
            (call.args ≡ reverse (take 1 ops)) × Lays self.new g (call_at f place sl (drop 1 ops)) outer)) }
        ensures room { vec_capacity self.new.stack ≡ vec_capacity self.old.stack }
        ensures place { self.new.active.place ≡ self.old.active.place }
    {
        let mut call = room;
        let argument = self.pop();
        call.renew(id, argument)?;
        Ok(call)
    }

    /// Keeps the buffer of a finished call. Takes no memory.
    #[inline(always)]
    pub fn keep_room(&mut self, call: Call)
        ensures laid { (s : Standing) → IsLaid self.old s → IsLaid self.new s }
        ensures same { (s : Standing) → state_of self.new s ≡ state_of self.old s }
    {
        let mut room = call;
        room.clear();
        self.spare = Some(room);
    }
}

//! The script's limit: set and read.

ghost use Rattle.lsl_code.specs.Bodies.{Body};
ghost use Rattle.lsl_code.specs.declared.instructions.Instr.TheVariants as instrs;
ghost use Rattle.lsl_machine.specs.Reservations.{KeepsRoom, Spares};
ghost use Rattle.lsl_machine.specs.Steps.{Able, Performs};
ghost use Rattle.std.specs.Prelude.{List};

use crate::operands::drop_value;
use crate::operating::{integer, number};
use crate::running::{Running, Step};
use lsl_running::granted_limit;
use lsl_value::Value;

impl Running {
    /// Pops a number, and pushes whether it is the script's limit now. It isn't if the script, without the number and
    /// with the answer, would be charged more, or if no script may have such a limit.
    pub fn set_limit(&mut self) -> Step
        requires { Able instrs.SetLimit self.old }
        ensures done { (bodies : List Body) → Performs instrs.SetLimit bodies self.old result self.new }
        ensures memory { Spares instrs.SetLimit self.old result }
        ensures room { KeepsRoom self.old self.new }
    {
        let Some(value) = self.pop() else {
            return Step::Lost;
        };
        let asked = integer(&value);
        drop_value(value);
        let charge = self.active.charge + self.global_charge;
        match granted_limit(asked, charge) {
            Some(limit) => {
                self.limit = limit;
                self.give(Value::Int(1))
            }
            None => self.give(Value::Int(0)),
        }
    }

    /// Pushes the script's limit.
    pub fn give_limit(&mut self) -> Step
        requires { Able instrs.GetLimit self.old }
        ensures done { (bodies : List Body) → Performs instrs.GetLimit bodies self.old result self.new }
        ensures memory { Spares instrs.GetLimit self.old result }
        ensures room { KeepsRoom self.old self.new }
    {
        let limit = u64::from(self.limit);
        self.give(number(limit))
    }
}

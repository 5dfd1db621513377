//! From a checked program to its unit.

ghost use Rattle.std.specs.Prelude.{◌≡◌, ◌++◌, IfOk, OnOk, map};
ghost use Rattle.lsl_value.specs.Values.{kind_of};
ghost use Rattle.lsl_tree.specs.Kinded.{IsKinded};
ghost use Rattle.lsl_tree.specs.Program.{routine_of, handler_of, program_of};
ghost use Rattle.lsl_tree.specs.Shape.{IsShaped};
ghost use Rattle.lsl_meaning.specs.Globals.{initial_globals};
ghost use Rattle.lsl_code.specs.Bodies.{plain_body};
ghost use Rattle.lsl_gen.specs.Laws.{Agrees};
ghost use Rattle.lsl_gen.specs.Programs.{generated_functions, generated_states, handler_signatures, names_with, signature_of};

use crate::functions::{copy_kinds, push_functions, push_states};
use crate::globals::initial_values;
use lsl_code::{Names, Sequence, Signature, Unit};
use lsl_text::NoMemory;
use lsl_tree::{EventRoutine, Program, Routine};
use lsl_value::{Kind, Value};
use std::alloc::{AllocError, Global};

/// How many states a unit has at most.
const MAX_STATES: usize = 65_535;

/// The unit of a program whose names and kinds are in order: its globals' initial values, its states, and the code of
/// its functions and handlers, which run as they are meant.
///
/// Takes memory for all of it. A statement is walked once, and a jump to a label is looked at once more for each block
/// that it leaves; labels, points and functions are found without a search.
///
/// Out of memory also where a number is too large for its field: from 65,536 slots, functions or points, 65,536 states,
/// or 4,294,967,296 instructions of a function on, and where a list of a global has more than 65,536 elements. A text
/// that is parsed has too few tokens for any of these.
pub fn generate(alloc: Global, program: &Program, digest: [u8; 32]) -> Result<Unit, NoMemory>
    requires kinded { IsKinded (program_of program.now) }
    requires shaped { IsShaped (program_of program.now) }
    ensures digest { IfOk result (λ u. u.digest ≡ digest) }
    ensures globals { IfOk result (λ u. u.globals ≡ initial_globals (program_of program.now)) }
    ensures states { IfOk result (λ u. u.states ≡ generated_states (program_of program.now)) }
    ensures functions { IfOk result (λ u. u.functions ≡ generated_functions (program_of program.now)) }
    ensures meaning { IfOk result (λ u. Agrees (map plain_body u.functions) (program_of program.now)) }
{
    let unit = unit_of(alloc, program, digest)?;
    Ok(unit)
}

// The unit of a program.
fn unit_of(alloc: Global, program: &Program, digest: [u8; 32]) -> Result<Unit, NoMemory>
    requires kinded { IsKinded (program_of program.now) }
    requires shaped { IsShaped (program_of program.now) }
    ensures digest { IfOk result (λ u. u.digest ≡ digest) }
    ensures globals { IfOk result (λ u. u.globals ≡ initial_globals (program_of program.now)) }
    ensures states { IfOk result (λ u. u.states ≡ generated_states (program_of program.now)) }
    ensures functions { IfOk result (λ u. u.functions ≡ generated_functions (program_of program.now)) }
{
    if program.states.len() > MAX_STATES {
        return Err(AllocError);
    }
    let globals = initial_values(alloc, &program.globals)?;
    let names = names_in(alloc, globals.as_slice(), program)?;
    let mut functions = Sequence::new(alloc);
    push_functions(alloc, &names, &mut functions, &program.functions)?;
    let states = push_states(alloc, &names, &mut functions, &program.states)?;
    Ok(Unit {
        digest,
        globals,
        states,
        functions,
    })
}

// The kinds of these values.
fn kinds_of(alloc: Global, values: &[Value]) -> Result<Sequence<Kind>, NoMemory>
    ensures { IfOk result (λ kinds. kinds ≡ map kind_of values.now) }
{
    let mut kinds = Sequence::new(alloc);
    for value in values {
        kinds.push(value.kind())?;
    }
    Ok(kinds)
}

// What a routine takes and gives.
fn signature(alloc: Global, routine: &Routine) -> Result<Signature, NoMemory>
    ensures { IfOk result (λ s. s ≡ signature_of (routine_of routine.now)) }
{
    let slots = copy_kinds(alloc, &routine.slots)?;
    let params = slots.first(alloc, routine.params)?;
    Ok(Signature {
        params,
        result: routine.kind,
    })
}

// What the code of a program can name, where its globals have these values.
fn names_in(alloc: Global, globals: &[Value], program: &Program) -> Result<Names, NoMemory>
    ensures { IfOk result (λ names. names ≡ names_with (map kind_of globals.now) (program_of program.now)) }
{
    let globals = kinds_of(alloc, globals)?;
    let mut functions = Sequence::new(alloc);
    for f in &program.functions {
        let s = signature(alloc, &f.routine)?;
        functions.push(s)?;
    }
    for state in &program.states {
        push_signatures(alloc, &mut functions, &state.handlers)?;
    }
    Ok(Names {
        globals,
        functions,
        states: program.states.len(),
    })
}

// Adds what handlers take and give.
fn push_signatures(
    alloc: Global,
    signatures: &mut Sequence<Signature>,
    handlers: &[EventRoutine],
) -> Result<(), NoMemory>
    ensures { OnOk result (signatures.new ≡ signatures.old ++ handler_signatures (map handler_of handlers.now)) }
{
    for h in handlers {
        let s = signature(alloc, &h.routine)?;
        signatures.push(s)?;
    }
    Ok(())
}

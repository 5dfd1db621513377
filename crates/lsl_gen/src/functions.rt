//! The code of routines, as functions of a unit.

ghost use Rattle.std.specs.Prelude.{◌≡◌, ◌<◌, [], ◌∷◌, ◌++◌, IfOk, OnOk, All, length, map};
ghost use Rattle.lsl_tree.specs.Program.{routine_of, function_of, handler_of, state_of};
ghost use Rattle.lsl_tree.specs.Signatures.{handlers_of};
ghost use Rattle.lsl_gen.specs.Programs.{draft_of, functions_made, handlers_made, made_by, IsReady, IsShort, numbered_handlers, numbered_states};

use crate::numbers::to_u16;
use crate::statements::emit_block;
use crate::texts::{ascii_text, copy_text};
use lsl_code::{Draft, FunctionCode, Handler, Instr, Names, Sequence, StateCode, finish};
use lsl_table::event_name;
use lsl_text::NoMemory;
use lsl_tree::{EventRoutine, NamedRoutine, ProgramState, Routine};
use lsl_value::{Kind, Text};
use std::alloc::Global;

/// These kinds.
pub fn copy_kinds(alloc: Global, kinds: &[Kind]) -> Result<Sequence<Kind>, NoMemory>
    ensures { IfOk result (λ s. s ≡ kinds.now) }
{
    let mut list = Vec::new(alloc);
    list.extend_from_slice(kinds)?;
    Ok(Sequence::from_vec(list))
}

// The code of a routine, with lines in place of points.
fn emit_routine(alloc: Global, routine: &Routine) -> Result<Draft, NoMemory>
    ensures { IfOk result (λ d. d ≡ draft_of (routine_of routine.now)) }
{
    let mut draft = Draft::new(alloc);
    let mut jumps = Vec::new(alloc);
    draft.push_tick(routine.line)?;
    emit_block(alloc, &mut draft, &mut jumps, &routine.body)?;
    if routine.kind.is_none() {
        draft.push(Instr::Return)?;
    }
    Ok(draft)
}

// The function of this name with a routine's code.
fn function(
    alloc: Global,
    names: &Names,
    name: Text,
    routine: &Routine,
) -> Result<FunctionCode, NoMemory>
    requires { IsReady names.now (routine_of routine.now) }
    ensures made { IfOk result (λ f. f ≡ made_by names.now name (routine_of routine.now)) }
    ensures small { OnOk result (IsShort (routine_of routine.now)) }
{
    let draft = emit_routine(alloc, routine)?;
    let slots = copy_kinds(alloc, &routine.slots)?;
    let made = finish(
        alloc,
        names,
        name,
        slots,
        routine.kind,
        routine.params,
        draft,
    )?;
    Ok(made)
}

/// Adds the script's functions.
pub fn push_functions(
    alloc: Global,
    names: &Names,
    functions: &mut Sequence<FunctionCode>,
    routines: &[NamedRoutine],
) -> Result<(), NoMemory>
    requires { All (λ r. IsReady names.now (routine_of r.routine)) routines.now }
    ensures made { OnOk result (functions.new
        ≡ functions.old ++ functions_made names.now (map function_of routines.now)) }
    ensures small { OnOk result (All (λ r. IsShort (routine_of r.routine)) routines.now) }
{
    for r in routines {
        let name = copy_text(&r.name)?;
        let made = function(alloc, names, name, &r.routine)?;
        functions.push(made)?;
    }
    Ok(())
}

// Adds the functions of a state's handlers, and lists them by their numbers.
fn push_handlers(
    alloc: Global,
    names: &Names,
    functions: &mut Sequence<FunctionCode>,
    routines: &[EventRoutine],
) -> Result<Sequence<Handler>, NoMemory>
    requires { All (λ r. IsReady names.now (routine_of r.routine)) routines.now }
    ensures made { OnOk result (functions.new
        ≡ functions.old ++ handlers_made names.now (map handler_of routines.now)) }
    ensures small { OnOk result (All (λ r. IsShort (routine_of r.routine)) routines.now) }
    ensures listed { IfOk result (λ handlers. handlers
        ≡ numbered_handlers (length functions.old) (map handler_of routines.now)) }
{
    let mut handlers = Sequence::new(alloc);
    for r in routines {
        let number = to_u16(functions.len())?;
        handlers.push(Handler {
            event: r.event,
            function: number,
        })?;
        let name = ascii_text(alloc, event_name(r.event))?;
        let made = function(alloc, names, name, &r.routine)?;
        functions.push(made)?;
    }
    Ok(handlers)
}

/// Adds the functions of all handlers, and lists the states.
pub fn push_states(
    alloc: Global,
    names: &Names,
    functions: &mut Sequence<FunctionCode>,
    states: &[ProgramState],
) -> Result<Sequence<StateCode>, NoMemory>
    requires { All (λ s. All (λ r. IsReady names.now (routine_of r.routine)) s.handlers.items) states.now }
    ensures made { OnOk result (functions.new
        ≡ functions.old ++ handlers_made names.now (handlers_of (map state_of states.now))) }
    ensures small { OnOk result (All (λ s. All (λ r. IsShort (routine_of r.routine)) s.handlers.items) states.now) }
    ensures listed { IfOk result (λ found. found ≡ numbered_states (length functions.old) (map state_of states.now)) }
{
    let mut found = Sequence::new(alloc);
    for state in states {
        let name = copy_text(&state.name)?;
        let handlers = push_handlers(alloc, names, functions, &state.handlers)?;
        found.push(StateCode { name, handlers })?;
    }
    Ok(found)
}

//! The whole script: headers first, then bodies.

ghost use Rattle.std.specs.Prelude.{map};
ghost use Rattle.lsl_tree.specs.Scripts.{tree_of};
ghost use Rattle.lsl_tree.specs.Program.{function_of, initial_of, program_of};
ghost use Rattle.lsl_type.specs.Headers.{headers_of};
ghost use Rattle.lsl_bodies.specs.Scope.{scope_of, frame_of};
ghost use Rattle.lsl_bodies.specs.Known.{known_of};
ghost use Rattle.lsl_bodies.specs.Blocks.{IsResting};
ghost use Rattle.lsl_bodies.specs.Verdict.{Rules};
ghost use Rattle.lsl_type.specs.ScriptVerdicts.{states_verdict, routines_verdict, bodies_verdict, script_verdict};

use crate::bodies::Bodies;
use crate::headers::headers;
use crate::known::Headers;
use crate::states::{handlers, states};
use lsl_bodies::{Frame, Known, Names, Refused};
use lsl_tree::{Initial, NamedRoutine, Program, Tree};
use std::alloc::Global;

/// The program of a script, or its first fault.
pub(crate) fn program(alloc: Global, tree: &Tree) -> Result<Program, Refused>
    ensures { Rules program_of result (script_verdict (tree_of tree.now)) }
{
    let mut seen = Names::new(alloc);
    let headers = headers(alloc, &mut seen, tree.headers.as_slice())?;
    handlers(alloc, &mut seen, tree.default.as_slice())?;
    let states = states(alloc, &mut seen, tree.states.as_slice())?;
    bodies(alloc, headers, states, tree)
}

/// The program, once it is known what the script declares.
fn bodies(alloc: Global, headers: Headers, states: Names, tree: &Tree) -> Result<Program, Refused>
    ensures { Rules program_of result (bodies_verdict (headers_of headers) states (tree_of tree.now)) }
{
    let Headers {
        scope,
        globals,
        functions,
        signatures,
    } = headers;
    let known = Known {
        functions,
        signatures,
        states,
    };
    let bodies = Bodies {
        alloc,
        known: &known,
    };
    routines(&bodies, &mut Frame::new(alloc, scope), globals, tree)
}

/// The program, once its globals are known.
fn routines(
    bodies: &Bodies<'_>,
    frame: &mut Frame,
    globals: Vec<Initial>,
    tree: &Tree,
) -> Result<Program, Refused>
    requires { IsResting (frame_of frame.old) }
    ensures { Rules program_of result (routines_verdict (known_of bodies.now.known.now) (scope_of frame.old.scope)
        (map initial_of globals.items) (tree_of tree.now)) }
{
    let functions = bodies.functions(frame, tree.headers.as_slice())?;
    all_states(bodies, frame, globals, functions, tree)
}

/// The program, once its globals and functions are known.
fn all_states(
    bodies: &Bodies<'_>,
    frame: &mut Frame,
    globals: Vec<Initial>,
    functions: Vec<NamedRoutine>,
    tree: &Tree,
) -> Result<Program, Refused>
    requires { IsResting (frame_of frame.old) }
    ensures { Rules program_of result (states_verdict (known_of bodies.now.known.now) (scope_of frame.old.scope)
        (map initial_of globals.items) (map function_of functions.items) (tree_of tree.now)) }
{
    let start = bodies.handlers(frame, tree.default.as_slice())?;
    let states = bodies.states(frame, start, tree.states.as_slice())?;
    Ok(Program {
        globals,
        functions,
        states,
    })
}

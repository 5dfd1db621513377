//! The bodies of functions and handlers.

ghost use Rattle.std.specs.Prelude.{◌≡◌, ◌++◌, ◌∷◌, map, [], OnOk, IfOk};
ghost use Rattle.lsl_tree.specs.Scripts.{header_of, handler_of, state_of};
ghost use Rattle.lsl_tree.specs.Statements.{items_of};
ghost use Rattle.lsl_tree.specs.Program as program;
ghost use Rattle.lsl_tree.specs.Program.{function_of};
ghost use Rattle.lsl_bodies.specs.Scope.{scope_of, frame_of};
ghost use Rattle.lsl_bodies.specs.Known.{known_of};
ghost use Rattle.lsl_bodies.specs.Blocks.{IsResting};
ghost use Rattle.lsl_bodies.specs.Verdict.{Rules, each_verdict};
ghost use Rattle.lsl_type.specs.ScriptVerdicts.{function_routine_verdict, function_body_verdict};
ghost use Rattle.lsl_type.specs.ScriptVerdicts.{handler_routine_verdict, handler_body_verdict, program_state_verdict};
ghost use Rattle.lsl_type.specs.ScriptVerdicts.{state_body_verdict};
ghost use Rattle.lsl_type.specs.ScriptRules.{default_name};

use lsl_bodies::{Checker, Frame, Home, Known, Refused, TypeKind, event, fault};
use lsl_text::NoMemory;
use lsl_tree::{EventRoutine, Function, Handler, Header, NamedRoutine, ProgramState, State};
use lsl_value::Text;
use std::alloc::Global;

/// Memory, and what the headers declare.
#[derive(Drop)]
pub(crate) struct Bodies<'a> {
    pub alloc: Global,
    pub known: &'a Known,
}

impl Bodies<'_> {
    /// The functions of a script, in text order.
    pub(crate) fn functions(
        &self,
        frame: &mut Frame,
        list: &[Header],
    ) -> Result<Vec<NamedRoutine>, Refused>
        requires { IsResting (frame_of frame.old) }
        ensures found { Rules (λ v. map function_of v.items) result
            (each_verdict (function_body_verdict (known_of self.now.known.now) (scope_of frame.old.scope))
            [] (map header_of list.now)) }
        ensures unchanged { OnOk result (frame_of frame.new ≡ frame_of frame.old) }
    {
        let mut functions = Vec::new(self.alloc);
        for header in list {
            self.add_function(frame, &mut functions, header)?;
        }
        Ok(functions)
    }

    /// Adds the body of a function.
    fn add_function(
        &self,
        frame: &mut Frame,
        functions: &mut Vec<NamedRoutine>,
        header: &Header,
    ) -> Result<(), Refused>
        requires { IsResting (frame_of frame.old) }
        ensures found { Rules (λ _. map function_of functions.new.items) result
            (function_body_verdict (known_of self.now.known.now)
            (scope_of frame.old.scope) (map function_of functions.old.items) (header_of header.now)) }
        ensures unchanged { OnOk result (frame_of frame.new ≡ frame_of frame.old) }
    {
        match header {
            Header::Global { .. } => Ok(()),
            Header::Function { function } => {
                functions.push(self.function(frame, function)?)?;
                Ok(())
            }
        }
    }

    fn function(&self, frame: &mut Frame, function: &Function) -> Result<NamedRoutine, Refused>
        requires { IsResting (frame_of frame.old) }
        ensures found { Rules function_of result
            (function_routine_verdict (known_of self.now.known.now) (scope_of frame.old.scope)
            function.now.kind function.now.name function.now.params.items (items_of function.now.body.items)) }
        ensures unchanged { OnOk result (frame_of frame.new ≡ frame_of frame.old) }
    {
        let checker = Checker {
            alloc: self.alloc,
            known: self.known,
            home: Home::Function {
                kind: function.kind,
            },
        };
        let routine = checker.body(
            frame,
            &function.name,
            function.params.as_slice(),
            function.body.as_slice(),
        )?;
        Ok(NamedRoutine {
            name: function.name.text.copy()?,
            routine,
        })
    }

    /// The handlers of a state.
    pub(crate) fn handlers(
        &self,
        frame: &mut Frame,
        list: &[Handler],
    ) -> Result<Vec<EventRoutine>, Refused>
        requires { IsResting (frame_of frame.old) }
        ensures found { Rules (λ v. map program.handler_of v.items) result
            (each_verdict (handler_body_verdict (known_of self.now.known.now) (scope_of frame.old.scope))
            [] (map handler_of list.now)) }
        ensures unchanged { OnOk result (frame_of frame.new ≡ frame_of frame.old) }
    {
        let mut routines = Vec::with_capacity(self.alloc, list.len())?;
        for handler in list {
            routines.push(self.handler(frame, handler)?)?;
        }
        Ok(routines)
    }

    fn handler(&self, frame: &mut Frame, handler: &Handler) -> Result<EventRoutine, Refused>
        requires { IsResting (frame_of frame.old) }
        ensures found { Rules program.handler_of result
            (handler_routine_verdict (known_of self.now.known.now)
            (scope_of frame.old.scope) (handler_of handler.now)) }
        ensures unchanged { OnOk result (frame_of frame.new ≡ frame_of frame.old) }
    {
        let Some(event) = event(handler.name.text.as_str()) else {
            return Err(fault(TypeKind::WrongHandler, handler.name.span));
        };
        let checker = Checker {
            alloc: self.alloc,
            known: self.known,
            home: Home::Handler,
        };
        let routine = checker.body(
            frame,
            &handler.name,
            handler.params.as_slice(),
            handler.body.as_slice(),
        )?;
        Ok(EventRoutine { event, routine })
    }

    /// The states: `default`, with these handlers, and the others.
    pub(crate) fn states(
        &self,
        frame: &mut Frame,
        start: Vec<EventRoutine>,
        list: &[State],
    ) -> Result<Vec<ProgramState>, Refused>
        requires { IsResting (frame_of frame.old) }
        ensures { Rules (λ v. map program.state_of v.items) result
            (each_verdict (state_body_verdict (known_of self.now.known.now) (scope_of frame.old.scope))
            (record { name = default_name; handlers = map program.handler_of start.items } ∷ [])
            (map state_of list.now)) }
    {
        let mut states = Vec::with_capacity(self.alloc, list.len())?;
        states.push(ProgramState {
            name: default_text(self.alloc)?,
            handlers: start,
        })?;
        for state in list {
            states.push(self.state(frame, state)?)?;
        }
        Ok(states)
    }

    fn state(&self, frame: &mut Frame, state: &State) -> Result<ProgramState, Refused>
        requires { IsResting (frame_of frame.old) }
        ensures found { Rules program.state_of result
            (program_state_verdict (known_of self.now.known.now) (scope_of frame.old.scope) (state_of state.now)) }
        ensures unchanged { OnOk result (frame_of frame.new ≡ frame_of frame.old) }
    {
        let handlers = self.handlers(frame, state.handlers.as_slice())?;
        Ok(ProgramState {
            name: state.name.text.copy()?,
            handlers,
        })
    }
}

fn default_text(alloc: Global) -> Result<Text, NoMemory>
    ensures { IfOk result (λ text. text ≡ default_name) }
{
    Ok(Text::from_ascii(Vec::from_slice(alloc, b"default")?)?)
}

//! A body with its parameters around it.

ghost use Rattle.std.specs.Prelude.{◌≡◌, OnOk};
ghost use Rattle.lsl_tree.specs.Statements.{items_of};
ghost use Rattle.lsl_tree.specs.Actions.{actions_of};
ghost use Rattle.lsl_tree.specs.Program.{routine_of};
ghost use Rattle.lsl_bodies.specs.Scope.{scope_of, frame_of};
ghost use Rattle.lsl_bodies.specs.Known.{known_of};
ghost use Rattle.lsl_bodies.specs.Blocks.{IsResting};
ghost use Rattle.lsl_bodies.specs.ActionForms.{ended, home_kind};
ghost use Rattle.lsl_bodies.specs.Verdict.{Rules};
ghost use Rattle.lsl_bodies.specs.BodyVerdicts.{body_verdict};

use crate::checker::Checker;
use crate::conversions::empty_node;
use crate::faults::Refused;
use crate::frame::Frame;
use lsl_text::NoMemory;
use lsl_tree::{Action, Item, Name, Param, Routine};
use lsl_value::Kind;
use std::alloc::Global;
use std::mem;

impl Checker<'_> {
    /// A function's or handler's body, with its parameters around it.
    pub fn body(
        &self,
        frame: &mut Frame,
        name: &Name,
        params: &[Param],
        items: &[Item],
    ) -> Result<Routine, Refused>
        requires { IsResting (frame_of frame.old) }
        ensures found { Rules routine_of result
            (body_verdict (known_of self.now.known.now) (scope_of frame.old.scope)
            self.now.home name.now (home_kind self.now.home) params.now (items_of items.now)) }
        ensures unchanged { OnOk result (frame_of frame.new ≡ frame_of frame.old) }
    {
        let names = frame.scope.names.len();
        let globals = frame.scope.variables.len();
        frame.declare_all(self.alloc, params)?;
        let outer = frame.open(self.alloc, items)?;
        let mut body = self.actions(frame, items)?;
        frame.close(outer);
        frame.scope.names.truncate(names);
        frame.scope.variables.truncate(globals);
        let kind = self.home.kind();
        end(self.alloc, kind, &mut body)?;
        Ok(Routine {
            line: name.span.line,
            kind,
            params: params.len(),
            slots: mem::replace(&mut frame.slots, Vec::new(self.alloc)),
            body,
        })
    }
}

/// A function with a kind that runs off its end returns the kind's empty value.
fn end(alloc: Global, kind: Option<Kind>, body: &mut Vec<Action>) -> Result<(), NoMemory>
    ensures { OnOk result (actions_of body.new.items ≡ ended kind (actions_of body.old.items)) }
{
    if let Some(kind) = kind {
        body.push(Action::ReturnValue {
            value: empty_node(alloc, kind)?,
        })?;
    }
    Ok(())
}

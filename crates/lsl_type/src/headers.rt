//! Globals and functions: what they declare, or their first fault.

ghost use Rattle.std.specs.Prelude.{◌≡◌, map};
ghost use Rattle.lsl_tree.specs.Scripts as source;
ghost use Rattle.lsl_tree.specs.Scripts.{header_of, initial_value_of};
ghost use Rattle.lsl_tree.specs.Statements.{items_of};
ghost use Rattle.lsl_bodies.specs.Judgement.{at};
ghost use Rattle.lsl_type.specs.Headers.{headers_of, no_headers};
ghost use Rattle.lsl_bodies.specs.Verdict.{Rules, each_verdict, must_verdict};
ghost use Rattle.lsl_type.specs.HeaderVerdicts.{header_verdict, is_unused};

use crate::initials::{empty_initial, initial, initial_as_kind};
use crate::known::Headers;
use crate::params::{kinds, params};
use lsl_bodies::{Names, Refused, Scope, Signature, TypeKind, Variable, fault, is_reserved};
use lsl_tree::{Function, Global as GlobalHeader, Header, Name, Place};
use std::alloc::Global;

/// What the globals and functions of a script declare. The names of parameters are looked up in `seen`.
pub(crate) fn headers(alloc: Global, seen: &mut Names, list: &[Header]) -> Result<Headers, Refused>
    ensures { Rules headers_of result (each_verdict header_verdict no_headers (map header_of list.now)) }
{
    let mut headers = Headers {
        scope: Scope {
            names: Names::new(alloc),
            variables: Vec::new(alloc),
        },
        globals: Vec::new(alloc),
        functions: Names::new(alloc),
        signatures: Vec::new(alloc),
    };
    for header in list {
        headers.add(alloc, seen, header)?;
    }
    Ok(headers)
}

impl Headers {
    fn add(&mut self, alloc: Global, seen: &mut Names, header: &Header) -> Result<(), Refused>
        ensures { Rules (λ _. headers_of self.new) result
            (header_verdict (headers_of self.old) (header_of header.now)) }
    {
        match header {
            Header::Global { global } => self.add_global(alloc, global),
            Header::Function { function } => self.add_function(alloc, seen, function),
        }
    }

    fn add_global(&mut self, alloc: Global, global: &GlobalHeader) -> Result<(), Refused>
        ensures { Rules (λ _. headers_of self.new) result
            (header_verdict (headers_of self.old)
            (source.Global global.now.kind global.now.name (initial_value_of global.now.value))) }
    {
        let value = match &global.value {
            None => {
                self.unused(&global.name)?;
                empty_initial(alloc, global.kind)
            }
            Some(value) => {
                let found = initial(alloc, &self.scope, value)?;
                self.unused(&global.name)?;
                initial_as_kind(global.kind, found, value)?
            }
        };
        let place = Place::Global(self.globals.len());
        let kind = global.kind;
        self.globals.push(value)?;
        self.scope
            .declare(alloc, &global.name, Variable { place, kind })?;
        Ok(())
    }

    fn add_function(
        &mut self,
        alloc: Global,
        seen: &mut Names,
        function: &Function,
    ) -> Result<(), Refused>
        ensures { Rules (λ _. headers_of self.new) result
            (header_verdict (headers_of self.old) (source.Function function.now.kind function.now.name
            function.now.params.items (items_of function.now.body.items))) }
    {
        self.unused(&function.name)?;
        params(alloc, seen, function.params.as_slice())?;
        let signature = Signature {
            params: kinds(alloc, function.params.as_slice())?,
            result: function.kind,
        };
        self.functions.push(alloc, function.name.text.as_str())?;
        self.signatures.push(signature)?;
        Ok(())
    }

    /// A global or function may have this name.
    fn unused(&self, name: &Name) -> Result<(), Refused>
        ensures { Rules (λ u. u) result
            (must_verdict (is_unused (headers_of self.now) name.now) (at TypeKind.DoubleName name.now.span)) }
    {
        let text = name.text.as_str();
        let taken = self.scope.names.find(text).is_some() || self.functions.find(text).is_some();
        if is_reserved(text) || taken {
            Err(fault(TypeKind::DoubleName, name.span))
        } else {
            Ok(())
        }
    }
}

//! Initial values of globals.

ghost use Rattle.std.specs.Prelude.{◌≡◌, [], length, IfOk, Some, None};
ghost use Rattle.lsl_tree.specs.Scripts.{simple_of};
ghost use Rattle.lsl_tree.specs.Program.{initial_of};
ghost use Rattle.lsl_tree.specs.Initials.{part_kind_of, initial_kind_of};
ghost use Rattle.lsl_bodies.specs.Judgement.{at};
ghost use Rattle.lsl_bodies.specs.Scope.{scope_of};
ghost use Rattle.lsl_bodies.specs.Conversions.{empty_initial, cast_initial, is_no_list};
ghost use Rattle.lsl_bodies.specs.Spans.{initial_span, atom_span};
ghost use Rattle.lsl_bodies.specs.Verdict.{Rules, each_verdict, must_verdict};
ghost use Rattle.lsl_type.specs.HeaderVerdicts.{initial_part_verdict, next_part_verdict, initial_verdict};
ghost use Rattle.lsl_type.specs.HeaderVerdicts.{flat_parts_verdict, constant_initial_verdict, initial_become_verdict};

use lsl_bodies::{
    Refused, Scope, TypeKind, Variable, atom_span, constant, constant_kind, fault, initial_span,
};
use lsl_tree::{Atom, Initial, Name, Part, Place, Simple};
use lsl_value::{Kind, Text};
use std::alloc::Global;

/// A global's initial value.
pub(crate) fn initial(alloc: Global, scope: &Scope, value: &Simple) -> Result<Initial, Refused>
    ensures { Rules initial_of result (initial_verdict (scope_of scope.now) (simple_of value.now)) }
{
    match value {
        Simple::Atom { atom } => Ok(Initial::Part {
            part: part(alloc, scope, atom)?,
        }),
        Simple::List { atoms, .. } => {
            let parts = parts(alloc, scope, atoms.as_slice())?;
            flat_parts(atoms.as_slice(), parts.as_slice())?;
            Ok(Initial::List { parts })
        }
    }
}

fn parts(alloc: Global, scope: &Scope, atoms: &[Atom]) -> Result<Vec<Part>, Refused>
    ensures found { Rules (λ v. v.items) result (each_verdict (next_part_verdict (scope_of scope.now)) [] atoms.now) }
    ensures counted { IfOk result (λ v. length v.items ≡ length atoms.now) }
{
    let mut parts = Vec::with_capacity(alloc, atoms.len())?;
    for atom in atoms {
        parts.push(part(alloc, scope, atom)?)?;
    }
    Ok(parts)
}

fn part(alloc: Global, scope: &Scope, atom: &Atom) -> Result<Part, Refused>
    ensures { Rules (λ p. p) result (initial_part_verdict (scope_of scope.now) atom.now) }
{
    match atom {
        Atom::Int { value, .. } => Ok(Part::Int { value: *value }),
        Atom::Negative { value, .. } => Ok(Part::Negative { value: *value }),
        Atom::Str { text, .. } => Ok(Part::Str { text: text.copy()? }),
        Atom::Constant { name } => match scope.variable(name) {
            Some(
                Variable {
                    place: Place::Global(number),
                    kind,
                },
            ) => Ok(Part::Global { number, kind }),
            Some(_) => Err(fault(TypeKind::NotConstant, name.span)),
            None => constant_part(name),
        },
    }
}

fn constant_part(name: &Name) -> Result<Part, Refused>
    ensures { Rules (λ p. p) result (constant_initial_verdict name.now) }
{
    match constant(name.text.as_str()) {
        Some(id) => Ok(Part::Constant {
            id,
            kind: constant_kind(id),
        }),
        None => Err(fault(TypeKind::NotConstant, name.span)),
    }
}

fn part_kind(part: &Part) -> Kind
    ensures { result ≡ part_kind_of part.now }
{
    match part {
        Part::Int { .. } | Part::Negative { .. } => Kind::Int,
        Part::Str { .. } => Kind::Str,
        Part::Constant { kind, .. } | Part::Global { kind, .. } => *kind,
    }
}

/// No part of a list is a list.
fn flat_parts(atoms: &[Atom], parts: &[Part]) -> Result<(), Refused>
    requires { length parts.now ≡ length atoms.now }
    ensures { Rules (λ u. u) result (flat_parts_verdict atoms.now parts.now) }
{
    for (i, atom) in atoms.iter().enumerate() {
        flat_part(&parts[i], atom)?;
    }
    Ok(())
}

fn flat_part(part: &Part, atom: &Atom) -> Result<(), Refused>
    ensures { Rules (λ u. u) result
        (must_verdict (is_no_list (part_kind_of part.now))
        (at (TypeKind.WrongKind None (Some Kind.List)) (atom_span atom.now))) }
{
    match part_kind(part) {
        Kind::List => {
            let wrong = TypeKind::WrongKind {
                wanted: None,
                found: Some(Kind::List),
            };
            Err(fault(wrong, atom_span(atom)))
        }
        _ => Ok(()),
    }
}

fn initial_kind(initial: &Initial) -> Kind
    ensures { result ≡ initial_kind_of (initial_of initial.now) }
{
    match initial {
        Initial::Part { part } => part_kind(part),
        Initial::Cast { kind, .. } => *kind,
        Initial::List { .. } => Kind::List,
    }
}

/// The initial value as one of this kind.
pub(crate) fn initial_as_kind(
    kind: Kind,
    initial: Initial,
    value: &Simple,
) -> Result<Initial, Refused>
    ensures { Rules initial_of result
        (initial_become_verdict kind (initial_of initial) (initial_span (simple_of value.now))) }
{
    let found = initial_kind(&initial);
    if found == kind {
        Ok(initial)
    } else if found.casts_implicitly_to(kind) {
        Ok(cast_initial(kind, initial))
    } else {
        let wrong = TypeKind::WrongKind {
            wanted: Some(kind),
            found: Some(found),
        };
        Err(fault(wrong, initial_span(value)))
    }
}

fn cast_initial(kind: Kind, initial: Initial) -> Initial
    ensures { initial_of result ≡ cast_initial kind (initial_of initial) }
{
    match initial {
        Initial::Part { part } | Initial::Cast { part, .. } => Initial::Cast { kind, part },
        Initial::List { parts } => Initial::List { parts },
    }
}

/// The empty value of a kind.
pub(crate) fn empty_initial(alloc: Global, kind: Kind) -> Initial
    ensures { initial_of result ≡ empty_initial kind }
{
    match kind {
        Kind::Int => Initial::Part {
            part: Part::Int { value: 0 },
        },
        Kind::Str => Initial::Part {
            part: Part::Str { text: Text::new() },
        },
        Kind::Key => Initial::Cast {
            kind,
            part: Part::Str { text: Text::new() },
        },
        Kind::List => Initial::List {
            parts: Vec::new(alloc),
        },
    }
}

//! The checker: a syntax tree as a checked program, or its first fault of names and kinds.
#![tactic(auto)]

ghost use Rattle.std.specs.Prelude.{◌≡◌, IfOk, IfErr, MatchResult};
ghost use Rattle.lsl_text.specs.declared.Refusal.TheVariants.{NoMemory};
ghost use Rattle.lsl_tree.specs.Scripts.{tree_of};
ghost use Rattle.lsl_tree.specs.Program as program;
ghost use Rattle.lsl_tree.specs.Program.{program_of};
ghost use Rattle.lsl_tree.specs.Shape.{IsShaped};
ghost use Rattle.lsl_tree.specs.Kinded.{IsKinded};
ghost use Rattle.lsl_bodies.specs.declared.faults.TypeFault.{TypeFault};
ghost use Rattle.lsl_type.specs.Typed.{Typed, TypeFirst, IsTypeRefusal, IsThat};

use lsl_tree::{Program, Tree};
use std::alloc::Global;

mod bodies;
mod headers;
mod initials;
mod known;
mod params;
mod program;
mod states;

pub use lsl_bodies::{Refused, TypeFault, TypeKind};

/// The checked program of a script, or the first fault of its names and kinds.
///
/// Headers come first, in text order, and then bodies. The items of a part come before the part itself, from left to
/// right. Takes memory for the program and for tables of names; each name is looked up in a table.
pub fn check(alloc: Global, tree: &Tree) -> Result<Program, Refused>
    ensures found { IfOk result (λ p. Typed (tree_of tree.now) (program_of p)) }
    ensures every { (p : program.Program) → Typed (tree_of tree.now) p → MatchResult result
        (λ q. program_of q ≡ p) (λ e. e ≡ NoMemory) }
    ensures shaped { IfOk result (λ p. IsShaped (program_of p)) }
    ensures kinded { IfOk result (λ p. IsKinded (program_of p)) }
    ensures first { IfErr result (IsTypeRefusal (tree_of tree.now)) }
    ensures only { (fault : TypeFault) → TypeFirst (tree_of tree.now) fault → MatchResult result
        (λ _. ⊥) (IsThat fault) }
{
    program::program(alloc, tree)
}

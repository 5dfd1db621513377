//! From a text to its checked program, or its first fault.

ghost use Rattle.std.specs.Prelude.{IfOk, IsErrOf};
ghost use Rattle.lsl_text.specs.declared.Refusal.TheVariants as refusals;
ghost use Rattle.lsl_tree.specs.Kinded.{IsKinded};
ghost use Rattle.lsl_tree.specs.Program.{program_of};
ghost use Rattle.lsl_tree.specs.Shape.{IsShaped};
ghost use Rattle.lsl_build.specs.Accepted.{Accepted};
ghost use Rattle.lsl_build.specs.Faults.{FirstFault};
ghost use Rattle.lsl_build.specs.declared.faults.BuildFault.{BuildFault as Fault};

use crate::faults::{BuildFault, lexical, semantic, syntactic};
use lsl_lex::lex;
use lsl_parse::parse;
use lsl_text::Refusal;
use lsl_tree::Program;
use lsl_type::check;
use std::alloc::Global;

/// The checked program of a text, or its first fault. The tokens and the tree are dropped.
pub(crate) fn checked(alloc: Global, text: &[u8]) -> Result<Program, Refusal<BuildFault>>
    ensures found { IfOk result (λ p. Accepted text.now (program_of p)) }
    ensures shaped { IfOk result (λ p. IsShaped (program_of p)) }
    ensures kinded { IfOk result (λ p. IsKinded (program_of p)) }
    ensures first { (fault : Fault) → IsErrOf result (refusals.Fault fault) → FirstFault text.now fault }
{
    let tokens = match lex(alloc, text) {
        Ok(tokens) => tokens,
        Err(refusal) => return Err(lexical(refusal)),
    };
    let tree = match parse(alloc, &tokens) {
        Ok(tree) => tree,
        Err(refusal) => return Err(syntactic(refusal)),
    };
    match check(alloc, &tree) {
        Ok(program) => Ok(program),
        Err(refusal) => Err(semantic(refusal)),
    }
}

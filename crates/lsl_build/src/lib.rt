//! The whole compiler: from a text to its checked program and the code that runs it, or its first fault.
//! Nothing here runs it.
#![tactic(auto)]

ghost use Rattle.std.specs.Prelude.{◌≡◌, ◌≤◌, IfOk, IsErrOf, MatchResult};
ghost use Rattle.lsl_text.specs.declared.Refusal.TheVariants as refusals;
ghost use Rattle.lsl_tree.specs.Kinded.{IsKinded};
ghost use Rattle.lsl_tree.specs.Program as program;
ghost use Rattle.lsl_tree.specs.Program.{program_of};
ghost use Rattle.lsl_tree.specs.Shape.{IsShaped};
ghost use Rattle.lsl_code.specs.Laws.{hosts_of};
ghost use Rattle.lsl_code.specs.Weaves.{Weaves, bodies_of};
ghost use Rattle.lsl_gen.specs.Counts.{nodes_of};
ghost use Rattle.lsl_gen.specs.Laws.{Agrees};
ghost use Rattle.lsl_build.specs.Accepted.{Accepted};
ghost use Rattle.lsl_build.specs.Codes.{IsCodeOf};
ghost use Rattle.lsl_build.specs.Faults.{FirstFault, IsThat};
ghost use Rattle.lsl_build.specs.declared.faults.BuildFault.{BuildFault as Fault};

mod digest;
mod faults;
mod front;

use crate::digest::digest_of;
pub use crate::faults::BuildFault;
use crate::front::checked;
use lsl_code::Woven;
use lsl_gen::generate;
use lsl_text::Refusal;
use lsl_tree::Program;
use lsl_weave::weave;
use std::alloc::Global;

/// A script that is accepted: its checked program, and the code that runs it.
#[derive(Drop)]
pub struct Built {
    pub program: Program,
    pub code: Woven,
}

/// The program of a text of UTF-8, or its first fault, which comes as that of [`build`] does. Takes memory for the
/// tokens, the tree and the program.
pub fn accept(alloc: Global, text: &[u8]) -> Result<Program, Refusal<BuildFault>>
    ensures found { IfOk result (λ p. Accepted text.now (program_of p)) }
    ensures every { (p : program.Program) → Accepted text.now p
        → MatchResult result (λ q. program_of q ≡ p) (λ refusal. refusal ≡ Refusal.NoMemory) }
    ensures first { (fault : Fault) → IsErrOf result (refusals.Fault fault) → FirstFault text.now fault }
    ensures only { (fault : Fault) → FirstFault text.now fault → MatchResult result (λ _. ⊥) (IsThat fault) }
{
    checked(alloc, text)
}

/// The program and the woven code of a text of UTF-8, or its first fault.
///
/// A lexical fault comes before any fault of the grammar, and that before any of names and kinds. The span is that of
/// the lexical fault, of the token, or of the part of the script. The code's digest is the SHA-256 of the text.
///
/// Takes memory for the tokens, the tree, the program and the code. Out of memory also where the code passes the ranges
/// of its numbers.
pub fn build(alloc: Global, text: &[u8]) -> Result<Built, Refusal<BuildFault>>
    // What is found is the program of the text.
    ensures found { IfOk result (λ b. Accepted text.now (program_of b.program)) }
    // A text with a program is accepted with it, unless memory runs out.
    ensures every { (p : program.Program) → Accepted text.now p
        → MatchResult result (λ b. program_of b.program ≡ p) (λ refusal. refusal ≡ Refusal.NoMemory) }
    // A fault is the first one.
    ensures first { (fault : Fault) → IsErrOf result (refusals.Fault fault) → FirstFault text.now fault }
    // A text with a first fault is refused with it, unless memory runs out.
    ensures only { (fault : Fault) → FirstFault text.now fault → MatchResult result (λ _. ⊥) (IsThat fault) }
    // The code is that of the text and its program, and runs as the program is meant.
    ensures code { IfOk result (λ b. IsCodeOf text.now (program_of b.program) b.code) }
    ensures meaning { IfOk result (λ b. Agrees (bodies_of b.code) (program_of b.program)) }
    // It makes host calls at no more places than the program has nodes.
    ensures asks { IfOk result (λ b. hosts_of (bodies_of b.code) ≤ nodes_of (program_of b.program)) }
    // It saves any machine of it at a tick as its frames, and restores frames to the machine that has them.
    ensures weaves { IfOk result (λ b. Weaves b.code) }
    // The program's names and kinds are in order.
    ensures shaped { IfOk result (λ b. IsShaped (program_of b.program)) }
    ensures kinded { IfOk result (λ b. IsKinded (program_of b.program)) }
{
    compiled(alloc, text)
}

// Does what `build` does, as far as its clauses name what is found and the fault.
fn compiled(alloc: Global, text: &[u8]) -> Result<Built, Refusal<BuildFault>>
    ensures found { IfOk result (λ b. Accepted text.now (program_of b.program)) }
    ensures first { (fault : Fault) → IsErrOf result (refusals.Fault fault) → FirstFault text.now fault }
    ensures code { IfOk result (λ b. IsCodeOf text.now (program_of b.program) b.code) }
    ensures meaning { IfOk result (λ b. Agrees (bodies_of b.code) (program_of b.program)) }
    ensures weaves { IfOk result (λ b. Weaves b.code) }
    ensures shaped { IfOk result (λ b. IsShaped (program_of b.program)) }
    ensures kinded { IfOk result (λ b. IsKinded (program_of b.program)) }
{
    let program = checked(alloc, text)?;
    let unit = generate(alloc, &program, digest_of(text))?;
    let code = weave(alloc, unit)?;
    Ok(Built { program, code })
}

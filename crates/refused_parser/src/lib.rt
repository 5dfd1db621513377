//! Public calls of the lexer, the parser and the checker, each with one clause of its contract: an edit of a body here
//! is a wrong body of that call, which the clause must refuse.
#![tactic(auto)]

ghost use Rattle.std.specs.Prelude.{IfErr, IfOk, Some};
ghost use Rattle.lsl_lex.specs.Lexed.{IsRefused};
ghost use Rattle.lsl_parse.specs.Faults.{Derives, IfFault, IsFirst};
ghost use Rattle.lsl_read.specs.Parses.{Parses};
ghost use Rattle.lsl_read.specs.ScriptReading.{script_r};
ghost use Rattle.lsl_signs.specs.Limits.{height_limit, most_constructs};
ghost use Rattle.lsl_tree.specs.Program.{program_of};
ghost use Rattle.lsl_tree.specs.Scripts.{tree_of};
ghost use Rattle.lsl_type.specs.Typed.{Typed};

use lsl_lex::{LexFault, Token, Tokens, lex};
use lsl_parse::{DEPTH, ParseFault, parse};
use lsl_read::script::script;
use lsl_read::stop::Found;
use lsl_text::Refusal;
use lsl_tree::{Program, Tree};
use lsl_type::{Refused, check};
use std::alloc::Global;

/// `lex`, `first`.
pub fn text_refused(alloc: Global, text: &[u8]) -> Result<Tokens, Refusal<LexFault>>
    ensures { IfErr result (IsRefused text.now) }
{
    lex(alloc, text)
}

/// `script`.
pub fn script_read(alloc: Global, tokens: &[Token]) -> Found<'_, Tree>
    ensures { Parses (λ x. (tree_of x.0, x.1.now)) result (script_r (Some height_limit) most_constructs tokens.now) }
{
    script(alloc, DEPTH, tokens)
}

/// `parse`, `found`.
pub fn tree_found(alloc: Global, tokens: &Tokens) -> Result<Tree, Refusal<ParseFault>>
    ensures { IfOk result (λ tree. Derives tokens.now.list (tree_of tree)) }
{
    parse(alloc, tokens)
}

/// `parse`, `first`.
pub fn tokens_refused(alloc: Global, all: &Tokens) -> Result<Tree, Refusal<ParseFault>>
    ensures { IfErr result (λ refusal. IfFault refusal (IsFirst all.now.list all.now.end)) }
{
    parse(alloc, all)
}

/// `check`, `found`.
pub fn program_found(alloc: Global, tree: &Tree) -> Result<Program, Refused>
    ensures { IfOk result (λ p. Typed (tree_of tree.now) (program_of p)) }
{
    check(alloc, tree)
}

//! The names of a text's globals.

ghost use Rattle.std.specs.Prelude.{◌≡◌, ◌++◌, map, IfOk, OnOk};
ghost use Rattle.std.specs.List.{flat_map};
ghost use Rattle.lsl_lex.specs.Lexed.{Lexes};
ghost use Rattle.lsl_lex.specs.declared.token_types.Tokens.{Tokens as TheTokens};
ghost use Rattle.lsl_parse.specs.Faults.{Derives};
ghost use Rattle.lsl_tree.specs.Scripts.{Tree as TheTree, header_of, tree_of};
ghost use Rattle.lsl_view.specs.Globals.{HasGlobals, IsScript, IsScriptOf, names_in_header};

use lsl_code::Sequence;
use lsl_lex::{Tokens, lex};
use lsl_parse::parse;
use lsl_text::{NoMemory, Refusal};
use lsl_tree::{Header, Tree};
use lsl_value::Text;
use std::alloc::{AllocError, Global};

/// The names of the globals of a script's text, in the order of their declaration. It takes memory for the text's
/// tokens and its tree, which it drops, and for the names.
pub fn global_names(alloc: Global, text: &[u8]) -> Result<Sequence<Text>, NoMemory>
    requires { IsScript text.now }
    ensures { IfOk result (HasGlobals text.now) }
{
    let tree = tree_of_text(alloc, text)?;
    let names = names_in(alloc, tree.headers.as_slice())?;
    Ok(Sequence::from_vec(names))
}

// The tree of a script's text.
fn tree_of_text(alloc: Global, text: &[u8]) -> Result<Tree, NoMemory>
    requires { IsScript text.now }
    ensures { IfOk result (λ tree. IsScriptOf text.now (tree_of tree)) }
{
    match lex(alloc, text) {
        Ok(tokens) => tree_of_tokens(alloc, &tokens),
        Err(Refusal::NoMemory) => Err(AllocError),
        Err(Refusal::Fault(_)) => unreachable!(),
    }
}

// The tree of a script's tokens.
fn tree_of_tokens(alloc: Global, tokens: &Tokens) -> Result<Tree, NoMemory>
    requires { (script : TheTree) × Derives tokens.now.list script }
    ensures { IfOk result (λ tree. Derives tokens.now.list (tree_of tree)) }
{
    match parse(alloc, tokens) {
        Ok(tree) => Ok(tree),
        Err(Refusal::NoMemory) => Err(AllocError),
        Err(Refusal::Fault(_)) => unreachable!(),
    }
}

fn names_in(alloc: Global, headers: &[Header]) -> Result<Vec<Text>, NoMemory>
    ensures { IfOk result (λ names. names.items ≡ flat_map names_in_header (map header_of headers.now)) }
{
    let mut names = Vec::new(alloc);
    for header in headers {
        push_name_in(&mut names, header)?;
    }
    Ok(names)
}

fn push_name_in(names: &mut Vec<Text>, header: &Header) -> Result<(), NoMemory>
    ensures { OnOk result (names.new.items ≡ names.old.items ++ names_in_header (header_of header.now)) }
{
    match header {
        Header::Global { global } => names.push(global.name.text.copy()?)?,
        Header::Function { function: _ } => {},
    }
    Ok(())
}

//! Laws of the grammar and of the parser's answer, over the definitions alone: the functions do nothing, and
//! their contracts are the laws.

ghost use Rattle.std.specs.Prelude.{◌≡◌, ℕ, List, Ok, Err};
ghost use Rattle.lsl_text.specs.declared.Span.{Span};
ghost use Rattle.lsl_lex.specs.declared.token_types.Token.{Token};
ghost use Rattle.lsl_tree.specs.Scripts.{Tree};
ghost use Rattle.lsl_parse.specs.declared.fault.ParseKind.{ParseKind};
ghost use Rattle.lsl_parse.specs.declared.fault.ParseFault.{ParseFault};
ghost use Rattle.lsl_parse.specs.Faults.{Derives, ParseFirst, IsFirst};
ghost use Rattle.lsl_parse.specs.FaultReading.{answer_of};

/// An answer is a tree of these tokens, and a refusal is their first fault.
pub fn correct()
    ensures tree { (tokens : List Token) (end : Span) (tree : Tree) → answer_of tokens end ≡ Ok tree
        → Derives tokens tree }
    ensures fault { (tokens : List Token) (end : Span) (fault : ParseFault) → answer_of tokens end ≡ Err fault
        → IsFirst tokens end fault }
{}

/// Tokens that have a tree are accepted, and tokens that have a first fault are refused.
pub fn complete()
    ensures tree { (tokens : List Token) (end : Span) (tree : Tree) → Derives tokens tree
        → answer_of tokens end ≡ Ok tree }
    ensures fault { (tokens : List Token) (end : Span) (place : ℕ) (kind : ParseKind)
        → ParseFirst tokens place kind → (fault : ParseFault) × (answer_of tokens end ≡ Err fault)
        × (fault.kind ≡ kind) }
{}

/// Two trees of the same tokens are one, and so are two first faults; tokens that have a tree have no fault.
pub fn unambiguous()
    ensures tree { (tokens : List Token) (one other : Tree) → Derives tokens one → Derives tokens other → one ≡ other }
    ensures fault { (tokens : List Token) (here there : ℕ) (kind other : ParseKind)
        → ParseFirst tokens here kind → ParseFirst tokens there other → (here ≡ there) × (kind ≡ other) }
    ensures apart { (tokens : List Token) (tree : Tree) (place : ℕ) (kind : ParseKind) → Derives tokens tree
        → ParseFirst tokens place kind → ⊥ }
{}

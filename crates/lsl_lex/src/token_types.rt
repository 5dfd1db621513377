//! Tokens.

ghost use Rattle.std.specs.Prelude.{◌≡◌};

use lsl_text::Span;
use lsl_value::Text;
use std::marker::Model;

/// What a token is: a name, a literal, a word or a sign.
#[derive(Debug, Drop)]
pub enum Sort {
    Name(Text),
    Int(i32),
    Str(Text),

    // words
    IntegerWord,
    StringWord,
    KeyWord,
    ListWord,
    FloatWord,
    VectorWord,
    RotationWord,
    QuaternionWord,
    DefaultWord,
    StateWord,
    IfWord,
    ElseWord,
    ForWord,
    DoWord,
    WhileWord,
    JumpWord,
    ReturnWord,

    // signs of two characters: ++ -- += -= *= /= %= == != <= >= << >> && ||
    PlusPlus,
    MinusMinus,
    PlusAssign,
    MinusAssign,
    StarAssign,
    SlashAssign,
    PercentAssign,
    EqualEqual,
    BangEqual,
    LessEqual,
    MoreEqual,
    LessLess,
    MoreMore,
    AndAnd,
    OrOr,

    // signs of one: + - * / % = < > ! ~ & | ^ ( ) [ ] { } , ; @
    Plus,
    Minus,
    Star,
    Slash,
    Percent,
    Assign,
    Less,
    More,
    Bang,
    Tilde,
    And,
    Or,
    Caret,
    ParenOpen,
    ParenClose,
    BracketOpen,
    BracketClose,
    BraceOpen,
    BraceClose,
    Comma,
    Semicolon,
    At,
}

/// A token and its place.
#[derive(Drop)]
pub struct Token {
    pub sort: Sort,
    pub span: Span,
}

/// A list of tokens.
#[derive(Drop)]
pub struct TokenList {
    list: Vec<Token>,
}

impl Model for TokenList {
    ghost use Rattle.std.specs.Prelude.{List};
    ghost use Rattle.lsl_lex.specs.declared.token_types.Token.{Token};

    ghost Value = { List Token };

    ghost view = { λ t. t.list.items };
}

impl TokenList {
    /// These tokens. Takes no memory.
    pub fn from_vec(list: Vec<Token>) -> TokenList
        ensures { result ≡ list.items }
    {
        TokenList { list }
    }

    /// The tokens. Takes no memory.
    pub fn as_slice(&self) -> &[Token]
        ensures { result.now ≡ self.now }
    {
        self.list.as_slice()
    }
}

/// The tokens of a text. `end` is the empty span after the text's last byte.
#[derive(Drop)]
pub struct Tokens {
    pub list: TokenList,
    pub end: Span,
}

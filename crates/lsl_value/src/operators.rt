//! The operators' names, which kinds they take, and which casts there are.

ghost use Rattle.std.specs.Prelude.{◌≡◌};
ghost use Rattle.lsl_value.specs.OperatorRows.{sum_kind_of, comparison_kind_of, integer_kind_of, result_kind_of, casts_of, casts_implicitly_of};

use crate::tagged::Kind;

/// `-`, `!` and `~` before an operand.
#[derive(Clone, Copy, Debug, PartialEq, Eq, Hash)]
pub enum UnaryOp {
    Negate,
    LogicNot,
    BitNot,
}

/// `+ - * / % << >> & | ^ < <= > >= && || == !=` between two operands, in this order.
#[derive(Clone, Copy, Debug, PartialEq, Eq, Hash)]
pub enum BinaryOp {
    Add,
    Sub,
    Mul,
    Div,
    Rem,
    Shl,
    Shr,
    BitAnd,
    BitOr,
    BitXor,
    Less,
    AtMost,
    More,
    AtLeast,
    Both,
    Either,
    Equal,
    Unequal,
}

impl BinaryOp {
    /// The kind of the operator's value, or none where it doesn't take operands of these kinds
    /// (<https://wiki.secondlife.com/wiki/LSL_Operators>). Takes no memory.
    pub fn result_kind(self, left: Kind, right: Kind) -> Option<Kind>
        ensures { result ≡ result_kind_of self left right }
    {
        match self {
            BinaryOp::Add => sum_kind(left, right),
            BinaryOp::Equal | BinaryOp::Unequal => comparison_kind(left, right),
            _ => integer_kind(left, right),
        }
    }
}

impl Kind {
    /// Whether a cast from this kind to the other may be written (<https://wiki.secondlife.com/wiki/Typecast>).
    /// Takes no memory.
    pub fn casts_to(self, kind: Kind) -> bool
        ensures { result ≡ casts_of self kind }
    {
        match self {
            Kind::Int => matches!(kind, Kind::Int | Kind::Str | Kind::List),
            Kind::Str => true,
            Kind::Key => matches!(kind, Kind::Str | Kind::Key | Kind::List),
            Kind::List => matches!(kind, Kind::Str | Kind::List),
        }
    }

    /// Whether this kind becomes the other where nobody wrote a cast: a string a key, and a key a string.
    /// Takes no memory.
    pub fn casts_implicitly_to(self, kind: Kind) -> bool
        ensures { result ≡ casts_implicitly_of self kind }
    {
        matches!(
            (self, kind),
            (Kind::Str, Kind::Key) | (Kind::Key, Kind::Str)
        )
    }
}

fn sum_kind(left: Kind, right: Kind) -> Option<Kind>
    ensures { result ≡ sum_kind_of left right }
{
    match (left, right) {
        (Kind::Int, Kind::Int) => Some(Kind::Int),
        (Kind::Str, Kind::Str) => Some(Kind::Str),
        (Kind::List, _) | (_, Kind::List) => Some(Kind::List),
        _ => None,
    }
}

fn comparison_kind(left: Kind, right: Kind) -> Option<Kind>
    ensures { result ≡ comparison_kind_of left right }
{
    match (left, right) {
        (Kind::Int, Kind::Int) | (Kind::List, Kind::List) => Some(Kind::Int),
        (Kind::Str | Kind::Key, Kind::Str | Kind::Key) => Some(Kind::Int),
        _ => None,
    }
}

fn integer_kind(left: Kind, right: Kind) -> Option<Kind>
    ensures { result ≡ integer_kind_of left right }
{
    match (left, right) {
        (Kind::Int, Kind::Int) => Some(Kind::Int),
        _ => None,
    }
}

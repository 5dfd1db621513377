//! The signs of the grammar, and the operators and kinds that they mean.

ghost use Rattle.std.specs.Prelude.{◌≡◌};
ghost use Rattle.lsl_signs.specs.Kinds.{type_of};
ghost use Rattle.lsl_signs.specs.Operators.{prefix_of, step_of, assign_of, operator_of, level_of, levels};

use lsl_lex::Sort;
use lsl_tree::{AssignOp, StepOp};
use lsl_value::{BinaryOp, Kind, UnaryOp};

/// How many levels of operators there are.
pub const LEVELS: u32 = 9;

/// The level of an operator's sign, from the tightest.
pub fn level_of(sort: &Sort) -> Option<u32>
    ensures { result ≡ level_of levels sort.now }
{
    match sort {
        Sort::Star | Sort::Slash | Sort::Percent => Some(0),
        Sort::Plus | Sort::Minus => Some(1),
        Sort::LessLess | Sort::MoreMore => Some(2),
        Sort::Less | Sort::LessEqual | Sort::More | Sort::MoreEqual => Some(3),
        Sort::EqualEqual | Sort::BangEqual => Some(4),
        Sort::And => Some(5),
        Sort::Caret => Some(6),
        Sort::Or => Some(7),
        Sort::AndAnd | Sort::OrOr => Some(8),
        _ => None,
    }
}

/// The operator before an operand.
pub fn prefix_op(sort: &Sort) -> UnaryOp
    ensures { result ≡ prefix_of sort.now }
{
    match sort {
        Sort::Bang => UnaryOp::LogicNot,
        Sort::Tilde => UnaryOp::BitNot,
        _ => UnaryOp::Negate,
    }
}

/// `++` or `--`.
pub fn step_op(sort: &Sort) -> StepOp
    ensures { result ≡ step_of sort.now }
{
    match sort {
        Sort::MinusMinus => StepOp::Decrement,
        _ => StepOp::Increment,
    }
}

/// The operator of an assignment.
pub fn assign_op(sort: &Sort) -> AssignOp
    ensures { result ≡ assign_of sort.now }
{
    match sort {
        Sort::PlusAssign => AssignOp::Add,
        Sort::MinusAssign => AssignOp::Sub,
        Sort::StarAssign => AssignOp::Mul,
        Sort::SlashAssign => AssignOp::Div,
        Sort::PercentAssign => AssignOp::Rem,
        _ => AssignOp::Set,
    }
}

/// The operator between two operands.
pub fn binary_op(sort: &Sort) -> BinaryOp
    ensures { result ≡ operator_of sort.now }
{
    match sort {
        Sort::Star => BinaryOp::Mul,
        Sort::Slash => BinaryOp::Div,
        Sort::Percent => BinaryOp::Rem,
        Sort::Minus => BinaryOp::Sub,
        Sort::LessLess => BinaryOp::Shl,
        Sort::MoreMore => BinaryOp::Shr,
        Sort::Less => BinaryOp::Less,
        Sort::LessEqual => BinaryOp::AtMost,
        Sort::More => BinaryOp::More,
        Sort::MoreEqual => BinaryOp::AtLeast,
        Sort::EqualEqual => BinaryOp::Equal,
        Sort::BangEqual => BinaryOp::Unequal,
        Sort::And => BinaryOp::BitAnd,
        Sort::Caret => BinaryOp::BitXor,
        Sort::Or => BinaryOp::BitOr,
        Sort::AndAnd => BinaryOp::Both,
        Sort::OrOr => BinaryOp::Either,
        _ => BinaryOp::Add,
    }
}

/// The kind that a TYPE names.
pub fn type_kind(sort: &Sort) -> Kind
    ensures { result ≡ type_of sort.now }
{
    match sort {
        Sort::StringWord => Kind::Str,
        Sort::KeyWord => Kind::Key,
        Sort::ListWord => Kind::List,
        _ => Kind::Int,
    }
}

//! Faults of names and kinds.

ghost use Rattle.std.specs.Prelude.{◌≡◌};
ghost use Rattle.lsl_text.specs.declared.Refusal.TheVariants.{Fault};
ghost use Rattle.lsl_bodies.specs.FaultNumbers.{number_of};
ghost use Rattle.lsl_bodies.specs.Judgement.{at};

use lsl_text::{Refusal, Span};
use lsl_value::Kind;

/// What is wrong with a name or a kind.
#[derive(Clone, Copy, PartialEq, Eq)]
pub enum TypeKind {
    /// There is no variable, function or state of this name.
    UnknownName,
    /// The name is taken.
    DoubleName,
    /// A value's kind can't become the one that is wanted. `wanted` is none for an element of a list and for a `return`
    /// with a value where none is allowed; `found` is none for a `return` without a value.
    WrongKind {
        wanted: Option<Kind>,
        found: Option<Kind>,
    },
    /// The operator doesn't take values of these kinds.
    NoOperator,
    /// There is no cast from the one kind to the other.
    NoCast,
    /// A call has another number of arguments.
    WrongCount,
    /// A constant can't be assigned, and no variable but an integer can be stepped.
    NotVariable,
    /// A name in a global's initial value isn't a constant or an earlier global.
    NotConstant,
    /// `state` is in a function.
    StateInFunction,
    /// No enclosing block has this label.
    UnknownLabel,
    /// There is no event of this name, or its parameters are of other kinds.
    WrongHandler,
    /// A call without a result is in a place that needs a value.
    VoidUsed,
}

impl TypeKind {
    /// The number by which the fault is known. Takes no memory.
    pub fn number(self) -> u8
        ensures { result ≡ number_of self }
    {
        match self {
            TypeKind::UnknownName => 20,
            TypeKind::DoubleName => 21,
            TypeKind::WrongKind { .. } => 22,
            TypeKind::NoOperator => 23,
            TypeKind::NoCast => 24,
            TypeKind::WrongCount => 25,
            TypeKind::NotVariable => 26,
            TypeKind::NotConstant => 27,
            TypeKind::StateInFunction => 28,
            TypeKind::UnknownLabel => 29,
            TypeKind::WrongHandler => 30,
            TypeKind::VoidUsed => 31,
        }
    }
}

/// A fault and its place.
#[derive(Clone, Copy, PartialEq, Eq)]
pub struct TypeFault {
    pub kind: TypeKind,
    pub span: Span,
}

/// Why there is no program.
pub type Refused = Refusal<TypeFault>;

pub fn fault(kind: TypeKind, span: Span) -> Refused
    ensures { result ≡ Fault (at kind span) }
{
    Refusal::Fault(TypeFault { kind, span })
}

//! Why a script isn't accepted.

ghost use Rattle.std.specs.Prelude.{◌≡◌};
ghost use Rattle.lsl_build.specs.Faults.{lexical_fault_of, lexical_number_of, refused_with, semantic_fault_of, syntax_fault_of};

use lsl_lex::{LexFault, LexKind};
use lsl_parse::ParseFault;
use lsl_text::{Refusal, Span};
use lsl_type::TypeFault;

/// Why a script isn't accepted: the fault's number, and its place. Lexical faults have the numbers 1 to 6, those of the
/// grammar 10 to 14, and those of names and kinds 20 to 31.
#[derive(Clone, Copy, PartialEq, Eq)]
pub struct BuildFault {
    pub number: u8,
    pub span: Span,
}

pub(crate) fn lexical(refusal: Refusal<LexFault>) -> Refusal<BuildFault>
    ensures { result ≡ refused_with lexical_fault_of refusal }
{
    match refusal {
        Refusal::Fault(fault) => Refusal::Fault(BuildFault {
            number: lexical_number(fault.kind),
            span: fault.span,
        }),
        Refusal::NoMemory => Refusal::NoMemory,
    }
}

pub(crate) fn syntactic(refusal: Refusal<ParseFault>) -> Refusal<BuildFault>
    ensures { result ≡ refused_with syntax_fault_of refusal }
{
    match refusal {
        Refusal::Fault(fault) => Refusal::Fault(BuildFault {
            number: fault.kind.number(),
            span: fault.span,
        }),
        Refusal::NoMemory => Refusal::NoMemory,
    }
}

pub(crate) fn semantic(refusal: Refusal<TypeFault>) -> Refusal<BuildFault>
    ensures { result ≡ refused_with semantic_fault_of refusal }
{
    match refusal {
        Refusal::Fault(fault) => Refusal::Fault(BuildFault {
            number: fault.kind.number(),
            span: fault.span,
        }),
        Refusal::NoMemory => Refusal::NoMemory,
    }
}

fn lexical_number(kind: LexKind) -> u8
    ensures { result ≡ lexical_number_of kind }
{
    match kind {
        LexKind::NotText => 1,
        LexKind::StringEnd => 2,
        LexKind::CommentEnd => 3,
        LexKind::FloatLiteral => 4,
        LexKind::StrayCharacter => 5,
        LexKind::TextTooLong => 6,
    }
}

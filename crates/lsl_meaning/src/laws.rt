//! Laws of the meaning. Each law is a function whose clause is the law; it does nothing.

ghost use Rattle.lsl_meaning.specs.Laws.{MoreTicksChangeNothing, MoreAnswersChangeNothing};
ghost use Rattle.lsl_meaning.specs.KindLaws.{PureArgumentsAreTheRows, PureResultIsTheRows, OperatorsKeepKinds, CastsGiveTheirKind, GlobalsKeepKinds};

/// Where a handler isn't cut, more ticks change nothing.
pub fn more_ticks()
    ensures { MoreTicksChangeNothing }
{}

/// Where a handler doesn't ask, more answers change nothing.
pub fn more_answers()
    ensures { MoreAnswersChangeNothing }
{}

/// A pure call takes arguments of its row's kinds, and gives a value of its row's kind.
pub fn pure_calls_keep_kinds()
    ensures arguments { PureArgumentsAreTheRows }
    ensures result_kind { PureResultIsTheRows }
{}

/// An operator gives a value of the kind that the table names for its operands, and a cast one of its kind.
pub fn operations_keep_kinds()
    ensures operators { OperatorsKeepKinds }
    ensures casts { CastsGiveTheirKind }
{}

/// The globals of a checked script begin with values of their kinds.
pub fn globals_keep_kinds()
    ensures { GlobalsKeepKinds }
{}

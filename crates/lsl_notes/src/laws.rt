//! Laws of notecards. Each law is a function whose clause is the law; it does nothing.

ghost use Rattle.lsl_notes.specs.CutLaws.{LinesAreLongest};
ghost use Rattle.lsl_notes.specs.Laws.{AreCutAtFeeds, CardsAreReadThrough, QueriesDiffer, TextsHaveNoBadLine};

/// Asking for lines 0, 1 and on gives each line of a notecard, cut, then the end: at the count, and at
/// every later number.
pub fn cards_are_read_through()
    ensures { CardsAreReadThrough }
{}

/// A line is what precedes a line feed, without a carriage return directly before that, and what follows the last line
/// feed, if that isn't empty.
pub fn lines_are_cut_at_feeds()
    ensures { AreCutAtFeeds }
{}

/// In UTF-8 no line is the first that isn't.
pub fn texts_have_no_bad_line()
    ensures { TextsHaveNoBadLine }
{}

/// What a script receives of a line is its longest prefix of at most 1,024 bytes.
pub fn lines_are_cut()
    ensures { LinesAreLongest }
{}

/// The keys of queries of different script, notecard, line or kind differ.
pub fn queries_differ()
    ensures { QueriesDiffer }
{}

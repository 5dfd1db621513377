//! Laws of lines and words.

ghost use Rattle.std.specs.Prelude.{[], ◌∷◌};
ghost use Rattle.lsl_lines.specs.Laws.{CutAgain, ReadBack};
ghost use Rattle.lsl_lines.specs.Writable.{EachIsRead};

/// Lines that are written with a line feed at their ends, or a carriage return and a line feed, are cut again as
/// they were.
pub fn lines_are_cut_again()
    ensures feed { CutAgain (10 ∷ []) }
    ensures both { CutAgain (13 ∷ 10 ∷ []) }
{}

/// A text that `push_quoted` of `lsl_text` writes is read back as that text.
pub fn quoted_texts_are_read_back()
    ensures { ReadBack }
{}

/// Each world that a text can describe is the world of `text_of_world`.
pub fn written_worlds_are_read()
    ensures { EachIsRead }
{}

//! What a script writer may rely on, above the calls' definitions. Each law is a function whose clause is the law; it
//! does nothing.

ghost use Rattle.std.specs.Prelude.{◌≡◌, ◌+◌, ◌-◌, ◌<◌, ◌≤◌, ◌≤ℤ◌, ◌++◌, [], ◌∷◌, true, map, pos, length, ℕ, List, Some, MatchOption};
ghost use Rattle.lsl_value.specs.declared.list.Atom.TheVariants.{Str};
ghost use Rattle.lsl_value.specs.Values.{kind_of};
ghost use Rattle.lsl_value.specs.declared.tagged.Value.{Value};
ghost use Rattle.lsl_table.specs.Calls.{row_of};
ghost use Rattle.lsl_pure.specs.Arguments.{IsArguments};
ghost use Rattle.lsl_pure.specs.Csv.{csv_elements, csv_pieces};
ghost use Rattle.lsl_pure.specs.CsvLaws.{IsCsvCut};
ghost use Rattle.lsl_pure.specs.Cuts.{taken, left, inserted_at};
ghost use Rattle.lsl_pure.specs.Joins.{csv_text, dumped};
ghost use Rattle.lsl_pure.specs.Laws.{part_before, part_behind, string_element, IsPlainList, StandsInNone, IsCutAt, HasValueOfRow};
ghost use Rattle.lsl_pure.specs.Parsing.{Cut, cut_of, marks_of, parsed};
ghost use Rattle.lsl_pure.specs.Places.{place_of};
ghost use Rattle.lsl_pure.specs.Pure.{pure_of, value_of};

use lsl_value::{BuiltinId, Items, Text};

/// What stands before a range, in it and behind it, in this order, is the whole text; and what is deleted leaves the
/// first and the last of these.
pub fn parts_of_a_text(text: &Text, first: i32, last: i32)
    requires { place_of (length text.now) first ≤ℤ place_of (length text.now) last }
    ensures whole { part_before text.now first ++ taken text.now first last ++ part_behind text.now last ≡ text.now }
    ensures deleted { left text.now first last ≡ part_before text.now first ++ part_behind text.now last }
{}

/// What stands before a range of a list, in it and behind it, in this order, is the whole list; and what is deleted
/// leaves the first and the last of these.
pub fn parts_of_a_list(items: &Items, first: i32, last: i32)
    requires { place_of (length items.now) first ≤ℤ place_of (length items.now) last }
    ensures whole { part_before items.now first ++ taken items.now first last ++ part_behind items.now last
        ≡ items.now }
    ensures deleted { left items.now first last ≡ part_before items.now first ++ part_behind items.now last }
{}

/// What was inserted at a place of a text is found there.
pub fn inserted_is_taken(text: &Text, place: u32, other: &Text)
    requires inside { place ≤ length text.now }
    requires some { 0 < length other.now }
    ensures { taken (inserted_at text.now (pos place) other.now) (pos place)
        (pos (place + length other.now - 1)) ≡ other.now }
{}

/// A part from one place of a text to another has as many characters as there are places.
pub fn length_of_a_part(text: &Text, first: u32, last: u32)
    requires ordered { first ≤ last }
    requires inside { last < length text.now }
    ensures { length (taken text.now (pos first) (pos last)) ≡ last + 1 - first }
{}

/// The elements' texts are read back from a list's CSV: where none has a comma, an angle bracket or a leading space,
/// and the list isn't the one with a single empty text.
pub fn csv_is_read_back(items: &Items)
    requires { IsPlainList items.now }
    ensures { csv_elements (csv_text items.now) ≡ map string_element items.now }
{}

/// The elements' texts are parsed back from a dumped list that has an element, where the separator is one character
/// that stands in none of them, and empty pieces are kept.
pub fn dump_is_parsed_back(items: &Items, separator: char)
    requires some { 0 < length items.now }
    requires apart { StandsInNone separator items.now }
    ensures { parsed true (dumped items.now (separator ∷ [])) (Str (separator ∷ []) ∷ []) []
        ≡ map string_element items.now }
{}

/// A text has one cut into pieces and marks in which each mark is the first listed text that stands at its place, and
/// no listed text stands at a place of a piece: it is the one that parsing takes.
pub fn text_has_one_cut(text: &Text, separators: &Items, spacers: &Items)
    ensures is_cut { IsCutAt (marks_of separators.now spacers.now) text.now
        (cut_of (marks_of separators.now spacers.now) text.now) }
    ensures one { (cut : Cut) → IsCutAt (marks_of separators.now spacers.now) text.now cut
        → cut ≡ cut_of (marks_of separators.now spacers.now) text.now }
{}

/// A call has a value exactly where it is a pure one and has arguments of its row's kinds; and the value has the row's
/// kind.
pub fn value_of_its_row(id: BuiltinId)
    ensures value { (args : List Value) → MatchOption (value_of id args) (IsArguments id args → ⊥)
        (HasValueOfRow id args) }
    ensures kind { (args : List Value) → IsArguments id args → (row_of id).result ≡ Some (kind_of (pure_of id args)) }
{}

/// A text has one cut into pieces between commas in which each comma of a piece stands where some earlier `<` isn't
/// closed yet, and no comma between two pieces does: it is the one that CSV takes.
pub fn text_has_one_csv_cut(text: &Text)
    ensures is_cut { IsCsvCut text.now (csv_pieces text.now) }
    ensures one { (pieces : List (List ℕ)) → IsCsvCut text.now pieces → pieces ≡ csv_pieces text.now }
{}

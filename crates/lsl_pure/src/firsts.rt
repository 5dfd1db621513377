//! The first mark at each place of a text.

ghost use Rattle.std.specs.Prelude.{◌≡◌, ◌≤◌, ◌<◌, length, map, nat_eq, slice_index_or, IfOk, OnOk};
ghost use Rattle.std.specs.List.{All, starts_with};
ghost use Rattle.std.specs.Option.{option_copied, option_map};
ghost use Rattle.lsl_pure.specs.Firsts.{AreFirst, AreOwn, IsNoted, mark_of, noted as noted_of};
ghost use Rattle.lsl_pure.specs.Parsing.{first_mark as first_mark_of};
ghost use Rattle.lsl_pure.specs.Spelling.{spelled_mark};

use crate::marks::Mark;
use crate::reaching::{Reach, own_reaches};
use lsl_text::NoMemory;
use std::alloc::Global;

/// The most bytes of a mark that is compared anew at each place.
const SHORT: usize = 8;

/// The number of the first mark at each place of the text. Reads the text once for each mark, so long marks that
/// share a prefix cost no more than others.
pub fn first_marks(alloc: Global, marks: &[Mark], text: &[u8]) -> Result<Vec<Option<u8>>, NoMemory>
    requires few { length marks.now ≤ 16 }
    requires nonempty { All (λ m. 0 < length m.text) marks.now }
    ensures { IfOk result (λ firsts. AreFirst (map spelled_mark marks.now) text.now firsts.items) }
{
    let mut firsts = vec![in alloc; None; text.len()]?;
    'marks: for (number, mark) in marks.iter().enumerate() {
        let bytes = mark.text.bytes();
        // Where an earlier mark is a prefix of this one, this one is never the first.
        if first_mark(&marks[..number], bytes).is_some() {
            continue;
        }
        note(alloc, &mut firsts, text, bytes, number as u8)?;
    }
    Ok(firsts)
}

/// The mark whose number is noted at a place.
pub fn mark_at<'a>(marks: &'a [Mark], firsts: &[Option<u8>], at: usize) -> Option<&'a Mark>
    requires { at < length firsts.now }
    ensures { option_map spelled_mark (option_copied result)
        ≡ mark_of (map spelled_mark marks.now) (slice_index_or firsts.now at None) }
{
    match firsts[at] {
        Some(number) => marks.get(number as usize),
        None => None,
    }
}

// The first mark that is a prefix of the text.
fn first_mark<'a>(marks: &'a [Mark], text: &[u8]) -> Option<&'a Mark>
    ensures { option_map spelled_mark (option_copied result) ≡ first_mark_of (map spelled_mark marks.now) text.now }
{
    'marks: for mark in marks {
        if stands(text, mark.text.bytes()) {
            return Some(mark);
        }
    }
    None
}

// Notes the mark's number at each place where the mark is and no other is noted.
fn note(
    alloc: Global,
    firsts: &mut [Option<u8>],
    text: &[u8],
    mark: &[u8],
    number: u8,
) -> Result<(), NoMemory>
    requires size { length firsts.old ≡ length text.now }
    requires nonempty { 0 < length mark.now }
    ensures { OnOk result (IsNoted mark.now number text.now firsts.old firsts.new) }
{
    if mark.len() <= SHORT {
        note_short(firsts, text, mark, number);
        return Ok(());
    }
    let own = own_reaches(alloc, mark)?;
    note_long(firsts, text, mark, own.as_slice(), number);
    Ok(())
}

fn note_short(firsts: &mut [Option<u8>], text: &[u8], mark: &[u8], number: u8)
    requires { length firsts.old ≡ length text.now }
    ensures { IsNoted mark.now number text.now firsts.old firsts.new }
{
    'places: for at in 0..text.len() {
        let stands = stands(&text[at..], mark);
        firsts[at] = noted(firsts[at], stands, number);
    }
}

fn note_long(firsts: &mut [Option<u8>], text: &[u8], mark: &[u8], own: &[usize], number: u8)
    requires size { length firsts.old ≡ length text.now }
    requires own { AreOwn mark.now own.now }
    requires each { length own.now ≡ length mark.now }
    ensures { IsNoted mark.now number text.now firsts.old firsts.new }
{
    let mut reach = Reach::new(text, mark, 0);
    'places: for at in 0..text.len() {
        let len = reach.go(text, mark, own, at);
        firsts[at] = noted(firsts[at], len == mark.len(), number);
    }
}

// What is noted at a place once a mark was looked for there.
fn noted(first: Option<u8>, stands: bool, number: u8) -> Option<u8>
    ensures { result ≡ noted_of first stands number }
{
    match first {
        None if stands => Some(number),
        _ => first,
    }
}

// Whether the mark is a prefix of the text. The first byte rules out most places without a call.
fn stands(text: &[u8], mark: &[u8]) -> bool
    ensures { result ≡ starts_with nat_eq text.now mark.now }
{
    match mark {
        [] => true,
        [first, others @ ..] => match text {
            [] => false,
            [b, rest @ ..] => *first == *b && rest.starts_with(others),
        },
    }
}

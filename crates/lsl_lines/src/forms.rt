//! The forms of a line.

ghost use Rattle.lsl_lines.specs.Forms.{utf8_of, form_of, form_of_words, row_of, object_of, prim_of, script_of, note_of, alone_of};
ghost use Rattle.lsl_lines.specs.Reads.{Gives, GivesBy};

use crate::fields::{BAD_LINE, Field, key, name};
use crate::file::Step;
use crate::steps::parse_step;
use crate::words::{Word, read_words};
use lsl_value::Text;
use std::alloc::Global;

/// What a line says, with its words in their order.
#[derive(Drop)]
pub enum Line {
    /// The key, the name, the owner and the region.
    Object(Text, Text, Text, Text),
    /// The key and the name.
    Prim(Text, Text),
    /// The name and the file.
    Script(Text, Text),
    /// The name and the file.
    Note(Text, Text),
    Begin,
    Step(Step),
    End,
}

/// What the line says. Its words replace those of the last line.
///
/// Takes memory for texts, and for more words than ever before.
#[tactic(auto, unfolding(crate::specs::Forms::form_of))]
pub fn parse_line<'a>(alloc: Global, line: &'a [u8], words: &mut Vec<Word<'a>>) -> Field<Line>
    ensures { Gives result (form_of line.now) }
{
    utf8(line)?;
    read_words(alloc, line, words)?;
    parse_words(alloc, words.as_slice())
}

fn parse_words(alloc: Global, words: &[Word]) -> Field<Line>
    ensures { Gives result (form_of_words words.now) }
{
    match words {
        [first, rest @ ..] => parse_row(alloc, utf8(first.plain()?)?, rest),
        [] => Err(BAD_LINE),
    }
}

fn utf8(bytes: &[u8]) -> Field<&str>
    ensures { GivesBy (λ s. s.now) result (utf8_of bytes.now) }
{
    match std::str::from_utf8(bytes) {
        Ok(word) => Ok(word),
        Err(_) => Err(BAD_LINE),
    }
}

#[tactic(auto, unfolding(crate::specs::Forms::row_of))]
fn parse_row(alloc: Global, first: &str, rest: &[Word]) -> Field<Line>
    ensures { Gives result (row_of first.now rest.now) }
{
    match first {
        "object" => parse_object(alloc, rest),
        "prim" => parse_prim(alloc, rest),
        "script" => parse_script(rest),
        "note" => parse_note(rest),
        "begin" => parse_alone(rest, Line::Begin),
        "end" => parse_alone(rest, Line::End),
        _ => Ok(Line::Step(parse_step(alloc, first, rest)?)),
    }
}

fn parse_object(alloc: Global, words: &[Word]) -> Field<Line>
    ensures { Gives result (object_of words.now) }
{
    match words {
        [id, label, owner, region] => Ok(Line::Object(
            key(alloc, id)?,
            name(label)?,
            key(alloc, owner)?,
            name(region)?,
        )),
        _ => Err(BAD_LINE),
    }
}

fn parse_prim(alloc: Global, words: &[Word]) -> Field<Line>
    ensures { Gives result (prim_of words.now) }
{
    match words {
        [id, label] => Ok(Line::Prim(key(alloc, id)?, name(label)?)),
        _ => Err(BAD_LINE),
    }
}

fn parse_script(words: &[Word]) -> Field<Line>
    ensures { Gives result (script_of words.now) }
{
    match words {
        [label, file] => Ok(Line::Script(name(label)?, name(file)?)),
        _ => Err(BAD_LINE),
    }
}

fn parse_note(words: &[Word]) -> Field<Line>
    ensures { Gives result (note_of words.now) }
{
    match words {
        [label, file] => Ok(Line::Note(name(label)?, name(file)?)),
        _ => Err(BAD_LINE),
    }
}

fn parse_alone(words: &[Word], form: Line) -> Field<Line>
    ensures { Gives result (alone_of words.now form) }
{
    match words {
        [] => Ok(form),
        _ => Err(BAD_LINE),
    }
}

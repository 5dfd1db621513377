//! Lines and words.

ghost use Rattle.std.specs.Prelude.{◌≡◌, ◌≤◌, ◌<◌, [], length, take, drop, IfOk};
ghost use Rattle.std.specs.List.{prefix_len};
ghost use Rattle.lsl_lines.specs.Fields.{plain_of, quoted_of};
ghost use Rattle.lsl_lines.specs.Reads.{Gives, GivesBy, GivesWord, Makes, ahead, behind_of, closed_words, is_in_word, is_verbatim};
ghost use Rattle.lsl_lines.specs.Words.{Plain, Quoted, is_blank, is_skipped, escape_of, text_of, words_of, plain_words, quoted_words};

use crate::fields::{BAD_LINE, Field};
use lsl_value::Text;
use std::alloc::Global;
use std::marker::Model;

/// A word of a line: what is between blanks, or the text between quotes. The bytes are the line's own.
#[derive(Drop)]
pub struct Word<'a> {
    form: Form<'a>,
}

#[derive(Drop)]
enum Form<'a> {
    Plain(&'a [u8]),
    Quoted(Text),
}

impl<'a> Model for Word<'a> {
    ghost use Rattle.lsl_lines.specs.Words.{Word as TheWord};

    ghost Value = { TheWord };

    ghost use Rattle.lsl_lines.specs.WordForm.{word_of};

    ghost view = { λ w. word_of w.form };
}

impl<'a> Word<'a> {
    fn from_plain(bytes: &'a [u8]) -> Word<'a>
        ensures { result ≡ Plain bytes.now }
    {
        Word {
            form: Form::Plain(bytes),
        }
    }

    fn from_quoted(text: Text) -> Word<'a>
        ensures { result ≡ Quoted text }
    {
        Word {
            form: Form::Quoted(text),
        }
    }

    /// The bytes of a word without quotes.
    pub fn plain(&self) -> Field<&[u8]>
        ensures { GivesBy (λ b. b.now) result (plain_of self.now) }
    {
        match &self.form {
            Form::Plain(bytes) => Ok(*bytes),
            Form::Quoted(_) => Err(BAD_LINE),
        }
    }

    /// The text of a quoted word.
    pub fn quoted(&self) -> Field<&Text>
        ensures { GivesBy (λ t. t.now) result (quoted_of self.now) }
    {
        match &self.form {
            Form::Plain(_) => Err(BAD_LINE),
            Form::Quoted(text) => Ok(text),
        }
    }
}

/// Whether the byte is a tab or a space.
fn is_blank(b: u8) -> bool
    ensures { result ≡ is_blank b }
{
    b == b'\t' || b == b' '
}

/// Whether the line is empty, or its first word begins with `#`.
pub fn is_skipped(line: &[u8]) -> bool
    ensures { result ≡ is_skipped line.now }
{
    let mut rest = line;
    'blanks: while let [b, more @ ..] = rest {
        if !is_blank(*b) {
            return *b == b'#';
        }
        rest = more;
    }
    true
}

/// Replaces the words of the last line by this line's. Takes memory where they are more than ever before, and for the
/// texts of quoted ones.
pub fn read_words<'a>(alloc: Global, line: &'a [u8], words: &mut Vec<Word<'a>>) -> Field<()>
    ensures { Makes result words.new.items (words_of line.now) }
{
    words.clear();
    let mut rest = line;
    'words: while let [b, more @ ..] = rest {
        if is_blank(*b) {
            rest = more;
            continue;
        }
        let (word, behind) = match *b {
            b'"' => quoted(alloc, more)?,
            _ => plain(rest),
        };
        words.push(word)?;
        rest = behind;
    }
    Ok(())
}

// The plain word that the line begins with, and what follows it.
fn plain(line: &[u8]) -> (Word, &[u8])
    requires { 0 < length line.now }
    ensures word { plain_words (take 1 line.now) (drop 1 line.now) ≡ ahead result.0 result.1.now }
    ensures shorter { length result.1.now < length line.now }
{
    let size = 1 + word_length(&line[1..]);
    (Word::from_plain(&line[..size]), &line[size..])
}

// The number of bytes before the first blank.
fn word_length(line: &[u8]) -> usize
    ensures count { result ≡ prefix_len is_in_word line.now }
    ensures within { result ≤ length line.now }
{
    let mut n = 0;
    let mut rest = line;
    'bytes: while let [b, more @ ..] = rest {
        if is_blank(*b) {
            break;
        }
        n += 1;
        rest = more;
    }
    n
}

// The quoted word after a quote, and what follows it.
fn quoted(alloc: Global, line: &[u8]) -> Field<(Word, &[u8])>
    ensures word { GivesWord (λ x. (x.0, x.1.now)) result (quoted_words [] line.now) }
    ensures shorter { IfOk result (λ x. length x.1.now ≤ length line.now) }
{
    let size = verbatim_length(line);
    if size < line.len() && line[size] == b'"' {
        return closed(alloc, &line[..size], &line[size + 1..]);
    }
    escaped(alloc, line)
}

// The number of bytes before the first quote or backslash.
fn verbatim_length(line: &[u8]) -> usize
    ensures count { result ≡ prefix_len is_verbatim line.now }
    ensures within { result ≤ length line.now }
{
    let mut n = 0;
    let mut rest = line;
    'bytes: while let [b, more @ ..] = rest {
        if *b == b'"' || *b == b'\\' {
            break;
        }
        n += 1;
        rest = more;
    }
    n
}

// Like `quoted`, but byte by byte.
fn escaped(alloc: Global, line: &[u8]) -> Field<(Word, &[u8])>
    ensures word { GivesWord (λ x. (x.0, x.1.now)) result (quoted_words [] line.now) }
    ensures shorter { IfOk result (λ x. length x.1.now ≤ length line.now) }
{
    let mut front = Vec::new(alloc);
    let mut rest = line;
    'bytes: while let [b, more @ ..] = rest {
        match (*b, more) {
            (b'"', _) => return closed(alloc, front.as_slice(), more),
            (b'\\', [c, after @ ..]) => {
                front.push(escape(*c)?)?;
                rest = after;
            }
            (b'\\', []) => break,
            _ => {
                front.push(*b)?;
                rest = more;
            }
        }
    }
    Err(BAD_LINE)
}

// The word of these bytes, with its closing quote before the rest of the line.
fn closed<'a>(alloc: Global, bytes: &[u8], line: &'a [u8]) -> Field<(Word<'a>, &'a [u8])>
    ensures word { GivesWord (λ x. (x.0, x.1.now)) result (closed_words bytes.now line.now) }
    ensures shorter { IfOk result (λ x. length x.1.now ≤ length line.now) }
{
    let text = text(alloc, bytes)?;
    let behind = behind_quote(line)?;
    Ok((Word::from_quoted(text), behind))
}

// What follows a quoted word: nothing, or a blank and more.
fn behind_quote(line: &[u8]) -> Field<&[u8]>
    ensures { GivesBy (λ r. r.now) result (behind_of line.now) }
{
    match line {
        [b, ..] if !is_blank(*b) => Err(BAD_LINE),
        _ => Ok(line),
    }
}

// What this byte means after a backslash.
fn escape(b: u8) -> Field<u8>
    ensures { Gives result (escape_of b) }
{
    match b {
        b'"' | b'\\' => Ok(b),
        b'n' => Ok(b'\n'),
        _ => Err(BAD_LINE),
    }
}

/// The text of these bytes. Takes memory for it.
pub fn text(alloc: Global, bytes: &[u8]) -> Field<Text>
    ensures { Gives result (text_of bytes.now) }
{
    match Text::from_utf8(alloc, bytes)? {
        Some(text) => Ok(text),
        None => Err(BAD_LINE),
    }
}

//! The lines of the journal.

ghost use Rattle.std.specs.Prelude.{◌≡◌, ◌++◌, ◌∷◌, [], codes, decimal, take, vec_len, OnOk, OnErr};
ghost use Rattle.lsl_text.specs.Number.{decimal_of};
ghost use Rattle.lsl_text.specs.Quoted.{quoted};
ghost use Rattle.lsl_lines.specs.Journal.{event_words, fault_text, joined, line_of, lines_of, text_word, voice_word, words_of};

use crate::journal_words::{
    push_argument_words, push_byte, push_integer_word, push_number_word, push_quoted_word,
    push_word,
};
use lsl_post::{Entry, Event, Voice};
use lsl_running::Fault;
use lsl_table::event_name;
use lsl_text::NoMemory;
use lsl_value::Text;

/// Appends the line of each entry.
///
/// Takes memory where the vector grows; after an `Err` the vector is unchanged.
pub fn push_lines(out: &mut Vec<u8>, entries: &[Entry]) -> Result<(), NoMemory>
    ensures ok { OnOk result (out.new.items ≡ out.old.items ++ lines_of entries.now) }
    ensures unchanged { OnErr result (out.new.items ≡ out.old.items) }
{
    let start = out.len();
    let pushed = push_each(out, entries);
    if pushed.is_err() {
        out.truncate(start);
    }
    pushed
}

/// Appends the entry's line: its words with one space between them, and a line feed.
///
/// Takes memory where the vector grows; after an `Err` the vector is unchanged.
pub fn push_line(out: &mut Vec<u8>, entry: &Entry) -> Result<(), NoMemory>
    ensures ok { OnOk result (out.new.items ≡ out.old.items ++ line_of entry.now) }
    ensures unchanged { OnErr result (out.new.items ≡ out.old.items) }
{
    let start = out.len();
    let pushed = push_whole(out, entry);
    if pushed.is_err() {
        out.truncate(start);
    }
    pushed
}

// After an `Err` here and below, a prefix of what was to be appended may follow the old bytes.
fn push_each(out: &mut Vec<u8>, entries: &[Entry]) -> Result<(), NoMemory>
    ensures ok { OnOk result (out.new.items ≡ out.old.items ++ lines_of entries.now) }
    ensures front { OnErr result (take (vec_len out.old) out.new.items ≡ out.old.items) }
{
    'entries: for entry in entries {
        push_line(out, entry)?;
    }
    Ok(())
}

#[inline(always)]
fn push_whole(out: &mut Vec<u8>, entry: &Entry) -> Result<(), NoMemory>
    ensures ok { OnOk result (out.new.items ≡ out.old.items ++ line_of entry.now) }
    ensures front { OnErr result (take (vec_len out.old) out.new.items ≡ out.old.items) }
{
    push_words(out, entry)?;
    push_byte(out, b'\n')
}

#[inline(always)]
fn push_words(out: &mut Vec<u8>, entry: &Entry) -> Result<(), NoMemory>
    ensures ok { OnOk result (out.new.items ≡ out.old.items ++ joined (words_of entry.now)) }
    ensures front { OnErr result (take (vec_len out.old) out.new.items ≡ out.old.items) }
{
    match entry {
        Entry::Took(script, event) => push_event(out, "took", *script, event),
        Entry::Drop(script, event) => push_event(out, "drop", *script, event),
        Entry::Clear(script, count) => push_count(out, "clear", *script, u64::from(*count)),
        Entry::Chat(script, voice, channel, text) => {
            push_chat(out, *script, *voice, *channel, text)
        }
        Entry::Owner(script, text) => push_text(out, "owner", *script, text.as_str()),
        Entry::Stopped(script, fault) => push_text(out, "fault", *script, fault_text(*fault)),
        Entry::Done(script, charge) => push_count(out, "done", *script, *charge),
        Entry::Home(object, region) => push_text(out, "home", *object, region.as_str()),
    }
}

#[inline(always)]
fn push_event(out: &mut Vec<u8>, word: &str, script: u32, event: &Event) -> Result<(), NoMemory>
    ensures ok { OnOk result
        (out.new.items ≡ out.old.items ++ joined (word.now ∷ decimal script ∷ event_words event.now)) }
    ensures front { OnErr result (take (vec_len out.old) out.new.items ≡ out.old.items) }
{
    push_head(out, word, script)?;
    push_word(out, event_name(event.id))?;
    push_argument_words(out, event.args.as_slice())
}

#[inline(always)]
fn push_count(out: &mut Vec<u8>, word: &str, script: u32, count: u64) -> Result<(), NoMemory>
    ensures ok { OnOk result
        (out.new.items ≡ out.old.items ++ joined (word.now ∷ decimal script ∷ decimal count ∷ [])) }
    ensures front { OnErr result (take (vec_len out.old) out.new.items ≡ out.old.items) }
{
    push_head(out, word, script)?;
    push_number_word(out, count)
}

#[inline(always)]
fn push_chat(
    out: &mut Vec<u8>,
    script: u32,
    voice: Voice,
    channel: i32,
    text: &Text,
) -> Result<(), NoMemory>
    ensures ok { OnOk result (out.new.items ≡ out.old.items ++ joined
        (codes "chat" ∷ decimal script ∷ voice_word voice ∷ decimal_of channel ∷ text_word text.now ∷ [])) }
    ensures front { OnErr result (take (vec_len out.old) out.new.items ≡ out.old.items) }
{
    push_head(out, "chat", script)?;
    push_word(out, voice_word(voice))?;
    push_integer_word(out, channel)?;
    push_quoted_word(out, text.as_str())
}

#[inline(always)]
fn push_text(out: &mut Vec<u8>, word: &str, number: u32, text: &str) -> Result<(), NoMemory>
    ensures ok { OnOk result
        (out.new.items ≡ out.old.items ++ joined (word.now ∷ decimal number ∷ quoted text.now ∷ [])) }
    ensures front { OnErr result (take (vec_len out.old) out.new.items ≡ out.old.items) }
{
    push_head(out, word, number)?;
    push_quoted_word(out, text)
}

// The first word, and the number of a script or an object.
#[inline(always)]
fn push_head(out: &mut Vec<u8>, word: &str, number: u32) -> Result<(), NoMemory>
    ensures ok { OnOk result (out.new.items ≡ out.old.items ++ joined (word.now ∷ decimal number ∷ [])) }
    ensures front { OnErr result (take (vec_len out.old) out.new.items ≡ out.old.items) }
{
    out.extend_from_slice(word.as_bytes())?;
    push_number_word(out, u64::from(number))
}

fn voice_word(voice: Voice) -> &'static str
    ensures { result.now ≡ voice_word voice }
{
    match voice {
        Voice::Say => "say",
        Voice::Whisper => "whisper",
        Voice::Shout => "shout",
        Voice::Region => "region",
    }
}

fn fault_text(fault: Fault) -> &'static str
    ensures { result.now ≡ fault_text fault }
{
    match fault {
        Fault::MathError => "Math Error",
        Fault::StackHeap => "Stack-Heap Collision",
        Fault::TooManyListens => "Too Many Listens",
    }
}

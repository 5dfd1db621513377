//! The words of a line, each after a space.

ghost use Rattle.std.specs.Prelude.{◌≡◌, ◌++◌, ◌∷◌, [], ◌<◌, decimal, OnOk};
ghost use Rattle.std.specs.Str.{encode_utf8_all};
ghost use Rattle.lsl_text.specs.Number.{decimal_of};
ghost use Rattle.lsl_lines.specs.Journal.{fault_text, spaced, text_word};
ghost use Rattle.lsl_view.specs.State.{fault_words, line};

use itoa::Buffer;
use lsl_running::Fault;
use lsl_text::{NoMemory, push_quoted};
use lsl_value::Text;

/// Appends a word as it is.
pub fn push_word(out: &mut Vec<u8>, word: &str) -> Result<(), NoMemory>
    ensures { OnOk result (out.new.items ≡ out.old.items ++ spaced word.now) }
{
    out.push(b' ')?;
    out.extend_from_slice(word.as_bytes())
}

/// Appends a number in decimal.
pub fn push_number(out: &mut Vec<u8>, n: u64) -> Result<(), NoMemory>
    ensures { OnOk result (out.new.items ≡ out.old.items ++ spaced (decimal n)) }
{
    let mut buffer = Buffer::new();
    push_word(out, buffer.format(n))
}

/// Appends a text in quotes.
pub fn push_text(out: &mut Vec<u8>, text: &Text) -> Result<(), NoMemory>
    ensures { OnOk result (out.new.items ≡ out.old.items ++ spaced (text_word text.now)) }
{
    out.push(b' ')?;
    push_quoted(out, text.bytes())
}

/// Ends a line.
pub fn end_line(out: &mut Vec<u8>) -> Result<(), NoMemory>
    ensures { OnOk result (out.new.items ≡ out.old.items ++ 10 ∷ []) }
{
    out.push(b'\n')?;
    Ok(())
}

/// Appends why a script stopped, as a line.
pub fn push_fault(out: &mut Vec<u8>, fault: Fault) -> Result<(), NoMemory>
    ensures { OnOk result (out.new.items ≡ out.old.items ++ line (fault_words fault)) }
{
    out.extend_from_slice(b"fault ")?;
    push_quoted(out, fault_text(fault).as_bytes())?;
    end_line(out)
}

fn fault_text(fault: Fault) -> &'static str
    ensures { result.now ≡ fault_text fault }
{
    match fault {
        Fault::MathError => "Math Error",
        Fault::StackHeap => "Stack-Heap Collision",
        Fault::TooManyListens => "Too Many Listens",
    }
}

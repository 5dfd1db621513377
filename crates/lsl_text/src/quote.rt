//! Quoted text.

ghost use Rattle.std.specs.Prelude.{◌≡◌, ◌++◌, take, vec_len, MatchOption, OnOk, OnErr};
ghost use Rattle.std.specs.List.{flat_map};
ghost use Rattle.lsl_text.specs.Quoted.{EscapesAt, escaped, quoted};

use crate::NoMemory;
use memchr::memchr3;

/// Appends the text in quotes: `"` and `\` follow a `\`, a line feed becomes `\n`, and every other byte is copied.
///
/// Takes memory where the vector grows; after an `Err` the vector is unchanged.
pub fn push_quoted(out: &mut Vec<u8>, text: &[u8]) -> Result<(), NoMemory>
    ensures ok { OnOk result (out.new.items ≡ out.old.items ++ quoted text.now) }
    ensures unchanged { OnErr result (out.new.items ≡ out.old.items) }
{
    let start = out.len();
    let pushed = push_parts(out, text);
    if pushed.is_err() {
        out.truncate(start);
    }
    pushed
}

// After an `Err` a prefix of the quoted text may follow the old bytes.
fn push_parts(out: &mut Vec<u8>, text: &[u8]) -> Result<(), NoMemory>
    ensures ok { OnOk result (out.new.items ≡ out.old.items ++ quoted text.now) }
    ensures front { OnErr result (take (vec_len out.old) out.new.items ≡ out.old.items) }
{
    out.push(b'"')?;
    push_body(out, text)?;
    out.push(b'"')?;
    Ok(())
}

// Copies each run of bytes that need no escape at once, and then the escaped byte.
fn push_body(out: &mut Vec<u8>, text: &[u8]) -> Result<(), NoMemory>
    ensures ok { OnOk result (out.new.items ≡ out.old.items ++ flat_map escaped text.now) }
    ensures front { OnErr result (take (vec_len out.old) out.new.items ≡ out.old.items) }
{
    let mut done = 0;
    'runs: while let Some(place) = next_escaped(&text[done..]) {
        out.extend_from_slice(&text[done..done + place])?;
        push_escaped(out, text[done + place])?;
        done += place + 1;
    }
    out.extend_from_slice(&text[done..])
}

// The place of the first byte that is escaped.
fn next_escaped(text: &[u8]) -> Option<usize>
    ensures { MatchOption result (flat_map escaped text.now ≡ text.now) (λ place. EscapesAt text.now place) }
{
    memchr3(b'"', b'\\', b'\n', text)
}

fn push_escaped(out: &mut Vec<u8>, b: u8) -> Result<(), NoMemory>
    ensures ok { OnOk result (out.new.items ≡ out.old.items ++ escaped b) }
    ensures unchanged { OnErr result (out.new.items ≡ out.old.items) }
{
    match b {
        b'"' | b'\\' => out.extend_from_slice(&[b'\\', b]),
        b'\n' => out.extend_from_slice(b"\\n"),
        _ => out.extend_from_slice(&[b]),
    }
}

//! The keys of queries.

ghost use Rattle.std.specs.Prelude.{◌≡◌, ◌<◌, ◌^◌, IfOk};
ghost use Rattle.lsl_notes.specs.Queries.{kind_bytes, query_bytes, query_of};

use lsl_text::NoMemory;
use lsl_value::Text;
use std::alloc::Global;
use uuid::Uuid;

/// The key of a query: of a script, by its number, for a line of a notecard, or for the count of its lines.
/// Keys of different script, notecard, line or kind differ.
pub fn query(alloc: Global, script: u32, card: u32, line: Option<u32>) -> Result<Text, NoMemory>
    requires { card < 2 ^ 16 }
    ensures { IfOk result (λ key. key ≡ query_of script card line) }
{
    let id = Uuid::from_bytes(query_bytes(script, card as u16, line));
    let mut buffer = Uuid::encode_buffer();
    let key = id.hyphenated().encode_lower(&mut buffer);
    Text::from_string(String::from_str(alloc, key)?)
}

// The key's sixteen bytes: the script's number, 0000 4000, the kind, the notecard's number, and the line.
fn query_bytes(script: u32, card: u16, line: Option<u32>) -> [u8; 16]
    ensures { result ≡ query_bytes script card line }
{
    let [a, b, c, d] = script.to_be_bytes();
    let [e, f] = card.to_be_bytes();
    let [g, h, i, j] = line.unwrap_or(0).to_be_bytes();
    let [k, l] = kind_bytes(line);
    [a, b, c, d, 0, 0, 0x40, 0, k, l, e, f, g, h, i, j]
}

fn kind_bytes(line: Option<u32>) -> [u8; 2]
    ensures { result ≡ kind_bytes line }
{
    match line {
        Some(_) => [0x80, 0],
        None => [0x8f, 0xff],
    }
}

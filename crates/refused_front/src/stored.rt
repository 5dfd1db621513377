//! Calls of `lsl_bytes`, `lsl_notes` and `lsl_made`.

ghost use Rattle.std.specs.Prelude.{◌≡◌, ◌<◌, ◌^◌, IfOk};
ghost use Rattle.lsl_bytes.specs.Fields.{FitsU16, IsValue, u16_bytes, value_bytes};
ghost use Rattle.lsl_bytes.specs.Places.{Takes};
ghost use Rattle.lsl_made.specs.World.{world_text};
ghost use Rattle.lsl_notes.specs.Notecards.{card_at, data_of, number_of, IsListed};
ghost use Rattle.lsl_notes.specs.Queries.{query_of};

use lsl_bytes::{Taken, take_u16, take_value};
use lsl_made::{Made, made};
use lsl_notes::{Cards, query};
use lsl_text::NoMemory;
use lsl_value::{Text, Value};
use std::alloc::Global;

/// `take_u16`.
pub fn number_taken(bytes: &[u8], place: usize) -> Option<(u16, usize)>
    ensures { Takes u16_bytes FitsU16 bytes.now place result }
{
    take_u16(bytes, place)
}

/// `take_value`.
pub fn value_taken(alloc: Global, bytes: &[u8], place: usize) -> Taken<Value>
    ensures { IfOk result (λ answer. Takes value_bytes IsValue bytes.now place answer) }
{
    take_value(alloc, bytes, place)
}

/// `Cards::find`, `number`.
pub fn card_found(cards: &Cards, prim: u32, name: &Text) -> Option<u32>
    ensures { result ≡ number_of cards.now prim name.now }
{
    cards.find(prim, name)
}

/// `Cards::line`.
pub fn line_told(cards: &Cards, card: u32, line: u32) -> Result<Text, NoMemory>
    requires { IsListed cards.now card }
    ensures { IfOk result (λ text. text ≡ data_of (card_at cards.now card) line) }
{
    cards.line(card, line)
}

/// `query`.
pub fn query_key(alloc: Global, script: u32, card: u32, line: Option<u32>) -> Result<Text, NoMemory>
    requires { card < 2 ^ 16 }
    ensures { IfOk result (λ key. key ≡ query_of script card line) }
{
    query(alloc, script, card, line)
}

/// `made`, `world`.
pub fn world_made(alloc: Global, number: u32) -> Result<Made, NoMemory>
    ensures { IfOk result (λ made. made.world ≡ world_text number) }
{
    made(alloc, number)
}

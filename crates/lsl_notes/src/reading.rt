//! The bytes of a notecard, read.

ghost use Rattle.std.specs.Prelude.{◌≡◌, ◌+◌, ◌≤◌, length, take, count_by, IfOk, IfErr};
ghost use Rattle.lsl_notes.specs.Card.{IsCard, IsRefused};
ghost use Rattle.lsl_notes.specs.Lines.{is_feed};

use crate::card::Card;
use crate::faults::CardFault;
use lsl_text::Refusal;
use std::alloc::Global;

/// How many bytes a notecard has at most.
const MOST_CARD_BYTES: usize = 65_536;

/// The notecard of these bytes. Fault `TooLong` where they are more than 65,536, otherwise `NotText` with the first
/// line, counted from 1, that isn't UTF-8. Takes memory for the text, and a quarter of a byte for each line.
pub fn read_card(alloc: Global, bytes: &[u8]) -> Result<Card, Refusal<CardFault>>
    ensures ok { IfOk result (λ card. IsCard bytes.now card) }
    ensures err { IfErr result (λ refusal. IsRefused bytes.now refusal) }
{
    if bytes.len() > MOST_CARD_BYTES {
        return Err(Refusal::Fault(CardFault::TooLong));
    }
    match std::str::from_utf8(bytes) {
        Ok(text) => Ok(Card::of(alloc, text)?),
        Err(stop) => Err(not_text(bytes, stop.valid_up_to())),
    }
}

// The fault of a notecard whose longest prefix of UTF-8 has `end` bytes: it is in the line in which that prefix ends.
fn not_text(bytes: &[u8], end: usize) -> Refusal<CardFault>
    requires within { end ≤ length bytes.now }
    requires short { length bytes.now ≤ 65536 }
    ensures { result ≡ Refusal.Fault (CardFault.NotText (1 + count_by is_feed (take end bytes.now))) }
{
    let feeds = bytes[..end].iter().filter(|b| **b == b'\n').count();
    Refusal::Fault(CardFault::NotText(1 + feeds as u32))
}

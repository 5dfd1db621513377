//! The notecards of a world, from the texts of their files.

ghost use Rattle.std.specs.Prelude.{◌≡◌, ◌≤◌, ◌<◌, ℕ, List, length, map, All, IfOk, IsErrOf};
ghost use Rattle.lsl_text.specs.declared.Refusal.TheVariants as refusals;
ghost use Rattle.lsl_top.specs.Meant.{bad_at};
ghost use Rattle.lsl_top.specs.Notes.{AreCards, IsBadAt, notecards_of};
ghost use Rattle.lsl_top.specs.declared.noting.BadCard.{BadCard as TheBad};

use lsl_lines::NoteLine;
use lsl_notes::{Card, CardFault, Cards, read_card};
use lsl_text::{NoMemory, Refusal};
use std::alloc::Global;

/// The place of the first text that isn't a notecard, and its fault.
#[derive(Clone, Copy, PartialEq, Eq)]
pub struct BadCard {
    pub place: usize,
    pub fault: CardFault,
}

/// The notecards of a world's lines, whose files have these texts, or the first of the texts that isn't a notecard.
/// Each text is read once, and held once.
pub fn cards_of(
    alloc: Global,
    lines: &[NoteLine],
    texts: &[Vec<u8>],
) -> Result<Cards, Refusal<BadCard>>
    requires few { length lines.now ≤ 256 }
    requires there { All (λ line. line.file < length texts.now) lines.now }
    ensures ok { IfOk result (λ cards. (read : List (List (List ℕ)))
        × AreCards (map (λ t. t.items) texts.now) read × (cards ≡ notecards_of lines.now read)) }
    ensures refused { (bad : TheBad) → IsErrOf result (refusals.Fault bad)
        → IsBadAt (map (λ t. t.items) texts.now) bad.place bad.fault }
{
    let read = read_cards(alloc, texts)?;
    Ok(hold(alloc, lines, read.as_slice())?)
}

// The notecards of these texts, in order, or the first of them that isn't one.
fn read_cards(alloc: Global, texts: &[Vec<u8>]) -> Result<Vec<Card>, Refusal<BadCard>>
    ensures ok { IfOk result (λ read. AreCards (map (λ t. t.items) texts.now) read.items) }
    ensures refused { (bad : TheBad) → IsErrOf result (refusals.Fault bad)
        → IsBadAt (map (λ t. t.items) texts.now) bad.place bad.fault }
    ensures len { IfOk result (λ read. length read.items ≡ length texts.now) }
{
    let mut cards = Vec::new(alloc);
    for (place, text) in texts.iter().enumerate() {
        match read_card(alloc, text.as_slice()) {
            Ok(card) => cards.push(card)?,
            Err(refusal) => return Err(at_place(place, refusal)),
        }
    }
    Ok(cards)
}

// The refusal of the text at a place.
fn at_place(place: usize, refusal: Refusal<CardFault>) -> Refusal<BadCard>
    ensures { result ≡ bad_at place refusal }
{
    match refusal {
        Refusal::Fault(fault) => Refusal::Fault(BadCard { place, fault }),
        Refusal::NoMemory => Refusal::NoMemory,
    }
}

// Builds the world's notecards from its `note` lines and the cards of their files.
fn hold(alloc: Global, lines: &[NoteLine], read: &[Card]) -> Result<Cards, NoMemory>
    requires few { length lines.now ≤ 256 }
    requires there { All (λ line. line.file < length read.now) lines.now }
    ensures { IfOk result (λ cards. cards ≡ notecards_of lines.now read.now) }
{
    let mut cards = Cards::new(alloc);
    for line in lines {
        let card = read[line.file as usize].copy()?;
        cards.add(line.prim, line.name.copy()?, card)?;
    }
    Ok(cards)
}

//! Fields: the cards of all regions.

ghost use Rattle.std.specs.Prelude.{◌≡◌, ◌↔◌, All, IfOk, IsTrue, OnErr, MatchResult, is_some, length};
ghost use Rattle.lsl_handoff.specs.Cards.{cause, depart_fault, is_live};
ghost use Rattle.lsl_handoff.specs.Fields.{HasCard, IsFirstLive, IsOneOf, card_at, cards_at_start, cards_of, does, field_at_start};
ghost use Rattle.lsl_handoff.specs.Rules.{Depart, Again, GiveUp, Deliver, awaited};

use crate::card::Card;
use crate::faults::DepartFault;
use crate::note::Note;
use crate::parcel::Parcel;
use lsl_text::NoMemory;
use std::alloc::Global;
use std::marker::Model;

// The cards of one object.
#[derive(Drop)]
struct Cards {
    list: Vec<Card>,
}

impl Model for Cards {
    ghost use Rattle.std.specs.Prelude.{List, ◌<◌, ◌^◌, length};
    ghost use Rattle.lsl_handoff.specs.declared.card.Card.{Card as ACard};

    ghost Value = { List ACard };

    ghost view = { λ c. c.list.items };

    ghost invariant = { λ c. length c.list.items < 2 ^ 32 };
}

impl Cards {
    // The cards of an object that is at home in this region, out of `regions`.
    fn at_start(alloc: Global, regions: u32, home: u32) -> Result<Cards, NoMemory>
        requires { IsOneOf regions home }
        ensures { IfOk result (λ cards. cards ≡ cards_at_start regions home) }
    {
        let mut list = Vec::new(alloc);
        for _region in 0..regions {
            list.push(Card::blank())?;
        }
        list[(home - 1) as usize] = Card::home();
        Ok(Cards { list })
    }

    // Whether there is a card of this region.
    fn has(&self, region: u32) -> bool
        ensures { IsTrue result ↔ IsOneOf (length self.now) region }
    {
        region >= 1 && region as usize <= self.list.len()
    }

    // The first region with a live card.
    fn live(&self) -> Option<u32>
        ensures { IsFirstLive self.now result }
    {
        for (i, card) in self.list.iter().enumerate() {
            if card.is_live() {
                return Some(i as u32 + 1);
            }
        }
        None
    }
}

/// The cards that all regions have of all objects.
#[derive(Drop)]
pub struct Field {
    objects: Vec<Cards>,
}

impl Model for Field {
    ghost use Rattle.std.specs.Prelude.{List};
    ghost use Rattle.lsl_handoff.specs.declared.card.Card.{Card as ACard};

    ghost Value = { List (List ACard) };

    ghost view = { λ f. f.objects.items };
}

impl Field {
    /// The cards of objects that are at home in these regions, out of `regions`. Takes a card for each object and
    /// region.
    pub fn new(alloc: Global, homes: &[u32], regions: u32) -> Result<Field, NoMemory>
        requires { All (IsOneOf regions) homes.now }
        ensures { IfOk result (λ field. field ≡ field_at_start homes.now regions) }
    {
        let mut objects = Vec::new(alloc);
        for home in homes {
            objects.push(Cards::at_start(alloc, regions, *home)?)?;
        }
        Ok(Field { objects })
    }

    /// Whether the region has a card of the object: whether both numbers are there. Takes no memory.
    pub fn has_card(&self, region: u32, object: u32) -> bool
        ensures { IsTrue result ↔ HasCard self.now object region }
    {
        if object == 0 || object as usize > self.objects.len() {
            return false;
        }
        self.objects[(object - 1) as usize].has(region)
    }

    /// Starts the object's trip from this region to another as this parcel, and returns the offer to send. Takes memory
    /// for the offer's parcel; after an error the field is unchanged.
    pub fn depart(
        &mut self,
        region: u32,
        object: u32,
        to: u32,
        parcel: Parcel,
    ) -> Result<Note, DepartFault>
        requires { HasCard self.old object region }
        ensures ok { IfOk result (λ note. does self.old (Depart region object to parcel) ≡ (self.new, Some note)) }
        ensures unchanged { OnErr result (self.new ≡ self.old) }
        ensures first { MatchResult result (λ _. depart_fault (card_at self.old object region) region to ≡ None)
            (λ fault. depart_fault (card_at self.old object region) region to ≡ cause fault) }
    {
        self.objects[(object - 1) as usize].list[(region - 1) as usize].depart(
            region, object, to, parcel,
        )
    }

    /// What this region sends once more about the object: its offer or its cancel while no answer came. None exactly
    /// where the object is away or live. Takes memory for an offer's parcel.
    pub fn again(&self, region: u32, object: u32) -> Result<Option<Note>, NoMemory>
        requires { HasCard self.now object region }
        ensures { IfOk result (λ note. does self.now (Again region object) ≡ (self.now, note)) }
    {
        self.objects[(object - 1) as usize].list[(region - 1) as usize].again(region, object)
    }

    /// Whether this region awaits an answer about the object. Takes no memory.
    pub fn awaits(&self, region: u32, object: u32) -> bool
        requires { HasCard self.now object region }
        ensures { (let card = card_at self.now object region in
            result ≡ is_some (awaited card.phase card.trip region object)) }
    {
        self.objects[(object - 1) as usize].list[(region - 1) as usize].awaits(region, object)
    }

    /// Whether the object is live in this region. Takes no memory.
    pub fn is_live(&self, region: u32, object: u32) -> bool
        requires { HasCard self.now object region }
        ensures { result ≡ is_live (card_at self.now object region).phase }
    {
        self.objects[(object - 1) as usize].list[(region - 1) as usize].is_live()
    }

    /// The last trip of the object that this region heard of. Takes no memory.
    pub fn trip(&self, region: u32, object: u32) -> u64
        requires { HasCard self.now object region }
        ensures { result ≡ (card_at self.now object region).trip }
    {
        self.objects[(object - 1) as usize].list[(region - 1) as usize].trip
    }

    /// Calls the object back. Returns the cancel to send, and none exactly if the object isn't leaving. Takes no
    /// memory.
    pub fn give_up(&mut self, region: u32, object: u32) -> Option<Note>
        requires { HasCard self.old object region }
        ensures { does self.old (GiveUp region object) ≡ (self.new, result) }
    {
        self.objects[(object - 1) as usize].list[(region - 1) as usize].give_up(region, object)
    }

    /// Delivers a note to the region that it is for. Returns the answer, and none exactly to a note that is one. Takes
    /// no memory.
    pub fn deliver(&mut self, note: Note) -> Option<Note>
        requires { HasCard self.old note.object note.to }
        ensures { does self.old (Deliver note) ≡ (self.new, result) }
    {
        self.objects[(note.object - 1) as usize].list[(note.to - 1) as usize].deliver(note)
    }

    /// The first region where the object is live, and none exactly if it is live in none. Walks the object's cards;
    /// takes no memory.
    pub fn live(&self, object: u32) -> Option<u32>
        requires { IsOneOf (length self.now) object }
        ensures { IsFirstLive (cards_of self.now object) result }
    {
        self.objects[(object - 1) as usize].live()
    }
}

//! The labels of a block, found by their numbers without a search.

ghost use Rattle.std.specs.Prelude.{◌≡◌, ◌≤◌, ◌<◌, ℕ, OnOk, IfOk, All, length, get_or};
ghost use Rattle.lsl_gen.specs.OpenJumps.{found_place};
ghost use Rattle.lsl_gen.specs.LabelTables.{unless_told, IsIndexed};

use crate::label_places::LabelPlace;
use crate::numbers::add;
use lsl_text::NoMemory;
use std::alloc::Global;
use std::marker::Model;

/// The labels of a block, in order. `places` has an entry for each number from `first` on: the place of the first label
/// that has it.
#[derive(Drop)]
pub struct Labels {
    labels: Vec<LabelPlace>,
    first: usize,
    places: Vec<Option<usize>>,
}

impl Model for Labels {
    ghost use Rattle.std.specs.Prelude.{List};
    ghost use Rattle.lsl_gen.specs.declared.label_places.LabelPlace.{LabelPlace};
    ghost use Rattle.lsl_gen.specs.LabelTables.{IsIndexed};

    ghost Value = { List LabelPlace };

    ghost view = { λ l. l.labels.items };

    ghost invariant = { λ l. IsIndexed l.first l.places.items l.labels.items };
}

impl Labels {
    /// These labels. Takes memory for an entry for each number from the least one to the greatest.
    pub fn new(alloc: Global, labels: Vec<LabelPlace>) -> Result<Labels, NoMemory>
        ensures { IfOk result (λ l. l ≡ labels.items) }
    {
        let first = least(&labels);
        let places = indexed(alloc, &labels, first)?;
        Ok(Labels {
            labels,
            first,
            places,
        })
    }

    /// The place of the first label of this number.
    pub fn place(&self, label: usize) -> Option<usize>
        ensures { result ≡ found_place label self.now }
    {
        if label < self.first {
            return None;
        }
        match self.places.get(label - self.first) {
            Some(place) => *place,
            None => None,
        }
    }
}

// A number that no label is below.
fn least(labels: &[LabelPlace]) -> usize
    ensures { All (λ x. result ≤ x.label) labels.now }
{
    let mut first = usize::MAX;
    for x in labels {
        first = first.min(x.label);
    }
    first
}

// The places of the labels, the first number's at first.
fn indexed(
    alloc: Global,
    labels: &[LabelPlace],
    first: usize,
) -> Result<Vec<Option<usize>>, NoMemory>
    requires { All (λ x. first ≤ x.label) labels.now }
    ensures { IfOk result (λ places. IsIndexed first places.items labels.now) }
{
    let mut places = Vec::new(alloc);
    for x in labels {
        enter(&mut places, x.label - first, x.place)?;
    }
    Ok(places)
}

// Adds the place of a label, unless an earlier one has its entry.
fn enter(places: &mut Vec<Option<usize>>, entry: usize, place: usize) -> Result<(), NoMemory>
    ensures { OnOk result ((k : ℕ)
        → get_or places.new.items k None ≡ unless_told (get_or places.old.items k None) k entry place) }
{
    widen(places, entry)?;
    if places[entry].is_none() {
        places[entry] = Some(place);
    }
    Ok(())
}

// Makes room for this entry.
fn widen(places: &mut Vec<Option<usize>>, entry: usize) -> Result<(), NoMemory>
    ensures same { (k : ℕ) → get_or places.new.items k None ≡ get_or places.old.items k None }
    ensures room { OnOk result (entry < length places.new.items) }
{
    let count = add(entry, 1)?;
    let missing = count.saturating_sub(places.len());
    for _ in 0..missing {
        places.push(None)?;
    }
    Ok(())
}

//! A link whose trips are in memory. It fails at the calls that are set to fail, and damages or replaces what comes
//! back of others.
ghost use Rattle.std.specs.Prelude.{◌≡◌, ◌≤◌, ◌⊎◌, [], ◌∷◌, ◌++◌, Some, None, ◌==◌, option_map, IfOk, IsErrOf, OnErr, OnOk};
ghost use Rattle.std.specs.List.{find};
ghost use Rattle.lsl_ports.specs.Counts.{Rose, raised};
ghost use Rattle.lsl_ports.specs.Growth.{Grew};
ghost use Rattle.lsl_ports.specs.Trips.{Trip};
ghost use Rattle.lsl_ports.specs.Stored.{DamagedByte, HasListsOf, LinkState, ReplacedBytes, after_carry, back_of, damaged, new_link, replaced};

use crate::{Link, LinkFault};
use std::alloc::{AllocError, Global};
use std::marker::Model;

/// A trip of a link in memory: what was sent, and what came back, or none where that carrying failed.
#[derive(Drop)]
pub struct StoredTrip {
    sent: Vec<u8>,
    back: Option<Vec<u8>>,
}

impl Model for StoredTrip {
    ghost use Rattle.std.specs.Prelude.{option_map};
    ghost use Rattle.lsl_ports.specs.Trips.{Trip};

    ghost Value = { Trip };

    ghost view = { λ trip. record { sent = trip.sent.items; back = option_map (λ back. back.items) trip.back } };
}

impl StoredTrip {
    /// What was sent.
    pub fn sent(&self) -> &[u8]
        ensures { result.now ≡ self.now.sent }
    {
        self.sent.as_slice()
    }

    /// What came back, or none where that carrying failed.
    pub fn back(&self) -> Option<&[u8]>
        ensures { option_map (λ back. back.now) result ≡ self.now.back }
    {
        match &self.back {
            Some(back) => Some(back.as_slice()),
            None => None,
        }
    }

    /// A trip of which these bytes came back. It takes memory for copies of both.
    fn delivered(alloc: Global, sent: &[u8], back: &[u8]) -> Result<StoredTrip, AllocError>
        ensures { IfOk result (λ trip. trip ≡ record { sent = sent.now; back = Some back.now }) }
    {
        let sent = Vec::from_slice(alloc, sent)?;
        let back = Vec::from_slice(alloc, back)?;
        Ok(StoredTrip {
            sent,
            back: Some(back),
        })
    }

    /// A trip of which nothing came back. It takes memory for a copy of what was sent.
    fn lost(alloc: Global, sent: &[u8]) -> Result<StoredTrip, AllocError>
        ensures { IfOk result (λ trip. trip ≡ record { sent = sent.now; back = None }) }
    {
        let sent = Vec::from_slice(alloc, sent)?;
        Ok(StoredTrip { sent, back: None })
    }
}

/// A byte that is changed in what comes back of one call. Calls are counted from 1.
#[derive(Drop)]
pub struct Damage {
    call: u64,
    place: usize,
    byte: u8,
}

impl Model for Damage {
    ghost use Rattle.lsl_ports.specs.Stored.{DamagedByte};

    ghost Value = { DamagedByte };

    ghost view = { λ damage. record { call = damage.call; place = damage.place; byte = damage.byte } };
}

impl Damage {
    /// The byte at that place becomes this one, in what comes back of that call. It takes no memory.
    pub fn new(call: u64, place: usize, byte: u8) -> Damage
        ensures { result ≡ record { call = call; place = place; byte = byte } }
    {
        Damage { call, place, byte }
    }
}

/// What comes back of one call in place of what was sent. Calls are counted from 1.
#[derive(Drop)]
pub struct Replacement {
    call: u64,
    bytes: Vec<u8>,
}

impl Model for Replacement {
    ghost use Rattle.lsl_ports.specs.Stored.{ReplacedBytes};

    ghost Value = { ReplacedBytes };

    ghost view = { λ replacement. record { call = replacement.call; bytes = replacement.bytes.items } };
}

impl Replacement {
    /// These bytes come back of that call. It takes no memory.
    pub fn new(call: u64, bytes: Vec<u8>) -> Replacement
        ensures { result ≡ record { call = call; bytes = bytes.items } }
    {
        Replacement { call, bytes }
    }

    /// Whether it is of that call.
    fn is_of(&self, call: u64) -> bool
        ensures { result ≡ (self.now.call == call) }
    {
        self.call == call
    }

    fn bytes(&self) -> &[u8]
        ensures { result.now ≡ self.now.bytes }
    {
        self.bytes.as_slice()
    }
}

/// The first replacement of that call.
fn replacement_of(replacements: &[Replacement], call: u64) -> Option<&Replacement>
    ensures { option_map (λ r. r.now) result ≡ find (λ (r : ReplacedBytes). r.call == call) replacements.now }
{
    replacements
        .iter()
        .find(|replacement| replacement.is_of(call))
}

/// What comes back of a call before it is damaged.
fn replaced_by<'a>(replacements: &'a [Replacement], call: u64, sent: &'a [u8]) -> &'a [u8]
    ensures { result.now ≡ replaced replacements.now call sent.now }
{
    match replacement_of(replacements, call) {
        Some(replacement) => replacement.bytes(),
        None => sent,
    }
}

/// Applies the damages of that call, in order.
fn apply_damages(damages: &[Damage], call: u64, bytes: &mut [u8])
    ensures { bytes.new ≡ damaged damages.now call bytes.old }
{
    for damage in damages {
        if damage.call == call && damage.place < bytes.len() {
            bytes[damage.place] = damage.byte;
        }
    }
}

/// A link in memory, which reports its trips. Calls are counted from 1.
///
/// The calls whose numbers it was given fail, and each adds to its count of faults. The others bring back what was
/// sent, or the first replacement with the call's number, with all damages of that number applied in order. A call that
/// runs out of memory isn't counted.
#[derive(Drop)]
pub struct MemoryLink {
    trips: Vec<StoredTrip>,
    failing: Vec<u64>,
    damages: Vec<Damage>,
    replacements: Vec<Replacement>,
    calls: u64,
    faults: u64,
}

impl Model for MemoryLink {
    ghost use Rattle.lsl_ports.specs.Stored.{LinkState};

    ghost Value = { LinkState };

    ghost view = { λ s. record {
      trips = s.trips.items;
      failing = s.failing.items;
      damages = s.damages.items;
      replacements = s.replacements.items;
      calls = s.calls;
      faults = s.faults;
    } };
}

impl MemoryLink {
    /// A link whose calls with the numbers in `failing` fail, and which otherwise brings back what was sent. It takes
    /// no memory.
    pub fn new(alloc: Global, failing: Vec<u64>) -> MemoryLink
        ensures { result ≡ new_link failing.items [] [] }
    {
        MemoryLink::with_lists(alloc, failing, Vec::new(alloc), Vec::new(alloc))
    }

    /// A link whose calls with the numbers in `failing` fail, with damages and replacements of what comes back of the
    /// others. It takes no memory.
    pub fn with_lists(
        alloc: Global,
        failing: Vec<u64>,
        damages: Vec<Damage>,
        replacements: Vec<Replacement>,
    ) -> MemoryLink
        ensures { result ≡ new_link failing.items damages.items replacements.items }
    {
        MemoryLink {
            trips: Vec::new(alloc),
            failing,
            damages,
            replacements,
            calls: 0,
            faults: 0,
        }
    }

    /// All trips, in order.
    pub fn trips(&self) -> &[StoredTrip]
        ensures { result.now ≡ self.now.trips }
    {
        self.trips.as_slice()
    }

    /// How many calls failed.
    pub fn fault_count(&self) -> u64
        ensures { result ≡ self.now.faults }
    {
        self.faults
    }

    /// Keeps that nothing came back of these bytes.
    fn lose(&mut self, alloc: Global, sent: &[u8]) -> Result<(), AllocError>
        ensures trips { OnOk result (self.new.trips ≡ self.old.trips ++ record { sent = sent.now; back = None } ∷ []) }
        ensures counts { OnOk result ((self.new.calls ≡ raised self.old.calls)
            × (self.new.faults ≡ raised self.old.faults)) }
        ensures counted { self.old.faults ≤ self.new.faults }
        ensures lists { HasListsOf self.new self.old }
        ensures unchanged { OnErr result (self.new ≡ self.old) }
    {
        self.trips.push(StoredTrip::lost(alloc, sent)?)?;
        self.calls = self.calls.saturating_add(1);
        self.faults = self.faults.saturating_add(1);
        Ok(())
    }

    /// What comes back of the call of that number. It takes memory for a copy.
    fn back(&self, alloc: Global, call: u64, sent: &[u8]) -> Result<Vec<u8>, AllocError>
        ensures { IfOk result (λ back. back.items
            ≡ damaged self.now.damages call (replaced self.now.replacements call sent.now)) }
    {
        let bytes = replaced_by(self.replacements.as_slice(), call, sent);
        let mut back = Vec::from_slice(alloc, bytes)?;
        apply_damages(self.damages.as_slice(), call, back.as_mut_slice());
        Ok(back)
    }

    /// Keeps that these bytes came back.
    fn deliver(&mut self, alloc: Global, sent: &[u8], back: &[u8]) -> Result<(), AllocError>
        ensures trips { OnOk result (self.new.trips
            ≡ self.old.trips ++ record { sent = sent.now; back = Some back.now } ∷ []) }
        ensures counts { OnOk result ((self.new.calls ≡ raised self.old.calls)
            × (self.new.faults ≡ self.old.faults)) }
        ensures lists { HasListsOf self.new self.old }
        ensures unchanged { OnErr result (self.new ≡ self.old) }
    {
        self.trips.push(StoredTrip::delivered(alloc, sent, back)?)?;
        self.calls = self.calls.saturating_add(1);
        Ok(())
    }
}

impl Link for MemoryLink {
    ghost trips = { λ s. Some s.trips };

    ghost faults = { λ s. s.faults };

    ghost gives = { λ _ _. Unit {0} };

    fn carry(&mut self, alloc: Global, sent: &[u8]) -> Result<Vec<u8>, LinkFault>
        ensures ok { IfOk result (λ back. Grew (Some self.old.trips) (Some self.new.trips)
            (record { sent = sent.now; back = Some back.items } ∷ [])) }
        ensures lost { IsErrOf result LinkFault.Failed → Grew (Some self.old.trips) (Some self.new.trips)
            (record { sent = sent.now; back = None } ∷ []) }
        ensures memory { IsErrOf result LinkFault.NoMemory → Some self.new.trips ≡ Some self.old.trips }
        ensures given { IfOk result (λ _. Unit {0}) }
        ensures none_given { IsErrOf result LinkFault.Failed → Unit {0} }
        ensures err { IsErrOf result LinkFault.Failed → Rose self.old.faults self.new.faults }
        ensures counted { self.old.faults ≤ self.new.faults }
        ensures back { IfOk result (λ back. back_of self.old sent.now ≡ Some back.items) }
        ensures fails { IsErrOf result LinkFault.Failed → back_of self.old sent.now ≡ None }
        ensures after { IsErrOf result LinkFault.NoMemory ⊎ (self.new ≡ after_carry self.old sent.now) }
        ensures unchanged { IsErrOf result LinkFault.NoMemory → self.new ≡ self.old }
    {
        let call = self.calls.saturating_add(1);
        if self.failing.contains(&call) {
            self.lose(alloc, sent)?;
            return Err(LinkFault::Failed);
        }
        let back = self.back(alloc, call, sent)?;
        self.deliver(alloc, sent, back.as_slice())?;
        Ok(back)
    }
}

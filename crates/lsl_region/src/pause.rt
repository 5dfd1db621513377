//! Pausing: at which segments a script is saved and restored in the middle of a turn, and how many saves there were.

ghost use Rattle.std.specs.Prelude.{◌≡◌, ◌+◌, ◌<◌, ◌%◌, [], false, true};
ghost use Rattle.lsl_region.specs.Pausing.{AreGaps, Counts, Tally, is_pausing, no_tally, with_gaps, with_save, with_segment};

use lsl_code::Sequence;
use std::alloc::Global;
use std::marker::Model;

/// The gaps between pausing segments, which repeat, and how many saves there were.
#[derive(Drop)]
pub struct Pause {
    gaps: Vec<u32>,
    /// the place of the next gap
    next: usize,
    /// the segments since the last gap
    count: u32,
    saves: u64,
}

impl Model for Pause {
    ghost use Rattle.lsl_region.specs.Pausing.{Cursor, IsCursor};

    ghost Value = { Cursor };

    ghost view = { λ p. record { gaps = p.gaps.items; next = p.next; count = p.count; saves = p.saves } };

    ghost invariant = { λ p.
        IsCursor (record { gaps = p.gaps.items; next = p.next; count = p.count; saves = p.saves }) };
}

impl Pause {
    /// No gaps, and nothing was saved. Takes no memory.
    pub fn off(alloc: Global) -> Pause
        ensures { Counts result no_tally }
    {
        Pause {
            gaps: Vec::new(alloc),
            next: 0,
            count: 0,
            saves: 0,
        }
    }

    /// These gaps from the next segment on, each at least 1, or none, to pause no more. The saves stay. Takes no
    /// memory.
    pub fn set(&mut self, gaps: Sequence<u32>)
        requires { AreGaps gaps }
        ensures { (t : Tally) → Counts self.old t → Counts self.new (with_gaps gaps t) }
    {
        let gaps = gaps.into_vec();
        *self = Pause {
            gaps,
            next: 0,
            count: 0,
            saves: self.saves,
        };
    }

    /// How many saves there were; the count saturates. Takes no memory.
    pub fn saves(&self) -> u64
        ensures { result ≡ self.now.saves }
    {
        self.saves
    }

    /// Whether there are gaps.
    pub(crate) fn is_on(&self) -> bool
        ensures { result ≡ false → self.now.gaps ≡ [] }
    {
        !self.gaps.is_empty()
    }

    /// Counts a segment, and returns whether it is pausing.
    pub(crate) fn pass(&mut self) -> bool
        ensures passed { (t : Tally) → Counts self.old t →
            (result ≡ is_pausing t.gaps (t.passed + 1)) × Counts self.new (with_segment t) }
        ensures gaps { self.new.gaps ≡ self.old.gaps }
    {
        if self.gaps.is_empty() {
            return false;
        }
        let gap = self.gaps[self.next];
        if self.count + 1 < gap {
            self.count += 1;
            return false;
        }
        self.count = 0;
        self.next = next_place(self.next, self.gaps.len());
        true
    }

    /// Counts a save.
    pub(crate) fn count(&mut self)
        ensures counted { (t : Tally) → Counts self.old t → Counts self.new (with_save true t) }
        ensures gaps { self.new.gaps ≡ self.old.gaps }
    {
        self.saves = self.saves.saturating_add(1);
    }
}

// The next index, wrapping around.
fn next_place(place: usize, len: usize) -> usize
    requires { place < len }
    ensures { result ≡ (place + 1) % len }
{
    if place + 1 < len { place + 1 } else { 0 }
}
